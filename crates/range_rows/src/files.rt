//! Certificates, and one more instance.

/// What shows the best plan of two sites.
pub const CERTIFICATE: &str =
    "dualoc-certificate 1\nsites 2 customers 3\nclaim optimal 22.000000\nopen 1\nserve 1 1 1\nleaf 1 0\nv 11000000 2000000 9000000\nu\nend\n";

/// The same with a leaf that offers less.
pub const OPEN_LEAF: &str =
    "dualoc-certificate 1\nsites 2 customers 3\nclaim optimal 22.000000\nopen 1\nserve 1 1 1\nleaf 1 0\nv 11000000 2000000 8000000\nu\nend\n";

/// It shows a bracket.
pub const BRACKET: &str =
    "dualoc-certificate 1\nsites 2 customers 3\nclaim bracket 21.000000 22.000000\nopen 1\nserve 1 1 1\nleaf 1 0\nv 11000000 2000000 9000000\nu\nend\n";

/// A ring of three sites, in the suite's own form: of each site one lane is missing.
pub const RING_OWN: &str =
    "dualoc-instance 1\nsites 3 next 4\ncustomers 3 next 4\ncount 0 3000\ncustomer 1 0\ncustomer 2 0\ncustomer 3 0\nsite 1 2 none 0 0 none\nsite 2 2 none none 0 0\nsite 3 2 none 0 none 0\nend\n";

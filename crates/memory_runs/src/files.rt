//! Files of instances, a plan and a certificate of some, and where a file ends.

/// Two sites without capacities, and three customers.
pub const TWO_SITES: &str = "FILE: a\n2 3 0\n1 10 1 2 9\n2 12 8 7 1\n";

/// The text of its best plan.
pub const TWO_SITES_PLAN: &str =
    "dualoc-plan 1\noptimal 22.000000\nsite 1 10.000000\nserve 1 1 1.000000\nserve 2 1 2.000000\nserve 3 1 9.000000\nend\n";

/// The two sites in the suite's own form.
pub const TWO_SITES_OWN: &str =
    "dualoc-instance 1\nsites 2 next 3\ncustomers 3 next 4\ncount 0 3000\ncustomer 1 0.000000\ncustomer 2 0.000000\ncustomer 3 0.000000\nsite 1 10.000000 none 1.000000 2.000000 9.000000\nsite 2 12.000000 none 8.000000 7.000000 1.000000\nend\n";

/// Three customers around a ring of three sites: any two sites serve them for 4, one site for 6.
pub const RING: &str = "3 3 0\n1 2 0 0 4\n2 2 4 0 0\n3 2 0 4 0\n";

/// A certificate of its least cost.
pub const RING_CERTIFICATE: &str =
    "dualoc-certificate 1\nsites 3 customers 3\nclaim optimal 4.000000\nopen 1 3\nserve 1 1 3\nsite 1\nleaf 1 0\nv 2000000 2000000 0\nu\nleaf 1 0\nv 0 0 2000000\nu\nend\n";

/// Two warehouses and two customers, whose capacities are numbers.
pub const WAREHOUSES: &str = "2 2\n10 7500\n10 .5\n6 6739.725 1.25\n6 3 4\n";

/// The same, with capacities that stand for that of the option.
pub const WORDED: &str = "2 2\ncapacity 7500\ncapacity .5\n6 6739.725 1.25\n6 3 4\n";

/// Three vertices in a row and one median. The last edge between 1 and 2 counts.
pub const NETWORK: &str = "3 3 1\n1 2 5\n2 3 7\n1 2 4\n";

/// One past the place of the last word, by lines and by words of a line, each counted from 1; found a byte at a time.
pub fn place_behind(text: &[u8]) -> (u32, u32) {
    let (mut line, mut word, mut inside) = (1u32, 0u32, false);
    let mut end = (1, 1);
    for byte in text {
        let blank = *byte == b' ' || *byte == b'\n';
        if !blank && !inside {
            word = word.saturating_add(1);
            end = (line, word.saturating_add(1));
        }
        inside = !blank;
        if *byte == b'\n' {
            line = line.saturating_add(1);
            word = 0;
        }
    }
    end
}

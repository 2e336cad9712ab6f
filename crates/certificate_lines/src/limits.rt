/// The most bytes of a certificate that are looked at, 2^30.
pub const MAX_CERTIFICATE_BYTES: u64 = 1_073_741_824;

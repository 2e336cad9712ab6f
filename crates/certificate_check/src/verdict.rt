use location_terms::Claim;
use plan_meaning::PlanFault;

/// What the checker says of a certificate that it could read up to the line that decides.
#[derive(Clone, Copy, Debug, PartialEq, Eq)]
pub enum Verdict {
    /// The certificate shows this claim.
    Yes(Claim),
    /// It does not, and this line is the first that shows why.
    No { line: u64, why: Why },
}

/// What speaks against a certificate.
#[derive(Clone, Copy, Debug, PartialEq, Eq)]
pub enum Why {
    /// The plan is not feasible for the instance.
    PlanRefused(PlanFault),
    /// The plan costs this many millionths, which is not what is claimed.
    CostDiffers { found: u64 },
    /// A leaf with this bound and this scale does not close.
    LeafOpen { bound: i128, q: u32 },
}

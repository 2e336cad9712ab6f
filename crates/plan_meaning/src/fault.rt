ghost use Rattle.std.specs.Prelude.{◌≡◌};

use thiserror::Error;

/// Why a plan is not feasible: the first of these that is the case, in this order.
#[derive(Clone, Copy, Debug, PartialEq, Eq, Error)]
pub enum PlanFault {
    /// An open site is not in the instance.
    #[error("an open site is not in the instance")]
    UnknownSite,
    /// The plan's customers are not just those of the instance.
    #[error("the customers are not those of the instance, each once")]
    NotEachCustomerOnce,
    /// A customer's site is not open.
    #[error("a customer is served from a closed site")]
    ServedByClosed,
    /// A customer's site has no lane to it.
    #[error("a customer is served without a lane")]
    NoLane,
    /// The demands that an open site serves are together above its capacity.
    #[error("a site serves more than its capacity")]
    OverCapacity,
    /// The number of open sites is not within the bounds of the instance.
    #[error("the number of open sites is out of bounds")]
    SiteCount,
    /// A site that must be open is closed, or one that must be closed is open.
    #[error("a site is not as its status asks")]
    StatusBroken,
}

impl PlanFault {
    ghost use Rattle.plan_meaning.specs.PlanFault.{fault_name};

    /// The name of the fault as the checker prints it, which is that of the variant.
    pub fn name(self) -> &'static str
        ensures { result.now ≡ fault_name self }
    {
        match self {
            PlanFault::UnknownSite => "UnknownSite",
            PlanFault::NotEachCustomerOnce => "NotEachCustomerOnce",
            PlanFault::ServedByClosed => "ServedByClosed",
            PlanFault::NoLane => "NoLane",
            PlanFault::OverCapacity => "OverCapacity",
            PlanFault::SiteCount => "SiteCount",
            PlanFault::StatusBroken => "StatusBroken",
        }
    }
}

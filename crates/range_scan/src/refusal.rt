use instance_store::NoMemory;
use thiserror::Error;

/// Why there is no range: the first of these that isn't in the instance, in this order, or memory ran out.
#[derive(Clone, Copy, Debug, PartialEq, Eq, Error)]
pub enum RangeRefusal {
    /// The instance has no site of this id.
    #[error("no such site")]
    NoSite,
    /// The instance has no customer of this id.
    #[error("no such customer")]
    NoCustomer,
    /// The instance has no lane between the two.
    #[error("no such lane")]
    NoLane,
    /// Memory ran out.
    #[error("out of memory")]
    NoMemory,
}

impl From<NoMemory> for RangeRefusal {
    ghost use Rattle.std.specs.Prelude.{◌≡◌};
    ghost use Rattle.range_scan.specs.declared.refusal.RangeRefusal.TheVariants.{NoMemory};

    ghost from_gives = { λ _ fault. fault ≡ NoMemory };

    fn from(_e: NoMemory) -> RangeRefusal {
        RangeRefusal::NoMemory
    }
}

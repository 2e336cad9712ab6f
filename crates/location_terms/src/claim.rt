//! What is claimed of an instance.
ghost use Rattle.std.specs.Prelude.{◌≡◌};
ghost use Rattle.location_terms.specs.Certificate.{cost_claimed, target_of};

/// What is claimed of an instance, costs in millionths.
#[derive(Clone, Copy, Debug, PartialEq, Eq)]
pub enum Claim {
    /// A plan of this cost is feasible, and no feasible plan costs less.
    Optimal(u64),
    /// No plan is feasible.
    Infeasible,
    /// No feasible plan costs less than `low`, and where there is a `high`, one costs just that.
    Bracket { low: u64, high: Option<u64> },
}

impl Claim {
    /// What a plan of the claim is to cost; None where the claim has no plan.
    pub fn cost(self) -> Option<u64>
        ensures { result ≡ cost_claimed self }
    {
        match self {
            Claim::Optimal(cost) => Some(cost),
            Claim::Infeasible => None,
            Claim::Bracket { high, .. } => high,
        }
    }

    /// The cost against which each leaf of a tree that shows the claim closes; None where no plan is
    /// feasible at all.
    pub fn target(self) -> Option<u64>
        ensures { result ≡ target_of self }
    {
        match self {
            Claim::Optimal(cost) => Some(cost),
            Claim::Infeasible => None,
            Claim::Bracket { low, .. } => Some(low),
        }
    }
}

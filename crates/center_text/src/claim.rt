/// What is known of the best radius of a plan: of how near the farthest customer can be. Radii are in
/// millionths.
#[derive(Clone, Copy, Debug, PartialEq, Eq)]
pub enum RadiusClaim {
    /// The best radius is this.
    Best(u64),
    /// No plan is feasible, so there is none.
    Infeasible,
    /// No plan has a radius below `low`. The plan that is known, where there is one, has the radius `high`.
    Bracket { low: u64, high: Option<u64> },
}

//! What holds of radii and of cheap lanes, by the definitions alone. Each law is the contract of a function
//! that does nothing.
ghost use Rattle.std.specs.Prelude.{ℕ, ◌<◌, ◌↔◌, None};
ghost use Rattle.location_terms.specs.Instance.{Instance, IsValid};
ghost use Rattle.location_terms.specs.Plan.{Plan, IsFeasible};
ghost use Rattle.location_terms.specs.Optimal.{IsImpossible};
ghost use Rattle.location_terms.specs.Tree.{Tree, AllClose};
ghost use Rattle.plan_radius.specs.Radius.{radius_of, IsLeastRadius};
ghost use Rattle.plan_radius.specs.Cheaper.{below_cost, without_costs};

/// The feasible plans of the instance with the lanes below a cost are the feasible ones of a radius below
/// that, and what things cost doesn't count for what is feasible.
pub fn cheap_plans()
    ensures cheap { (I : Instance) (r : ℕ) (P : Plan) → IsValid I →
        IsFeasible (below_cost I r) P ↔ (IsFeasible I P × (radius_of I P < r)) }
    ensures costless { (I : Instance) (P : Plan) → IsFeasible (without_costs I) P ↔ IsFeasible I P }
{}

/// No feasible plan has a radius below a cost exactly where the lanes below that cost allow no plan.
pub fn least_radii()
    ensures { (I : Instance) (r : ℕ) → IsValid I → IsLeastRadius I r ↔ IsImpossible (below_cost I r) }
{}

/// Leaves that close without a target speak of no cost: what shows that no plan is feasible where nothing
/// costs anything shows it of the instance itself.
pub fn costless_bounds()
    ensures { (I : Instance) (t : Tree) → AllClose (without_costs I) t None → AllClose I t None }
{}

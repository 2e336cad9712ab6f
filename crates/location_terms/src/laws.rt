//! Laws that hold of the definitions alone. Each is the contract of a function that does nothing.
ghost use Rattle.std.specs.Prelude.{◌≡◌, ℕ, ◌*◌, pos, ◌≤ℤ◌, ◌<ℤ◌};
ghost use Rattle.location_terms.specs.Instance.{Instance, IsValid};
ghost use Rattle.location_terms.specs.Plan.{Plan, IsFeasible, cost_of};
ghost use Rattle.location_terms.specs.Box.{Path, IsInBox};
ghost use Rattle.location_terms.specs.Bound.{Duals, AreDualsOf, bound_of};
ghost use Rattle.location_terms.specs.Leaf.{leaf_bound};

/// The dual bound of a box holds, by prices and in the form of the duals: no feasible plan of the box
/// costs less than the bound says, in the scale of the duals. At scale 0 the duals speak of no cost, and
/// a bound above 0 says that no feasible plan is in the box.
pub fn weak_duality()
    ensures bound { (I : Instance) (path : Path) (d : Duals) (P : Plan) →
        IsValid I → AreDualsOf I d → IsFeasible I P → IsInBox P path →
        bound_of I path d ≤ℤ pos (d.q * cost_of I P) }
    ensures leaf { (I : Instance) (path : Path) (d : Duals) (P : Plan) →
        IsValid I → AreDualsOf I d → IsFeasible I P → IsInBox P path →
        leaf_bound I path d ≤ℤ pos (d.q * cost_of I P) }
    ensures empty_box { (I : Instance) (path : Path) (d : Duals) →
        IsValid I → AreDualsOf I d → d.q ≡ 0 → pos 0 <ℤ leaf_bound I path d →
        (P : Plan) → IsFeasible I P → IsInBox P path → ⊥ }
{}

//! What packing gives, by the definitions alone. The law is the contract of a function that does nothing.
ghost use Rattle.std.specs.Prelude.{◌≡◌, ℕ, List, Some, None};
ghost use Rattle.location_terms.specs.Instance.{Instance, IsValid};
ghost use Rattle.location_terms.specs.Plan.{Plan, IsFeasible};
ghost use Rattle.location_terms.specs.Box.{Path, IsInBox};
ghost use Rattle.plan_search.specs.InBox.{IsPathOf, IsCheapestIn, HasNoCaps, SettlesSites};
ghost use Rattle.plan_search.specs.Packed.{packed};

/// A plan that is packed in a box is feasible and keeps to the box. Where no site has a capacity and
/// each is opened or closed in the box, it is a cheapest plan of the box, and where none is packed the
/// box holds no feasible plan.
pub fn packed_plans()
    ensures feasible { (I : Instance) (path : Path) (hint : List ℕ) (P : Plan) → IsValid I → IsPathOf I path →
        packed I path hint ≡ Some P → IsFeasible I P }
    ensures in_box { (I : Instance) (path : Path) (hint : List ℕ) (P : Plan) → IsValid I → IsPathOf I path →
        packed I path hint ≡ Some P → IsInBox P path }
    ensures cheapest { (I : Instance) (path : Path) (hint : List ℕ) (P : Plan) → IsValid I → IsPathOf I path →
        HasNoCaps I → SettlesSites I path → packed I path hint ≡ Some P → IsCheapestIn I path P }
    ensures none { (I : Instance) (path : Path) (hint : List ℕ) (Q : Plan) → IsValid I → IsPathOf I path →
        HasNoCaps I → SettlesSites I path → packed I path hint ≡ None → IsFeasible I Q → IsInBox Q path → ⊥ }
{}

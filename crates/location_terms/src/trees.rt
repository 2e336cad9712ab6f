//! What a tree of boxes shows of all plans. Each law is the contract of a function that does nothing.
ghost use Rattle.std.specs.Prelude.{◌≡◌, ℕ, All, Contains};
ghost use Rattle.location_terms.specs.Instance.{Instance, IsValid};
ghost use Rattle.location_terms.specs.Plan.{Plan};
ghost use Rattle.location_terms.specs.Optimal.{IsLowEnd, IsImpossible, ClaimHolds};
ghost use Rattle.location_terms.specs.Box.{Path, IsInBox};
ghost use Rattle.location_terms.specs.Bound.{Duals, AreDualsOf};
ghost use Rattle.location_terms.specs.Fit.{BoundCloses};
ghost use Rattle.location_terms.specs.Leaf.{leaf_bound};
ghost use Rattle.location_terms.specs.Tree.{Tree, leaves_of, AllClose, low_of};
ghost use Rattle.location_terms.specs.Certificate.{Certificate, IsAccepted};

/// Every plan is in the box of some leaf of every tree.
pub fn covering()
    ensures { (t : Tree) (P : Plan) → (l : Path × Duals) × Contains (leaves_of t) l × IsInBox P l.0 }
{}

/// What the leaves of a tree show of all feasible plans. Where each closes against `T`, none costs
/// less than `T`; where each closes without a target, there is none. Where at least those of scale 0
/// close, none costs less than the low end of the tree.
pub fn tree_shows()
    ensures low_end { (I : Instance) (t : Tree) (T : ℕ) →
        IsValid I → AllClose I t (Some T) → IsLowEnd I T }
    ensures impossible { (I : Instance) (t : Tree) →
        IsValid I → AllClose I t None → IsImpossible I }
    ensures low { (I : Instance) (t : Tree) → IsValid I →
        All (λ l. AreDualsOf I l.1) (leaves_of t) →
        All (λ l. l.1.q ≡ 0 → BoundCloses (leaf_bound I l.0 l.1) 0 None) (leaves_of t) →
        IsLowEnd I (low_of I t) }
{}

/// The claim of an accepted certificate holds.
pub fn acceptance()
    ensures { (I : Instance) (cert : Certificate) →
        IsValid I → IsAccepted I cert → ClaimHolds I cert.claim cert.plan }
{}

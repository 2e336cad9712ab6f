//! Laws that hold of the definitions alone. Each is the contract of a function that does nothing.
ghost use Rattle.std.specs.Prelude.{ℕ, ◌≤◌, Contains, IsSome};
ghost use Rattle.location_terms.specs.Instance.{Instance, IsValid, site_ids, lane};
ghost use Rattle.location_terms.specs.Plan.{Plan};
ghost use Rattle.location_terms.specs.Tree.{Tree};
ghost use Rattle.instance_store.specs.Changes.{with_fixed};
ghost use Rattle.range_scan.specs.Prices.{with_lane_costing};
ghost use Rattle.range_scan.specs.Range.{IsProvedOptimal};

/// What a tree proves of a plan at two values of one cost it proves at each value between them. So the
/// values at which it does are an interval.
pub fn proved_between()
    ensures fixed { (I : Instance) (s : ℕ) (t : Tree) (P : Plan) (least x greatest : ℕ) →
        IsValid I → Contains (site_ids I) s → least ≤ x → x ≤ greatest →
        IsProvedOptimal (with_fixed I s least) t P → IsProvedOptimal (with_fixed I s greatest) t P →
        IsProvedOptimal (with_fixed I s x) t P }
    ensures lane { (I : Instance) (s c : ℕ) (t : Tree) (P : Plan) (least x greatest : ℕ) →
        IsValid I → IsSome (lane I s c) → least ≤ x → x ≤ greatest →
        IsProvedOptimal (with_lane_costing I s c least) t P → IsProvedOptimal (with_lane_costing I s c greatest) t P →
        IsProvedOptimal (with_lane_costing I s c x) t P }
{}

/// A cost that a plan pays may fall, and one that it doesn't pay may rise: the tree still proves the plan
/// optimal, at what it then costs.
pub fn proved_beyond()
    ensures site_used { (I : Instance) (s : ℕ) (t : Tree) (P : Plan) (less x : ℕ) →
        IsValid I → Contains (site_ids I) s → Contains P.sites s → less ≤ x →
        IsProvedOptimal (with_fixed I s x) t P → IsProvedOptimal (with_fixed I s less) t P }
    ensures site_unused { (I : Instance) (s : ℕ) (t : Tree) (P : Plan) (x more : ℕ) →
        IsValid I → Contains (site_ids I) s → (Contains P.sites s → ⊥) → x ≤ more →
        IsProvedOptimal (with_fixed I s x) t P → IsProvedOptimal (with_fixed I s more) t P }
    ensures lane_used { (I : Instance) (s c : ℕ) (t : Tree) (P : Plan) (less x : ℕ) →
        IsValid I → IsSome (lane I s c) → Contains P.serves (c, s) → less ≤ x →
        IsProvedOptimal (with_lane_costing I s c x) t P → IsProvedOptimal (with_lane_costing I s c less) t P }
    ensures lane_unused { (I : Instance) (s c : ℕ) (t : Tree) (P : Plan) (x more : ℕ) →
        IsValid I → IsSome (lane I s c) → (Contains P.serves (c, s) → ⊥) → x ≤ more →
        IsProvedOptimal (with_lane_costing I s c x) t P → IsProvedOptimal (with_lane_costing I s c more) t P }
{}

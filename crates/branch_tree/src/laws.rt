//! Laws of the definitions. Each is the contract of a function that does nothing.
ghost use Rattle.std.specs.Prelude.{◌≡◌, ◌≤◌, All, None, Some, pos, ◌-ℤ◌, ◌<ℤ◌};
ghost use Rattle.location_terms.specs.Instance.{Instance};
ghost use Rattle.location_terms.specs.Fit.{BoundCloses};
ghost use Rattle.location_terms.specs.Leaf.{leaf_bound, LeafFits};
ghost use Rattle.location_terms.specs.Tree.{Tree as Boxes, leaves_of, AllClose, low_of};

/// A tree closes against the low end that it shows, where the duals of its leaves fit, each leaf of
/// scale 0 closes, and each other one has a bound above -q: a cost of 0 is no lower than any other.
pub fn closes_against_its_low_end()
    ensures { (I : Instance) (t : Boxes) →
        All (λ l. LeafFits I l.1) (leaves_of t) →
        All (λ l. l.1.q ≡ 0 → BoundCloses (leaf_bound I l.0 l.1) 0 None) (leaves_of t) →
        All (λ l. 1 ≤ l.1.q → (pos 0 -ℤ pos l.1.q) <ℤ leaf_bound I l.0 l.1) (leaves_of t) →
        AllClose I t (Some (low_of I t)) }
{}

//! Laws of the definitions. Each is the contract of a function that does nothing.
ghost use Rattle.std.specs.Prelude.{◌<◌, ◌≤ℤ◌, ◌∷◌, ◌++◌, [], ℕ, IsTrue, length};
ghost use Rattle.location_terms.specs.declared.decision.Decision.TheVariants as step;
ghost use Rattle.location_terms.specs.Instance.{Instance, IsValid, site_at};
ghost use Rattle.location_terms.specs.Box.{Path as Decisions, is_free};
ghost use Rattle.location_terms.specs.Bound.{Duals as Prices, bound_of};

/// A further decision never lowers the bound of the same duals: that a site is opened, that a lane is
/// used or isn't, or that a site is closed that was free. (That a site is closed that was opened may
/// lower it.)
pub fn bounds_rise()
    ensures opened { (I : Instance) (path : Decisions) (d : Prices) (s : ℕ) →
        bound_of I path d ≤ℤ bound_of I (path ++ step.Opened s ∷ []) d }
    ensures closed { (I : Instance) (path : Decisions) (d : Prices) (i : ℕ) →
        IsValid I → i < length I.sites → IsTrue (is_free path (site_at I i)) →
        bound_of I path d ≤ℤ bound_of I (path ++ step.Closed (site_at I i).id ∷ []) d }
    ensures without { (I : Instance) (path : Decisions) (d : Prices) (s c : ℕ) →
        bound_of I path d ≤ℤ bound_of I (path ++ step.No s c ∷ []) d }
    ensures using { (I : Instance) (path : Decisions) (d : Prices) (s c : ℕ) →
        bound_of I path d ≤ℤ bound_of I (path ++ step.Yes s c ∷ []) d }
{}

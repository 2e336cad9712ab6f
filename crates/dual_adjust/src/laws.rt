//! What one step of the adjustment leads to, by the definitions alone. The law is the contract of a function that does nothing.
ghost use Rattle.std.specs.Prelude.{◌≡◌, ℕ, ◌<◌, length};
ghost use Rattle.location_terms.specs.Instance.{Instance, IsValid};
ghost use Rattle.location_terms.specs.Box.{Path};
ghost use Rattle.location_terms.specs.Bound.{Duals};
ghost use Rattle.location_terms.specs.Fit.{AreTame};
ghost use Rattle.dual_ascent.specs.Ascent.{IsBlocked};
ghost use Rattle.dual_adjust.specs.Adjustment.{IsCandidate};

/// Of tame duals of a valid instance each customer has one candidate, which keeps the form, the scale and the
/// prices, is tame, and in which every customer is blocked.
pub fn candidates()
    ensures some { (I : Instance) (path : Path) (d : Duals) (j : ℕ) → IsValid I → AreTame I d → j < length I.customers →
        (result : Duals) × IsCandidate I path d j result }
    ensures one { (I : Instance) (path : Path) (d : Duals) (j : ℕ) (a b : Duals) →
        IsCandidate I path d j a → IsCandidate I path d j b → a ≡ b }
    ensures keeps { (I : Instance) (path : Path) (d : Duals) (j : ℕ) (result : Duals) → IsValid I → AreTame I d → j < length I.customers →
        IsCandidate I path d j result → (result.form ≡ d.form) × (result.q ≡ d.q) × (result.nu ≡ d.nu) × (result.u ≡ d.u) × AreTame I result × IsBlocked I path result }
{}

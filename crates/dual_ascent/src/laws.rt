//! What the ascent leads to, by the definitions alone. The law is the contract of a function that does nothing.
ghost use Rattle.std.specs.Prelude.{◌≡◌, ℕ};
ghost use Rattle.location_terms.specs.Instance.{Instance, IsValid};
ghost use Rattle.location_terms.specs.Box.{Path};
ghost use Rattle.location_terms.specs.Bound.{Duals, v_at};
ghost use Rattle.location_terms.specs.Fit.{AreTame};
ghost use Rattle.dual_ascent.specs.Ascent.{IsBlocked, IsBlockedApart, IsAscended, IsAscendedApart};
ghost use Rattle.dual_ascent.specs.Kept.{Keeps};

/// Of tame duals of a valid instance there is one ascent, which ends. It keeps what `Keeps` says, and
/// then every customer is blocked. The ascent that passes over one customer ends too, keeps the same
/// and that customer's dual, and blocks every other one.
pub fn ascents()
    ensures some { (I : Instance) (path : Path) (start : Duals) → IsValid I → AreTame I start →
        (result : Duals) × IsAscended I path start result }
    ensures one { (I : Instance) (path : Path) (start a b : Duals) →
        IsAscended I path start a → IsAscended I path start b → a ≡ b }
    ensures keeps { (I : Instance) (path : Path) (start result : Duals) → IsValid I → AreTame I start →
        IsAscended I path start result → Keeps I path start result }
    ensures blocked { (I : Instance) (path : Path) (start result : Duals) → IsValid I → AreTame I start →
        IsAscended I path start result → IsBlocked I path result }
    ensures some_apart { (I : Instance) (path : Path) (start : Duals) (apart : ℕ) → IsValid I → AreTame I start →
        (result : Duals) × IsAscendedApart I path apart start result }
    ensures one_apart { (I : Instance) (path : Path) (apart : ℕ) (start a b : Duals) →
        IsAscendedApart I path apart start a → IsAscendedApart I path apart start b → a ≡ b }
    ensures keeps_apart { (I : Instance) (path : Path) (apart : ℕ) (start result : Duals) → IsValid I → AreTame I start →
        IsAscendedApart I path apart start result → Keeps I path start result }
    ensures stays_apart { (I : Instance) (path : Path) (apart : ℕ) (start result : Duals) → IsValid I → AreTame I start →
        IsAscendedApart I path apart start result → v_at result apart ≡ v_at start apart }
    ensures blocked_apart { (I : Instance) (path : Path) (apart : ℕ) (start result : Duals) → IsValid I → AreTame I start →
        IsAscendedApart I path apart start result → IsBlockedApart I path apart result }
{}

//! What the form is, by its definitions alone. Each law is the contract of a function that does nothing.
ghost use Rattle.std.specs.Prelude.{◌≡◌, ◌≤◌, ℕ, List, Ok, length};
ghost use Rattle.location_terms.specs.Instance.{Instance, IsValid};
ghost use Rattle.fixed_cost.specs.declared.limits.TheConstants.{MAX_INSTANCE_BYTES};
ghost use Rattle.instance_text.specs.Own.{own_meaning};
ghost use Rattle.instance_text.specs.OwnText.{own_text};

/// The instance that bytes mean is valid, however many they are.
pub fn meanings()
    ensures valid { (bytes : List ℕ) (I : Instance) → own_meaning bytes ≡ Ok I → IsValid I }
{}

/// What is written of a valid instance is read back as that instance, and isn't longer than what is
/// read.
pub fn texts()
    ensures read_back { (I : Instance) → IsValid I → own_meaning (own_text I) ≡ Ok I }
    ensures short { (I : Instance) → IsValid I → length (own_text I) ≤ MAX_INSTANCE_BYTES }
{}

//! What a file means, by the definition alone. The law is the contract of a function that does nothing.
ghost use Rattle.std.specs.Prelude.{◌≡◌, ℕ, List, Ok};
ghost use Rattle.location_terms.specs.Instance.{Instance, IsValid};
ghost use Rattle.ufllib_read.specs.Ufl.{ufl_meaning};

/// The instance that bytes mean is valid, however many they are.
pub fn meanings()
    ensures valid { (bytes : List ℕ) (I : Instance) → ufl_meaning bytes ≡ Ok I → IsValid I }
{}

//! What a file means, by the definition alone. The law is the contract of a function that does nothing.
ghost use Rattle.std.specs.Prelude.{◌≡◌, ℕ, List, Option, Ok, IfSome};
ghost use Rattle.location_terms.specs.Instance.{Instance, IsValid};
ghost use Rattle.instance_store.specs.Small.{IsSmall};
ghost use Rattle.instance_forms.specs.Forms.{InstanceFile, file_of, meaning_in};

/// The instance that bytes mean is valid, in whatever form, where the amount that is given for the word
/// `capacity` is within the limit. The file that words name has the amount that is given.
pub fn meanings()
    ensures valid { (file : InstanceFile) (bytes : List ℕ) (I : Instance) →
        IsSmall file.given → meaning_in file bytes ≡ Ok I → IsValid I }
    ensures given { (form name : List ℕ) (given : Option ℕ) →
        IsSmall given → IfSome (file_of form name given) (λ file. IsSmall file.given) }
{}

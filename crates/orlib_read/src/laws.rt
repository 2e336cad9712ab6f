//! What a file means, by the definition alone. The law is the contract of a function that does nothing.
ghost use Rattle.std.specs.Prelude.{◌≡◌, ℕ, List, Ok};
ghost use Rattle.location_terms.specs.Instance.{Instance, IsValid};
ghost use Rattle.orlib_read.specs.Warehouses.{GivesSmall, warehouse_meaning};
ghost use Rattle.orlib_read.specs.declared.capacities.Capacities.{Capacities};

/// The instance that bytes mean is valid, however many they are, where the amount that is given for
/// the word `capacity` is within the limit.
pub fn meanings()
    ensures valid { (capacities : Capacities) (bytes : List ℕ) (I : Instance) →
        GivesSmall capacities → warehouse_meaning capacities bytes ≡ Ok I → IsValid I }
{}

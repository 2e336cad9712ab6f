//! What is so of every network and of every file, by the definitions alone. Each law is the contract
//! of a function that does nothing.
ghost use Rattle.std.specs.Prelude.{◌≡◌, ℕ, List, Ok};
ghost use Rattle.location_terms.specs.Instance.{Instance, IsValid};
ghost use Rattle.pmed_paths.specs.Network.{Network, IsNetwork};
ghost use Rattle.pmed_paths.specs.Pmed.{median_meaning};
ghost use Rattle.pmed_paths.specs.Walks.{IsLeastWalk, least_cost};

/// The least cost of a walk is that of all walks, however many edges they have.
pub fn least_walks()
    ensures least { (N : Network) (a b : ℕ) → IsNetwork N → IsLeastWalk N a b (least_cost N a b) }
{}

/// The instance that bytes mean is valid, however many they are.
pub fn meanings()
    ensures valid { (bytes : List ℕ) (I : Instance) → median_meaning bytes ≡ Ok I → IsValid I }
{}

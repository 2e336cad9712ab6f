//! What a scenario comes to, by the definitions alone. Each law is the contract of a function that does
//! nothing.
ghost use Rattle.std.specs.Prelude.{◌≡◌, ◌⊎◌, ℕ, List, Ok};
ghost use Rattle.location_terms.specs.Instance.{Instance, IsValid};
ghost use Rattle.scenario_keeper.specs.Scenario.{Scenario};
ghost use Rattle.whatif_session.specs.State.{SessionState, SessionView, IsPresent, begun_session};
ghost use Rattle.desk_session.specs.Leads.{LeadsTo};
ghost use Rattle.desk_session.specs.Loaded.{loaded};
ghost use Rattle.desk_session.specs.Reloaded.{CanBeLoaded, IsKeptAndLoaded, TakesUpKept, without_solves};
ghost use Rattle.desk_session.specs.State.{DeskMoment, AreLinesOf, scenario_of};
ghost use Rattle.desk_session.specs.Step.{DeskStep, FailsAtKeeper};

/// The instance of a loaded scenario is what its edits make of its base, one after another.
pub fn loaded_scenarios()
    ensures { (scenario : Scenario) → (session : SessionView) → loaded scenario ≡ Ok session → LeadsTo scenario session }
{}

/// What is kept of a session is loaded as it was: its base, its edits in force, and so its instance. No solve
/// is kept. Over a keeper that tells its scenarios, a `load` that is answered comes to that behind a `keep` that
/// answered `ok`, as long as the same stands under the name, or the keeper fails.
pub fn kept_scenarios()
    ensures loaded { (session : SessionState) (lines : List (List ℕ)) (I : Instance) → CanBeLoaded session → AreLinesOf lines session.edits → IsPresent session I →
        loaded (scenario_of session lines) ≡ Ok record { state = without_solves session; instance = I } }
    ensures steps { (old kept later : DeskMoment) (reply : List ℕ) (new : DeskMoment) → CanBeLoaded old.moment.session → IsKeptAndLoaded old kept later reply new →
        TakesUpKept old later reply new ⊎ FailsAtKeeper later reply new }
    ensures instance { (session : SessionState) (I : Instance) → IsPresent session I → IsPresent (without_solves session) I }
{}

/// A session that begins on a valid instance has what `kept_scenarios` asks of it, and each line of a desk leaves
/// it so.
pub fn desks_can_be_loaded()
    ensures begun { (I : Instance) → IsValid I → CanBeLoaded (begun_session I) }
    ensures stays { (old : DeskMoment) (line reply : List ℕ) (new : DeskMoment) → DeskStep old line reply new → CanBeLoaded old.moment.session → CanBeLoaded new.moment.session }
{}

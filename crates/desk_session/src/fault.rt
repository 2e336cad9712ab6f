use thiserror::Error;

/// Why a line is refused that asks something of the keeper.
#[derive(Clone, Copy, Debug, PartialEq, Eq, Error)]
pub enum DeskFault {
    /// Nothing is kept under the name.
    #[error("nothing is kept under the name")]
    NoScenario,
    /// The scenario can't be loaded. Line 0: its base is too long, or no instance in the own form. Else this
    /// line, counted from 1, is no edit, or is refused by the session.
    #[error("the scenario is bad at line {0}")]
    BadScenario(u64),
    /// A call of the keeper failed.
    #[error("the scenarios could not be reached")]
    KeeperFailed,
}

ghost use Rattle.std.specs.Prelude.{◌≡◌};

use instance_edits::EditFault;
use thiserror::Error;

/// Why a session refuses a line.
#[derive(Clone, Copy, Debug, PartialEq, Eq, Error)]
pub enum SessionFault {
    /// The words of the line are those of no command.
    #[error("the words are those of no command")]
    BadCommand,
    /// The instance refuses the edit.
    #[error("the instance refuses the edit")]
    Edit(EditFault),
    /// No edit is held.
    #[error("there is no edit to take back")]
    NothingToUndo,
    /// No solve stands after the last edit or undo.
    #[error("no answer stands")]
    Stale,
    /// As many edits are held as may be.
    #[error("the session holds no more edits")]
    SessionFull,
    /// The budget is past the greatest one of the instance.
    #[error("the budget is too large")]
    BudgetTooLarge,
    /// A file could not be written.
    #[error("a file could not be written")]
    WriteFailed,
    /// Memory ran out.
    #[error("out of memory")]
    NoMemory,
}

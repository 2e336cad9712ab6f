//! What a run of the desk ends with.
ghost use Rattle.std.specs.Prelude.{◌≡◌};
ghost use Rattle.desk_cli.specs.Reply.{desk_status, session_reply};

use crate::status::DeskStatus;
use dualoc_cli::{Outcome, Port, Refusal, Reply};
use fixed_cost::FileFault;

/// What a run of the desk ends with, behind the replies to its lines.
#[derive(Clone, Copy, Debug, PartialEq, Eq)]
pub enum DeskReply {
    /// The words are not those of a desk.
    NoDesk,
    /// A read of the instance's file failed.
    FileFailed,
    /// A read of the input failed.
    InputFailed,
    /// The instance's file is longer than the limit.
    LongInstance,
    /// The first fault of the instance's file.
    Faulty(FileFault),
    /// A line of the input is longer than the limit.
    LongLine,
    /// The input is longer than the limit.
    LongInput,
    /// `quit` was read, or the input to its end.
    Ended,
}

impl DeskReply {
    /// The status of a run that ends with this reply, all of it printed.
    pub fn status(self) -> DeskStatus
        ensures { result ≡ desk_status self }
    {
        match self {
            DeskReply::NoDesk => DeskStatus::Usage,
            DeskReply::FileFailed | DeskReply::InputFailed => DeskStatus::ReadFault,
            DeskReply::LongInstance | DeskReply::LongLine | DeskReply::LongInput =>
                DeskStatus::TooLarge,
            DeskReply::Faulty(_) => DeskStatus::BadInput,
            DeskReply::Ended => DeskStatus::Done,
        }
    }

    /// What a session replies in such a case, whose text this one has.
    pub fn of_session(self) -> Reply
        ensures { result ≡ session_reply self }
    {
        match self {
            DeskReply::NoDesk => Reply::NoCommand,
            DeskReply::FileFailed => Reply::Failed(Port::Instance),
            DeskReply::InputFailed => Reply::Failed(Port::Input),
            DeskReply::LongInstance => Reply::Refused(Refusal::LongInstance),
            DeskReply::Faulty(fault) => Reply::Refused(Refusal::Faulty(fault)),
            DeskReply::LongLine => Reply::Refused(Refusal::LongLine),
            DeskReply::LongInput => Reply::Refused(Refusal::LongInput),
            DeskReply::Ended => Reply::Reached(Outcome::Ended),
        }
    }
}

ghost use Rattle.std.specs.Prelude.{◌≡◌};
ghost use Rattle.dualoc_cli.specs.Status.{exit_number, when_cut};
ghost use Rattle.desk_cli.specs.Status.{session_status};

/// How a run of the desk ended. Each is the status of a session of that name.
#[derive(Clone, Copy, Debug, PartialEq, Eq)]
pub enum DeskStatus {
    /// The desk came to the end of its input, or to `quit`, and all of its replies are printed.
    Done,
    /// The words are not those of a desk.
    Usage,
    /// The instance file is at fault.
    BadInput,
    /// The instance file or the input could not be read.
    ReadFault,
    /// The output could not be written.
    WriteFault,
    /// The instance file, the input or one of its lines passes its limit.
    TooLarge,
    /// Memory ran out.
    NoMemory,
}

impl DeskStatus {
    /// The number with which the program ends.
    pub fn number(self) -> u8
        ensures { result ≡ exit_number (session_status self) }
    {
        match self {
            DeskStatus::Done => 0,
            DeskStatus::Usage => 4,
            DeskStatus::BadInput => 5,
            DeskStatus::ReadFault => 6,
            DeskStatus::WriteFault => 7,
            DeskStatus::TooLarge => 8,
            DeskStatus::NoMemory => 9,
        }
    }

    /// The status of a run where a write of the text that is due with this one failed: replies that aren't
    /// printed whole are none.
    pub(crate) fn when_cut(self) -> DeskStatus
        ensures { session_status result ≡ when_cut (session_status self) }
    {
        match self {
            DeskStatus::Done => DeskStatus::WriteFault,
            _ => self,
        }
    }
}

ghost use Rattle.std.specs.Prelude.{◌≡◌};
ghost use Rattle.dualoc_cli.specs.Status.{exit_number, when_cut};

/// How a run ended.
#[derive(Clone, Copy, Debug, PartialEq, Eq)]
pub enum Status {
    /// The work is done, and all of its text is printed.
    Done,
    /// No plan is feasible.
    Infeasible,
    /// The node budget was spent before a plan was proved optimal.
    Bracket,
    /// The certificate shows nothing.
    CheckNo,
    /// The words are no command.
    Usage,
    /// The instance file is at fault.
    BadInput,
    /// A file could not be read.
    ReadFault,
    /// A file or the output could not be written.
    WriteFault,
    /// A file or a number passes its limit.
    TooLarge,
    /// Memory ran out.
    NoMemory,
    /// The instance lacks what is asked about.
    Refused,
}

impl Status {
    /// The number with which the program ends.
    pub fn number(self) -> u8
        ensures { result ≡ exit_number self }
    {
        self as u8
    }

    /// The status of a run where a write of the text that is due with this one failed: a result that
    /// isn't printed whole is none.
    pub(crate) fn when_cut(self) -> Status
        ensures { result ≡ when_cut self }
    {
        match self {
            Status::Done
            | Status::Infeasible
            | Status::Bracket
            | Status::CheckNo
            | Status::Refused => Status::WriteFault,
            _ => self,
        }
    }
}

ghost use Rattle.std.specs.Prelude.{◌≡◌};
ghost use Rattle.dualoc_cli.specs.declared.halt.Halt.TheVariants as halt;

use instance_store::NoMemory;
use shelf_port::SinkFault;

/// Why a run has no last reply.
#[derive(Clone, Copy, Debug, PartialEq, Eq)]
pub enum Halt {
    /// Memory ran out.
    NoMemory,
    /// The output refused a part of a reply in a row.
    Refused(SinkFault),
}

impl From<NoMemory> for Halt {
    ghost from_gives = { λ _ h. h ≡ halt.NoMemory };

    fn from(_: NoMemory) -> Halt {
        Halt::NoMemory
    }
}

impl From<SinkFault> for Halt {
    ghost from_gives = { λ fault h. h ≡ halt.Refused fault };

    fn from(fault: SinkFault) -> Halt {
        Halt::Refused(fault)
    }
}

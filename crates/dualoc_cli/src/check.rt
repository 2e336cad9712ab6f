//! The command `check`: the verdict on a certificate.
ghost use Rattle.std.specs.Prelude.{◌≡◌, IfOk};
ghost use Rattle.shelf_port.specs.Files.{NeverFalls};
ghost use Rattle.shelf_port.specs.Ports.{shelf_state};
ghost use Rattle.dualoc_cli.specs.Command.{Check};
ghost use Rattle.dualoc_cli.specs.Run.{HasTask};
ghost use Rattle.dualoc_cli.specs.Due.{IsCause};
ghost use Rattle.dualoc_cli.specs.Step.{InRuns};

use crate::reply::{Outcome, Port, Refusal, Reply};
use certificate_check::{CertFault, check};
use instance_store::{Instance, NoMemory};
use shelf_port::Shelf;
use std::alloc::Global;

/// What is answered where the certificate in the file of this name is to be checked.
pub fn judge<H: Shelf>(
    alloc: Global,
    inst: &Instance,
    shelf: &mut H,
    certificate: &str,
) -> Result<Reply, NoMemory>
    ensures cause { IfOk result (λ reply. InRuns (λ r. HasTask r (Check certificate.now) inst.now)
        (shelf_state (H.files shelf.old) (H.read_faults shelf.old) (H.write_faults shelf.old))
        (shelf_state (H.files shelf.new) (H.read_faults shelf.new) (H.write_faults shelf.new))
        (λ r. IsCause r reply)) }
    ensures files { H.files shelf.new ≡ H.files shelf.old }
    ensures reads { NeverFalls (H.read_faults shelf.old) (H.read_faults shelf.new) }
    ensures writes { NeverFalls (H.write_faults shelf.old) (H.write_faults shelf.new) }
{
    match check(alloc, inst, shelf, certificate) {
        Ok(verdict) => Ok(Reply::Reached(Outcome::Judged(verdict))),
        Err(CertFault::Text { kind, line }) => Ok(Reply::Reached(Outcome::Misspelt(kind, line))),
        Err(CertFault::TooLong) => Ok(Reply::Refused(Refusal::LongCertificate)),
        Err(CertFault::ReadFailed) => Ok(Reply::Failed(Port::Certificate)),
        Err(CertFault::NoMemory) => Err(NoMemory),
    }
}

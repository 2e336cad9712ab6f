//! The command `convert`: an instance goes to a new file in the suite's own form.
ghost use Rattle.std.specs.Prelude.{IfOk};
ghost use Rattle.shelf_port.specs.Files.{NeverFalls};
ghost use Rattle.shelf_port.specs.Ports.{shelf_state};
ghost use Rattle.dualoc_cli.specs.Command.{Convert};
ghost use Rattle.dualoc_cli.specs.Reply.{status_of};
ghost use Rattle.dualoc_cli.specs.Run.{HasTask};
ghost use Rattle.dualoc_cli.specs.Due.{KeepsFiles, IsCause, IsRefusalStatus};
ghost use Rattle.dualoc_cli.specs.Step.{InRuns};

use crate::reply::{Outcome, Port, Reply};
use instance_store::{Instance, NoMemory};
use shelf_port::{PutFault, Shelf, put_whole};
use std::alloc::Global;

/// What is answered where an instance is to be written to a new file.
pub fn convert<H: Shelf>(
    alloc: Global,
    inst: &Instance,
    new: &str,
    shelf: &mut H,
) -> Result<Reply, NoMemory>
    ensures cause { IfOk result (λ reply. InRuns (λ r. HasTask r (Convert new.now) inst.now)
        (shelf_state (H.files shelf.old) (H.read_faults shelf.old) (H.write_faults shelf.old))
        (shelf_state (H.files shelf.new) (H.read_faults shelf.new) (H.write_faults shelf.new))
        (λ r. IsCause r reply)) }
    ensures keeps { InRuns (λ r. HasTask r (Convert new.now) inst.now)
        (shelf_state (H.files shelf.old) (H.read_faults shelf.old) (H.write_faults shelf.old))
        (shelf_state (H.files shelf.new) (H.read_faults shelf.new) (H.write_faults shelf.new))
        (λ r. KeepsFiles r (Convert new.now)) }
    ensures result { IfOk result (λ reply. IsRefusalStatus (status_of reply) → ⊥) }
    ensures reads { NeverFalls (H.read_faults shelf.old) (H.read_faults shelf.new) }
    ensures writes { NeverFalls (H.write_faults shelf.old) (H.write_faults shelf.new) }
{
    let (sites, custs) = (inst.sites(), inst.custs());
    let text = instance_text::write(alloc, inst)?;
    match put_whole(shelf, new, &text) {
        Ok(()) => Ok(Reply::Reached(Outcome::Converted { sites, custs })),
        Err(PutFault::Failed) => Ok(Reply::Failed(Port::New)),
        Err(PutFault::NoMemory) => Err(NoMemory),
    }
}

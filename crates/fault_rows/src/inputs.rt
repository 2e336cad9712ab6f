//! What commands take from the input.
ghost use Rattle.std.specs.Prelude.{◌<◌};

use memory_runs::{Calls, RING, RING_CERTIFICATE, Status, WIDTHS, ran};
use std::alloc::Global;
use std::test::Fail;

// Words of each command but a session, over the files `a` and `k`.
const COMMANDS: [&str; 5] = [
    "solve ufl a",
    "solve ufl a p c",
    "check ufl a k",
    "convert ufl a n",
    "duals ufl a",
];

// Whether a run ends in the same way where the first read of its input fails: then it reads nothing of it.
fn reads_nothing(alloc: Global, words: &str, width: usize) -> Result<bool, Fail>
    requires { 0 < width }
{
    let files = [("a", RING), ("k", RING_CERTIFICATE)];
    let sound = ran(alloc, words, &files, b"solve\n", Calls::sound(width))?;
    let cut = ran(
        alloc,
        words,
        &files,
        b"solve\n",
        Calls::failing_input(width, 1),
    )?;
    let are_done = sound.status == Status::Done && cut.status == Status::Done;
    Ok(are_done && !cut.text().is_empty() && cut.text() == sound.text())
}

#[test]
fn leave_the_input(rt: HostRuntime) -> Result<(), Fail> {
    for words in COMMANDS {
        for width in WIDTHS {
            assert!(rt; reads_nothing(rt.alloc(), words, width)?, "{words}");
        }
    }
    Ok(())
}

//! The replies to lines that ask something of the keeper.
ghost use Rattle.std.specs.Prelude.{◌≡◌, ◌++◌, false, IfOk, OnOk, codes};
ghost use Rattle.number_words.specs.Number.{digits_text};
ghost use Rattle.desk_session.specs.Replies.{desk_refusal_text, loaded_text, name_line, names_text};
ghost use Rattle.desk_session.specs.declared.fault.DeskFault.TheVariants as faults;
ghost use Rattle.scenario_keeper.specs.declared.fault.KeeperFault.TheVariants as keeper;

use crate::{DeskFault, NoMemory};
use number_words::push_count;
use scenario_keeper::{KeeperFault, NameList};
use std::alloc::{AllocError, Global};
use whatif_session::Reply;

/// The reply to a line that is refused. It fails only where memory runs out.
pub(crate) fn refusal(alloc: Global, fault: DeskFault) -> Result<Reply, NoMemory>
    ensures { IfOk result (λ reply. reply ≡ record { text = desk_refusal_text fault; ended = false }) }
{
    let text = refusal_text(alloc, fault)?;
    Ok(Reply::of(text))
}

fn refusal_text(alloc: Global, fault: DeskFault) -> Result<Vec<u8>, NoMemory>
    ensures { IfOk result (λ text. text.items ≡ desk_refusal_text fault) }
{
    match fault {
        DeskFault::NoScenario => Ok(Vec::from_slice(alloc, b"refused NoScenario\n")?),
        DeskFault::BadScenario(line) => numbered_text(alloc, b"refused BadScenario line ", line),
        DeskFault::KeeperFailed => Ok(Vec::from_slice(alloc, b"refused KeeperFailed\n")?),
    }
}

/// The reply where the keeper refused a call; want of memory is no refusal.
pub(crate) fn keeper_refusal(alloc: Global, fault: KeeperFault) -> Result<Reply, NoMemory>
    ensures told { IfOk result (λ reply. reply ≡ record { text = desk_refusal_text faults.KeeperFailed; ended = false }) }
    ensures failed { IfOk result (λ _. fault ≡ keeper.Failed) }
{
    match fault {
        KeeperFault::Failed => refusal(alloc, DeskFault::KeeperFailed),
        KeeperFault::NoMemory => Err(NoMemory),
    }
}

/// The reply where a scenario of so many edits is loaded. It fails only where memory runs out.
pub(crate) fn loaded_text(alloc: Global, edits: usize) -> Result<Vec<u8>, NoMemory>
    ensures { IfOk result (λ text. text.items ≡ loaded_text edits) }
{
    numbered_text(alloc, b"ok edits ", edits as u64)
}

// A line that ends with a number.
fn numbered_text(alloc: Global, words: &[u8], number: u64) -> Result<Vec<u8>, NoMemory>
    ensures { IfOk result (λ text. text.items ≡ words.now ++ digits_text number ++ codes "\n") }
{
    let mut text = Vec::from_slice(alloc, words)?;
    push_count(&mut text, number)?;
    text.extend_from_slice(b"\n")?;
    Ok(text)
}

/// A line for each name. It fails only where memory runs out.
pub(crate) fn names_text(alloc: Global, names: &NameList) -> Result<Vec<u8>, NoMemory>
    ensures { IfOk result (λ text. text.items ≡ names_text names.now) }
{
    let mut text = Vec::new(alloc);
    for k in 0..names.count() {
        push_name(&mut text, names.name(k), names.lines(k))?;
    }
    text.extend_from_slice(b"end\n")?;
    Ok(text)
}

fn push_name(text: &mut Vec<u8>, name: &str, edits: u64) -> Result<(), AllocError>
    ensures { OnOk result (text.new.items ≡ text.old.items ++ name_line (name.now, edits)) }
{
    text.extend_from_slice(b"name ")?;
    text.extend_from_slice(name.as_bytes())?;
    text.extend_from_slice(b" edits ")?;
    push_count(text, edits)?;
    text.extend_from_slice(b"\n")
}

//! The replies of a session.
ghost use Rattle.std.specs.Prelude.{◌≡◌, ◌++◌, codes, IfOk, OnOk};
ghost use Rattle.number_words.specs.Number.{digits_text};
ghost use Rattle.session_lines.specs.Replies.{came_text, edit_fault_name, end_text, ok_text, refusal_text, session_fault_name, solve_text};

use crate::SessionFault;
use fixed_cost::push_claim;
use instance_edits::EditFault;
use instance_store::{CustId, NoMemory, SiteId};
use location_terms::Claim;
use number_words::push_count;
use std::alloc::{AllocError, Global};

/// What an edit brought in, with its id.
#[derive(Clone, Copy, Debug, PartialEq, Eq)]
pub enum Came {
    Site(SiteId),
    Customer(CustId),
}

/// The reply to a line that is refused. It fails only where memory runs out.
pub fn refusal_text(alloc: Global, fault: SessionFault) -> Result<Vec<u8>, NoMemory>
    ensures { IfOk result (λ text. text.items ≡ refusal_text fault) }
{
    let mut text = Vec::from_slice(alloc, b"refused ")?;
    text.extend_from_slice(fault_name(fault))?;
    text.extend_from_slice(b"\n")?;
    Ok(text)
}

/// The reply to a line that is done and tells nothing. It fails only where memory runs out.
pub fn ok_text(alloc: Global) -> Result<Vec<u8>, NoMemory>
    ensures { IfOk result (λ text. text.items ≡ ok_text) }
{
    Ok(Vec::from_slice(alloc, b"ok\n")?)
}

/// The reply to an edit, with the id of what it brought in. It fails only where memory runs out.
pub fn came_text(alloc: Global, came: Option<Came>) -> Result<Vec<u8>, NoMemory>
    ensures { IfOk result (λ text. text.items ≡ came_text came) }
{
    match &came {
        Some(Came::Site(site)) => id_text(alloc, b"ok site ", site.number()),
        Some(Came::Customer(cust)) => id_text(alloc, b"ok customer ", cust.number()),
        None => ok_text(alloc),
    }
}

/// What a solve came to: its claim, how many nodes it made, and how many the tree has, or the budget where that was
/// spent. It fails only where memory runs out.
pub fn solve_text(
    alloc: Global,
    claim: Claim,
    made: u32,
    nodes: u32,
    budget: u32,
) -> Result<Vec<u8>, NoMemory>
    ensures { IfOk result (λ text. text.items ≡ solve_text claim made nodes budget) }
{
    let mut text = Vec::new(alloc);
    push_claim(&mut text, claim)?;
    text.extend_from_slice(b" made ")?;
    push_count(&mut text, u64::from(made))?;
    push_end(&mut text, claim, nodes, budget)?;
    text.extend_from_slice(b"\n")?;
    Ok(text)
}

// The name of a fault.
fn fault_name(fault: SessionFault) -> &'static [u8]
    ensures { result.now ≡ session_fault_name fault }
{
    match fault {
        SessionFault::BadCommand => b"BadCommand",
        SessionFault::Edit(fault) => edit_fault_name(fault),
        SessionFault::NothingToUndo => b"NothingToUndo",
        SessionFault::Stale => b"Stale",
        SessionFault::SessionFull => b"SessionFull",
        SessionFault::BudgetTooLarge => b"BudgetTooLarge",
        SessionFault::WriteFailed => b"WriteFailed",
        SessionFault::NoMemory => b"NoMemory",
    }
}

fn edit_fault_name(fault: EditFault) -> &'static [u8]
    ensures { result.now ≡ edit_fault_name fault }
{
    match fault {
        EditFault::NoSite => b"NoSite",
        EditFault::NoCustomer => b"NoCustomer",
        EditFault::LaneCount => b"LaneCount",
        EditFault::BadCount => b"BadCount",
        EditFault::LastOne => b"LastOne",
        EditFault::TooMany => b"TooMany",
        EditFault::IdsSpent => b"IdsSpent",
        EditFault::NoMemory => b"NoMemory",
    }
}

// The reply that ends with an id.
fn id_text(alloc: Global, words: &[u8], id: u32) -> Result<Vec<u8>, NoMemory>
    ensures { IfOk result (λ text. text.items ≡ words.now ++ digits_text id ++ codes "\n") }
{
    let mut text = Vec::from_slice(alloc, words)?;
    push_count(&mut text, u64::from(id))?;
    text.extend_from_slice(b"\n")?;
    Ok(text)
}

// How many nodes the tree has, or the budget where that was spent.
fn push_end(text: &mut Vec<u8>, claim: Claim, nodes: u32, budget: u32) -> Result<(), AllocError>
    ensures { OnOk result (text.new.items ≡ text.old.items ++ end_text claim nodes budget) }
{
    match claim {
        Claim::Optimal(_) | Claim::Infeasible => push_named(text, b" nodes ", nodes),
        Claim::Bracket { .. } => push_named(text, b" budget ", budget),
    }
}

fn push_named(text: &mut Vec<u8>, word: &[u8], n: u32) -> Result<(), AllocError>
    ensures { OnOk result (text.new.items ≡ text.old.items ++ word.now ++ digits_text n) }
{
    text.extend_from_slice(word)?;
    push_count(text, u64::from(n))
}

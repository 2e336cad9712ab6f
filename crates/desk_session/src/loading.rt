//! How a scenario is loaded: its base is read, and its edits are made one after another.
ghost use Rattle.std.specs.Prelude.{◌≡◌, ◌+◌, ◌++◌, ◌∷◌, [], Some, Ok, IfOk, IfErr, OnOk, fold, length};
ghost use Rattle.instance_edits.specs.Edits.{HasAmounts};
ghost use Rattle.session_lines.specs.Lines.{line_edit};
ghost use Rattle.desk_session.specs.Loaded.{based_on, held_next, holding_line, loaded, next_line};
ghost use Rattle.desk_session.specs.declared.loading.LoadFault.TheVariants as faults;
ghost use Rattle.desk_session.specs.Done.{IsLoadFault, load_fault};

use crate::{Desk, NoMemory};
use fixed_cost::{FormFault, MAX_INSTANCE_BYTES};
use scenario_keeper::Scenario;
use std::alloc::Global;
use whatif_session::{Edit, SessionFault, read_edit};

/// Why a scenario isn't loaded.
#[derive(Clone, Copy, Debug, PartialEq, Eq)]
pub(crate) enum LoadFault {
    /// It is bad at this line, counted from 1, or its base is, at line 0.
    BadLine(u64),
    /// Memory ran out.
    NoMemory,
}

impl From<NoMemory> for LoadFault {
    ghost from_gives = { λ _ e. e ≡ faults.NoMemory };

    fn from(_: NoMemory) -> Self {
        LoadFault::NoMemory
    }
}

/// A desk that begins with a scenario.
pub(crate) fn desk_of(alloc: Global, scenario: &Scenario) -> Result<Desk, LoadFault>
    ensures session { IfOk result (λ desk. loaded scenario.now ≡ Ok desk.session) }
    ensures lines { IfOk result (λ desk. desk.lines ≡ scenario.now.edits) }
    ensures fault { IfErr result (IsLoadFault (loaded scenario.now)) }
{
    let mut desk = match begun_on(alloc, scenario.base()) {
        Ok(desk) => desk,
        Err(fault) => return Err(fault),
    };
    match desk.hold_all(scenario) {
        Ok(()) => Ok(desk),
        Err(fault) => Err(fault),
    }
}

// A desk that begins on the instance of this text.
fn begun_on(alloc: Global, base: &[u8]) -> Result<Desk, LoadFault>
    ensures begun { IfOk result (λ desk. (based_on base.now ≡ Ok desk.session) × (desk.lines ≡ [])) }
    ensures fault { IfErr result (IsLoadFault (based_on base.now)) }
{
    if base.len() as u64 > MAX_INSTANCE_BYTES {
        return Err(LoadFault::BadLine(0));
    }
    match instance_text::read(alloc, base) {
        Ok(inst) => Ok(Desk::start(alloc, inst)?),
        Err(FormFault::File(_)) => Err(LoadFault::BadLine(0)),
        Err(FormFault::NoMemory) => Err(LoadFault::NoMemory),
    }
}

impl Desk {
    // Makes the edits of a scenario, up to the first one that is refused.
    fn hold_all(&mut self, scenario: &Scenario) -> Result<(), LoadFault>
        requires { self.old.session.state.edits ≡ [] }
        ensures session { OnOk result (fold held_next (Ok self.old.session) scenario.now.edits ≡ Ok self.new.session) }
        ensures lines { OnOk result (self.new.lines ≡ self.old.lines ++ scenario.now.edits) }
        ensures fault { IfErr result (IsLoadFault (fold held_next (Ok self.old.session) scenario.now.edits)) }
    {
        for k in 0..scenario.lines() {
            if let Err(fault) = self.hold_line(scenario.line(k), k as u64 + 1) {
                return Err(fault);
            }
        }
        Ok(())
    }

    // Makes the edit of a line, if it is one. The line has this number.
    fn hold_line(&mut self, line: &[u8], number: u64) -> Result<(), LoadFault>
        requires { number ≡ next_line self.old.session }
        ensures session { OnOk result (held_next (Ok self.old.session) line.now ≡ Ok self.new.session) }
        ensures lines { OnOk result (self.new.lines ≡ self.old.lines ++ line.now ∷ []) }
        ensures one_more { OnOk result (length self.new.session.state.edits ≡ length self.old.session.state.edits + 1) }
        ensures fault { IfErr result (IsLoadFault (held_next (Ok self.old.session) line.now)) }
    {
        match read_edit(self.alloc, line)? {
            Some(edit) => self.hold(line, edit, number),
            None => Err(LoadFault::BadLine(number)),
        }
    }

    // Makes the edit of a line, which has this number.
    fn hold(&mut self, line: &[u8], edit: Edit, number: u64) -> Result<(), LoadFault>
        requires asked { line_edit line.now ≡ Some edit }
        requires amounts { HasAmounts edit }
        requires number { number ≡ next_line self.old.session }
        ensures session { OnOk result (holding_line self.old.session (Some edit) ≡ Ok self.new.session) }
        ensures lines { OnOk result (self.new.lines ≡ self.old.lines ++ line.now ∷ []) }
        ensures one_more { OnOk result (length self.new.session.state.edits ≡ length self.old.session.state.edits + 1) }
        ensures fault { IfErr result (IsLoadFault (holding_line self.old.session (Some edit))) }
    {
        let Ok(()) = self.kept.push(line) else {
            return Err(LoadFault::NoMemory);
        };
        match self.session.edit(edit) {
            Ok(_) => Ok(()),
            Err(fault) => {
                self.kept.pop();
                Err(load_fault(fault, number))
            }
        }
    }
}

// Why a scenario isn't loaded of which the session refuses the edit at this line.
fn load_fault(fault: SessionFault, line: u64) -> LoadFault
    ensures { result ≡ load_fault fault line }
{
    match fault {
        SessionFault::NoMemory => LoadFault::NoMemory,
        _ => LoadFault::BadLine(line),
    }
}

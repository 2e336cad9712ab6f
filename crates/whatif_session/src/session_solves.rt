//! The solves of a session, and the answer that stands.
ghost use Rattle.std.specs.Prelude.{◌≡◌, ℕ, ◌-◌, ◌^◌, ◌<◌, ◌≤◌, ◌↔◌, None, Some, IfOk, IfErr, IfSome, IsNone, OnOk, OnErr, option_map};
ghost use Rattle.std.specs.Option.{option_copied};
ghost use Rattle.certificate_lines.specs.Length.{DecidesOnce};
ghost use Rattle.certificate_text.specs.Cert.{certificate_lent};
ghost use Rattle.tree_search.specs.Answer.{IsWithin, claim_in, tree_in};
ghost use Rattle.tree_search.specs.Budget.{max_budget};
ghost use Rattle.whatif_session.specs.State.{last_serial, present_solve, standing_answer};
ghost use Rattle.whatif_session.specs.Booked.{KeepsBook};
ghost use Rattle.whatif_session.specs.Standing.{IsStanding};
ghost use Rattle.whatif_session.specs.Step.{solved};
ghost use Rattle.whatif_session.specs.Calls.{IsSolveCause, IsOutcome};
ghost use Rattle.whatif_session.specs.Kept.{told_solve};
ghost use Rattle.whatif_session.specs.Search.{IsFoundFrom};

use crate::solves::{KeptSolve, last_tree};
use crate::solving::{Found, outcome_of, parts_of, search_from};
use crate::starting::{left_by, start_from};
use crate::{CertificateRef, NoMemory, Outcome, Session, SessionFault};
use location_terms::Claim;
use tree_search::max_nodes;

impl Session {
    /// Solves the present instance, from the present tree and its plan, with a budget of so many nodes. The
    /// tree that is grown is then the present one, and the answer stands.
    ///
    /// `BudgetTooLarge` comes where the budget is past the greatest one of the instance, and `NoMemory` last.
    /// The session is then as before.
    pub fn solve(&mut self, budget: u32) -> Result<Outcome, SessionFault>
        requires { last_serial self.old.state < 2 ^ 64 - 1 }
        ensures solved { IfOk result (λ outcome. IsOutcome self.old budget outcome self.new) }
        ensures within { OnOk result (budget ≤ max_budget self.old.instance) }
        ensures kept { OnErr result (self.new ≡ self.old) }
        ensures cause { IfErr result (IsSolveCause self.old budget) }
    {
        if budget > max_nodes(self.edited.instance()) {
            return Err(SessionFault::BudgetTooLarge);
        }
        let Ok(found) = self.search(budget) else {
            return Err(SessionFault::NoMemory);
        };
        let outcome = outcome_of(self.edited.instance(), &found.answer);
        self.take_in(found, outcome.claim);
        Ok(outcome)
    }

    /// The standing answer: its claim, its plan and its tree. None where no solve stands after the last edit
    /// or undo.
    pub fn answer(&self) -> Option<CertificateRef<'_>>
        ensures same { option_map certificate_lent result ≡ standing_answer self.now.state }
        ensures none { IsNone result ↔ (self.now.state.standing ≡ None) }
        ensures stands { IfSome result (λ cert. IsStanding self.now.instance (certificate_lent cert)) }
    {
        let claim = self.standing?;
        let solve = self.present_solve()?;
        Some(CertificateRef {
            claim,
            plan: solve.plan.as_ref(),
            tree: &solve.tree,
        })
    }

    // What a search of the present instance finds, within this budget.
    pub(crate) fn search(&self, budget: u32) -> Result<Found, NoMemory>
        requires { IsWithin self.now.instance budget }
        ensures answer { IfOk result (λ found. IsFoundFrom self.now.instance (present_solve self.now.state) budget found.answer) }
        ensures book { IfOk result (λ found. KeepsBook found.book.book self.now.instance (Some (tree_in found.answer))) }
    {
        let (inst, order) = (self.edited.instance(), self.edited.order());
        // An instance is valid.
        let _sites = inst.sites();
        let former = self.present_solve();
        let last = last_tree(&self.solves, self.present);
        let start = start_from(self.alloc, inst, order, former, &self.book, last)?;
        let found = search_from(self.alloc, inst, order, left_by(former), start, budget)?;
        Ok(found)
    }

    // Takes in what a search found, with its claim. It takes no memory.
    pub(crate) fn take_in(&mut self, found: Found, claim: Claim)
        requires few { last_serial self.old.state < 2 ^ 64 - 1 }
        requires found { (budget : ℕ) × IsFoundFrom self.old.instance (present_solve self.old.state) budget found.answer }
        requires claim { claim ≡ claim_in self.old.instance found.answer }
        requires book { KeepsBook found.book.book self.old.instance (Some (tree_in found.answer)) }
        ensures state { self.new.state ≡ solved self.old.state self.old.instance found.answer }
        ensures instance { self.new.instance ≡ self.old.instance }
    {
        let Found { answer, kept, book } = found;
        let (tree, plan) = parts_of(answer);
        let serial = self.solves.keep(tree, plan, kept);
        self.present = Some(serial);
        self.book = book;
        self.standing = Some(claim);
    }

    // The solve of the present tree.
    fn present_solve(&self) -> Option<&KeptSolve>
        ensures found { option_map told_solve (option_copied result) ≡ present_solve self.now.state }
        ensures once { IfSome (option_copied result) (λ solve. DecidesOnce solve.tree) }
    {
        let serial = self.present?;
        self.solves.of_serial(serial)
    }
}

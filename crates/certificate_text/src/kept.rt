// What is kept of the lines of a certificate that are read.
ghost use Rattle.std.specs.Prelude.{[], ◌≡◌, ◌+◌, ◌^◌, ◌<◌, length, IfOk, OnOk, Some};
ghost use Rattle.branch_tree.specs.Walk.{IsWhole};
ghost use Rattle.certificate_lines.specs.Model.{shown_of};
ghost use Rattle.certificate_text.specs.Cert.{certificate_of};
ghost use Rattle.certificate_text.specs.Read.{nothing_kept, kept_with, FitsOn, certificate_from};

use crate::Certificate;
use branch_tree::Builder;
use certificate_lines::Shown;
use instance_store::{Instance, NoMemory};
use location_terms::Claim;
use plan_meaning::Plan;
use std::alloc::Global;

/// The plan and the nodes that were shown so far.
#[derive(Drop)]
pub(crate) struct Kept {
    plan: Option<Plan>,
    nodes: Builder,
}

impl Kept {
    /// Nothing yet. It fails only where memory runs out.
    pub(crate) fn on(alloc: Global, inst: &Instance) -> Result<Kept, NoMemory>
        ensures { IfOk result (λ kept. kept ≡ nothing_kept inst.now) }
    {
        let nodes = Builder::on(alloc, inst)?;
        Ok(Kept { plan: None, nodes })
    }

    /// Keeps what a line shows. It fails only where memory runs out.
    pub(crate) fn keep(&mut self, shown: Shown) -> Result<(), NoMemory>
        requires fits { FitsOn self.old.nodes (shown_of shown) }
        requires few { length self.old.nodes.entries + 1 < 2 ^ 32 }
        ensures { OnOk result (self.new ≡ kept_with self.old (shown_of shown)) }
    {
        match shown {
            Shown::Nothing => Ok(()),
            Shown::Plan(_, plan) => {
                self.plan = Some(plan);
                Ok(())
            }
            Shown::Split(split) => self.nodes.split(split),
            Shown::Leaf(_, _, duals) => self.nodes.leaf(duals),
        }
    }

    /// The certificate of a claim with the plan and the tree, whose nodes are all there.
    pub(crate) fn finish(self, claim: Claim) -> Certificate
        requires { IsWhole (Some []) self.nodes.entries }
        ensures { certificate_of result ≡ certificate_from claim self }
    {
        Certificate {
            claim,
            plan: self.plan,
            tree: self.nodes.finish(),
        }
    }
}

//! The line that is due, and what is read of it.
ghost use Rattle.std.specs.Prelude.{◌≡◌, Ok, IfOk, IfErr};
ghost use Rattle.certificate_lines.specs.declared.line.LineFault.TheVariants.{NoMemory as OutOfMemory};
ghost use Rattle.certificate_lines.specs.Due.{Suits};
ghost use Rattle.certificate_lines.specs.Model.{due_of, shown_of, IsSound, IsFaultOf, AnswersDue, Answers};
ghost use Rattle.certificate_lines.specs.Lines.{Said, read_line};

use crate::CertKind;
use crate::claim_line::read_claim;
use crate::head::{read_end, read_header, read_must_closed, read_must_open, read_sizes};
use crate::leaf::{read_third, read_values};
use crate::node::read_node;
use crate::plan_lines::{read_open, read_serve};
use branch_tree::Path;
use dual_value::Duals;
use instance_store::{Instance, NoMemory};
use location_terms::{Claim, SiteId, Split};
use plan_meaning::Plan;
use std::alloc::Global;
use thiserror::Error;

/// The line of a certificate's text that is due, with what the lines before it say.
#[derive(Debug, Drop)]
pub enum Due {
    /// The first line.
    Header,
    /// The numbers of sites and customers.
    Sizes,
    /// The sites that must be open.
    MustOpen,
    /// The sites that must be closed.
    MustClosed,
    /// The claim.
    Claim,
    /// The open sites of a plan of the claim.
    Open(Claim),
    /// The site of each customer, behind the open sites.
    Serve(Claim, Vec<SiteId>),
    /// A node of the tree at this path.
    Node(Claim, Path),
    /// The duals of the customers, behind a leaf's scale and its price on the number of sites.
    Values(LeafHead),
    /// The prices of the capacities or the word `whole`, behind the duals of the customers.
    Prices(LeafHead, Vec<i128>),
    /// The last line.
    End(Claim),
    /// No line: the text is whole.
    Nothing(Claim),
}

/// The first line of a leaf, with what the lines before it say.
#[derive(Debug, Drop)]
pub struct LeafHead {
    pub claim: Claim,
    /// The path to the leaf.
    pub path: Path,
    /// The scale of its duals.
    pub q: u32,
    /// Its price on the number of sites.
    pub nu: i128,
}

/// What a line shows, for whoever judges or keeps it.
#[derive(Debug, Drop)]
pub enum Shown {
    /// Nothing yet.
    Nothing,
    /// The plan of the claim.
    Plan(Claim, Plan),
    /// A split on a site of the instance, or on a lane from one to a customer of the instance.
    Split(Split),
    /// A leaf at a path, with its duals, which fit and suit their form.
    Leaf(Claim, Path, Duals),
}

/// Why a line is not read.
#[derive(Clone, Copy, Debug, PartialEq, Eq, Error)]
pub enum LineFault {
    /// The line is not one that is due.
    #[error("{0}")]
    Line(CertKind),
    /// Memory ran out, and nothing is said of the line.
    #[error("out of memory")]
    NoMemory,
}

impl From<NoMemory> for LineFault {
    ghost from_gives = { λ _ fault. fault ≡ OutOfMemory };

    fn from(_e: NoMemory) -> LineFault {
        LineFault::NoMemory
    }
}

impl Due {
    /// Reads a line where this one is due: what is due behind it, and what it shows.
    ///
    /// The line is a text without a line feed, of any length and any words. It fails with the first
    /// kind of fault that the line has, and with `NoMemory` where memory runs out, of which no more is
    /// taken than a line without a fault takes.
    pub fn read(
        self,
        alloc: Global,
        inst: &Instance,
        line: &[u8],
    ) -> Result<(Due, Shown), LineFault>
        requires { Suits inst.now (due_of self) }
        ensures ok { IfOk result (λ r. read_line inst.now (due_of self) line.now ≡ Ok (due_of r.0, shown_of r.1)) }
        ensures suits { IfOk result (λ r. Suits inst.now (due_of r.0)) }
        ensures sound { IfOk result (λ r. IsSound inst.now (shown_of r.1)) }
        ensures fault { IfErr result (λ f. IsFaultOf f (read_line inst.now (due_of self) line.now)) }
    {
        read_due(self, alloc, inst, line)
    }
}

// The line that is due, read by the reader of its kind.
fn read_due(
    due: Due,
    alloc: Global,
    inst: &Instance,
    line: &[u8],
) -> Result<(Due, Shown), LineFault>
    requires { Suits inst.now (due_of due) }
    ensures { Answers result (read_line inst.now (due_of due) line.now) }
{
    match due {
        Due::Header => showing_nothing(read_header(inst, line)),
        Due::Sizes => showing_nothing(read_sizes(inst, line)),
        Due::MustOpen => showing_nothing(read_must_open(inst, line)),
        Due::MustClosed => showing_nothing(read_must_closed(inst, line)),
        Due::Claim => showing_nothing(read_claim(alloc, line)),
        Due::Open(claim) => showing_nothing(read_open(alloc, inst, claim, line)),
        Due::Serve(claim, sites) => read_serve(alloc, inst, claim, sites, line),
        Due::Node(claim, path) => read_node(inst, claim, path, line),
        Due::Values(head) => showing_nothing(read_values(alloc, inst, head, line)),
        Due::Prices(head, values) => read_third(alloc, inst, head, values, line),
        Due::End(claim) => showing_nothing(read_end(claim, line)),
        Due::Nothing(_) => Err(LineFault::Line(CertKind::Trailing)),
    }
}

// What a reader answers whose line shows nothing.
fn showing_nothing(read: Result<Due, LineFault>) -> Result<(Due, Shown), LineFault>
    ensures { (said : Said) → AnswersDue read said → Answers result said }
{
    match read {
        Ok(due) => Ok((due, Shown::Nothing)),
        Err(fault) => Err(fault),
    }
}

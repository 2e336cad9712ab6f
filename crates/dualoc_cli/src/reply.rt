ghost use Rattle.std.specs.Prelude.{◌≡◌};
ghost use Rattle.dualoc_cli.specs.Reply.{failed_status, refused_status, outcome_status, status_of, status_of_claim, center_status};

use crate::status::Status;
use certificate_check::{CertKind, Verdict};
use dual_value::Duals;
use fixed_cost::FileFault;
use instance_store::Instance;
use location_terms::Claim;
use plan_meaning::Plan;
use range_scan::Range;

/// What a run answers. `docs/FORMATS.md` has the texts.
#[derive(Drop)]
pub enum Reply {
    /// The words are no command.
    NoCommand,
    /// A read or a write of a file failed, or a read of the input.
    Failed(Port),
    /// The instance is refused, what is asked of it, or the input.
    Refused(Refusal),
    /// What the command came to.
    Reached(Outcome),
}

/// A file whose reading or writing failed, or the input.
#[derive(Clone, Copy, Debug, PartialEq, Eq)]
pub enum Port {
    /// The instance's, which was read.
    Instance,
    /// The certificate's, which was read.
    Certificate,
    /// The plan's or the certificate's of a result, which was written.
    Result,
    /// The new one of a conversion, which was written.
    New,
    /// The input of a session, which was read.
    Input,
    /// One of the three of a center, which was written.
    Center,
}

/// Why an instance is refused, what is asked of it, or the input.
#[derive(Clone, Copy, Debug, PartialEq, Eq)]
pub enum Refusal {
    /// The instance's file is longer than the limit.
    LongInstance,
    /// The first fault of the instance's file.
    Faulty(FileFault),
    /// The instance has more sites than the walk over all sets of sites takes.
    ManySites,
    /// The budget is past the greatest one for the instance.
    LargeBudget,
    /// Nothing is decided by the first bytes of the certificate's file, up to the limit, and more follow; or that
    /// of a range is longer than the limit.
    LongCertificate,
    /// A line of the input is longer than the limit.
    LongLine,
    /// The input is longer than the limit.
    LongInput,
    /// The instance lacks the site whose cost is asked about, or that of the lane.
    NoSite,
    /// It lacks the customer of the lane.
    NoCustomer,
    /// It lacks the lane.
    NoLane,
}

/// What a command came to.
#[derive(Drop)]
pub enum Outcome {
    /// An optimal plan of the instance, and its cost in millionths.
    Optimum(Instance, Plan, u64),
    /// What a search came to, the number of nodes of its tree, and the budget in force. The plan and the
    /// certificate are written.
    Searched {
        claim: Claim,
        nodes: u32,
        budget: u32,
    },
    /// What a search came to, the number of nodes of its tree, the budget in force, and how many sites its
    /// plan opens.
    Tried {
        claim: Claim,
        nodes: u32,
        budget: u32,
        opened: usize,
    },
    /// The duals of an ascent of the instance from zeros, where nothing is decided yet.
    Ascent(Instance, Duals),
    /// The first fault of the certificate's text, and its line, counted from 1.
    Misspelt(CertKind, u64),
    /// The verdict on the certificate.
    Judged(Verdict),
    /// The instance is written to the new file, and these are its numbers of sites and customers.
    Converted {
        sites: usize,
        custs: usize,
    },
    /// A session ended with `quit`, or with its input. Its replies are printed.
    Ended,
    /// The range of a cost.
    Ranged(Range),
    /// The certificate shows its claim, and that isn't an optimum.
    NoOptimalClaim,
    /// What a search for a center came to. The plan, the certificate and the instance of which that speaks are
    /// written.
    Centered(CenterEnd),
    /// All lines of a curve are printed.
    Drawn,
}

/// What a search for a center came to. Radii and costs are in millionths.
#[derive(Clone, Copy, Debug, PartialEq, Eq)]
pub enum CenterEnd {
    /// The best radius is this.
    Best(u64),
    /// No plan is feasible.
    Infeasible,
    /// The budget was spent: no plan has a radius below `low`, and the plan that is known, where there is one,
    /// has the radius `high`. Whether there is a plan of a radius below `at` stayed open in a probe whose tree
    /// has so many nodes.
    Open {
        low: u64,
        high: Option<u64>,
        at: u64,
        nodes: u32,
        budget: u32,
    },
}

impl Reply {
    /// The status of a run that ends with this reply, all of it printed.
    pub fn status(&self) -> Status
        ensures { result ≡ status_of self.now }
    {
        match self {
            Reply::NoCommand => Status::Usage,
            Reply::Failed(port) => port.status(),
            Reply::Refused(refusal) => refusal.status(),
            Reply::Reached(outcome) => outcome.status(),
        }
    }
}

impl Port {
    fn status(self) -> Status
        ensures { result ≡ failed_status self }
    {
        match self {
            Port::Instance | Port::Certificate | Port::Input => Status::ReadFault,
            Port::Result | Port::New | Port::Center => Status::WriteFault,
        }
    }
}

impl Refusal {
    fn status(self) -> Status
        ensures { result ≡ refused_status self }
    {
        match self {
            Refusal::Faulty(_) => Status::BadInput,
            Refusal::LongInstance
            | Refusal::ManySites
            | Refusal::LargeBudget
            | Refusal::LongCertificate
            | Refusal::LongLine
            | Refusal::LongInput => Status::TooLarge,
            Refusal::NoSite | Refusal::NoCustomer | Refusal::NoLane => Status::Refused,
        }
    }
}

impl Outcome {
    fn status(&self) -> Status
        ensures { result ≡ outcome_status self.now }
    {
        match self {
            Outcome::Searched { claim, .. } => status_of_claim(*claim),
            Outcome::Tried { claim, .. } => status_of_claim(*claim),
            Outcome::Optimum(..)
            | Outcome::Ascent(..)
            | Outcome::Judged(Verdict::Yes(_))
            | Outcome::Converted { .. }
            | Outcome::Ended
            | Outcome::Ranged(_)
            | Outcome::Drawn => Status::Done,
            Outcome::Misspelt(..) | Outcome::Judged(Verdict::No { .. }) | Outcome::NoOptimalClaim =>
                Status::CheckNo,
            Outcome::Centered(end) => end.status(),
        }
    }
}

impl CenterEnd {
    fn status(self) -> Status
        ensures { result ≡ center_status self }
    {
        match self {
            CenterEnd::Best(_) => Status::Done,
            CenterEnd::Infeasible => Status::Infeasible,
            CenterEnd::Open { .. } => Status::Bracket,
        }
    }
}

// The status of what a search came to.
fn status_of_claim(claim: Claim) -> Status
    ensures { result ≡ status_of_claim claim }
{
    match claim {
        Claim::Optimal(_) => Status::Done,
        Claim::Infeasible => Status::Infeasible,
        Claim::Bracket { .. } => Status::Bracket,
    }
}

//! The command `range`: how far a cost may move while the plan of a certificate stays proved optimal.
ghost use Rattle.std.specs.Prelude.{◌≡◌, ◌≤◌, ℕ, List, Some, IfOk, IfErr, IsTrue, length};
ghost use Rattle.std.specs.FinMap.{get};
ghost use Rattle.shelf_port.specs.Files.{NeverFalls};
ghost use Rattle.shelf_port.specs.Ports.{shelf_state};
ghost use Rattle.shelf_port.specs.MemShelf.{files_of};
ghost use Rattle.location_terms.specs.Certificate.{IsAccepted};
ghost use Rattle.location_terms.specs.Optimal.{IsOptimal};
ghost use Rattle.certificate_lines.specs.Text.{certificate_text};
ghost use Rattle.certificate_lines.specs.Follow.{HasText};
ghost use Rattle.certificate_text.specs.Cert.{certificate_of};
ghost use Rattle.certificate_lines.specs.declared.limits.TheConstants.{MAX_CERTIFICATE_BYTES};
ghost use Rattle.range_scan.specs.Range.{IsProvedOptimal, IsInRange, IsCostRange};
ghost use Rattle.dualoc_cli.specs.Command.{ShowRange};
ghost use Rattle.dualoc_cli.specs.Range.{HasCost, LacksCost, present_cost, with_cost, AsksRange, HasProof, optimum_of};
ghost use Rattle.dualoc_cli.specs.Run.{Run, HasTask};
ghost use Rattle.dualoc_cli.specs.Due.{IsCause};
ghost use Rattle.dualoc_cli.specs.Step.{InRuns};

use crate::reply::{Outcome, Port, Refusal, Reply};
use crate::words::CostAt;
use branch_tree::Tree;
use certificate_check::{CertFault, MAX_CERTIFICATE_BYTES, Verdict, check};
use certificate_text::{Certificate, read_cert};
use instance_store::{CustId, Instance, NoMemory, SiteId};
use location_terms::Claim;
use plan_meaning::{Plan, judge};
use range_scan::{Range, RangeRefusal, fixed_range, lane_range};
use shelf_port::{MemShelf, ReadWhole, Shelf, read_whole};
use std::alloc::Global;

/// What is answered where the range of a cost is asked for, by the certificate in the file of this name. The
/// file is read once and kept in memory, so that what is checked is what the range is then taken from.
pub fn range<H: Shelf>(
    alloc: Global,
    inst: &Instance,
    shelf: &mut H,
    certificate: &str,
    at: CostAt,
) -> Result<Reply, NoMemory>
    ensures cause { IfOk result (λ reply. InRuns (λ r. HasTask r (ShowRange certificate.now at) inst.now)
        (shelf_state (H.files shelf.old) (H.read_faults shelf.old) (H.write_faults shelf.old))
        (shelf_state (H.files shelf.new) (H.read_faults shelf.new) (H.write_faults shelf.new))
        (λ r. IsCause r reply)) }
    ensures files { H.files shelf.new ≡ H.files shelf.old }
    ensures reads { NeverFalls (H.read_faults shelf.old) (H.read_faults shelf.new) }
    ensures writes { NeverFalls (H.write_faults shelf.old) (H.write_faults shelf.new) }
{
    match read_whole(alloc, shelf, certificate, MAX_CERTIFICATE_BYTES) {
        Ok(bytes) => {
            let kept = keep(alloc, certificate, bytes)?;
            by_file(alloc, inst, kept, certificate, at)
        }
        Err(ReadWhole::TooLong) => Ok(Reply::Refused(Refusal::LongCertificate)),
        Err(ReadWhole::Failed) => Ok(Reply::Failed(Port::Certificate)),
        Err(ReadWhole::NoMemory) => Err(NoMemory),
    }
}

// A shelf in memory with this one file. The bytes are moved into it.
fn keep(alloc: Global, name: &str, bytes: Vec<u8>) -> Result<MemShelf, NoMemory>
    ensures { IfOk result (λ shelf. get (files_of shelf) name.now ≡ Some bytes.items) }
{
    let mut files = Vec::new(alloc);
    files.push((String::from_str(alloc, name)?, bytes))?;
    Ok(MemShelf::new(alloc, files, Vec::new(alloc)))
}

// What is answered to the certificate in a file that is kept. Where it proves an optimum it is read once;
// the checker, which reads it again, tells why another one doesn't.
fn by_file(
    alloc: Global,
    inst: &Instance,
    kept: MemShelf,
    name: &str,
    at: CostAt,
) -> Result<Reply, NoMemory>
    ensures { IfOk result (λ reply. (r : Run) (bytes : List ℕ) → get (files_of kept) name.now ≡ Some bytes → length bytes ≤ MAX_CERTIFICATE_BYTES →
        AsksRange r inst.now at bytes → IsCause r reply) }
{
    let mut kept = kept;
    if let Ok(cert) = read_cert(alloc, &mut kept, name, inst) {
        if proves_optimum(inst, &cert)? {
            return by_proof(alloc, inst, &cert, at);
        }
    }
    by_check(alloc, inst, kept, name, at)
}

// Whether the certificate, which has a text, is accepted, and its claim is that of an optimum.
fn proves_optimum(inst: &Instance, cert: &Certificate) -> Result<bool, NoMemory>
    requires { HasText inst.now (certificate_of cert.now) }
    ensures { IfOk result (λ yes. IsTrue yes → IsAccepted inst.now (certificate_of cert.now)) }
{
    let Claim::Optimal(cost) = cert.claim else {
        return Ok(false);
    };
    let Some(plan) = &cert.plan else {
        return Ok(false);
    };
    match judge(inst, plan) {
        Ok(found) if found == cost => cert.tree.accepts(inst, Some(cost)),
        _ => Ok(false),
    }
}

// What is answered by the checker's word on the certificate in a file that is kept.
fn by_check(
    alloc: Global,
    inst: &Instance,
    kept: MemShelf,
    name: &str,
    at: CostAt,
) -> Result<Reply, NoMemory>
    ensures { IfOk result (λ reply. (r : Run) (bytes : List ℕ) → get (files_of kept) name.now ≡ Some bytes → length bytes ≤ MAX_CERTIFICATE_BYTES →
        AsksRange r inst.now at bytes → IsCause r reply) }
{
    // An instance is valid, so that a text has one certificate.
    let _valid = inst.sites();
    let mut kept = kept;
    match check(alloc, inst, &mut kept, name) {
        Ok(Verdict::Yes(_)) => {
            let cert = read_back(alloc, inst, kept, name)?;
            by_proof(alloc, inst, &cert, at)
        }
        Ok(Verdict::No { line, why }) => {
            Ok(Reply::Reached(Outcome::Judged(Verdict::No { line, why })))
        }
        Err(CertFault::Text { kind, line }) => Ok(Reply::Reached(Outcome::Misspelt(kind, line))),
        // A file in memory, within the limit: nothing but memory can be wanting.
        Err(_) => Err(NoMemory),
    }
}

// The certificate that a kept file holds, where one was checked there. The file isn't kept any longer.
fn read_back(
    alloc: Global,
    inst: &Instance,
    kept: MemShelf,
    name: &str,
) -> Result<Certificate, NoMemory>
    ensures text { IfOk result (λ cert. get (files_of kept) name.now ≡ Some (certificate_text inst.now (certificate_of cert))) }
    ensures has_text { IfOk result (λ cert. HasText inst.now (certificate_of cert)) }
{
    let mut kept = kept;
    match read_cert(alloc, &mut kept, name, inst) {
        Ok(cert) => Ok(cert),
        // It was read before: nothing but memory can be wanting.
        Err(_) => Err(NoMemory),
    }
}

// What is answered to an accepted certificate.
fn by_proof(
    alloc: Global,
    inst: &Instance,
    cert: &Certificate,
    at: CostAt,
) -> Result<Reply, NoMemory>
    requires { IsAccepted inst.now (certificate_of cert.now) }
    ensures { IfOk result (λ reply. (r : Run) → HasProof r inst.now at (certificate_of cert.now) → IsCause r reply) }
{
    let Claim::Optimal(_) = cert.claim else {
        return Ok(Reply::Reached(Outcome::NoOptimalClaim));
    };
    // What is accepted as an optimum has a plan.
    let plan = cert.plan.as_ref().unwrap();
    by_plan(alloc, inst, &cert.tree, plan, at)
}

// What is answered to a plan that a tree proves optimal.
fn by_plan(
    alloc: Global,
    inst: &Instance,
    tree: &Tree,
    plan: &Plan,
    at: CostAt,
) -> Result<Reply, NoMemory>
    requires { IsProvedOptimal inst.now tree.now plan.now }
    ensures { IfOk result (λ reply. (r : Run) → HasProof r inst.now at (optimum_of inst.now plan.now tree.now) → IsCause r reply) }
{
    match range_at(alloc, inst, tree, plan, at) {
        Ok(range) => Ok(Reply::Reached(Outcome::Ranged(range))),
        Err(RangeRefusal::NoSite) => Ok(Reply::Refused(Refusal::NoSite)),
        Err(RangeRefusal::NoCustomer) => Ok(Reply::Refused(Refusal::NoCustomer)),
        Err(RangeRefusal::NoLane) => Ok(Reply::Refused(Refusal::NoLane)),
        Err(RangeRefusal::NoMemory) => Err(NoMemory),
    }
}

// The range of a cost.
fn range_at(
    alloc: Global,
    inst: &Instance,
    tree: &Tree,
    plan: &Plan,
    at: CostAt,
) -> Result<Range, RangeRefusal>
    requires { IsProvedOptimal inst.now tree.now plan.now }
    ensures range { IfOk result (IsCostRange (with_cost inst.now at) (present_cost inst.now at) tree.now plan.now) }
    ensures optimal { IfOk result (λ range. (x : ℕ) → IsInRange range x → IsOptimal (with_cost inst.now at x) plan.now) }
    ensures known { IfOk result (λ _. HasCost inst.now at) }
    ensures refused { IfErr result (LacksCost inst.now at) }
{
    match at {
        CostAt::Site(site) => fixed_range(alloc, inst, tree, plan, SiteId::new(site)),
        CostAt::Lane(site, cust) => {
            let (site, cust) = (SiteId::new(site), CustId::new(cust));
            lane_range(alloc, inst, tree, plan, site, cust)
        }
    }
}

// The checker, which takes a certificate a line at a time.
ghost use Rattle.std.specs.Prelude.{◌≡◌, ◌⊎◌, ℕ, ◌≤◌, List, [], length, Option, MatchOption, IfOk, IsErrOf};
ghost use Rattle.location_terms.specs.Plan.{Plan};
ghost use Rattle.location_terms.specs.Optimal.{ClaimHolds};
ghost use Rattle.location_terms.specs.Certificate.{Certificate, IsAccepted};
ghost use Rattle.certificate_lines.specs.Follow.{HasSmallCosts};
ghost use Rattle.certificate_lines.specs.Model.{shown_of, IsSound};
ghost use Rattle.certificate_lines.specs.Text.{certificate_text};
ghost use Rattle.shelf_port.specs.Files.{MayHold, Rose, NeverFalls};
ghost use Rattle.shelf_lines.specs.Rest.{TellsFile};
ghost use Rattle.certificate_reader.specs.Behind.{IsBehind};
ghost use Rattle.certificate_check.specs.Judgement.{Stands};
ghost use Rattle.certificate_check.specs.Verdict.{IsAnswer, IsUnread, IsRefusal, line_of};

use crate::against::against;
use crate::{CertFault, MAX_CERTIFICATE_BYTES, Verdict};
use certificate_lines::Shown;
use certificate_reader::{CertReader, Seen};
use instance_store::{Instance, NoMemory};
use leaf_bounds::LeafBounds;
use location_terms::Claim;
use shelf_port::Shelf;
use std::alloc::Global;

/// Reads the certificate of this name on the shelf, a line at a time, and says whether it shows its
/// claim of the instance. One piece of the file, one line, one leaf and what one site's best set of whole
/// customers takes are held, however long it is.
///
/// `Yes` carries the claim, which then holds. `No` names the first line that shows why not. The fault
/// `Text` is the first one of the text, with its line, counted from 1, where nothing before it speaks
/// against the certificate. `TooLong` comes where nothing is decided within `MAX_CERTIFICATE_BYTES`
/// and the file is longer; `ReadFailed` where a read failed, as on a name without a file; `NoMemory`
/// where memory ran out. The files are as before in each case. Where the shelf tells no files, there
/// still are bytes with this answer.
pub fn check<H: Shelf>(
    alloc: Global,
    inst: &Instance,
    shelf: &mut H,
    name: &str,
) -> Result<Verdict, CertFault>
    ensures answer { IsUnread result ⊎ ((bytes : List ℕ) × MayHold (H.files shelf.old) name.now bytes
        × IsAnswer MAX_CERTIFICATE_BYTES inst.now bytes result) }
    ensures yes { (claim : Claim) → result ≡ Ok (Verdict.Yes claim) →
        (cert : Certificate) × MayHold (H.files shelf.old) name.now (certificate_text inst.now cert)
        × IsAccepted inst.now cert × (cert.claim ≡ claim) × HasSmallCosts claim
        × (length (certificate_text inst.now cert) ≤ MAX_CERTIFICATE_BYTES) }

    // The other way, the text of an accepted certificate is answered with yes.
    ensures accepts { (cert : Certificate) → IsAccepted inst.now cert → HasSmallCosts cert.claim →
        length (certificate_text inst.now cert) ≤ MAX_CERTIFICATE_BYTES →
        TellsFile (H.files shelf.old) name.now (certificate_text inst.now cert) →
        IsUnread result ⊎ (result ≡ Ok (Verdict.Yes cert.claim)) }

    ensures holds { (claim : Claim) → result ≡ Ok (Verdict.Yes claim) →
        (plan : Option Plan) × ClaimHolds inst.now claim plan }
    ensures failed { IsErrOf result CertFault.ReadFailed →
        Rose (H.read_faults shelf.old name.now) (H.read_faults shelf.new name.now) }

    ensures unchanged { H.files shelf.new ≡ H.files shelf.old }
    ensures reads { NeverFalls (H.read_faults shelf.old) (H.read_faults shelf.new) }
    ensures writes { NeverFalls (H.write_faults shelf.old) (H.write_faults shelf.new) }
{
    // An instance is valid, so that what an accepted certificate claims of it holds.
    let _sites = inst.sites();
    let mut reader = CertReader::new(alloc, MAX_CERTIFICATE_BYTES);
    check_lines(alloc, inst, &mut reader, shelf, name)
}

// The answer on what a new reader comes to.
pub(crate) fn check_lines<H: Shelf>(
    alloc: Global,
    inst: &Instance,
    reader: &mut CertReader,
    shelf: &mut H,
    name: &str,
) -> Result<Verdict, CertFault>
    requires start { (limit : ℕ) × IsBehind (H.files shelf.old) name.now limit inst.now [] reader.old }
    ensures answer { (limit : ℕ) → IsBehind (H.files shelf.old) name.now limit inst.now [] reader.old →
        IsUnread result ⊎ ((bytes : List ℕ) × MayHold (H.files shelf.old) name.now bytes
        × IsAnswer limit inst.now bytes result) }
    ensures failed { IsErrOf result CertFault.ReadFailed →
        Rose (H.read_faults shelf.old name.now) (H.read_faults shelf.new name.now) }

    ensures unchanged { H.files shelf.new ≡ H.files shelf.old }
    ensures reads { NeverFalls (H.read_faults shelf.old) (H.read_faults shelf.new) }
    ensures writes { NeverFalls (H.write_faults shelf.old) (H.write_faults shelf.new) }
{
    let mut bounds = LeafBounds::of(alloc, inst);
    loop {
        match reader.next(alloc, inst, shelf, name)? {
            Seen::Whole(claim) => return Ok(Verdict::Yes(claim)),
            Seen::Line(line, shown) => {
                if let Some(no) = refusal(inst, &mut bounds, line, shown)? {
                    return Ok(no);
                }
            }
        }
    }
}

// The verdict on what the line of this number shows, where something speaks against it. It fails only where
// memory runs out.
fn refusal(
    inst: &Instance,
    bounds: &mut LeafBounds<'_>,
    line: u64,
    shown: Shown,
) -> Result<Option<Verdict>, NoMemory>
    requires bounds { bounds.old ≡ inst.now }
    requires sound { IsSound inst.now (shown_of shown) }
    ensures kept { bounds.new ≡ bounds.old }
    ensures exact { IfOk result (λ no. MatchOption no (Stands inst.now (shown_of shown))
        (λ no. IsRefusal inst.now (shown_of shown) line (Ok no))) }
{
    match against(inst, bounds, &shown)? {
        None => Ok(None),
        Some(why) => {
            let line = line_of(&shown, line);
            Ok(Some(Verdict::No { line, why }))
        }
    }
}

// The line to which a judgement belongs, where this line completes what is judged: the first of a
// leaf's three.
fn line_of(shown: &Shown, line: u64) -> u64
    ensures { result ≡ line_of (shown_of shown.now) line }
{
    match shown {
        Shown::Leaf(..) => line.saturating_sub(2),
        _ => line,
    }
}

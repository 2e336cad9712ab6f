//! A certificate read back from a file.
ghost use Rattle.std.specs.Prelude.{◌≡◌, ℕ, ◌≤◌, [], length, IfOk, IsErrOf};
ghost use Rattle.location_terms.specs.Certificate.{Certificate as Written};
ghost use Rattle.shelf_port.specs.Files.{HasFile, Rose, NeverFalls};
ghost use Rattle.shelf_lines.specs.Rest.{TellsFile};
ghost use Rattle.certificate_lines.specs.declared.kind.CertKind.{CertKind as Kind};
ghost use Rattle.certificate_lines.specs.Text.{certificate_text};
ghost use Rattle.certificate_lines.specs.Follow.{HasText};
ghost use Rattle.certificate_reader.specs.Behind.{IsBehind};
ghost use Rattle.certificate_text.specs.Cert.{certificate_of};
ghost use Rattle.certificate_text.specs.Form.{HasFault, PassesLimit};
ghost use Rattle.certificate_text.specs.GivesBack.{GivesBack};
ghost use Rattle.certificate_text.specs.Read.{Comes};

use crate::Certificate;
use crate::kept::Kept;
use certificate_lines::{CertFault, MAX_CERTIFICATE_BYTES};
use certificate_reader::{CertReader, Seen};
use instance_store::Instance;
use shelf_port::Shelf;
use std::alloc::Global;

/// The certificate whose text the named file is, where it is one of the instance. Only its form is
/// looked at, and not whether it shows its claim. The file is read in pieces, and besides the
/// certificate one piece and one line of it are held.
///
/// `Text` has the first fault of the text; `TooLong` comes where there is none in the first
/// `MAX_CERTIFICATE_BYTES` bytes and more follow; `ReadFailed` where a read failed, as on a name without
/// a file; `NoMemory` where there was none. The files are as before in each case.
pub fn read_cert<H: Shelf>(
    alloc: Global,
    shelf: &mut H,
    name: &str,
    inst: &Instance,
) -> Result<Certificate, CertFault>
    ensures ok { IfOk result (λ cert. HasFile (H.files shelf.old) name.now
        (λ bytes. bytes ≡ certificate_text inst.now (certificate_of cert))) }
    ensures has_text { IfOk result (λ cert. HasText inst.now (certificate_of cert)) }
    ensures fault { (kind : Kind) (line : ℕ) → result ≡ Err (CertFault.Text kind line) →
        HasFile (H.files shelf.old) name.now
        (λ bytes. HasFault MAX_CERTIFICATE_BYTES inst.now bytes kind line) }
    ensures too_long { IsErrOf result CertFault.TooLong →
        HasFile (H.files shelf.old) name.now (PassesLimit MAX_CERTIFICATE_BYTES inst.now) }
    ensures failed { IsErrOf result CertFault.ReadFailed →
        Rose (H.read_faults shelf.old name.now) (H.read_faults shelf.new name.now) }

    // What `write_cert` wrote is read back, unless a read fails or memory runs out.
    ensures gives_back { (cert : Written) → HasText inst.now cert →
        length (certificate_text inst.now cert) ≤ MAX_CERTIFICATE_BYTES →
        TellsFile (H.files shelf.old) name.now (certificate_text inst.now cert) →
        GivesBack cert result }

    ensures unchanged { H.files shelf.new ≡ H.files shelf.old }
    ensures reads { NeverFalls (H.read_faults shelf.old) (H.read_faults shelf.new) }
    ensures writes { NeverFalls (H.write_faults shelf.old) (H.write_faults shelf.new) }
{
    // An instance is valid, so that a text has one certificate.
    let _sites = inst.sites();
    let mut reader = CertReader::new(alloc, MAX_CERTIFICATE_BYTES);
    read_lines(alloc, inst, &mut reader, shelf, name)
}

// The certificate of what a new reader comes to.
pub(crate) fn read_lines<H: Shelf>(
    alloc: Global,
    inst: &Instance,
    reader: &mut CertReader,
    shelf: &mut H,
    name: &str,
) -> Result<Certificate, CertFault>
    requires start { (limit : ℕ) × IsBehind (H.files shelf.old) name.now limit inst.now [] reader.old }
    ensures comes { (limit : ℕ) → IsBehind (H.files shelf.old) name.now limit inst.now [] reader.old →
        Comes (H.files shelf.old) name.now limit inst.now result }
    ensures failed { IsErrOf result CertFault.ReadFailed →
        Rose (H.read_faults shelf.old name.now) (H.read_faults shelf.new name.now) }

    ensures unchanged { H.files shelf.new ≡ H.files shelf.old }
    ensures reads { NeverFalls (H.read_faults shelf.old) (H.read_faults shelf.new) }
    ensures writes { NeverFalls (H.write_faults shelf.old) (H.write_faults shelf.new) }
{
    // An instance is valid, so that lines that are followed to their end are a certificate's text.
    let _sites = inst.sites();
    let Ok(mut kept) = Kept::on(alloc, inst) else {
        return Err(CertFault::NoMemory);
    };
    loop {
        match reader.next(alloc, inst, shelf, name)? {
            Seen::Whole(claim) => return Ok(kept.finish(claim)),
            Seen::Line(_, shown) => {
                let Ok(()) = kept.keep(shown) else {
                    return Err(CertFault::NoMemory);
                };
            }
        }
    }
}

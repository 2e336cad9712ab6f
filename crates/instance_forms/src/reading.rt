ghost use Rattle.std.specs.Prelude.{◌≡◌, ◌≤◌, IfOk, length};
ghost use Rattle.shelf_port.specs.Files.{NeverFalls};
ghost use Rattle.shelf_port.specs.Ports.{shelf_state};
ghost use Rattle.location_terms.specs.Instance.{IsValid};
ghost use Rattle.location_terms.specs.Plain.{IsPlain};
ghost use Rattle.fixed_cost.specs.Reading.{Means};
ghost use Rattle.instance_store.specs.Small.{IsSmall};
ghost use Rattle.instance_forms.specs.Forms.{file_in, meaning_in};
ghost use Rattle.instance_forms.specs.Reading.{ReadsFile};

use crate::file::InstanceFile;
use crate::form::FileForm;
use fixed_cost::{Amount, FileFault, FormFault, MAX_INSTANCE_BYTES};
use instance_store::Instance;
use shelf_port::{ReadWhole, Shelf, read_whole};
use std::alloc::Global;
use thiserror::Error;

/// Why the file of an instance was not read.
#[derive(Debug, Drop, Error)]
pub enum InstanceFault {
    /// A read of the file failed.
    #[error("the file could not be read")]
    Failed,
    /// The file is longer than the limit, `MAX_INSTANCE_BYTES`.
    #[error("the file is too long")]
    TooLong,
    /// The first word in order that has a fault.
    #[error("{0}")]
    Faulty(FileFault),
    /// Memory ran out.
    #[error("out of memory")]
    NoMemory,
}

/// The instance in a file of the shelf.
pub fn open<H: Shelf>(
    alloc: Global,
    shelf: &mut H,
    file: InstanceFile<'_>,
) -> Result<Instance, InstanceFault>
    requires { IsSmall file.given }
    ensures reading { ReadsFile
        (shelf_state (H.files shelf.old) (H.read_faults shelf.old) (H.write_faults shelf.old))
        (shelf_state (H.files shelf.new) (H.read_faults shelf.new) (H.write_faults shelf.new))
        (file_in file.entry) result }
    ensures plain { IfOk result (λ inst. file.entry.form ≡ FileForm.Ufl → IsPlain inst) }
    ensures unchanged { H.files shelf.new ≡ H.files shelf.old }
    ensures reads { NeverFalls (H.read_faults shelf.old) (H.read_faults shelf.new) }
    ensures writes { NeverFalls (H.write_faults shelf.old) (H.write_faults shelf.new) }
{
    match read_whole(alloc, shelf, file.name, MAX_INSTANCE_BYTES) {
        Ok(bytes) => match read(alloc, file, &bytes) {
            Ok(inst) => Ok(inst),
            Err(FormFault::File(fault)) => Err(InstanceFault::Faulty(fault)),
            Err(FormFault::NoMemory) => Err(InstanceFault::NoMemory),
        },
        Err(ReadWhole::Failed) => Err(InstanceFault::Failed),
        Err(ReadWhole::TooLong) => Err(InstanceFault::TooLong),
        Err(ReadWhole::NoMemory) => Err(InstanceFault::NoMemory),
    }
}

/// The instance that the bytes of a file mean, which are at most `MAX_INSTANCE_BYTES`, or their first
/// fault.
pub fn read(alloc: Global, file: InstanceFile<'_>, bytes: &[u8]) -> Result<Instance, FormFault>
    requires small { IsSmall file.given }
    requires within { length bytes.now ≤ MAX_INSTANCE_BYTES }
    ensures meaning { Means (λ inst. inst) result (meaning_in (file_in file.entry) bytes.now) }
    ensures valid { IfOk result IsValid }
    ensures plain { IfOk result (λ inst. file.entry.form ≡ FileForm.Ufl → IsPlain inst) }
{
    match file.form {
        FileForm::Cap => orlib_read::read_cap(alloc, bytes, amount(file.given)),
        FileForm::Uncap => orlib_read::read_uncap(alloc, bytes),
        FileForm::Ufl => ufllib_read::read(alloc, bytes),
        FileForm::Pmed => pmed_paths::read(alloc, bytes),
        FileForm::Own => instance_text::read(alloc, bytes),
    }
}

// What is given for the word `capacity`, as an amount.
fn amount(given: Option<u64>) -> Option<Amount>
    requires { IsSmall given }
    ensures { result ≡ given }
{
    Amount::new(given?)
}

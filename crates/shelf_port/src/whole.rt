// A file read whole, a file written or added to whole, and a piece written whole to an output. Each
// goes on over short reads and short writes.
ghost use Rattle.std.specs.Prelude.{◌≡◌, ℕ, ◌<◌, ◌≤◌, length, take, IfOk, OnOk, OnErr, IsErrOf, vec_len};
ghost use Rattle.shelf_port.specs.Files.{with_file, with_added, HasFile, LeavesPrefix, AddsPrefix, Rose, NeverFalls};
ghost use Rattle.shelf_port.specs.Streams.{with_back, RefusedLast};

use crate::fault::{PutFault, ReadWhole, SinkFault};
use crate::ports::{Shelf, Sink};
use std::alloc::Global;

/// How many bytes one read of a file asks for at most.
const PIECE: usize = 65_536;

/// The bytes of the named file, of which there may be at most `limit`.
///
/// `Failed` comes where a read failed, as on a name without a file; `TooLong` where more than `limit`
/// bytes came; `NoMemory` where there was none. The files are as before in each case.
pub fn read_whole<H: Shelf>(
    alloc: Global,
    shelf: &mut H,
    name: &str,
    limit: u64,
) -> Result<Vec<u8>, ReadWhole>
    ensures content { IfOk result (λ bytes. HasFile (H.files shelf.old) name.now
        (λ file. bytes.items ≡ file)) }
    ensures within { IfOk result (λ bytes. vec_len bytes ≤ limit) }
    ensures too_long { IsErrOf result ReadWhole.TooLong →
        HasFile (H.files shelf.old) name.now (λ file. limit < length file) }
    ensures failed { IsErrOf result ReadWhole.Failed →
        Rose (H.read_faults shelf.old name.now) (H.read_faults shelf.new name.now) }

    ensures unchanged { H.files shelf.new ≡ H.files shelf.old }
    ensures reads { NeverFalls (H.read_faults shelf.old) (H.read_faults shelf.new) }
    ensures writes { NeverFalls (H.write_faults shelf.old) (H.write_faults shelf.new) }
{
    let mut content = Vec::new(alloc);
    let mut piece = [0; PIECE];
    loop {
        let n = shelf.read_at(name, content.len() as u64, &mut piece)?;
        if n == 0 {
            return Ok(content);
        }
        if limit - (content.len() as u64) < n as u64 {
            return Err(ReadWhole::TooLong);
        }
        content.extend_from_slice(&piece[..n])?;
    }
}

/// Makes the named file hold exactly these bytes, whatever it held before.
///
/// `Failed` comes where a write failed, `NoMemory` where there was none. After either the file is as
/// before, or holds a prefix of the bytes.
pub fn put_whole<H: Shelf>(shelf: &mut H, name: &str, bytes: &[u8]) -> Result<(), PutFault>
    ensures ok { OnOk result (H.files shelf.new ≡ with_file (H.files shelf.old) name.now bytes.now) }
    ensures err { OnErr result
        (LeavesPrefix (H.files shelf.old) (H.files shelf.new) name.now bytes.now) }
    ensures failed { IsErrOf result PutFault.Failed →
        Rose (H.write_faults shelf.old name.now) (H.write_faults shelf.new name.now) }

    ensures reads { NeverFalls (H.read_faults shelf.old) (H.read_faults shelf.new) }
    ensures writes { NeverFalls (H.write_faults shelf.old) (H.write_faults shelf.new) }
{
    shelf.create(name)?;
    append_whole(shelf, name, bytes)
}

/// Adds all these bytes at the end of the named file, which it makes where it is missing.
///
/// `Failed` comes where a write failed, `NoMemory` where there was none. After either the file is as
/// before, or a prefix of the bytes stands at its end.
pub fn append_whole<H: Shelf>(shelf: &mut H, name: &str, bytes: &[u8]) -> Result<(), PutFault>
    ensures ok { OnOk result
        (H.files shelf.new ≡ with_added (H.files shelf.old) name.now bytes.now) }
    ensures err { OnErr result
        (AddsPrefix (H.files shelf.old) (H.files shelf.new) name.now bytes.now) }
    ensures failed { IsErrOf result PutFault.Failed →
        Rose (H.write_faults shelf.old name.now) (H.write_faults shelf.new name.now) }

    ensures reads { NeverFalls (H.read_faults shelf.old) (H.read_faults shelf.new) }
    ensures writes { NeverFalls (H.write_faults shelf.old) (H.write_faults shelf.new) }
{
    let mut done = shelf.append(name, bytes)?;
    while done < bytes.len() {
        done += shelf.append(name, &bytes[done..])?;
    }
    Ok(())
}

/// Writes all these bytes to an output.
///
/// `Failed` comes where a write failed, `NoMemory` where there was none. After either a prefix of the
/// bytes was written, but never all of them, and nothing was tried behind the call that was refused.
pub fn write_whole<O: Sink>(sink: &mut O, bytes: &[u8]) -> Result<(), SinkFault>
    ensures ok { OnOk result (O.written sink.new ≡ with_back (O.written sink.old) bytes.now) }
    ensures err { OnErr result
        ((k : ℕ) × (k < length bytes.now)
        × (O.written sink.new ≡ with_back (O.written sink.old) (take k bytes.now))) }
    ensures failed { IsErrOf result SinkFault.Failed →
        Rose (O.faults sink.old) (O.faults sink.new) }
    ensures counts { O.faults sink.old ≤ O.faults sink.new }

    // All calls were taken, or the last one was refused and none behind it was made.
    ensures taken { OnOk result ((O.refusals sink.new).count ≡ (O.refusals sink.old).count) }
    ensures refused { OnErr result (RefusedLast (O.refusals sink.old) (O.refusals sink.new)) }
{
    let mut done = 0;
    while done < bytes.len() {
        done += sink.write(&bytes[done..])?;
    }
    Ok(())
}

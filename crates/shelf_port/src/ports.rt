// The outside as traits: files by name, an input, an output.
ghost use Rattle.std.specs.Prelude.{◌≡◌, ◌⊎◌, ℕ, ◌<◌, ◌≤◌, List, [], length, take, drop, Option, IfSome, IfOk, OnOk, OnErr, IsErrOf};
ghost use Rattle.shelf_port.specs.Files.{Files, with_file, with_added, HasFile, IsPiece, Rose, NeverFalls};
ghost use Rattle.shelf_port.specs.Streams.{with_front, with_back, Refusals, taken, refused};

use crate::fault::{ShelfFault, SinkFault, SourceFault};

/// Files by name. No call changes a file of another name.
pub trait Shelf {
    /// The files, where the shelf tells them.
    ghost files: { Self → Option Files };

    /// How many reads of the file of a name failed.
    ghost read_faults: { Self → List ℕ → ℕ };

    /// How many writes of the file of a name failed.
    ghost write_faults: { Self → List ℕ → ℕ };

    /// Reads bytes of the named file from place `at` (counted from 0) into the front of a buffer, and
    /// answers how many came. 0 for a buffer that isn't empty is the end of the file. A name without
    /// a file is a failing call.
    fn read_at(&mut self, name: &str, at: u64, into: &mut [u8]) -> Result<usize, ShelfFault>
        ensures bound { IfOk result (λ n. n ≤ length into.new) }
        ensures bytes { IfOk result (λ n. HasFile (files self.old) name.now
            (λ file. IsPiece file at n into.old into.new)) }
        ensures unchanged { files self.new ≡ files self.old }

        ensures failed { IsErrOf result ShelfFault.Failed →
            Rose (read_faults self.old name.now) (read_faults self.new name.now) }
        ensures reads { NeverFalls (read_faults self.old) (read_faults self.new) }
        ensures writes { NeverFalls (write_faults self.old) (write_faults self.new) };

    /// Makes the named file, or empties it.
    fn create(&mut self, name: &str) -> Result<(), ShelfFault>
        ensures ok { OnOk result (files self.new ≡ with_file (files self.old) name.now []) }
        ensures err { OnErr result ((files self.new ≡ files self.old)
            ⊎ (files self.new ≡ with_file (files self.old) name.now [])) }

        ensures failed { IsErrOf result ShelfFault.Failed →
            Rose (write_faults self.old name.now) (write_faults self.new name.now) }
        ensures reads { NeverFalls (read_faults self.old) (read_faults self.new) }
        ensures writes { NeverFalls (write_faults self.old) (write_faults self.new) };

    /// Adds bytes from the front of a piece at the end of the named file, which it makes where it is
    /// missing, and answers how many. Of a piece that isn't empty it takes at least one.
    fn append(&mut self, name: &str, bytes: &[u8]) -> Result<usize, ShelfFault>
        ensures bound { IfOk result (λ n. n ≤ length bytes.now) }
        ensures progress { IfOk result (λ n. 0 < length bytes.now → 0 < n) }
        ensures ok { IfOk result (λ n.
            files self.new ≡ with_added (files self.old) name.now (take n bytes.now)) }
        ensures err { OnErr result (files self.new ≡ files self.old) }

        ensures failed { IsErrOf result ShelfFault.Failed →
            Rose (write_faults self.old name.now) (write_faults self.new name.now) }
        ensures reads { NeverFalls (read_faults self.old) (read_faults self.new) }
        ensures writes { NeverFalls (write_faults self.old) (write_faults self.new) };
}

/// An input that is read once, from its front.
pub trait Source {
    /// The bytes that are left, where the source tells them.
    ghost left: { Self → Option (List ℕ) };

    /// How many reads failed.
    ghost faults: { Self → ℕ };

    /// Reads bytes into the front of a buffer, and answers how many came. 0 for a buffer that isn't
    /// empty is the end of the input.
    fn read(&mut self, into: &mut [u8]) -> Result<usize, SourceFault>
        ensures bound { IfOk result (λ n. n ≤ length into.new) }
        ensures bytes { IfOk result (λ n.
            left self.old ≡ with_front (take n into.new) (left self.new)) }
        ensures behind { IfOk result (λ n.
            IfSome (left self.old) (λ _. drop n into.new ≡ drop n into.old)) }
        ensures end { IfOk result (λ n.
            n ≡ 0 → 0 < length into.new → IfSome (left self.old) (λ rest. rest ≡ [])) }
        ensures err { OnErr result (left self.new ≡ left self.old) }

        ensures failed { IsErrOf result SourceFault.Failed →
            Rose (faults self.old) (faults self.new) }
        ensures counts { faults self.old ≤ faults self.new };
}

/// An output that is written once, at its end.
pub trait Sink {
    /// The bytes that were written, where the sink tells them.
    ghost written: { Self → Option (List ℕ) };

    /// How many writes failed.
    ghost faults: { Self → ℕ };

    /// How many calls were refused, for whatever cause, and whether the last one was.
    ghost refusals: { Self → Refusals };

    /// Writes bytes from the front of a piece, and answers how many. Of a piece that isn't empty it
    /// takes at least one.
    fn write(&mut self, bytes: &[u8]) -> Result<usize, SinkFault>
        ensures bound { IfOk result (λ n. n ≤ length bytes.now) }
        ensures progress { IfOk result (λ n. 0 < length bytes.now → 0 < n) }
        ensures ok { IfOk result (λ n.
            written self.new ≡ with_back (written self.old) (take n bytes.now)) }
        ensures err { OnErr result (written self.new ≡ written self.old) }

        ensures failed { IsErrOf result SinkFault.Failed →
            Rose (faults self.old) (faults self.new) }
        ensures counts { faults self.old ≤ faults self.new }
        ensures taken { OnOk result (refusals self.new ≡ taken (refusals self.old)) }
        ensures refused { OnErr result (refusals self.new ≡ refused (refusals self.old)) };
}

//! What is wrong with a file, and where.

ghost use Rattle.std.specs.Prelude.{◌≡◌, ◌≤◌, length, Some};
ghost use Rattle.fixed_cost.specs.Faults.{file_kind_name, kind_of, fault_at, ended_fault, fault_text};
ghost use Rattle.number_words.specs.Words.{placed, words_of};
ghost use Rattle.fixed_cost.specs.declared.fault.FormFault.TheVariants.{File, NoMemory};

use crate::amount::AmountFault;
use crate::limits::MAX_INSTANCE_BYTES;
use number_words::{Word, Words};
use std::alloc::{AllocError, AllocFailed};
use std::fmt;
use thiserror::Error;

/// What is wrong with a word of a file.
#[derive(Clone, Copy, Debug, PartialEq, Eq)]
pub enum FileKind {
    /// The file ends before the word that is due.
    Ended,
    /// The word is spelled like no number.
    NotANumber,
    /// An amount has a digit after the sixth decimal that isn't zero.
    TooFine,
    /// A number passes its limit.
    TooBig,
    /// A size isn't a whole number within its range.
    BadSize,
    /// An index isn't the one that is due.
    BadIndex,
    /// A number that must be zero isn't.
    NotZero,
    /// A word stands behind the last that is due.
    Trailing,
    /// The word `capacity` stands where no capacity was given.
    NeedCapacity,
    /// The number of a vertex isn't within its range.
    BadVertex,
    /// The word isn't the one that is due.
    BadWord,
}

impl FileKind {
    /// The name of the kind, as it is printed.
    pub fn name(self) -> &'static str
        ensures { result.now ≡ file_kind_name self }
    {
        match self {
            FileKind::Ended => "Ended",
            FileKind::NotANumber => "NotANumber",
            FileKind::TooFine => "TooFine",
            FileKind::TooBig => "TooBig",
            FileKind::BadSize => "BadSize",
            FileKind::BadIndex => "BadIndex",
            FileKind::NotZero => "NotZero",
            FileKind::Trailing => "Trailing",
            FileKind::NeedCapacity => "NeedCapacity",
            FileKind::BadVertex => "BadVertex",
            FileKind::BadWord => "BadWord",
        }
    }
}

impl From<AmountFault> for FileKind {
    ghost from_gives = { λ fault kind. kind ≡ kind_of fault };

    fn from(fault: AmountFault) -> FileKind {
        match fault {
            AmountFault::NotANumber => FileKind::NotANumber,
            AmountFault::TooFine => FileKind::TooFine,
            AmountFault::TooBig => FileKind::TooBig,
        }
    }
}

/// What is wrong with a file, and at which word: lines from 1, words of a line from 1.
#[derive(Clone, Copy, Debug, PartialEq, Eq)]
pub struct FileFault {
    pub kind: FileKind,
    pub line: u32,
    pub word: u32,
}

impl fmt::Display for FileFault {
    ghost output = { λ fault. Some (fault_text fault) };

    fn fmt<W: fmt::Write>(&self, f: &mut fmt::Formatter<W>) -> fmt::Result {
        let name = self.kind.name();
        let line = self.line;
        let word = self.word;
        write!(f, "{name} line {line} word {word}")
    }
}

impl FileFault {
    /// A fault at a word.
    pub fn at(kind: FileKind, word: Word<'_>) -> FileFault
        ensures { result ≡ fault_at kind (placed word.entry) }
    {
        FileFault {
            kind,
            line: word.line,
            word: word.place,
        }
    }

    /// The fault of a text of at most `MAX_INSTANCE_BYTES` that ends too soon. Its place is the line of the last
    /// word and one past its place, or line 1, word 1 where there is no word.
    pub fn ended(bytes: &[u8]) -> FileFault
        requires { length bytes.now ≤ MAX_INSTANCE_BYTES }
        ensures { result ≡ ended_fault (words_of bytes.now) }
    {
        let mut fault = FileFault {
            kind: FileKind::Ended,
            line: 1,
            word: 1,
        };
        for word in Words::new(bytes) {
            fault.line = word.line;
            fault.word = word.place + 1;
        }
        fault
    }
}

/// Why a file couldn't be read.
#[derive(Debug, Drop, Error)]
pub enum FormFault {
    /// The first word in order that has a fault.
    #[error("{0}")]
    File(FileFault),
    /// Memory ran out.
    #[error("out of memory")]
    NoMemory,
}

impl From<FileFault> for FormFault {
    ghost from_gives = { λ fault form. form ≡ File fault };

    fn from(fault: FileFault) -> FormFault {
        FormFault::File(fault)
    }
}

impl From<AllocError> for FormFault {
    ghost from_gives = { λ _ fault. fault ≡ NoMemory };

    fn from(_e: AllocError) -> FormFault {
        FormFault::NoMemory
    }
}

impl<T: Drop> From<AllocFailed<T>> for FormFault {
    ghost from_gives = { λ _ fault. fault ≡ NoMemory };

    fn from(_e: AllocFailed<T>) -> FormFault {
        FormFault::NoMemory
    }
}

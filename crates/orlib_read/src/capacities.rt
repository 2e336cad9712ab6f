//! The capacity column of a file.

ghost use Rattle.std.specs.Prelude.{◌≡◌};
ghost use Rattle.fixed_cost.specs.Reading.{Reads};
ghost use Rattle.instance_store.specs.Small.{IsSmall};
ghost use Rattle.orlib_read.specs.Warehouses.{capacity_at, limit_at};

use fixed_cost::{Amount, FileFault, FileKind, WordReader, amount_in};

/// What becomes of the capacities of a file.
#[derive(Clone, Copy, Debug, PartialEq, Eq)]
pub enum Capacities {
    /// Each site has that of its warehouse. The word `capacity` stands for the amount that is given, in
    /// millionths.
    Kept(Option<u64>),
    /// No site has one. The word `capacity` needs no amount.
    Ignored,
}

/// An amount that is given, in millionths.
pub(crate) fn micro_of(given: Option<Amount>) -> Option<u64>
    ensures value { result ≡ given }
    ensures small { IsSmall result }
{
    match given {
        Some(amount) => Some(amount.micro()),
        None => None,
    }
}

/// The capacity of the next site, in millionths, and `None` where it has none.
#[tactic(auto, unfolding(crate::specs::Warehouses::limit_at))]
pub(crate) fn read_limit(
    reader: &mut WordReader<'_>,
    capacities: Capacities,
) -> Result<Option<u64>, FileFault>
    ensures { Reads (λ limit. limit) result reader.new (limit_at capacities reader.old) }
{
    match capacities {
        Capacities::Kept(given) => Ok(Some(read_capacity(reader, given)?)),
        Capacities::Ignored => {
            read_capacity(reader, Some(0))?;
            Ok(None)
        }
    }
}

/// The next word as a capacity, in millionths.
#[tactic(auto, unfolding(crate::specs::Warehouses::capacity_at))]
fn read_capacity(reader: &mut WordReader<'_>, given: Option<u64>) -> Result<u64, FileFault>
    ensures { Reads (λ cap. cap) result reader.new (capacity_at given reader.old) }
{
    let word = reader.word()?;
    if word.text == b"capacity".as_slice() {
        return given.ok_or(FileFault::at(FileKind::NeedCapacity, word));
    }
    Ok(amount_in(word)?.micro())
}

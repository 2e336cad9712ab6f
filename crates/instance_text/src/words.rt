//! The words of a text of the suite's own form: those that are fixed, counts, ids, and amounts or `none`.

ghost use Rattle.std.specs.Prelude.{◌≡◌, ◌<◌, ◌≤◌, ◌&&◌, Ok, Err, IfOk, nat_le, nat_lt, if◌then◌else◌};
ghost use Rattle.location_terms.specs.declared.limits.TheConstants.{MAX_SITES};
ghost use Rattle.number_words.specs.Words.{placed};
ghost use Rattle.fixed_cost.specs.Amount.{count_of};
ghost use Rattle.fixed_cost.specs.Faults.{fault_at};
ghost use Rattle.fixed_cost.specs.Reading.{in_word, is_within, Reads};
ghost use Rattle.fixed_cost.specs.declared.fault.FileKind.TheVariants.{BadSize};
ghost use Rattle.instance_store.specs.Small.{IsSmall};
ghost use Rattle.table_words.specs.Tables.{is_customer_count};
ghost use Rattle.instance_text.specs.Own.{fixed_at, count_at, id_at, maybe_at, status_at, status_of_word, version_at};
ghost use Rattle.instance_text.specs.Words.{Passes};

use fixed_cost::{FileFault, FileKind, Word, WordReader, amount_in, read_count};
use instance_store::SiteStatus;
use location_terms::{MAX_CUSTOMERS, MAX_LANES, MAX_SITES};

/// Passes over the next word, which is this one.
#[tactic(auto, unfolding(crate::specs::Own::fixed_at))]
pub(crate) fn pass(reader: &mut WordReader<'_>, due: &[u8]) -> Result<(), FileFault>
    ensures { Passes result reader.new (fixed_at due.now reader.old) }
{
    let word = reader.word()?;
    if word.text == due {
        Ok(())
    } else {
        Err(FileFault::at(FileKind::BadWord, word))
    }
}

/// The number of sites.
#[tactic(auto, unfolding(crate::specs::Own::count_at))]
pub(crate) fn site_count(reader: &mut WordReader<'_>) -> Result<u32, FileFault>
    ensures read { Reads (λ n. n) result reader.new (count_at BadSize (is_within 1 MAX_SITES) reader.old) }
    ensures some { IfOk result (λ n. 1 ≤ n) }
    ensures few { IfOk result (λ n. n ≤ MAX_SITES) }
{
    within(reader, 1, MAX_SITES as u32)
}

/// The number of customers, where there are so many sites.
#[tactic(auto, unfolding(crate::specs::Own::count_at))]
pub(crate) fn customer_count(reader: &mut WordReader<'_>, sites: u32) -> Result<u32, FileFault>
    requires { sites ≤ MAX_SITES }
    ensures { Reads (λ n. n) result reader.new (count_at BadSize (is_customer_count sites) reader.old) }
{
    let word = reader.word()?;
    let n = count_in(word)?;
    tested(FileKind::BadSize, is_customer_count(sites, n), word, n)
}

fn is_customer_count(sites: u32, n: u32) -> bool
    requires { sites ≤ MAX_SITES }
    ensures { result ≡ is_customer_count sites n }
{
    1 <= n && n <= MAX_CUSTOMERS as u32 && u64::from(sites) * u64::from(n) <= MAX_LANES as u64
}

/// The id of the next site or customer to come.
#[tactic(auto, unfolding(crate::specs::Own::count_at))]
pub(crate) fn next_id(reader: &mut WordReader<'_>) -> Result<u32, FileFault>
    ensures { Reads (λ n. n) result reader.new (count_at BadSize (λ n. nat_le 1 n) reader.old) }
{
    let word = reader.word()?;
    let n = count_in(word)?;
    tested(FileKind::BadSize, 1 <= n, word, n)
}

/// The least number of open sites.
#[tactic(auto, unfolding(crate::specs::Own::count_at))]
pub(crate) fn least_count(reader: &mut WordReader<'_>) -> Result<u32, FileFault>
    ensures { Reads (λ n. n) result reader.new (count_at BadSize (λ n. nat_le n MAX_SITES) reader.old) }
{
    let word = reader.word()?;
    let n = count_in(word)?;
    tested(FileKind::BadSize, n <= MAX_SITES as u32, word, n)
}

/// The greatest number of open sites, which is at least this.
#[tactic(auto, unfolding(crate::specs::Own::count_at))]
pub(crate) fn greatest_count(reader: &mut WordReader<'_>, least: u32) -> Result<u32, FileFault>
    ensures { Reads (λ n. n) result reader.new (count_at BadSize (is_within least MAX_SITES) reader.old) }
{
    within(reader, least, MAX_SITES as u32)
}

/// An id, which is greater than the last one and below the next.
#[tactic(auto, unfolding(crate::specs::Own::id_at, crate::specs::Own::count_at))]
pub(crate) fn id(reader: &mut WordReader<'_>, next: u32, last: u32) -> Result<u32, FileFault>
    ensures { Reads (λ id. id) result reader.new (id_at next last reader.old) }
{
    let word = reader.word()?;
    let id = count_in(word)?;
    tested(FileKind::BadIndex, is_between(last, id, next), word, id)
}

fn is_between(last: u32, id: u32, next: u32) -> bool
    ensures { result ≡ (nat_lt last id && nat_lt id next) }
{
    last < id && id < next
}

/// A count from `low` to `high`.
#[tactic(auto, unfolding(crate::specs::Own::count_at))]
fn within(reader: &mut WordReader<'_>, low: u32, high: u32) -> Result<u32, FileFault>
    ensures read { Reads (λ n. n) result reader.new (count_at BadSize (is_within low high) reader.old) }
    ensures low { IfOk result (λ n. low ≤ n) }
    ensures high { IfOk result (λ n. n ≤ high) }
{
    let word = reader.word()?;
    let n = count_in(word)?;
    if low <= n && n <= high {
        Ok(n)
    } else {
        Err(FileFault::at(FileKind::BadSize, word))
    }
}

/// The count that a word spells, or its fault at the place of the word.
fn count_in(word: Word<'_>) -> Result<u32, FileFault>
    ensures { result ≡ in_word (placed word.entry) (count_of word.entry.text.now) }
{
    match read_count(word.text) {
        Ok(n) => Ok(n),
        Err(fault) => Err(FileFault::at(fault.into(), word)),
    }
}

/// A count that passed its test, or the fault of this kind at the place of the word.
fn tested(kind: FileKind, passed: bool, word: Word<'_>, n: u32) -> Result<u32, FileFault>
    ensures { result ≡ (if passed then Ok n else Err (fault_at kind (placed word.entry))) }
{
    if passed {
        Ok(n)
    } else {
        Err(FileFault::at(kind, word))
    }
}

/// An amount in millionths, or `None` for the word `none`.
#[tactic(auto, unfolding(crate::specs::Own::maybe_at, crate::specs::Own::some_in))]
pub(crate) fn maybe(reader: &mut WordReader<'_>) -> Result<Option<u64>, FileFault>
    ensures read { Reads (λ amount. amount) result reader.new (maybe_at reader.old) }
    ensures small { IfOk result IsSmall }
{
    let word = reader.word()?;
    if word.text == b"none".as_slice() {
        Ok(None)
    } else {
        Ok(Some(amount_in(word)?.micro()))
    }
}

/// Whether sites have a word for their status, as in version 2.
#[tactic(auto, unfolding(crate::specs::Own::version_at))]
pub(crate) fn version(reader: &mut WordReader<'_>) -> Result<bool, FileFault>
    ensures { Reads (λ statuses. statuses) result reader.new (version_at reader.old) }
{
    let word = reader.word()?;
    if word.text == b"1".as_slice() {
        Ok(false)
    } else if word.text == b"2".as_slice() {
        Ok(true)
    } else {
        Err(FileFault::at(FileKind::BadWord, word))
    }
}

/// The status of a site, for which version 1 has no word.
#[tactic(auto, unfolding(crate::specs::Own::status_at))]
pub(crate) fn status(reader: &mut WordReader<'_>, statuses: bool) -> Result<SiteStatus, FileFault>
    ensures { Reads (λ status. status) result reader.new (status_at statuses reader.old) }
{
    if statuses {
        let word = reader.word()?;
        status_in(word)
    } else {
        Ok(SiteStatus::Free)
    }
}

fn status_in(word: Word<'_>) -> Result<SiteStatus, FileFault>
    ensures { result ≡ status_of_word (placed word.entry) }
{
    if word.text == b"free".as_slice() {
        Ok(SiteStatus::Free)
    } else if word.text == b"open".as_slice() {
        Ok(SiteStatus::MustOpen)
    } else if word.text == b"closed".as_slice() {
        Ok(SiteStatus::MustClose)
    } else {
        Err(FileFault::at(FileKind::BadWord, word))
    }
}

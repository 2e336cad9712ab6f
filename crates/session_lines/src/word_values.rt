//! What single words stand for: counts, amounts, statuses and names; and a row of lanes.
ghost use Rattle.std.specs.Prelude.{◌≡◌, IfOk, IfSome, option_map};
ghost use Rattle.instance_store.specs.Small.{IsSmall, AreSmall};
ghost use Rattle.session_lines.specs.Lines.{count_word, amount_word, amount_or_none_word, row_words, status_named, name_word};

use fixed_cost::{Amount, read_count};
use instance_store::{LaneRow, NoMemory, SiteStatus};
use number_words::LineWords;
use std::alloc::Global;

/// The count that a word spells.
pub(crate) fn count(word: &[u8]) -> Option<u32>
    ensures { result ≡ count_word word.now }
{
    read_count(word).ok()
}

/// The amount that a word spells, in millionths.
pub(crate) fn amount(word: &[u8]) -> Option<u64>
    ensures exact { result ≡ amount_word word.now }
    ensures small { IsSmall result }
{
    match Amount::read(word) {
        Ok(amount) => Some(amount.micro()),
        Err(_) => None,
    }
}

/// The amount that a word spells, or `Some(None)` for the word `none`.
pub(crate) fn amount_or_none(word: &[u8]) -> Option<Option<u64>>
    ensures exact { result ≡ amount_or_none_word word.now }
    ensures small { IfSome result IsSmall }
{
    if word == b"none".as_slice() {
        return Some(None);
    }
    Some(Some(amount(word)?))
}

/// The status that a word names.
pub(crate) fn status(word: &[u8]) -> Option<SiteStatus>
    ensures { result ≡ status_named word.now }
{
    if word == b"free".as_slice() {
        Some(SiteStatus::Free)
    } else if word == b"open".as_slice() {
        Some(SiteStatus::MustOpen)
    } else if word == b"closed".as_slice() {
        Some(SiteStatus::MustClose)
    } else {
        None
    }
}

/// The name that a word is, where it is UTF-8.
pub(crate) fn name(word: &[u8]) -> Option<&str>
    ensures { option_map (λ s. s.now) result ≡ name_word word.now }
{
    match std::str::from_utf8(word) {
        Ok(name) => Some(name),
        Err(_) => None,
    }
}

/// The row of lanes that words spell, one each. It fails only where memory runs out.
pub(crate) fn row(alloc: Global, mut words: LineWords<'_>) -> Result<Option<LaneRow>, NoMemory>
    ensures exact { IfOk result (λ r. r ≡ row_words words.entry) }
    ensures small { IfOk result (λ r. IfSome r AreSmall) }
{
    let mut row = LaneRow::with_capacity(alloc, 0)?;
    while let Some(word) = words.next() {
        let Some(lane) = amount_or_none(word) else {
            return Ok(None);
        };
        row.push(lane)?;
    }
    Ok(Some(row))
}

//! Rows: a word, and then numbers to the end of the line. A line may have any number of words, and
//! numbers of any length.

ghost use Rattle.std.specs.Prelude.{◌≡◌, ℕ, ℤ, ◌+◌, true, List, [], ◌∷◌, Some, None, IsNone, IfSome, IfOk, length, unsigned_abs, if◌then◌else◌};
ghost use Rattle.std.specs.List.{list_all};
ghost use Rattle.number_words.specs.Line.{words_of_line};
ghost use Rattle.number_words.specs.Number.{is_number, is_plain_number, number_of};
ghost use Rattle.certificate_lines.specs.Head.{allows, still_allows, numbers, numbers_at, plain_ahead, plain_in, unless_found};
ghost use Rattle.certificate_lines.specs.Lines.{Said, behind_first, ids, is_id, read_shape};
ghost use Rattle.certificate_lines.specs.Shape.{Shape, Numbers, row};

use crate::CertKind;
use instance_store::NoMemory;
use location_terms::SiteId;
use number_words::{LineWords, is_number, is_plain_number, is_spaced, number};
use std::alloc::Global;

/// How many numbers a row may have.
#[derive(Clone, Copy)]
pub(crate) enum Count {
    /// Any number of them.
    Any,
    /// As many as this.
    Just(usize),
    /// An even number.
    Even,
    /// An odd number.
    Odd,
}

/// The fault of a line that is to be this word and then numbers, where it is not so or not in the one
/// spelling.
pub(crate) fn row_fault(line: &[u8], word: &[u8], count: Count) -> Option<CertKind>
    ensures said { (say : List ℤ → Said) → read_shape (row word.now (allows count)) line.now say ≡ unless_found result (say (numbers (behind_first line.now))) }
    ensures numbers { IsNone result → list_all is_number (behind_first line.now) ≡ true }
    ensures plain { IsNone result → list_all is_plain_number (behind_first line.now) ≡ true }
    ensures enough { IsNone result → allows count (length (behind_first line.now)) ≡ true }
{
    shape_fault(line, plain_row(LineWords::new(line), word, count))
}

/// The fault of a line, where `plain` says whether the numbers of its shape are in their one spelling,
/// and is `None` where the line is of no such shape.
pub(crate) fn shape_fault(line: &[u8], plain: Option<bool>) -> Option<CertKind>
    ensures said { (shape : Shape) (say : List ℤ → Said) → plain ≡ plain_in shape (words_of_line line.now) → read_shape shape line.now say ≡ unless_found result (say (numbers_at shape (words_of_line line.now))) }
    ensures fits { IsNone result → plain ≡ Some true }
{
    match plain {
        None => Some(CertKind::BadLine),
        Some(plain) if plain && is_spaced(line) => None,
        Some(_) => Some(CertKind::NotCanonical),
    }
}

/// Whether the numbers of words that are this word and then numbers are in their one spelling.
pub(crate) fn plain_row(mut words: LineWords<'_>, word: &[u8], count: Count) -> Option<bool>
    ensures { result ≡ plain_in (row word.now (allows count)) words.entry }
{
    match words.next() {
        Some(first) if first == word => plain_numbers(words, count),
        _ => None,
    }
}

// Whether each of some numbers is in its one spelling.
fn plain_numbers(mut words: LineWords<'_>, count: Count) -> Option<bool>
    ensures { result ≡ plain_in (Numbers (allows count)) words.entry }
{
    let mut walk = begun(count);
    while let Some(word) = words.next() {
        walk = behind_number(walk, word)?;
    }
    plain_at_end(walk)
}

/// A walk over numbers, of which some are behind it.
#[derive(Clone, Copy)]
pub(crate) struct Walk {
    /// Whether each number behind it is in its one spelling.
    pub plain: bool,
    /// How many numbers there may be ahead.
    pub left: Count,
}

/// The walk that has gone past no number.
pub(crate) fn begun(count: Count) -> Walk
    ensures { (ws : List (List ℕ)) → plain_ahead (Some result) ws ≡ plain_in (Numbers (allows count)) ws }
{
    Walk {
        plain: true,
        left: count,
    }
}

/// The walk past one more word, and `None` where that is no number or one too many.
pub(crate) fn behind_number(walk: Walk, word: &[u8]) -> Option<Walk>
    ensures walked { (ws : List (List ℕ)) → plain_ahead result ws ≡ plain_ahead (Some walk) (word.now ∷ ws) }
    ensures number { IfSome result (λ _. is_number word.now ≡ true) }
{
    let plain = plain_number(word)?;
    let left = behind_one(walk.left)?;
    Some(Walk {
        plain: walk.plain & plain,
        left,
    })
}

/// Whether each number is in its one spelling where the walk ends, and `None` where more are due.
pub(crate) fn plain_at_end(walk: Walk) -> Option<bool>
    ensures { result ≡ plain_ahead (Some walk) [] }
{
    if is_enough(walk.left) {
        Some(walk.plain)
    } else {
        None
    }
}

/// Whether a number is in its one spelling, and `None` where a word is no number. Most numbers are, and
/// their digits are gone over once.
pub(crate) fn plain_number(word: &[u8]) -> Option<bool>
    ensures { result ≡ (if is_number word.now then Some (is_plain_number word.now) else None) }
{
    if is_plain_number(word) {
        Some(true)
    } else if is_number(word) {
        Some(false)
    } else {
        None
    }
}

// How many numbers there may be behind one more.
fn behind_one(count: Count) -> Option<Count>
    ensures { (n : ℕ) → allows count (n + 1) ≡ still_allows result n }
{
    match count {
        Count::Any => Some(Count::Any),
        Count::Just(0) => None,
        Count::Just(more) => Some(Count::Just(more - 1)),
        Count::Even => Some(Count::Odd),
        Count::Odd => Some(Count::Even),
    }
}

// Whether there may be no more numbers.
fn is_enough(count: Count) -> bool
    ensures { result ≡ allows count 0 }
{
    match count {
        Count::Any | Count::Even => true,
        Count::Just(more) => more == 0,
        Count::Odd => false,
    }
}

/// The ids as those of sites. It fails only where memory runs out.
pub(crate) fn site_list(alloc: Global, line: &[u8]) -> Result<Vec<SiteId>, NoMemory>
    requires numbers { list_all is_number (behind_first line.now) ≡ true }
    requires ids { list_all is_id (numbers (behind_first line.now)) ≡ true }
    ensures { IfOk result (λ v. v.items ≡ ids (numbers (behind_first line.now))) }
{
    let mut list = Vec::new(alloc);
    let mut words = behind_first(line);
    while let Some(word) = words.next() {
        if let Some(id) = id_in(word) {
            list.push(SiteId::new(id))?;
        }
    }
    Ok(list)
}

/// The id that a number is, where 32 bits hold it.
pub(crate) fn id_in(word: &[u8]) -> Option<u32>
    requires { is_number word.now ≡ true }
    ensures { result ≡ (if is_id (number_of word.now) then Some (unsigned_abs (number_of word.now)) else None) }
{
    u32::try_from(number(word)).ok()
}

/// The words behind the first.
pub(crate) fn behind_first(line: &[u8]) -> LineWords<'_>
    ensures { result ≡ behind_first line.now }
{
    let mut words = LineWords::new(line);
    let _ = words.next();
    words
}

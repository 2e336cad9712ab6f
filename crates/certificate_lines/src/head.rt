//! The first lines and the last: the header, the sizes, the sites of each status, and the end.

ghost use Rattle.std.specs.Prelude.{◌≡◌, ℤ, true, IsNone, is_some, codes, List};
ghost use Rattle.std.specs.List.{list_all};
ghost use Rattle.number_words.specs.Line.{words_of_line};
ghost use Rattle.number_words.specs.Number.{is_number, number_of};
ghost use Rattle.certificate_lines.specs.Text.{ids_where, is_status};
ghost use Rattle.certificate_lines.specs.Due.{Due as LineDue, MustClosedDue, ClaimDue, NothingShown};
ghost use Rattle.certificate_lines.specs.Model.{due_of, AnswersDue};
ghost use Rattle.certificate_lines.specs.Head.{unless_found, numbers, numbers_at, plain_in};
ghost use Rattle.certificate_lines.specs.Shape.{any_count, row};
ghost use Rattle.certificate_lines.specs.Lines.{Said, then_due, behind_first, same_ids, is_same, is_size, is_id, behind_sizes, sizes_shape, sizes_said, header_shape, sites_said, status_said, read_sizes, read_header, read_status, read_end, read_shape};
ghost use Rattle.location_terms.specs.Box.{must_open, must_close};

use crate::row::{Count, behind_first, plain_number, plain_row, row_fault, shape_fault};
use crate::row_checks::{fault_of, sites_checked};
use crate::{CertKind, Due, LineFault, is_all_free, is_status, version};
use instance_store::Instance;
use location_terms::{Claim, MAX_CUSTOMERS, MAX_SITES, SiteId, SiteStatus};
use number_words::{LineWords, number};

/// Reads the first line, which has version 1 where each site is free, and else version 2.
pub(crate) fn read_header(inst: &Instance, line: &[u8]) -> Result<Due, LineFault>
    ensures { AnswersDue result (read_header inst.now line.now) }
{
    match shape_fault(line, plain_header(inst, LineWords::new(line))) {
        Some(kind) => Err(LineFault::Line(kind)),
        None => Ok(Due::Sizes),
    }
}

// Whether words are those of the header.
fn plain_header(inst: &Instance, mut words: LineWords<'_>) -> Option<bool>
    ensures { result ≡ plain_in (header_shape inst.now) words.entry }
{
    match words.next() {
        Some(first) if first == b"dualoc-certificate".as_slice() => {
            plain_row(words, version(inst), Count::Just(0))
        }
        _ => None,
    }
}

/// Reads the numbers of sites and customers.
pub(crate) fn read_sizes(inst: &Instance, line: &[u8]) -> Result<Due, LineFault>
    ensures { AnswersDue result (read_sizes inst.now line.now) }
{
    match shape_fault(line, plain_sizes(LineWords::new(line))) {
        Some(kind) => Err(LineFault::Line(kind)),
        None => sizes_said(inst, line),
    }
}

// Whether the numbers of words that are those of sizes are in their one spelling.
fn plain_sizes(mut words: LineWords<'_>) -> Option<bool>
    ensures { result ≡ plain_in sizes_shape words.entry }
{
    let first = words.next()?;
    if first != b"sites".as_slice() {
        return None;
    }
    let sites_plain = plain_number(words.next()?)?;
    let customers_plain = plain_row(words, b"customers", Count::Just(1))?;
    Some(sites_plain && customers_plain)
}

// What a line of sizes says.
fn sizes_said(inst: &Instance, line: &[u8]) -> Result<Due, LineFault>
    requires { is_some (plain_in sizes_shape (words_of_line line.now)) ≡ true }
    ensures { AnswersDue result (sizes_said inst.now (numbers_at sizes_shape (words_of_line line.now))) }
{
    let mut words = behind_first(line);
    let (Some(sites), Some(_), Some(customers), None) = (
        words.next(),
        words.next(),
        words.next(),
        words.next(),
    ) else {
        return Err(LineFault::Line(CertKind::BadLine));
    };
    if !(is_size(sites, MAX_SITES) && is_size(customers, MAX_CUSTOMERS)) {
        return Err(LineFault::Line(CertKind::OutOfRange));
    }
    if !(is_count(sites, inst.sites()) && is_count(customers, inst.custs())) {
        return Err(LineFault::Line(CertKind::WrongSizes));
    }
    Ok(behind_sizes(inst))
}

/// Reads the sites that must be open.
pub(crate) fn read_must_open(inst: &Instance, line: &[u8]) -> Result<Due, LineFault>
    ensures { AnswersDue result (read_status inst.now (codes "must-open") must_open MustClosedDue line.now) }
{
    match status_fault(inst, line, b"must-open", SiteStatus::MustOpen) {
        Some(kind) => Err(LineFault::Line(kind)),
        None => Ok(Due::MustClosed),
    }
}

/// Reads the sites that must be closed.
pub(crate) fn read_must_closed(inst: &Instance, line: &[u8]) -> Result<Due, LineFault>
    ensures { AnswersDue result (read_status inst.now (codes "must-closed") must_close ClaimDue line.now) }
{
    match status_fault(inst, line, b"must-closed", SiteStatus::MustClose) {
        Some(kind) => Err(LineFault::Line(kind)),
        None => Ok(Due::Claim),
    }
}

/// Reads the last line.
pub(crate) fn read_end(claim: Claim, line: &[u8]) -> Result<Due, LineFault>
    ensures { AnswersDue result (read_end claim line.now) }
{
    match row_fault(line, b"end", Count::Just(0)) {
        Some(kind) => Err(LineFault::Line(kind)),
        None => Ok(Due::Nothing(claim)),
    }
}

/// The fault of a line that is to be this word and then the ids of sites, rising. A line of a status
/// and the open sites of a plan are such.
pub(crate) fn sites_fault(inst: &Instance, line: &[u8], word: &[u8]) -> Option<CertKind>
    ensures said { (rest : List ℤ → Said) → read_shape (row word.now any_count) line.now (λ zs. sites_said inst.now zs (rest zs)) ≡ unless_found result (rest (numbers (behind_first line.now))) }
    ensures numbers { IsNone result → list_all is_number (behind_first line.now) ≡ true }
    ensures ids { IsNone result → list_all is_id (numbers (behind_first line.now)) ≡ true }
{
    match row_fault(line, word, Count::Any) {
        Some(kind) => Some(kind),
        None => fault_of(sites_checked(inst, behind_first(line))),
    }
}

// The fault of a line that is to be this word and then the sites of a status.
fn status_fault(inst: &Instance, line: &[u8], word: &[u8], status: SiteStatus) -> Option<CertKind>
    ensures { (next : LineDue) → read_status inst.now word.now (is_status status) next line.now ≡ unless_found result (then_due next NothingShown) }
{
    match sites_fault(inst, line, word) {
        Some(kind) => Some(kind),
        None if !has_status(inst, line, status) => Some(CertKind::WrongStatus),
        None => None,
    }
}

// Whether the ids are those of the sites of this status, in their order.
fn has_status(inst: &Instance, line: &[u8], status: SiteStatus) -> bool
    requires { list_all is_number (behind_first line.now) ≡ true }
    ensures { result ≡ same_ids (ids_where (is_status status) inst.now) (numbers (behind_first line.now)) }
{
    let mut words = behind_first(line);
    for i in 0..inst.sites() {
        if is_status(inst.status(i), status) {
            let Some(word) = words.next() else {
                return false;
            };
            if !is_same(word, inst.site_id(i)) {
                return false;
            }
        }
    }
    words.next().is_none()
}

// Whether a number is this id.
fn is_same(word: &[u8], id: SiteId) -> bool
    requires { is_number word.now ≡ true }
    ensures { result ≡ is_same (number_of word.now) id }
{
    number(word) == i128::from(id.number())
}

// What is due behind the sizes: the lines of statuses where some site has one.
fn behind_sizes(inst: &Instance) -> Due
    ensures { due_of result ≡ behind_sizes inst.now }
{
    if is_all_free(inst) {
        Due::Claim
    } else {
        Due::MustOpen
    }
}

// Whether a number is from 1 to a limit.
fn is_size(word: &[u8], most: usize) -> bool
    requires { is_number word.now ≡ true }
    ensures { result ≡ is_size most (number_of word.now) }
{
    let value = number(word);
    1 <= value && value <= most as i128
}

// Whether a number is this count.
fn is_count(word: &[u8], count: usize) -> bool
    requires { is_number word.now ≡ true }
    ensures { result ≡ is_same (number_of word.now) count }
{
    number(word) == count as i128
}

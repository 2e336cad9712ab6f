//! The lines of a leaf behind its first: the duals of the customers, and then the prices of the capacities
//! or the word `whole`.

ghost use Rattle.std.specs.Prelude.{◌≡◌, ℕ, ℤ, List, true, map, codes, is_some, IsNone, IfOk};
ghost use Rattle.std.specs.List.{list_all};
ghost use Rattle.location_terms.specs.Instance.{site_ids};
ghost use Rattle.location_terms.specs.Box.{Path as Steps};
ghost use Rattle.location_terms.specs.declared.claim.Claim.{Claim};
ghost use Rattle.location_terms.specs.declared.limits.TheConstants.{MAX_VALUE};
ghost use Rattle.number_words.specs.Line.{words_of_line};
ghost use Rattle.number_words.specs.Number.{clamped, is_number, is_rising};
ghost use Rattle.certificate_lines.specs.Due.{LeafShown, behind_leaf};
ghost use Rattle.certificate_lines.specs.Head.{numbers, plain_in, unless_found};
ghost use Rattle.certificate_lines.specs.Lines.{behind_first, is_of_size, is_among, is_in_range, then_due, pairs_of, price_in, duals_from, values_said, read_values, read_prices, whole_said, whole_shape, read_shape, read_third};
ghost use Rattle.certificate_lines.specs.Model.{Answers, AnswersDue, due_of};
ghost use Rattle.certificate_lines.specs.Shape.{Numbers, just, row};

use crate::limited::price_in;
use crate::row::{Count, begun, behind_first, behind_number, plain_at_end, row_fault, shape_fault};
use crate::row_checks::{fault_of, place_in, prices_checked};
use crate::{CertKind, Due, LeafHead, LineFault, Shown};
use branch_tree::{Duals, Path, pass_leaf};
use instance_store::{Instance, NoMemory};
use leaf_bounds::has_small_knapsacks;
use location_terms::{Claim, MAX_VALUE};
use number_words::{LineWords, number};
use std::alloc::Global;

/// Reads a dual for each customer, behind the head of the leaf.
pub(crate) fn read_values(
    alloc: Global,
    inst: &Instance,
    head: LeafHead,
    line: &[u8],
) -> Result<Due, LineFault>
    ensures { AnswersDue result (read_values inst.now head.claim head.path head.q head.nu line.now) }
{
    let row = value_row(alloc, line, inst.custs())?;
    match shape_fault(line, row.plain) {
        Some(kind) => Err(LineFault::Line(kind)),
        None if !are_small(&row.values) => Err(LineFault::Line(CertKind::OutOfRange)),
        None => Ok(Due::Prices(head, row.values)),
    }
}

// What one walk over a line of duals gives.
#[derive(Drop)]
struct ValueRow {
    // Whether each number is in its one spelling, and `None` where the line is of another shape.
    plain: Option<bool>,
    // The numbers up to the first word that does not fit, each held at 10^30.
    values: Vec<i128>,
}

// Walks over a line that is to be `v` and then so many numbers, of which no more are kept.
fn value_row(alloc: Global, line: &[u8], count: usize) -> Result<ValueRow, NoMemory>
    ensures plain { IfOk result (λ r. r.plain ≡ plain_in (row (codes "v") (just count)) (words_of_line line.now)) }
    ensures values { IfOk result (λ r. is_some r.plain ≡ true → r.values.items ≡ map clamped (numbers (behind_first line.now))) }
{
    let mut words = LineWords::new(line);
    match words.next() {
        Some(first) if first == b"v".as_slice() => value_list(alloc, words, count),
        _ => Ok(ValueRow {
            plain: None,
            values: Vec::new(alloc),
        }),
    }
}

// Walks over so many numbers.
fn value_list(alloc: Global, mut words: LineWords<'_>, count: usize) -> Result<ValueRow, NoMemory>
    ensures plain { IfOk result (λ r. r.plain ≡ plain_in (Numbers (just count)) words.entry) }
    ensures values { IfOk result (λ r. is_some r.plain ≡ true → r.values.items ≡ map clamped (numbers words.entry)) }
{
    let mut values = Vec::with_capacity(alloc, count)?;
    let mut walk = begun(Count::Just(count));
    while let Some(word) = words.next() {
        let Some(behind) = behind_number(walk, word) else {
            return Ok(ValueRow {
                plain: None,
                values,
            });
        };
        walk = behind;
        values.push(number(word))?;
    }
    let plain = plain_at_end(walk);
    Ok(ValueRow { plain, values })
}

// Whether each value is one that a dual may have.
fn are_small(values: &[i128]) -> bool
    ensures { result ≡ list_all (is_of_size MAX_VALUE) values.now }
{
    values.iter().all(|value| value.unsigned_abs() <= MAX_VALUE)
}

/// Reads the third line of a leaf, which ends it: the word `whole`, or else prices of the capacities.
pub(crate) fn read_third(
    alloc: Global,
    inst: &Instance,
    head: LeafHead,
    values: Vec<i128>,
    line: &[u8],
) -> Result<(Due, Shown), LineFault>
    ensures { Answers result (read_third inst.now head.claim head.path head.q head.nu values.items line.now) }
{
    match LineWords::new(line).next() {
        Some(name) if name == b"whole".as_slice() => read_whole(alloc, inst, head, values, line),
        _ => read_prices(alloc, inst, head, values, line),
    }
}

// The word `whole` alone, where the knapsacks are small.
fn read_whole(
    alloc: Global,
    inst: &Instance,
    head: LeafHead,
    values: Vec<i128>,
    line: &[u8],
) -> Result<(Due, Shown), LineFault>
    ensures { Answers result (read_shape whole_shape line.now (λ zs. whole_said inst.now head.claim head.path head.q head.nu values.items)) }
{
    if let Some(kind) = row_fault(line, b"whole", Count::Just(0)) {
        return Err(LineFault::Line(kind));
    }
    if !has_small_knapsacks(inst) {
        return Err(LineFault::Line(CertKind::OutOfRange));
    }
    let duals = Duals::whole(alloc, inst, head.q, head.nu, values)?;
    leaf_shown(head.claim, head.path, duals)
}

// The prices of the capacities, each behind the id of its site.
fn read_prices(
    alloc: Global,
    inst: &Instance,
    head: LeafHead,
    values: Vec<i128>,
    line: &[u8],
) -> Result<(Due, Shown), LineFault>
    ensures { Answers result (read_prices inst.now head.claim head.path head.q head.nu values.items line.now) }
{
    if let Some(kind) = prices_fault(inst, line) {
        return Err(LineFault::Line(kind));
    }
    let duals = Duals::from_lists(head.q, head.nu, values, price_list(alloc, inst, line)?);
    leaf_shown(head.claim, head.path, duals)
}

// A leaf at this path, behind which the next node is due.
fn leaf_shown(claim: Claim, path: Path, duals: Duals) -> Result<(Due, Shown), LineFault>
    ensures { Answers result (then_due (behind_leaf claim path) (LeafShown claim path duals)) }
{
    let leaf = path.copied()?;
    let next = behind_leaf(claim, path)?;
    Ok((next, Shown::Leaf(claim, leaf, duals)))
}

// The fault of a line that is to be of ids of sites and prices, two by two.
fn prices_fault(inst: &Instance, line: &[u8]) -> Option<CertKind>
    ensures said { (claim : Claim) (path : Steps) (q : ℕ) (nu : ℤ) (v : List ℤ) → read_prices inst.now claim path q nu v line.now ≡ unless_found result (then_due (behind_leaf claim path) (LeafShown claim path (duals_from inst.now q nu v (pairs_of (numbers (behind_first line.now)))))) }
    ensures numbers { IsNone result → list_all is_number (behind_first line.now) ≡ true }
    ensures rising { IsNone result → is_rising (map (λ p. p.0) (pairs_of (numbers (behind_first line.now)))) ≡ true }
    ensures in_range { IsNone result → list_all (is_in_range inst.now) (pairs_of (numbers (behind_first line.now))) ≡ true }
    ensures known { IsNone result → list_all (λ p. is_among (site_ids inst.now) p.0) (pairs_of (numbers (behind_first line.now))) ≡ true }
{
    match row_fault(line, b"u", Count::Even) {
        Some(kind) => Some(kind),
        None => fault_of(prices_checked(inst, behind_first(line))),
    }
}

// The price of each site's capacity, 0 where the line gives none.
fn price_list(alloc: Global, inst: &Instance, line: &[u8]) -> Result<Vec<u64>, NoMemory>
    requires numbers { list_all is_number (behind_first line.now) ≡ true }
    requires rising { is_rising (map (λ p. p.0) (pairs_of (numbers (behind_first line.now)))) ≡ true }
    requires in_range { list_all (is_in_range inst.now) (pairs_of (numbers (behind_first line.now))) ≡ true }
    requires known { list_all (λ p. is_among (site_ids inst.now) p.0) (pairs_of (numbers (behind_first line.now))) ≡ true }
    ensures { IfOk result (λ u. u.items ≡ map (price_in (pairs_of (numbers (behind_first line.now)))) (site_ids inst.now)) }
{
    let mut list = vec![in alloc; 0; inst.sites()]?;
    let mut words = behind_first(line);
    while let Some(site) = words.next() {
        let Some(price) = words.next() else {
            return Ok(list);
        };
        let place = place_in(inst, site).unwrap();
        list[place] = price_in(price).unwrap();
    }
    Ok(list)
}

// The line that is due behind a leaf at this path.
fn behind_leaf(claim: Claim, mut path: Path) -> Result<Due, NoMemory>
    ensures { IfOk result (λ due. due_of due ≡ behind_leaf claim path) }
{
    if pass_leaf(&mut path)? {
        Ok(Due::Node(claim, path))
    } else {
        Ok(Due::End(claim))
    }
}

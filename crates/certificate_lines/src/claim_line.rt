//! The line of the claim.

ghost use Rattle.std.specs.Prelude.{◌≡◌, ◌∷◌, ◌&&◌, ◌||◌, [], true, not, nat_le, bytes_eq, codes, Some, None, is_some, if◌then◌else◌};
ghost use Rattle.location_terms.specs.declared.limits.TheConstants.{MAX_COST};
ghost use Rattle.number_words.specs.Cost.{is_cost, spelled_cost};
ghost use Rattle.number_words.specs.Line.{words_of_line, is_spaced};
ghost use Rattle.certificate_lines.specs.Due.{behind_claim};
ghost use Rattle.certificate_lines.specs.Model.{due_of, AnswersDue};
ghost use Rattle.certificate_lines.specs.Lines.{behind_first, begins, claim_in, has_plain_costs, has_small_costs, read_claim};

use crate::row::behind_first;
use crate::{CertKind, Due, LineFault};
use dual_value::Path;
use location_terms::{Claim, MAX_COST};
use number_words::{LineWords, cost, is_cost, is_plain_cost, is_spaced};
use std::alloc::Global;

/// Reads the claim.
pub(crate) fn read_claim(alloc: Global, line: &[u8]) -> Result<Due, LineFault>
    ensures { AnswersDue result (read_claim line.now) }
{
    if !begins(line, b"claim") {
        return Err(LineFault::Line(CertKind::BadLine));
    }
    if !is_claim(behind_first(line)) {
        return Err(LineFault::Line(CertKind::BadLine));
    }
    if !is_plain(line) {
        return Err(LineFault::Line(CertKind::NotCanonical));
    }
    if !has_small_costs(behind_first(line)) {
        return Err(LineFault::Line(CertKind::OutOfRange));
    }
    Ok(behind_claim(alloc, claim_in(behind_first(line))))
}

// Whether a line's first word is this one.
fn begins(line: &[u8], word: &[u8]) -> bool
    ensures { result ≡ begins word.now (words_of_line line.now) }
{
    match LineWords::new(line).next() {
        Some(first) => first == word,
        None => false,
    }
}

// Whether words spell a claim.
fn is_claim(mut words: LineWords<'_>) -> bool
    ensures { result ≡ is_some (claim_in words.entry) }
{
    let Some(kind) = words.next() else {
        return false;
    };
    let Some(low) = words.next() else {
        return kind == b"infeasible".as_slice();
    };
    let Some(high) = words.next() else {
        return kind == b"optimal".as_slice() && is_cost(low);
    };
    words.next().is_none() && is_bracket(kind, low, high)
}

fn is_bracket(kind: &[u8], low: &[u8], high: &[u8]) -> bool
    ensures { result ≡ is_some (claim_in (kind.now ∷ low.now ∷ high.now ∷ [])) }
{
    kind == b"bracket".as_slice() && is_cost(low) && (high == b"none".as_slice() || is_cost(high))
}

// The claim that words spell, whose costs are within the limit.
fn claim_in(mut words: LineWords<'_>) -> Claim
    requires claim { is_some (claim_in words) ≡ true }
    requires small { has_small_costs words ≡ true }
    ensures { claim_in words.entry ≡ Some result }
{
    let _kind = words.next();
    let Some(low) = words.next() else {
        return Claim::Infeasible;
    };
    let low = small_cost(low);
    match words.next() {
        None => Claim::Optimal(low),
        Some(high) => Claim::Bracket {
            low,
            high: high_end(high),
        },
    }
}

// The high end of a bracket, if it has one.
fn high_end(word: &[u8]) -> Option<u64>
    requires cost { bytes_eq word.now (codes "none") || is_cost word.now ≡ true }
    requires small { has_small_costs (word.now ∷ []) ≡ true }
    ensures { result ≡ (if bytes_eq word.now (codes "none") then None else Some (spelled_cost word.now)) }
{
    if word == b"none".as_slice() {
        None
    } else {
        Some(small_cost(word))
    }
}

// A cost within the limit.
fn small_cost(word: &[u8]) -> u64
    requires cost { is_cost word.now ≡ true }
    requires small { has_small_costs (word.now ∷ []) ≡ true }
    ensures { result ≡ spelled_cost word.now }
{
    cost(word) as u64
}

// Whether a line is spelled in the one way.
fn is_plain(line: &[u8]) -> bool
    ensures { result ≡ is_spaced line.now && has_plain_costs (behind_first line.now) }
{
    is_spaced(line) && has_plain_costs(behind_first(line))
}

// Whether each cost among the words is spelled in the one way.
fn has_plain_costs(mut words: LineWords<'_>) -> bool
    ensures { result ≡ has_plain_costs words.entry }
{
    words.all(|word| !is_cost(word) || is_plain_cost(word))
}

// Whether each cost among the words is within the limit.
fn has_small_costs(mut words: LineWords<'_>) -> bool
    ensures { result ≡ has_small_costs words.entry }
{
    words.all(|word| is_small(word))
}

// Whether a word is no cost above the limit.
fn is_small(word: &[u8]) -> bool
    ensures { result ≡ not (is_cost word.now) || nat_le (spelled_cost word.now) MAX_COST }
{
    !is_cost(word) || cost(word) <= u128::from(MAX_COST)
}

// What is due behind the claim: a plan where the claim has a cost to show, else the tree.
fn behind_claim(alloc: Global, claim: Claim) -> Due
    ensures { due_of result ≡ behind_claim claim }
{
    if claim.cost().is_some() {
        Due::Open(claim)
    } else {
        Due::Node(claim, Path::root(alloc))
    }
}

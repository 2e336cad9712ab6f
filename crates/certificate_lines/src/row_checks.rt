//! Checks that are made of each number of a row in one walk, since a fault of the one kind that comes late
//! in the line goes before one of another kind that comes early.

ghost use Rattle.std.specs.Prelude.{◌≡◌, ◌<◌, ◌&&◌, true, not, pos, map, length, option_map, is_some, IfSome, IsNone};
ghost use Rattle.std.specs.List.{list_all};
ghost use Rattle.location_terms.specs.Instance.{site_at, site_ids};
ghost use Rattle.location_terms.specs.declared.limits.TheConstants.{MAX_MULTIPLIER};
ghost use Rattle.number_words.specs.Number.{is_number, is_plain_number, number_of, is_rising};
ghost use Rattle.certificate_lines.specs.Head.{is_above, numbers, unless_found};
ghost use Rattle.certificate_lines.specs.Lines.{Said, unless, is_among, is_id, is_in_range, is_same, is_up_to, lacks_cap, pairs_of};
ghost use Rattle.certificate_lines.specs.declared.kind.CertKind.TheVariants.{NotCanonical, OutOfRange, UnknownId};

use crate::CertKind;
use crate::limited::price_in;
use crate::row::id_in;
use instance_store::Instance;
use location_terms::SiteId;
use number_words::{LineWords, number, rises};

/// Which checks the numbers of a row pass, in the order of the faults.
#[derive(Clone, Copy)]
pub(crate) struct RowChecks {
    /// They stand in the one order, and none of them could be left away.
    pub canonical: bool,
    /// Each is within its limits.
    pub in_range: bool,
    /// Each id is one of the instance.
    pub known: bool,
}

/// The fault of the first check that fails.
pub(crate) fn fault_of(checks: RowChecks) -> Option<CertKind>
    ensures said { (rest : Said) → unless checks.canonical NotCanonical (unless checks.in_range OutOfRange (unless checks.known UnknownId rest)) ≡ unless_found result rest }
    ensures canonical { IsNone result → checks.canonical ≡ true }
    ensures in_range { IsNone result → checks.in_range ≡ true }
    ensures known { IsNone result → checks.known ≡ true }
{
    if !checks.canonical {
        Some(CertKind::NotCanonical)
    } else if !checks.in_range {
        Some(CertKind::OutOfRange)
    } else if !checks.known {
        Some(CertKind::UnknownId)
    } else {
        None
    }
}

// What no number fails.
fn all_passed() -> RowChecks
    ensures canonical { result.canonical ≡ true }
    ensures in_range { result.in_range ≡ true }
    ensures known { result.known ≡ true }
{
    RowChecks {
        canonical: true,
        in_range: true,
        known: true,
    }
}

/// The checks of numbers that are to be ids of sites, rising.
pub(crate) fn sites_checked(inst: &Instance, mut words: LineWords<'_>) -> RowChecks
    requires numbers { list_all is_number words ≡ true }
    requires plain { list_all is_plain_number words ≡ true }
    ensures canonical { result.canonical ≡ is_rising (numbers words.entry) }
    ensures in_range { result.in_range ≡ list_all is_id (numbers words.entry) }
    ensures known { result.known ≡ list_all (is_among (site_ids inst.now)) (numbers words.entry) }
{
    let mut checks = all_passed();
    let mut last = None;
    while let Some(word) = words.next() {
        checks = with_site(checks, inst, last, word);
        last = Some(word);
    }
    checks
}

/// The checks of numbers that are to be ids of sites, in any order.
pub(crate) fn servers_checked(inst: &Instance, mut words: LineWords<'_>) -> RowChecks
    requires { list_all is_number words ≡ true }
    ensures canonical { result.canonical ≡ true }
    ensures in_range { result.in_range ≡ list_all is_id (numbers words.entry) }
    ensures known { result.known ≡ list_all (is_among (site_ids inst.now)) (numbers words.entry) }
{
    let mut checks = all_passed();
    while let Some(word) = words.next() {
        checks = with_id(checks, inst, word);
    }
    checks
}

// The checks with one more site, which is to be greater than the last.
fn with_site(checks: RowChecks, inst: &Instance, last: Option<&[u8]>, word: &[u8]) -> RowChecks
    requires number { is_number word.now ≡ true }
    requires plain { is_plain_number word.now ≡ true }
    requires last_number { IfSome last (λ w. is_number w.now ≡ true) }
    requires last_plain { IfSome last (λ w. is_plain_number w.now ≡ true) }
    ensures canonical { result.canonical ≡ (checks.canonical && is_above (option_map (λ w. w.now) last.entry) word.now) }
    ensures in_range { result.in_range ≡ (checks.in_range && is_id (number_of word.now)) }
    ensures known { result.known ≡ (checks.known && is_among (site_ids inst.now) (number_of word.now)) }
{
    let mut more = with_id(checks, inst, word);
    more.canonical &= is_above(last, word);
    more
}

// The checks with one more site.
fn with_id(checks: RowChecks, inst: &Instance, word: &[u8]) -> RowChecks
    requires { is_number word.now ≡ true }
    ensures canonical { result.canonical ≡ checks.canonical }
    ensures in_range { result.in_range ≡ (checks.in_range && is_id (number_of word.now)) }
    ensures known { result.known ≡ (checks.known && is_among (site_ids inst.now) (number_of word.now)) }
{
    RowChecks {
        canonical: checks.canonical,
        in_range: checks.in_range & id_in(word).is_some(),
        known: checks.known & place_in(inst, word).is_some(),
    }
}

/// The checks of numbers that are to be ids of sites, rising, each with the price of its capacity.
pub(crate) fn prices_checked(inst: &Instance, mut words: LineWords<'_>) -> RowChecks
    requires numbers { list_all is_number words ≡ true }
    requires plain { list_all is_plain_number words ≡ true }
    ensures canonical { result.canonical ≡ (is_rising (map (λ p. p.0) (pairs_of (numbers words.entry))) && list_all (λ p. not (is_same p.1 0)) (pairs_of (numbers words.entry))) }
    ensures in_range { result.in_range ≡ list_all (is_in_range inst.now) (pairs_of (numbers words.entry)) }
    ensures known { result.known ≡ list_all (λ p. is_among (site_ids inst.now) p.0) (pairs_of (numbers words.entry)) }
{
    let mut checks = all_passed();
    let mut last = None;
    while let Some(site) = words.next() {
        let Some(price) = words.next() else {
            return checks;
        };
        let with_site = with_site(checks, inst, last, site);
        checks = with_price(with_site, inst, site, price);
        last = Some(site);
    }
    checks
}

// The checks with the price of a site's capacity behind the site.
fn with_price(checks: RowChecks, inst: &Instance, site: &[u8], price: &[u8]) -> RowChecks
    requires site { is_number site.now ≡ true }
    requires price { is_number price.now ≡ true }
    ensures canonical { result.canonical ≡ (checks.canonical && not (is_same (number_of price.now) 0)) }
    ensures in_range { result.in_range ≡ (checks.in_range && is_up_to MAX_MULTIPLIER (number_of price.now) && not (lacks_cap inst.now (number_of site.now))) }
    ensures known { result.known ≡ checks.known }
{
    RowChecks {
        canonical: checks.canonical & !is_zero(price),
        in_range: checks.in_range & price_in(price).is_some() & !lacks_cap(inst, site),
        known: checks.known,
    }
}

// Whether a number is 0.
fn is_zero(word: &[u8]) -> bool
    requires { is_number word.now ≡ true }
    ensures { result ≡ is_same (number_of word.now) 0 }
{
    number(word) == 0
}

// Whether a number is greater than the one before it, if there is one.
fn is_above(last: Option<&[u8]>, word: &[u8]) -> bool
    requires number { is_number word.now ≡ true }
    requires plain { is_plain_number word.now ≡ true }
    requires last_number { IfSome last (λ w. is_number w.now ≡ true) }
    requires last_plain { IfSome last (λ w. is_plain_number w.now ≡ true) }
    ensures { result ≡ is_above (option_map (λ w. w.now) last.entry) word.now }
{
    match last {
        Some(last) => rises(last, word),
        None => true,
    }
}

// Whether a number is the id of a site without a capacity.
fn lacks_cap(inst: &Instance, word: &[u8]) -> bool
    requires { is_number word.now ≡ true }
    ensures { result ≡ lacks_cap inst.now (number_of word.now) }
{
    let _valid = inst.sites();
    match place_in(inst, word) {
        Some(place) => inst.cap(place).is_none(),
        None => false,
    }
}

/// The place of the site whose id a number is, and `None` exactly where no site has it.
pub(crate) fn place_in(inst: &Instance, word: &[u8]) -> Option<usize>
    requires { is_number word.now ≡ true }
    ensures known { is_some result ≡ is_among (site_ids inst.now) (number_of word.now) }
    ensures found { IfSome result (λ i. (i < length inst.now.sites) × (number_of word.now ≡ pos (site_at inst.now i).id)) }
{
    let _valid = inst.sites();
    match id_in(word) {
        Some(id) => inst.site_at(SiteId::new(id)),
        None => None,
    }
}

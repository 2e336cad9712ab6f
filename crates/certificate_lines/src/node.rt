//! The lines of a tree's nodes: a split on a site, a split on a lane, or the first line of a leaf.

ghost use Rattle.std.specs.Prelude.{◌≡◌, ◌&&◌, true, ℤ, List, [], ◌∷◌, length, IfOk, IfErr};
ghost use Rattle.std.specs.List.{list_all};
ghost use Rattle.location_terms.specs.Instance.{site_ids, customer_ids};
ghost use Rattle.number_words.specs.Number.{is_number, number_of};
ghost use Rattle.certificate_lines.specs.Head.{numbers};
ghost use Rattle.certificate_lines.specs.Lines.{Said, behind_first, is_among, is_id, site_shape, lane_shape, leaf_shape, split_said, site_said, lane_said, leaf_said, read_shape, read_node};
ghost use Rattle.certificate_lines.specs.Model.{Answers, IsFaultOf};
ghost use Rattle.certificate_lines.specs.Shape.{just, row};

use crate::limited::{scale_in, value_in};
use crate::row::{Count, behind_first, id_in, row_fault};
use crate::row_checks::place_in;
use crate::{CertKind, Due, LeafHead, LineFault, Shown};
use branch_tree::Path;
use instance_store::Instance;
use location_terms::{Claim, CustId, SiteId, Split};
use number_words::LineWords;

/// Reads a node at a path.
pub(crate) fn read_node(
    inst: &Instance,
    claim: Claim,
    path: Path,
    line: &[u8],
) -> Result<(Due, Shown), LineFault>
    ensures { Answers result (read_node inst.now claim path line.now) }
{
    match LineWords::new(line).next() {
        Some(name) if name == b"site".as_slice() => read_site(inst, claim, path, line),
        Some(name) if name == b"lane".as_slice() => read_lane(inst, claim, path, line),
        _ => read_leaf(claim, path, line),
    }
}

// A split on a site.
fn read_site(
    inst: &Instance,
    claim: Claim,
    path: Path,
    line: &[u8],
) -> Result<(Due, Shown), LineFault>
    ensures { Answers result (read_shape site_shape line.now (site_said inst.now claim path)) }
{
    if let Some(kind) = row_fault(line, b"site", Count::Just(1)) {
        return Err(LineFault::Line(kind));
    }
    let site = behind_first(line).next().unwrap();
    let Some(id) = id_in(site) else {
        return Err(LineFault::Line(CertKind::OutOfRange));
    };
    if place_in(inst, site).is_none() {
        return Err(LineFault::Line(CertKind::UnknownId));
    }
    split_shown(claim, path, &Split::Site(SiteId::new(id)))
}

// A split on a lane.
fn read_lane(
    inst: &Instance,
    claim: Claim,
    path: Path,
    line: &[u8],
) -> Result<(Due, Shown), LineFault>
    ensures { Answers result (read_shape lane_shape line.now (lane_said inst.now claim path)) }
{
    let (site, cust) = two_numbers(line, b"lane")?;
    let (Some(site_id), Some(cust_id)) = (id_in(site), id_in(cust)) else {
        return Err(LineFault::Line(CertKind::OutOfRange));
    };
    if !are_known(inst, site, cust) {
        return Err(LineFault::Line(CertKind::UnknownId));
    }
    let split = Split::Lane(SiteId::new(site_id), CustId::new(cust_id));
    split_shown(claim, path, &split)
}

// A split, whose first child comes next.
fn split_shown(claim: Claim, mut path: Path, split: &Split) -> Result<(Due, Shown), LineFault>
    ensures { Answers result (split_said claim path split.now) }
{
    path.push(split.first_step())?;
    Ok((Due::Node(claim, path), Shown::Split(*split)))
}

// The first line of a leaf: its scale, and its price on the number of sites.
fn read_leaf(claim: Claim, path: Path, line: &[u8]) -> Result<(Due, Shown), LineFault>
    ensures { Answers result (read_shape leaf_shape line.now (leaf_said claim path)) }
{
    let (q, nu) = two_numbers(line, b"leaf")?;
    let (Some(q), Some(nu)) = (scale_in(q), value_in(nu)) else {
        return Err(LineFault::Line(CertKind::OutOfRange));
    };
    let head = LeafHead { claim, path, q, nu };
    Ok((Due::Values(head), Shown::Nothing))
}

// The numbers of a line that is to be this word and then two numbers.
fn two_numbers<'a>(line: &'a [u8], word: &[u8]) -> Result<(&'a [u8], &'a [u8]), LineFault>
    ensures said { IfOk result (λ p. (say : List ℤ → Said) → read_shape (row word.now (just 2)) line.now say ≡ say (number_of p.0.now ∷ number_of p.1.now ∷ [])) }
    ensures fault { IfErr result (λ f. (say : List ℤ → Said) → IsFaultOf f (read_shape (row word.now (just 2)) line.now say)) }
    ensures first { IfOk result (λ p. is_number p.0.now ≡ true) }
    ensures second { IfOk result (λ p. is_number p.1.now ≡ true) }
{
    match row_fault(line, word, Count::Just(2)) {
        Some(kind) => Err(LineFault::Line(kind)),
        None => Ok(pair_behind_first(line)),
    }
}

// The numbers of a line that has two.
fn pair_behind_first(line: &[u8]) -> (&[u8], &[u8])
    requires numbers { list_all is_number (behind_first line.now) ≡ true }
    requires count { length (behind_first line.now) ≡ 2 }
    ensures first { is_number result.0.now ≡ true }
    ensures second { is_number result.1.now ≡ true }
    ensures values { numbers (behind_first line.now) ≡ number_of result.0.now ∷ number_of result.1.now ∷ [] }
{
    let mut words = behind_first(line);
    let first = words.next().unwrap();
    (first, words.next().unwrap())
}

// Whether two numbers are the ids of a site and of a customer of the instance.
fn are_known(inst: &Instance, site: &[u8], cust: &[u8]) -> bool
    requires site { is_number site.now ≡ true }
    requires cust { is_number cust.now ≡ true }
    requires id { is_id (number_of cust.now) ≡ true }
    ensures { result ≡ (is_among (site_ids inst.now) (number_of site.now) && is_among (customer_ids inst.now) (number_of cust.now)) }
{
    place_in(inst, site).is_some() && is_customer(inst, cust)
}

// Whether a number is the id of a customer of the instance.
fn is_customer(inst: &Instance, word: &[u8]) -> bool
    requires number { is_number word.now ≡ true }
    requires id { is_id (number_of word.now) ≡ true }
    ensures { result ≡ is_among (customer_ids inst.now) (number_of word.now) }
{
    match id_in(word) {
        Some(id) => inst.cust_at(CustId::new(id)).is_some(),
        None => false,
    }
}

//! The lines of the text of an instance.

ghost use Rattle.std.specs.Prelude.{◌≡◌, ◌<◌, ◌++◌, ◌∷◌, ◌&&◌, [], Option, OnOk, codes, flat_map, length, map, not, if◌then◌else◌};
ghost use Rattle.location_terms.specs.Box.{must_open, must_close};
ghost use Rattle.location_terms.specs.Instance.{site_at, customer_at};
ghost use Rattle.number_words.specs.Cost.{micro_text};
ghost use Rattle.number_words.specs.Number.{digits_text};
ghost use Rattle.number_words.specs.Words.{spaced_lines};
ghost use Rattle.instance_text.specs.Behind.{behind, line};
ghost use Rattle.instance_text.specs.OwnText.{amount_or_none, customer_words, own_head_lines, is_unsettled as are_free, printed_status, site_words};

use fixed_cost::push_micro;
use instance_store::{Instance, LaneRow, SiteStatus};
use number_words::push_count;
use std::alloc::AllocError;

/// The greatest number of bytes that a lane takes in a text: a space, nine digits, a point and six.
const LANE_BYTES: usize = 17;

/// The greatest number of bytes that the lines take without their lanes, for each of them.
const LINE_BYTES: usize = 80;

/// Room for the text of the instance.
pub(crate) fn room(inst: &Instance) -> usize {
    let lanes = inst.sites().saturating_mul(inst.custs());
    let lines = inst.sites().saturating_add(inst.custs()).saturating_add(5);
    lanes
        .saturating_mul(LANE_BYTES)
        .saturating_add(lines.saturating_mul(LINE_BYTES))
}

/// Whether no site must be open or closed.
pub(crate) fn is_unsettled(inst: &Instance) -> bool
    ensures { result ≡ are_free inst.now }
{
    let mut free = true;
    for i in 0..inst.sites() {
        free &= is_free(inst.status(i));
    }
    free
}

fn is_free(status: SiteStatus) -> bool
    ensures { result ≡ (not (must_open status) && not (must_close status)) }
{
    match status {
        SiteStatus::Free => true,
        SiteStatus::MustOpen | SiteStatus::MustClose => false,
    }
}

/// The version, the numbers of sites and of customers with the next ids, and how many sites may open.
pub(crate) fn push_head(
    text: &mut Vec<u8>,
    inst: &Instance,
    unsettled: bool,
) -> Result<(), AllocError>
    requires { unsettled ≡ are_free inst.now }
    ensures { OnOk result (text.new.items ≡ text.old.items ++ spaced_lines (own_head_lines inst.now)) }
{
    let next = inst.next_ids();
    push_version(text, unsettled)?;
    push_size_line(text, b"sites", inst.sites(), next.0)?;
    push_size_line(text, b"customers", inst.custs(), next.1)?;
    push_count_line(text, inst.count())
}

fn push_version(text: &mut Vec<u8>, unsettled: bool) -> Result<(), AllocError>
    ensures { OnOk result (text.new.items ≡ text.old.items ++ line (codes "dualoc-instance" ∷ (if unsettled then codes "1" else codes "2") ∷ [])) }
{
    if unsettled {
        text.extend_from_slice(b"dualoc-instance 1\n")
    } else {
        text.extend_from_slice(b"dualoc-instance 2\n")
    }
}

fn push_size_line(
    text: &mut Vec<u8>,
    word: &[u8],
    count: usize,
    next: u32,
) -> Result<(), AllocError>
    ensures { OnOk result (text.new.items ≡ text.old.items ++ line (word.now ∷ digits_text count ∷ codes "next" ∷ digits_text next ∷ [])) }
{
    text.extend_from_slice(word)?;
    text.extend_from_slice(b" ")?;
    push_count(text, count as u64)?;
    text.extend_from_slice(b" next ")?;
    push_count(text, u64::from(next))?;
    text.extend_from_slice(b"\n")
}

fn push_count_line(text: &mut Vec<u8>, count: (u32, u32)) -> Result<(), AllocError>
    ensures { OnOk result (text.new.items ≡ text.old.items ++ line (codes "count" ∷ digits_text count.0 ∷ digits_text count.1 ∷ [])) }
{
    text.extend_from_slice(b"count ")?;
    push_count(text, u64::from(count.0))?;
    text.extend_from_slice(b" ")?;
    push_count(text, u64::from(count.1))?;
    text.extend_from_slice(b"\n")
}

/// A line for each customer.
pub(crate) fn push_customers(text: &mut Vec<u8>, inst: &Instance) -> Result<(), AllocError>
    ensures { OnOk result (text.new.items ≡ text.old.items ++ flat_map (λ c. line (customer_words c)) inst.now.customers) }
{
    for j in 0..inst.custs() {
        push_customer(text, inst, j)?;
    }
    Ok(())
}

fn push_customer(text: &mut Vec<u8>, inst: &Instance, j: usize) -> Result<(), AllocError>
    requires { j < length inst.now.customers }
    ensures { OnOk result (text.new.items ≡ text.old.items ++ line (customer_words (customer_at inst.now j))) }
{
    text.extend_from_slice(b"customer ")?;
    push_count(text, u64::from(inst.cust_id(j).number()))?;
    text.extend_from_slice(b" ")?;
    push_micro(text, inst.demand(j))?;
    text.extend_from_slice(b"\n")
}

/// A line for each site.
pub(crate) fn push_sites(
    text: &mut Vec<u8>,
    inst: &Instance,
    unsettled: bool,
) -> Result<(), AllocError>
    requires { unsettled ≡ are_free inst.now }
    ensures { OnOk result (text.new.items ≡ text.old.items ++ flat_map (λ x. line (site_words inst.now x)) inst.now.sites) }
{
    for i in 0..inst.sites() {
        push_site(text, inst, unsettled, i)?;
    }
    Ok(())
}

fn push_site(
    text: &mut Vec<u8>,
    inst: &Instance,
    unsettled: bool,
    i: usize,
) -> Result<(), AllocError>
    requires place { i < length inst.now.sites }
    requires version { unsettled ≡ are_free inst.now }
    ensures { OnOk result (text.new.items ≡ text.old.items ++ line (site_words inst.now (site_at inst.now i))) }
{
    push_id(text, inst.site_id(i).number())?;
    push_amount(text, Some(inst.fixed(i)))?;
    push_amount(text, inst.cap(i))?;
    push_status(text, unsettled, inst.status(i))?;
    push_lanes(text, inst.lanes(i))?;
    end_line(text)
}

fn end_line(text: &mut Vec<u8>) -> Result<(), AllocError>
    ensures { OnOk result (text.new.items ≡ text.old.items ++ 10 ∷ []) }
{
    text.extend_from_slice(b"\n")
}

fn push_id(text: &mut Vec<u8>, id: u32) -> Result<(), AllocError>
    ensures { OnOk result (text.new.items ≡ text.old.items ++ (codes "site" ++ (32 ∷ digits_text id))) }
{
    text.extend_from_slice(b"site ")?;
    push_count(text, u64::from(id))
}

/// The word of a status, which version 1 leaves out.
fn push_status(text: &mut Vec<u8>, unsettled: bool, status: SiteStatus) -> Result<(), AllocError>
    ensures { OnOk result (text.new.items ≡ text.old.items ++ behind (if unsettled then [] else printed_status status ∷ [])) }
{
    if unsettled {
        return Ok(());
    }
    match status {
        SiteStatus::Free => text.extend_from_slice(b" free"),
        SiteStatus::MustOpen => text.extend_from_slice(b" open"),
        SiteStatus::MustClose => text.extend_from_slice(b" closed"),
    }
}

fn push_lanes(text: &mut Vec<u8>, lanes: &LaneRow) -> Result<(), AllocError>
    ensures { OnOk result (text.new.items ≡ text.old.items ++ flat_map (λ x. 32 ∷ amount_or_none x) lanes.now) }
{
    for k in 0..lanes.len() {
        push_amount(text, lanes.get(k))?;
    }
    Ok(())
}

/// An amount in units, or the word `none`, behind a space.
fn push_amount(text: &mut Vec<u8>, amount: Option<u64>) -> Result<(), AllocError>
    ensures { OnOk result (text.new.items ≡ text.old.items ++ 32 ∷ amount_or_none amount) }
{
    match amount {
        None => text.extend_from_slice(b" none"),
        Some(micro) => {
            text.extend_from_slice(b" ")?;
            push_micro(text, micro)
        }
    }
}

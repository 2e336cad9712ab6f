//! The lines of a certificate, as they are printed.
ghost use Rattle.std.specs.Prelude.{◌≡◌, ◌++◌, ◌∷◌, [], OnOk, codes, map, pos};
ghost use Rattle.std.specs.Option.{option_copied};
ghost use Rattle.number_words.specs.Line.{spaced};
ghost use Rattle.number_words.specs.Number.{number_text};
ghost use Rattle.certificate_lines.specs.Text.{is_status, ids_where, counts_line, header_words, sizes_line, status_lines, claim_line, plan_lines, leaf_lines, third_line, split_line, priced, text_of_lines};
ghost use Rattle.certificate_text.specs.Written.{counted, scale_line, split_lines};

use branch_tree::{Duals, NodeKind};
use certificate_lines::{is_all_free, is_status, version};
use instance_store::Instance;
use location_terms::{Claim, LeafForm, SiteId, SiteStatus, Split};
use number_words::{push_count, push_number};
use plan_meaning::Plan;
use std::alloc::AllocError;

/// The first line.
pub(crate) fn push_header(text: &mut Vec<u8>, inst: &Instance) -> Result<(), AllocError>
    ensures { OnOk result (text.new.items ≡ text.old.items ++ spaced (header_words inst.now) ++ 10 ∷ []) }
{
    text.extend_from_slice(b"dualoc-certificate ")?;
    text.extend_from_slice(version(inst))?;
    text.extend_from_slice(b"\n")
}

/// The numbers of sites and of customers.
pub(crate) fn push_sizes(text: &mut Vec<u8>, inst: &Instance) -> Result<(), AllocError>
    ensures { OnOk result (text.new.items ≡ text.old.items ++ sizes_line inst.now ++ 10 ∷ []) }
{
    text.extend_from_slice(b"sites")?;
    add_count(text, inst.sites() as u64)?;
    text.extend_from_slice(b" customers")?;
    add_count(text, inst.custs() as u64)?;
    text.extend_from_slice(b"\n")
}

/// The sites of each status, where some site has one.
pub(crate) fn push_statuses(text: &mut Vec<u8>, inst: &Instance) -> Result<(), AllocError>
    ensures { OnOk result (text.new.items ≡ text.old.items ++ text_of_lines (status_lines inst.now)) }
{
    if is_all_free(inst) {
        return Ok(());
    }
    push_status(text, inst, b"must-open", SiteStatus::MustOpen)?;
    push_status(text, inst, b"must-closed", SiteStatus::MustClose)
}

fn push_status(
    text: &mut Vec<u8>,
    inst: &Instance,
    word: &[u8],
    status: SiteStatus,
) -> Result<(), AllocError>
    ensures { OnOk result (text.new.items ≡ text.old.items ++ counts_line word.now (ids_where (is_status status) inst.now) ++ 10 ∷ []) }
{
    text.extend_from_slice(word)?;
    for i in 0..inst.sites() {
        if is_status(inst.status(i), status) {
            add_count(text, u64::from(inst.site_id(i).number()))?;
        }
    }
    text.extend_from_slice(b"\n")
}

/// The claim.
pub(crate) fn push_claim(text: &mut Vec<u8>, claim: Claim) -> Result<(), AllocError>
    ensures { OnOk result (text.new.items ≡ text.old.items ++ claim_line claim ++ 10 ∷ []) }
{
    text.extend_from_slice(b"claim ")?;
    fixed_cost::push_claim(text, claim)?;
    text.extend_from_slice(b"\n")
}

/// The plan, if there is one.
pub(crate) fn push_plan(text: &mut Vec<u8>, plan: Option<&Plan>) -> Result<(), AllocError>
    ensures { OnOk result (text.new.items ≡ text.old.items ++ text_of_lines (plan_lines (option_copied plan.entry))) }
{
    match plan {
        None => Ok(()),
        Some(plan) => {
            push_open(text, plan)?;
            push_serve(text, plan)
        }
    }
}

// The open sites, in their order.
fn push_open(text: &mut Vec<u8>, plan: &Plan) -> Result<(), AllocError>
    ensures { OnOk result (text.new.items ≡ text.old.items ++ counts_line (codes "open") plan.now.sites ++ 10 ∷ []) }
{
    text.extend_from_slice(b"open")?;
    for k in 0..plan.site_count() {
        add_count(text, u64::from(plan.site(k).number()))?;
    }
    text.extend_from_slice(b"\n")
}

// The site that serves each customer, in the order of the customers.
fn push_serve(text: &mut Vec<u8>, plan: &Plan) -> Result<(), AllocError>
    ensures { OnOk result (text.new.items ≡ text.old.items ++ counts_line (codes "serve") (map (λ v. v.1) plan.now.serves) ++ 10 ∷ []) }
{
    text.extend_from_slice(b"serve")?;
    for k in 0..plan.serve_count() {
        add_count(text, u64::from(plan.serve(k).1.number()))?;
    }
    text.extend_from_slice(b"\n")
}

/// A split. A leaf has no line here.
pub(crate) fn push_split(text: &mut Vec<u8>, node: NodeKind) -> Result<(), AllocError>
    ensures { OnOk result (text.new.items ≡ text.old.items ++ text_of_lines (split_lines node)) }
{
    match node {
        NodeKind::Leaf => Ok(()),
        NodeKind::Split(split) => push_split_line(text, split),
    }
}

// The site, or the site and the customer of the lane.
fn push_split_line(text: &mut Vec<u8>, split: Split) -> Result<(), AllocError>
    ensures { OnOk result (text.new.items ≡ text.old.items ++ text_of_lines (split_line split ∷ [])) }
{
    match split {
        Split::Site(site) => {
            text.extend_from_slice(b"site")?;
            add_count(text, u64::from(site.number()))?;
            text.extend_from_slice(b"\n")
        }
        Split::Lane(site, cust) => {
            text.extend_from_slice(b"lane")?;
            add_count(text, u64::from(site.number()))?;
            add_count(text, u64::from(cust.number()))?;
            text.extend_from_slice(b"\n")
        }
    }
}

/// A leaf, whose prices of capacities, if it has any, are those of these sites.
pub(crate) fn push_leaf(
    text: &mut Vec<u8>,
    sites: &[SiteId],
    duals: &Duals,
) -> Result<(), AllocError>
    ensures { OnOk result (text.new.items ≡ text.old.items ++ text_of_lines (leaf_lines sites.now duals.now)) }
{
    push_scale(text, duals)?;
    push_values(text, duals.values())?;
    push_third(text, sites, duals)
}

// The scale, and the price on the number of sites.
fn push_scale(text: &mut Vec<u8>, duals: &Duals) -> Result<(), AllocError>
    ensures { OnOk result (text.new.items ≡ text.old.items ++ scale_line duals.now ++ 10 ∷ []) }
{
    text.extend_from_slice(b"leaf")?;
    add_count(text, u64::from(duals.q()))?;
    add_number(text, duals.nu())?;
    text.extend_from_slice(b"\n")
}

// The duals of the customers.
fn push_values(text: &mut Vec<u8>, values: &[i128]) -> Result<(), AllocError>
    ensures { OnOk result (text.new.items ≡ text.old.items ++ spaced (codes "v" ∷ map number_text values.now) ++ 10 ∷ []) }
{
    text.extend_from_slice(b"v")?;
    for value in values {
        add_number(text, *value)?;
    }
    text.extend_from_slice(b"\n")
}

// The prices of capacities, or the word `whole`.
fn push_third(text: &mut Vec<u8>, sites: &[SiteId], duals: &Duals) -> Result<(), AllocError>
    ensures { OnOk result (text.new.items ≡ text.old.items ++ third_line duals.now.form sites.now duals.now ++ 10 ∷ []) }
{
    match duals.form() {
        LeafForm::Prices => push_prices(text, sites, duals.prices()),
        LeafForm::Whole => text.extend_from_slice(b"whole\n"),
    }
}

// The prices of capacities that aren't 0, each behind its site.
fn push_prices(text: &mut Vec<u8>, sites: &[SiteId], prices: &[u64]) -> Result<(), AllocError>
    ensures { OnOk result (text.new.items ≡ text.old.items ++ counts_line (codes "u") (priced sites.now prices.now) ++ 10 ∷ []) }
{
    text.extend_from_slice(b"u")?;
    for k in 0..sites.len().min(prices.len()) {
        push_price(text, sites[k], prices[k])?;
    }
    text.extend_from_slice(b"\n")
}

#[tactic(auto, using(crate::proofs::Rows::no_price, crate::proofs::Rows::one_price))]
fn push_price(text: &mut Vec<u8>, site: SiteId, price: u64) -> Result<(), AllocError>
    ensures { OnOk result (text.new.items ≡ text.old.items ++ counted (priced (site ∷ []) (price ∷ []))) }
{
    if price == 0 {
        return Ok(());
    }
    add_count(text, u64::from(site.number()))?;
    add_count(text, price)
}

// A space, and a number that isn't below 0.
fn add_count(text: &mut Vec<u8>, n: u64) -> Result<(), AllocError>
    ensures { OnOk result (text.new.items ≡ text.old.items ++ 32 ∷ number_text (pos n)) }
{
    text.extend_from_slice(b" ")?;
    push_count(text, n)
}

// A space and a number.
fn add_number(text: &mut Vec<u8>, value: i128) -> Result<(), AllocError>
    ensures { OnOk result (text.new.items ≡ text.old.items ++ 32 ∷ number_text value) }
{
    text.extend_from_slice(b" ")?;
    push_number(text, value)
}

//! The edits that lines ask for: what stands behind the first word of each.
ghost use Rattle.std.specs.Prelude.{◌≡◌, IfOk, IfSome, option_map};
ghost use Rattle.session_lines.specs.Asked.{line_of_request};
ghost use Rattle.session_lines.specs.Lines.{HasLineAmounts, fixed_asked, lane_asked, demand_asked, cap_asked, count_asked, addsite_asked, addcust_asked, dropsite_asked, dropcust_asked, status_asked};

use crate::Request;
use crate::word_values::{amount, amount_or_none, count, row, status};
use instance_edits::Edit;
use instance_store::{CustId, NoMemory, SiteId};
use number_words::LineWords;
use std::alloc::Global;

/// `fixed SITE AMOUNT`
pub(crate) fn fixed(mut words: LineWords<'_>) -> Option<Request<'_>>
    ensures asked { option_map line_of_request result ≡ fixed_asked words.entry }
    ensures amounts { IfSome result (λ x. HasLineAmounts (line_of_request x)) }
{
    let (site, cost) = (words.next()?, words.next()?);
    if words.next().is_some() {
        return None;
    }
    let site = SiteId::new(count(site)?);
    let cost = amount(cost)?;
    Some(Request::Change(Edit::SetFixed { site, cost }))
}

/// `lane SITE CUSTOMER COST`
pub(crate) fn lane(mut words: LineWords<'_>) -> Option<Request<'_>>
    ensures asked { option_map line_of_request result ≡ lane_asked words.entry }
    ensures amounts { IfSome result (λ x. HasLineAmounts (line_of_request x)) }
{
    let (site, cust, cost) = (words.next()?, words.next()?, words.next()?);
    if words.next().is_some() {
        return None;
    }
    let site = SiteId::new(count(site)?);
    let cust = CustId::new(count(cust)?);
    let cost = amount_or_none(cost)?;
    Some(Request::Change(Edit::SetLane { site, cust, cost }))
}

/// `demand CUSTOMER AMOUNT`
pub(crate) fn demand(mut words: LineWords<'_>) -> Option<Request<'_>>
    ensures asked { option_map line_of_request result ≡ demand_asked words.entry }
    ensures amounts { IfSome result (λ x. HasLineAmounts (line_of_request x)) }
{
    let (cust, demand) = (words.next()?, words.next()?);
    if words.next().is_some() {
        return None;
    }
    let cust = CustId::new(count(cust)?);
    let demand = amount(demand)?;
    Some(Request::Change(Edit::SetDemand { cust, demand }))
}

/// `cap SITE CAPACITY`
pub(crate) fn cap(mut words: LineWords<'_>) -> Option<Request<'_>>
    ensures asked { option_map line_of_request result ≡ cap_asked words.entry }
    ensures amounts { IfSome result (λ x. HasLineAmounts (line_of_request x)) }
{
    let (site, cap) = (words.next()?, words.next()?);
    if words.next().is_some() {
        return None;
    }
    let site = SiteId::new(count(site)?);
    let cap = amount_or_none(cap)?;
    Some(Request::Change(Edit::SetCap { site, cap }))
}

/// `count LEAST GREATEST`
pub(crate) fn open_sites(mut words: LineWords<'_>) -> Option<Request<'_>>
    ensures asked { option_map line_of_request result ≡ count_asked words.entry }
    ensures amounts { IfSome result (λ x. HasLineAmounts (line_of_request x)) }
{
    let (lo, hi) = (words.next()?, words.next()?);
    if words.next().is_some() {
        return None;
    }
    let (lo, hi) = (count(lo)?, count(hi)?);
    Some(Request::Change(Edit::SetCount { lo, hi }))
}

/// `addsite AMOUNT CAPACITY`, and a cost for each lane. It fails only where memory runs out.
pub(crate) fn add_site(
    alloc: Global,
    mut words: LineWords<'_>,
) -> Result<Option<Request<'_>>, NoMemory>
    ensures asked { IfOk result (λ r. option_map line_of_request r ≡ addsite_asked words.entry) }
    ensures amounts { IfOk result (λ r. IfSome r (λ x. HasLineAmounts (line_of_request x))) }
{
    let (Some(cost), Some(cap)) = (words.next(), words.next()) else {
        return Ok(None);
    };
    let (Some(cost), Some(cap)) = (amount(cost), amount_or_none(cap)) else {
        return Ok(None);
    };
    let Some(lanes) = row(alloc, words)? else {
        return Ok(None);
    };
    Ok(Some(Request::Change(Edit::AddSite { cost, cap, lanes })))
}

/// `addcust DEMAND`, and a cost for each lane. It fails only where memory runs out.
pub(crate) fn add_cust(
    alloc: Global,
    mut words: LineWords<'_>,
) -> Result<Option<Request<'_>>, NoMemory>
    ensures asked { IfOk result (λ r. option_map line_of_request r ≡ addcust_asked words.entry) }
    ensures amounts { IfOk result (λ r. IfSome r (λ x. HasLineAmounts (line_of_request x))) }
{
    let Some(demand) = words.next() else {
        return Ok(None);
    };
    let Some(demand) = amount(demand) else {
        return Ok(None);
    };
    let Some(lanes) = row(alloc, words)? else {
        return Ok(None);
    };
    Ok(Some(Request::Change(Edit::AddCust { demand, lanes })))
}

/// `dropsite SITE`
pub(crate) fn drop_site(mut words: LineWords<'_>) -> Option<Request<'_>>
    ensures asked { option_map line_of_request result ≡ dropsite_asked words.entry }
    ensures amounts { IfSome result (λ x. HasLineAmounts (line_of_request x)) }
{
    let site = words.next()?;
    if words.next().is_some() {
        return None;
    }
    let site = SiteId::new(count(site)?);
    Some(Request::Change(Edit::DropSite { site }))
}

/// `dropcust CUSTOMER`
pub(crate) fn drop_cust(mut words: LineWords<'_>) -> Option<Request<'_>>
    ensures asked { option_map line_of_request result ≡ dropcust_asked words.entry }
    ensures amounts { IfSome result (λ x. HasLineAmounts (line_of_request x)) }
{
    let cust = words.next()?;
    if words.next().is_some() {
        return None;
    }
    let cust = CustId::new(count(cust)?);
    Some(Request::Change(Edit::DropCust { cust }))
}

/// `status SITE STATUS`
pub(crate) fn site_status(mut words: LineWords<'_>) -> Option<Request<'_>>
    ensures asked { option_map line_of_request result ≡ status_asked words.entry }
    ensures amounts { IfSome result (λ x. HasLineAmounts (line_of_request x)) }
{
    let (site, named) = (words.next()?, words.next()?);
    if words.next().is_some() {
        return None;
    }
    let site = SiteId::new(count(site)?);
    let status = status(named)?;
    Some(Request::Change(Edit::SetStatus { site, status }))
}

//! The lines of a text, and the instance that they make.

ghost use Rattle.std.specs.Prelude.{◌≡◌, ◌≤◌, IfOk, IsOkUnless, codes, length, map};
ghost use Rattle.location_terms.specs.Instance.{IsValid};
ghost use Rattle.fixed_cost.specs.Reading.{is_within, many_at, many_from, Means, Reads, ReadsForm};
ghost use Rattle.location_terms.specs.declared.limits.TheConstants.{MAX_SITES};
ghost use Rattle.instance_store.specs.Parts.{AreParts};
ghost use Rattle.table_words.specs.Tables.{is_customer_count};
ghost use Rattle.instance_text.specs.Own.{size_line_at, count_line_at, customer_line_at, site_line_at, maybe_at, own_instance, body_at, own_at};
ghost use Rattle.instance_text.specs.Head.{IsHead};
ghost use Rattle.instance_text.specs.Settled.{with_own_statuses};

use crate::words::{
    customer_count, greatest_count, id, least_count, maybe, next_id, pass, site_count, status,
    version,
};
use fixed_cost::{FileFault, FormFault, WordReader};
use instance_store::{CustId, CustRow, Instance, LaneRow, NoMemory, SiteId, SiteRow, SiteStatus};
use std::alloc::Global;

/// The whole text.
#[tactic(auto, unfolding(crate::specs::Own::own_at))]
pub(crate) fn instance(alloc: Global, mut reader: WordReader<'_>) -> Result<Instance, FormFault>
    ensures meaning { Means (λ inst. inst) result (own_at reader.entry) }
    ensures valid { IfOk result IsValid }
{
    pass(&mut reader, b"dualoc-instance")?;
    let statuses = version(&mut reader)?;
    let m = sites_line(&mut reader)?;
    let n = customers_line(&mut reader, m.0)?;
    let count = count_line(&mut reader)?;
    body(alloc, reader, statuses, m, n, count)
}

/// What stands behind the head.
#[tactic(auto, unfolding(crate::specs::Own::body_at))]
fn body(
    alloc: Global,
    mut reader: WordReader<'_>,
    statuses: bool,
    m: (u32, u32),
    n: (u32, u32),
    count: (u32, u32),
) -> Result<Instance, FormFault>
    requires { IsHead m n count }
    ensures meaning { Means (λ inst. inst) result (body_at statuses m n count reader.entry) }
    ensures valid { IfOk result IsValid }
{
    let custs = read_customers(alloc, &mut reader, n.1, n.0)?;
    let sites = read_sites(alloc, &mut reader, statuses, n.0, m.1, m.0)?;
    pass(&mut reader, b"end")?;
    reader.finish()?;
    store(alloc, count, (m.1, n.1), custs, sites)
}

/// The number of sites, and the id of the next one to come.
#[tactic(auto, unfolding(crate::specs::Own::size_line_at))]
fn sites_line(reader: &mut WordReader<'_>) -> Result<(u32, u32), FileFault>
    ensures read { Reads (λ sizes. sizes) result reader.new (size_line_at (codes "sites") (is_within 1 MAX_SITES) reader.old) }
    ensures few { IfOk result (λ sizes. sizes.0 ≤ MAX_SITES) }
{
    pass(reader, b"sites")?;
    let count = site_count(reader)?;
    pass(reader, b"next")?;
    let next = next_id(reader)?;
    Ok((count, next))
}

/// The number of customers, where there are so many sites, and the id of the next one to come.
#[tactic(auto, unfolding(crate::specs::Own::size_line_at))]
fn customers_line(reader: &mut WordReader<'_>, sites: u32) -> Result<(u32, u32), FileFault>
    requires { sites ≤ MAX_SITES }
    ensures { Reads (λ sizes. sizes) result reader.new (size_line_at (codes "customers") (is_customer_count sites) reader.old) }
{
    pass(reader, b"customers")?;
    let count = customer_count(reader, sites)?;
    pass(reader, b"next")?;
    let next = next_id(reader)?;
    Ok((count, next))
}

/// The least and the greatest number of open sites.
#[tactic(auto, unfolding(crate::specs::Own::count_line_at))]
fn count_line(reader: &mut WordReader<'_>) -> Result<(u32, u32), FileFault>
    ensures { Reads (λ count. count) result reader.new (count_line_at reader.old) }
{
    pass(reader, b"count")?;
    let lo = least_count(reader)?;
    let hi = greatest_count(reader, lo)?;
    Ok((lo, hi))
}

/// So many customers, whose ids are below the next.
fn read_customers(
    alloc: Global,
    reader: &mut WordReader<'_>,
    next: u32,
    count: u32,
) -> Result<Vec<CustRow>, FormFault>
    ensures { ReadsForm (λ custs. custs.items) result reader.new (many_from (λ _ c. c.id) (customer_line_at next) 0 count reader.old) }
{
    let mut custs = Vec::with_capacity(alloc, count as usize)?;
    let mut last = 0;
    for _ in 0..count {
        let cust = read_customer(reader, next, last)?;
        last = cust.id.number();
        custs.push(cust)?;
    }
    Ok(custs)
}

/// A customer behind the one of the last id.
#[tactic(auto, unfolding(crate::specs::Own::customer_line_at))]
fn read_customer(reader: &mut WordReader<'_>, next: u32, last: u32) -> Result<CustRow, FileFault>
    ensures { Reads (λ cust. cust) result reader.new (customer_line_at next last reader.old) }
{
    pass(reader, b"customer")?;
    let id = CustId::new(id(reader, next, last)?);
    let demand = reader.amount()?.micro();
    Ok(CustRow { id, demand })
}

/// So many sites, whose ids are below the next, each with a lane or none to each of so many customers.
fn read_sites(
    alloc: Global,
    reader: &mut WordReader<'_>,
    statuses: bool,
    custs: u32,
    next: u32,
    count: u32,
) -> Result<Vec<(SiteRow, SiteStatus)>, FormFault>
    ensures { ReadsForm (λ sites. sites.items) result reader.new (many_from (λ _ s. s.0.id) (site_line_at statuses custs next) 0 count reader.old) }
{
    let mut sites = Vec::with_capacity(alloc, count as usize)?;
    let mut last = 0;
    for _ in 0..count {
        let (row, status) = read_site(alloc, reader, statuses, custs, next, last)?;
        last = row.id.number();
        sites.push((row, status))?;
    }
    Ok(sites)
}

/// A site behind the one of the last id.
#[tactic(auto, unfolding(crate::specs::Own::site_line_at))]
fn read_site(
    alloc: Global,
    reader: &mut WordReader<'_>,
    statuses: bool,
    custs: u32,
    next: u32,
    last: u32,
) -> Result<(SiteRow, SiteStatus), FormFault>
    ensures { ReadsForm (λ site. site) result reader.new (site_line_at statuses custs next last reader.old) }
{
    pass(reader, b"site")?;
    let id = SiteId::new(id(reader, next, last)?);
    let fixed = reader.amount()?.micro();
    let cap = maybe(reader)?;
    let status = status(reader, statuses)?;
    let lanes = read_lanes(alloc, reader, custs)?;
    let row = SiteRow {
        id,
        fixed,
        cap,
        lanes,
    };
    Ok((row, status))
}

/// So many lanes, or none in their places.
fn read_lanes(alloc: Global, reader: &mut WordReader<'_>, count: u32) -> Result<LaneRow, FormFault>
    ensures { ReadsForm (λ row. row) result reader.new (many_at (λ _. maybe_at) 0 count reader.old) }
{
    let mut lanes = LaneRow::with_capacity(alloc, count as usize).map_err(|_| FormFault::NoMemory)?;
    for _ in 0..count {
        let lane = maybe(reader)?;
        lanes.push(lane).map_err(|_| FormFault::NoMemory)?;
    }
    Ok(lanes)
}

/// The instance of what was read.
fn store(
    alloc: Global,
    count: (u32, u32),
    next: (u32, u32),
    custs: Vec<CustRow>,
    sites: Vec<(SiteRow, SiteStatus)>,
) -> Result<Instance, FormFault>
    requires { AreParts count.0 count.1 next.0 next.1 custs.items (map (λ s. s.0) sites.items) }
    ensures instance { IfOk result (λ inst. inst ≡ own_instance count next.0 next.1 custs.items sites.items) }
    ensures memory { IsOkUnless result FormFault.NoMemory }
    ensures valid { IfOk result IsValid }
{
    stored(alloc, count, next, custs, sites).map_err(|_| FormFault::NoMemory)
}

fn stored(
    alloc: Global,
    count: (u32, u32),
    next: (u32, u32),
    custs: Vec<CustRow>,
    sites: Vec<(SiteRow, SiteStatus)>,
) -> Result<Instance, NoMemory>
    requires { AreParts count.0 count.1 next.0 next.1 custs.items (map (λ s. s.0) sites.items) }
    ensures instance { IfOk result (λ inst. inst ≡ own_instance count next.0 next.1 custs.items sites.items) }
    ensures valid { IfOk result IsValid }
{
    let statuses = statuses_of(alloc, &sites)?;
    let rows = rows_of(alloc, sites)?;
    let mut inst = Instance::from_parts(alloc, count.0, count.1, next.0, next.1, custs, rows)?;
    settle(&mut inst, &statuses);
    Ok(inst)
}

fn statuses_of(alloc: Global, sites: &[(SiteRow, SiteStatus)]) -> Result<Vec<SiteStatus>, NoMemory>
    ensures { IfOk result (λ statuses. statuses.items ≡ map (λ s. s.1) sites.now) }
{
    let statuses = sites.iter().map(|site| site.1).collect(alloc)?;
    Ok(statuses)
}

fn rows_of(alloc: Global, sites: Vec<(SiteRow, SiteStatus)>) -> Result<Vec<SiteRow>, NoMemory>
    ensures { IfOk result (λ rows. rows.items ≡ map (λ s. s.0) sites.items) }
{
    let rows = sites.into_iter().map(|site| site.0).collect(alloc)?;
    Ok(rows)
}

/// Gives each site its status.
fn settle(inst: &mut Instance, statuses: &[SiteStatus])
    requires { length statuses.now ≡ length inst.old.sites }
    ensures settled { inst.new ≡ with_own_statuses inst.old statuses.now }
    ensures valid { IsValid inst.new }
{
    let _count = inst.sites();
    for i in 0..statuses.len() {
        inst.set_status(i, statuses[i]);
    }
    let _ = inst.sites();
}

ghost use Rattle.std.specs.Prelude.{IsTrue};
ghost use Rattle.std.specs.List.Sorted.{IsStrictlyIncreasing};
ghost use Rattle.location_terms.specs.Fit.{AreTame, DualsFit};
ghost use Rattle.lane_order.specs.Order.{IsOrderOf};

use dual_adjust::{Trials, adjust, gain, tight_sites, violations};
use dual_value::{Duals, Path, PreparedBox, bound, tame};
use example_instances::{customer, shared_customer, site, two_sites};
use instance_store::{CustId, Instance, LaneRow, NoMemory, SiteId};
use lane_order::LaneOrder;
use location_terms::Decision;
use std::alloc::Global;
use std::test::Fail;

// Four sites, three of which have a capacity, and six customers.
fn priced(alloc: Global) -> Result<Instance, NoMemory> {
    let first = LaneRow::from_slice(alloc, &[Some(6), Some(1), Some(9), None, Some(4), Some(4)])?;
    let second = LaneRow::from_slice(
        alloc,
        &[Some(2), Some(2), Some(1), Some(8), Some(5), Some(8)],
    )?;
    let third = LaneRow::from_slice(
        alloc,
        &[Some(4), Some(8), Some(9), Some(4), Some(3), Some(7)],
    )?;
    let fourth = LaneRow::from_slice(alloc, &[Some(2), Some(2), Some(9), Some(9), Some(0), None])?;
    let sites = vec![in alloc;
        site(1, 8, Some(11), first),
        site(2, 6, None, second),
        site(3, 2, Some(13), third),
        site(4, 4, Some(11), fourth),
    ]?;
    let custs = vec![in alloc;
        customer(1, 1),
        customer(2, 2),
        customer(3, 4),
        customer(4, 3),
        customer(5, 2),
        customer(6, 1),
    ]?;
    Instance::from_parts(alloc, 0, 4, 5, 7, custs, sites)
}

fn path(alloc: Global, steps: &[Decision]) -> Result<Path, NoMemory> {
    let mut path = Path::root(alloc);
    for step in steps {
        path.push(*step)?;
    }
    Ok(path)
}

// Duals of 0 at this scale and these prices of capacities.
fn zeros(alloc: Global, inst: &Instance, q: u32, prices: &[u64]) -> Result<Duals, NoMemory> {
    let values = vec![in alloc; 0; inst.custs()]?;
    Ok(Duals::from_lists(q, 0, values, Vec::from_slice(alloc, prices)?))
}

// Whether an adjustment may begin with these duals.
fn are_tame(inst: &Instance, duals: &Duals) -> bool
    ensures { IsTrue result → AreTame inst.now duals.now }
{
    duals.customers() == inst.custs() && duals.sites() == inst.sites() && tame(duals, inst)
}

// Whether so many rounds lead from duals of 0 to these ones and this bound.
fn leads_to(
    alloc: Global,
    inst: &Instance,
    steps: &[Decision],
    q: u32,
    prices: &[u64],
    rounds: u32,
    values: &[i128],
    want: i128,
) -> Result<bool, NoMemory> {
    let path = path(alloc, steps)?;
    let order = LaneOrder::of(alloc, inst)?;
    let start = zeros(alloc, inst, q, prices)?;
    if !are_tame(inst, &start) {
        return Ok(false);
    }
    let duals = adjust(alloc, inst, &order, &path, start, rounds)?;
    Ok(duals.values() == values && bound(inst, &path, &duals) == want)
}

// Whether then these sites are tight, these customers pay more than one of them, and another step gains
// or none does.
fn leaves(
    alloc: Global,
    inst: &Instance,
    steps: &[Decision],
    q: u32,
    prices: &[u64],
    rounds: u32,
    tight: &[SiteId],
    custs: &[CustId],
    gains: bool,
) -> Result<bool, NoMemory> {
    let path = path(alloc, steps)?;
    let order = LaneOrder::of(alloc, inst)?;
    let start = zeros(alloc, inst, q, prices)?;
    if !are_tame(inst, &start) {
        return Ok(false);
    }
    let duals = adjust(alloc, inst, &order, &path, start, rounds)?;
    let more = gain(alloc, inst, &order, &path, &duals)?.is_some();
    Ok(more == gains && has_tight(alloc, inst, &path, &duals, tight, custs)?)
}

// Whether just these sites are tight, and just these customers pay more than one of them.
fn has_tight(
    alloc: Global,
    inst: &Instance,
    path: &Path,
    duals: &Duals,
    tight: &[SiteId],
    custs: &[CustId],
) -> Result<bool, NoMemory>
    requires { DualsFit inst.now duals.now }
{
    let sites = tight_sites(alloc, inst, path, duals)?;
    Ok(sites.as_slice() == tight && violates(alloc, inst, path, duals, &sites, custs)?)
}

// Whether just these customers pay more than one of these sites.
fn violates(
    alloc: Global,
    inst: &Instance,
    path: &Path,
    duals: &Duals,
    sites: &[SiteId],
    custs: &[CustId],
) -> Result<bool, NoMemory>
    requires fit { DualsFit inst.now duals.now }
    requires rising { IsStrictlyIncreasing sites.now }
{
    Ok(violations(alloc, inst, path, duals, sites)?.as_slice() == custs)
}

// At the root of two sites, both of which the first customer pays where the ascent ends.
fn adjusts_shared(alloc: Global, inst: &Instance) -> Result<bool, NoMemory> {
    let both = [SiteId::new(1), SiteId::new(2)];
    let values = [0, 2_000_000, 2_000_000];
    Ok(
        leads_to(
            alloc,
            inst,
            &[],
            1,
            &[0, 0],
            0,
            &[2_000_000, 0, 0],
            2_000_000,
        )? && leads_to(alloc, inst, &[], 1, &[0, 0], 10, &values, 4_000_000)?
            && leaves(
                alloc,
                inst,
                &[],
                1,
                &[0, 0],
                0,
                &both,
                &[CustId::new(1)],
                true,
            )?
            && leaves(alloc, inst, &[], 1, &[0, 0], 10, &both, &[], false)?,
    )
}

// At the root, where no customer pays both sites when the ascent ends.
fn leaves_plain(alloc: Global, inst: &Instance) -> Result<bool, NoMemory> {
    let values = [8_000_000, 5_000_000, 9_000_000];
    Ok(
        leads_to(alloc, inst, &[], 1, &[0, 0], 10, &values, 22_000_000)?
            && leaves(
                alloc,
                inst,
                &[],
                1,
                &[0, 0],
                0,
                &[SiteId::new(1)],
                &[],
                false,
            )?,
    )
}

// At the root the bounds of the rounds are 35, 43 and 46, and in the first round two steps gain.
fn adjusts_priced(alloc: Global, inst: &Instance) -> Result<bool, NoMemory> {
    let prices = [1, 0, 1, 0];
    let sites = [
        SiteId::new(1),
        SiteId::new(2),
        SiteId::new(3),
        SiteId::new(4),
    ];
    let custs = [CustId::new(1), CustId::new(2)];
    Ok(
        leads_to(alloc, inst, &[], 2, &prices, 0, &[9, 7, 6, 11, 0, 11], 35)?
            && leads_to(alloc, inst, &[], 2, &prices, 1, &[7, 4, 11, 11, 5, 14], 43)?
            && leads_to(alloc, inst, &[], 2, &prices, 10, &[4, 4, 14, 11, 8, 14], 46)?
            && leaves(alloc, inst, &[], 2, &prices, 0, &sites, &custs, true)?,
    )
}

fn adjusts_boxes(alloc: Global, inst: &Instance) -> Result<bool, NoMemory> {
    let prices = [1, 0, 1, 0];
    let closed = [Decision::Closed(SiteId::new(2))];
    let opened = [Decision::Opened(SiteId::new(1))];
    let others = [SiteId::new(1), SiteId::new(3), SiteId::new(4)];
    Ok(
        leads_to(
            alloc,
            inst,
            &closed,
            2,
            &prices,
            2,
            &[9, 4, 21, 11, 0, 14],
            50,
        )? && leaves(
            alloc,
            inst,
            &closed,
            2,
            &prices,
            0,
            &others,
            &[CustId::new(2)],
            true,
        )? && leads_to(
            alloc,
            inst,
            &opened,
            2,
            &prices,
            1,
            &[4, 4, 14, 11, 8, 9],
            46,
        )?,
    )
}

// Sites that the instance hasn't are passed over.
fn passes_over_unknown(alloc: Global, inst: &Instance) -> Result<bool, NoMemory> {
    let root = Path::root(alloc);
    let values = Vec::from_slice(alloc, &[1, 11_000_000, 10_000_000])?;
    let duals = Duals::from_lists(1, 0, values, Vec::from_slice(alloc, &[0, 0])?);
    if !are_tame(inst, &duals) {
        return Ok(false);
    }
    let sites = [SiteId::new(1), SiteId::new(2), SiteId::new(7)];
    let others = [SiteId::new(2), SiteId::new(7)];
    let custs = [CustId::new(1), CustId::new(2)];
    Ok(
        violates(alloc, inst, &root, &duals, &sites, &custs)?
            && violates(alloc, inst, &root, &duals, &others, &[])?,
    )
}

// Whether duals of 0 at scale 3 without prices rise above this bound at scale 2, and these values are
// present then, at this scale. Before them other duals have ascended, at scale 2 and with prices.
fn rises_to(
    alloc: Global,
    boxed: &PreparedBox<'_>,
    order: &LaneOrder,
    bound: i128,
    rises: bool,
    q: u32,
    values: &[i128],
) -> Result<bool, NoMemory>
    requires { IsOrderOf order.now boxed.now.instance }
{
    let inst = boxed.instance();
    let present = zeros(alloc, inst, 2, &[1, 0, 1, 0])?;
    let start = zeros(alloc, inst, 3, &[0, 0, 0, 0])?;
    if !are_tame(inst, &present) || !are_tame(inst, &start) || bound.unsigned_abs() > 100 {
        return Ok(false);
    }
    let mut trials = Trials::of(alloc, inst, present)?;
    trials.ascend(boxed, order);
    let found = trials.rises_from(boxed, order, &start, bound, 2);
    Ok(found == rises && trials.duals().q() == q && trials.duals().values() == values)
}

// Whether duals that are copied are those of the start, whatever was present before.
fn rises_once_copied(
    alloc: Global,
    boxed: &PreparedBox<'_>,
    order: &LaneOrder,
) -> Result<bool, NoMemory>
    requires { IsOrderOf order.now boxed.now.instance }
{
    let inst = boxed.instance();
    let present = zeros(alloc, inst, 2, &[1, 0, 1, 0])?;
    let start = zeros(alloc, inst, 3, &[0, 0, 0, 0])?;
    if !are_tame(inst, &present) || !are_tame(inst, &start) {
        return Ok(false);
    }
    let mut trials = Trials::of(alloc, inst, present)?;
    trials.copy_from(&start);
    trials.ascend(boxed, order);
    Ok(trials.bound(boxed) == 78 && trials.slacks() == [12, 0, 0, 0].as_slice())
}

fn adjusts_over(alloc: Global, inst: &Instance) -> Result<bool, NoMemory> {
    Ok(adjusts_shared(alloc, inst)? && passes_over_unknown(alloc, inst)?)
}

#[test]
fn adjusts(rt: HostRuntime) -> Result<(), Fail> {
    let inst = shared_customer(rt.alloc())?;
    assert!(rt; adjusts_over(rt.alloc(), &inst)?);
    Ok(())
}

#[test]
fn leaves_what_gains_nothing(rt: HostRuntime) -> Result<(), Fail> {
    let inst = two_sites(rt.alloc(), 0, 2)?;
    assert!(rt; leaves_plain(rt.alloc(), &inst)?);
    Ok(())
}

fn adjusts_at_prices(alloc: Global, inst: &Instance) -> Result<bool, NoMemory> {
    Ok(adjusts_priced(alloc, inst)? && adjusts_boxes(alloc, inst)?)
}

#[test]
fn adjusts_at_prices_and_in_boxes(rt: HostRuntime) -> Result<(), Fail> {
    let inst = priced(rt.alloc())?;
    assert!(rt; adjusts_at_prices(rt.alloc(), &inst)?);
    Ok(())
}

// The ascent of the start has the bound 78 at scale 3, which is 52 at scale 2.
fn rises_in(alloc: Global, boxed: &PreparedBox<'_>, order: &LaneOrder) -> Result<bool, NoMemory>
    requires { IsOrderOf order.now boxed.now.instance }
{
    let before = [9, 7, 6, 11, 0, 11];
    let after = [12, 6, 15, 18, 6, 21];
    Ok(
        rises_to(alloc, boxed, order, 52, false, 2, &before)?
            && rises_to(alloc, boxed, order, 51, true, 3, &after)?
            && rises_once_copied(alloc, boxed, order)?,
    )
}

fn rises_at_root(alloc: Global, inst: &Instance) -> Result<bool, NoMemory> {
    let order = LaneOrder::of(alloc, inst)?;
    let root = Path::root(alloc);
    let boxed = PreparedBox::of(alloc, inst, &root)?;
    rises_in(alloc, &boxed, &order)
}

#[test]
fn rises_from_other_prices(rt: HostRuntime) -> Result<(), Fail> {
    let inst = priced(rt.alloc())?;
    assert!(rt; rises_at_root(rt.alloc(), &inst)?);
    Ok(())
}

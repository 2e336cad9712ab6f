ghost use Rattle.std.specs.Prelude.{◌<◌, IsTrue, length};
ghost use Rattle.instance_store.specs.Small.{IsSmall};
ghost use Rattle.location_terms.specs.Fit.{DualsFit};

use super::*;
use example_instances::{customer, site, two_sites, warehouses};
use instance_store::{CustId, Instance, LaneRow, NoMemory, SiteId, SiteStatus};
use location_terms::LeafForm;
use std::alloc::Global;
use std::test::Fail;

// A site of this capacity, and a customer with a demand of 6 at this cost from it.
pub(crate) fn single(
    alloc: Global,
    cap: Option<u64>,
    cost: Option<u64>,
) -> Result<Instance, NoMemory>
    requires cap { IsSmall cap }
    requires cost { IsSmall cost }
{
    let lanes = LaneRow::from_slice(alloc, &[cost])?;
    let sites = vec![in alloc; site(1, 1, cap, lanes)]?;
    let custs = vec![in alloc; customer(1, 6_000_000)]?;
    Instance::from_parts(alloc, 0, 1, 2, 2, custs, sites)
}

fn duals(alloc: Global, q: u32, nu: i128, v: &[i128], u: &[u64]) -> Result<Duals, NoMemory> {
    let values = Vec::from_slice(alloc, v)?;
    let prices = Vec::from_slice(alloc, u)?;
    Ok(Duals::from_lists(q, nu, values, prices))
}

pub(crate) fn path(alloc: Global, steps: &[Decision]) -> Result<Path, NoMemory> {
    let mut path = Path::root(alloc);
    for step in steps {
        path.push(*step)?;
    }
    Ok(path)
}

pub(crate) fn opened(site: u32) -> Decision {
    Decision::Opened(SiteId::new(site))
}

pub(crate) fn closed(site: u32) -> Decision {
    Decision::Closed(SiteId::new(site))
}

pub(crate) fn yes(site: u32, cust: u32) -> Decision {
    Decision::Yes(SiteId::new(site), CustId::new(cust))
}

pub(crate) fn no(site: u32, cust: u32) -> Decision {
    Decision::No(SiteId::new(site), CustId::new(cust))
}

// Whether there is a dual for each customer and a price for each site, all within their limits.
pub(crate) fn fit(inst: &Instance, duals: &Duals) -> bool
    ensures { IsTrue result → DualsFit inst.now duals.now }
{
    duals.customers() == inst.custs() && duals.sites() == inst.sites() && fits(duals, inst).is_ok()
}

// Duals as they are written down: a scale, the price of a site's count, and a value for each customer
// and a price for each site.
#[derive(Clone, Copy)]
pub(crate) struct Prices<'a> {
    pub(crate) q: u32,
    pub(crate) nu: i128,
    pub(crate) v: &'a [i128],
    pub(crate) u: &'a [u64],
}

pub(crate) fn duals_of(alloc: Global, prices: Prices<'_>) -> Result<Duals, NoMemory> {
    duals(alloc, prices.q, prices.nu, prices.v, prices.u)
}

#[test]
fn closes_above_the_target_less_one(rt: HostRuntime) {
    assert!(rt; !closes(21_999_999, 1, Some(22_000_000)));
    assert!(rt; closes(22_000_000, 1, Some(22_000_000)));
    assert!(rt; !closes(21_999_999_000, 1_000, Some(22_000_000)));
    assert!(rt; closes(21_999_999_001, 1_000, Some(22_000_000)));
    assert!(rt; closes(0, 1, Some(0)));
    assert!(rt; closes(1, 0, None));
    assert!(rt; !closes(0, 0, Some(5)));
    assert!(rt; !closes(1_000, 1, None));
}

const ABOVE_VALUES: i128 = 1_000_000_000_000_000_000_000_001;

const ABOVE_MULTIPLIERS: u64 = 1_000_000_000_000_000_001;

fn fault(inst: &Instance, duals: &Duals) -> Option<RangeFault> {
    if duals.customers() != inst.custs() || duals.sites() != inst.sites() {
        return None;
    }
    fits(duals, inst).err()
}

// Whether this is the first fault of duals with this value and this price.
fn has_fault(
    alloc: Global,
    inst: &Instance,
    q: u32,
    nu: i128,
    value: i128,
    price: u64,
    expected: RangeFault,
) -> bool {
    let prices = Prices {
        q,
        nu,
        v: &[0, value, 0],
        u: &[0, price],
    };
    match duals_of(alloc, prices) {
        Ok(duals) => fault(inst, &duals) == Some(expected),
        Err(_) => false,
    }
}

// Each of the first two has the later faults too.
fn finds_the_first_fault(alloc: Global, inst: &Instance) -> bool {
    let (value, price) = (ABOVE_VALUES, ABOVE_MULTIPLIERS);
    let within = 1 - ABOVE_VALUES;
    has_fault(alloc, inst, 1_000_001, 0, value, price, RangeFault::Scale)
        && has_fault(alloc, inst, 1_000_000, 0, value, price, RangeFault::Value)
        && has_fault(
            alloc,
            inst,
            0,
            ABOVE_VALUES - 1,
            within,
            price,
            RangeFault::Multiplier,
        )
        && has_fault(alloc, inst, 0, 0, within, 1, RangeFault::NoCapacity)
}

fn are_tame(inst: &Instance, duals: &Duals, expected: bool) -> bool {
    duals.customers() == inst.custs()
        && duals.sites() == inst.sites()
        && tame(duals, inst) == expected
}

fn is_tame(alloc: Global, inst: &Instance, price: u64, expected: bool) -> bool {
    match duals(alloc, 1, 0, &[0, 0], &[0, price]) {
        Ok(duals) => are_tame(inst, &duals, expected),
        Err(_) => false,
    }
}

// A demand of 6,000,000 at these prices is just within 10^23, and just above it.
fn limits_prices(alloc: Global) -> bool {
    let Ok(inst) = warehouses(alloc) else {
        return false;
    };
    is_tame(alloc, &inst, 16_666_666_666_666_666, true)
        && is_tame(alloc, &inst, 16_666_666_666_666_667, false)
}

fn settle(inst: &mut Instance, statuses: [SiteStatus; 2]) {
    if inst.sites() == 2 {
        inst.set_status(0, statuses[0]);
        inst.set_status(1, statuses[1]);
    }
}

fn are_states(inst: &Instance, path: &Path, states: [SiteState; 2]) -> bool {
    inst.sites() == 2
        && site_state(inst, path, 0) == states[0]
        && site_state(inst, path, 1) == states[1]
}

fn are_prepared_states(
    alloc: Global,
    inst: &Instance,
    path: &Path,
    states: [SiteState; 2],
) -> bool {
    match PreparedBox::of(alloc, inst, path) {
        Ok(boxed) => has_prepared(&boxed, 0, states[0]) && has_prepared(&boxed, 1, states[1]),
        Err(_) => false,
    }
}

fn has_prepared(boxed: &PreparedBox<'_>, site: usize, state: SiteState) -> bool {
    site < boxed.instance().sites()
        && boxed.state(site) == state
        && boxed.is_opened(site) == (state == SiteState::Opened)
}

// Whether the steps settle the two sites so.
fn has_states(
    alloc: Global,
    inst: &Instance,
    steps: [Decision; 2],
    states: [SiteState; 2],
) -> bool {
    match path(alloc, &steps) {
        Ok(path) => {
            are_states(inst, &path, states) && are_prepared_states(alloc, inst, &path, states)
        }
        Err(_) => false,
    }
}

// Whether the path lets the site at this place serve exactly these customers.
fn leaves_lanes(inst: &Instance, path: &Path, site: usize, lanes: [bool; 3]) -> bool {
    site < inst.sites()
        && inst.custs() == 3
        && allowed(inst, path, site, 0) == lanes[0]
        && allowed(inst, path, site, 1) == lanes[1]
        && allowed(inst, path, site, 2) == lanes[2]
}

fn are_lanes(inst: &Instance, path: &Path, torn: bool, lanes: [[bool; 3]; 2]) -> bool {
    is_torn(inst, path) == torn
        && leaves_lanes(inst, path, 0, lanes[0])
        && leaves_lanes(inst, path, 1, lanes[1])
}

fn are_prepared_lanes(alloc: Global, inst: &Instance, path: &Path, lanes: [[bool; 3]; 2]) -> bool {
    match PreparedBox::of(alloc, inst, path) {
        Ok(boxed) => admits_lanes(&boxed, 0, lanes[0]) && admits_lanes(&boxed, 1, lanes[1]),
        Err(_) => false,
    }
}

fn admits_lanes(boxed: &PreparedBox<'_>, site: usize, lanes: [bool; 3]) -> bool {
    let inst = boxed.instance();
    site < inst.sites()
        && inst.custs() == 3
        && admits(boxed, site, 0) == lanes[0]
        && admits(boxed, site, 1) == lanes[1]
        && admits(boxed, site, 2) == lanes[2]
}

// Whether there is a lane, and the box admits it.
fn admits(boxed: &PreparedBox<'_>, site: usize, cust: usize) -> bool
    requires site { site < length boxed.now.instance.sites }
    requires customer { cust < length boxed.now.instance.customers }
{
    let inst = boxed.instance();
    inst.lane(site, cust).is_some() && boxed.admits(site, cust, inst.demand(cust))
}

// Whether the steps tear the box or not, and let each site serve exactly these customers.
fn has_lanes(
    alloc: Global,
    inst: &Instance,
    steps: &[Decision],
    torn: bool,
    lanes: [[bool; 3]; 2],
) -> bool {
    match path(alloc, steps) {
        Ok(path) => {
            are_lanes(inst, &path, torn, lanes) && are_prepared_lanes(alloc, inst, &path, lanes)
        }
        Err(_) => false,
    }
}

const ALL: [bool; 3] = [true, true, true];

const NONE: [bool; 3] = [false, false, false];

fn settles_free_sites(alloc: Global, inst: &Instance) -> bool {
    has_states(
        alloc,
        inst,
        [closed(1), opened(2)],
        [SiteState::Closed, SiteState::Opened],
    ) && has_states(
        alloc,
        inst,
        [yes(1, 3), no(2, 1)],
        [SiteState::Opened, SiteState::Free],
    )
}

fn bars_lanes(alloc: Global, inst: &Instance) -> bool {
    has_lanes(
        alloc,
        inst,
        &[no(1, 1), yes(2, 3)],
        false,
        [[false, true, false], ALL],
    ) && has_lanes(alloc, inst, &[closed(1)], false, [NONE, ALL])
}

// Sites that must be open and must stay closed, first both and then each with a step against it.
fn goes_by_statuses(alloc: Global, inst: &mut Instance) -> bool {
    settle(inst, [SiteStatus::MustOpen, SiteStatus::MustClose]);
    let root = Path::root(alloc);
    let states = [SiteState::Opened, SiteState::Closed];
    are_states(inst, &root, states)
        && are_prepared_states(alloc, inst, &root, states)
        && are_lanes(inst, &root, false, [ALL, NONE])
        && are_prepared_lanes(alloc, inst, &root, [ALL, NONE])
}

fn tears_the_box(alloc: Global, inst: &mut Instance) -> bool {
    settle(inst, [SiteStatus::MustOpen, SiteStatus::Free]);
    let first = has_lanes(alloc, inst, &[closed(1)], true, [NONE, NONE]);
    settle(inst, [SiteStatus::Free, SiteStatus::MustClose]);
    first && has_lanes(alloc, inst, &[opened(2)], true, [NONE, NONE])
}

fn is_allowed(inst: &Instance, root: &Path, expected: bool) -> bool {
    inst.sites() == 1 && inst.custs() == 1 && allowed(inst, root, 0, 0) == expected
}

// Whether the root lets the only site serve the only customer, or doesn't.
fn serves(alloc: Global, cap: Option<u64>, cost: Option<u64>, expected: bool) -> bool
    requires cap { IsSmall cap }
    requires cost { IsSmall cost }
{
    match single(alloc, cap, cost) {
        Ok(inst) => is_allowed(&inst, &Path::root(alloc), expected),
        Err(_) => false,
    }
}

// Whether the path has these two steps, read at once and one by one.
fn has_steps(path: &Path, first: Decision, second: Decision) -> bool {
    path.steps() == 2
        && path.step(0) == first
        && path.step(1) == second
        && path.as_slice() == [first, second].as_slice()
}

fn is_extended(path: &Path) -> bool {
    match path.with(closed(1)) {
        Ok(longer) => path.steps() == 1 && has_steps(&longer, yes(2, 3), closed(1)),
        Err(_) => false,
    }
}

fn extends_a_path(alloc: Global) -> bool {
    match path(alloc, &[yes(2, 3)]) {
        Ok(path) => is_extended(&path),
        Err(_) => false,
    }
}

fn takes_the_last_step(alloc: Global) -> bool {
    match path(alloc, &[opened(1), no(2, 3), closed(2)]) {
        Ok(mut path) => {
            0 < path.steps() && path.pop() == closed(2) && has_steps(&path, opened(1), no(2, 3))
        }
        Err(_) => false,
    }
}

// Whether these are the duals of three customers and two sites at scale 7, all 0 but this one.
fn has_second(duals: &Duals, value: i128) -> bool {
    duals.customers() == 3
        && duals.values() == [0, value, 0].as_slice()
        && duals.v(1) == value
        && duals.sites() == 2
        && duals.prices() == [0, 0].as_slice()
        && duals.u(1) == 0
        && duals.q() == 7
        && duals.nu() == 0
}

fn sets_second(duals: &mut Duals, value: i128) -> bool {
    if !has_second(duals, 0) || duals.customers() < 2 {
        return false;
    }
    duals.set_v(1, value);
    has_second(duals, value)
}

fn replaces_a_dual(alloc: Global, inst: &Instance) -> bool {
    match Duals::zeros(alloc, inst, 7) {
        Ok(mut duals) => sets_second(&mut duals, -4),
        Err(_) => false,
    }
}

fn is_copied(duals: &Duals, value: i128) -> bool {
    match duals.copied() {
        Ok(mut copy) => has_second(&copy, value) && takes_over(&mut copy, duals, value),
        Err(_) => false,
    }
}

// Whether the values are there again where they were changed and then taken over.
fn takes_over(copy: &mut Duals, duals: &Duals, value: i128) -> bool {
    if copy.customers() != duals.customers() || copy.customers() < 2 {
        return false;
    }
    if copy.sites() != duals.sites() {
        return false;
    }
    copy.set_v(1, -9);
    copy.copy_from(duals);
    has_second(copy, value) && copy.q() == duals.q()
}

fn copies_duals(alloc: Global) -> bool {
    match duals(alloc, 7, 0, &[0, 5, 0], &[0, 0]) {
        Ok(duals) => is_copied(&duals, 5),
        Err(_) => false,
    }
}

// Whether duals and a copy of them have this form.
fn has_form(duals: Result<Duals, NoMemory>, form: LeafForm) -> bool {
    match duals {
        Ok(duals) => duals.form() == form && keeps_form(&duals),
        Err(_) => false,
    }
}

fn keeps_form(duals: &Duals) -> bool {
    match duals.copied() {
        Ok(copy) => copy.form() == duals.form(),
        Err(_) => false,
    }
}

// Zeros and numbers with prices have the form of prices, and numbers for whole knapsacks theirs.
fn has_forms(alloc: Global, inst: &Instance) -> bool {
    has_form(Duals::zeros(alloc, inst, 7), LeafForm::Prices)
        && has_form(duals(alloc, 7, 0, &[0, 5, 0], &[0, 1]), LeafForm::Prices)
        && has_form(whole(alloc, inst), LeafForm::Whole)
}

fn whole(alloc: Global, inst: &Instance) -> Result<Duals, NoMemory> {
    let values = Vec::from_slice(alloc, &[0, 5, 0])?;
    Duals::whole(alloc, inst, 7, 0, values)
}

#[test]
fn paths_duals_and_capacities(rt: HostRuntime) {
    let alloc = rt.alloc();
    assert!(rt; extends_a_path(alloc));
    assert!(rt; takes_the_last_step(alloc));
    assert!(rt; copies_duals(alloc));
    assert!(rt; serves(alloc, Some(6_000_000), Some(5), true));
    assert!(rt; serves(alloc, Some(5_999_999), Some(5), false));
    assert!(rt; serves(alloc, None, None, false));
    assert!(rt; limits_prices(alloc));
}

#[test]
fn decisions_on_the_example(rt: HostRuntime) -> Result<(), Fail> {
    let alloc = rt.alloc();
    let mut inst = two_sites(alloc, 0, 3_000)?;
    assert!(rt; finds_the_first_fault(alloc, &inst));
    assert!(rt; replaces_a_dual(alloc, &inst));
    assert!(rt; has_forms(alloc, &inst));
    assert!(rt; settles_free_sites(alloc, &inst));
    assert!(rt; bars_lanes(alloc, &inst));
    assert!(rt; goes_by_statuses(alloc, &mut inst));
    assert!(rt; tears_the_box(alloc, &mut inst));
    Ok(())
}

#[test]
fn bounds_at_two_scales(rt: HostRuntime) -> Result<(), Fail> {
    let most = 10_000_000_000_000_000_000_000_000_000_000_000_000;
    assert!(rt; is_at_least(2, 3, 4, 6));
    assert!(rt; !is_greater(2, 3, 4, 6));
    assert!(rt; is_greater(most, 999_999, most, 1_000_000));
    assert!(rt; is_greater(-most, 1_000_000, -most, 999_999));
    assert!(rt; !is_at_least(-1, 1_000_000, 0, 1));
    Ok(())
}

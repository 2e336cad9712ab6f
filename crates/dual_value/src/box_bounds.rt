//! The bounds of many boxes of one instance.
ghost use Rattle.std.specs.Prelude.{◌≡◌, ◌≤◌, IfOk, IfSome, unsigned_abs};
ghost use Rattle.location_terms.specs.Bound.{bound_of};
ghost use Rattle.location_terms.specs.Fit.{DualsFit};
ghost use Rattle.lane_order.specs.Order.{IsOrderOf};
ghost use Rattle.dual_value.specs.Sorted.{AreSortedFor, order_in};

use crate::{Duals, MAX_BOUND, Path, PreparedBox, bound, bound_from, fill_slacks};
use instance_store::{Instance, NoMemory};
use lane_order::LaneOrder;
use std::alloc::Global;
use std::marker::Model;

// Sorting the lanes takes as long as so many walks over the rows.
const WALKS: u32 = 36;

/// The bounds of many boxes of one instance, by a walk over sorted lanes, of which a bound meets only
/// those that the duals reach. Where no order is handed in, the first bounds walk the rows of the
/// instance, and the lanes are sorted once as many were asked for as that costs. Where memory runs out
/// for it, a bound walks the rows.
#[derive(Drop)]
pub struct BoxBounds<'a> {
    alloc: Global,
    inst: &'a Instance,
    // The order that was handed in.
    given: Option<&'a LaneOrder>,
    // How many bounds were asked for before there were sorted lanes.
    asked: u32,
    sorted: Option<SortedLanes<'a>>,
}

// The lanes in order, and the room for the slacks of the sites.
#[derive(Drop)]
struct SortedLanes<'a> {
    order: SortedBy<'a>,
    slacks: Vec<i128>,
}

// An order that was handed in, or one that was made.
#[derive(Drop)]
enum SortedBy<'a> {
    Given(&'a LaneOrder),
    Made(LaneOrder),
}

impl<'a> Model for BoxBounds<'a> {
    ghost use Rattle.std.specs.Prelude.{IfSome};
    ghost use Rattle.location_terms.specs.Instance.{Instance as Meaning, instance_code};
    ghost use Rattle.lane_order.specs.Order.{IsOrderOf};
    ghost use Rattle.dual_value.specs.Sorted.{AreSortedFor};

    ghost Value = { Meaning };

    ghost coded = { instance_code };

    ghost view = { λ a. a.inst.now };

    ghost invariant = { λ a. IfSome a.given (λ order. IsOrderOf order.now a.inst.now) × IfSome a.sorted (AreSortedFor a.inst.now) };
}

impl<'a> BoxBounds<'a> {
    /// The bounds of boxes of the instance. It takes no memory yet.
    pub fn of(alloc: Global, inst: &'a Instance) -> BoxBounds<'a>
        ensures { result ≡ inst.now }
    {
        BoxBounds {
            alloc,
            inst,
            given: None,
            asked: 0,
            sorted: None,
        }
    }

    /// The same, by the order of the instance that is there.
    pub fn by_order(alloc: Global, inst: &'a Instance, order: &'a LaneOrder) -> BoxBounds<'a>
        requires { IsOrderOf order.now inst.now }
        ensures { result ≡ inst.now }
    {
        BoxBounds {
            alloc,
            inst,
            given: Some(order),
            asked: WALKS,
            sorted: None,
        }
    }

    /// The bound of the box of the path, as `bound` gives it.
    pub fn bound(&mut self, path: &Path, duals: &Duals) -> i128
        requires { DualsFit self.old duals.now }
        ensures exact { result ≡ bound_of self.old path.now duals.now }
        ensures small { unsigned_abs result ≤ MAX_BOUND }
        ensures kept { self.new ≡ self.old }
    {
        self.sort_when_due();
        match &mut self.sorted {
            Some(sorted) => bound_by(sorted, self.alloc, self.inst, path, duals),
            None => bound(self.inst, path, duals),
        }
    }

    // Takes the order that is there, or sorts the lanes, once, when so many bounds were asked for that it
    // pays.
    fn sort_when_due(&mut self)
        ensures { self.new ≡ self.old }
    {
        if self.asked == WALKS {
            self.sorted = sorted_lanes(self.alloc, self.inst, self.given).ok();
        }
        if self.asked <= WALKS {
            self.asked += 1;
        }
    }
}

fn sorted_lanes<'a>(
    alloc: Global,
    inst: &Instance,
    given: Option<&'a LaneOrder>,
) -> Result<SortedLanes<'a>, NoMemory>
    requires { IfSome given (λ order. IsOrderOf order.now inst.now) }
    ensures { IfOk result (AreSortedFor inst.now) }
{
    let order = match given {
        Some(order) => SortedBy::Given(order),
        None => SortedBy::Made(LaneOrder::of(alloc, inst)?),
    };
    Ok(SortedLanes {
        order,
        slacks: vec![in alloc; 0; inst.sites()]?,
    })
}

impl SortedBy<'_> {
    fn order(&self) -> &LaneOrder
        ensures { result.now ≡ order_in self.now }
    {
        match self {
            SortedBy::Given(order) => order,
            SortedBy::Made(order) => order,
        }
    }
}

// The bound of a box by sorted lanes; by rows where there is no memory to prepare the box.
fn bound_by(
    sorted: &mut SortedLanes<'_>,
    alloc: Global,
    inst: &Instance,
    path: &Path,
    duals: &Duals,
) -> i128
    requires sorted { AreSortedFor inst.now sorted.old }
    requires fit { DualsFit inst.now duals.now }
    ensures exact { result ≡ bound_of inst.now path.now duals.now }
    ensures small { unsigned_abs result ≤ MAX_BOUND }
    ensures sorted { AreSortedFor inst.now sorted.new }
{
    let Ok(boxed) = PreparedBox::of(alloc, inst, path) else {
        return bound(inst, path, duals);
    };
    fill_slacks(&boxed, sorted.order.order(), duals, &mut sorted.slacks);
    bound_from(&boxed, duals, &sorted.slacks)
}

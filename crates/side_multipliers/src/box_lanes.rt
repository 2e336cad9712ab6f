//! The lanes that a box allows, in arrays that live on.
ghost use Rattle.std.specs.Prelude.{◌≡◌, ◌<◌, length, IfOk};
ghost use Rattle.lane_order.specs.Order.{IsOrderOf};

use dual_value::PreparedBox;
use instance_store::NoMemory;
use lane_order::{LaneOrder, PlacedLane};
use std::alloc::Global;

/// The lanes that a box allows, for each customer from the cheapest on.
#[derive(Drop)]
pub(crate) struct BoxLanes {
    lanes: Vec<PlacedLane>,
    // By customer, where its lanes end; they begin where those of the customer before end.
    ends: Vec<usize>,
}

impl BoxLanes {
    /// Room for the lanes of any box, with none in it yet. It fails only where memory runs out.
    pub(crate) fn of(alloc: Global, order: &LaneOrder) -> Result<BoxLanes, NoMemory> {
        let none = PlacedLane { cost: 0, site: 0 };
        let lanes = vec![in alloc; none; lane_count(order)]?;
        let ends = vec![in alloc; 0; order.custs()]?;
        Ok(BoxLanes { lanes, ends })
    }

    /// How many lanes there is room for.
    pub(crate) fn room(&self) -> usize {
        self.lanes.len()
    }

    /// Takes the lanes that the box allows.
    pub(crate) fn enter(&mut self, boxed: &PreparedBox<'_>, order: &LaneOrder)
        requires { IsOrderOf order.now boxed.now.instance }
    {
        fill(boxed, order, &mut self.lanes, &mut self.ends);
    }

    /// The place of the customer's first lane among all.
    pub(crate) fn start(&self, cust: usize) -> usize {
        if cust == 0 {
            return 0;
        }
        match self.ends.get(cust - 1) {
            None => 0,
            Some(start) => *start,
        }
    }

    /// The customer's lanes.
    pub(crate) fn of_customer(&self, cust: usize) -> &[PlacedLane] {
        match self.ends.get(cust) {
            None => &[],
            Some(end) => self.lanes.get(self.start(cust)..*end).unwrap_or(&[]),
        }
    }
}

fn lane_count(order: &LaneOrder) -> usize {
    let mut count = 0usize;
    for cust in 0..order.custs() {
        count = count.saturating_add(order.lanes(cust).len());
    }
    count
}

fn fill(boxed: &PreparedBox<'_>, order: &LaneOrder, lanes: &mut [PlacedLane], ends: &mut [usize])
    requires { IsOrderOf order.now boxed.now.instance }
{
    let custs = boxed.instance().custs();
    let mut end = 0;
    for cust in 0..ends.len().min(custs) {
        end = put_allowed(boxed, order, cust, lanes, end);
        ends[cust] = end;
    }
}

// Puts the customer's allowed lanes from the place `from` on. The answer is the place behind them.
fn put_allowed(
    boxed: &PreparedBox<'_>,
    order: &LaneOrder,
    cust: usize,
    lanes: &mut [PlacedLane],
    from: usize,
) -> usize
    requires order { IsOrderOf order.now boxed.now.instance }
    requires customer { cust < length boxed.now.instance.customers }
    ensures { length lanes.new ≡ length lanes.old }
{
    let demand = boxed.instance().demand(cust);
    let mut end = from;
    for lane in order.lanes(cust) {
        if end < lanes.len() && boxed.admits(lane.site as usize, cust, demand) {
            lanes[end] = *lane;
            end += 1;
        }
    }
    end
}

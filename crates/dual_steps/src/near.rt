//! The lanes that duals reach, side by side: those to one customer lie next to those to the customer before.
ghost use Rattle.std.specs.Prelude.{◌≡◌, ◌<◌, length};

use crate::customer::Customer;
use crate::paying::{ENDLESS, float_cost};
use instance_store::NoMemory;
use lane_order::{LaneOrder, PlacedLane};
use std::alloc::Global;

// More than the places of sites: what a lane costs stands above them in one number.
const PLACES: u64 = 4096;

// Of all lanes there is room for such a part, so that memory grows by less than a tenth.
const ROOM_SHARE: usize = 4;

// Behind the lanes that are paid stands such a part of as many, and so many more, for greater duals.
const SPARE_SHARE: usize = 4;

const SPARE: usize = 4;

// They are gathered anew where such a part of the customers has greater duals than they reach. Each time behind so many
// evaluations it is seen whether that is so.
const MISSING_SHARE: usize = 8;

const REVIEW: usize = 16;

/// A lane to a customer: what it costs, in millionths, and the place of its site.
#[derive(Clone, Copy)]
pub(crate) struct NearLane(u64);

impl NearLane {
    fn of(lane: &PlacedLane) -> NearLane {
        NearLane(
            lane.cost
                .wrapping_mul(PLACES)
                .wrapping_add(u64::from(lane.site)),
        )
    }

    /// What it costs.
    #[inline(always)]
    pub(crate) fn cost(self) -> f64 {
        (self.0 / PLACES) as f64
    }

    /// The place of its site.
    #[inline(always)]
    pub(crate) fn site(self) -> usize {
        (self.0 % PLACES) as usize
    }
}

// Where the lanes to a customer stand, the cheapest first. All that cost less than `reach` are there.
#[derive(Clone, Copy)]
struct Span {
    start: usize,
    end: usize,
    reach: f64,
}

// No lane.
const NOTHING: Span = Span {
    start: 0,
    end: 0,
    reach: -ENDLESS,
};

/// For each customer its cheapest lanes, as far as duals came to when they were gathered last, and a few more.
#[derive(Drop)]
pub(crate) struct NearLanes {
    spans: Vec<Span>,
    lanes: Vec<NearLane>,
    // How many evaluations there were since it was seen last whether they reach far enough.
    age: usize,
}

impl NearLanes {
    /// Before any evaluation. It fails only where memory runs out.
    pub(crate) fn of(
        alloc: Global,
        order: &LaneOrder,
        customers: usize,
    ) -> Result<NearLanes, NoMemory>
        requires { customers ≡ length order.now.lanes }
    {
        let spans = vec![in alloc; NOTHING; customers]?;
        let lanes = vec![in alloc; NearLane(0); room_for(order, customers)]?;
        Ok(NearLanes {
            spans,
            lanes,
            age: REVIEW,
        })
    }

    /// The lanes to the customer at place `j`, where all are there that cost less than this dual.
    #[inline(always)]
    pub(crate) fn below(&self, j: usize, value: f64) -> Option<&[NearLane]> {
        let span = self.spans.get(j)?;
        if value <= span.reach {
            self.lanes.get(span.start..span.end)
        } else {
            None
        }
    }

    /// Gathers the lanes anew where it is seen that the duals of many customers are beyond them.
    pub(crate) fn renew(&mut self, order: &LaneOrder, customers: &[Customer])
        requires { length customers.now ≡ length order.now.lanes }
    {
        if self.age < REVIEW {
            self.age += 1;
            return;
        }
        self.age = 1;
        if missing(&self.spans, customers) > customers.len() / MISSING_SHARE {
            gather(order, customers, &mut self.spans, &mut self.lanes);
        }
    }
}

fn room_for(order: &LaneOrder, customers: usize) -> usize
    requires { customers ≡ length order.now.lanes }
{
    let mut all = 0usize;
    for j in 0..customers {
        all = all.saturating_add(order.lanes(j).len());
    }
    all / ROOM_SHARE
}

// How many customers have greater duals than their lanes reach.
fn missing(spans: &[Span], customers: &[Customer]) -> usize {
    let mut count = 0usize;
    for j in 0..customers.len() {
        if j < spans.len() && spans[j].reach < customers[j].value {
            count = count.saturating_add(1);
        }
    }
    count
}

fn gather(order: &LaneOrder, customers: &[Customer], spans: &mut [Span], lanes: &mut [NearLane])
    requires { length customers.now ≡ length order.now.lanes }
{
    let mut start = 0;
    for j in 0..customers.len() {
        if j < spans.len() {
            spans[j] = place(order, j, customers[j].value, start, lanes);
            start = spans[j].end;
        }
    }
}

// Puts the lanes to the customer at place `j` behind those before `start`, as far as there is room.
fn place(order: &LaneOrder, j: usize, value: f64, start: usize, lanes: &mut [NearLane]) -> Span
    requires { j < length order.now.lanes }
    ensures { length lanes.new ≡ length lanes.old }
{
    let mut end = start;
    let mut last = lanes.len();
    let mut paid = true;
    for lane in order.lanes(j) {
        let cost = float_cost(lane.cost);
        if paid && value <= cost {
            paid = false;
            last = last.min(with_spare(start, end));
        }
        if end >= last || end >= lanes.len() {
            return Span {
                start,
                end,
                reach: cost,
            };
        }
        lanes[end] = NearLane::of(lane);
        end += 1;
    }
    Span {
        start,
        end,
        reach: ENDLESS,
    }
}

fn with_spare(start: usize, end: usize) -> usize {
    let spare = end.saturating_sub(start) / SPARE_SHARE;
    end.saturating_add(spare).saturating_add(SPARE)
}

//! The greatest amount of which all costs of an instance are multiples.
ghost use Rattle.std.specs.Prelude.{◌≡◌, ◌<◌, length};

use instance_store::Instance;
use lane_order::LaneOrder;

// More turns than Euclid's algorithm takes for two numbers of 64 bits.
const TURNS: usize = 100;

/// The greatest amount of which the sites' costs are multiples, in millionths: 0 where there is no cost.
pub(crate) fn unit_of_sites(inst: &Instance) -> u64 {
    let mut unit = 0;
    for i in 0..inst.sites() {
        unit = common(inst.fixed(i), unit);
    }
    unit
}

/// The greatest amount of which this unit and the costs of all lanes are multiples.
pub(crate) fn unit_with_lanes(order: &LaneOrder, unit: u64) -> u64 {
    let mut unit = unit;
    for j in 0..order.custs() {
        unit = lane_unit(order, j, unit);
    }
    unit
}

fn lane_unit(order: &LaneOrder, j: usize, unit: u64) -> u64
    requires { j < length order.now.lanes }
{
    let mut unit = unit;
    for lane in order.lanes(j) {
        unit = common(lane.cost, unit);
    }
    unit
}

// The greatest common divisor.
fn common(a: u64, b: u64) -> u64 {
    let mut a = a;
    let mut b = b;
    for _turn in 0..TURNS {
        if b == 0 {
            return a;
        }
        let rest = a % b;
        a = b;
        b = rest;
    }
    1
}

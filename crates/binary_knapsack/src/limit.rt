//! What no choice has to be kept for: the worth that is known, and what the loads still to come can add.
ghost use Rattle.std.specs.Prelude.{◌≡◌, ◌+◌, ◌-◌, ◌*◌, ◌<◌, ◌≤◌, ◌^◌, IsTrue, List, sum_by};
ghost use Rattle.binary_knapsack.specs.Loads.{Load, most, worth_with};
ghost use Rattle.binary_knapsack.specs.Bounds.{excess, IsBound};

use crate::item::{Choice, Load};

// Prices and gains are counted in so many parts of a worth of 1.
pub(crate) const PARTS: u128 = 65_536;

// What limits the worth of all that a choice may become.
#[derive(Clone, Copy)]
pub(crate) struct Limit {
    // A worth that is reached.
    pub(crate) best: u128,
    // What the loads still to come are worth above the price of their weights, those that are, in parts.
    pub(crate) gain: u128,
    // The price of a unit of weight, in parts.
    pub(crate) price: u64,
}

impl Limit {
    // Takes a load off those still to come.
    pub(crate) fn pass(&mut self, load: &Load)
        requires worth { load.now.worth < 2 ^ 112 }
        requires gain { excess self.old.price load.now ≤ self.old.gain }
        ensures { self.new ≡ record self.old { gain = self.old.gain - excess self.old.price load.now } }
    {
        self.gain -= excess(self.price, load);
    }

    // Whether the choice can't come to more than is reached, even if loads could be taken in part.
    pub(crate) fn excludes(&self, choice: &Choice) -> bool
        ensures { IsTrue result → (rest : List Load) → IsBound self.now rest → worth_with rest choice.now ≤ self.now.best }
    {
        let Some(short) = self.best.checked_sub(choice.worth) else {
            return false;
        };
        let Some(parts) = self.gain.checked_add(times(self.price, choice.room)) else {
            return false;
        };
        parts / PARTS <= short
    }
}

// What the load is worth above the price of its weight, in parts.
pub(crate) fn excess(price: u64, load: &Load) -> u128
    requires { load.now.worth < 2 ^ 112 }
    ensures { result ≡ excess price load.now }
{
    (PARTS * load.worth).saturating_sub(times(price, load.weight))
}

fn times(price: u64, weight: u64) -> u128
    ensures { result ≡ price * weight }
{
    u128::from(price) * u128::from(weight)
}

//! The numbers of the strategy. Each was chosen on the instances of `bench/solve.py`, where nothing else is said;
//! `docs/PERFORMANCE.md` has the figures.

use crate::plans::Hint;

// Without capacities: rounds of steps in the first box of a search.

/// The most rounds.
pub(crate) const ROUNDS: u32 = 40;

/// The steps of a round, and after how many misses smoothed ones become shorter.
pub(crate) const ROUND_STEPS: u32 = 100;

pub(crate) const ROUND_MISSES: u32 = 20;

/// By which part of a whole step smoothed steps begin.
pub(crate) const ROUND_FACTOR: f64 = 0.5;

/// By which they go on from those of a former search.
pub(crate) const RESUMED_FACTOR: f64 = 0.15;

/// Sweeps behind the steps of a round that came near the target.
pub(crate) const ROUND_SWEEPS: u32 = 30;

/// Parts of the target: where less is left the first round goes on to it exactly, a later one does, and one of
/// smoothed steps changes over to such steps.
pub(crate) const FIRST_PART: f64 = 0.002;

pub(crate) const LATER_PART: f64 = 0.0001;

pub(crate) const STALLED_PART: f64 = 0.0005;

/// Where more than this part is left, the gain of a round is asked for in greater parts.
pub(crate) const WIDE_PART: f64 = 0.01;

/// How often smoothed steps change over to exact ones.
pub(crate) const MAX_CHANGES: u32 = 3;

// Without capacities: the other boxes.

/// Where less than this part of the target is left, the bound may come up to it.
pub(crate) const NEAR: f64 = 0.0001;

/// How many steps are taken, after how many misses they become shorter, and by which part of a whole step they begin.
pub(crate) const NODE_STEPS: u32 = 30;

pub(crate) const NODE_MISSES: u32 = 5;

pub(crate) const NODE_FACTOR: f64 = 0.15;

/// Where each site is taken by nearly all evaluations or by nearly none, but for this share of them, the box may
/// close without a split.
pub(crate) const DECIDED: f64 = 0.1;

/// Rounds to the target, each of so many steps and sweeps.
pub(crate) const CLOSING_ROUNDS: u32 = 10;

pub(crate) const CLOSING_STEPS: u32 = 100;

/// Where less than this part of the target is left, a round has so many steps.
pub(crate) const LAST_PART: f64 = 0.000001;

pub(crate) const LAST_STEPS: u32 = 1000;

pub(crate) const CLOSING_SWEEPS: u32 = 50;

// Leaves of a tree that was carried over edits.

/// From which open leaf on steps in the box of the instance are worth while, and how many rounds of them.
pub(crate) const LEAVES_BEFORE: u32 = 4;

pub(crate) const ROOT_ROUNDS: u32 = 3;

/// More rounds go on while they take off so much of what is left.
pub(crate) const ROOT_GAIN: f64 = 0.05;

/// How often steps in a leaf go on, while they take off so much of what is left.
pub(crate) const LEAF_ROUNDS: u32 = 4;

pub(crate) const LEAF_GAIN: f64 = 0.25;

/// The steps of a round in the box of the instance under capacities, and of how many rounds.
pub(crate) const PRICE_REGROWN_ROUNDS: u32 = 5;

pub(crate) const PRICE_REGROWN_STEPS: u32 = 20;

/// Around which sites plans are sought behind such a round.
pub(crate) const PRICE_HINTS: [Hint; 2] = [Hint::Taken, Hint::Shared(0.5)];

// With capacities.

/// The scale of leaves where some site has a capacity.
pub(crate) const CAPACITY_SCALE: u32 = 1000;

/// Steps in the first box of a search, in rounds, and in others.
pub(crate) const PRICE_ROUNDS: u32 = 6;

pub(crate) const PRICE_ROUND_STEPS: u32 = 50;

pub(crate) const PRICE_NODE_STEPS: u32 = 20;

/// In how many boxes steps are taken before sets of open sites are searched for a plan, and how many times as many
/// before the next search.
pub(crate) const FIRST_SEARCH: u32 = 2000;

pub(crate) const NEXT_SEARCH: u32 = 4;

// Whole knapsacks.

/// When they are taken.
#[derive(Clone, Copy)]
pub(crate) struct Rules {
    /// From so many sites on.
    pub(crate) least_sites: usize,
    /// After the strategy was asked in so many boxes.
    pub(crate) first_boxes: u32,
    /// Where steps with them leave at most such a part of what is left without them. What the best plan costs more than
    /// an optimal one counts with both.
    pub(crate) most_left: f64,
}

/// Where they pay.
pub(crate) const WHERE_THEY_PAY: Rules = Rules {
    least_sites: 13,
    first_boxes: 25,
    most_left: 0.715,
};

/// Everywhere, and from the first box on.
pub(crate) const EVERYWHERE: Rules = Rules {
    least_sites: 0,
    first_boxes: 0,
    most_left: 1.0,
};

/// In how many boxes of a carried tree prices are to fail before, where whole knapsacks paid in the former search.
pub(crate) const FEW_BOXES: u32 = 2;

/// Turned steps in the box of the instance: the first ones, and those behind them, which are taken where the first ones
/// leave at most such a part of what prices leave.
pub(crate) const WHOLE_FIRST_CLIMBS: u32 = 100;

pub(crate) const FIRST_LEFT: f64 = 0.9;

pub(crate) const WHOLE_ROOT_CLIMBS: u32 = 200;

/// Smoothed steps in each box, and how much the first one of a box counts among those before.
pub(crate) const WHOLE_STEPS: u32 = 60;

pub(crate) const WHOLE_WEIGHT: f64 = 0.3;

/// At which shares sites are open where the first plans are sought.
pub(crate) const SEATED_SHARES: [f64; 3] = [0.5, 0.3, 0.7];

/// In one of so many boxes a plan is sought.
pub(crate) const WHOLE_PLANS: u32 = 4;

/// After so many boxes without free sites, one after the other, prices go on.
pub(crate) const WHOLE_SETTLED: u32 = 300;

// Plans.

/// Around which sites a plan is sought behind each round of steps.
pub(crate) const HINTS: [Hint; 4] = [
    Hint::Taken,
    Hint::Shared(0.5),
    Hint::Shared(0.3),
    Hint::Shared(0.15),
];

/// How many sets of sites from which plans were sought are remembered.
pub(crate) const REMEMBERED: usize = 16;

// Splits.

/// Where at most so many sites are free, they are split by their slacks alone.
pub(crate) const FEW: usize = 8;

/// How far a share has to be from 0 and 1 to count.
pub(crate) const LEAST_DOUBT: f64 = 0.01;

// Where little is left: where a number of sites is asked for, or many boxes didn't suffice. Chosen on networks of 100 to
// 900 vertices and on files of 500 to 1,000 sites in the plane.

/// A box is tight where less than this part of the target is left, and without such a number behind so many boxes. So many
/// steps are taken there.
pub(crate) const TIGHT_PART: f64 = 0.002;

pub(crate) const PLAIN_BOXES: u32 = 50;

/// Without such a number boxes are tight only where steps in the box of the instance left less than this part of the
/// target: where the bound is far below it, a few boxes that come near are no reason to take more steps in each.
pub(crate) const NARROW_PART: f64 = 0.01;

pub(crate) const TIGHT_STEPS: u32 = 120;

/// One is stuck where that took off less than such a part of what is left, and each one where the box of the instance was
/// tight, or behind so many boxes.
pub(crate) const STUCK_GAIN: f64 = 0.25;

pub(crate) const MANY_BOXES: u32 = 200;

/// The most sweeps there.
pub(crate) const TIGHT_SWEEPS: u32 = 2000;

/// Before a stuck box is split, steps go on with costs that favour the best plan's sites, by one of so many parts of what
/// is left, until shares change by less than so much in sum.
pub(crate) const FAVOURED: f64 = 40.0;

pub(crate) const SETTLED: f64 = 0.3;

/// The steps of a round, after how many misses they become shorter, and the most rounds.
pub(crate) const FAVOUR_STEPS: u32 = 50;

pub(crate) const FAVOUR_MISSES: u32 = 20;

pub(crate) const FAVOUR_ROUNDS: u32 = 24;

/// The parts of the box are looked into by so many steps, which begin with such a part of a whole one. That is done for so
/// many sites, in doubt at least such a part as much as the first, and each gain counts as at least such a part of what is
/// left.
pub(crate) const LOOK_STEPS: u32 = 30;

pub(crate) const LOOK_FACTOR: f64 = 0.5;

pub(crate) const LOOKED_AT: usize = 8;

pub(crate) const LOOKED_DOUBT: f64 = 0.5;

pub(crate) const LEAST_GAIN: f64 = 0.001;

//! How long smoothed steps are, and how much a new slope counts in them.

/// How smoothed steps begin.
#[derive(Clone, Copy)]
pub struct Pace {
    /// Which part of a whole step the first one is.
    pub factor: f64,
    /// The greatest weight of a new slope among the smoothed ones.
    pub weight: f64,
    /// After so many steps without a gain they become shorter.
    pub misses: u32,
}

/// For the first box, from an ascent: some 100 steps come near the best bound.
pub const AT_ROOT: Pace = Pace {
    factor: 0.2,
    weight: 0.2,
    misses: 2,
};

/// For a box that differs little from one whose duals the steps start from: some 20 steps do.
pub const IN_NODE: Pace = Pace {
    factor: 0.02,
    weight: 0.4,
    misses: 2,
};

// Steps end where they have become so small a part of a whole one.
const LEAST_FACTOR: f64 = 0.0001;

// After so many steps the weight is halved where the bound has risen by less than this part of it.
const REVIEW: u32 = 50;

const LEAST_RISE: f64 = 0.0005;

/// What steps have come to.
#[derive(Clone, Copy)]
pub(crate) struct Gait {
    pub(crate) factor: f64,
    pub(crate) weight: f64,
    misses: u32,
    missed: u32,
    taken: u32,
    mark: f64,
}

impl Gait {
    /// Before the first step.
    pub(crate) fn of(pace: Pace) -> Gait {
        Gait {
            factor: pace.factor,
            weight: pace.weight,
            misses: pace.misses,
            missed: 0,
            taken: 0,
            mark: 0.0,
        }
    }

    /// The first step starts from this bound.
    pub(crate) fn marked(self, bound: f64) -> Gait {
        let mut next = self;
        next.mark = bound;
        next
    }

    /// After one more step, where the best bound is this now: whether the step gained, and whether it
    /// went where the bound still rises.
    pub(crate) fn after(self, gained: bool, ahead: bool, bound: f64) -> Gait {
        let mut next = self;
        if gained {
            next.missed = 0;
            next.factor = lengthened(self.factor, ahead);
        } else {
            next.missed = self.missed.saturating_add(1);
            if next.missed >= self.misses {
                next = next.shortened();
            }
        }
        next.taken = self.taken.wrapping_add(1);
        next.reviewed(bound)
    }

    /// The next steps are shorter.
    pub(crate) fn shortened(self) -> Gait {
        let mut next = self;
        next.missed = 0;
        next.factor = (0.66 * self.factor).max(LEAST_FACTOR);
        next
    }

    /// Whether the steps have become too short for a gain that counts.
    pub(crate) fn is_spent(self) -> bool {
        self.factor <= LEAST_FACTOR
    }

    fn reviewed(self, bound: f64) -> Gait {
        if self.taken % REVIEW != 0 {
            return self;
        }
        let mut next = self;
        if bound - self.mark < LEAST_RISE * bound.abs() {
            next.weight *= 0.5;
        }
        next.mark = bound;
        next
    }
}

fn lengthened(factor: f64, ahead: bool) -> f64 {
    if ahead {
        (1.1 * factor).min(2.0)
    } else {
        factor
    }
}

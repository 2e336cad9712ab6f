//! How long smoothed steps are.

// Which part of a whole step the first one is, and which the last.
const FIRST: f64 = 0.4;

const LEAST: f64 = 0.001;

// After so many steps without a gain they become shorter, by this factor.
const MISSES: u32 = 5;

const SHORTER: f64 = 0.66;

/// What smoothed steps have come to.
#[derive(Clone, Copy)]
pub(crate) struct Gait {
    pub(crate) factor: f64,
    missed: u32,
}

impl Gait {
    /// Before the first step.
    pub(crate) fn new() -> Gait {
        Gait {
            factor: FIRST,
            missed: 0,
        }
    }

    /// After one more step: whether it gained, and whether it went where the bound still rises.
    pub(crate) fn after(self, gained: bool, ahead: bool) -> Gait {
        let mut next = self;
        if gained {
            next.missed = 0;
            if ahead {
                next.factor = (1.1 * self.factor).min(2.0);
            }
            return next;
        }
        next.missed = self.missed.saturating_add(1);
        if next.missed >= MISSES {
            next.missed = 0;
            next.factor = SHORTER * self.factor;
        }
        next
    }

    /// Whether the steps have become too short for a gain that counts.
    pub(crate) fn is_spent(self) -> bool {
        self.factor < LEAST
    }
}

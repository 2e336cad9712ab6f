//! Which steps the rounds of a search take, and when they end.

use crate::constants::{FIRST_PART, LATER_PART, MAX_CHANGES, STALLED_PART, WIDE_PART};

/// The course of the rounds: steps to exactly the target, or smoothed ones.
#[derive(Clone, Copy)]
pub(crate) struct Course {
    is_exact: bool,
    is_first: bool,
    failed: u32,
    slow: u32,
    changes: u32,
    is_over: bool,
}

impl Course {
    /// Before the first round.
    pub(crate) fn new() -> Course {
        Course {
            is_exact: true,
            is_first: true,
            failed: 0,
            slow: 0,
            changes: 0,
            is_over: false,
        }
    }

    /// The same where smoothed steps go on from a former search.
    pub(crate) fn resumed() -> Course {
        Course {
            is_exact: false,
            is_first: false,
            failed: 0,
            slow: 0,
            changes: 0,
            is_over: false,
        }
    }

    /// Whether the next round takes steps to exactly the target.
    pub(crate) fn is_exact(&self) -> bool {
        self.is_exact
    }

    /// Whether no more rounds are worth while.
    pub(crate) fn is_over(&self) -> bool {
        self.is_over
    }

    /// Whether so little is left that sweeps may help.
    pub(crate) fn is_near(&self, left: f64, target: f64) -> bool {
        !self.is_first && left < WIDE_PART * target
    }

    /// Sees what a round has left of what was left before it.
    pub(crate) fn advance(&mut self, before: f64, left: f64, target: f64) {
        if self.is_exact {
            self.advance_exact(before, left, target);
        } else {
            self.advance_smooth(before, left, target);
        }
        self.is_first = false;
    }

    fn advance_exact(&mut self, before: f64, left: f64, target: f64) {
        if self.is_first {
            self.is_exact = left < FIRST_PART * target;
            return;
        }
        if left < 0.5 * before {
            self.failed = 0;
            return;
        }
        self.failed = self.failed.saturating_add(1);
        if self.failed >= 2 || left > LATER_PART * target {
            self.is_exact = false;
        }
    }

    fn advance_smooth(&mut self, before: f64, left: f64, target: f64) {
        let is_wide = left > WIDE_PART * target;
        let part = if is_wide { 0.95 } else { 0.98 };
        self.slow = if left > part * before {
            self.slow.saturating_add(1)
        } else {
            0
        };
        let patience = if is_wide { 2 } else { 3 };
        self.is_over = self.slow >= patience;
        if left < STALLED_PART * target && left > 0.9 * before && self.changes < MAX_CHANGES {
            self.changes += 1;
            self.is_exact = true;
            self.failed = 1;
        }
    }
}

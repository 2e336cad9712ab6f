//! The sets of sites from which plans were sought.

use crate::constants::REMEMBERED;

// A number of the flags so far is multiplied by this odd number at each flag, modulo 2^64.
const FACTOR: u64 = 0x100000001b3;

/// The last sets from which plans were sought in a box, each as a number: two sets of one number count as
/// one.
#[derive(Clone, Copy)]
pub(crate) struct Tried {
    numbers: [u64; REMEMBERED],
    count: usize,
}

impl Tried {
    /// No set yet.
    pub(crate) fn none() -> Tried {
        Tried {
            numbers: [0; REMEMBERED],
            count: 0,
        }
    }

    /// Whether the set of the flagged sites wasn't there before. It is remembered then.
    pub(crate) fn is_new(&mut self, flags: &[bool]) -> bool {
        let number = number_of(flags);
        for k in 0..REMEMBERED {
            if self.numbers[k] == number {
                return false;
            }
        }
        self.numbers[self.count % REMEMBERED] = number;
        self.count = self.count.wrapping_add(1);
        true
    }
}

fn number_of(flags: &[bool]) -> u64 {
    let mut number = 1u64;
    for i in 0..flags.len() {
        number = number.wrapping_mul(FACTOR);
        if flags[i] {
            number = number.wrapping_add(i as u64).wrapping_add(1);
        }
    }
    number
}

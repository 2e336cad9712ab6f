//! Numbers drawn from a seed, the same on every machine.
ghost use Rattle.std.specs.Prelude.{◌≡◌, ◌%◌};
ghost use Rattle.trial_instance.specs.Draws.{next_state, draw_at};

const MULTIPLIER: u64 = 1_103_515_245;

const INCREMENT: u64 = 12_345;

const MODULUS: u64 = 1 << 31;

/// Numbers in a row, of which the next one follows from the state.
#[derive(Clone, Copy, Debug)]
pub struct Draws {
    state: u32,
}

impl Draws {
    /// The numbers that follow from a seed.
    pub fn from_seed(seed: u32) -> Draws
        ensures { result.state ≡ seed }
    {
        Draws { state: seed }
    }

    /// The remainder of the next number by 1,000.
    pub fn below_thousand(&mut self) -> u16
        ensures drawn { result ≡ draw_at self.old.state 0 % 1000 }
        ensures state { self.new.state ≡ next_state self.old.state }
    {
        let next = (MULTIPLIER * u64::from(self.state) + INCREMENT) % MODULUS;
        self.state = next as u32;
        let drawn = self.state / 65_536;
        (drawn % 1_000) as u16
    }
}

//! Duals that are read by the places of an instance.
ghost use Rattle.std.specs.Prelude.{◌≡◌, ◌<◌, length};
ghost use Rattle.location_terms.specs.Bound.{Duals as Prices, v_at, u_at};

use crate::Duals;

/// Duals that can be read by the places of an instance, whether they are stored so or are looked up
/// for each place. A bound by rows needs no more of them.
pub trait DualsByPlace {
    ghost numbers: { Self → Prices };

    /// The scale.
    fn q(&self) -> u32
        ensures { result ≡ (numbers self.now).q };

    /// The price on the number of open sites.
    fn nu(&self) -> i128
        ensures { result ≡ (numbers self.now).nu };

    /// The dual of the customer at place `j`.
    fn v(&self, j: usize) -> i128
        requires { j < length (numbers self.now).v }
        ensures { result ≡ v_at (numbers self.now) j };

    /// The price of the capacity of the site at place `i`.
    fn u(&self, i: usize) -> u64
        requires { i < length (numbers self.now).u }
        ensures { result ≡ u_at (numbers self.now) i };
}

impl DualsByPlace for Duals {
    ghost numbers = { λ d. d };

    #[inline(always)]
    fn q(&self) -> u32 {
        self.q()
    }

    #[inline(always)]
    fn nu(&self) -> i128 {
        self.nu()
    }

    #[inline(always)]
    fn v(&self, j: usize) -> i128 {
        self.values()[j]
    }

    #[inline(always)]
    fn u(&self, i: usize) -> u64 {
        self.prices()[i]
    }
}

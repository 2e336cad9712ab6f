//! Duals of a tree's leaf, as they are read by the places of an instance.
ghost use Rattle.std.specs.Prelude.{◌≡◌, ◌<◌, None, is_some, length, pos, slice_index_or, if◌then◌else◌};
ghost use Rattle.leaf_repair.specs.Placed.{at_place, placed_duals};
ghost use Rattle.dual_value.specs.Zeros.{zeros};

use dual_value::{Duals, DualsByPlace};
use instance_store::Instance;

/// Duals that are read by the places at which the instance's sites and customers stand among the ids of
/// their tree: 0 where an id is new, and no price where a site has no capacity.
#[derive(Clone, Copy)]
pub(crate) struct SeenDuals<'a> {
    pub(crate) inst: &'a Instance,
    pub(crate) duals: &'a Duals,
    pub(crate) sites: &'a [Option<usize>],
    pub(crate) custs: &'a [Option<usize>],
}

impl<'a> DualsByPlace for SeenDuals<'a> {
    ghost numbers = { λ s. placed_duals s.inst.now s.sites.now s.custs.now s.duals.now };

    #[inline(always)]
    fn q(&self) -> u32 {
        self.duals.q()
    }

    #[inline(always)]
    fn nu(&self) -> i128 {
        self.duals.nu()
    }

    #[inline(always)]
    fn v(&self, j: usize) -> i128 {
        value_at(self.duals.values(), self.custs[j])
    }

    #[inline(always)]
    fn u(&self, i: usize) -> u64 {
        price_at(
            self.duals.prices(),
            self.inst.cap(i),
            place_at(self.sites, i),
        )
    }
}

#[inline(always)]
fn place_at(places: &[Option<usize>], k: usize) -> Option<usize>
    requires { k < length places.now }
    ensures { result ≡ slice_index_or places.now k None }
{
    places[k]
}

#[inline(always)]
fn value_at(values: &[i128], place: Option<usize>) -> i128
    ensures { result ≡ at_place values.now (pos 0) place }
{
    match place {
        Some(at) => values.get(at).copied().unwrap_or(0),
        None => 0,
    }
}

// No price where the site has no capacity.
#[inline(always)]
fn price_at(prices: &[u64], cap: Option<u64>, place: Option<usize>) -> u64
    ensures { result ≡ (if is_some cap then at_place prices.now 0 place else 0) }
{
    match (cap, place) {
        (Some(_), Some(at)) => prices.get(at).copied().unwrap_or(0),
        _ => 0,
    }
}

/// Duals of 0 at scale 1.
#[derive(Clone, Copy)]
pub(crate) struct NoDuals<'a> {
    pub(crate) inst: &'a Instance,
}

impl<'a> DualsByPlace for NoDuals<'a> {
    ghost numbers = { λ s. zeros s.inst.now 1 };

    fn q(&self) -> u32 {
        1
    }

    fn nu(&self) -> i128 {
        0
    }

    fn v(&self, _j: usize) -> i128 {
        0
    }

    fn u(&self, _i: usize) -> u64 {
        0
    }
}

//! Sets of sites.
ghost use Rattle.std.specs.Prelude.{◌≡◌, ◌<◌, ◌↔◌, IsTrue};
ghost use Rattle.std.specs.Int.{bit_at};

/// A set of sites by their places: bit `i` says whether the site at place `i` is in it.
#[derive(Clone, Copy, Debug)]
pub struct SiteSet {
    pub bits: u32,
}

impl SiteSet {
    /// Whether the site at this place is in the set.
    pub fn has(self, place: usize) -> bool
        requires { place < 32 }
        ensures { IsTrue result ↔ (bit_at self.bits place ≡ 1) }
    {
        (self.bits >> place) & 1 == 1
    }
}

//! What steps know of each site.
ghost use Rattle.std.specs.Prelude.{◌≡◌, ◌<◌, length};

use dual_value::{PreparedBox, SiteState};

/// What is settled of a site, and what it costs to open it, in millionths.
#[derive(Clone, Copy)]
pub struct Site {
    pub state: SiteState,
    pub fixed: f64,
}

impl Site {
    /// Whether nothing is settled of it.
    pub(crate) fn is_free(self) -> bool {
        match self.state {
            SiteState::Free => true,
            SiteState::Opened | SiteState::Closed => false,
        }
    }
}

/// Takes what the box settles of the sites.
pub fn take_states(boxed: &PreparedBox<'_>, sites: &mut [Site])
    requires { length sites.old ≡ length boxed.now.instance.sites }
    ensures { length sites.new ≡ length sites.old }
{
    for i in 0..sites.len() {
        sites[i].state = boxed.state(i);
    }
}

/// Whether a plan with these open sites is in the box.
pub(crate) fn is_within(sites: &[Site], open: &[bool]) -> bool
    requires { length open.now ≡ length sites.now }
{
    for i in 0..sites.len() {
        if !suits(sites[i].state, open[i]) {
            return false;
        }
    }
    true
}

fn suits(state: SiteState, open: bool) -> bool {
    match state {
        SiteState::Free => true,
        SiteState::Opened => open,
        SiteState::Closed => !open,
    }
}

/// Takes these shares, by place.
pub(crate) fn take_shares(known: &[f64], shares: &mut [f64])
    ensures { length shares.new ≡ length shares.old }
{
    for i in 0..shares.len() {
        if i < known.len() {
            shares[i] = known[i];
        }
    }
}

/// Mixes so much of what is open now into the shares.
pub(crate) fn smooth_shares(open: &[bool], shares: &mut [f64], weight: f64)
    requires { length open.now ≡ length shares.old }
    ensures { length shares.new ≡ length shares.old }
{
    for i in 0..shares.len() {
        let taken = if open[i] { 1.0 } else { 0.0 };
        shares[i] += weight * (taken - shares[i]);
    }
}

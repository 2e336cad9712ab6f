//! What an edit changes in a book.
ghost use Rattle.std.specs.Prelude.{◌≡◌};
ghost use Rattle.location_terms.specs.Instance.{fixed_of, lane};
ghost use Rattle.leaf_book.specs.Changes.{change_of, change_back};

use instance_edits::Inverse;
use instance_store::{CustId, Instance, SiteId};

/// What an edit, or taking it back, changes in each leaf of a book. Amounts are in millionths.
#[derive(Clone, Copy, Debug, PartialEq, Eq)]
pub enum Change {
    /// The slack of this site, by a fixed cost that was so much, and the bound.
    Fixed {
        site: SiteId,
        former: u64,
    },
    /// The slack of this site, by a lane that cost so much, or that wasn't there, and the bound.
    Lane {
        site: SiteId,
        cust: CustId,
        former: Option<u64>,
    },
    /// The slack of this site, in any of its terms, and the bound.
    Site(SiteId),
    /// The bound alone.
    Count,
    /// Any slack, and which leaves there are.
    All,
}

impl Change {
    /// What the edit changed that is taken back by this inverse.
    pub fn of(back: &Inverse) -> Change
        ensures { result ≡ change_of back.now }
    {
        match back {
            Inverse::FormerFixed { site, cost } => Change::Fixed {
                site: *site,
                former: *cost,
            },
            Inverse::FormerLane { site, cust, cost } => Change::Lane {
                site: *site,
                cust: *cust,
                former: *cost,
            },
            Inverse::FormerCap { site, .. } => Change::Site(*site),
            Inverse::FormerCount { .. } => Change::Count,
            Inverse::FormerDemand { .. }
            | Inverse::AddedSite { .. }
            | Inverse::AddedCust { .. }
            | Inverse::DroppedSite { .. }
            | Inverse::DroppedCust { .. }
            | Inverse::FormerStatus { .. } => Change::All,
        }
    }

    /// What taking an edit back by this inverse changes. The instance is the one before that.
    pub fn of_undo(inst: &Instance, back: &Inverse) -> Change
        ensures { result ≡ change_back inst.now back.now }
    {
        match Change::of(back) {
            Change::Fixed { site, .. } => Change::Fixed {
                site,
                former: fixed_of(inst, site),
            },
            Change::Lane { site, cust, .. } => Change::Lane {
                site,
                cust,
                former: lane_of(inst, site, cust),
            },
            change => change,
        }
    }
}

// What it costs to open the site, and 0 where there is none.
fn fixed_of(inst: &Instance, site: SiteId) -> u64
    ensures { result ≡ fixed_of inst.now site }
{
    let _valid = inst.sites();
    match inst.site_at(site) {
        Some(place) => inst.fixed(place),
        None => 0,
    }
}

// What the lane costs, where there is one.
fn lane_of(inst: &Instance, site: SiteId, cust: CustId) -> Option<u64>
    ensures { result ≡ lane inst.now site cust }
{
    let _valid = inst.sites();
    match (inst.site_at(site), inst.cust_at(cust)) {
        (Some(from), Some(to)) => inst.lane(from, to),
        _ => None,
    }
}

//! Edits of an instance, and what takes them back.
ghost use Rattle.std.specs.Prelude.{◌≡◌};

use instance_store::{CustId, CustRow, LaneRow, NoMemory, SiteId, SiteRow, SiteStatus};
use thiserror::Error;

/// One change of an instance. Amounts are in millionths.
#[derive(Debug, Drop)]
pub enum Edit {
    /// The site costs so much to open.
    SetFixed {
        site: SiteId,
        cost: u64,
    },
    /// The lane from the site to the customer costs so much, or there is none.
    SetLane {
        site: SiteId,
        cust: CustId,
        cost: Option<u64>,
    },
    /// The customer demands so much. No lane's cost changes with it.
    SetDemand {
        cust: CustId,
        demand: u64,
    },
    /// The site serves at most so much demand, or any.
    SetCap {
        site: SiteId,
        cap: Option<u64>,
    },
    /// A plan opens from `lo` to `hi` sites.
    SetCount {
        lo: u32,
        hi: u32,
    },
    /// A site comes, with a lane or none to each customer, in their order. It gets the next id, goes
    /// last and is free.
    AddSite {
        cost: u64,
        cap: Option<u64>,
        lanes: LaneRow,
    },
    /// A customer comes, with a lane or none from each site, in their order. It gets the next id and
    /// goes last.
    AddCust {
        demand: u64,
        lanes: LaneRow,
    },
    /// The site goes, and its lanes with it. No edit gives its id again.
    DropSite {
        site: SiteId,
    },
    /// The customer goes, and its lanes with it. No edit gives its id again.
    DropCust {
        cust: CustId,
    },
    /// The site may be open or not, must be open, or must stay closed.
    SetStatus {
        site: SiteId,
        status: SiteStatus,
    },
}

/// Why an edit is refused: the first of these that is the case, in this order.
#[derive(Clone, Copy, Debug, PartialEq, Eq, Error)]
pub enum EditFault {
    /// The site is not in the instance.
    #[error("the site is not in the instance")]
    NoSite,
    /// The customer is not in the instance.
    #[error("the customer is not in the instance")]
    NoCustomer,
    /// The row of a new site has not an entry for each customer, or that of a new customer not one for
    /// each site.
    #[error("a row of lanes is too short or too long")]
    LaneCount,
    /// The least number of open sites is above the greatest, or that is above `MAX_SITES`.
    #[error("the number of open sites is out of bounds")]
    BadCount,
    /// The last site or the last customer would go.
    #[error("the last site or customer can't go")]
    LastOne,
    /// A limit on sites, on customers or on their product would be passed.
    #[error("the instance has no room for one more")]
    TooMany,
    /// The next id is the last number of its type.
    #[error("all ids were given")]
    IdsSpent,
    /// Memory ran out.
    #[error("out of memory")]
    NoMemory,
}

/// What takes an edit back: its kind and ids, and what it replaced.
#[derive(Debug, Drop)]
pub enum Inverse {
    /// The site cost so much to open.
    FormerFixed {
        site: SiteId,
        cost: u64,
    },
    /// The lane cost so much, or there was none.
    FormerLane {
        site: SiteId,
        cust: CustId,
        cost: Option<u64>,
    },
    /// The customer demanded so much.
    FormerDemand {
        cust: CustId,
        demand: u64,
    },
    /// The site served at most so much, or any demand.
    FormerCap {
        site: SiteId,
        cap: Option<u64>,
    },
    /// A plan opened from `lo` to `hi` sites.
    FormerCount {
        lo: u32,
        hi: u32,
    },
    /// The site came, and nothing was replaced.
    AddedSite {
        site: SiteId,
    },
    /// The customer came, and nothing was replaced.
    AddedCust {
        cust: CustId,
    },
    /// The site of this row, which stood at this place, counted from 0, went.
    DroppedSite {
        place: usize,
        row: SiteRow,
        status: SiteStatus,
    },
    /// The customer of this row, which stood at this place, counted from 0, went, with these lanes from
    /// the sites, in their order.
    DroppedCust {
        place: usize,
        row: CustRow,
        lanes: LaneRow,
    },
    /// The site had this status.
    FormerStatus {
        site: SiteId,
        status: SiteStatus,
    },
}

/// What an edit, or taking it back, touches.
#[derive(Clone, Copy, Debug, PartialEq, Eq)]
pub enum Touch {
    /// The site's fixed cost, capacity or status.
    Site(SiteId),
    /// The lane between the two.
    Lane(SiteId, CustId),
    /// The customer's demand.
    Cust(CustId),
    /// The least and the greatest number of open sites.
    Count,
    /// The edit brought this site in.
    SiteIn(SiteId),
    /// The edit took this site out.
    SiteOut(SiteId),
    /// The edit brought this customer in.
    CustIn(CustId),
    /// The edit took this customer out.
    CustOut(CustId),
}

impl From<NoMemory> for EditFault {
    fn from(_e: NoMemory) -> EditFault {
        EditFault::NoMemory
    }
}

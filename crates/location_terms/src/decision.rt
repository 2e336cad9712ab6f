use crate::{CustId, SiteId};

/// One decision of a box of plans.
#[derive(Clone, Copy, Debug, PartialEq, Eq)]
pub enum Decision {
    /// The plan opens the site.
    Opened(SiteId),
    /// The plan does not open the site.
    Closed(SiteId),
    /// The plan serves the customer from the site.
    Yes(SiteId, CustId),
    /// The plan does not serve the customer from the site.
    No(SiteId, CustId),
}

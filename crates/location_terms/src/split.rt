ghost use Rattle.std.specs.Prelude.{◌≡◌};
ghost use Rattle.location_terms.specs.Split.{first_step, second_step};

use crate::{CustId, Decision, SiteId};

/// What the box of a node is split on. The first child has the site closed or the lane unused, and the
/// second child has the site opened or the lane used: together they hold every plan of the box.
#[derive(Clone, Copy, Debug, PartialEq, Eq)]
pub enum Split {
    /// A site.
    Site(SiteId),
    /// A lane.
    Lane(SiteId, CustId),
}

impl Split {
    /// The decision of the first child.
    pub fn first_step(self) -> Decision
        ensures { result ≡ first_step self }
    {
        match self {
            Split::Site(site) => Decision::Closed(site),
            Split::Lane(site, cust) => Decision::No(site, cust),
        }
    }

    /// The decision of the second child.
    pub fn second_step(self) -> Decision
        ensures { result ≡ second_step self }
    {
        match self {
            Split::Site(site) => Decision::Opened(site),
            Split::Lane(site, cust) => Decision::Yes(site, cust),
        }
    }
}

//! What a search among sets of open sites knows of each site and of each customer.
/// What a site would bring, by its place.
#[derive(Clone, Copy)]
pub(crate) struct Prospect {
    /// Whether the box lets it be opened and closed.
    pub(crate) is_free: bool,
    pub(crate) is_open: bool,
    /// Whether its exchanges are to be looked at anew.
    pub(crate) is_changed: bool,
    /// Its fixed cost, in millionths.
    pub(crate) fixed: u64,
    /// Of an open site what its closing adds to the costs of the lanes, of another what its opening takes
    /// off them.
    pub(crate) lanes: u64,
    /// The first of the customers whose nearest open site it is.
    pub(crate) first: Option<u32>,
    /// Of an open site, the best site to open in its place, of those that reach its customers.
    pub(crate) exchange: Option<Exchange>,
    /// What was found of an exchange with one open site.
    pub(crate) extra: Extra,
}

/// The opening of another site in the place of one.
#[derive(Clone, Copy)]
pub(crate) struct Exchange {
    /// The place of the site that is opened.
    pub(crate) joins: usize,
    /// What both changes together take off beyond what each does alone, in millionths.
    pub(crate) extra: u64,
    /// The extra amount and what the opening alone saved when this was looked at, in millionths.
    pub(crate) saved: i128,
}

/// A look at the exchanges of one site: the step of the search, and the place of the site that leaves.
#[derive(Clone, Copy)]
pub(crate) struct Look {
    pub(crate) step: usize,
    pub(crate) leaves: usize,
}

/// What an exchange takes off beyond its two changes, as far as the customers of the site that leaves
/// are looked at. It counts only in this look, so that nothing has to be cleared for the next one.
#[derive(Clone, Copy)]
pub(crate) struct Extra {
    pub(crate) look: Look,
    pub(crate) amount: u64,
}

/// The two open sites that serve a customer at the least costs, in millionths.
#[derive(Clone, Copy)]
pub(crate) struct Nearest {
    pub(crate) site: Option<u32>,
    pub(crate) cost: u64,
    pub(crate) second_site: Option<u32>,
    pub(crate) second: u64,
    /// The next customer with the same nearest site.
    pub(crate) next: Option<u32>,
}

impl Prospect {
    /// A site of which nothing is known.
    pub(crate) fn closed() -> Prospect {
        Prospect {
            is_free: false,
            is_open: false,
            is_changed: true,
            fixed: 0,
            lanes: 0,
            first: None,
            exchange: None,
            extra: Extra {
                look: Look {
                    step: usize::MAX,
                    leaves: 0,
                },
                amount: 0,
            },
        }
    }

    /// Whether it can be opened.
    #[inline(always)]
    pub(crate) fn may_join(&self) -> bool {
        self.is_free && !self.is_open
    }

    /// Whether it can be closed.
    pub(crate) fn may_leave(&self) -> bool {
        self.is_free && self.is_open
    }

    /// What the opening of a site that is closed saves together with this extra amount, in millionths.
    #[inline(always)]
    pub(crate) fn opening_saves(&self, extra: u64) -> i128 {
        i128::from(self.lanes) + i128::from(extra) - i128::from(self.fixed)
    }

    /// What the closing of a site that is open saves, in millionths.
    pub(crate) fn closing_saves(&self) -> i128 {
        i128::from(self.fixed) - i128::from(self.lanes)
    }
}

impl Exchange {
    /// The best one so far or the one in which this site is opened, whichever saves more.
    #[inline(always)]
    pub(crate) fn better(
        best: Option<Exchange>,
        joins: usize,
        extra: u64,
        saved: i128,
    ) -> Option<Exchange> {
        match best {
            Some(other) if other.saved >= saved => best,
            _ => Some(Exchange {
                joins,
                extra,
                saved,
            }),
        }
    }
}

impl Extra {
    /// With so much more in this look.
    #[inline(always)]
    pub(crate) fn with(&self, look: &Look, more: u64) -> Extra {
        let is_known = self.look.step == look.step && self.look.leaves == look.leaves;
        let known = if is_known { self.amount } else { 0 };
        Extra {
            look: *look,
            amount: known.wrapping_add(more),
        }
    }
}

impl Nearest {
    /// Where no open site serves the customer: that counts for `cost`.
    pub(crate) fn none(cost: u64) -> Nearest {
        Nearest {
            site: None,
            cost,
            second_site: None,
            second: cost,
            next: None,
        }
    }

    /// Whether the site is one of the two.
    pub(crate) fn has(&self, site: usize) -> bool {
        is_at(self.site, site) || is_at(self.second_site, site)
    }

    /// With one more open site, which serves the customer at this cost.
    pub(crate) fn with(&self, site: u32, cost: u64) -> Nearest {
        if cost < self.cost {
            return Nearest {
                site: Some(site),
                cost,
                second_site: self.site,
                second: self.cost,
                next: None,
            };
        }
        Nearest {
            site: self.site,
            cost: self.cost,
            second_site: Some(site),
            second: cost,
            next: None,
        }
    }
}

fn is_at(place: Option<u32>, site: usize) -> bool {
    match place {
        None => false,
        Some(other) => other as usize == site,
    }
}

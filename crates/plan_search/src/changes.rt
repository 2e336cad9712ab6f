//! The change of a set of open sites that saves the most.
ghost use Rattle.std.specs.Prelude.{◌<◌, length};

use crate::prospects::{Exchange, Prospect};

/// A site that is opened, one that is closed, or both, by their places.
#[derive(Clone, Copy)]
pub(crate) struct Change {
    pub(crate) opens: Option<usize>,
    pub(crate) closes: Option<usize>,
    /// What it saves at least, in millionths.
    pub(crate) saves: i128,
}

/// How many sites are open, and the least and the greatest number that may be.
#[derive(Clone, Copy)]
pub(crate) struct Count {
    pub(crate) open: usize,
    pub(crate) lo: usize,
    pub(crate) hi: usize,
}

impl Count {
    fn is_within(&self) -> bool {
        self.lo <= self.open && self.open <= self.hi
    }
}

/// The change that saves the most, where one saves. While too few sites are open it is the best opening,
/// and while too many are the best closing, whatever that costs.
pub(crate) fn best_change(sites: &[Prospect], count: &Count) -> Option<Change> {
    let joining = best_joining(sites);
    let mut best = None;
    for site in 0..sites.len() {
        best = better(best, change_at(sites, count, joining, site));
    }
    match best {
        Some(change) if count.is_within() && change.saves <= 0 => None,
        _ => best,
    }
}

/// The opening or the closing that saves the most, where one saves. While too few sites are open it is the
/// best opening, and while too many are the best closing, whatever that costs.
pub(crate) fn best_single(sites: &[Prospect], count: &Count) -> Option<Change> {
    let mut best = None;
    for site in 0..sites.len() {
        best = better(best, single_at(&sites[site], count, site));
    }
    match best {
        Some(change) if count.is_within() && change.saves <= 0 => None,
        _ => best,
    }
}

fn single_at(prospect: &Prospect, count: &Count, site: usize) -> Option<Change> {
    if prospect.may_join() {
        return opening(prospect, count, site);
    }
    if prospect.may_leave() {
        return closing(prospect, count, site);
    }
    None
}

/// How many sites are open.
pub(crate) fn open_count(sites: &[Prospect]) -> usize {
    let mut count = 0usize;
    for site in 0..sites.len() {
        if sites[site].is_open {
            count = count.saturating_add(1);
        }
    }
    count
}

// The best site to open, with nothing extra.
fn best_joining(sites: &[Prospect]) -> Option<Exchange> {
    let mut best = None;
    for site in 0..sites.len() {
        if sites[site].may_join() {
            best = Exchange::better(best, site, 0, sites[site].opening_saves(0));
        }
    }
    best
}

// The best change at this site: its opening, its closing, or its exchange.
fn change_at(
    sites: &[Prospect],
    count: &Count,
    joining: Option<Exchange>,
    site: usize,
) -> Option<Change>
    requires { site < length sites.now }
{
    let prospect = &sites[site];
    if prospect.may_join() {
        return opening(prospect, count, site);
    }
    if !prospect.may_leave() {
        return None;
    }
    let closing = closing(prospect, count, site);
    if !count.is_within() {
        return closing;
    }
    let plain = exchange(sites, joining, site);
    better(
        closing,
        better(plain, exchange(sites, prospect.exchange, site)),
    )
}

fn opening(prospect: &Prospect, count: &Count, site: usize) -> Option<Change> {
    if count.open >= count.hi {
        return None;
    }
    Some(Change {
        opens: Some(site),
        closes: None,
        saves: prospect.opening_saves(0),
    })
}

fn closing(prospect: &Prospect, count: &Count, site: usize) -> Option<Change> {
    if count.open <= count.lo {
        return None;
    }
    Some(Change {
        opens: None,
        closes: Some(site),
        saves: prospect.closing_saves(),
    })
}

// What the exchange saves by now, where its other site isn't open by now.
fn exchange(sites: &[Prospect], exchange: Option<Exchange>, site: usize) -> Option<Change>
    requires { site < length sites.now }
{
    let exchange = exchange?;
    if exchange.joins >= sites.len() || !sites[exchange.joins].may_join() {
        return None;
    }
    let opening = sites[exchange.joins].opening_saves(exchange.extra);
    Some(Change {
        opens: Some(exchange.joins),
        closes: Some(site),
        saves: opening.saturating_add(sites[site].closing_saves()),
    })
}

// The one that saves more, and the first where they save the same.
fn better(best: Option<Change>, other: Option<Change>) -> Option<Change> {
    match (best, other) {
        (None, _) => other,
        (Some(_), None) => best,
        (Some(first), Some(second)) => Some(if first.saves >= second.saves {
            first
        } else {
            second
        }),
    }
}

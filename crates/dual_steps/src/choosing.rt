//! The sites that are taken at some slacks, as many as the count of open sites lets.
ghost use Rattle.std.specs.Prelude.{◌≡◌, ◌<◌, length};

use crate::paying::ENDLESS;
use crate::site::Site;
use dual_value::SiteState;
use std::num::{nearest_i64_to_f64, saturating_f64_to_i64};

/// A site, by its slack in parts of a millionth where it is free.
#[derive(Clone, Copy, PartialEq, Eq, PartialOrd, Ord)]
pub(crate) struct Pick {
    slack: i64,
    site: usize,
}

/// No site in particular.
pub(crate) const NO_PICK: Pick = Pick {
    slack: i64::MAX,
    site: 0,
};

// How many parts a millionth has, where sites are put in order.
const PARTS: f64 = 1024.0;

// The sites that are put in order are those whose slack is below that of the last one of the evaluation before and such
// a part of it, where these are enough.
const MARGIN_SHARE: f64 = 64.0;

/// How many sites are open in a box at least and at most.
#[derive(Clone, Copy)]
pub(crate) struct Count {
    pub(crate) lo: usize,
    pub(crate) hi: usize,
}

/// What the taken sites come to.
#[derive(Clone, Copy)]
pub(crate) struct Taken {
    /// The sum of their slacks, in millionths.
    pub(crate) sum: f64,
    /// The multiplier of the count: by how much more each site would have to cost.
    pub(crate) extra: f64,
}

// How many sites are opened, how many are free, and how many of these have a slack below 0.
#[derive(Clone, Copy)]
struct Census {
    opened: usize,
    free: usize,
    gainful: usize,
}

/// Marks the taken sites as open: each opened one, and of the free ones those whose slack is below 0,
/// the least first where the count has to be mended. The nearer `before` is to the multiplier of the count, the
/// sooner it is found.
pub(crate) fn choose(
    sites: &[Site],
    slacks: &[f64],
    count: Count,
    before: f64,
    open: &mut [bool],
    picks: &mut [Pick],
) -> Taken
    requires sites { length sites.now ≡ length slacks.now }
    requires open { length open.old ≡ length slacks.now }
    ensures { length open.new ≡ length open.old }
{
    let census = counted(sites, slacks);
    let wanted = wanted(census, count);
    if wanted == census.gainful {
        return Taken {
            sum: take_below(sites, slacks, 0.0, open),
            extra: 0.0,
        };
    }
    let limit = before.abs() / MARGIN_SHARE - before;
    let mut picked = fill_picks(sites, slacks, limit, picks);
    if picked < wanted {
        picked = fill_picks(sites, slacks, ENDLESS, picks);
    }
    let extra = order_picks(picks, picked, wanted);
    take_opened(sites, open);
    take_picks(picks, wanted.min(picked), open);
    Taken {
        sum: open_sum(slacks, open),
        extra,
    }
}

fn counted(sites: &[Site], slacks: &[f64]) -> Census
    requires { length sites.now ≡ length slacks.now }
{
    let mut opened = 0;
    let mut free = 0;
    let mut gainful = 0;
    for i in 0..slacks.len() {
        match sites[i].state {
            SiteState::Opened => opened = one_more(opened),
            SiteState::Closed => {}
            SiteState::Free => {
                free = one_more(free);
                if slacks[i] < 0.0 {
                    gainful = one_more(gainful);
                }
            }
        }
    }
    Census {
        opened,
        free,
        gainful,
    }
}

fn one_more(count: usize) -> usize {
    count.saturating_add(1)
}

// How many free sites are to be taken.
fn wanted(census: Census, count: Count) -> usize {
    let most = count.hi.saturating_sub(census.opened).min(census.free);
    let least = count.lo.saturating_sub(census.opened).min(most);
    census.gainful.clamp(least, most)
}

// Opens the free sites whose slack is below a limit, and the opened ones. The answer is the sum of all
// their slacks.
fn take_below(sites: &[Site], slacks: &[f64], limit: f64, open: &mut [bool]) -> f64
    requires sites { length sites.now ≡ length slacks.now }
    requires open { length open.old ≡ length slacks.now }
    ensures { length open.new ≡ length open.old }
{
    let mut sum = 0.0;
    for i in 0..slacks.len() {
        let takes = match sites[i].state {
            SiteState::Opened => true,
            SiteState::Closed => false,
            SiteState::Free => slacks[i] < limit,
        };
        open[i] = takes;
        if takes {
            sum += slacks[i];
        }
    }
    sum
}

fn take_opened(sites: &[Site], open: &mut [bool])
    requires { length sites.now ≡ length open.old }
    ensures { length open.new ≡ length open.old }
{
    for i in 0..open.len() {
        open[i] = match sites[i].state {
            SiteState::Opened => true,
            SiteState::Closed | SiteState::Free => false,
        };
    }
}

// Fills in the free sites whose slack is below a limit. The answer is how many they are.
fn fill_picks(sites: &[Site], slacks: &[f64], limit: f64, picks: &mut [Pick]) -> usize
    requires { length sites.now ≡ length slacks.now }
{
    let mut count = 0usize;
    for i in 0..slacks.len() {
        if count < picks.len() && slacks[i] < limit && sites[i].is_free() {
            picks[count] = Pick {
                slack: saturating_f64_to_i64(slacks[i] * PARTS),
                site: i,
            };
            count += 1;
        }
    }
    count
}

// Of the first picks, so many, puts the least ones first. The answer is minus the slack of the last one.
fn order_picks(picks: &mut [Pick], picked: usize, wanted: usize) -> f64 {
    let Some(picks) = picks.get_mut(..picked) else {
        return 0.0;
    };
    if wanted == 0 || wanted > picks.len() {
        return 0.0;
    }
    let (_, last, _) = picks.select_nth_unstable(wanted - 1);
    -nearest_i64_to_f64(last.slack) / PARTS
}

fn take_picks(picks: &[Pick], wanted: usize, open: &mut [bool])
    ensures { length open.new ≡ length open.old }
{
    for k in 0..wanted.min(picks.len()) {
        let site = picks[k].site;
        if site < open.len() {
            open[site] = true;
        }
    }
}

fn open_sum(slacks: &[f64], open: &[bool]) -> f64
    requires { length open.now ≡ length slacks.now }
{
    let mut sum = 0.0;
    for i in 0..slacks.len() {
        if open[i] {
            sum += slacks[i];
        }
    }
    sum
}

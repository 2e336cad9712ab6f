//! The lane on which a box without free sites is best split.
ghost use Rattle.std.specs.Prelude.{◌≡◌, ◌<◌, length};

use crate::lane::{Lane, Row};

// A customer is in doubt where no lane has a greater share than this.
const SURE: f64 = 0.95;

/// A lane, by the places of its site and its customer.
#[derive(Clone, Copy)]
pub struct LanePlace {
    pub site: usize,
    pub cust: usize,
}

/// The allowed lane of a customer that has the greatest share, and the number of its allowed lanes.
#[derive(Clone, Copy)]
pub(crate) struct Top {
    site: usize,
    share: f64,
    weight: f64,
    lanes: usize,
}

impl Top {
    /// Before any lane.
    pub(crate) fn none() -> Top {
        Top {
            site: 0,
            share: 0.0,
            weight: 0.0,
            lanes: 0,
        }
    }
}

/// Fills in the lane with the greatest share for each customer.
pub(crate) fn fill_tops(rows: &[Row], lanes: &[Lane], tops: &mut [Top])
    ensures { length tops.new ≡ length tops.old }
{
    for j in 0..tops.len() {
        tops[j] = Top::none();
    }
    for site in 0..rows.len() {
        raise_tops(site, rows[site], lanes, tops);
    }
}

fn raise_tops(site: usize, row: Row, lanes: &[Lane], tops: &mut [Top])
    ensures { length tops.new ≡ length tops.old }
{
    for k in row.start..row.end.min(lanes.len()) {
        let lane = lanes[k];
        if lane.is_allowed && lane.customer < tops.len() {
            tops[lane.customer] = raised(tops[lane.customer], site, lane);
        }
    }
}

fn raised(top: Top, site: usize, lane: Lane) -> Top {
    let mut next = top;
    next.lanes = top.lanes.saturating_add(1);
    next.weight = lane.weight;
    if top.lanes == 0 || lane.share > top.share {
        next.site = site;
        next.share = lane.share;
    }
    next
}

/// Of the customers in doubt that have two lanes the one with the greatest demand, with its lane of the greatest share.
pub(crate) fn doubtful_lane(tops: &[Top]) -> Option<LanePlace> {
    let mut best = None;
    let mut greatest = -1.0;
    for cust in 0..tops.len() {
        let top = tops[cust];
        if top.lanes >= 2 && top.share < SURE && top.weight > greatest {
            greatest = top.weight;
            best = Some(LanePlace {
                site: top.site,
                cust,
            });
        }
    }
    best
}

//! Customers whose flow is split among lanes, and what splits on these promise.
ghost use Rattle.std.specs.Prelude.{◌≡◌, length};

use crate::room_lanes::{Guest, LaneUse, RoomLane};

/// How many customers are tried.
pub(crate) const TRIALS: usize = 12;

/// A lane that is tried: the place of its customer, and its place among all.
#[derive(Clone, Copy)]
pub(crate) struct Trial {
    pub(crate) cust: usize,
    pub(crate) place: usize,
    // Of the customer.
    demand: f64,
}

/// No trial.
pub(crate) const NO_TRIAL: Trial = Trial {
    cust: usize::MAX,
    place: 0,
    demand: -1.0,
};

/// The customers of greatest demand whose flow is split, each with the lane of its greatest flow.
pub(crate) fn trials(guests: &[Guest], flows: &[f64]) -> [Trial; TRIALS] {
    let mut chosen = [NO_TRIAL; TRIALS];
    for cust in 0..guests.len() {
        let place = greatest_flow(guests[cust], flows);
        if flow_at(flows, place) < guests[cust].weight {
            let demand = guests[cust].weight;
            put_in(
                Trial {
                    cust,
                    place,
                    demand,
                },
                &mut chosen,
            );
        }
    }
    chosen
}

/// The place of the customer's lane of the greatest flow.
pub(crate) fn greatest_flow(guest: Guest, flows: &[f64]) -> usize {
    let mut greatest = -1.0;
    let mut place = guest.start;
    for k in guest.start..guest.end.min(flows.len()) {
        if flows[k] > greatest {
            greatest = flows[k];
            place = k;
        }
    }
    place
}

fn flow_at(flows: &[f64], place: usize) -> f64 {
    match flows.get(place) {
        None => 0.0,
        Some(flow) => *flow,
    }
}

// Puts the trial among those chosen, where it comes before one of them; the last of them goes.
fn put_in(trial: Trial, chosen: &mut [Trial; TRIALS]) {
    let mut next = trial;
    for k in 0..TRIALS {
        if next.demand > chosen[k].demand {
            let later = chosen[k];
            chosen[k] = next;
            next = later;
        }
    }
}

/// Leaves out the lane at the place for a trial, or, where it is to be decided for, all others of the
/// customer.
pub(crate) fn set_aside(guest: Guest, place: usize, is_decided: bool, lanes: &mut [RoomLane])
    ensures { length lanes.new ≡ length lanes.old }
{
    for k in guest.start..guest.end.min(lanes.len()) {
        if lanes[k].lane_use == LaneUse::Kept && (k == place) != is_decided {
            lanes[k].lane_use = LaneUse::SetAside;
        }
    }
}

/// Puts back the customer's lanes that were left out for a trial.
pub(crate) fn put_back(guest: Guest, lanes: &mut [RoomLane])
    ensures { length lanes.new ≡ length lanes.old }
{
    for k in guest.start..guest.end.min(lanes.len()) {
        if lanes[k].lane_use == LaneUse::SetAside {
            lanes[k].lane_use = LaneUse::Kept;
        }
    }
}

/// How much a split promises whose children gain so much of what is left. The greater gain counts three times:
/// that child is closed the sooner.
pub(crate) fn promise(one: f64, other: f64, left: f64) -> f64 {
    let gain = gain_of(one, left);
    let other_gain = gain_of(other, left);
    gain.min(other_gain) + 3.0 * gain.max(other_gain)
}

fn gain_of(gain: f64, left: f64) -> f64 {
    gain.max(0.0).min(left)
}

//! Slacks of sites, and who is served by them.
ghost use Rattle.std.specs.Prelude.{◌≡◌, ◌<◌, length};

use crate::filling::{Desk, choose_all, choose_best, fill_in_order};
use crate::lane::{Lane, Row, price_row};
use dual_steps::customer::Customer;
use dual_steps::site::Site;
use dual_value::SiteState;

/// Fills in the slacks of the sites, and chooses the best set of customers of each one that may be taken.
pub(crate) fn pack_all(
    sites: &[Site],
    rows: &[Row],
    customers: &[Customer],
    lanes: &mut [Lane],
    desk: &mut Desk,
    slacks: &mut [f64],
)
    requires sites { length sites.now ≡ length slacks.old }
    requires rows { length rows.now ≡ length slacks.old }
    ensures lanes { length lanes.new ≡ length lanes.old }
    ensures slacks { length slacks.new ≡ length slacks.old }
{
    for i in 0..slacks.len() {
        slacks[i] = match sites[i].state {
            SiteState::Closed => 0.0,
            SiteState::Opened => sites[i].fixed - gain(rows[i], customers, -1.0, lanes, desk),
            SiteState::Free => {
                sites[i].fixed - gain(rows[i], customers, sites[i].fixed, lanes, desk)
            }
        };
    }
}

// What the site's best set is worth. Where no set is worth more than `least` none is chosen.
fn gain(row: Row, customers: &[Customer], least: f64, lanes: &mut [Lane], desk: &mut Desk) -> f64
    ensures { length lanes.new ≡ length lanes.old }
{
    price_row(row, customers, lanes);
    let packed = fill_in_order(row.start, row.end, row.room, lanes);
    if packed.worth <= least {
        return packed.worth;
    }
    if packed.all_fit {
        choose_all(row.start, packed.end, lanes);
        return packed.worth;
    }
    choose_best(row.start, packed.end, row.room, packed.worth, lanes, desk)
}

/// Fills in the slopes of the customers: 1 less the number of sites that are taken and serve each.
pub(crate) fn fill_slopes(taken: &[bool], rows: &[Row], lanes: &[Lane], customers: &mut [Customer])
    requires { length rows.now ≡ length taken.now }
    ensures { length customers.new ≡ length customers.old }
{
    for j in 0..customers.len() {
        customers[j].slope = 1.0;
    }
    for i in 0..taken.len() {
        if taken[i] {
            serve(rows[i], lanes, customers);
        }
    }
}

fn serve(row: Row, lanes: &[Lane], customers: &mut [Customer])
    ensures { length customers.new ≡ length customers.old }
{
    for k in row.start..row.end.min(lanes.len()) {
        let place = lanes[k].customer;
        if lanes[k].is_chosen && place < customers.len() {
            customers[place].slope -= 1.0;
        }
    }
}

/// Mixes so much of the sites that are taken into their shares.
pub(crate) fn smooth_sites(taken: &[bool], shares: &mut [f64], weight: f64)
    requires { length shares.old ≡ length taken.now }
    ensures { length shares.new ≡ length shares.old }
{
    for i in 0..shares.len() {
        let share = if taken[i] { 1.0 } else { 0.0 };
        shares[i] += weight * (share - shares[i]);
    }
}

/// Mixes so much of the lanes that are taken into their shares.
pub(crate) fn smooth_lanes(taken: &[bool], rows: &[Row], lanes: &mut [Lane], weight: f64)
    requires { length rows.now ≡ length taken.now }
    ensures { length lanes.new ≡ length lanes.old }
{
    for i in 0..taken.len() {
        smooth_row(taken[i], rows[i], lanes, weight);
    }
}

fn smooth_row(is_taken: bool, row: Row, lanes: &mut [Lane], weight: f64)
    ensures { length lanes.new ≡ length lanes.old }
{
    for k in row.start..row.end.min(lanes.len()) {
        let served = if is_taken && lanes[k].is_chosen {
            1.0
        } else {
            0.0
        };
        lanes[k].share += weight * (served - lanes[k].share);
    }
}

/// Names for each customer, by place, the site that is taken and serves it.
pub(crate) fn name_servers(taken: &[bool], rows: &[Row], lanes: &[Lane], servers: &mut [usize])
    requires { length rows.now ≡ length taken.now }
    ensures { length servers.new ≡ length servers.old }
{
    for i in 0..taken.len() {
        if taken[i] {
            name_row(i, rows[i], lanes, servers);
        }
    }
}

fn name_row(site: usize, row: Row, lanes: &[Lane], servers: &mut [usize])
    ensures { length servers.new ≡ length servers.old }
{
    for k in row.start..row.end.min(lanes.len()) {
        let place = lanes[k].customer;
        if lanes[k].is_chosen && place < servers.len() {
            servers[place] = site;
        }
    }
}

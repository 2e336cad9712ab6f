//! The steps in boxes with free sites, and what they have come to.
ghost use Rattle.std.specs.Prelude.{◌≡◌, ◌<◌, length, IfOk};
ghost use Rattle.dual_steps.specs.Sizes.{sizes_of};
ghost use Rattle.lane_order.specs.Order.{IsOrderOf};

use crate::box_lanes::BoxLanes;
use crate::pace::{AT_ROOT, Gait, Pace};
use crate::packing::pack_all;
use crate::payments::{
    Demand, EMPTY_PURSE, NO_PAYMENT, Payment, Purse, demands_of, fill_rooms, fill_slopes, lay_out,
    pay_all,
};
use dual_steps::Progress;
use dual_steps::customer::{Customer, customer_between, keep_values};
use dual_steps::rounding::{fill_rounded, nearest_whole, take_values};
use dual_steps::site::{Site, take_states};
use dual_steps::start::sites_of;
use dual_value::PreparedBox;
use instance_store::{Instance, NoMemory};
use lane_order::LaneOrder;
use std::alloc::Global;
use std::marker::Model;
use std::num::nearest_u64_to_f64;

// No dual rises above this.
const GREATEST_VALUE: f64 = 1.0e15;

/// Duals of the customers, by floats, with the prices of capacities and of the number of open sites that
/// suit them best, and the arrays in which they take steps.
#[derive(Drop)]
pub struct CapSteps {
    pub(crate) customers: Vec<Customer>,
    pub(crate) sites: Vec<Site>,
    pub(crate) slacks: Vec<f64>,
    demands: Vec<Demand>,
    purses: Vec<Purse>,
    payments: Vec<Payment>,
    lanes: BoxLanes,
    pub(crate) progress: Progress,
    // The prices of the capacities at the best duals.
    best_prices: Vec<f64>,
    rounded: Vec<i64>,
    rounded_prices: Vec<u64>,
    rounded_extra: i64,
    // Of the smoothed steps.
    pub(crate) is_smooth: bool,
    pub(crate) gait: Gait,
}

impl Model for CapSteps {
    ghost use Rattle.dual_steps.specs.Sizes.{Sizes};

    ghost Value = { Sizes };

    ghost use Rattle.side_multipliers.specs.Arrays.{array_sizes, AreWhole};

    ghost view = { array_sizes };

    ghost invariant = { AreWhole };
}

impl CapSteps {
    /// Steps for boxes of the instance. It fails only where memory runs out.
    pub fn of(alloc: Global, inst: &Instance, order: &LaneOrder) -> Result<CapSteps, NoMemory>
        ensures { IfOk result (λ steps. steps ≡ sizes_of inst.now) }
    {
        let customers = vec![in alloc; customer_between(0.0, GREATEST_VALUE); inst.custs()]?;
        let sites = sites_of(alloc, inst)?;
        let slacks = vec![in alloc; 0.0; inst.sites()]?;
        let demands = demands_of(alloc, inst)?;
        let purses = purses_of(alloc, inst)?;
        let lanes = BoxLanes::of(alloc, order)?;
        let payments = vec![in alloc; NO_PAYMENT; lanes.room()]?;
        let progress = Progress::of(alloc, inst)?;
        let best_prices = vec![in alloc; 0.0; inst.sites()]?;
        let rounded = vec![in alloc; 0; inst.custs()]?;
        let rounded_prices = vec![in alloc; 0; inst.sites()]?;
        Ok(CapSteps {
            customers,
            sites,
            slacks,
            demands,
            purses,
            payments,
            lanes,
            progress,
            best_prices,
            rounded,
            rounded_prices,
            rounded_extra: 0,
            is_smooth: false,
            gait: Gait::of(AT_ROOT),
        })
    }

    /// Goes into a box of the instance.
    pub fn enter(&mut self, boxed: &PreparedBox<'_>, order: &LaneOrder)
        requires order { IsOrderOf order.now boxed.now.instance }
        requires sizes { self.old ≡ sizes_of boxed.now.instance }
        ensures { self.new ≡ self.old }
    {
        take_states(boxed, &mut self.sites);
        self.lanes.enter(boxed, order);
        lay_out(&self.lanes, self.customers.len(), &mut self.purses);
        fill_least(&self.lanes, &mut self.customers);
    }

    /// Takes these numbers, of which `scale` are a millionth, as the duals to step from. They are by the
    /// places of the customers.
    pub fn start_from(&mut self, values: &[i128], scale: u32)
        ensures { self.new ≡ self.old }
    {
        take_values(values, scale, &mut self.customers);
        self.evaluate();
        self.keep_best();
    }

    /// Forgets what was smoothed, and lets smoothed steps begin at this pace.
    pub fn restart(&mut self, pace: Pace)
        ensures { self.new ≡ self.old }
    {
        self.is_smooth = false;
        self.gait = Gait::of(pace);
    }

    /// What the steps have come to.
    pub fn progress(&self) -> &Progress
        ensures { result.now ≡ self.now.sites }
    {
        &self.progress
    }

    /// Rounds the best duals and their prices to whole numbers, of which `scale` are a millionth.
    pub fn round(&mut self, scale: u32)
        ensures { self.new ≡ self.old }
    {
        fill_rounded(&self.customers, scale, &mut self.rounded);
        fill_prices(&self.best_prices, scale, &mut self.rounded_prices);
        self.rounded_extra = nearest_whole(self.progress.count_price(), scale);
    }

    /// The best duals, as they were rounded last, by the places of the customers.
    pub fn values(&self) -> &[i64]
        ensures { length result.now ≡ self.now.customers }
    {
        &self.rounded
    }

    /// The prices of the capacities for each millionth of demand, as they were rounded last, by the places
    /// of the sites: 0 where there is no capacity.
    pub fn prices(&self) -> &[u64]
        ensures { length result.now ≡ self.now.sites }
    {
        &self.rounded_prices
    }

    /// The price of the number of open sites, as it was rounded last.
    pub fn count_price(&self) -> i64 {
        self.rounded_extra
    }

    // Finds prices, slacks, taken sites, slopes and the bound at the duals.
    pub(crate) fn evaluate(&mut self)
        ensures { self.new ≡ self.old }
    {
        let sum = pay_all(
            &self.lanes,
            &self.customers,
            &self.demands,
            &mut self.purses,
            &mut self.payments,
        );
        pack_all(
            &self.sites,
            &mut self.purses,
            &mut self.payments,
            &mut self.slacks,
        );
        self.progress.evaluate(sum, &self.sites, &self.slacks);
        fill_slopes(
            &self.purses,
            &self.payments,
            self.progress.taken(),
            &mut self.customers,
        );
    }

    // Takes the duals as the best.
    pub(crate) fn keep_best(&mut self)
        ensures { self.new ≡ self.old }
    {
        keep_values(&mut self.customers);
        keep_prices(&self.purses, &mut self.best_prices);
        self.progress.keep();
    }
}

fn purses_of(alloc: Global, inst: &Instance) -> Result<Vec<Purse>, NoMemory>
    ensures { IfOk result (λ purses. length purses.items ≡ length inst.now.sites) }
{
    let mut purses = vec![in alloc; EMPTY_PURSE; inst.sites()]?;
    fill_rooms(inst, &mut purses);
    Ok(purses)
}

// A dual makes sense from the cost of the customer's cheapest allowed lane on.
fn fill_least(lanes: &BoxLanes, customers: &mut [Customer])
    ensures { length customers.new ≡ length customers.old }
{
    for j in 0..customers.len() {
        if let Some(lane) = lanes.of_customer(j).first() {
            customers[j].least = nearest_u64_to_f64(lane.cost);
        }
    }
}

fn keep_prices(purses: &[Purse], prices: &mut [f64])
    requires { length purses.now ≡ length prices.old }
    ensures { length prices.new ≡ length prices.old }
{
    for i in 0..prices.len() {
        prices[i] = purses[i].price;
    }
}

fn fill_prices(prices: &[f64], scale: u32, rounded_prices: &mut [u64])
    requires { length prices.now ≡ length rounded_prices.old }
    ensures { length rounded_prices.new ≡ length rounded_prices.old }
{
    for i in 0..rounded_prices.len() {
        rounded_prices[i] = nearest_whole(prices[i], scale).unsigned_abs();
    }
}

//! The steps in a box, and what they have come to.
ghost use Rattle.std.specs.Prelude.{◌≡◌, ◌<◌, length, IfOk};
ghost use Rattle.dual_steps.specs.Sizes.{sizes_of};

use crate::filling::Desk;
use crate::gait::Gait;
use crate::lane::{Lane, Row, allow_lanes, lanes_of, rows_of};
use crate::packing::{fill_slopes, name_servers, pack_all};
use crate::splits::{LanePlace, Top, doubtful_lane, fill_tops};
use dual_steps::Progress;
use dual_steps::customer::{Customer, customer_between, keep_values};
use dual_steps::rounding::{fill_rounded, nearest_whole, take_values};
use dual_steps::site::{Site, take_states};
use dual_steps::start::sites_of;
use dual_value::PreparedBox;
use instance_store::{Instance, NoMemory};
use std::alloc::Global;
use std::marker::Model;

// No dual rises above this.
const GREATEST_VALUE: f64 = 1.0e15;

/// Duals of the customers, by floats, with whole knapsacks at the sites, and the arrays in which they take steps.
#[derive(Drop)]
pub struct WholeSteps {
    pub(crate) customers: Vec<Customer>,
    pub(crate) sites: Vec<Site>,
    pub(crate) slacks: Vec<f64>,
    pub(crate) rows: Vec<Row>,
    pub(crate) lanes: Vec<Lane>,
    desk: Desk,
    pub(crate) progress: Progress,
    // The slacks at the best duals.
    best_slacks: Vec<f64>,
    // How often each site is taken by smoothed steps, between 0 and 1.
    pub(crate) shares: Vec<f64>,
    rounded: Vec<i64>,
    // The site that serves each customer where a point served all of them once.
    servers: Vec<usize>,
    is_plan: bool,
    tops: Vec<Top>,
    pub(crate) is_smooth: bool,
    pub(crate) gait: Gait,
}

impl Model for WholeSteps {
    ghost use Rattle.dual_steps.specs.Sizes.{Sizes};

    ghost Value = { Sizes };

    ghost use Rattle.whole_steps.specs.Arrays.{array_sizes, AreWhole};

    ghost view = { array_sizes };

    ghost invariant = { AreWhole };
}

impl WholeSteps {
    /// Steps for boxes of the instance. It fails only where memory runs out.
    pub fn of(alloc: Global, inst: &Instance) -> Result<WholeSteps, NoMemory>
        ensures { IfOk result (λ steps. steps ≡ sizes_of inst.now) }
    {
        let customers = vec![in alloc; customer_between(0.0, GREATEST_VALUE); inst.custs()]?;
        let sites = sites_of(alloc, inst)?;
        let slacks = vec![in alloc; 0.0; inst.sites()]?;
        let rows = rows_of(alloc, inst)?;
        let lanes = lanes_of(alloc, inst)?;
        let desk = Desk::of(alloc, inst.custs())?;
        let progress = Progress::of(alloc, inst)?;
        let best_slacks = vec![in alloc; 0.0; inst.sites()]?;
        let shares = vec![in alloc; 0.0; inst.sites()]?;
        let rounded = vec![in alloc; 0; inst.custs()]?;
        let servers = vec![in alloc; 0; inst.custs()]?;
        let tops = vec![in alloc; Top::none(); inst.custs()]?;
        Ok(WholeSteps {
            customers,
            sites,
            slacks,
            rows,
            lanes,
            desk,
            progress,
            best_slacks,
            shares,
            rounded,
            servers,
            is_plan: false,
            tops,
            is_smooth: false,
            gait: Gait::new(),
        })
    }

    /// Goes into a box of the instance.
    pub fn enter(&mut self, boxed: &PreparedBox<'_>)
        requires { self.old ≡ sizes_of boxed.now.instance }
        ensures { self.new ≡ self.old }
    {
        take_states(boxed, &mut self.sites);
        allow_lanes(boxed, &self.rows, &mut self.lanes);
        fill_least(&self.rows, &self.lanes, &mut self.customers);
        self.is_plan = false;
        self.is_smooth = false;
        self.gait = Gait::new();
    }

    /// Takes these numbers, of which `scale` are a millionth, as the duals to step from. They are by the
    /// places of the customers.
    pub fn start_from(&mut self, values: &[i128], scale: u32)
        ensures { self.new ≡ self.old }
    {
        take_values(values, scale, &mut self.customers);
        self.evaluate();
        self.keep_best();
    }

    /// What the steps have come to.
    pub fn progress(&self) -> &Progress
        ensures { result.now ≡ self.now.sites }
    {
        &self.progress
    }

    /// The slacks of the sites at the best duals, by place, in millionths. Those of closed sites are 0.
    pub fn slacks(&self) -> &[f64]
        ensures { length result.now ≡ self.now.sites }
    {
        &self.best_slacks
    }

    /// How often each site is taken by smoothed steps, between 0 and 1, by place.
    pub fn shares(&self) -> &[f64]
        ensures { length result.now ≡ self.now.sites }
    {
        &self.shares
    }

    /// Rounds the best duals to whole numbers, of which `scale` are a millionth.
    pub fn round(&mut self, scale: u32)
        ensures { self.new ≡ self.old }
    {
        fill_rounded(&self.customers, scale, &mut self.rounded);
    }

    /// The best duals, as they were rounded last, by the places of the customers.
    pub fn values(&self) -> &[i64]
        ensures { length result.now ≡ self.now.customers }
    {
        &self.rounded
    }

    /// The price of the number of open sites, of which `scale` are a millionth.
    pub fn count_price(&self, scale: u32) -> i64 {
        nearest_whole(self.progress.count_price(), scale)
    }

    /// The place of the site that serves each customer, by place, where duals were evaluated in this box whose best
    /// sets serve each customer once: they are a plan then.
    pub fn servers(&self) -> Option<&[usize]> {
        if self.is_plan {
            Some(&self.servers)
        } else {
            None
        }
    }

    /// The lane on which to split a box without free sites, by the shares of smoothed steps.
    pub fn split(&mut self) -> Option<LanePlace>
        ensures { self.new ≡ self.old }
    {
        fill_tops(&self.rows, &self.lanes, &mut self.tops);
        doubtful_lane(&self.tops)
    }

    // Finds slacks, taken sites, slopes and the bound at the duals.
    pub(crate) fn evaluate(&mut self)
        ensures { self.new ≡ self.old }
    {
        let sum = value_sum(&self.customers);
        pack_all(
            &self.sites,
            &self.rows,
            &self.customers,
            &mut self.lanes,
            &mut self.desk,
            &mut self.slacks,
        );
        self.progress.evaluate(sum, &self.sites, &self.slacks);
        fill_slopes(
            self.progress.taken(),
            &self.rows,
            &self.lanes,
            &mut self.customers,
        );
        if are_served_once(&self.customers) {
            self.is_plan = true;
            name_servers(
                self.progress.taken(),
                &self.rows,
                &self.lanes,
                &mut self.servers,
            );
        }
    }

    // Takes the duals as the best where their bound is. Whether it is.
    pub(crate) fn keep_better(&mut self) -> bool
        ensures { self.new ≡ self.old }
    {
        if self.progress.is_better() {
            self.keep_best();
            return true;
        }
        false
    }

    // Takes the duals as the best.
    pub(crate) fn keep_best(&mut self)
        ensures { self.new ≡ self.old }
    {
        keep_values(&mut self.customers);
        self.best_slacks.copy_from_slice(&self.slacks);
        self.progress.keep();
    }
}

fn value_sum(customers: &[Customer]) -> f64 {
    let mut sum = 0.0;
    for j in 0..customers.len() {
        sum += customers[j].value;
    }
    sum
}

fn are_served_once(customers: &[Customer]) -> bool {
    for j in 0..customers.len() {
        if customers[j].slope < -0.5 || customers[j].slope > 0.5 {
            return false;
        }
    }
    true
}

// A dual makes sense from the cost of the customer's cheapest allowed lane on.
fn fill_least(rows: &[Row], lanes: &[Lane], customers: &mut [Customer])
    ensures { length customers.new ≡ length customers.old }
{
    for j in 0..customers.len() {
        customers[j].least = GREATEST_VALUE;
    }
    for i in 0..rows.len() {
        lower_least(rows[i], lanes, customers);
    }
    for j in 0..customers.len() {
        if customers[j].least >= GREATEST_VALUE {
            customers[j].least = 0.0;
        }
    }
}

fn lower_least(row: Row, lanes: &[Lane], customers: &mut [Customer])
    ensures { length customers.new ≡ length customers.old }
{
    for k in row.start..row.end.min(lanes.len()) {
        let place = lanes[k].customer;
        if lanes[k].is_allowed && place < customers.len() {
            customers[place].least = customers[place].least.min(lanes[k].cost);
        }
    }
}

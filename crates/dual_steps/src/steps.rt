//! The steps, and what they have come to.
ghost use Rattle.std.specs.Prelude.{◌≡◌, ◌<◌, length, IfOk};
ghost use Rattle.dual_steps.specs.Sizes.{sizes_of, Suits};
ghost use Rattle.lane_order.specs.Order.{IsOrderOf};

use crate::customer::{Customer, fill_smooth, keep_values, recall_values, resume_smooth};
use crate::near::NearLanes;
use crate::paying::{fill_slacks, fill_slopes};
use crate::progress::Progress;
use crate::rounding::{fill_rounded, nearest_whole, take_rounded, take_values};
use crate::site::{Site, take_states};
use crate::start::{customers_of, sites_of};
use crate::units::{unit_of_sites, unit_with_lanes};
use dual_value::PreparedBox;
use instance_store::{Instance, NoMemory};
use lane_order::LaneOrder;
use std::alloc::Global;
use std::marker::Model;
use std::num::nearest_u64_to_f64;

/// Duals of an instance without capacities, by floats, and the arrays in which they take steps.
#[derive(Drop)]
pub struct Steps<'a> {
    pub(crate) inst: &'a Instance,
    pub(crate) near: NearLanes,
    pub(crate) customers: Vec<Customer>,
    pub(crate) sites: Vec<Site>,
    pub(crate) slacks: Vec<f64>,
    pub(crate) progress: Progress,
    pub(crate) rounded: Vec<i64>,
    rounded_extra: i64,
    // The amount of which all costs are multiples; of the sites' costs alone until the lanes' are asked for.
    unit: u64,
    knows_lanes: bool,
    // Of the smoothed steps.
    pub(crate) is_smooth: bool,
    pub(crate) factor: f64,
    pub(crate) weight: f64,
    pub(crate) missed: u32,
    pub(crate) mark: f64,
    // Whether the plan that is referred to is in the box.
    pub(crate) is_plan_within: bool,
    pub(crate) plan: Vec<bool>,
}

impl<'a> Model for Steps<'a> {
    ghost use Rattle.dual_steps.specs.Sizes.{Sizes};

    ghost Value = { Sizes };

    ghost use Rattle.dual_steps.specs.Arrays.{array_sizes, AreWhole};

    ghost view = { array_sizes };

    ghost invariant = { AreWhole };
}

impl<'a> Steps<'a> {
    /// Steps in the box of the whole instance. It fails only where memory runs out.
    pub fn of(alloc: Global, inst: &'a Instance, order: &LaneOrder) -> Result<Steps<'a>, NoMemory>
        requires { IsOrderOf order.now inst.now }
        ensures { IfOk result (λ steps. steps ≡ sizes_of inst.now) }
    {
        let near = NearLanes::of(alloc, order, inst.custs())?;
        let customers = customers_of(alloc, inst, order)?;
        let sites = sites_of(alloc, inst)?;
        let slacks = vec![in alloc; 0.0; inst.sites()]?;
        let progress = Progress::of(alloc, inst)?;
        let plan = vec![in alloc; false; inst.sites()]?;
        let rounded = vec![in alloc; 0; inst.custs()]?;
        Ok(Steps {
            inst,
            near,
            customers,
            sites,
            slacks,
            progress,
            rounded,
            rounded_extra: 0,
            unit: unit_of_sites(inst),
            knows_lanes: false,
            is_smooth: false,
            factor: 0.5,
            weight: 0.0,
            missed: 0,
            mark: 0.0,
            is_plan_within: false,
            plan,
        })
    }

    /// Goes into another box of the instance.
    pub fn enter(&mut self, boxed: &PreparedBox<'_>)
        requires { self.old ≡ sizes_of boxed.now.instance }
        ensures { self.new ≡ self.old }
    {
        take_states(boxed, &mut self.sites);
    }

    /// Takes these numbers, of which `scale` are a millionth, as the duals to step from. They are by the
    /// places of the customers.
    pub fn start_from(&mut self, order: &LaneOrder, values: &[i128], scale: u32)
        requires { Suits self.old order.now }
        ensures { self.new ≡ self.old }
    {
        take_values(values, scale, &mut self.customers);
        self.weigh(order);
        self.keep_best();
    }

    /// Forgets what was smoothed, and lets smoothed steps begin with this part of a whole step.
    pub fn restart(&mut self, factor: f64)
        ensures { self.new ≡ self.old }
    {
        self.is_smooth = false;
        self.factor = factor;
    }

    /// Lets smoothed steps go on from these smoothed slopes of the customers and shares of the sites, by
    /// place, with this part of a whole step.
    pub fn resume(&mut self, slopes: &[f64], shares: &[f64], factor: f64)
        ensures { self.new ≡ self.old }
    {
        resume_smooth(slopes, &mut self.customers);
        self.progress.resume(shares);
        self.is_smooth = true;
        self.factor = factor;
    }

    /// Whether smoothed steps were taken since it was forgotten what was smoothed.
    pub fn is_smooth(&self) -> bool {
        self.is_smooth
    }

    /// Writes down the smoothed slopes, by the places of the customers.
    pub fn fill_slopes(&self, slopes: &mut [f64])
        ensures { length slopes.new ≡ length slopes.old }
    {
        fill_smooth(&self.customers, slopes);
    }

    /// Lets smoothed steps go on with this part of a whole step.
    pub fn set_factor(&mut self, factor: f64)
        ensures { self.new ≡ self.old }
    {
        self.factor = factor;
    }

    /// Whether the plan that is referred to is in the box.
    pub fn is_plan_within(&self) -> bool {
        self.is_plan_within
    }

    /// The part of a whole step that smoothed steps have come to.
    pub fn factor(&self) -> f64 {
        self.factor
    }

    /// What the steps have come to.
    pub fn progress(&self) -> &Progress
        ensures { result.now ≡ self.now.sites }
    {
        &self.progress
    }

    /// Rounds the best duals to whole numbers, of which `scale` are a millionth, and finds the price of the
    /// count that suits them.
    pub fn round(&mut self, order: &LaneOrder, scale: u32)
        requires { Suits self.old order.now }
        ensures { self.new ≡ self.old }
    {
        fill_rounded(&self.customers, scale, &mut self.rounded);
        take_rounded(&self.rounded, scale, &mut self.customers);
        self.weigh(order);
        self.rounded_extra = nearest_whole(self.progress.last_count_price(), scale);
    }

    /// The price of the count at the rounded duals.
    pub fn count_price(&self) -> i64 {
        self.rounded_extra
    }

    /// The best duals, as they were rounded last, by place.
    pub fn values(&self) -> &[i64]
        ensures { length result.now ≡ self.now.customers }
    {
        &self.rounded
    }

    // The amount of which all costs are multiples, in millionths.
    pub(crate) fn cost_unit(&mut self, order: &LaneOrder) -> f64
        ensures { self.new ≡ self.old }
    {
        if !self.knows_lanes {
            self.unit = unit_with_lanes(order, self.unit);
            self.knows_lanes = true;
        }
        nearest_u64_to_f64(self.unit)
    }

    // Finds slacks, taken sites, the bound and slopes at the duals.
    pub(crate) fn evaluate(&mut self, order: &LaneOrder)
        requires { Suits self.old order.now }
        ensures { self.new ≡ self.old }
    {
        self.weigh(order);
        fill_slopes(
            order,
            &self.near,
            self.inst,
            self.progress.taken(),
            &mut self.customers,
        );
    }

    // The same without the slopes.
    pub(crate) fn weigh(&mut self, order: &LaneOrder)
        requires { Suits self.old order.now }
        ensures { self.new ≡ self.old }
    {
        self.near.renew(order, &self.customers);
        let sum = fill_slacks(
            order,
            &self.near,
            &mut self.customers,
            &self.sites,
            &mut self.slacks,
        );
        self.progress.evaluate(sum, &self.sites, &self.slacks);
    }

    // Takes the duals as the best.
    pub(crate) fn keep_best(&mut self)
        ensures { self.new ≡ self.old }
    {
        keep_values(&mut self.customers);
        self.progress.keep();
    }

    // Takes the duals as the best where their bound is greater, and answers whether it is.
    pub(crate) fn keep_better(&mut self) -> bool
        ensures { self.new ≡ self.old }
    {
        if !self.progress.is_better() {
            return false;
        }
        self.keep_best();
        true
    }

    // Goes back to the best duals.
    pub(crate) fn recall(&mut self, order: &LaneOrder)
        requires { Suits self.old order.now }
        ensures { self.new ≡ self.old }
    {
        recall_values(&mut self.customers);
        self.evaluate(order);
        self.keep_best();
    }
}

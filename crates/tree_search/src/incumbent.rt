//! The best plan that a search knows.
ghost use Rattle.std.specs.Prelude.{◌≡◌, Some, IfSome};
ghost use Rattle.location_terms.specs.Instance.{IsValid};
ghost use Rattle.location_terms.specs.Plan.{IsFeasible, cost_of};
ghost use Rattle.plan_search.specs.InBox.{IsNoWorse};
ghost use Rattle.tree_search.specs.Answer.{cost_in};
ghost use Rattle.tree_search.specs.Best.{Improves, is_below};

use instance_store::Instance;
use plan_meaning::{Plan, cost};
use std::marker::Model;

/// The best plan that a search knows of an instance, if it knows one, and what it costs.
#[derive(Drop)]
pub(crate) struct Incumbent<'a> {
    inst: &'a Instance,
    plan: Option<Plan>,
    // In millionths. It is asked for at every leaf.
    cost: Option<u64>,
}

impl<'a> Model for Incumbent<'a> {
    ghost use Rattle.tree_search.specs.Best.{Best, best_code, IsKnown};

    ghost Value = { Best };

    ghost coded = { best_code };

    ghost view = { λ a. record { instance = a.inst.now; plan = a.plan } };

    ghost invariant = { λ a. IsKnown a.inst.now a.plan a.cost };
}

impl<'a> Incumbent<'a> {
    /// The incumbent before a search: the plan that is handed to it.
    pub(crate) fn of(inst: &'a Instance, plan: Option<Plan>) -> Incumbent<'a>
        requires { IfSome plan (IsFeasible inst.now) }
        ensures instance { result.instance ≡ inst.now }
        ensures plan { result.plan ≡ plan }
    {
        let cost = match &plan {
            None => None,
            Some(plan) => Some(plan_cost(inst, plan)),
        };
        Incumbent { inst, plan, cost }
    }

    /// The instance.
    pub(crate) fn instance(&self) -> &'a Instance
        ensures { result.now ≡ self.now.instance }
    {
        self.inst
    }

    /// What the plan costs, in millionths.
    pub(crate) fn cost(&self) -> Option<u64>
        ensures { result ≡ cost_in self.now.instance self.now.plan }
    {
        self.cost
    }

    /// The plan.
    pub(crate) fn plan(&self) -> Option<&Plan> {
        self.plan.as_ref()
    }

    /// Takes this plan over, if there is one, where it costs less.
    pub(crate) fn offer(&mut self, plan: Option<Plan>)
        requires { IfSome plan (IsFeasible self.old.instance) }
        ensures improves { Improves self.old self.new }
        ensures offered { IsNoWorse self.old.instance self.new.plan plan }
    {
        if let Some(plan) = plan {
            self.offer_plan(plan);
        }
    }

    // Takes this plan over where it costs less.
    fn offer_plan(&mut self, plan: Plan)
        requires { IsFeasible self.old.instance plan }
        ensures improves { Improves self.old self.new }
        ensures offered { IsNoWorse self.old.instance self.new.plan (Some plan) }
    {
        let cost = plan_cost(self.inst, &plan);
        if is_below(cost, self.cost) {
            self.plan = Some(plan);
            self.cost = Some(cost);
        }
    }

    /// The plan, once the search is over.
    pub(crate) fn into_plan(self) -> Option<Plan>
        ensures exact { result ≡ self.entry.plan }
        ensures feasible { IfSome result (IsFeasible self.entry.instance) }
    {
        self.plan
    }
}

// Whether the cost is below the other one, or there is no other.
fn is_below(cost: u64, other: Option<u64>) -> bool
    ensures { result ≡ is_below cost other }
{
    match other {
        None => true,
        Some(other) => cost < other,
    }
}

/// What a feasible plan costs, in millionths.
pub(crate) fn plan_cost(inst: &Instance, plan: &Plan) -> u64
    requires { IsFeasible inst.now plan.now }
    ensures { result ≡ cost_of inst.now plan.now }
{
    // An instance is valid, so that costs fit.
    let _sites = inst.sites();
    cost(inst, plan)
}

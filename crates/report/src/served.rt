//! The customers of each site, gathered in one pass over a plan.
ghost use Rattle.std.specs.Prelude.{◌≡◌, ◌++◌, ◌∷◌, [], ◌<◌, length, replicate, IfOk};
ghost use Rattle.location_terms.specs.Plan.{IsFeasible};
ghost use Rattle.report.specs.Figures.{AreGathered, with_cust};

use instance_store::{CustId, Instance, NoMemory};
use plan_meaning::Plan;
use std::alloc::Global;
use std::marker::Model;

/// The customers that one site serves, by ascending id. A clause sees the list.
#[derive(Drop)]
pub(crate) struct ServedRow {
    custs: Vec<CustId>,
}

impl Model for ServedRow {
    ghost use Rattle.std.specs.Prelude.{ℕ, List};

    ghost Value = { List ℕ };

    ghost view = { λ r. r.custs.items };
}

impl ServedRow {
    fn new(alloc: Global) -> ServedRow
        ensures { result ≡ [] }
    {
        ServedRow {
            custs: Vec::new(alloc),
        }
    }

    fn push(&mut self, cust: CustId) -> Result<(), NoMemory>
        ensures { IfOk result (λ _. self.new ≡ self.old ++ cust ∷ []) }
    {
        self.custs.push(cust)?;
        Ok(())
    }

    /// The customers' ids.
    pub(crate) fn custs(&self) -> &[CustId]
        ensures { result.now ≡ self.now }
    {
        &self.custs
    }
}

/// The customers that a feasible plan serves from each site of the instance, by the sites' places.
pub(crate) fn served_rows(
    alloc: Global,
    inst: &Instance,
    plan: &Plan,
) -> Result<Vec<ServedRow>, NoMemory>
    requires { IsFeasible inst.now plan.now }
    ensures { IfOk result (λ rows. AreGathered inst.now plan.now.serves rows.items) }
{
    let mut rows = empty_rows(alloc, inst.sites())?;
    fill_rows(&mut rows, inst, plan)?;
    Ok(rows)
}

fn empty_rows(alloc: Global, sites: usize) -> Result<Vec<ServedRow>, NoMemory>
    ensures { IfOk result (λ rows. rows.items ≡ replicate sites []) }
{
    let mut rows = Vec::with_capacity(alloc, sites)?;
    for _ in 0..sites {
        rows.push(ServedRow::new(alloc))?;
    }
    Ok(rows)
}

fn fill_rows(rows: &mut [ServedRow], inst: &Instance, plan: &Plan) -> Result<(), NoMemory>
    requires feasible { IsFeasible inst.now plan.now }
    requires none { rows.old ≡ replicate (length inst.now.sites) [] }
    ensures { IfOk result (λ _. AreGathered inst.now plan.now.serves rows.new) }
{
    let _places = inst.sites();
    for k in 0..plan.serve_count() {
        let (cust, site) = plan.serve(k);
        let i = inst.site_at(site).unwrap();
        add_cust(rows, i, cust)?;
    }
    Ok(())
}

fn add_cust(rows: &mut [ServedRow], i: usize, cust: CustId) -> Result<(), NoMemory>
    requires { i < length rows.old }
    ensures { IfOk result (λ _. rows.new ≡ with_cust rows.old i cust) }
{
    rows[i].push(cust)
}

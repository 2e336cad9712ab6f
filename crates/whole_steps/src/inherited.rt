//! What a box hands on to those that it is split into.
ghost use Rattle.std.specs.Prelude.{◌≡◌, length, IfOk};

use crate::WholeSteps;
use dual_steps::customer::Customer;
use dual_steps::site::Site;
use dual_value::SiteState;
use instance_store::NoMemory;
use std::alloc::Global;

/// The best duals of steps, by the places of the customers, in millionths, and how often each site was taken.
#[derive(Drop)]
pub struct Inherited {
    values: Vec<f64>,
    shares: Vec<f64>,
}

impl WholeSteps {
    /// What the box at work hands on. It fails only where memory runs out.
    pub fn handed_on(&self, alloc: Global) -> Result<Inherited, NoMemory> {
        let mut values = vec![in alloc; 0.0; self.customers.len()]?;
        fill_values(&self.customers, &mut values);
        let shares = Vec::from_slice(alloc, &self.shares)?;
        Ok(Inherited { values, shares })
    }

    /// Takes over what another box handed on, as the duals to step from.
    pub fn inherit(&mut self, from: &Inherited)
        ensures { self.new ≡ self.old }
    {
        take(&from.values, &mut self.customers);
        take_shares(&from.shares, &self.sites, &mut self.shares);
        self.evaluate();
        self.keep_best();
    }
}

// Takes the shares of the free sites. Those of the others are settled.
fn take_shares(known: &[f64], sites: &[Site], shares: &mut [f64])
    requires { length sites.now ≡ length shares.old }
    ensures { length shares.new ≡ length shares.old }
{
    for i in 0..shares.len() {
        shares[i] = match sites[i].state {
            SiteState::Closed => 0.0,
            SiteState::Opened => 1.0,
            SiteState::Free => known.get(i).copied().unwrap_or(0.0),
        };
    }
}

fn fill_values(customers: &[Customer], values: &mut [f64])
    ensures { length values.new ≡ length values.old }
{
    for j in 0..values.len() {
        if j < customers.len() {
            values[j] = customers[j].best;
        }
    }
}

fn take(values: &[f64], customers: &mut [Customer])
    ensures { length customers.new ≡ length customers.old }
{
    for j in 0..customers.len() {
        if j < values.len() {
            customers[j].value = values[j];
        }
    }
}

//! What a search leaves for a later one.
ghost use Rattle.std.specs.Prelude.{◌≡◌, IfOk, length};

use dual_steps::Steps;
use dual_value::Duals;
use instance_store::{CustId, Instance, NoMemory, SiteId};
use std::alloc::Global;

/// Numbers to which a search came in its first box, by ids: a later search of the instance, or of one that came from
/// it by edits, may start from them. They are in no order, and nothing of them is believed.
#[derive(Drop)]
pub struct Kept {
    /// The scale of the leaf's duals, and of the prices.
    pub scale: u32,
    /// The leaf's price of the number of open sites.
    pub count_price: i128,
    /// The scale of the duals of the steps.
    pub step_scale: u32,
    /// Whether the steps were smoothed, so that slopes and shares mean something.
    pub is_smooth: bool,
    /// Whether whole knapsacks paid.
    pub is_whole: bool,
    pub customers: Vec<KeptCustomer>,
    pub sites: Vec<KeptSite>,
}

/// What is kept of a customer: its dual at the leaf, its dual where the steps were, and by how much the bound rose
/// with that, smoothed over the steps.
#[derive(Clone, Copy)]
pub struct KeptCustomer {
    pub id: CustId,
    pub dual: i128,
    pub stepped: i128,
    pub slope: f64,
}

/// What is kept of a site: the price of its capacity, and in which share of the steps it was taken, smoothed.
#[derive(Clone, Copy)]
pub struct KeptSite {
    pub id: SiteId,
    pub price: u64,
    pub share: f64,
}

/// The numbers of the first box by places: 0 where none are known.
#[derive(Drop)]
pub(crate) struct FirstBox {
    /// Those of the leaf.
    pub(crate) duals: Duals,
    /// Those of the steps, and their scale.
    pub(crate) stepped: Vec<i128>,
    pub(crate) step_scale: u32,
    /// Their smoothed slopes and shares, if they have such.
    pub(crate) slopes: Vec<f64>,
    pub(crate) shares: Vec<f64>,
    pub(crate) is_smooth: bool,
    /// Whether whole knapsacks paid.
    pub(crate) is_whole: bool,
}

impl FirstBox {
    /// Before the first box. It fails only where memory runs out.
    pub(crate) fn unknown(alloc: Global, inst: &Instance) -> Result<FirstBox, NoMemory> {
        Ok(FirstBox {
            duals: Duals::zeros(alloc, inst, 1)?,
            stepped: vec![in alloc; 0; inst.custs()]?,
            step_scale: 1,
            slopes: vec![in alloc; 0.0; inst.custs()]?,
            shares: vec![in alloc; 0.0; inst.sites()]?,
            is_smooth: false,
            is_whole: false,
        })
    }

    /// What was kept of a former search. It fails only where memory runs out.
    pub(crate) fn of(alloc: Global, inst: &Instance, kept: &Kept) -> Result<FirstBox, NoMemory> {
        let mut values = vec![in alloc; 0; inst.custs()]?;
        let mut stepped = vec![in alloc; 0; inst.custs()]?;
        let mut slopes = vec![in alloc; 0.0; inst.custs()]?;
        let mut prices = vec![in alloc; 0; inst.sites()]?;
        let mut shares = vec![in alloc; 0.0; inst.sites()]?;
        place_duals(inst, &kept.customers, &mut values);
        place_steps(inst, &kept.customers, &mut stepped);
        place_slopes(inst, &kept.customers, &mut slopes);
        place_prices(inst, &kept.sites, &mut prices);
        place_shares(inst, &kept.sites, &mut shares);
        Ok(FirstBox {
            duals: Duals::from_lists(kept.scale, kept.count_price, values, prices),
            stepped,
            step_scale: kept.step_scale,
            slopes,
            shares,
            is_smooth: kept.is_smooth,
            is_whole: kept.is_whole,
        })
    }

    /// The duals of the leaf once more. It fails only where memory runs out.
    pub(crate) fn former_duals(&self) -> Result<Duals, NoMemory> {
        self.duals.copied()
    }

    /// Takes over the duals of the leaf.
    pub(crate) fn take_duals(&mut self, duals: &Duals) {
        if duals.customers() == self.duals.customers() && duals.sites() == self.duals.sites() {
            self.duals.copy_from(duals);
        }
    }

    /// Takes over the duals of the steps, of which `scale` are a millionth.
    pub(crate) fn take_steps(&mut self, values: &[i64], scale: u32) {
        self.step_scale = scale;
        copy_known(values, &mut self.stepped);
    }

    /// Takes over what the steps smoothed, if they did.
    pub(crate) fn take_smoothed(&mut self, steps: &Steps<'_>) {
        if !steps.is_smooth() {
            return;
        }
        self.is_smooth = true;
        steps.fill_slopes(&mut self.slopes);
        copy_shares(steps.progress().shares(), &mut self.shares);
    }

    /// Lets the duals of the steps be these where nothing is known.
    pub(crate) fn fill(&mut self, duals: &Duals) {
        fill_unknown(duals, self.step_scale, &mut self.stepped);
    }

    /// The same by the ids of the instance. It fails only where memory runs out.
    pub(crate) fn kept(&self, alloc: Global, inst: &Instance) -> Result<Kept, NoMemory> {
        let mut customers = Vec::with_capacity(alloc, inst.custs())?;
        for j in 0..inst
            .custs()
            .min(self.stepped.len())
            .min(self.duals.customers())
            .min(self.slopes.len())
        {
            customers.push(KeptCustomer {
                id: inst.cust_id(j),
                dual: self.duals.v(j),
                stepped: self.stepped[j],
                slope: self.slopes[j],
            })?;
        }
        let sites = kept_sites(alloc, inst, &self.duals, &self.shares)?;
        Ok(Kept {
            scale: self.duals.q(),
            count_price: self.duals.nu(),
            step_scale: self.step_scale,
            is_smooth: self.is_smooth,
            is_whole: self.is_whole,
            customers,
            sites,
        })
    }
}

fn kept_sites(
    alloc: Global,
    inst: &Instance,
    duals: &Duals,
    shares: &[f64],
) -> Result<Vec<KeptSite>, NoMemory> {
    let mut sites = Vec::with_capacity(alloc, inst.sites())?;
    for i in 0..inst.sites().min(duals.sites()).min(shares.len()) {
        sites.push(KeptSite {
            id: inst.site_id(i),
            price: duals.u(i),
            share: shares[i],
        })?;
    }
    Ok(sites)
}

fn place_duals(inst: &Instance, customers: &[KeptCustomer], values: &mut [i128])
    ensures { length values.new ≡ length values.old }
{
    for k in 0..customers.len() {
        if let Some(j) = inst.cust_at(customers[k].id)
            && j < values.len()
        {
            values[j] = customers[k].dual;
        }
    }
}

fn place_steps(inst: &Instance, customers: &[KeptCustomer], stepped: &mut [i128])
    ensures { length stepped.new ≡ length stepped.old }
{
    for k in 0..customers.len() {
        if let Some(j) = inst.cust_at(customers[k].id)
            && j < stepped.len()
        {
            stepped[j] = customers[k].stepped;
        }
    }
}

fn place_slopes(inst: &Instance, customers: &[KeptCustomer], slopes: &mut [f64])
    ensures { length slopes.new ≡ length slopes.old }
{
    for k in 0..customers.len() {
        if let Some(j) = inst.cust_at(customers[k].id)
            && j < slopes.len()
        {
            slopes[j] = customers[k].slope;
        }
    }
}

fn place_shares(inst: &Instance, sites: &[KeptSite], shares: &mut [f64])
    ensures { length shares.new ≡ length shares.old }
{
    for k in 0..sites.len() {
        if let Some(i) = inst.site_at(sites[k].id)
            && i < shares.len()
        {
            shares[i] = sites[k].share;
        }
    }
}

// Only capacities have prices.
fn place_prices(inst: &Instance, sites: &[KeptSite], prices: &mut [u64])
    ensures { length prices.new ≡ length prices.old }
{
    for k in 0..sites.len() {
        if let Some(i) = inst.site_at(sites[k].id)
            && i < prices.len()
            && has_cap(inst, i)
        {
            prices[i] = sites[k].price;
        }
    }
}

fn has_cap(inst: &Instance, site: usize) -> bool {
    site < inst.sites() && inst.cap(site).is_some()
}

fn copy_known(values: &[i64], stepped: &mut [i128])
    ensures { length stepped.new ≡ length stepped.old }
{
    for j in 0..stepped.len() {
        if j < values.len() {
            stepped[j] = i128::from(values[j]);
        }
    }
}

fn copy_shares(known: &[f64], shares: &mut [f64])
    ensures { length shares.new ≡ length shares.old }
{
    for i in 0..shares.len() {
        if i < known.len() {
            shares[i] = known[i];
        }
    }
}

fn fill_unknown(duals: &Duals, scale: u32, stepped: &mut [i128])
    ensures { length stepped.new ≡ length stepped.old }
{
    for j in 0..stepped.len() {
        if stepped[j] == 0 && j < duals.customers() {
            stepped[j] = rescaled(duals.v(j), duals.q(), scale);
        }
    }
}

/// The number at another scale, about.
pub(crate) fn rescaled(value: i128, from: u32, to: u32) -> i128 {
    if from == 0 {
        return 0;
    }
    (value / i128::from(from)).saturating_mul(i128::from(to))
}

//! The duals of a box, by place of the instance.
ghost use Rattle.std.specs.Prelude.{◌≡◌, ◌<◌, length, replicate, IfOk, slice_set};
ghost use Rattle.location_terms.specs.Bound.{v_at, u_at};
ghost use Rattle.location_terms.specs.declared.form.LeafForm.TheVariants.{Prices as ByPrices, Whole};
ghost use Rattle.dual_value.specs.Zeros.{zeros};

use instance_store::{Instance, NoMemory};
use location_terms::LeafForm;
use std::alloc::Global;
use std::marker::Model;

/// A scale, a price on the number of open sites, a dual for each customer and a price for each
/// site's capacity, in the order of the instance, and the form in which a leaf takes them.
#[derive(Debug, Drop)]
pub struct Duals {
    form: LeafForm,
    q: u32,
    nu: i128,
    v: Vec<i128>,
    u: Vec<u64>,
}

impl Model for Duals {
    ghost use Rattle.location_terms.specs.Bound.{Duals as Prices};

    ghost Value = { Prices };

    ghost view = { λ a. record { form = a.form; q = a.q; nu = a.nu; v = a.v.items; u = a.u.items } };
}

impl Duals {
    /// Duals that are 0 for the whole instance, at this scale and by prices. It fails only where memory runs out.
    pub fn zeros(alloc: Global, inst: &Instance, q: u32) -> Result<Duals, NoMemory>
        ensures { IfOk result (λ d. d ≡ zeros inst.now q) }
    {
        Ok(Duals {
            form: LeafForm::Prices,
            q,
            nu: 0,
            v: vec![in alloc; 0; inst.custs()]?,
            u: vec![in alloc; 0; inst.sites()]?,
        })
    }

    /// The duals of these numbers, by prices.
    pub fn from_lists(q: u32, nu: i128, v: Vec<i128>, u: Vec<u64>) -> Duals
        ensures { result ≡ record { form = ByPrices; q = q; nu = nu; v = v.items; u = u.items } }
    {
        Duals {
            form: LeafForm::Prices,
            q,
            nu,
            v,
            u,
        }
    }

    /// The duals of these numbers for whole knapsacks, which have prices of 0 alone. It fails only where
    /// memory runs out.
    pub fn whole(
        alloc: Global,
        inst: &Instance,
        q: u32,
        nu: i128,
        v: Vec<i128>,
    ) -> Result<Duals, NoMemory>
        ensures { IfOk result (λ d. d ≡ record { form = Whole; q = q; nu = nu; v = v.items; u = replicate (length inst.now.sites) 0 }) }
    {
        Ok(Duals {
            form: LeafForm::Whole,
            q,
            nu,
            v,
            u: vec![in alloc; 0; inst.sites()]?,
        })
    }

    /// A copy of these duals. It fails only where memory runs out.
    pub fn copied(&self) -> Result<Duals, NoMemory>
        ensures { IfOk result (λ d. d ≡ self.now) }
    {
        Ok(Duals {
            form: self.form,
            q: self.q,
            nu: self.nu,
            v: Vec::from_slice(*self.v.allocator(), &self.v)?,
            u: Vec::from_slice(*self.u.allocator(), &self.u)?,
        })
    }

    /// The form in which a leaf takes them.
    pub fn form(&self) -> LeafForm
        ensures { result ≡ self.now.form }
    {
        self.form
    }

    /// The scale, by which the bound is above the costs that it bounds.
    pub fn q(&self) -> u32
        ensures { result ≡ self.now.q }
    {
        self.q
    }

    /// The price on the number of open sites, of either sign.
    pub fn nu(&self) -> i128
        ensures { result ≡ self.now.nu }
    {
        self.nu
    }

    /// How many customers the duals are for.
    pub fn customers(&self) -> usize
        ensures { result ≡ length self.now.v }
    {
        self.v.len()
    }

    /// How many sites the duals are for.
    pub fn sites(&self) -> usize
        ensures { result ≡ length self.now.u }
    {
        self.u.len()
    }

    /// The dual of the customer at place `j`.
    pub fn v(&self, j: usize) -> i128
        requires { j < length self.now.v }
        ensures { result ≡ v_at self.now j }
    {
        self.v[j]
    }

    /// The price of the capacity of the site at place `i`.
    pub fn u(&self, i: usize) -> u64
        requires { i < length self.now.u }
        ensures { result ≡ u_at self.now i }
    {
        self.u[i]
    }

    /// The duals of all customers, in the order of the instance.
    pub fn values(&self) -> &[i128]
        ensures { result.now ≡ self.now.v }
    {
        self.v.as_slice()
    }

    /// The prices of the capacities of all sites, in the order of the instance.
    pub fn prices(&self) -> &[u64]
        ensures { result.now ≡ self.now.u }
    {
        self.u.as_slice()
    }

    /// Replaces the dual of the customer at place `j`.
    pub fn set_v(&mut self, j: usize, value: i128)
        requires { j < length self.old.v }
        ensures { self.new ≡ record self.old { v = slice_set self.old.v j value } }
    {
        self.v[j] = value;
    }

    /// Takes over the form and all numbers of other duals, which are for as many customers and sites.
    pub fn copy_from(&mut self, other: &Duals)
        requires customers { length other.now.v ≡ length self.old.v }
        requires sites { length other.now.u ≡ length self.old.u }
        ensures { self.new ≡ other.now }
    {
        self.form = other.form;
        self.q = other.q;
        self.nu = other.nu;
        self.v.copy_from_slice(&other.v);
        self.u.copy_from_slice(&other.u);
    }
}

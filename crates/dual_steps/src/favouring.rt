//! Costs that favour some sites, so that smoothed steps tell of one among many best choices, and what it gains there to
//! settle a site.
ghost use Rattle.std.specs.Prelude.{◌≡◌, length};
ghost use Rattle.dual_steps.specs.Sizes.{Suits};

use crate::Steps;
use crate::customer::recall_kept;
use crate::site::Site;
use crate::snapping::set_aside;
use dual_value::SiteState;
use lane_order::LaneOrder;

impl Steps<'_> {
    /// Lets these sites, by place, cost `bonus` millionths less, and the others as much more. It is a whole number. Until
    /// costs are as before, only what is smoothed makes sense.
    pub fn favour(&mut self, favoured: &[bool], bonus: f64)
        ensures { self.new ≡ self.old }
    {
        shift_costs(&mut self.sites, favoured, bonus);
    }

    /// Keeps the best duals aside: `bound_ahead` begins with them.
    pub fn set_aside(&mut self)
        ensures { self.new ≡ self.old }
    {
        set_aside(&mut self.customers);
    }

    /// The bound that so many smoothed steps come to from the duals that were set aside, in millionths, in the part of
    /// the box in which the site at this place is in this state; 0 where there is no such site. They begin with this part
    /// of a whole step, and nothing that was smoothed before.
    pub fn bound_ahead(
        &mut self,
        order: &LaneOrder,
        site: usize,
        state: SiteState,
        factor: f64,
        target: f64,
        steps: u32,
        misses: u32,
    ) -> f64
        requires { Suits self.old order.now }
        ensures { self.new ≡ self.old }
    {
        if site >= self.sites.len() {
            return 0.0;
        }
        recall_kept(&mut self.customers);
        let was = self.sites[site].state;
        self.sites[site].state = state;
        self.restart(factor);
        self.volume(order, target, steps, misses);
        self.sites[site].state = was;
        self.progress.bound()
    }
}

fn shift_costs(sites: &mut [Site], favoured: &[bool], bonus: f64)
    ensures { length sites.new ≡ length sites.old }
{
    for i in 0..sites.len() {
        if i < favoured.len() && favoured[i] {
            sites[i].fixed -= bonus;
        } else {
            sites[i].fixed += bonus;
        }
    }
}

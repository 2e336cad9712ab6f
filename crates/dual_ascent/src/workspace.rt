//! The arrays in which ascents work.
ghost use Rattle.std.specs.Prelude.{◌≡◌, IfOk};
ghost use Rattle.dual_ascent.specs.Work.{IsWorkFor};

use instance_store::{Instance, NoMemory};
use std::alloc::Global;
use std::marker::Model;

/// The arrays in which ascents work, for instances of one size. They are made once and used again.
#[derive(Drop)]
pub struct Workspace {
    // By site, what is left of its scaled fixed cost.
    pub(crate) slacks: Vec<i128>,
    // By customer, the place of the site that blocked it last, if it was blocked and by a site.
    pub(crate) blockers: Vec<Option<u32>>,
}

impl Model for Workspace {
    ghost use Rattle.dual_ascent.specs.Work.{Work};

    ghost Value = { Work };

    ghost view = { λ a. record { slacks = a.slacks.items; blockers = a.blockers.items } };
}

impl Workspace {
    /// Arrays for instances with as many sites and customers as this one. It fails only where memory
    /// runs out.
    pub fn of(alloc: Global, inst: &Instance) -> Result<Workspace, NoMemory>
        ensures { IfOk result (λ work. IsWorkFor inst.now work) }
    {
        Ok(Workspace {
            slacks: vec![in alloc; 0; inst.sites()]?,
            blockers: vec![in alloc; None; inst.custs()]?,
        })
    }

    /// The slack of each site, by place, at the duals that the last ascent here came to, in millionths
    /// times the scale.
    pub fn slacks(&self) -> &[i128]
        ensures { result.now ≡ self.now.slacks }
    {
        self.slacks.as_slice()
    }
}

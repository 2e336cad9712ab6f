//! The tree that shows of an instance where a customer has no lane that it has no plan.
ghost use Rattle.std.specs.Prelude.{◌≡◌, IfOk};
ghost use Rattle.location_terms.specs.Tree.{nodes_of};
ghost use Rattle.plan_radius.specs.Cheaper.{below_cost};
ghost use Rattle.center_solve.specs.Center.{ShowsNoPlan};
ghost use Rattle.center_solve.specs.Reach.{IsReach};

use crate::reach::Reach;
use dual_value::Duals;
use instance_store::{Instance, NoMemory};
use plan_radius::below_cost;
use std::alloc::Global;
use tree_search::Tree;

/// The tree that shows that the lanes below a cost allow no plan, where no lane to some customer costs less:
/// that customer's dual of 1 at scale 0 is the bound of its one leaf. It fails only where memory runs out.
pub(crate) fn tree_within(alloc: Global, inst: &Instance, reach: Reach) -> Result<Tree, NoMemory>
    requires { IsReach inst.now reach }
    ensures shows { IfOk result (ShowsNoPlan (below_cost inst.now reach.cost)) }
    ensures one { IfOk result (λ t. nodes_of t ≡ 1) }
{
    // An instance is valid, so that each lane is between a site and a customer of it.
    let _custs = inst.custs();
    let bare = below_cost(alloc, inst, reach.cost)?;
    let mut ray = Duals::zeros(alloc, &bare, 0)?;
    ray.set_v(reach.cust, 1);
    let tree = Tree::leaf(alloc, &bare, ray)?;
    Ok(tree)
}

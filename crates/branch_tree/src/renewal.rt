//! A tree whose leaves are gone through from the first to the last.
ghost use Rattle.std.specs.Prelude.{◌≡◌, ◌+◌, ◌^◌, ◌<◌, ◌≤◌, ◌↔◌, IfOk, IsTrue, Some, length, slice_get};
ghost use Rattle.location_terms.specs.Tree.{nodes_of};
ghost use Rattle.branch_tree.specs.Renewing.{renewing_from, stayed, given};

use crate::course::Course;
use crate::{Growth, Tree};
use dual_value::{Duals, Path};
use instance_store::NoMemory;
use location_terms::{CustId, SiteId};
use std::marker::Model;

/// A tree whose leaves are gone through from the first to the last: each one stays, or a tree that grew
/// from it takes its place. Its nodes move over one by one, and in all it takes time linear in the size
/// of the tree that comes out.
#[derive(Drop)]
pub struct Renewal {
    sites: Vec<SiteId>,
    customers: Vec<CustId>,
    course: Course,
}

impl Model for Renewal {
    ghost use Rattle.std.specs.Prelude.{count_by, reverse};
    ghost use Rattle.branch_tree.specs.Preorder.{tree_from, IsStored};
    ghost use Rattle.branch_tree.specs.Leaf.{is_end};
    ghost use Rattle.branch_tree.specs.Walk.{leaves_from};
    ghost use Rattle.branch_tree.specs.Renewing.{Renewing, renewing_code, nodes_renewed};

    ghost Value = { Renewing };

    ghost coded = { renewing_code };

    ghost view = { λ a. record {
      tree = tree_from (a.sites.items, (a.customers.items, nodes_renewed a.course.done.items a.course.leaf a.course.ahead.items));
      settled = count_by is_end a.course.done.items;
      ahead = leaves_from a.course.path a.course.leaf (reverse a.course.ahead.items);
    } };

    ghost invariant = { λ a. IsStored a.sites.items a.customers.items (nodes_renewed a.course.done.items a.course.leaf a.course.ahead.items) };
}

impl Renewal {
    /// The tree, with its first leaf at hand. It fails only where memory runs out.
    pub fn of(tree: Tree) -> Result<Renewal, NoMemory>
        ensures { IfOk result (λ r. r ≡ renewing_from tree) }
    {
        let (sites, customers, nodes) = tree.into_parts();
        let course = Course::of(nodes)?;
        Ok(Renewal {
            sites,
            customers,
            course,
        })
    }

    /// Whether every leaf was gone through.
    pub fn is_done(&self) -> bool
        ensures { IsTrue result ↔ (length self.now.ahead ≡ 0) }
    {
        self.course.leaf.is_none()
    }

    /// The leaf at hand: the path to it and its duals.
    pub fn leaf(&self) -> (&Path, &Duals)
        requires { 0 < length self.now.ahead }
        ensures { slice_get self.now.ahead 0 ≡ Some (result.0.now, result.1.now) }
    {
        match &self.course.leaf {
            Some(duals) => (&self.course.path, duals),
            None => unreachable!(),
        }
    }

    /// The leaf at hand stays, and the next one is at hand. It fails only where memory runs out.
    pub fn stay(self) -> Result<Renewal, NoMemory>
        requires { 0 < length self.ahead }
        ensures { IfOk result (λ r. r ≡ stayed self) }
    {
        let Renewal {
            sites,
            customers,
            course,
        } = self;
        let course = course.stay()?;
        Ok(Renewal {
            sites,
            customers,
            course,
        })
    }

    /// A tree that grew, and whose leaves are done, takes the place of the leaf at hand, and the next one
    /// is at hand. It fails only where memory runs out.
    pub fn give(self, grown: Growth<'_>) -> Result<Renewal, NoMemory>
        requires left { 0 < length self.ahead }
        requires done { grown.left ≡ 0 }
        requires sites { grown.tree.sites ≡ self.tree.sites }
        requires customers { grown.tree.customers ≡ self.tree.customers }
        requires few { nodes_of self.tree + nodes_of grown.tree ≤ 2 ^ 32 }
        ensures { IfOk result (λ r. r ≡ given self grown.entry.tree) }
    {
        let Renewal {
            sites,
            customers,
            course,
        } = self;
        let course = course.give(grown.into_nodes())?;
        Ok(Renewal {
            sites,
            customers,
            course,
        })
    }

    /// The tree as it stands, also where leaves are left. It fails only where memory runs out.
    pub fn finish(self) -> Result<Tree, NoMemory>
        ensures { IfOk result (λ t. t ≡ self.tree) }
    {
        let Renewal {
            sites,
            customers,
            course,
        } = self;
        let nodes = course.finish()?;
        Ok(Tree::of_nodes(sites, customers, nodes))
    }
}

//! A tree that is made node by node, for whoever reads one from a text.
ghost use Rattle.std.specs.Prelude.{[], ◌≡◌, ◌+◌, ◌^◌, ◌<◌, IfOk, OnErr, OnOk, Some, length};
ghost use Rattle.location_terms.specs.Split.{IsSplitAmong};
ghost use Rattle.location_terms.specs.Tree.{HasLists};
ghost use Rattle.branch_tree.specs.declared.entry.Entry.TheVariants.{End, Branch};
ghost use Rattle.branch_tree.specs.Begun.{begun_on, grown, built};
ghost use Rattle.branch_tree.specs.Walk.{IsWhole};

use crate::Tree;
use crate::entry::Entry;
use crate::tree::{customer_list, site_list};
use dual_value::Duals;
use instance_store::{Instance, NoMemory};
use location_terms::{CustId, SiteId, Split};
use std::alloc::Global;
use std::marker::Model;

/// The nodes of a tree so far, in preorder: a split comes before its first child, and that child's
/// tree before the second child. `pass_leaf` tells whether the tree is whole.
#[derive(Debug, Drop)]
pub struct Builder {
    sites: Vec<SiteId>,
    customers: Vec<CustId>,
    nodes: Vec<Entry>,
}

impl Model for Builder {
    ghost use Rattle.branch_tree.specs.Begun.{Begun, begun_code, AreSound};

    ghost Value = { Begun };

    ghost coded = { begun_code };

    ghost view = { λ a. record { sites = a.sites.items; customers = a.customers.items; entries = a.nodes.items } };

    ghost invariant = { λ a. AreSound a.sites.items a.customers.items a.nodes.items };
}

impl Builder {
    /// No node yet, on the ids of the instance's sites and customers. It fails only where memory runs
    /// out.
    pub fn on(alloc: Global, inst: &Instance) -> Result<Builder, NoMemory>
        ensures { IfOk result (λ b. b ≡ begun_on inst.now) }
    {
        let sites = site_list(alloc, inst)?;
        let customers = customer_list(alloc, inst)?;
        Ok(Builder {
            sites,
            customers,
            nodes: Vec::new(alloc),
        })
    }

    /// Adds a split; its first child comes next. It fails only where memory runs out, and then changes
    /// nothing.
    pub fn split(&mut self, split: Split) -> Result<(), NoMemory>
        requires split { IsSplitAmong self.old.sites self.old.customers split }
        requires few { length self.old.entries + 1 < 2 ^ 32 }
        ensures ok { OnOk result (self.new ≡ grown self.old (Branch split)) }
        ensures err { OnErr result (self.new ≡ self.old) }
    {
        self.nodes.push(Entry::Branch(split))?;
        Ok(())
    }

    /// Adds a leaf with these duals. It fails only where memory runs out, and then changes nothing.
    pub fn leaf(&mut self, duals: Duals) -> Result<(), NoMemory>
        requires lists { HasLists (length self.old.sites) (length self.old.customers) duals }
        requires few { length self.old.entries + 1 < 2 ^ 32 }
        ensures ok { OnOk result (self.new ≡ grown self.old (End duals)) }
        ensures err { OnErr result (self.new ≡ self.old) }
    {
        self.nodes.push(Entry::End(duals))?;
        Ok(())
    }

    /// How many nodes there are so far.
    pub fn nodes(&self) -> u32
        ensures { result ≡ length self.now.entries }
    {
        self.nodes.len() as u32
    }

    /// The tree, whose nodes are all there.
    pub fn finish(self) -> Tree
        requires { IsWhole (Some []) self.entries }
        ensures { result ≡ built self }
    {
        Tree::of_nodes(self.sites, self.customers, self.nodes)
    }
}

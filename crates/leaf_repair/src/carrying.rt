//! A tree for an instance that was edited.
ghost use Rattle.std.specs.Prelude.{◌≡◌, ◌⊎◌, ◌*◌, ◌+◌, ◌/◌, ◌≤◌, All, IfOk, length, nat_lt};
ghost use Rattle.location_terms.specs.Leaf.{LeafFits};
ghost use Rattle.location_terms.specs.Tree.{leaves_of, nodes_of, StandsOn};
ghost use Rattle.leaf_repair.specs.CarriedTree.{carried_tree};
ghost use Rattle.branch_tree.specs.declared.limits.TheConstants.{MAX_TREE_NUMBERS};

use crate::reducing::reduced;
use branch_tree::{MAX_TREE_NUMBERS, Tree};
use instance_store::{Instance, NoMemory};
use std::alloc::Global;

/// The tree for an instance that was edited: its duals are read by id, and a split on a site or a lane of
/// what is gone gives way to its first child. Where twice its nodes are more than a tree for so many sites
/// and customers may have, it is the root leaf of zeros. It fails only where memory runs out.
pub fn carry(alloc: Global, inst: &Instance, tree: &Tree) -> Result<Tree, NoMemory>
    ensures exact { IfOk result (λ t. t ≡ carried_tree inst.now tree.now) }
    ensures stands { IfOk result (λ t. StandsOn t inst.now) }
    ensures fit { IfOk result (λ t. All (λ l. LeafFits inst.now l.1) (leaves_of t)) }
    ensures few { IfOk result (λ t. (2 * nodes_of t * (length inst.now.sites + length inst.now.customers) ≤ MAX_TREE_NUMBERS) ⊎ (nodes_of t ≡ 1)) }
{
    let reduced = reduced(alloc, inst, tree)?;
    if is_too_large(inst, reduced.nodes()) {
        let root = Tree::root(alloc, inst)?;
        return Ok(root);
    }
    Ok(reduced)
}

// Whether twice so many nodes are more than a tree may have for so many sites and customers.
fn is_too_large(inst: &Instance, nodes: u32) -> bool
    ensures { result ≡ nat_lt (MAX_TREE_NUMBERS / (length inst.now.sites + length inst.now.customers)) (2 * nodes) }
{
    let numbers = inst.sites() as u64 + inst.custs() as u64;
    MAX_TREE_NUMBERS / numbers < 2 * u64::from(nodes)
}

//! Trees no path of which decides a thing twice.
ghost use Rattle.std.specs.Prelude.{ℕ, Option};
ghost use Rattle.location_terms.specs.Instance.{Instance};
ghost use Rattle.location_terms.specs.Bound.{Duals};
ghost use Rattle.location_terms.specs.Tree.{Tree};
ghost use Rattle.branch_tree.specs.Made.{leaf_of};
ghost use Rattle.leaf_repair.specs.CarriedTree.{carried_tree};
ghost use Rattle.tree_search.specs.Grown.{IsGrownFrom};
ghost use Rattle.certificate_lines.specs.Length.{DecidesOnce};

/// No path of a tree decides a site or a lane twice: that is so of one leaf, and it stays so where the
/// tree is carried over to any instance, and where a search grows it. So it is so of every tree that comes
/// from a leaf by searches and edits in any order.
pub fn trees_decide_once()
    ensures leaf { (I : Instance) (d : Duals) → DecidesOnce (leaf_of I d) }
    ensures carried { (I : Instance) (t : Tree) → DecidesOnce t → DecidesOnce (carried_tree I t) }
    ensures grown { (I : Instance) (target cost : Option ℕ) (old new : Tree) →
        DecidesOnce old → IsGrownFrom I target cost old new → DecidesOnce new }
{}

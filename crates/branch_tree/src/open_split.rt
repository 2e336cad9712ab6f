//! The splits above the leaf at work.
ghost use Rattle.std.specs.Prelude.{◌≡◌, ◌<◌, ◌≤◌, ◌++◌, ◌∷◌, None, [], count_by, length};
ghost use Rattle.std.specs.Vec.{vec_capacity};
ghost use Rattle.location_terms.specs.declared.decision.Decision.{Decision};
ghost use Rattle.location_terms.specs.Box.{Path as Decisions};
ghost use Rattle.location_terms.specs.Split.{first_step};
ghost use Rattle.branch_tree.specs.Leaf.{is_end};
ghost use Rattle.branch_tree.specs.OpenSplits.{entries_above, steps_above, ends_of, nodes_kept};

use crate::entry::Entry;
use dual_value::{Duals, Path};
use location_terms::Split;

// A split one of whose children the leaf at work is below.
#[derive(Debug, Drop)]
pub(crate) struct OpenSplit {
    pub(crate) split: Split,
    // The duals of the first child, a leaf, where the leaf at work is below the second.
    pub(crate) first: Option<Duals>,
}

// From a child that is done to the first child that waits, whose duals are the answer: the splits
// below it are done with their first children. The path goes there.
pub(crate) fn next_first(
    above: &mut Vec<OpenSplit>,
    path: &mut Path,
    done: &mut Vec<Entry>,
) -> Option<Duals>
    requires room { length (nodes_kept above.old.items None done.old.items) ≤ vec_capacity done.old }
    requires deep { length above.old.items ≤ length path.old }
    ensures nodes { nodes_kept above.new.items result done.new.items ≡ nodes_kept above.old.items None done.old.items }
    ensures left { count_by is_end (entries_above above.new.items ++ ends_of result) ≡ count_by is_end (entries_above above.old.items) }
    ensures path { (base : Decisions) → path.old ≡ base ++ steps_above above.old.items → path.new ≡ base ++ steps_above above.new.items }
    ensures none { result ≡ None → above.new.items ≡ [] }
    ensures room { vec_capacity done.new ≡ vec_capacity done.old }
{
    while let Some(OpenSplit { split, first }) = above.pop() {
        match first {
            Some(first) => {
                turn_to_first(path, &split);
                above.push_reserved(OpenSplit { split, first: None });
                return Some(first);
            }
            None => {
                let _ = path.pop();
                done.push_reserved(Entry::Branch(split));
            }
        }
    }
    None
}

// From a split's second child to its first.
fn turn_to_first(path: &mut Path, split: &Split)
    requires { 0 < length path.old }
    ensures { (front : Decisions) (last : Decision) → path.old ≡ front ++ last ∷ [] → path.new ≡ front ++ first_step split.now ∷ [] }
{
    path.replace_last(split.first_step());
}

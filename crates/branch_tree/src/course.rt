//! The nodes of a tree whose leaves are gone through.
ghost use Rattle.std.specs.Prelude.{◌≡◌, ◌+◌, ◌++◌, [], IfOk, IsSome, OnOk, count_by, drop, reverse};
ghost use Rattle.branch_tree.specs.Leaf.{is_end};
ghost use Rattle.branch_tree.specs.Walk.{leaves_ahead, leaves_from};
ghost use Rattle.branch_tree.specs.Renewing.{nodes_renewed};

use crate::entry::Entry;
use crate::walk::{pass, turn};
use dual_value::{Duals, Path};
use instance_store::NoMemory;

// The nodes before the leaf at hand in preorder, that leaf, and the nodes behind it.
#[derive(Drop)]
pub(crate) struct Course {
    // To the leaf at hand.
    pub(crate) path: Path,
    pub(crate) done: Vec<Entry>,
    // The duals of the leaf at hand, while one is left.
    pub(crate) leaf: Option<Duals>,
    // The last one first.
    pub(crate) ahead: Vec<Entry>,
}

impl Course {
    // With the first leaf of these nodes at hand.
    pub(crate) fn of(nodes: Vec<Entry>) -> Result<Course, NoMemory>
        ensures nodes { IfOk result (λ c. nodes_renewed c.done.items c.leaf c.ahead.items ≡ nodes.items) }
        ensures settled { IfOk result (λ c. count_by is_end c.done.items ≡ 0) }
        ensures ahead { IfOk result (λ c. leaves_from c.path c.leaf (reverse c.ahead.items) ≡ leaves_ahead [] nodes.items) }
    {
        let alloc = *nodes.allocator();
        let mut ahead = nodes;
        ahead.reverse();
        let mut path = Path::root(alloc);
        let mut done = Vec::with_capacity(alloc, ahead.len())?;
        let leaf = next_leaf(&mut path, &mut done, &mut ahead)?;
        Ok(Course {
            path,
            done,
            leaf,
            ahead,
        })
    }

    // The leaf at hand stays.
    pub(crate) fn stay(self) -> Result<Course, NoMemory>
        requires { IsSome self.leaf }
        ensures nodes { IfOk result (λ c. nodes_renewed c.done.items c.leaf c.ahead.items ≡ nodes_renewed self.done.items self.leaf self.ahead.items) }
        ensures settled { IfOk result (λ c. count_by is_end c.done.items ≡ count_by is_end self.done.items + 1) }
        ensures ahead { IfOk result (λ c. leaves_from c.path c.leaf (reverse c.ahead.items) ≡ drop 1 (leaves_from self.path self.leaf (reverse self.ahead.items))) }
    {
        let Course {
            mut path,
            mut done,
            leaf,
            mut ahead,
        } = self;
        if let Some(duals) = leaf {
            done.push(Entry::End(duals))?;
        }
        turn(&mut path)?;
        let leaf = next_leaf(&mut path, &mut done, &mut ahead)?;
        Ok(Course {
            path,
            done,
            leaf,
            ahead,
        })
    }

    // These nodes, the last one first, take the place of the leaf at hand.
    pub(crate) fn give(self, part: Vec<Entry>) -> Result<Course, NoMemory>
        requires { IsSome self.leaf }
        ensures nodes { IfOk result (λ c. nodes_renewed c.done.items c.leaf c.ahead.items ≡ self.done.items ++ (reverse part.items ++ reverse self.ahead.items)) }
        ensures settled { IfOk result (λ c. count_by is_end c.done.items ≡ count_by is_end self.done.items + count_by is_end (reverse part.items)) }
        ensures ahead { IfOk result (λ c. leaves_from c.path c.leaf (reverse c.ahead.items) ≡ drop 1 (leaves_from self.path self.leaf (reverse self.ahead.items))) }
    {
        let Course {
            mut path,
            mut done,
            leaf: _,
            mut ahead,
        } = self;
        move_over(&mut done, part)?;
        turn(&mut path)?;
        let leaf = next_leaf(&mut path, &mut done, &mut ahead)?;
        Ok(Course {
            path,
            done,
            leaf,
            ahead,
        })
    }

    // All the nodes.
    pub(crate) fn finish(self) -> Result<Vec<Entry>, NoMemory>
        ensures { IfOk result (λ v. v.items ≡ nodes_renewed self.done.items self.leaf self.ahead.items) }
    {
        let Course {
            path: _,
            done,
            leaf,
            ahead,
        } = self;
        let mut nodes = done;
        if let Some(duals) = leaf {
            nodes.push(Entry::End(duals))?;
        }
        move_over(&mut nodes, ahead)?;
        Ok(nodes)
    }
}

// Moves nodes over to these, the last one first.
fn move_over(done: &mut Vec<Entry>, nodes: Vec<Entry>) -> Result<(), NoMemory>
    ensures { OnOk result (done.new.items ≡ done.old.items ++ reverse nodes.items) }
{
    let mut nodes = nodes;
    while let Some(entry) = nodes.pop() {
        done.push(entry)?;
    }
    Ok(())
}

// Moves the splits up to the next leaf over, and takes that leaf off: its duals, if one is left. The path,
// which is to the first node ahead, goes there.
fn next_leaf(
    path: &mut Path,
    done: &mut Vec<Entry>,
    ahead: &mut Vec<Entry>,
) -> Result<Option<Duals>, NoMemory>
    ensures nodes { IfOk result (λ leaf. nodes_renewed done.new.items leaf ahead.new.items ≡ done.old.items ++ reverse ahead.old.items) }
    ensures settled { OnOk result (count_by is_end done.new.items ≡ count_by is_end done.old.items) }
    ensures ahead { IfOk result (λ leaf. leaves_from path.new leaf (reverse ahead.new.items) ≡ leaves_ahead path.old (reverse ahead.old.items)) }
{
    while let Some(entry) = ahead.pop() {
        match entry {
            Entry::End(duals) => return Ok(Some(duals)),
            branch => {
                pass(path, &branch)?;
                done.push(branch)?;
            }
        }
    }
    Ok(None)
}

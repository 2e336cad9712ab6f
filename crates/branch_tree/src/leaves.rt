//! The leaves by their order.
ghost use Rattle.std.specs.Prelude.{◌≡◌, ◌+◌, ◌^◌, ◌<◌, [], IfOk, OnErr, OnOk, Some, count_by, fold, length, slice_get, slice_index_or, take, true};
ghost use Rattle.std.specs.List.{splice};
ghost use Rattle.branch_tree.specs.declared.entry.Entry.{Entry as Stored};
ghost use Rattle.branch_tree.specs.Leaf.{is_end};
ghost use Rattle.branch_tree.specs.Above.{chosen, done_before, step_below};
ghost use Rattle.branch_tree.specs.Walk.{passed};

use crate::entry::Entry;
use crate::walk::pass;
use dual_value::Path;
use instance_store::NoMemory;
use location_terms::Decision;
use std::alloc::Global;

// The place of leaf `k` in the list.
pub(crate) fn leaf_place(nodes: &[Entry], k: usize) -> usize
    requires { k < count_by is_end nodes.now }
    ensures within { result < length nodes.now }
    ensures leaf { (e : Stored) → is_end (slice_index_or nodes.now result e) ≡ true }
    ensures before { count_by is_end (take result nodes.now) ≡ k }
{
    let mut left = k;
    for (place, entry) in nodes.iter().enumerate() {
        if is_end(entry) {
            if left == 0 {
                return place;
            }
            left -= 1;
        }
    }
    unreachable!()
}

// The path to the node that follows these.
pub(crate) fn path_after(alloc: Global, nodes: &[Entry]) -> Result<Path, NoMemory>
    ensures { IfOk result (λ path. path ≡ fold passed [] nodes.now) }
{
    let mut path = Path::root(alloc);
    for entry in nodes {
        pass(&mut path, entry)?;
    }
    Ok(path)
}

// How many steps the path to the node that follows these has.
pub(crate) fn depth_after(nodes: &[Entry]) -> usize
    ensures { result ≡ length (fold passed [] nodes.now) }
{
    let mut depth = 0;
    let mut done = 0;
    let mut place = nodes.len();
    while place > 0 {
        place -= 1;
        let entry = &nodes[place];
        let step = step_below(entry, done);
        done = done_before(entry, done);
        if step.is_some() {
            depth += 1;
        }
    }
    depth
}

// A step, counted from the root, of the path to the node that follows these.
pub(crate) fn step_after(nodes: &[Entry], at: usize) -> Decision
    requires { at < length (fold passed [] nodes.now) }
    ensures { slice_get (fold passed [] nodes.now) at ≡ Some result }
{
    let mut depth = depth_after(nodes);
    let mut done = 0;
    let mut place = nodes.len();
    while place > 0 {
        place -= 1;
        let entry = &nodes[place];
        let step = step_below(entry, done);
        done = done_before(entry, done);
        if let Some(step) = step {
            depth -= 1;
            if depth == at {
                return step;
            }
        }
    }
    unreachable!()
}

// Puts a list in the place of one entry.
pub(crate) fn replace_at(
    nodes: &mut Vec<Entry>,
    place: usize,
    part: Vec<Entry>,
) -> Result<(), NoMemory>
    requires { place < length nodes.old.items }
    ensures ok { OnOk result (nodes.new.items ≡ splice nodes.old.items place (place + 1) part.items) }
    ensures err { OnErr result (nodes.new.items ≡ nodes.old.items) }
{
    let _ = nodes.splice(place..place + 1, part)?;
    Ok(())
}

fn is_end(entry: &Entry) -> bool
    ensures { result ≡ is_end entry.now }
{
    match entry {
        Entry::End(_) => true,
        Entry::Branch(_) => false,
    }
}

// The step from an entry down to a node, with so many trees done between them.
fn step_below(entry: &Entry, done: usize) -> Option<Decision>
    ensures { result ≡ step_below entry.now done }
{
    match entry {
        Entry::End(_) => None,
        Entry::Branch(split) => chosen(split.first_step(), split.second_step(), done),
    }
}

fn chosen(first: Decision, second: Decision, done: usize) -> Option<Decision>
    ensures { result ≡ chosen first second done }
{
    match done {
        0 => Some(first),
        1 => Some(second),
        _ => None,
    }
}

fn done_before(entry: &Entry, done: usize) -> usize
    requires { done + 1 < 2 ^ 64 }
    ensures { result ≡ done_before entry.now done }
{
    match entry {
        Entry::End(_) => done + 1,
        Entry::Branch(_) => done.saturating_sub(1),
    }
}

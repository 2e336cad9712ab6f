//! The rows of a book, of which each leaf of the carried tree has one.
ghost use Rattle.std.specs.Prelude.{◌≡◌, ℕ, ◌≤◌, ◌<◌, [], ◌∷◌, All, IfOk, OnOk, IsSome, Some, length, map, slice_index_or, take};
ghost use Rattle.location_terms.specs.Bound.{Duals as Prices};
ghost use Rattle.location_terms.specs.Tree.{leaves_of};
ghost use Rattle.dual_value.specs.Zeros.{zeros};
ghost use Rattle.branch_tree.specs.Made.{duals_at};
ghost use Rattle.leaf_book.specs.BookDue.{AreDue, AreRowsDue, IsLeafDue};
ghost use Rattle.leaf_book.specs.Course.{IsBookCourse};
ghost use Rattle.leaf_book.specs.Due.{IsDue};
ghost use Rattle.leaf_book.specs.Kept.{carried_sums, kept_leaves, due_sums, root_sums};

use crate::Change;
use crate::kept::{are_too_many, count_kept, keeps};
use crate::places::{LeafPlace, duals_there};
use crate::row::Row;
use crate::seen::{NoDuals, SeenDuals};
use branch_tree::Tree;
use instance_store::{Instance, NoMemory};
use std::alloc::Global;

// So many rows, each with room for so many sites.
pub(crate) fn fresh_rows(alloc: Global, leaves: usize, sites: usize) -> Result<Vec<Row>, NoMemory>
    ensures count { IfOk result (λ rows. length rows.items ≡ leaves) }
    ensures room { IfOk result (λ rows. All (λ row. sites ≤ row.room) rows.items) }
{
    let mut rows = Vec::with_capacity(alloc, leaves)?;
    for _leaf in 0..leaves {
        rows.push(Row::with_room(alloc, sites)?)?;
    }
    Ok(rows)
}

// Makes room for so many sites in each row. The sums stay.
pub(crate) fn widen_rows(rows: &mut [Row], sites: usize) -> Result<(), NoMemory>
    ensures same { map (λ row. row.sums) rows.new ≡ map (λ row. row.sums) rows.old }
    ensures grown { (n : ℕ) → All (λ row. n ≤ row.room) rows.old → All (λ row. n ≤ row.room) rows.new }
    ensures room { OnOk result (All (λ row. sites ≤ row.room) rows.new) }
{
    for k in 0..rows.len() {
        rows[k].widen(sites)?;
    }
    Ok(())
}

// What the rows follow: an instance, the tree, and where the tree's leaves and the instance's sites and
// customers stand.
#[derive(Clone, Copy)]
pub(crate) struct Course<'a> {
    pub(crate) inst: &'a Instance,
    pub(crate) tree: &'a Tree,
    pub(crate) places: &'a [LeafPlace],
    pub(crate) sites: &'a [Option<usize>],
    pub(crate) custs: &'a [Option<usize>],
    pub(crate) change: Change,
    // The least and the greatest number of open sites from before.
    pub(crate) count: (u32, u32),
}

// The rows follow a change of the instance. The answer is how many of them are in use.
pub(crate) fn follow_rows(course: &Course<'_>, rows: &mut [Row]) -> usize
    requires course { IsBookCourse course.now }
    requires due { AreRowsDue course.now.change course.now.count.0 course.now.count.1 course.now.inst.now course.now.tree.now rows.old }
    ensures used { result ≤ length rows.new }
    ensures sums { map (λ row. row.sums) (take result rows.new) ≡ due_sums course.now.inst.now course.now.tree.now }
    ensures room { map (λ row. row.room) rows.new ≡ map (λ row. row.room) rows.old }
{
    let kept = count_kept(course.inst, course.places);
    if are_too_many(course.inst, kept) {
        follow_root(course, &mut rows[0]);
        return 1;
    }
    follow_leaves(course, rows)
}

// The row follows as that of the root leaf of zeros.
fn follow_root(course: &Course<'_>, row: &mut Row)
    requires course { IsBookCourse course.now }
    requires due { IsDue course.now.change course.now.count.0 course.now.count.1 course.now.inst.now [] (zeros course.now.inst.now 1) row.old }
    ensures sums { row.new.sums ≡ root_sums course.now.inst.now }
    ensures room { row.new.room ≡ row.old.room }
{
    let duals = NoDuals { inst: course.inst };
    row.follow(course.inst, &[], &duals, course.change, course.count);
}

// Each leaf that the carried tree has follows in the next row.
fn follow_leaves(course: &Course<'_>, rows: &mut [Row]) -> usize
    requires course { IsBookCourse course.now }
    requires due { AreDue course.now.change course.now.count.0 course.now.count.1 course.now.inst.now course.now.tree.now (kept_leaves course.now.inst.now (leaves_of course.now.tree.now)) rows.old }
    ensures used { result ≤ length rows.new }
    ensures sums { map (λ row. row.sums) (take result rows.new) ≡ map (carried_sums course.now.inst.now course.now.tree.now) (kept_leaves course.now.inst.now (leaves_of course.now.tree.now)) }
    ensures room { map (λ row. row.room) rows.new ≡ map (λ row. row.room) rows.old }
{
    let mut used = 0;
    for k in 0..course.places.len() {
        let place = &course.places[k];
        if keeps(course.inst, &place.path) {
            follow_leaf(course, place, &mut rows[used]);
            used += 1;
        }
    }
    used
}

fn follow_leaf(course: &Course<'_>, place: &LeafPlace, row: &mut Row)
    requires course { IsBookCourse course.now }
    requires leaf { IsSome (duals_at course.now.tree.now.root place.now.node) }
    requires due { (d : Prices) → duals_at course.now.tree.now.root place.now.node ≡ Some d → IsLeafDue course.now.change course.now.count.0 course.now.count.1 course.now.inst.now course.now.tree.now (place.now.path, d) row.old }
    ensures sums { (d : Prices) → duals_at course.now.tree.now.root place.now.node ≡ Some d → row.new.sums ≡ carried_sums course.now.inst.now course.now.tree.now (place.now.path, d) }
    ensures room { row.new.room ≡ row.old.room }
{
    let duals = SeenDuals {
        inst: course.inst,
        duals: duals_there(course.tree, place),
        sites: course.sites,
        custs: course.custs,
    };
    row.follow(
        course.inst,
        &place.path,
        &duals,
        course.change,
        course.count,
    );
}

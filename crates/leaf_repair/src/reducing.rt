//! The walk over a tree that leaves out what speaks of sites and customers that are gone.
ghost use Rattle.std.specs.Prelude.{◌≡◌, All, ◌+◌, ◌<◌, ◌^◌, ◌&&◌, ◌++◌, ◌∷◌, [], IfOk, OnOk, true, length, if◌then◌else◌};
ghost use Rattle.location_terms.specs.Instance.{site_ids, customer_ids};
ghost use Rattle.location_terms.specs.Leaf.{LeafFits};
ghost use Rattle.location_terms.specs.Tree.{leaves_of, nodes_of, HasLists};
ghost use Rattle.branch_tree.specs.declared.entry.Entry.TheVariants.{End, Branch};
ghost use Rattle.branch_tree.specs.Begun.{grown};
ghost use Rattle.leaf_repair.specs.CarriedTree.{carried_duals, knows_split, reduced_tree};
ghost use Rattle.leaf_repair.specs.UnderWay.{IsSource, IsCourse, IsUnderWay};

use crate::numbers::placed_duals;
use crate::places::Places;
use branch_tree::{Builder, Duals, NodeKind, Split, Tree};
use instance_store::{Instance, NoMemory};
use leaf_bounds::has_small_knapsacks;
use std::alloc::Global;

// A tree, and what is known of the instance for which it is carried over.
#[derive(Drop)]
struct Source<'a> {
    inst: &'a Instance,
    tree: &'a Tree,
    places: Places,
    // Whether whole knapsacks are small in the instance.
    is_small: bool,
}

// The nodes that went over, and whether each tree that is still to come is wanted, the next one last.
#[derive(Drop)]
struct Course {
    over: Builder,
    wanted: Vec<bool>,
}

// The tree without what speaks of what is gone, whatever its size.
pub(crate) fn reduced(alloc: Global, inst: &Instance, tree: &Tree) -> Result<Tree, NoMemory>
    ensures exact { IfOk result (λ t. t ≡ reduced_tree inst.now tree.now) }
    ensures fit { IfOk result (λ t. All (λ l. LeafFits inst.now l.1) (leaves_of t)) }
{
    let places = Places::of(alloc, inst, tree.site_ids(), tree.cust_ids())?;
    let source = Source {
        inst,
        tree,
        places,
        is_small: has_small_knapsacks(inst),
    };
    let over = Builder::on(alloc, inst)?;
    let wanted = vec![in alloc; true; 1]?;
    let mut course = Course { over, wanted };
    let nodes = tree.nodes();
    for at in 0..nodes {
        pass(alloc, &source, at, &mut course)?;
    }
    let carried = course.over.finish();
    Ok(carried)
}

// The next node goes over, where its tree is wanted.
fn pass(alloc: Global, source: &Source<'_>, at: u32, course: &mut Course) -> Result<(), NoMemory>
    requires source { IsSource source.now.inst.now source.now.tree.now source.now.places.sites.items source.now.places.customers.items source.now.is_small }
    requires at { at < nodes_of source.now.tree.now }
    requires course { IsCourse source.now.inst.now source.now.tree.now at course.old.over course.old.wanted.items }
    ensures { OnOk result (IsCourse source.now.inst.now source.now.tree.now (at + 1) course.new.over course.new.wanted.items) }
{
    let is_wanted = course.wanted.pop().unwrap_or(false);
    match source.tree.node(at) {
        NodeKind::Split(split) => {
            branch(source.inst, split, is_wanted, course)?;
            Ok(())
        }
        NodeKind::Leaf => match source.tree.duals(at) {
            Some(duals) => {
                end(alloc, source, duals, is_wanted, &mut course.over)?;
                Ok(())
            }
            None => unreachable!(),
        },
    }
}

// The leaf goes over, where it is wanted.
fn end(
    alloc: Global,
    source: &Source<'_>,
    duals: &Duals,
    is_wanted: bool,
    over: &mut Builder,
) -> Result<(), NoMemory>
    requires source { IsSource source.now.inst.now source.now.tree.now source.now.places.sites.items source.now.places.customers.items source.now.is_small }
    requires lists { HasLists (length source.now.tree.now.sites) (length source.now.tree.now.customers) duals.now }
    requires sites { over.old.sites ≡ site_ids source.now.inst.now }
    requires customers { over.old.customers ≡ customer_ids source.now.inst.now }
    requires few { is_wanted ≡ true → length over.old.entries + 1 < 2 ^ 32 }
    ensures { OnOk result (over.new ≡ (if is_wanted then grown over.old (End (carried_duals source.now.inst.now source.now.tree.now.sites source.now.tree.now.customers duals.now)) else over.old)) }
{
    if !is_wanted {
        return Ok(());
    }
    let placed = placed_duals(alloc, source.inst, source.is_small, &source.places, duals)?;
    over.leaf(placed)?;
    Ok(())
}

// The split goes over where its tree is wanted and the instance has what it names, and then its second child
// is wanted too.
fn branch(
    inst: &Instance,
    split: Split,
    is_wanted: bool,
    course: &mut Course,
) -> Result<(), NoMemory>
    requires sites { course.old.over.sites ≡ site_ids inst.now }
    requires customers { course.old.over.customers ≡ customer_ids inst.now }
    requires few { is_wanted ≡ true → length course.old.over.entries + 1 < 2 ^ 32 }
    ensures over { OnOk result (course.new.over ≡ (if is_wanted && knows_split inst.now split then grown course.old.over (Branch split) else course.old.over)) }
    ensures wanted { OnOk result (course.new.wanted.items ≡ (course.old.wanted.items ++ (is_wanted && knows_split inst.now split) ∷ []) ++ is_wanted ∷ []) }
{
    let is_kept = keeps(inst, &split, is_wanted);
    if is_kept {
        course.over.split(split)?;
    }
    course.wanted.push(is_kept)?;
    course.wanted.push(is_wanted)?;
    Ok(())
}

fn keeps(inst: &Instance, split: &Split, is_wanted: bool) -> bool
    ensures { result ≡ (is_wanted && knows_split inst.now split.now) }
{
    is_wanted && knows_split(inst, split)
}

// Whether the instance has the site, and the customer, that the split names.
fn knows_split(inst: &Instance, split: &Split) -> bool
    ensures { result ≡ knows_split inst.now split.now }
{
    match split {
        Split::Site(site) => inst.site_at(*site).is_some(),
        Split::Lane(site, cust) => inst.site_at(*site).is_some() && inst.cust_at(*cust).is_some(),
    }
}

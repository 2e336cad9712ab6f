//! Books of slacks, which follow edits and their being taken back.
ghost use Rattle.std.specs.Prelude.{◌≡◌, ◌≤◌, IfOk, OnOk};
ghost use Rattle.location_terms.specs.Instance.{site_ids, customer_ids};
ghost use Rattle.location_terms.specs.Tree.{nodes_of};
ghost use Rattle.location_terms.specs.declared.limits.TheConstants.{MAX_AMOUNT};
ghost use Rattle.instance_store.specs.Small.{IsSmall};
ghost use Rattle.instance_edits.specs.Edits.{HasAmounts};
ghost use Rattle.instance_edits.specs.Undo.{LeadsBack};
ghost use Rattle.leaf_book.specs.Book.{IsBookOf};

use crate::given::{cust_of, duals, site_of};
use branch_tree::Split;
use example_instances::{customer, site, two_sites};
use instance_edits::{EditFault, apply, undo};
use instance_store::{CustId, LaneRow, SiteId, SiteStatus};
use leaf_book::{Change, Edit, Instance, Inverse, LeafBook, NoMemory, Tree};
use std::alloc::Global;
use std::test::Fail;

// A tree of one leaf for three customers with this dual each, at a price of 1 unit for each site.
fn leaf(alloc: Global, inst: &Instance, value: i128) -> Result<Tree, Fail>
    ensures sites { IfOk result (λ t. t.sites ≡ site_ids inst.now) }
    ensures customers { IfOk result (λ t. t.customers ≡ customer_ids inst.now) }
    ensures nodes { IfOk result (λ t. nodes_of t ≡ 1) }
{
    let duals = duals(alloc, inst, 1_000_000, &[value; 3], &[0; 2])?;
    let tree = Tree::leaf(alloc, inst, duals)?;
    Ok(tree)
}

// The second site is closed, or opened and then the first site's lane to the last customer unused or used.
fn three_leaves(alloc: Global, inst: &Instance) -> Result<Tree, Fail> {
    let (first, second, last) = (site_of(inst, 1)?, site_of(inst, 2)?, cust_of(inst, 3)?);
    let unused = leaf(alloc, inst, 1_000_000)?;
    let used = leaf(alloc, inst, 10_000_000)?;
    let opened = Tree::fork(Split::Lane(first, last), unused, used)?;
    let closed = leaf(alloc, inst, 0)?;
    let tree = Tree::fork(Split::Site(second), closed, opened)?;
    Ok(tree)
}

// Whether the leaf has these slacks and this bound, in thousands.
fn has(book: &LeafBook, leaf: usize, slacks: &[i128], bound: i128) -> bool {
    if leaf >= book.leaves() || book.sites(leaf) != slacks.len() {
        return false;
    }
    for site in 0..slacks.len() {
        if book.slack(leaf, site) / 1_000 != slacks[site] {
            return false;
        }
    }
    book.bound(leaf) / 1_000 == bound
}

// Edits the instance, and the book follows.
fn follow(
    alloc: Global,
    inst: &mut Instance,
    tree: &Tree,
    book: &mut LeafBook,
    edit: &Edit,
) -> Result<Inverse, EditFault>
    requires amounts { HasAmounts edit.now }
    requires book { IsBookOf book.old inst.old tree.now }
    ensures book { OnOk result (IsBookOf book.new inst.new tree.now) }
    ensures leads { IfOk result (LeadsBack inst.new) }
{
    let _valid = inst.sites();
    book.make_room(tree, inst, edit)?;
    let back = apply(alloc, inst, edit)?;
    book.edited(tree, inst, &back);
    Ok(back)
}

// Takes the edit back, and the book follows.
fn take_back(
    inst: &mut Instance,
    tree: &Tree,
    book: &mut LeafBook,
    back: Inverse,
) -> Result<(), EditFault>
    requires leads { LeadsBack inst.old back }
    requires book { IsBookOf book.old inst.old tree.now }
    ensures book { OnOk result (IsBookOf book.new inst.new tree.now) }
{
    book.make_room_back(tree, inst, &back)?;
    let change = Change::of_undo(inst, &back);
    match undo(inst, back) {
        Ok(()) => {
            book.undone(tree, inst, change);
            Ok(())
        }
        Err(_) => Err(EditFault::NoMemory),
    }
}

// Whether the leaf has these sums behind the edit, which is then taken back.
fn shows(
    alloc: Global,
    inst: &mut Instance,
    tree: &Tree,
    book: &mut LeafBook,
    edit: Edit,
    leaf: usize,
    slacks: &[i128],
    bound: i128,
) -> Result<bool, EditFault>
    requires amounts { HasAmounts edit }
    requires book { IsBookOf book.old inst.old tree.now }
    ensures { OnOk result (IsBookOf book.new inst.new tree.now) }
{
    let back = follow(alloc, inst, tree, book, &edit)?;
    let shown = has(book, leaf, slacks, bound);
    take_back(inst, tree, book, back)?;
    Ok(shown)
}

fn set_fixed(cost: u64) -> Edit
    requires { cost ≤ MAX_AMOUNT }
    ensures { HasAmounts result }
{
    Edit::SetFixed {
        site: SiteId::new(2),
        cost,
    }
}

fn set_lane(cost: Option<u64>) -> Edit
    requires { IsSmall cost }
    ensures { HasAmounts result }
{
    Edit::SetLane {
        site: SiteId::new(1),
        cust: CustId::new(2),
        cost,
    }
}

fn set_cap(cap: Option<u64>) -> Edit
    requires { IsSmall cap }
    ensures { HasAmounts result }
{
    Edit::SetCap {
        site: SiteId::new(1),
        cap,
    }
}

fn close_second() -> Edit
    ensures { HasAmounts result }
{
    Edit::SetStatus {
        site: SiteId::new(2),
        status: SiteStatus::MustClose,
    }
}

fn drop_second() -> Edit
    ensures { HasAmounts result }
{
    Edit::DropSite {
        site: SiteId::new(2),
    }
}

fn drop_third() -> Edit
    ensures { HasAmounts result }
{
    Edit::DropCust {
        cust: CustId::new(3),
    }
}

// Whether one leaf with the duals 8, 5 and 9 follows a fixed cost and a customer that goes, and back.
fn one_leaf_follows(
    alloc: Global,
    inst: &mut Instance,
    tree: &Tree,
    book: &mut LeafBook,
) -> Result<bool, EditFault>
    requires { IsBookOf book.old inst.old tree.now }
{
    let first = has(book, 0, &[0, 4_000], 22_000);
    let cheaper = set_fixed(3_000_000);
    let edited = shows(alloc, inst, tree, book, cheaper, 0, &[0, -5_000], 17_000)?;
    let again = has(book, 0, &[0, 4_000], 22_000);
    let _back = follow(alloc, inst, tree, book, &set_fixed(3_000_000))?;
    let fewer = drop_third();
    let dropped = shows(alloc, inst, tree, book, fewer, 0, &[0, 3_000], 13_000)?;
    Ok(first && edited && again && dropped && has(book, 0, &[0, -5_000], 17_000))
}

// Whether the book is that of the three leaves at first.
fn is_whole(book: &LeafBook) -> bool {
    book.leaves() == 3
        && has(book, 0, &[11_000, 13_000], -2_000)
        && has(book, 1, &[11_000, 13_000], 14_000)
        && has(book, 2, &[-7_000, 8_000], 29_000)
}

// Whether three leaves follow the numbers of sites, a lane that gets cheaper or goes, a status that tears two
// paths and a site that goes, and each of them back.
fn three_leaves_follow(
    alloc: Global,
    inst: &mut Instance,
    tree: &Tree,
    book: &mut LeafBook,
) -> Result<bool, EditFault>
    requires { IsBookOf book.old inst.old tree.now }
{
    let whole = is_whole(book);
    let count = Edit::SetCount { lo: 1, hi: 1 };
    let counted = shows(alloc, inst, tree, book, count, 2, &[-7_000, 8_000], 30_000)?;
    let lane = set_lane(Some(500_000));
    let cheaper = shows(alloc, inst, tree, book, lane, 2, &[-8_500, 8_000], 27_500)?;
    let none = set_lane(None);
    let cut_off = shows(alloc, inst, tree, book, none, 2, &[1_000, 8_000], 37_000)?;
    let closed = close_second();
    let torn = shows(
        alloc,
        inst,
        tree,
        book,
        closed,
        2,
        &[11_000, 13_000],
        39_000,
    )?;
    let cut = shows(alloc, inst, tree, book, drop_second(), 0, &[11_000], -2_000)?;
    let gone = !shows(alloc, inst, tree, book, drop_second(), 1, &[11_000], -2_000)?;
    Ok(whole && counted && cheaper && cut_off && torn && cut && gone && is_whole(book))
}

// Whether a leaf with a price of 2 for the capacity follows that, and a capacity that goes.
fn cap_follows(
    alloc: Global,
    inst: &mut Instance,
    tree: &Tree,
    book: &mut LeafBook,
) -> Result<bool, EditFault>
    requires { IsBookOf book.old inst.old tree.now }
{
    let first = has(book, 0, &[7_480_000], 0);
    let less = shows(
        alloc,
        inst,
        tree,
        book,
        set_cap(Some(8_000_000)),
        0,
        &[7_484_000],
        0,
    )?;
    let none = shows(alloc, inst, tree, book, set_cap(None), 0, &[7_500_000], 0)?;
    Ok(first && less && none && has(book, 0, &[7_480_000], 0))
}

#[derive(Clone, Copy)]
enum Case {
    OneLeaf,
    ThreeLeaves,
    Capacity,
}

// Whether the book of the tree follows edits.
fn follows(alloc: Global, inst: &mut Instance, tree: &Tree, case: Case) -> Result<bool, EditFault> {
    match LeafBook::of(alloc, tree, inst)? {
        Some(mut book) => match case {
            Case::OneLeaf => one_leaf_follows(alloc, inst, tree, &mut book),
            Case::ThreeLeaves => three_leaves_follow(alloc, inst, tree, &mut book),
            Case::Capacity => cap_follows(alloc, inst, tree, &mut book),
        },
        None => Ok(false),
    }
}

// Whether the book says that its one leaf closes against 22 units and no more.
fn holds(alloc: Global, inst: &Instance, tree: &Tree) -> Result<bool, NoMemory> {
    match LeafBook::of(alloc, tree, inst)? {
        Some(book) => {
            Ok(
                first_holds(alloc, inst, tree, &book, 22_000_000)?
                    && !first_holds(alloc, inst, tree, &book, 22_000_001)?,
            )
        }
        None => Ok(false),
    }
}

fn first_holds(
    alloc: Global,
    inst: &Instance,
    tree: &Tree,
    book: &LeafBook,
    target: u64,
) -> Result<bool, NoMemory>
    requires { IsBookOf book.now inst.now tree.now }
{
    let held = book.held(alloc, tree, inst, Some(target))?;
    Ok(held.len() == 1 && held[0])
}

fn one_leaf(alloc: Global, inst: &mut Instance) -> Result<bool, Fail> {
    let duals = duals(alloc, inst, 0, &[8_000_000, 5_000_000, 9_000_000], &[0; 2])?;
    let tree = Tree::leaf(alloc, inst, duals)?;
    Ok(holds(alloc, inst, &tree)? && follows(alloc, inst, &tree, Case::OneLeaf)?)
}

#[test]
fn follows_one_leaf(rt: HostRuntime) -> Result<(), Fail> {
    let mut inst = two_sites(rt.alloc(), 0, 2)?;
    assert!(rt; one_leaf(rt.alloc(), &mut inst)?);
    Ok(())
}

fn on_three_leaves(alloc: Global, inst: &mut Instance) -> Result<bool, Fail> {
    let tree = three_leaves(alloc, inst)?;
    Ok(follows(alloc, inst, &tree, Case::ThreeLeaves)?)
}

#[test]
fn follows_three_leaves(rt: HostRuntime) -> Result<(), Fail> {
    let mut inst = two_sites(rt.alloc(), 0, 2)?;
    assert!(rt; on_three_leaves(rt.alloc(), &mut inst)?);
    Ok(())
}

// One site of 10 units of capacity that costs 7,500 units, and a customer without a lane.
fn one_site(alloc: Global) -> Result<Instance, NoMemory> {
    let lanes = LaneRow::from_slice(alloc, &[None])?;
    let sites = vec![in alloc; site(1, 7_500_000_000, Some(10_000_000), lanes)]?;
    let custs = vec![in alloc; customer(1, 0)]?;
    Instance::from_parts(alloc, 0, 1, 2, 2, custs, sites)
}

fn on_capacity(alloc: Global, inst: &mut Instance) -> Result<bool, Fail> {
    let duals = duals(alloc, inst, 0, &[0], &[2])?;
    let tree = Tree::leaf(alloc, inst, duals)?;
    Ok(follows(alloc, inst, &tree, Case::Capacity)?)
}

#[test]
fn follows_a_capacity(rt: HostRuntime) -> Result<(), Fail> {
    let mut inst = one_site(rt.alloc())?;
    assert!(rt; on_capacity(rt.alloc(), &mut inst)?);
    Ok(())
}

//! Trees, made whole, node by node and as they grow, and walks over their leaves.
ghost use Rattle.std.specs.Prelude.{◌≡◌, ◌<◌, Contains, IfOk};
ghost use Rattle.location_terms.specs.Instance.{site_ids};
ghost use Rattle.location_terms.specs.Leaf.{LeafFits};
ghost use Rattle.location_terms.specs.Tree.{StandsOn, nodes_of};

use crate::given::{duals, site_of};
use branch_tree::{
    Builder, Decision, Duals, Growth, NodeKind, Path, Renewal, Split, Tree, pass_leaf,
};
use example_instances::ring;
use instance_store::{Instance, NoMemory};
use leaf_bounds::LeafBounds;
use location_terms::SiteId;
use std::alloc::Global;
use std::test::Fail;

const CLOSED: [i128; 3] = [2_000_000, 2_000_000, 0];

const OPENED: [i128; 3] = [0, 0, 2_000_000];

// A split whose leaves have these duals.
fn forked(
    alloc: Global,
    inst: &Instance,
    site: SiteId,
    closed: Duals,
    opened: Duals,
) -> Result<Tree, NoMemory>
    requires site { Contains (site_ids inst.now) site }
    requires closed { LeafFits inst.now closed }
    requires opened { LeafFits inst.now opened }
    ensures stands { IfOk result (λ t. StandsOn t inst.now) }
    ensures nodes { IfOk result (λ t. nodes_of t ≡ 3) }
{
    let first = Tree::leaf(alloc, inst, closed)?;
    let second = Tree::leaf(alloc, inst, opened)?;
    Tree::fork(Split::Site(site), first, second)
}

// The same tree, made node by node.
fn built(
    alloc: Global,
    inst: &Instance,
    site: SiteId,
    closed: Duals,
    opened: Duals,
) -> Result<Tree, NoMemory>
    requires site { Contains (site_ids inst.now) site }
    requires closed { LeafFits inst.now closed }
    requires opened { LeafFits inst.now opened }
    ensures stands { IfOk result (λ t. StandsOn t inst.now) }
{
    let mut builder = Builder::on(alloc, inst)?;
    builder.split(Split::Site(site))?;
    builder.leaf(closed)?;
    builder.leaf(opened)?;
    Ok(builder.finish())
}

// The step to a child of the split on the first site.
fn step_to(opened: bool) -> Decision {
    let site = SiteId::new(1);
    if opened {
        Decision::Opened(site)
    } else {
        Decision::Closed(site)
    }
}

// Whether the tree is a split on the first site.
fn is_split(tree: &Tree) -> bool {
    tree.nodes() == 3
        && tree.leaf_count() == 2
        && tree.node(0) == NodeKind::Split(Split::Site(SiteId::new(1)))
        && tree.node(1) == NodeKind::Leaf
        && tree.duals(0).is_none()
        && tree.duals(1).is_some()
}

// Whether leaf `k` is this child, with these values.
fn is_child(tree: &Tree, k: usize, opened: bool, v: &[i128]) -> bool {
    k < tree.leaf_count()
        && tree.leaf_duals(k).values() == v
        && tree.leaf_depth(k) == 1
        && tree.leaf_step(k, 0) == step_to(opened)
}

// Whether a walk over the leaves comes to the leaves in order.
fn walks(tree: &Tree) -> Result<bool, NoMemory> {
    let mut walk = tree.leaves()?;
    for k in 0..tree.leaf_count() {
        if walk.is_done() {
            return Ok(false);
        }
        let (path, duals) = walk.leaf();
        if path.as_slice() != tree.leaf_path(k)?.as_slice() || duals.q() != tree.leaf_duals(k).q() {
            return Ok(false);
        }
        walk.pass()?;
    }
    Ok(walk.is_done())
}

// Whether the tree is accepted up to 4 units and no further, by bounds of its own and by lent ones.
fn closes_up_to_4(alloc: Global, tree: &Tree, inst: &Instance) -> Result<bool, NoMemory>
    requires { StandsOn tree.now inst.now }
{
    let mut bounds = LeafBounds::of(alloc, inst);
    Ok(
        tree.accepts(inst, Some(4_000_000))?
            && !tree.accepts_by(inst, &mut bounds, Some(4_000_001))?
            && shows_4(tree, inst, &mut bounds)?,
    )
}

// Whether the tree shows that no plan costs less than 4 units.
fn shows_4(tree: &Tree, inst: &Instance, bounds: &mut LeafBounds<'_>) -> Result<bool, NoMemory>
    requires stands { StandsOn tree.now inst.now }
    requires bounds { bounds.old ≡ inst.now }
{
    let closed = tree.accepts_by(inst, bounds, Some(4_000_000))?;
    if !closed {
        return Ok(false);
    }
    Ok(tree.low(inst)? == 4_000_000 && tree.low_by(inst, bounds)? == 4_000_000)
}

fn shows_the_example(alloc: Global, inst: &Instance) -> Result<bool, Fail> {
    let site = site_of(inst, 1)?;
    let closed = duals(alloc, inst, 0, &CLOSED, &[0; 3])?;
    let opened = duals(alloc, inst, 0, &OPENED, &[0; 3])?;
    let tree = built(alloc, inst, site, closed, opened)?;
    Ok(
        is_split(&tree)
            && is_child(&tree, 0, false, &CLOSED)
            && is_child(&tree, 1, true, &OPENED)
            && walks(&tree)?
            && closes_up_to_4(alloc, &tree, inst)?
            && replaces(alloc, inst, tree)?,
    )
}

// Whether a leaf of zeros takes the place of the first leaf.
fn replaces(alloc: Global, inst: &Instance, mut tree: Tree) -> Result<bool, NoMemory>
    requires { StandsOn tree inst.now }
{
    let part = Tree::root(alloc, inst)?;
    if tree.nodes() != 3 || tree.leaf_count() != 2 {
        return Ok(false);
    }
    tree.replace_leaf(0, part)?;
    Ok(is_child(&tree, 0, false, &[0; 3]))
}

// The renewal of a tree whose first leaf stays.
fn at_second(tree: Tree) -> Result<Renewal, NoMemory>
    ensures { IfOk result (λ r. r.tree ≡ tree) }
{
    let renewal = Renewal::of(tree)?;
    if renewal.is_done() {
        return Ok(renewal);
    }
    renewal.stay()
}

// Whether the leaf at work is this child of a split on the first site, below another step.
fn works_on(growth: &Growth<'_>, opened: bool, v: &[i128]) -> bool
    requires { 0 < growth.now.left }
{
    let path = growth.path();
    path.steps() == 2 && path.step(1) == step_to(opened) && growth.duals().values() == v
}

// The example's tree, as it grows from a leaf. The answer says whether each leaf was at work in its turn.
fn grown<'a>(
    alloc: Global,
    inst: &'a Instance,
    site: SiteId,
    path: &Path,
    closed: Duals,
    opened: Duals,
) -> Result<(bool, Growth<'a>), NoMemory>
    requires site { Contains (site_ids inst.now) site }
    requires closed { LeafFits inst.now closed }
    requires opened { LeafFits inst.now opened }
    ensures done { IfOk result (λ r. r.1.left ≡ 0) }
    ensures nodes { IfOk result (λ r. nodes_of r.1.tree ≡ 3) }
    ensures stands { IfOk result (λ r. StandsOn r.1.tree inst.now) }
{
    let mut growth = Growth::of(alloc, inst, path.copied()?, opened)?;
    growth.split(Split::Site(site), closed.copied()?, closed)?;
    let second = works_on(&growth, true, &CLOSED);
    growth.finish();
    let first = works_on(&growth, false, &CLOSED);
    growth.finish();
    Ok((first && second, growth))
}

// Whether the last leaf of the example was split again.
fn is_renewed(tree: &Tree) -> bool {
    tree.nodes() == 5
        && tree.leaf_count() == 3
        && tree.leaf_depth(0) == 1
        && tree.leaf_depth(2) == 2
        && tree.leaf_step(2, 1) == step_to(true)
        && tree.leaf_duals(1).values() == CLOSED.as_slice()
}

// Whether a split is seen where a tree grew in the place of the tree's last leaf.
fn renews(
    alloc: Global,
    inst: &Instance,
    site: SiteId,
    tree: Tree,
    closed: Duals,
    opened: Duals,
) -> Result<bool, NoMemory>
    requires site { Contains (site_ids inst.now) site }
    requires stands { StandsOn tree inst.now }
    requires nodes { nodes_of tree ≡ 3 }
    requires closed { LeafFits inst.now closed }
    requires opened { LeafFits inst.now opened }
{
    let renewal = at_second(tree)?;
    if renewal.is_done() {
        return Ok(false);
    }
    let (worked, growth) = grown(alloc, inst, site, renewal.leaf().0, closed, opened)?;
    let renewed = renewal.give(growth)?.finish()?;
    Ok(worked && is_renewed(&renewed) && walks(&renewed)?)
}

fn renews_the_example(alloc: Global, inst: &Instance) -> Result<bool, Fail> {
    let site = site_of(inst, 1)?;
    let closed = duals(alloc, inst, 0, &CLOSED, &[0; 3])?;
    let opened = duals(alloc, inst, 0, &OPENED, &[0; 3])?;
    let tree = forked(alloc, inst, site, closed.copied()?, opened.copied()?)?;
    Ok(renews(alloc, inst, site, tree, closed, opened)?)
}

fn holds_of(alloc: Global, inst: &Instance) -> Result<bool, Fail> {
    Ok(shows_the_example(alloc, inst)? && renews_the_example(alloc, inst)?)
}

#[test]
fn trees_of_the_example(rt: HostRuntime) -> Result<(), Fail> {
    let alloc = rt.alloc();
    let inst = ring(alloc)?;
    assert!(rt; holds_of(alloc, &inst)?);
    Ok(())
}

// Whether behind the leaf of this path the walk goes on at the leaf of one step, which is the last.
fn passes(mut path: Path) -> bool {
    pass_leaf(&mut path) == Ok(true)
        && path.as_slice() == [step_to(true)].as_slice()
        && pass_leaf(&mut path) == Ok(false)
        && path.steps() == 0
}

#[test]
fn passes_from_leaf_to_leaf(rt: HostRuntime) -> Result<(), Fail> {
    let mut path = Path::root(rt.alloc());
    path.push(step_to(false))?;
    path.push(Decision::Opened(SiteId::new(2)))?;
    assert!(rt; passes(path));
    Ok(())
}

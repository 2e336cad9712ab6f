//! Where the leaves of a tree stand.
ghost use Rattle.std.specs.Prelude.{◌≡◌, ◌↔◌, IfOk, IsSome, IsTrue, Some};
ghost use Rattle.branch_tree.specs.Made.{duals_at};
ghost use Rattle.leaf_book.specs.Book.{AreLeafPlaces, IsByPrices};

use branch_tree::{Duals, Path, Tree};
use instance_store::NoMemory;
use location_terms::LeafForm;
use std::alloc::Global;

/// A leaf of a tree.
#[derive(Drop)]
pub struct LeafPlace {
    /// The place of its node in preorder, counted from 0.
    pub node: u32,
    /// The path to it.
    pub path: Path,
}

// The places of all leaves, in preorder.
pub(crate) fn leaf_places(alloc: Global, tree: &Tree) -> Result<Vec<LeafPlace>, NoMemory>
    ensures { IfOk result (λ places. AreLeafPlaces tree.now places.items) }
{
    let mut places = Vec::with_capacity(alloc, tree.leaf_count())?;
    let mut walk = tree.leaves()?;
    for node in 0..tree.nodes() {
        match tree.duals(node) {
            Some(_) => {
                let (path, _duals) = walk.leaf();
                let path = path.copied()?;
                places.push(LeafPlace { node, path })?;
                walk.pass()?;
            }
            None => {}
        }
    }
    Ok(places)
}

// The duals of the leaf there.
pub(crate) fn duals_there<'a>(tree: &'a Tree, place: &LeafPlace) -> &'a Duals
    requires { IsSome (duals_at tree.now.root place.now.node) }
    ensures { duals_at tree.now.root place.now.node ≡ Some result.now }
{
    match tree.duals(place.node) {
        Some(duals) => duals,
        None => unreachable!(),
    }
}

// Whether each leaf takes prices of capacities.
pub(crate) fn is_by_prices(tree: &Tree) -> Result<bool, NoMemory>
    ensures { IfOk result (λ yes. IsTrue yes ↔ IsByPrices tree.now) }
{
    let mut walk = tree.leaves()?;
    while !walk.is_done() {
        let (_path, duals) = walk.leaf();
        match duals.form() {
            LeafForm::Prices => walk.pass()?,
            LeafForm::Whole => return Ok(false),
        }
    }
    Ok(true)
}

//! The book of a tree's leaves.
ghost use Rattle.std.specs.Prelude.{◌≡◌, ◌↔◌, ◌<◌, ◌≤◌, ◌+◌, IfOk, IfSome, IsSome, OnOk, Ok, length, pos, slice_index_or, vec_capacity};
ghost use Rattle.location_terms.specs.Instance.{Instance as Meaning};
ghost use Rattle.instance_edits.specs.declared.edit.Inverse.{Inverse as Taking};
ghost use Rattle.instance_edits.specs.Edits.{edited};
ghost use Rattle.instance_edits.specs.Undo.{put_back};
ghost use Rattle.leaf_repair.specs.CarriedTree.{carried_tree};
ghost use Rattle.leaf_repair.specs.Held.{TellsWhichClose};
ghost use Rattle.leaf_book.specs.Book.{AreLeafPlaces, IsBookOf, IsByPrices, HasRoomFor, HasNoLessRoom, sums_at};
ghost use Rattle.leaf_book.specs.BookDue.{IsBookDue};
ghost use Rattle.leaf_book.specs.Changes.{change_back};

use crate::Change;
use crate::ids::{place_custs, place_sites};
use crate::places::{LeafPlace, is_by_prices, leaf_places};
use crate::row::Row;
use crate::rows::{Course, follow_rows, fresh_rows, widen_rows};
use branch_tree::Tree;
use dual_value::closes;
use instance_edits::{Edit, Inverse};
use instance_store::{Instance, NoMemory};
use std::alloc::Global;
use std::marker::Model;

/// The slacks and bounds of the leaves of a tree, as it is carried over to an instance. The tree stays,
/// and the book follows the instance's edits.
#[derive(Drop)]
pub struct LeafBook {
    // All leaves of the tree.
    places: Vec<LeafPlace>,
    // A row for each leaf of the tree. The first ones are in use.
    rows: Vec<Row>,
    used: usize,
    // Room for the places of the instance's sites and customers among the tree's ids.
    sites: Vec<Option<usize>>,
    custs: Vec<Option<usize>>,
    // The least and the greatest number of open sites for which the bounds stand.
    lo: u32,
    hi: u32,
    // For how many sites and customers there is room.
    site_room: usize,
    cust_room: usize,
}

impl Model for LeafBook {
    ghost use Rattle.leaf_book.specs.Book.{Book};
    ghost use Rattle.leaf_book.specs.Stored.{stored_book, IsStored};

    ghost Value = { Book };

    ghost view = { stored_book };

    ghost invariant = { IsStored };
}

impl LeafBook {
    /// The book of the tree on the instance, and `None` exactly where some leaf of the tree takes whole
    /// knapsacks. It fails only where memory runs out.
    pub fn of(alloc: Global, tree: &Tree, inst: &Instance) -> Result<Option<LeafBook>, NoMemory>
        ensures book { IfOk result (λ found. IfSome found (λ b. IsBookOf b inst.now tree.now)) }
        ensures room { IfOk result (λ found. IfSome found (λ b. HasRoomFor b inst.now)) }
        ensures found { IfOk result (λ found. IsSome found ↔ IsByPrices tree.now) }
    {
        if !is_by_prices(tree)? {
            return Ok(None);
        }
        let mut book = LeafBook::fresh(alloc, tree, inst)?;
        book.follow(tree, inst, Change::All);
        Ok(Some(book))
    }

    // A book without a leaf yet, with room for one more site and one more customer than the instance has.
    fn fresh(alloc: Global, tree: &Tree, inst: &Instance) -> Result<LeafBook, NoMemory>
        ensures places { IfOk result (λ b. AreLeafPlaces tree.now b.places) }
        ensures room { IfOk result (λ b. HasRoomFor b inst.now) }
    {
        let places = leaf_places(alloc, tree)?;
        let (site_room, cust_room) = (inst.sites() + 1, inst.custs() + 1);
        let rows = fresh_rows(alloc, places.len(), site_room)?;
        Ok(LeafBook {
            places,
            rows,
            used: 0,
            sites: Vec::with_capacity(alloc, site_room)?,
            custs: Vec::with_capacity(alloc, cust_room)?,
            lo: 0,
            hi: 0,
            site_room,
            cust_room,
        })
    }

    /// How many leaves the carried tree has.
    pub fn leaves(&self) -> usize
        ensures { result ≡ length self.now.leaves }
    {
        self.used
    }

    /// How many sites have a slack in leaf `leaf` of the carried tree. Leaves count in preorder from 0.
    pub fn sites(&self, leaf: usize) -> usize
        requires { leaf < length self.now.leaves }
        ensures { result ≡ length (sums_at self.now leaf).slacks }
    {
        self.rows[leaf].sites()
    }

    /// The slack of the site at place `site` in leaf `leaf` of the carried tree. Leaves count in preorder
    /// from 0.
    pub fn slack(&self, leaf: usize, site: usize) -> i128
        requires leaf { leaf < length self.now.leaves }
        requires site { site < length (sums_at self.now leaf).slacks }
        ensures { result ≡ slice_index_or (sums_at self.now leaf).slacks site (pos 0) }
    {
        self.rows[leaf].slack(site)
    }

    /// The bound of leaf `leaf` of the carried tree. Leaves count in preorder from 0.
    pub fn bound(&self, leaf: usize) -> i128
        requires { leaf < length self.now.leaves }
        ensures { result ≡ (sums_at self.now leaf).bound }
    {
        self.rows[leaf].bound()
    }

    /// Makes room for the book of the tree on the instance that the edit makes. The book stays that of the
    /// tree on the instance, which stands before the edit. It fails only where memory runs out.
    pub fn make_room(&mut self, _tree: &Tree, inst: &Instance, _edit: &Edit) -> Result<(), NoMemory>
        requires { IsBookOf self.old inst.now _tree.now }
        ensures book { IsBookOf self.new inst.now _tree.now }
        ensures more { HasNoLessRoom self.old self.new }
        ensures room { OnOk result ((I : Meaning) → edited inst.now _edit.now ≡ Ok I → HasRoomFor self.new I) }
    {
        self.widen(inst)?;
        Ok(())
    }

    /// Makes room for the book of the tree on the instance to which the inverse leads back. The book stays
    /// that of the tree on the instance, which stands before the undo. It fails only where memory runs out.
    pub fn make_room_back(
        &mut self,
        _tree: &Tree,
        inst: &Instance,
        _back: &Inverse,
    ) -> Result<(), NoMemory>
        requires { IsBookOf self.old inst.now _tree.now }
        ensures book { IsBookOf self.new inst.now _tree.now }
        ensures more { HasNoLessRoom self.old self.new }
        ensures room { OnOk result (HasRoomFor self.new (put_back inst.now _back.now)) }
    {
        self.widen(inst)?;
        Ok(())
    }

    // Makes room for one more site and one more customer than the instance has.
    fn widen(&mut self, inst: &Instance) -> Result<(), NoMemory>
        ensures places { self.new.places ≡ self.old.places }
        ensures leaves { self.new.leaves ≡ self.old.leaves }
        ensures lo { self.new.lo ≡ self.old.lo }
        ensures hi { self.new.hi ≡ self.old.hi }
        ensures more { HasNoLessRoom self.old self.new }
        ensures sites { OnOk result (length inst.now.sites + 1 ≤ self.new.site_room) }
        ensures customers { OnOk result (length inst.now.customers + 1 ≤ self.new.customer_room) }
    {
        let (sites, custs) = (inst.sites() + 1, inst.custs() + 1);
        let site_room = self.site_room.max(sites);
        let cust_room = self.cust_room.max(custs);
        widen_rows(&mut self.rows, site_room)?;
        widen_places(&mut self.sites, site_room)?;
        widen_places(&mut self.custs, cust_room)?;
        self.site_room = site_room;
        self.cust_room = cust_room;
        Ok(())
    }

    /// Leads the book on to the instance, after an edit changed it that `back` takes back. Room has to be
    /// made before the edit. It takes no memory.
    pub fn edited(&mut self, tree: &Tree, inst: &Instance, back: &Inverse)
        requires book { IsBookOf self.old (put_back inst.now back.now) tree.now }
        requires room { HasRoomFor self.old inst.now }
        ensures book { IsBookOf self.new inst.now tree.now }
        ensures room { HasNoLessRoom self.old self.new }
    {
        self.follow(tree, inst, Change::of(back));
    }

    /// Leads the book on to the instance, after an edit was taken back: `change` is what that changed, as
    /// `Change::of_undo` told it before. Room has to be made before, too. It takes no memory.
    pub fn undone(&mut self, tree: &Tree, inst: &Instance, change: Change)
        requires book { (I : Meaning) × (back : Taking) × IsBookOf self.old I tree.now × (change_back I back ≡ change) × (put_back I back ≡ inst.now) }
        requires room { HasRoomFor self.old inst.now }
        ensures book { IsBookOf self.new inst.now tree.now }
        ensures room { HasNoLessRoom self.old self.new }
    {
        let _valid = inst.sites();
        self.follow(tree, inst, change);
    }

    // The book follows a change of the instance.
    fn follow(&mut self, tree: &Tree, inst: &Instance, change: Change)
        requires by_prices { IsByPrices tree.now }
        requires places { AreLeafPlaces tree.now self.old.places }
        requires room { HasRoomFor self.old inst.now }
        requires due { IsBookDue change inst.now tree.now self.old }
        ensures book { IsBookOf self.new inst.now tree.now }
        ensures room { HasNoLessRoom self.old self.new }
    {
        let _trees = (tree.nodes(), inst.sites());
        place_sites(&mut self.sites, tree.site_ids(), inst);
        place_custs(&mut self.custs, tree.cust_ids(), inst);
        let course = Course {
            inst,
            tree,
            places: &self.places,
            sites: &self.sites,
            custs: &self.custs,
            change,
            count: (self.lo, self.hi),
        };
        self.used = follow_rows(&course, &mut self.rows);
        let (lo, hi) = inst.count();
        self.lo = lo;
        self.hi = hi;
    }

    /// Whether each leaf of the carried tree, in preorder, closes its box against the target, a cost in
    /// millionths, or without one. It fails only where memory runs out.
    pub fn held(
        &self,
        alloc: Global,
        tree: &Tree,
        inst: &Instance,
        target: Option<u64>,
    ) -> Result<Vec<bool>, NoMemory>
        requires { IsBookOf self.now inst.now tree.now }
        ensures { IfOk result (λ held. TellsWhichClose inst.now (carried_tree inst.now tree.now) target held.items) }
    {
        let _tree = (tree.nodes(), inst.sites());
        let mut held = Vec::with_capacity(alloc, self.used)?;
        for leaf in 0..self.used {
            let row = &self.rows[leaf];
            held.push(closes(row.bound(), row.q(), target))?;
        }
        Ok(held)
    }
}

fn widen_places(places: &mut Vec<Option<usize>>, count: usize) -> Result<(), NoMemory>
    ensures more { vec_capacity places.old ≤ vec_capacity places.new }
    ensures room { OnOk result (count ≤ vec_capacity places.new) }
{
    let more = count.saturating_sub(places.len());
    places.reserve(more)?;
    Ok(())
}

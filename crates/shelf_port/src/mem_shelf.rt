// Files in memory.
ghost use Rattle.std.specs.Prelude.{◌≡◌, ◌⊎◌, ℕ, ◌+◌, ◌<◌, ◌≤◌, ◌++◌, ◌↔◌, List, [], length, take, drop, Option, Some, None, IfOk, OnOk, OnErr, IsErrOf};
ghost use Rattle.std.specs.Option.{option_copied};
ghost use Rattle.std.specs.List.{position_from};
ghost use Rattle.std.specs.FinMap.{get, insert};
ghost use Rattle.shelf_port.specs.Files.{Files, bytes_of, with_file, with_added, HasFile, IsPiece, Rose, NeverFalls, CountsOnly};
ghost use Rattle.shelf_port.specs.Memory.{files_of_list, is_named};
ghost use Rattle.shelf_port.specs.Plan.{IsPlanned, NextFails, after_call, IsInPieces};

use crate::fault::ShelfFault;
use crate::plan::{CallPlan, copy_from};
use crate::ports::Shelf;
use std::alloc::{AllocError, Global};

/// Files in memory. It tells them. Of its calls those with given numbers fail.
#[derive(Debug, Drop)]
pub struct MemShelf {
    alloc: Global,
    files: Vec<(String, Vec<u8>)>,
    plan: CallPlan,
    read_faults: u64,
    write_faults: u64,
}

impl MemShelf {
    ghost use Rattle.shelf_port.specs.MemShelf.{files_of, plan_of, read_faults_of, write_faults_of};

    /// A shelf with these files, by name. Of several with one name the first counts. Its calls with
    /// the numbers `fails`, counted from 1 over all of them, answer `Failed`.
    pub fn new(alloc: Global, files: Vec<(String, Vec<u8>)>, fails: Vec<u64>) -> Self
        ensures files { files_of result ≡ files_of_list files.items }
        ensures failing { (plan_of result).failing ≡ fails }
        ensures made { (plan_of result).made ≡ 0 }
        ensures reads { read_faults_of result ≡ 0 }
        ensures writes { write_faults_of result ≡ 0 }
    {
        MemShelf {
            alloc,
            files,
            plan: CallPlan::new(fails),
            read_faults: 0,
            write_faults: 0,
        }
    }

    /// The same shelf, of which one call gives or takes at most so many bytes.
    pub fn in_pieces(self, width: usize) -> Self
        requires { 0 < width }
        ensures files { files_of result ≡ files_of self }
        ensures plan { IsInPieces width (plan_of self) (plan_of result) }
        ensures reads { read_faults_of result ≡ read_faults_of self }
        ensures writes { write_faults_of result ≡ write_faults_of self }
    {
        MemShelf {
            alloc: self.alloc,
            files: self.files,
            plan: self.plan.in_pieces(width),
            read_faults: self.read_faults,
            write_faults: self.write_faults,
        }
    }

    /// The bytes of the named file, if it is there.
    pub fn file(&self, name: &str) -> Option<&[u8]>
        ensures { option_copied result ≡ get (files_of self.now) name.now }
    {
        let place = place_of(&self.files, name)?;
        Some(&self.files[place].1)
    }
}

fn place_of(files: &[(String, Vec<u8>)], name: &str) -> Option<usize>
    ensures { result ≡ position_from (λ f. is_named name.now f) 0 files.now }
{
    files.iter().position(|(known, _)| name == known.as_str())
}

// Empties the named file, or makes it.
fn make_empty(
    alloc: Global,
    files: &mut Vec<(String, Vec<u8>)>,
    name: &str,
) -> Result<(), AllocError>
    ensures ok { OnOk result (files_of_list files.new.items ≡
        insert (files_of_list files.old.items) name.now []) }
    ensures err { OnErr result (files_of_list files.new.items ≡ files_of_list files.old.items) }
{
    match place_of(files, name) {
        Some(place) => {
            let file = &mut files[place];
            file.1.clear();
        }
        None => files.push((String::from_str(alloc, name)?, Vec::new(alloc)))?,
    }
    Ok(())
}

// Adds bytes at the end of the named file, or makes it of them.
fn add_bytes(
    alloc: Global,
    files: &mut Vec<(String, Vec<u8>)>,
    name: &str,
    bytes: &[u8],
) -> Result<(), AllocError>
    ensures ok { OnOk result (files_of_list files.new.items ≡
        insert (files_of_list files.old.items) name.now
        (bytes_of (files_of_list files.old.items) name.now ++ bytes.now)) }
    ensures err { OnErr result (files_of_list files.new.items ≡ files_of_list files.old.items) }
{
    match place_of(files, name) {
        Some(place) => {
            let file = &mut files[place];
            file.1.extend_from_slice(bytes)?;
        }
        None => files.push((String::from_str(alloc, name)?, bytes.to_vec(alloc)?))?,
    }
    Ok(())
}

impl Shelf for MemShelf {
    ghost use Rattle.shelf_port.specs.MemShelf.{files_of, plan_of, read_faults_of, write_faults_of};
    ghost use Rattle.std.specs.Prelude.{Some};

    ghost files = { λ s. Some (files_of s) };

    ghost read_faults = { λ s _. s.read_faults };

    ghost write_faults = { λ s _. s.write_faults };

    fn read_at(&mut self, name: &str, at: u64, into: &mut [u8]) -> Result<usize, ShelfFault>
        ensures bound { IfOk result (λ n. n ≤ length into.new) }
        ensures bytes { IfOk result (λ n. HasFile (Some (files_of self.old)) name.now
            (λ file. IsPiece file at n into.old into.new)) }
        ensures unchanged { Some (files_of self.new) ≡ Some (files_of self.old) }

        ensures failed { IsErrOf result ShelfFault.Failed →
            Rose (read_faults_of self.old) (read_faults_of self.new) }
        ensures reads { NeverFalls (λ _. read_faults_of self.old) (λ _. read_faults_of self.new) }
        ensures writes { NeverFalls (λ _. write_faults_of self.old) (λ _. write_faults_of self.new) }

        // A fault is counted once, and no call counts another.
        ensures counts_only { CountsOnly (IsErrOf result ShelfFault.Failed)
            (read_faults_of self.old) (read_faults_of self.new) }
        ensures same_writes { write_faults_of self.new ≡ write_faults_of self.old }

        // It fails exactly where it is one of the calls that are to fail, or the file isn't there.
        ensures planned { NextFails (plan_of self.old) → IsErrOf result ShelfFault.Failed }
        ensures missing { get (files_of self.old) name.now ≡ None →
            IsErrOf result ShelfFault.Failed }
        ensures only { OnErr result (NextFails (plan_of self.old)
            ⊎ (get (files_of self.old) name.now ≡ None)) }
        ensures plan { plan_of self.new ≡ after_call (plan_of self.old) }
        ensures width { IfOk result (λ n. n ≤ (plan_of self.old).width) }
    {
        if self.plan.next_fails() {
            self.read_faults = self.read_faults.saturating_add(1);
            return Err(ShelfFault::Failed);
        }
        match place_of(&self.files, name) {
            Some(place) => Ok(copy_from(&self.files[place].1, at as usize, &self.plan, into)),
            None => {
                self.read_faults = self.read_faults.saturating_add(1);
                Err(ShelfFault::Failed)
            }
        }
    }

    fn create(&mut self, name: &str) -> Result<(), ShelfFault>
        ensures ok { OnOk result (Some (files_of self.new) ≡
            with_file (Some (files_of self.old)) name.now []) }
        ensures err { OnErr result ((Some (files_of self.new) ≡ Some (files_of self.old))
            ⊎ (Some (files_of self.new) ≡ with_file (Some (files_of self.old)) name.now [])) }

        ensures failed { IsErrOf result ShelfFault.Failed →
            Rose (write_faults_of self.old) (write_faults_of self.new) }
        ensures reads { NeverFalls (λ _. read_faults_of self.old) (λ _. read_faults_of self.new) }
        ensures writes { NeverFalls (λ _. write_faults_of self.old) (λ _. write_faults_of self.new) }

        ensures planned { IsPlanned (IsErrOf result ShelfFault.Failed)
            (write_faults_of self.old) (write_faults_of self.new) (plan_of self.old) (plan_of self.new) }
        ensures same_reads { read_faults_of self.new ≡ read_faults_of self.old }
    {
        if self.plan.next_fails() {
            self.write_faults = self.write_faults.saturating_add(1);
            return Err(ShelfFault::Failed);
        }
        Ok(make_empty(self.alloc, &mut self.files, name)?)
    }

    fn append(&mut self, name: &str, bytes: &[u8]) -> Result<usize, ShelfFault>
        ensures bound { IfOk result (λ n. n ≤ length bytes.now) }
        ensures progress { IfOk result (λ n. 0 < length bytes.now → 0 < n) }
        ensures ok { IfOk result (λ n. Some (files_of self.new) ≡
            with_added (Some (files_of self.old)) name.now (take n bytes.now)) }
        ensures err { OnErr result (Some (files_of self.new) ≡ Some (files_of self.old)) }

        ensures failed { IsErrOf result ShelfFault.Failed →
            Rose (write_faults_of self.old) (write_faults_of self.new) }
        ensures reads { NeverFalls (λ _. read_faults_of self.old) (λ _. read_faults_of self.new) }
        ensures writes { NeverFalls (λ _. write_faults_of self.old) (λ _. write_faults_of self.new) }

        ensures planned { IsPlanned (IsErrOf result ShelfFault.Failed)
            (write_faults_of self.old) (write_faults_of self.new) (plan_of self.old) (plan_of self.new) }
        ensures same_reads { read_faults_of self.new ≡ read_faults_of self.old }
        ensures width { IfOk result (λ n. n ≤ (plan_of self.old).width) }
    {
        if self.plan.next_fails() {
            self.write_faults = self.write_faults.saturating_add(1);
            return Err(ShelfFault::Failed);
        }
        let count = self.plan.part_of(bytes.len());
        add_bytes(self.alloc, &mut self.files, name, &bytes[..count])?;
        Ok(count)
    }
}

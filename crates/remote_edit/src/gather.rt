//! The fragments that a piece of an edit makes from a range of a tree.
ghost use Rattle.std.specs.Prelude.{◌≡◌, ℕ, ◌+◌, ◌-◌, ◌<◌, ◌≤◌, ◌^◌, ◌++◌, ◌∷◌, ◌&&◌, not, false, [], length, take, Some, None, IfOk, option_to_list};
ghost use Rattle.std.specs.Option.{option_copied};
ghost use Rattle.lamport_clock.specs.Versions.{sees};
ghost use Rattle.lamport_clock.specs.Stamps.{later};
ghost use Rattle.locators.specs.Locator.{between_digits};
ghost use Rattle.fragments.specs.Index.{with_entry};
ghost use Rattle.fragments.specs.DeletedRuns.{with_insertion};
ghost use Rattle.fragments.specs.Stand.{entry_of};
ghost use Rattle.fragments.specs.Laws.{cells_len};
ghost use Rattle.remote_edit.specs.Indexes.{IsIndexed};
ghost use Rattle.remote_edit.specs.Walk.{seen_bytes, Fit, last_id, next_id, new_fragment, front, back, advance, skip_later, put_new};
ghost use Rattle.remote_edit.specs.Marks.{touch, touch_index};
ghost use Rattle.remote_edit.specs.Steps.{later_first, head, tail, IsOnWay, IsAt};
ghost use Rattle.remote_edit.specs.Gathers.{so_far, ahead};
ghost use Rattle.remote_edit.specs.Starts.{AllSeen, IsFew};

use crate::OutOfMemory;
use crate::mark::touch;
use crate::parts::{back, front, new_fragment};
use fragments::{Fragment, InsertionIndex};
use lamport_clock::is_later;
use locators::Locator;
use op_model::EditOp;
use std::alloc::Global;
use sum_tree::{Item, SumTree};
use undo_map::UndoMap;

/// The state of a piece on its way over its range. The fragments `made` so far replace those in `from..at`, and `back`
/// is what is left of the last of these. `place` is the number of cells so far that the edit's version sees, `number`
/// that of the edit's new cells, and `index` the index of all fragments, including those that were made.
#[derive(Drop)]
pub struct Gather {
    pub from: u64,
    pub at: u64,
    pub made: Vec<Fragment>,
    pub back: Option<Fragment>,
    pub place: u64,
    pub number: u64,
    pub index: InsertionIndex,
}

impl Gather {
    // The next fragment.
    fn first<'a>(&'a self, tree: &'a SumTree<Fragment>) -> Option<&'a Fragment>
        ensures { option_copied result ≡ head (ahead tree.now.items self.now) }
    {
        match &self.back {
            Some(fragment) => Some(fragment),
            None => tree.get(self.at),
        }
    }

    // The id of the fragment before this place, or the least id.
    fn low(&self, alloc: Global, tree: &SumTree<Fragment>) -> Result<Locator, OutOfMemory>
        requires { self.now.from ≤ length tree.now.items }
        ensures { IfOk result (λ id. id ≡ last_id (so_far tree.now.items self.now)) }
    {
        match self.made.last() {
            Some(fragment) => Ok(fragment.id.copy(alloc)?),
            None => id_before(alloc, tree, self.from),
        }
    }

    // The id of the next fragment, or the greatest id.
    fn high(&self, alloc: Global, tree: &SumTree<Fragment>) -> Result<Locator, OutOfMemory>
        ensures { IfOk result (λ id. id ≡ next_id (ahead tree.now.items self.now)) }
    {
        match self.first(tree) {
            None => Locator::greatest(alloc),
            Some(fragment) => Ok(fragment.id.copy(alloc)?),
        }
    }

    // Replaces the next fragment with another, and passes it.
    fn go_on(&mut self, tree: &SumTree<Fragment>, fragment: Fragment) -> Result<(), OutOfMemory>
        requires some { (ahead tree.now.items self.old ≡ []) → ⊥ }
        ensures made { IfOk result (λ _. self.new.made.items
            ≡ self.old.made.items ++ fragment ∷ []) }
        ensures rest { IfOk result (λ _. ahead tree.now.items self.new
            ≡ tail (ahead tree.now.items self.old)) }
        ensures from { self.new.from ≡ self.old.from }
        ensures order { self.old.at ≤ self.new.at }
        ensures place { self.new.place ≡ self.old.place }
        ensures none { IfOk result (λ _. self.new.back ≡ None) }
        ensures count { IfOk result (λ _. self.new.at + length (option_to_list self.old.back)
            ≡ self.old.at + 1) }
        ensures number { self.new.number ≡ self.old.number }
        ensures index { self.new.index ≡ self.old.index }
    {
        tree.known();
        self.made.push(fragment)?;
        match self.back {
            Some(_) => self.back = None,
            None => self.at += 1,
        }
        Ok(())
    }

    // Passes the next fragment, or as much of it as has `left` cells that the version sees. Returns the number of cells
    // that are still to be passed.
    fn pass_one(
        &mut self,
        alloc: Global,
        tree: &SumTree<Fragment>,
        edit: &EditOp,
        left: u64,
        marks: Option<&UndoMap>,
    ) -> Result<u64, OutOfMemory>
        requires within { self.old.from ≤ length tree.now.items }
        requires some { 0 < left }
        requires fit { Fit (so_far tree.now.items self.old ++ ahead tree.now.items self.old) }
        requires place { self.old.place ≡ seen_bytes edit.now.version
            (so_far tree.now.items self.old) }
        requires indexed { IsIndexed edit.now.stamp self.old.number
            (so_far tree.now.items self.old ++ ahead tree.now.items self.old) self.old.index }
        ensures from { self.new.from ≡ self.old.from }
        ensures order { self.old.at ≤ self.new.at }
        ensures passed { IfOk result (λ n. IsOnWay (option_copied marks.entry) edit.now.stamp
            edit.now.version left (so_far tree.now.items self.old) (ahead tree.now.items self.old)
            n (so_far tree.now.items self.new) (ahead tree.now.items self.new) self.new.place) }
        ensures few { AllSeen edit.now.version (ahead tree.now.items self.old)
            → IfOk result (λ n. IsFew edit.now.version tree.now.items self.old left self.new n) }
        ensures number { self.new.number ≡ self.old.number }
        ensures indexed { IfOk result (λ _. IsIndexed edit.now.stamp self.new.number
            (so_far tree.now.items self.new ++ ahead tree.now.items self.new) self.new.index) }
    {
        let Some(first) = self.first(tree) else {
            return Ok(0);
        };
        let len = first.len;
        if !edit.version.sees(first.stamp) {
            self.keep(alloc, tree)?;
            return Ok(left);
        }
        if left < len {
            let (front, back) = self.halves(alloc, tree, first, left)?;
            self.put_halves(alloc, tree, edit, front, back, marks)?;
            self.place += left;
            return Ok(0);
        }
        let whole = first.copy(alloc)?;
        self.touch_next(alloc, tree, edit, whole, marks)?;
        self.place += len;
        Ok(left - len)
    }

    // The first `n` cells of the next fragment, with an id of their own, and the cells after them.
    fn halves(
        &self,
        alloc: Global,
        tree: &SumTree<Fragment>,
        fragment: &Fragment,
        n: u64,
    ) -> Result<(Fragment, Fragment), OutOfMemory>
        requires start { self.now.from ≤ length tree.now.items }
        requires room { fragment.now.offset + n < 2 ^ 64 }
        requires within { n ≤ fragment.now.len }
        ensures front { IfOk result (λ r. r.0
            ≡ front fragment.now n
            (between_digits (last_id (so_far tree.now.items self.now)) fragment.now.id)) }
        ensures back { IfOk result (λ r. r.1 ≡ back fragment.now n) }
    {
        let low = self.low(alloc, tree)?;
        let front = front(alloc, fragment, n, &low)?;
        Ok((front, back(alloc, fragment, n)?))
    }

    // Replaces the next fragment with its two parts and enters both in the index. The lower one, with its marks, is
    // passed.
    fn put_halves(
        &mut self,
        alloc: Global,
        tree: &SumTree<Fragment>,
        edit: &EditOp,
        lower: Fragment,
        upper: Fragment,
        marks: Option<&UndoMap>,
    ) -> Result<(), OutOfMemory>
        requires some { (ahead tree.now.items self.old ≡ []) → ⊥ }
        requires first { length (with_entry (entry_of lower) self.old.index.entries) ≤ 2 ^ 40 }
        requires second { length (with_entry (entry_of upper)
            (with_entry (entry_of lower) self.old.index.entries)) ≤ 2 ^ 40 }
        ensures made { IfOk result (λ _. self.new.made.items
            ≡ self.old.made.items
            ++ touch (option_copied marks.entry) edit.now.stamp edit.now.version lower ∷ []) }
        ensures rest { IfOk result (λ _. ahead tree.now.items self.new
            ≡ upper ∷ tail (ahead tree.now.items self.old)) }
        ensures back { IfOk result (λ _. self.new.back ≡ Some upper) }
        ensures count { IfOk result (λ _. self.new.at + length (option_to_list self.old.back)
            ≡ self.old.at + 1) }
        ensures from { self.new.from ≡ self.old.from }
        ensures order { self.old.at ≤ self.new.at }
        ensures place { self.new.place ≡ self.old.place }
        ensures number { self.new.number ≡ self.old.number }
        ensures index { IfOk result (λ _. self.new.index
            ≡ touch_index (option_copied marks.entry) edit.now.stamp edit.now.version lower
            (with_insertion (entry_of upper) (with_insertion (entry_of lower) self.old.index))) }
    {
        enter_both(&mut self.index, alloc, &lower, &upper)?;
        self.touch_next(alloc, tree, edit, lower, marks)?;
        self.back = Some(upper);
        Ok(())
    }

    // Replaces the next fragment with another, which is marked if undo counts are given, and passes it.
    fn touch_next(
        &mut self,
        alloc: Global,
        tree: &SumTree<Fragment>,
        edit: &EditOp,
        fragment: Fragment,
        marks: Option<&UndoMap>,
    ) -> Result<(), OutOfMemory>
        requires some { (ahead tree.now.items self.old ≡ []) → ⊥ }
        ensures made { IfOk result (λ _. self.new.made.items
            ≡ self.old.made.items
            ++ touch (option_copied marks.entry) edit.now.stamp edit.now.version fragment ∷ []) }
        ensures rest { IfOk result (λ _. ahead tree.now.items self.new
            ≡ tail (ahead tree.now.items self.old)) }
        ensures from { self.new.from ≡ self.old.from }
        ensures order { self.old.at ≤ self.new.at }
        ensures place { self.new.place ≡ self.old.place }
        ensures none { IfOk result (λ _. self.new.back ≡ None) }
        ensures count { IfOk result (λ _. self.new.at + length (option_to_list self.old.back)
            ≡ self.old.at + 1) }
        ensures number { self.new.number ≡ self.old.number }
        ensures index { IfOk result (λ _. self.new.index ≡ touch_index
            (option_copied marks.entry) edit.now.stamp edit.now.version fragment self.old.index) }
    {
        let mut touched = fragment;
        touch(&mut touched, alloc, edit, marks, &mut self.index)?;
        self.go_on(tree, touched)
    }

    /// Passes `count` cells that the edit's version sees, and what lies between them. If undo counts are given, marks
    /// the fragments that it sees as in a range of the edit.
    pub fn pass(
        &mut self,
        alloc: Global,
        tree: &SumTree<Fragment>,
        edit: &EditOp,
        count: u64,
        marks: Option<&UndoMap>,
    ) -> Result<(), OutOfMemory>
        requires within { self.old.from ≤ length tree.now.items }
        requires fit { Fit (so_far tree.now.items self.old ++ ahead tree.now.items self.old) }
        requires place { self.old.place ≡ seen_bytes edit.now.version
            (so_far tree.now.items self.old) }
        requires indexed { IsIndexed edit.now.stamp self.old.number
            (so_far tree.now.items self.old ++ ahead tree.now.items self.old) self.old.index }
        ensures from { self.new.from ≡ self.old.from }
        ensures order { self.old.at ≤ self.new.at }
        ensures gathered { IfOk result (λ _. IsAt edit.now.version
            (advance (option_copied marks.entry) edit.now.stamp edit.now.version count
            (so_far tree.now.items self.old) (ahead tree.now.items self.old))
            (cells_len (so_far tree.now.items self.old ++ ahead tree.now.items self.old))
            (so_far tree.now.items self.new) (ahead tree.now.items self.new) self.new.place) }
        ensures few { AllSeen edit.now.version (ahead tree.now.items self.old)
            → IfOk result (λ _. IsFew edit.now.version tree.now.items self.old count self.new 0) }
        ensures number { self.new.number ≡ self.old.number }
        ensures indexed { IfOk result (λ _. IsIndexed edit.now.stamp self.new.number
            (so_far tree.now.items self.new ++ ahead tree.now.items self.new) self.new.index) }
    {
        let mut left = count;
        while left > 0 {
            left = self.pass_one(alloc, tree, edit, left, marks)?;
        }
        Ok(())
    }

    // Whether the next fragment is later than the edit, and the edit has not seen it.
    fn is_later(&self, tree: &SumTree<Fragment>, edit: &EditOp) -> bool
        ensures { result ≡ later_first edit.now.stamp edit.now.version
            (ahead tree.now.items self.now) }
    {
        match self.first(tree) {
            None => false,
            Some(fragment) => is_past(fragment, edit),
        }
    }

    // Passes the next fragment as it is.
    fn keep(&mut self, alloc: Global, tree: &SumTree<Fragment>) -> Result<(), OutOfMemory>
        ensures from { self.new.from ≡ self.old.from }
        ensures order { self.old.at ≤ self.new.at }
        ensures place { self.new.place ≡ self.old.place }
        ensures before { IfOk result (λ _. so_far tree.now.items self.new
            ≡ so_far tree.now.items self.old ++ take 1 (ahead tree.now.items self.old)) }
        ensures after { IfOk result (λ _. ahead tree.now.items self.new
            ≡ tail (ahead tree.now.items self.old)) }
        ensures number { self.new.number ≡ self.old.number }
        ensures index { self.new.index ≡ self.old.index }
    {
        if let Some(first) = self.first(tree) {
            let same = first.copy(alloc)?;
            self.go_on(tree, same)?;
        }
        Ok(())
    }

    /// Passes the next fragments as long as they are later than the edit and the edit has not seen them.
    pub fn skip_later(
        &mut self,
        alloc: Global,
        tree: &SumTree<Fragment>,
        edit: &EditOp,
    ) -> Result<(), OutOfMemory>
        requires within { self.old.from ≤ length tree.now.items }
        requires fit { Fit (so_far tree.now.items self.old ++ ahead tree.now.items self.old) }
        requires place { self.old.place ≡ seen_bytes edit.now.version
            (so_far tree.now.items self.old) }
        requires indexed { IsIndexed edit.now.stamp self.old.number
            (so_far tree.now.items self.old ++ ahead tree.now.items self.old) self.old.index }
        ensures from { self.new.from ≡ self.old.from }
        ensures order { self.old.at ≤ self.new.at }
        ensures gathered { IfOk result (λ _. IsAt edit.now.version
            (skip_later edit.now.stamp edit.now.version
            (so_far tree.now.items self.old) (ahead tree.now.items self.old))
            (cells_len (so_far tree.now.items self.old ++ ahead tree.now.items self.old))
            (so_far tree.now.items self.new) (ahead tree.now.items self.new) self.new.place) }
        ensures none { AllSeen edit.now.version (ahead tree.now.items self.old)
            → IfOk result (λ _. (self.new.at ≡ self.old.at) × (self.new.back ≡ self.old.back)) }
        ensures number { self.new.number ≡ self.old.number }
        ensures indexed { IfOk result (λ _. IsIndexed edit.now.stamp self.new.number
            (so_far tree.now.items self.new ++ ahead tree.now.items self.new) self.new.index) }
    {
        while self.is_later(tree, edit) {
            self.keep(alloc, tree)?;
        }
        Ok(())
    }

    /// Inserts `n` new cells of the edit here, and passes them. Does nothing if `n` is 0.
    pub fn put_new(
        &mut self,
        alloc: Global,
        tree: &SumTree<Fragment>,
        edit: &EditOp,
        n: u64,
    ) -> Result<(), OutOfMemory>
        requires unseen { sees edit.now.version edit.now.stamp ≡ false }
        requires room { cells_len (so_far tree.now.items self.old ++ ahead tree.now.items self.old)
            + n ≤ 2 ^ 40 }
        requires numbers { self.old.number + n < 2 ^ 64 }
        requires within { self.old.from ≤ length tree.now.items }
        requires fit { Fit (so_far tree.now.items self.old ++ ahead tree.now.items self.old) }
        requires place { self.old.place ≡ seen_bytes edit.now.version
            (so_far tree.now.items self.old) }
        requires indexed { IsIndexed edit.now.stamp self.old.number
            (so_far tree.now.items self.old ++ ahead tree.now.items self.old) self.old.index }
        ensures from { self.new.from ≡ self.old.from }
        ensures order { self.old.at ≤ self.new.at }
        ensures at { self.new.at ≡ self.old.at }
        ensures back { self.new.back ≡ self.old.back }
        ensures gathered { IfOk result (λ _. IsAt edit.now.version
            (put_new edit.now.stamp self.old.number n
            (so_far tree.now.items self.old) (ahead tree.now.items self.old))
            (cells_len (so_far tree.now.items self.old ++ ahead tree.now.items self.old) + n)
            (so_far tree.now.items self.new) (ahead tree.now.items self.new) self.new.place) }
        ensures number { IfOk result (λ _. self.new.number ≡ self.old.number + n) }
        ensures indexed { IfOk result (λ _. IsIndexed edit.now.stamp self.new.number
            (so_far tree.now.items self.new ++ ahead tree.now.items self.new) self.new.index) }
    {
        if n > 0 {
            let low = self.low(alloc, tree)?;
            let high = self.high(alloc, tree)?;
            let made = new_fragment(alloc, edit.stamp, self.number, n, &low, &high)?;
            enter(&mut self.index, alloc, &made)?;
            self.made.push(made)?;
            self.number += n;
        }
        Ok(())
    }
}

// Whether a fragment is later than the edit, and the edit has not seen it.
fn is_past(fragment: &Fragment, edit: &EditOp) -> bool
    ensures { result ≡ (later fragment.now.stamp edit.now.stamp && not
        (sees edit.now.version fragment.now.stamp)) }
{
    is_later(fragment.stamp, edit.stamp) && !edit.version.sees(fragment.stamp)
}

// Enters a fragment in an index, and replaces the entry of the one that began with the same cell.
fn enter(index: &mut InsertionIndex, alloc: Global, fragment: &Fragment) -> Result<(), OutOfMemory>
    requires { length (with_entry (entry_of fragment.now) index.old.entries) ≤ 2 ^ 40 }
    ensures { IfOk result (λ _. index.new ≡ with_insertion (entry_of fragment.now) index.old) }
{
    let id = fragment.id.copy(alloc)?;
    index.add(alloc, fragment.stamp, fragment.offset, id)
}

// Enters both parts of a fragment in an index that has the whole one.
fn enter_both(
    index: &mut InsertionIndex,
    alloc: Global,
    lower: &Fragment,
    upper: &Fragment,
) -> Result<(), OutOfMemory>
    requires first { length (with_entry (entry_of lower.now) index.old.entries) ≤ 2 ^ 40 }
    requires second { length (with_entry (entry_of upper.now)
        (with_entry (entry_of lower.now) index.old.entries)) ≤ 2 ^ 40 }
    ensures { IfOk result (λ _. index.new
        ≡ with_insertion (entry_of upper.now) (with_insertion (entry_of lower.now) index.old)) }
{
    enter(index, alloc, lower)?;
    enter(index, alloc, upper)
}

// The id of the fragment before index `at` of the tree, or the least id.
fn id_before(alloc: Global, tree: &SumTree<Fragment>, at: u64) -> Result<Locator, OutOfMemory>
    requires { at ≤ length tree.now.items }
    ensures { IfOk result (λ id. id ≡ last_id (take at tree.now.items)) }
{
    if at > 0 {
        if let Some(fragment) = tree.get(at - 1) {
            return Ok(fragment.id.copy(alloc)?);
        }
    }
    Locator::least(alloc)
}

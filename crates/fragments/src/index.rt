//! An index that finds the fragment of a cell, and the cells that an edit deleted.
ghost use Rattle.std.specs.Prelude.{◌≡◌, ◌+◌, ◌^◌, ◌≤◌, ◌<◌, [], length, IfOk, OnErr, OnOk};
ghost use Rattle.std.specs.Option.{option_copied};
ghost use Rattle.std.specs.List.{filter, find};
ghost use Rattle.fragments.specs.declared.index_entry.IndexEntry.{IndexEntry};
ghost use Rattle.fragments.specs.Index.{IsAscending, with_entry, with_entries, entry_for, entry_or, id_for, first_from, starts_at};
ghost use Rattle.fragments.specs.DeletedRuns.{AreNumbered, few_runs, with_insertion, delete_run, is_run_of, is_below, run_from};

use crate::OutOfMemory;
use crate::deleted_run::DeletedRun;
use crate::index_entry::{IndexEntry, IndexKey};
use crate::recent::RecentEntries;
use lamport_clock::{Lamport, is_same};
use locators::Locator;
use std::alloc::Global;
use std::cmp::Reverse;
use std::marker::Model;
use sum_tree::SumTree;
use tree_cursor::{Bias, Greatest, look_up};

// The most runs that an index keeps, as many as a tree has items.
const MOST_RUNS: u64 = 1 << 40;

/// The ids of fragments, by the cell that each begins with, and the runs of cells that edits deleted. Contracts see the
/// list of its entries, ascending by stamp, then descending by offset, and that of its runs, ascending by the edit that
/// deleted them, then descending by number. The entries that were added last lie in a short list beside the tree of the
/// others, so most additions change no node.
#[derive(Drop)]
pub struct InsertionIndex {
    entries: SumTree<IndexEntry>,
    recent: RecentEntries,
    deletions: SumTree<DeletedRun>,
}

impl Model for InsertionIndex {
    ghost use Rattle.std.specs.Prelude.{◌^◌, ◌≤◌, length};
    ghost use Rattle.fragments.specs.Index.{IsAscending, with_entries};
    ghost use Rattle.fragments.specs.DeletedRuns.{IndexState, AreNumbered};

    ghost Value = { IndexState };

    ghost view = { λ m. record {
      entries = with_entries m.recent m.entries.items;
      deletions = m.deletions.items;
    } };

    ghost invariant = { λ m. IsAscending m.entries.items × AreNumbered m.deletions.items
        × (length (with_entries m.recent m.entries.items) ≤ 2 ^ 40) };
}

impl InsertionIndex {
    /// An empty index. Fails only if an allocation fails.
    pub fn new(alloc: Global) -> Result<InsertionIndex, OutOfMemory>
        ensures { IfOk result (λ m. m ≡ record { entries = []; deletions = [] }) }
    {
        let entries = SumTree::new(alloc)?;
        let recent = RecentEntries::new(alloc)?;
        let deletions = SumTree::new(alloc)?;
        Ok(InsertionIndex {
            entries,
            recent,
            deletions,
        })
    }

    /// Another index with the same entries and runs, in constant time; nothing is copied. Fails only if `Arc` cannot
    /// count another owner.
    pub fn share(&self) -> Result<InsertionIndex, OutOfMemory>
        ensures { IfOk result (λ m. m ≡ self.now) }
    {
        let entries = self.entries.share()?;
        let recent = self.recent.share()?;
        let deletions = self.deletions.share()?;
        Ok(InsertionIndex {
            entries,
            recent,
            deletions,
        })
    }

    /// The number of entries. O(log n), does not allocate.
    pub fn len(&self) -> u64
        ensures { result ≡ length self.now.entries }
    {
        count(&self.entries, self.recent.as_slice())
    }

    /// Makes room for a few additions: if the list of the last entries has room for less than three, they go into the
    /// tree, in place where no other index shares the nodes. O(log n).
    ///
    /// # Errors
    ///
    /// Fails only if an allocation fails.
    pub fn make_room(&mut self, alloc: Global) -> Result<(), OutOfMemory>
        ensures { self.new ≡ self.old }
    {
        self.recent.make_room(alloc, 3, &mut self.entries)
    }

    /// Sets the id of the fragment that begins with cell `offset` of an edit, and replaces the one set for that cell
    /// before. There must then be at most 2^40 entries. O(log n).
    ///
    /// # Errors
    ///
    /// Fails only if an allocation fails. The index is then as before.
    pub fn add(
        &mut self,
        alloc: Global,
        stamp: Lamport,
        offset: u64,
        id: Locator,
    ) -> Result<(), OutOfMemory>
        requires { length (with_entry (record { stamp = stamp; offset = offset; id = id })
            self.old.entries) ≤ 2 ^ 40 }
        ensures ok { OnOk result (self.new
            ≡ with_insertion (record { stamp = stamp; offset = offset; id = id }) self.old) }
        ensures err { OnErr result (self.new ≡ self.old) }
    {
        self.recent.make_room(alloc, 1, &mut self.entries)?;
        self.recent.push(alloc, IndexEntry { stamp, offset, id })?;
        Ok(())
    }

    /// The id of the fragment that has cell `offset` of an edit, if there is one: that of the edit's entry with the
    /// greatest offset that is at most this one. One descent, and a look at 12 entries at most: O(log n). Does not
    /// allocate.
    pub fn find(&self, stamp: Lamport, offset: u64) -> Option<&Locator>
        ensures { option_copied result ≡ id_for stamp offset self.now.entries }
    {
        match entry_for(&self.entries, self.recent.as_slice(), stamp, offset) {
            Some(entry) => Some(&entry.id),
            None => None,
        }
    }

    /// Adds a run of `len` cells of the edit `stamp`, from its cell `offset` on, that the edit `edit` deleted. An index
    /// that has 2^40 runs stays as it is: `has_all_runs` then says that some may lack. O(log n) in the number of runs.
    ///
    /// # Errors
    ///
    /// Fails only if an allocation fails. The index is then as before.
    pub fn add_deleted(
        &mut self,
        alloc: Global,
        edit: Lamport,
        stamp: Lamport,
        offset: u64,
        len: u64,
    ) -> Result<(), OutOfMemory>
        ensures ok { OnOk result (self.new ≡ delete_run edit stamp offset len self.old) }
        ensures err { OnErr result (self.new ≡ self.old) }
    {
        let number = self.deletions.len();
        if number >= MOST_RUNS {
            return Ok(());
        }
        let run = DeletedRun {
            edit,
            number,
            stamp,
            offset,
            len,
        };
        self.deletions.insert(alloc, run)?;
        Ok(())
    }

    /// Whether the index has every run that was added to it: it has fewer than 2^40, the most that it keeps. O(1), does
    /// not allocate.
    pub fn has_all_runs(&self) -> bool
        ensures { result ≡ few_runs self.now.deletions }
    {
        self.deletions.len() < MOST_RUNS
    }

    /// The runs of cells that an edit deleted, the last one added first. O(k log n) for k runs among n.
    ///
    /// # Errors
    ///
    /// Fails only if an allocation fails.
    pub fn deleted_by(&self, alloc: Global, edit: Lamport) -> Result<Vec<DeletedRun>, OutOfMemory>
        ensures { IfOk result (λ rs. rs.items ≡ filter (is_run_of edit) self.now.deletions) }
    {
        let mut runs = Vec::new(alloc);
        let mut below = self.deletions.len();
        while below > 0 {
            let Some(run) = run_below(&self.deletions, edit, below) else {
                return Ok(runs);
            };
            runs.push(*run)?;
            below = run.number;
        }
        Ok(runs)
    }
}

// The number of entries in a tree with those of a list put into it.
fn count(entries: &SumTree<IndexEntry>, recent: &[IndexEntry]) -> u64
    requires ascending { IsAscending entries.now.items }
    requires short { length (with_entries recent.now entries.now.items) ≤ 2 ^ 40 }
    ensures { result ≡ length (with_entries recent.now entries.now.items) }
{
    let mut count = entries.len();
    for i in 0..recent.len() {
        count += added_by(entries, &recent[..i], &recent[i]);
    }
    count
}

// How many entries there are more with this one in a tree with entries of a list put into it: none if it replaces one.
fn added_by(entries: &SumTree<IndexEntry>, recent: &[IndexEntry], entry: &IndexEntry) -> u64
    requires { IsAscending entries.now.items }
    ensures { length (with_entries recent.now entries.now.items) + result
        ≡ length (with_entry entry.now (with_entries recent.now entries.now.items)) }
{
    let found = entry_for(entries, recent, entry.stamp, entry.offset);
    if starts_at(found, entry.offset) { 0 } else { 1 }
}

// Whether an entry was found that begins at this cell.
fn starts_at(found: Option<&IndexEntry>, offset: u64) -> bool
    ensures { result ≡ starts_at offset (option_copied found.entry) }
{
    match found {
        Some(entry) => entry.offset == offset,
        None => false,
    }
}

// The entry of an edit with the greatest offset that is at most this one, in a tree with entries of a list put into it.
fn entry_for<'a>(
    entries: &'a SumTree<IndexEntry>,
    recent: &'a [IndexEntry],
    stamp: Lamport,
    offset: u64,
) -> Option<&'a IndexEntry>
    requires { IsAscending entries.now.items }
    ensures { option_copied result
        ≡ entry_for stamp offset (with_entries recent.now entries.now.items) }
{
    let mut found = entry_in(entries, stamp, offset);
    for entry in recent {
        found = nearer(entry, found, stamp, offset);
    }
    found
}

// The same in the tree alone.
fn entry_in(entries: &SumTree<IndexEntry>, stamp: Lamport, offset: u64) -> Option<&IndexEntry>
    requires { IsAscending entries.now.items }
    ensures { option_copied result ≡ entry_for stamp offset entries.now.items }
{
    let key = IndexKey {
        stamp,
        offset: Reverse(offset),
    };
    let Some(entry) = first_from(entries, key) else {
        return None;
    };
    if is_same(entry.stamp, stamp) {
        return Some(entry);
    }
    None
}

// Of an entry and one found before it, the nearer one to this cell.
fn nearer<'a>(
    entry: &'a IndexEntry,
    found: Option<&'a IndexEntry>,
    stamp: Lamport,
    offset: u64,
) -> Option<&'a IndexEntry>
    ensures { option_copied result ≡ entry_or stamp offset entry.now (option_copied found.entry) }
{
    if !is_same(entry.stamp, stamp) || offset < entry.offset {
        return found;
    }
    match found {
        Some(other) if entry.offset < other.offset => found,
        _ => Some(entry),
    }
}

// The run of an edit with the greatest number below this one.
fn run_below(runs: &SumTree<DeletedRun>, edit: Lamport, below: u64) -> Option<&DeletedRun>
    requires numbered { AreNumbered runs.now.items }
    requires some { 0 < below }
    ensures { option_copied result ≡ find (is_below edit below) runs.now.items }
{
    let key = IndexKey {
        stamp: edit,
        offset: Reverse(below - 1),
    };
    let Some(run) = run_from(runs, key) else {
        return None;
    };
    if is_same(run.edit, edit) {
        return Some(run);
    }
    None
}

// The first entry that does not come before a key.
fn first_from(entries: &SumTree<IndexEntry>, key: IndexKey) -> Option<&IndexEntry>
    ensures { option_copied result ≡ first_from key entries.now.items }
{
    let start = Greatest { key: None };
    let target = Greatest { key: Some(key) };
    look_up(entries, start, &target, Bias::Left).0
}

// The first run that does not come before a key.
fn run_from(runs: &SumTree<DeletedRun>, key: IndexKey) -> Option<&DeletedRun>
    ensures { option_copied result ≡ run_from key runs.now.items }
{
    let start = Greatest { key: None };
    let target = Greatest { key: Some(key) };
    look_up(runs, start, &target, Bias::Left).0
}

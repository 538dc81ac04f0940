//! The greatest counts of edits.
ghost use Rattle.std.specs.Prelude.{◌≡◌, ℕ, ◌+◌, ◌^◌, ◌<◌, ◌≤◌, [], max, true, false, slice_index_or, length, IsOk, IfOk, OnErr, OnOk, if◌then◌else◌, ◌&&◌, Bool};
ghost use Rattle.std.specs.Option.{option_copied};
ghost use Rattle.undo_map.specs.declared.entry.UndoEntry.{UndoEntry};
ghost use Rattle.lamport_clock.specs.declared.stamp.Lamport.{Lamport};
ghost use Rattle.lamport_clock.specs.Stamps.{same_stamp};
ghost use Rattle.lamport_clock.specs.Versions.{Entries, sees};
ghost use Rattle.undo_map.specs.Counts.{count_of, count_seen, is_odd, with_count, count_at_key, greatest, counts_for, is_seen, is_earlier, IsAscending};

use crate::{OutOfMemory, UndoEntry, UndoKey};
use lamport_clock::{Lamport, Version, is_same};
use std::alloc::Global;
use std::marker::Model;
use sum_tree::SumTree;
use tree_cursor::{Bias, Cursor, Greatest};

/// Which undo gives which count to which edit. Contracts see it as the list of its entries, ascending by edit, then by
/// undo.
#[derive(Drop)]
pub struct UndoMap {
    entries: SumTree<UndoEntry>,
}

impl Model for UndoMap {
    ghost use Rattle.std.specs.Prelude.{List};
    ghost use Rattle.undo_map.specs.declared.entry.UndoEntry.{UndoEntry};
    ghost use Rattle.undo_map.specs.Counts.{IsAscending};

    ghost Value = { List UndoEntry };

    ghost view = { λ m. m.entries.items };

    ghost invariant = { λ m. IsAscending m.entries.items };
}

impl UndoMap {
    /// No counts.
    pub fn new(alloc: Global) -> Result<UndoMap, OutOfMemory>
        ensures { IfOk result (λ m. m ≡ []) }
    {
        Ok(UndoMap {
            entries: SumTree::new(alloc)?,
        })
    }

    /// A second owner of the same entries.
    pub fn share(&self) -> Result<UndoMap, OutOfMemory>
        ensures { IfOk result (λ m. m ≡ self.now) }
    {
        Ok(UndoMap {
            entries: self.entries.share()?,
        })
    }

    /// How many counts are kept.
    pub fn len(&self) -> u64
        ensures { result ≡ length self.now }
    {
        self.entries.len()
    }

    /// Keeps the count that the undo `by` gives an edit, or the greater one that it gave before. Afterwards there are
    /// at most 2^40 entries. Logarithmic in their number; on want of memory all is as before.
    pub fn set(
        &mut self,
        alloc: Global,
        edit: Lamport,
        by: Lamport,
        count: u32,
    ) -> Result<(), OutOfMemory>
        requires { length (with_count (record { edit = edit; by = by; count = count }) self.old)
            ≤ 2 ^ 40 }
        ensures ok { OnOk result (self.new
            ≡ with_count (record { edit = edit; by = by; count = count }) self.old) }
        ensures grows { OnOk result (length self.new ≤ length self.old + 1) }
        ensures counts { OnOk result ((t : Lamport)
            → count_of self.new t
            ≡ max (count_of self.old t) (if same_stamp edit t then count else 0)) }
        ensures counts_seen { OnOk result ((t : Lamport) (v : Entries)
            → count_seen self.new t v
            ≡ max (count_seen self.old t v) (if same_stamp edit t && sees v by then count else 0)) }
        ensures err { OnErr result (self.new ≡ self.old) }
    {
        let kept = kept_count(&self.entries, UndoKey { edit, by });
        let entry = UndoEntry {
            edit,
            by,
            count: count.max(kept),
        };
        self.entries.insert(alloc, entry)?;
        Ok(())
    }

    /// The greatest count that an undo gives an edit, 0 where none does. One descent to the edit's first entry, and then
    /// the edit's entries alone. It takes no memory.
    pub fn count(&self, edit: Lamport) -> u32
        ensures { result ≡ count_of self.now edit }
    {
        greatest(&self.entries, edit, None)
    }

    /// The greatest count that an undo which the version sees gives an edit. It looks where `count` does.
    pub fn count_at(&self, edit: Lamport, at: &Version) -> u32
        ensures { result ≡ count_seen self.now edit at.now }
    {
        greatest(&self.entries, edit, Some(at))
    }

    /// Whether an edit is undone: its count is odd.
    pub fn is_undone(&self, edit: Lamport) -> bool
        ensures { result ≡ is_odd (count_of self.now edit) }
    {
        self.count(edit) % 2 == 1
    }

    /// Whether an edit was undone at the version.
    pub fn was_undone(&self, edit: Lamport, at: &Version) -> bool
        ensures { result ≡ is_odd (count_seen self.now edit at.now) }
    {
        self.count_at(edit, at) % 2 == 1
    }
}

// The count that an undo has given an edit so far, 0 where none.
fn kept_count(entries: &SumTree<UndoEntry>, key: UndoKey) -> u32
    requires ascending { IsAscending entries.now.items }
    ensures { result ≡ count_at_key key entries.now.items }
{
    match entries.find(&key) {
        Some(entry) => entry.count,
        None => 0,
    }
}

// A cursor on the first entry that is of no earlier edit. All entries of earlier ones stand before it.
fn entries_from(
    entries: &SumTree<UndoEntry>,
    edit: Lamport,
) -> Cursor<'_, UndoEntry, Greatest<UndoKey>>
    requires ascending { IsAscending entries.now.items }
    ensures items { result.items ≡ entries.now.items }
    ensures within { result.index ≤ length entries.now.items }
    ensures early { (k : ℕ) (d : UndoEntry) → k < result.index
        → is_earlier edit (slice_index_or entries.now.items k d) ≡ true }
    ensures late { (k : ℕ) (d : UndoEntry) → result.index ≤ k → k < length entries.now.items
        → is_earlier edit (slice_index_or entries.now.items k d) ≡ false }
{
    let Ok(mut cursor) = Cursor::new(entries, Greatest { key: None }) else {
        unreachable!()
    };
    let first = UndoKey {
        edit,
        by: Lamport {
            value: 0,
            replica: 0,
        },
    };
    let Ok(()) = cursor.seek(&Greatest { key: Some(first) }, Bias::Left) else {
        unreachable!()
    };
    cursor
}

// What an entry of the edit counts at the version.
fn entry_count(entry: &UndoEntry, at: Option<&Version>) -> u32
    ensures { result ≡ (if is_seen
        (option_copied at.entry) entry.now.by then entry.now.count else 0) }
{
    match at {
        Some(version) if !version.sees(entry.by) => 0,
        _ => entry.count,
    }
}

// The greatest count of an edit at the version, where one is given.
fn greatest(entries: &SumTree<UndoEntry>, edit: Lamport, at: Option<&Version>) -> u32
    requires ascending { IsAscending entries.now.items }
    ensures { result ≡ greatest (counts_for edit (option_copied at.entry)) entries.now.items }
{
    let mut greatest = 0;
    let mut cursor = entries_from(entries, edit);
    while let Some(entry) = cursor.item() {
        if !is_same(entry.edit, edit) {
            return greatest;
        }
        greatest = greatest.max(entry_count(entry, at));
        let Ok(()) = cursor.next() else {
            unreachable!()
        };
    }
    greatest
}

//! The entries that were added last to an index, in a short list that its copies share.
ghost use Rattle.std.specs.Prelude.{◌≡◌, ◌^◌, ◌≤◌, [], ◌∷◌, ◌++◌, length, IfOk, OnErr, OnOk};
ghost use Rattle.fragments.specs.Index.{IsAscending, with_entries};

use crate::OutOfMemory;
use crate::index_entry::IndexEntry;
use std::alloc::Global;
use std::marker::Model;
use std::sync::Arc;
use sum_tree::{Item, SumTree};

// The most entries of a list.
const MOST: usize = 12;

/// Entries in the order in which they were added. A copy shares them, so it does not allocate; of lists that share
/// their entries, the one that changes copies them first. Contracts see the list.
#[derive(Drop)]
pub(crate) struct RecentEntries {
    entries: Arc<Vec<IndexEntry>>,
}

impl Model for RecentEntries {
    ghost use Rattle.std.specs.Prelude.{List};
    ghost use Rattle.std.specs.Arc.{arc_value};
    ghost use Rattle.fragments.specs.declared.index_entry.IndexEntry.{IndexEntry};

    ghost Value = { List IndexEntry };

    ghost view = { λ r. (arc_value r.entries).items };
}

impl RecentEntries {
    /// No entries. Fails only if an allocation fails.
    pub(crate) fn new(alloc: Global) -> Result<RecentEntries, OutOfMemory>
        ensures { IfOk result (λ r. r ≡ []) }
    {
        let entries = Arc::new(alloc, Vec::new(alloc))?;
        Ok(RecentEntries { entries })
    }

    /// The same entries, shared. Does not allocate; fails only if `Arc` cannot count another owner.
    pub(crate) fn share(&self) -> Result<RecentEntries, OutOfMemory>
        ensures { IfOk result (λ r. r ≡ self.now) }
    {
        let entries = Arc::try_clone(&self.entries)?;
        Ok(RecentEntries { entries })
    }

    /// The entries.
    pub(crate) fn as_slice(&self) -> &[IndexEntry]
        ensures { result.now ≡ self.now }
    {
        self.entries.as_slice()
    }

    /// Adds an entry as the last one.
    ///
    /// # Errors
    ///
    /// Fails only if an allocation fails. The list is then as before, and the entry is dropped.
    pub(crate) fn push(&mut self, alloc: Global, entry: IndexEntry) -> Result<(), OutOfMemory>
        ensures ok { OnOk result (self.new ≡ self.old ++ entry ∷ []) }
        ensures err { OnErr result (self.new ≡ self.old) }
    {
        match Arc::get_mut(&mut self.entries) {
            Some(alone) => {
                alone.push(entry)?;
                Ok(())
            }
            None => {
                let mut copy = copies(alloc, &self.entries)?;
                copy.push(entry)?;
                self.entries = Arc::new(alloc, copy)?;
                Ok(())
            }
        }
    }

    /// Makes room for a number of entries: if the list lacks that room, its entries go into a tree, in place where no
    /// other tree shares the nodes.
    ///
    /// # Errors
    ///
    /// Fails only if an allocation fails. Some entries may then be in the tree, and no longer in the list.
    pub(crate) fn make_room(
        &mut self,
        alloc: Global,
        more: usize,
        tree: &mut SumTree<IndexEntry>,
    ) -> Result<(), OutOfMemory>
        requires few { more ≤ 12 }
        requires ascending { IsAscending tree.old.items }
        requires short { length (with_entries self.old tree.old.items) ≤ 2 ^ 40 }
        ensures ascending { IsAscending tree.new.items }
        ensures same { with_entries self.new tree.new.items
            ≡ with_entries self.old tree.old.items }
    {
        if self.entries.len() <= MOST - more {
            return Ok(());
        }
        self.move_into(alloc, tree)
    }

    // Moves the entries into a tree.
    fn move_into(
        &mut self,
        alloc: Global,
        tree: &mut SumTree<IndexEntry>,
    ) -> Result<(), OutOfMemory>
        requires ascending { IsAscending tree.old.items }
        requires short { length (with_entries self.old tree.old.items) ≤ 2 ^ 40 }
        ensures ascending { IsAscending tree.new.items }
        ensures same { with_entries self.new tree.new.items
            ≡ with_entries self.old tree.old.items }
    {
        match Arc::get_mut(&mut self.entries) {
            Some(alone) => move_in(alloc, alone, tree),
            None => {
                let mut copy = copies(alloc, &self.entries)?;
                let mut whole = tree.share()?;
                move_in(alloc, &mut copy, &mut whole)?;
                self.entries = Arc::new(alloc, copy)?;
                *tree = whole;
                Ok(())
            }
        }
    }
}

// Copies of entries, with room for the most.
fn copies(alloc: Global, entries: &[IndexEntry]) -> Result<Vec<IndexEntry>, OutOfMemory>
    ensures { IfOk result (λ v. v.items ≡ entries.now) }
{
    let mut out = Vec::with_capacity(alloc, MOST)?;
    for entry in entries {
        out.push(entry.copy(alloc)?)?;
    }
    Ok(out)
}

// Moves entries into a tree, one by one from the first on. If an allocation fails, the others stay in the list.
fn move_in(
    alloc: Global,
    entries: &mut Vec<IndexEntry>,
    tree: &mut SumTree<IndexEntry>,
) -> Result<(), OutOfMemory>
    requires ascending { IsAscending tree.old.items }
    requires short { length (with_entries entries.old.items tree.old.items) ≤ 2 ^ 40 }
    ensures ascending { IsAscending tree.new.items }
    ensures same { with_entries entries.new.items tree.new.items
        ≡ with_entries entries.old.items tree.old.items }
{
    while let Some(first) = entries.first() {
        let entry = first.copy(alloc)?;
        tree.insert(alloc, entry)?;
        entries.remove(0);
    }
    Ok(())
}

//! The count that an undo gives an edit.
ghost use Rattle.std.specs.Prelude.{◌≡◌, Some};
ghost use Rattle.undo_map.specs.Counts.{key_of};

use crate::OutOfMemory;
use lamport_clock::Lamport;
use std::alloc::Global;
use sum_tree::{Item, KeyedItem};
use tree_cursor::Greatest;

/// What counts are ordered by: the edit, then the undo.
#[derive(Clone, Copy, Debug, PartialEq, Eq, PartialOrd, Ord)]
pub struct UndoKey {
    pub edit: Lamport,
    pub by: Lamport,
}

/// The count that the undo `by` gives an edit.
#[derive(Clone, Copy, Debug, PartialEq, Eq)]
pub struct UndoEntry {
    pub edit: Lamport,
    pub by: Lamport,
    pub count: u32,
}

impl Item for UndoEntry {
    type Summary = Greatest<UndoKey>;

    ghost sum_of = { λ e. record { key = Some (key_of e) } };

    ghost admitted = { λ e. tt };

    ghost is_single = { λ e. tt };

    fn summary(&self, _alloc: Global) -> Result<Greatest<UndoKey>, OutOfMemory> {
        Ok(Greatest {
            key: Some(self.key()),
        })
    }

    fn copy(&self, _alloc: Global) -> Result<UndoEntry, OutOfMemory> {
        Ok(*self)
    }
}

impl KeyedItem for UndoEntry {
    type Key = UndoKey;

    ghost key_of = { key_of };

    fn key(&self) -> UndoKey {
        UndoKey {
            edit: self.edit,
            by: self.by,
        }
    }

    fn last_key(sum: &Greatest<UndoKey>) -> Option<UndoKey> {
        sum.key
    }
}

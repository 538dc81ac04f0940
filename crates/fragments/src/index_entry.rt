//! Entries of an index, and their keys.
ghost use Rattle.std.specs.Prelude.{◌≡◌, Some, IfOk};
ghost use Rattle.fragments.specs.Index.{key_of};

use crate::OutOfMemory;
use lamport_clock::Lamport;
use locators::Locator;
use std::alloc::Global;
use std::cmp::Reverse;
use sum_tree::{Item, KeyedItem};
use tree_cursor::Greatest;

/// The key of an entry: the edit, then the number of the first cell, the greatest first. So of one edit's entries, the
/// one with the greatest number that is at most n is the first that does not come before n.
#[derive(Clone, Copy, PartialEq, Eq, PartialOrd, Ord)]
pub struct IndexKey {
    pub stamp: Lamport,
    pub offset: Reverse<u64>,
}

/// The id of the fragment that begins with this cell of an edit.
#[derive(Drop)]
pub struct IndexEntry {
    pub stamp: Lamport,
    pub offset: u64,
    pub id: Locator,
}

impl Item for IndexEntry {
    type Summary = Greatest<IndexKey>;

    ghost sum_of = { λ e. record { key = Some (key_of e) } };

    ghost admitted = { λ e. tt };

    ghost is_single = { λ e. tt };

    fn summary(&self, _alloc: Global) -> Result<Greatest<IndexKey>, OutOfMemory> {
        Ok(Greatest {
            key: Some(self.key()),
        })
    }

    fn copy(&self, alloc: Global) -> Result<IndexEntry, OutOfMemory> {
        Ok(IndexEntry {
            stamp: self.stamp,
            offset: self.offset,
            id: self.id.copy(alloc)?,
        })
    }
}

impl KeyedItem for IndexEntry {
    type Key = IndexKey;

    ghost key_of = { key_of };

    fn key(&self) -> IndexKey {
        IndexKey {
            stamp: self.stamp,
            offset: Reverse(self.offset),
        }
    }

    fn last_key(sum: &Greatest<IndexKey>) -> Option<IndexKey> {
        sum.key
    }
}

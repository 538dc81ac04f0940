//! Folds, and the numbers that they have in a map.
ghost use Rattle.std.specs.Prelude.{Some};

use crate::OutOfMemory;
use op_model::Anchor;
use std::alloc::Global;
use sum_tree::{Item, KeyedItem};
use tree_cursor::Greatest;

/// A fold: the anchors at the ends of the range that it hides.
#[derive(Clone, Copy, Debug, PartialEq, Eq)]
pub struct Fold {
    /// The Right anchor at its start.
    pub start: Anchor,
    /// The Left anchor at its end.
    pub end: Anchor,
}

/// A fold, and the number by which spans name it.
#[derive(Clone, Copy, Debug, PartialEq, Eq)]
pub struct NumberedFold {
    pub number: u64,
    pub fold: Fold,
}

impl Item for NumberedFold {
    type Summary = Greatest<u64>;

    ghost sum_of = { λ f. record { key = Some f.number } };

    ghost admitted = { λ f. tt };

    ghost is_single = { λ f. tt };

    fn summary(&self, _alloc: Global) -> Result<Greatest<u64>, OutOfMemory> {
        Ok(Greatest {
            key: Some(self.number),
        })
    }

    fn copy(&self, _alloc: Global) -> Result<NumberedFold, OutOfMemory> {
        Ok(*self)
    }
}

impl KeyedItem for NumberedFold {
    type Key = u64;

    ghost key_of = { λ f. f.number };

    fn key(&self) -> u64 {
        self.number
    }

    fn last_key(sum: &Greatest<u64>) -> Option<u64> {
        sum.key
    }
}

//! Numbers as items: with their count, and with the greatest of them.
ghost use Rattle.std.specs.Prelude.{Some};

use crate::numbered::Numbered;
use std::alloc::Global;
use sum_tree::{Count, Item, KeyedItem, OutOfMemory};
use tree_cursor::Greatest;

// A number among others that are counted.
#[derive(Clone, Copy)]
pub(crate) struct Number {
    pub(crate) key: u64,
}

impl Item for Number {
    type Summary = Count;

    ghost sum_of = { λ x. record { items = 1 } };

    ghost admitted = { λ x. tt };

    ghost is_single = { λ x. tt };

    fn summary(&self, _alloc: Global) -> Result<Count, OutOfMemory> {
        Ok(Count { items: 1 })
    }

    fn copy(&self, _alloc: Global) -> Result<Number, OutOfMemory> {
        Ok(*self)
    }
}

impl KeyedItem for Number {
    type Key = u64;

    ghost key_of = { λ x. x.key };

    fn key(&self) -> u64 {
        self.key
    }
}

impl Numbered for Number {
    ghost use Rattle.sum_tree.proofs.Counts.{counts_fit};

    ghost sums_fit = { λ xs h. counts_fit xs h };

    fn of_number(_alloc: Global, number: u64) -> Result<Number, OutOfMemory> {
        Ok(Number { key: number })
    }

    fn key_at(number: u64) -> u64 {
        number
    }

    fn number(&self) -> u64 {
        self.key
    }
}

// A number among others of which the greatest is known.
#[derive(Clone, Copy)]
pub(crate) struct Ranked {
    pub(crate) key: u64,
}

impl Item for Ranked {
    type Summary = Greatest<u64>;

    ghost sum_of = { λ x. record { key = Some x.key } };

    ghost admitted = { λ x. tt };

    ghost is_single = { λ x. tt };

    fn summary(&self, _alloc: Global) -> Result<Greatest<u64>, OutOfMemory> {
        Ok(Greatest {
            key: Some(self.key),
        })
    }

    fn copy(&self, _alloc: Global) -> Result<Ranked, OutOfMemory> {
        Ok(*self)
    }
}

impl KeyedItem for Ranked {
    type Key = u64;

    ghost key_of = { λ x. x.key };

    fn key(&self) -> u64 {
        self.key
    }
}

impl Numbered for Ranked {
    ghost sums_fit = { λ xs h. tt };

    fn of_number(_alloc: Global, number: u64) -> Result<Ranked, OutOfMemory> {
        Ok(Ranked { key: number })
    }

    fn key_at(number: u64) -> u64 {
        number
    }

    fn number(&self) -> u64 {
        self.key
    }
}

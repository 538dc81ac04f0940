//! Items that are made of numbers.
ghost use Rattle.std.specs.Prelude.{List, ◌^◌, ◌≤◌, length};
ghost use Rattle.sum_tree.specs.Laws.{fold};

use std::alloc::Global;
use sum_tree::{KeyedItem, OutOfMemory};

/// An item that is made of a number, and whose sums fit as long as a tree may be.
pub(crate) trait Numbered: KeyedItem {
    /// The item of this number. Fails if an allocation fails.
    fn of_number(alloc: Global, number: u64) -> Result<Self, OutOfMemory>;

    /// The key of the item of this number.
    fn key_at(number: u64) -> Self::Key;

    /// The number that the item was made of.
    fn number(&self) -> u64;

    ghost sums_fit: { (xs : List Self) → length xs ≤ 2 ^ 40
        → Self.Summary.fits (fold Self.Summary.empty Self.Summary.op Self.sum_of xs) };
}

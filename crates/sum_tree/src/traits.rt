//! What a tree requires of its items and of their summaries.
ghost use Rattle.std.specs.Prelude.{◌≡◌, List, IfOk, OnErr};
ghost use Rattle.sum_tree.specs.Laws.{SummaryLaws, fold};
ghost use Rattle.sum_tree.specs.Keyed.{Ascending, IsLastKey};

use crate::OutOfMemory;
use std::alloc::Global;

/// The summary of a run of items: a sum whose addition is associative and has a zero.
///
/// A sum may own memory, so `zero` and `add` take the allocator, and `add` may fail. Contracts see the zero as `empty`
/// and the addition as `op`. `fits` says which sums the type has room for; `add` requires it of its result. `admits`
/// says which values of the type occur at all, such as the lengths of some text; the laws speak only of these. `single`
/// says which sums a single item may have.
pub trait Summary: Sized + Drop {
    ghost empty: { Self };

    ghost op: { Self → Self → Self };

    ghost admits: { Self → Type 0 };

    ghost fits: { Self → Type 0 };

    ghost single: { Self → Type 0 };

    /// The sum of no items.
    fn zero(alloc: Global) -> Self
        ensures { result ≡ empty };

    /// Adds the sum of the items that follow.
    ///
    /// # Errors
    ///
    /// Fails only if an allocation fails. This sum is then as before.
    fn add(&mut self, alloc: Global, other: &Self) -> Result<(), OutOfMemory>
        requires { fits (op self.old other.now) }
        ensures ok { IfOk result (λ _. self.new ≡ op self.old other.now) }
        ensures err { OnErr result (self.new ≡ self.old) };

    /// Adds the sum of the items that follow, given that `next` is added right after it: parts of the result that
    /// adding `next` replaces may be left out. The default is `add`.
    ///
    /// # Errors
    ///
    /// Fails only if an allocation fails. This sum is then as before.
    fn add_before(&mut self, alloc: Global, other: &Self, _next: &Self) -> Result<(), OutOfMemory>
        requires sum { fits (op self.old other.now) }
        requires both { fits (op (op self.old other.now) _next.now) }
        ensures ok { IfOk result (λ _. op self.new _next.now
            ≡ op (op self.old other.now) _next.now) }
        ensures err { OnErr result (self.new ≡ self.old) }
    {
        self.add(alloc, other)
    }

    ghost laws: { SummaryLaws empty op admits fits };
}

/// An item of a tree: a value that has a summary and can be copied.
pub trait Item: Sized + Drop {
    /// The summary of a run of such items.
    type Summary: Summary;

    ghost sum_of: { Self → Self.Summary };

    /// The summary of this item alone. Fails only if an allocation fails.
    fn summary(&self, alloc: Global) -> Result<Self::Summary, OutOfMemory>
        ensures { IfOk result (λ s. s ≡ sum_of self.now) };

    /// A copy of this item. Fails only if an allocation fails.
    fn copy(&self, alloc: Global) -> Result<Self, OutOfMemory>
        ensures { IfOk result (λ x. x ≡ self.now) };

    ghost admitted: { (x : Self) → Self.Summary.admits (sum_of x) };

    ghost is_single: { (x : Self) → Self.Summary.single (sum_of x) };
}

/// An item with a key, by which a tree can be ordered.
pub trait KeyedItem: Item {
    /// The type of the keys.
    type Key: Ord + Copy;

    ghost key_of: { Self → Self.Key };

    /// The key of this item. Does not allocate.
    fn key(&self) -> Self::Key
        ensures { result ≡ key_of self.now };

    /// The key of the last of some items in ascending order of their keys, if it can be read from their sum. The
    /// default is `None`; a tree then walks down to the item. Does not allocate.
    fn last_key(_sum: &Self::Summary) -> Option<Self::Key>
        ensures { (xs : List Self) → Ascending Self.Key.cmp key_of xs
            → _sum.now ≡ fold Self.Summary.empty Self.Summary.op Self.sum_of xs
            → IsLastKey key_of xs result }
    {
        None
    }
}

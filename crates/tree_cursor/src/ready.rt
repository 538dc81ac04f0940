//! Dimensions that are ready for use: the count, and the greatest of keys, which is a summary too.
ghost use Rattle.tree_cursor.specs.Keys.{greater, key_less, cmp_less};
ghost use Rattle.std.specs.Prelude.{◌≡◌, ℕ, ◌+◌, ◌^◌, ◌<◌, ◌≤◌, Option, Some, None, Bool, nat_lt, cond, refl};

use crate::OutOfMemory;
use crate::traits::{Bias, Dimension, Moves, Plain, Target};
use std::alloc::Global;
use std::cmp::Ordering;
use sum_tree::{Count, Summary};

impl Plain for Count {
    type Value = u64;

    ghost plain = { λ c. c.items };

    ghost later = { λ p q. p ≤ q };
}

impl Moves<Count> for Count {
    ghost use Rattle.sum_tree.specs.Count.{no_items, count_sum, AnyCount};
    ghost use Rattle.tree_cursor.specs.CountingLaws.{adding_laws};

    ghost moved = { λ p s. Some (p + s.items) };

    ghost fits = { λ p s. p + s.items < 2 ^ 64 };

    ghost laws = { adding_laws no_items count_sum AnyCount AnyCount (λ s. s.items) refl
        (λ a b. refl) };
}

/// The count of items is a place: the index of what follows.
impl<'a> Dimension<'a, Count> for Count {
    fn try_add(self, s: &'a Count) -> Option<Count> {
        Some(Count {
            items: self.items + s.items,
        })
    }
}

/// A count is a target: the index that it is.
impl Target<Count> for Count {
    ghost use Rattle.tree_cursor.specs.Counting.{number_passes};
    ghost use Rattle.tree_cursor.specs.CountingLaws.{number_stays};

    ghost passes = { λ g p b. number_passes g.items p b };

    ghost stays = { λ g p q b h l. number_stays g.items p q b h l };

    fn passed(&self, at: Count, bias: Bias) -> bool {
        match bias {
            Bias::Left => self.items <= at.items,
            Bias::Right => self.items < at.items,
        }
    }
}

/// A summary of items with keys, which tells the greatest of them.
pub trait KeySummary: Summary {
    /// What the items are ordered by.
    type Key: Ord + Copy;

    ghost key_of: { Self → Option Self.Key };

    /// The greatest key of the items, the first of equal ones; None where there is no item. Takes no memory.
    fn greatest_key(&self) -> Option<Self::Key>
        ensures { result ≡ key_of self.now };

    ghost no_key: { key_of Self.empty ≡ None };

    ghost greater_key: { (a b : Self) → Self.admits a → Self.admits b
        → key_of (Self.op a b) ≡ greater (cmp_less Self.Key.cmp) (key_of a) (key_of b) };
}

/// The greatest key of a run of items, the first of equal ones; None where there is no item. It is a summary of items
/// with keys, and a place: the greatest key so far, where None is before all keys.
#[derive(Clone, Copy, Debug, PartialEq, Eq)]
pub struct Greatest<K> {
    pub key: Option<K>,
}

impl<K: Ord + Copy> Summary for Greatest<K> {
    ghost use Rattle.tree_cursor.specs.Sums.{nothing_greatest, greatest_sum, AnyGreatest};
    ghost use Rattle.tree_cursor.specs.SumLaws.{greatest_laws};

    ghost empty = { nothing_greatest };

    ghost op = { greatest_sum K.cmp };

    ghost admits = { AnyGreatest };

    ghost fits = { AnyGreatest };

    ghost single = { AnyGreatest };

    ghost laws = { greatest_laws K.cmp K.total };

    fn zero(_alloc: Global) -> Greatest<K> {
        Greatest { key: None }
    }

    fn add(&mut self, _alloc: Global, other: &Greatest<K>) -> Result<(), OutOfMemory> {
        self.key = greater(self.key, other.key);
        Ok(())
    }
}

impl<K: Ord + Copy> KeySummary for Greatest<K> {
    type Key = K;

    ghost key_of = { λ g. g.key };

    ghost no_key = { refl };

    ghost greater_key = { λ a b f g. refl };

    fn greatest_key(&self) -> Option<K> {
        self.key
    }
}

impl<K: Ord + Copy> Plain for Greatest<K> {
    type Value = Option<K>;

    ghost use Rattle.tree_cursor.specs.Keys.{IsLaterKey, cmp_less};

    ghost plain = { λ g. g.key };

    ghost later = { IsLaterKey (cmp_less K.cmp) };
}

impl<K: Ord + Copy, S: KeySummary<Key = K>> Moves<S> for Greatest<K> {
    ghost use Rattle.tree_cursor.specs.Keys.{greater, cmp_less};
    ghost use Rattle.tree_cursor.specs.KeyLaws.{key_laws, order_less};

    ghost moved = { λ p s. Some (greater (cmp_less K.cmp) p (S.key_of s)) };

    ghost fits = { λ p s. Unit };

    ghost laws = { key_laws (cmp_less K.cmp) (order_less K.cmp K.total) S.empty S.op S.admits
        S.single S.key_of S.no_key S.greater_key };
}

impl<'a, K: Ord + Copy, S: KeySummary<Key = K>> Dimension<'a, S> for Greatest<K> {
    fn try_add(self, s: &'a S) -> Option<Greatest<K>> {
        Some(Greatest {
            key: greater(self.key, s.greatest_key()),
        })
    }
}

/// A key is a target: a seek stops at the first item whose key is at least the target's (Left) or greater (Right),
/// where the keys ascend.
impl<K: Ord + Copy> Target<Greatest<K>> for Greatest<K> {
    ghost use Rattle.tree_cursor.specs.Keys.{key_passes, cmp_less};
    ghost use Rattle.tree_cursor.specs.KeyLaws.{key_stays, order_less};

    ghost passes = { λ g p b. key_passes (cmp_less K.cmp) g.key p b };

    ghost stays = { λ g p q b h l. key_stays (cmp_less K.cmp)
        (order_less K.cmp K.total) g.key p q b h l };

    fn passed(&self, at: Greatest<K>, bias: Bias) -> bool {
        match bias {
            Bias::Left => !key_less(at.key, self.key),
            Bias::Right => key_less(self.key, at.key),
        }
    }
}

// The greater of two keys, the first where neither is less.
fn greater<K: Ord + Copy>(a: Option<K>, b: Option<K>) -> Option<K>
    ensures { result ≡ greater (cmp_less K.cmp) a b }
{
    match (a, b) {
        (None, b) => b,
        (a, None) => a,
        (Some(x), Some(y)) => match x.cmp(&y) {
            Ordering::Less => Some(y),
            Ordering::Equal | Ordering::Greater => Some(x),
        },
    }
}

// Whether a key is less than another; no key is less than all.
fn key_less<K: Ord + Copy>(a: Option<K>, b: Option<K>) -> bool
    ensures { result ≡ key_less (cmp_less K.cmp) a b }
{
    match (a, b) {
        (_, None) => false,
        (None, Some(_)) => true,
        (Some(x), Some(y)) => match x.cmp(&y) {
            Ordering::Less => true,
            Ordering::Equal | Ordering::Greater => false,
        },
    }
}

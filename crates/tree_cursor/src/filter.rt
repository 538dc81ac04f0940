//! A cursor over the items that a filter keeps.
ghost use Rattle.std.specs.Prelude.{◌≡◌, ◌+◌, ◌-◌, ◌^◌, ◌≤◌, IsOk, IfOk, slice_get, take, drop, length, min};
ghost use Rattle.std.specs.Option.{option_copied};
ghost use Rattle.sum_tree.specs.Laws.{fold};
ghost use Rattle.tree_cursor.specs.Halts.{index_behind};
ghost use Rattle.tree_cursor.specs.Places.{place_behind, filter_count};

use crate::OutOfMemory;
use crate::path::Path;
use crate::traits::{Dimension, Keep, Moves, Plain};
use crate::walk::{Rule, entry_item, walk};
use std::marker::Model;
use sum_tree::{Entry, Item, SumTree, Summary};

// A walk that halts at what is kept.
#[derive(Drop)]
struct Keeping<'k, K> {
    keep: &'k K,
}

impl<'k, S: Summary, D: Plain + Copy, K: Keep<S>> Rule<S, D> for Keeping<'k, K> {
    ghost halts = { λ r s q j. K.keeps r.keep.now s };

    ghost parts = { λ r a b p q i j f h l m n. K.parts r.keep.now a b f h n };

    fn halts(&self, sum: &S, _end: D, _count: u64) -> bool {
        self.keep.keep(sum)
    }
}

/// A cursor that gives, one by one, the items of a tree whose summaries are kept.
///
/// It goes over each subtree whose sum is not kept as a whole; where such a sum is too coarse for the dimension, it
/// looks inside for the place alone. Contracts see the tree's `items`, `from`, the place at which the first item
/// starts, `keep`, the index `given` of the item that was given last, and the index `next` of the first item that was
/// not looked at yet. It takes no memory.
#[derive(Drop)]
pub struct FilterCursor<'a, T: Item, D: Dimension<'a, T::Summary>, K: Keep<T::Summary>> {
    tree: &'a SumTree<T>,
    from: D,
    keep: K,
    // What was not looked at yet.
    path: Path<'a, T>,
    start: D,
    end: D,
    given: u64,
    next: u64,
}

impl<'a, T: Item, D: Dimension<'a, T::Summary>, K: Keep<T::Summary>> Model
    for FilterCursor<'a, T, D, K> {
    ghost use Rattle.tree_cursor.specs.Place.{Filtering};

    ghost Value = { Filtering T D K };

    ghost use Rattle.std.specs.Prelude.{◌≡◌, ◌≤◌, length, take, drop};
    ghost use Rattle.sum_tree.specs.Laws.{fold};
    ghost use Rattle.tree_cursor.specs.Places.{place_behind};

    ghost view = { λ a. record {
      items = a.tree.now.items;
      from = a.from;
      keep = a.keep;
      given = a.given;
      next = a.next;
    } };

    ghost invariant = { λ a. (a.next ≤ length a.tree.now.items)
        × (a.path.items ≡ drop a.next a.tree.now.items)
        × (D.plain a.start ≡ place_behind D.moved T.sum_of (D.plain a.from)
        (take a.given a.tree.now.items))
        × (D.plain a.end ≡ place_behind D.moved T.sum_of (D.plain a.from)
        (take a.next a.tree.now.items))
        × D.fits (D.plain a.end) (fold T.Summary.empty T.Summary.op T.sum_of a.path.items) };
}

impl<'a, T: Item, D: Dimension<'a, T::Summary>, K: Keep<T::Summary>> FilterCursor<'a, T, D, K> {
    /// A cursor before the first item of a tree, which starts at this place. It is always Ok.
    pub fn new(
        tree: &'a SumTree<T>,
        start: D,
        keep: K,
    ) -> Result<FilterCursor<'a, T, D, K>, OutOfMemory>
        requires { D.fits (D.plain start)
            (fold T.Summary.empty T.Summary.op T.sum_of tree.now.items) }
        ensures ok { IsOk result }
        ensures made { IfOk result (λ c. c ≡
            record { items = tree.now.items; from = start; keep = keep; given = 0; next = 0 }) }
    {
        Ok(FilterCursor {
            tree,
            from: start,
            keep,
            path: Path::new(tree),
            start,
            end: start,
            given: 0,
            next: 0,
        })
    }

    /// The next item that is kept, or None if there is no further one. It is always Ok.
    pub fn next(&mut self) -> Result<Option<&'a T>, OutOfMemory>
        ensures ok { IsOk result }
        ensures item { IfOk result (λ r. option_copied r
            ≡ slice_get self.old.items
            (self.old.next + filter_count (K.keeps self.old.keep) T.sum_of
            (drop self.old.next self.old.items))) }
        ensures moved { let i = self.old.next + filter_count (K.keeps self.old.keep) T.sum_of
            (drop self.old.next self.old.items) in self.new
            ≡ record self.old { given = i; next = min (i + 1) (length self.old.items) } }
    {
        self.tree.known();
        let halt = walk(&mut self.path, self.end, &Keeping { keep: &self.keep });
        self.start = halt.start;
        self.end = halt.end;
        self.given = self.next + halt.passed;
        self.next = index_behind(halt.item, self.given);
        Ok(entry_item(halt.item))
    }

    /// The index of the item that was given last: before the first `next` 0, and after None the number of all. Takes no
    /// memory.
    pub fn index(&self) -> u64
        ensures { result ≡ self.now.given }
    {
        self.given
    }

    /// The place at which the item starts that was given last: before the first `next` the place at which the first
    /// item starts, and after None the place at which all end. Takes no memory.
    pub fn start(&self) -> D
        ensures { D.plain result ≡ place_behind D.moved T.sum_of (D.plain self.now.from)
            (take self.now.given self.now.items) }
    {
        self.start
    }

    /// The place at which that item ends: before the first `next` the place at which the first item starts, and after
    /// None the place at which all end. Takes no memory.
    pub fn end(&self) -> D
        ensures { D.plain result ≡ place_behind D.moved T.sum_of (D.plain self.now.from)
            (take self.now.next self.now.items) }
    {
        self.end
    }
}

// The index behind an item, if there is one.
fn index_behind<T: Item>(item: Option<&Entry<T>>, index: u64) -> u64
    requires { index ≤ 2 ^ 40 }
    ensures { result ≡ index_behind item.entry index }
{
    match item {
        None => index,
        Some(_item) => index + 1,
    }
}

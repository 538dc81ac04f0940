//! A cursor: an index into a tree's list of items, with the place at which the item there starts.
ghost use Rattle.std.specs.Prelude.{◌≡◌, ◌+◌, ◌-◌, ◌*◌, ◌<◌, ◌≤◌, IsOk, IfOk, OnOk, OnErr, slice_get, slice_range, take, drop, length, min};
ghost use Rattle.std.specs.Option.{option_copied};
ghost use Rattle.sum_tree.specs.Laws.{fold};
ghost use Rattle.tree_cursor.specs.Places.{place_behind, seek_count};

use crate::OutOfMemory;
use crate::path::Path;
use crate::seek::Seeking;
use crate::traits::{Bias, Dimension, Moves, Plain, Target};
use crate::walk::{Across, Halt, entry_item, walk};
use std::alloc::Global;
use std::marker::Model;
use std::sync::ledger::Ledger;
use sum_tree::{Item, Steps, SumTree, Summary};

/// A place in a tree: an index, from 0 to the number of items, and the place in a dimension at which the item there
/// starts.
///
/// Contracts see the tree's `items` and `height`, the `index`, and `from`, the place at which the first item starts. A
/// cursor lives in the value itself and takes no memory: the calls that answer want of memory do so for the trees that
/// they make alone.
#[derive(Drop)]
pub struct Cursor<'a, T: Item, D: Dimension<'a, T::Summary>> {
    tree: &'a SumTree<T>,
    from: D,
    // What follows the item.
    path: Path<'a, T>,
    halt: Halt<'a, T, D>,
    index: u64,
}

impl<'a, T: Item, D: Dimension<'a, T::Summary>> Model for Cursor<'a, T, D> {
    ghost use Rattle.tree_cursor.specs.Place.{CursorState};

    ghost Value = { CursorState T D };

    ghost use Rattle.sum_tree.specs.Laws.{fold};
    ghost use Rattle.tree_cursor.specs.Halts.{IsAt};

    ghost view = { λ a. record {
      items = a.tree.now.items;
      height = a.tree.now.height;
      index = a.index;
      from = a.from;
    } };

    ghost invariant = { λ a. D.fits (D.plain a.from)
        (fold T.Summary.empty T.Summary.op T.sum_of a.tree.now.items)
        × IsAt D.moved D.fits T.Summary.empty T.Summary.op T.sum_of a.tree.now.items
        (D.plain a.from) a.path.items a.halt.item (D.plain a.halt.start) (D.plain a.halt.end)
        a.index };
}

impl<'a, T: Item, D: Dimension<'a, T::Summary>> Cursor<'a, T, D> {
    /// A cursor on the first item of a tree, which starts at this place. It is always Ok.
    pub fn new(tree: &'a SumTree<T>, start: D) -> Result<Cursor<'a, T, D>, OutOfMemory>
        requires { D.fits (D.plain start)
            (fold T.Summary.empty T.Summary.op T.sum_of tree.now.items) }
        ensures ok { IsOk result }
        ensures items { IfOk result (λ c. c.items ≡ tree.now.items) }
        ensures height { IfOk result (λ c. c.height ≡ tree.now.height) }
        ensures index { IfOk result (λ c. c.index ≡ 0) }
        ensures from { IfOk result (λ c. c.from ≡ start) }
    {
        tree.known();
        let mut path = Path::new(tree);
        let halt = walk(&mut path, start, &Across { items: 0 });
        Ok(Cursor {
            tree,
            from: start,
            path,
            halt,
            index: 0,
        })
    }

    /// The item that the cursor is on, or None past the last. Takes no memory.
    pub fn item(&self) -> Option<&'a T>
        ensures { option_copied result ≡ slice_get self.now.items self.now.index }
    {
        entry_item(self.halt.item)
    }

    /// The number of items before the one that the cursor is on; past the last, the number of all. Takes no memory.
    pub fn index(&self) -> u64
        ensures { result ≡ self.now.index }
    {
        self.index
    }

    /// The place at which that item starts; past the last, the place at which all end. Takes no memory.
    pub fn start(&self) -> D
        ensures { D.plain result ≡ place_behind D.moved T.sum_of (D.plain self.now.from)
            (take self.now.index self.now.items) }
    {
        self.halt.start
    }

    /// The place at which that item ends; past the last, the place at which all end. Takes no memory.
    pub fn end(&self) -> D
        ensures { D.plain result ≡ place_behind D.moved T.sum_of (D.plain self.now.from)
            (take (self.now.index + 1) self.now.items) }
    {
        self.halt.end
    }

    /// Goes on to the next item, or past the last. There it stays. It is always Ok.
    pub fn next(&mut self) -> Result<(), OutOfMemory>
        ensures ok { IsOk result }
        ensures moved { self.new ≡ record self.old {
          index = min (self.old.index + 1)
              (length self.old.items);
        } }
    {
        self.go_on();
        Ok(())
    }

    /// Goes back to the item before, or stays on the first. It descends from the root once more, and is always Ok.
    pub fn prev(&mut self) -> Result<(), OutOfMemory>
        ensures ok { IsOk result }
        ensures moved { self.new ≡ record self.old { index = self.old.index - 1 } }
    {
        if self.index > 0 {
            self.go_to(self.index - 1);
        }
        Ok(())
    }

    /// Goes forward to the first item, from the one here on, whose end is at or past the target (Left) or strictly past
    /// it (Right), or past the last item if there is none. It never goes back, and is always Ok.
    pub fn seek<G: Target<D>>(&mut self, target: &G, bias: Bias) -> Result<(), OutOfMemory>
        ensures ok { IsOk result }
        ensures moved { self.new ≡ record self.old {
          index = self.old.index
              + seek_count D.moved T.sum_of (λ p. G.passes target.now p bias)
              (place_behind D.moved T.sum_of (D.plain self.old.from)
              (take self.old.index self.old.items)) (drop self.old.index self.old.items);
        } }
    {
        self.pass(target, bias);
        Ok(())
    }

    /// Goes to where a seek goes, and gives the items that it goes over as a tree, which shares each subtree that lies
    /// within them. On want of memory the cursor stands where it stood.
    pub fn slice<G: Target<D>>(
        &mut self,
        alloc: Global,
        target: &G,
        bias: Bias,
    ) -> Result<SumTree<T>, OutOfMemory>
        ensures items { IfOk result (λ t. t.items
            ≡ slice_range self.old.items self.old.index self.new.index) }
        ensures moved { OnOk result (self.new
            ≡ record self.old {
              index = self.old.index + seek_count D.moved T.sum_of
                  (λ p. G.passes target.now p bias)
                  (place_behind D.moved T.sum_of (D.plain self.old.from)
                  (take self.old.index self.old.items)) (drop self.old.index self.old.items);
            }) }
        ensures err { OnErr result (self.new ≡ self.old) }
    {
        let first = self.index;
        self.seek(target, bias)?;
        match cut(alloc, self.tree, first, self.index) {
            Ok(part) => Ok(part),
            Err(fault) => {
                self.go_to(first);
                Err(fault)
            }
        }
    }

    /// What `slice` does, with a step for each node made.
    pub fn slice_counted<G: Target<D>, L: Ledger>(
        &mut self,
        alloc: Global,
        target: &G,
        bias: Bias,
        steps: &mut Steps<L>,
    ) -> Result<SumTree<T>, OutOfMemory>
        ensures items { IfOk result (λ t. t.items
            ≡ slice_range self.old.items self.old.index self.new.index) }
        ensures moved { OnOk result (self.new
            ≡ record self.old {
              index = self.old.index + seek_count D.moved T.sum_of
                  (λ p. G.passes target.now p bias)
                  (place_behind D.moved T.sum_of (D.plain self.old.from)
                  (take self.old.index self.old.items)) (drop self.old.index self.old.items);
            }) }
        ensures err { OnErr result (self.new ≡ self.old) }
        ensures cost { steps.new ≤ steps.old + 8 * (self.old.height + 1) * (self.old.height + 2) }
    {
        let first = self.index;
        self.seek(target, bias)?;
        match cut_counted(alloc, self.tree, first, self.index, steps) {
            Ok(part) => Ok(part),
            Err(fault) => {
                self.go_to(first);
                Err(fault)
            }
        }
    }

    /// Goes past the last item, and gives the items from the one here on as a tree, which shares each subtree that lies
    /// within them. On want of memory the cursor stands where it stood.
    pub fn suffix(&mut self, alloc: Global) -> Result<SumTree<T>, OutOfMemory>
        ensures items { IfOk result (λ t. t.items ≡ drop self.old.index self.old.items) }
        ensures moved { OnOk result (self.new ≡ record self.old { index = length self.old.items }) }
        ensures err { OnErr result (self.new ≡ self.old) }
    {
        let rest = self.tree.drop_front(alloc, self.index)?;
        self.go_past();
        Ok(rest)
    }

    /// What `suffix` does, with a step for each node made.
    pub fn suffix_counted<L: Ledger>(
        &mut self,
        alloc: Global,
        steps: &mut Steps<L>,
    ) -> Result<SumTree<T>, OutOfMemory>
        ensures items { IfOk result (λ t. t.items ≡ drop self.old.index self.old.items) }
        ensures moved { OnOk result (self.new ≡ record self.old { index = length self.old.items }) }
        ensures err { OnErr result (self.new ≡ self.old) }
        ensures cost { steps.new ≤ steps.old + 8 * (self.old.height + 1) * (self.old.height + 2) }
    {
        let rest = self.tree.drop_front_counted(alloc, self.index, steps)?;
        self.go_past();
        Ok(rest)
    }

    // Goes on to the next item, if it is on one.
    fn go_on(&mut self)
        ensures { self.new ≡ record self.old {
          index = min (self.old.index + 1)
              (length self.old.items);
        } }
    {
        self.tree.known();
        if let Some(_item) = self.halt.item {
            self.halt = walk(&mut self.path, self.halt.end, &Across { items: 0 });
            self.index += 1;
        }
    }

    // Goes forward to where a seek goes.
    fn pass<G: Target<D>>(&mut self, target: &G, bias: Bias)
        ensures { self.new ≡ record self.old {
          index = self.old.index + seek_count D.moved T.sum_of
              (λ p. G.passes target.now p bias)
              (place_behind D.moved T.sum_of (D.plain self.old.from)
              (take self.old.index self.old.items)) (drop self.old.index self.old.items);
        } }
    {
        self.tree.known();
        if let Some(_item) = self.halt.item {
            if !target.passed(self.halt.end, bias) {
                self.halt = walk(&mut self.path, self.halt.end, &Seeking { target, bias });
                self.index += 1 + self.halt.passed;
            }
        }
    }

    // Goes past the last item.
    fn go_past(&mut self)
        ensures { self.new ≡ record self.old { index = length self.old.items } }
    {
        self.tree.known();
        let items = self.tree.len();
        if let Some(_item) = self.halt.item {
            self.halt = walk(&mut self.path, self.halt.end, &Across { items });
            self.index = items;
        }
    }

    // Goes to an index by a descent from the root.
    fn go_to(&mut self, index: u64)
        requires { index ≤ length self.old.items }
        ensures { self.new ≡ record self.old { index = index } }
    {
        self.tree.known();
        self.path = Path::new(self.tree);
        self.halt = walk(&mut self.path, self.from, &Across { items: index });
        self.index = index;
    }
}

// The items of a tree between two indexes.
fn cut<T: Item>(
    alloc: Global,
    tree: &SumTree<T>,
    first: u64,
    end: u64,
) -> Result<SumTree<T>, OutOfMemory>
    requires { first ≤ end }
    ensures { IfOk result (λ t. t.items ≡ slice_range tree.now.items first end) }
{
    let front = tree.take_front(alloc, end)?;
    Ok(front.drop_front(alloc, first)?)
}

// The same, with a step for each node made.
fn cut_counted<T: Item, L: Ledger>(
    alloc: Global,
    tree: &SumTree<T>,
    first: u64,
    end: u64,
    steps: &mut Steps<L>,
) -> Result<SumTree<T>, OutOfMemory>
    requires { first ≤ end }
    ensures items { IfOk result (λ t. t.items ≡ slice_range tree.now.items first end) }
    ensures cost { steps.new ≤ steps.old + (16 * tree.now.height + 14) }
{
    let front = tree.take_front_counted(alloc, end, steps)?;
    front.drop_front_counted(alloc, first, steps)
}

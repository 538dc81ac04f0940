//! What is left of a tree from some place on: the entries of a leaf, and at each level above the trees that follow.
ghost use Rattle.std.specs.Prelude.{◌≡◌, ◌+◌, ◌*◌, ◌<◌, ◌≤◌, ◌++◌, [], MatchOption, IfNone, IfSome};
ghost use Rattle.tree_cursor.specs.Levels.{IsBelow, IsDone, IsFirstPart, TakesInner, TakesPart, left_items, left_looks, left_work, weight};

use crate::tally::Tally;
use arrayvec::ArrayVec;
use std::marker::Model;
use sum_tree::{Entry, Item, Parts, SumTree};

// The part of what is left that comes first.
pub(crate) enum Part<'a, T: Item> {
    Node(&'a SumTree<T>),
    One(&'a Entry<T>),
}

// What is left of a node.
#[derive_where(Clone, Copy)]
enum Left<'a, T: Item> {
    Trees(&'a [SumTree<T>]),
    Entries(&'a [Entry<T>]),
}

impl<'a, T: Item> Default for Left<'a, T> {
    fn default() -> Left<'a, T> {
        Left::Entries(&[])
    }
}

// What is left of a tree from some place on. It takes no memory, since a tree has at most 16 levels.
#[derive(Drop)]
pub(crate) struct Path<'a, T: Item> {
    level: Left<'a, T>,
    // The levels above. The innermost is last, and its items come first.
    above: ArrayVec<Left<'a, T>, 15>,
}

impl<'a, T: Item> Model for Path<'a, T> {
    ghost use Rattle.tree_cursor.specs.Rest.{Rest};

    ghost Value = { Rest T };

    ghost use Rattle.std.specs.Prelude.{◌∷◌, length, reverse};
    ghost use Rattle.tree_cursor.specs.Levels.{items_left, left_items, left_looks, work_left, AreLevels};

    ghost view = { λ a. record {
      items = items_left (a.level ∷ reverse a.above.items);
      inner = left_items a.level;
      depth = length a.above.items;
      work = work_left (a.level ∷ reverse a.above.items);
      looks = left_looks a.level;
    } };

    ghost invariant = { λ a. AreLevels (a.level ∷ reverse a.above.items) };
}

// What is left of a node that is entered: all of it.
fn left_of<'a, T: Item>(node: &'a SumTree<T>) -> Left<'a, T>
    ensures items { left_items result ≡ node.now.items }
    ensures work { left_work result < weight node.now }
    ensures below { IsBelow node.now.height result }
    ensures looks { left_looks result ≤ 12 * (node.now.height + 1) }
{
    match node.parts() {
        Parts::Leaf(entries) => Left::Entries(entries),
        Parts::Inner(children) => Left::Trees(children),
    }
}

// The part that comes first, if there is one, and what is left behind it.
fn split<'a, T: Item>(left: Left<'a, T>) -> Option<(Part<'a, T>, Left<'a, T>)>
    ensures { MatchOption result (IsDone left.entry) (λ r. IsFirstPart left.entry r.0 r.1) }
{
    match left {
        Left::Trees(trees) => match trees.split_first() {
            None => None,
            Some((tree, rest)) => Some((Part::Node(tree), Left::Trees(rest))),
        },
        Left::Entries(entries) => match entries.split_first() {
            None => None,
            Some((entry, rest)) => Some((Part::One(entry), Left::Entries(rest))),
        },
    }
}

impl<'a, T: Item> Path<'a, T> {
    // Before the first item of a tree.
    pub(crate) fn new(tree: &'a SumTree<T>) -> Path<'a, T>
        ensures items { result.items ≡ tree.now.items }
        ensures inner { result.inner ≡ tree.now.items }
        ensures looks { result.looks ≤ 12 * (tree.now.height + 1) }
    {
        tree.known();
        Path {
            level: left_of(tree),
            above: ArrayVec::new(),
        }
    }

    // Goes into a node, whose items come first.
    pub(crate) fn enter(&mut self, node: &'a SumTree<T>)
        requires { self.old.depth + 1 + node.now.height ≤ 15 }
        ensures items { self.new.items ≡ node.now.items ++ self.old.items }
        ensures work { self.new.work < self.old.work + weight node.now }
        ensures inner { self.new.inner ≡ node.now.items }
        ensures looks { self.new.looks ≤ 12 * (node.now.height + 1) }
    {
        self.above.push(self.level);
        self.level = left_of(node);
    }

    // Takes the part that comes first, if anything is left. Here alone parts are looked at, and the tally is told of each.
    pub(crate) fn pop<C: Tally>(&mut self, steps: &mut C) -> Option<Part<'a, T>>
        ensures part { MatchOption result (self.old.items ≡ [])
            (λ part. TakesPart self.old part self.new) }
        ensures inner { IfSome result (λ part. TakesInner self.old part self.new) }
        ensures none { IfNone result (self.new.items ≡ []) }
        ensures step { MatchOption result (C.count steps.new ≡ C.count steps.old)
            (λ _. C.count steps.new ≡ C.count steps.old + C.step) }
    {
        loop {
            if let Some((part, rest)) = split(self.level) {
                self.level = rest;
                steps.look();
                return Some(part);
            }
            match self.above.pop() {
                None => return None,
                Some(level) => self.level = level,
            }
        }
    }
}

//! Trees whose items are in ascending order of their keys.
ghost use Rattle.std.specs.Prelude.{◌≡◌, true, ℕ, ◌+◌, ◌-◌, ◌^◌, ◌<◌, ◌≤◌, ◌++◌, length, take, drop, slice_index_or, IfOk, OnOk, OnErr, All, [], ◌∷◌};
ghost use Rattle.std.specs.Ordering.{is_lt};
ghost use Rattle.std.specs.declared.cmp.Ordering.TheVariants.{Less, Greater};
ghost use Rattle.std.specs.Option.{option_copied};
ghost use Rattle.sum_tree.specs.Laws.{fold};
ghost use Rattle.sum_tree.specs.Shape.{IsChild, join_items};
ghost use Rattle.sum_tree.specs.Keyed.{Ascending, item_of_key, insert_item, remove_key, IsPlace};

use crate::OutOfMemory;
use crate::entry::Entry;
use crate::here::push_alone;
use crate::list::list_of_one;
use crate::traits::{Item, KeyedItem, Summary};
use crate::tree::{Content, SumTree};
use std::alloc::Global;
use std::cmp::Ordering;

// The index of the entry with this key, or the index where one would be inserted.
fn place<T: KeyedItem>(entries: &[Entry<T>], key: &T::Key) -> Result<usize, usize>
    requires ascending { Ascending T.Key.cmp T.key_of entries.now }
    ensures { IsPlace T.Key.cmp T.key_of key.now entries.now result }
{
    for (i, entry) in entries.iter().enumerate() {
        match entry.item().key().cmp(key) {
            Ordering::Less => {}
            Ordering::Equal => return Ok(i),
            Ordering::Greater => return Err(i),
        }
    }
    Err(entries.len())
}

// Whether the key of the last item is less than this key.
fn ends_before<T: KeyedItem>(tree: &SumTree<T>, key: &T::Key) -> bool
    requires filled { 1 ≤ length tree.now.items }
    requires ascending { Ascending T.Key.cmp T.key_of tree.now.items }
    ensures { (d : T) → result ≡ is_lt
        (T.Key.cmp (T.key_of (slice_index_or tree.now.items (length tree.now.items - 1) d))
        key.now) }
{
    let last = match T::last_key(tree.summary()) {
        Some(last) => last,
        None => tree.end().key(),
    };
    last.cmp(key).is_lt()
}

// Whether there are items and all their keys are less than this key.
fn all_before<T: KeyedItem>(tree: &SumTree<T>, key: &T::Key) -> bool
    requires ascending { Ascending T.Key.cmp T.key_of tree.now.items }
    ensures { result ≡ true → All (λ x. T.Key.cmp (T.key_of x) key.now ≡ Less) tree.now.items }
{
    if tree.len() == 0 {
        return false;
    }
    ends_before(tree, key)
}

// The index of the child that holds a key or would hold it, and the number of items before that child.
fn child_for<T: KeyedItem>(children: &[SumTree<T>], key: &T::Key) -> (usize, u64)
    requires least { 1 ≤ length children.now }
    requires filled { All (λ t. 1 ≤ length t.items) children.now }
    requires short { length (join_items children.now) ≤ 2 ^ 40 }
    requires ascending { Ascending T.Key.cmp T.key_of (join_items children.now) }
    ensures child { result.0 < length children.now }
    ensures count { result.1 ≡ length (join_items (take result.0 children.now)) }
    ensures before { All (λ x. T.Key.cmp (T.key_of x) key.now ≡ Less)
        (join_items (take result.0 children.now)) }
    ensures behind { All (λ x. T.Key.cmp (T.key_of x) key.now ≡ Greater)
        (join_items (drop (result.0 + 1) children.now)) }
{
    let last = children.len() - 1;
    let mut before = 0;
    for k in 0..last {
        if !ends_before(&children[k], key) {
            return (k, before);
        }
        before += children[k].len();
    }
    (last, before)
}

impl<T: KeyedItem> SumTree<T> {
    // The index of the item with this key, or the index where one would be inserted.
    fn position(&self, key: &T::Key) -> Result<u64, u64>
        requires ascending { Ascending T.Key.cmp T.key_of self.now.items }
        ensures { IsPlace T.Key.cmp T.key_of key.now self.now.items result }
    {
        self.known();
        if all_before(self, key) {
            return Err(self.len());
        }
        let mut node = self;
        let mut before = 0;
        loop {
            match &node.node.content {
                Content::Leaf(entries) => {
                    return match place(entries, key) {
                        Ok(i) => Ok(before + i as u64),
                        Err(i) => Err(before + i as u64),
                    };
                }
                Content::Inner(children) => {
                    let (k, count) = child_for(children, key);
                    before += count;
                    node = &children[k];
                }
            }
        }
    }

    /// The item with this key, if there is one. The keys of the items must ascend strictly.
    ///
    /// Does not allocate. Compares the key with the last key of the tree and with those of at most 12 children or items
    /// on each level. The last key of a child is read from its sum (`KeyedItem::last_key`); if the sum does not give
    /// it, it is found by walking down the child's last path.
    pub fn find(&self, key: &T::Key) -> Option<&T>
        requires ascending { Ascending T.Key.cmp T.key_of self.now.items }
        ensures { option_copied result ≡ item_of_key T.Key.cmp T.key_of key.now self.now.items }
    {
        match self.position(key) {
            Ok(i) => Some(self.at(i)),
            Err(_) => None,
        }
    }

    // Replaces a range with one item.
    fn put_item(&mut self, alloc: Global, from: u64, to: u64, item: T) -> Result<(), OutOfMemory>
        requires order { from ≤ to }
        requires within { to ≤ length self.old.items }
        requires short { length ((take from self.old.items ++ item ∷ []) ++ drop to self.old.items)
            ≤ 2 ^ 40 }
        requires fits { T.Summary.fits (fold T.Summary.empty T.Summary.op T.sum_of
            ((take from self.old.items ++ item ∷ []) ++ drop to self.old.items)) }
        ensures ok { OnOk result (self.new.items
            ≡ (take from self.old.items ++ item ∷ []) ++ drop to self.old.items) }
        ensures err { OnErr result (self.new ≡ self.old) }
    {
        let entries = list_of_one(alloc, Entry::new(alloc, item)?)?;
        self.put(alloc, from, to, entries)
    }

    // Inserts one item before item i, or appends it, in place if possible.
    fn put_new(&mut self, alloc: Global, i: u64, item: T) -> Result<(), OutOfMemory>
        requires within { i ≤ length self.old.items }
        requires short { length ((take i self.old.items ++ item ∷ []) ++ drop i self.old.items)
            ≤ 2 ^ 40 }
        requires fits { T.Summary.fits (fold T.Summary.empty T.Summary.op T.sum_of
            ((take i self.old.items ++ item ∷ []) ++ drop i self.old.items)) }
        ensures ok { OnOk result (self.new.items
            ≡ (take i self.old.items ++ item ∷ []) ++ drop i self.old.items) }
        ensures err { OnErr result (self.new ≡ self.old) }
    {
        if i < self.len() {
            return self.put_item(alloc, i, i, item);
        }
        match push_alone(alloc, self, Entry::new(alloc, item)?)? {
            None => Ok(()),
            Some(entry) => {
                let entries = list_of_one(alloc, entry)?;
                self.put(alloc, i, i, entries)
            }
        }
    }

    /// Inserts an item by its key. An item with an equal key is replaced and returned.
    ///
    /// The keys of the items must ascend strictly; the result must have at most 2^40 items, and its sum must fit. Makes
    /// no node if no other tree shares the nodes on the path and the leaf has room; otherwise at most two nodes for
    /// each level, and one more for the root.
    ///
    /// # Errors
    ///
    /// Fails only if an allocation fails. The tree is then as before, and the item is dropped.
    pub fn insert(&mut self, alloc: Global, item: T) -> Result<Option<T>, OutOfMemory>
        requires ascending { Ascending T.Key.cmp T.key_of self.old.items }
        requires short { length (insert_item T.Key.cmp T.key_of item self.old.items) ≤ 2 ^ 40 }
        requires fits { T.Summary.fits (fold T.Summary.empty T.Summary.op T.sum_of
            (insert_item T.Key.cmp T.key_of item self.old.items)) }
        ensures replaced { IfOk result (λ o. o ≡ item_of_key T.Key.cmp T.key_of
            (T.key_of item) self.old.items) }
        ensures ok { OnOk result (self.new.items
            ≡ insert_item T.Key.cmp T.key_of item self.old.items) }
        ensures err { OnErr result (self.new ≡ self.old) }
        ensures ascending { Ascending T.Key.cmp T.key_of self.new.items }
    {
        match self.position(&item.key()) {
            Ok(i) => {
                let old = self.at(i).copy(alloc)?;
                self.put_item(alloc, i, i + 1, item)?;
                Ok(Some(old))
            }
            Err(i) => {
                self.put_new(alloc, i, item)?;
                Ok(None)
            }
        }
    }

    /// Removes the item with this key, if there is one, and returns it.
    ///
    /// The keys of the items must ascend strictly. Makes no node if no other tree shares the nodes on the path and the
    /// leaf has more than 6 entries or is the root; otherwise at most two nodes for each level, and one more for each
    /// child that would have fewer than 6 entries.
    ///
    /// # Errors
    ///
    /// Fails only if an allocation fails. The tree is then as before.
    pub fn remove(&mut self, alloc: Global, key: &T::Key) -> Result<Option<T>, OutOfMemory>
        requires ascending { Ascending T.Key.cmp T.key_of self.old.items }
        ensures removed { IfOk result (λ o. o
            ≡ item_of_key T.Key.cmp T.key_of key.now self.old.items) }
        ensures ok { OnOk result (self.new.items
            ≡ remove_key T.Key.cmp T.key_of key.now self.old.items) }
        ensures err { OnErr result (self.new ≡ self.old) }
        ensures ascending { Ascending T.Key.cmp T.key_of self.new.items }
    {
        self.known();
        match self.position(key) {
            Ok(i) => {
                let old = self.at(i).copy(alloc)?;
                self.put(alloc, i, i + 1, Vec::new(alloc))?;
                Ok(Some(old))
            }
            Err(_) => Ok(None),
        }
    }
}

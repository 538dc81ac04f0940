//! Trees joined end to end. Only the nodes along one side are made; the others are shared.
ghost use Rattle.std.specs.Prelude.{◌≡◌, ℕ, ◌+◌, ◌*◌, ◌^◌, ◌<◌, ◌≤◌, [], ◌∷◌, ◌++◌, length, min, max, Some, IfOk, OnOk, OnErr, All};
ghost use Rattle.sum_tree.specs.Laws.{fold};
ghost use Rattle.sum_tree.specs.Shape.{IsChild, join_items};
ghost use Rattle.sum_tree.specs.Grown.{IsSplit, pair_list, with_pair, with_run};

use crate::OutOfMemory;
use crate::continuation::{Continuation, Nothing};
use crate::entry::Entry;
use crate::steps::Steps;
use crate::traits::Item;
use crate::tree::{Content, MOST, SumTree, inner, leaf, single};
use std::alloc::Global;
use std::marker::Brand;
use std::sync::ledger::{Blank, Ledger};

pub(crate) fn copy_onto<T: Item>(
    entries: &[Entry<T>],
    out: &mut Vec<Entry<T>>,
) -> Result<(), OutOfMemory>
    ensures { OnOk result (out.new.items ≡ out.old.items ++ entries.now) }
{
    for entry in entries {
        out.push(entry.share()?)?;
    }
    Ok(())
}

pub(crate) fn share_onto<T: Item>(
    children: &[SumTree<T>],
    out: &mut Vec<SumTree<T>>,
) -> Result<(), OutOfMemory>
    ensures { OnOk result (out.new.items ≡ out.old.items ++ children.now) }
{
    for child in children {
        out.push(child.share()?)?;
    }
    Ok(())
}

// Two leaves that hold these entries between them.
pub(crate) fn two_leaves<T: Item, L: Ledger>(
    alloc: Global,
    mut entries: Vec<Entry<T>>,
    steps: &mut Steps<L>,
) -> Result<(SumTree<T>, SumTree<T>), OutOfMemory>
    requires many { 12 < length entries.items }
    requires most { length entries.items ≤ 24 }
    requires fits { T.Summary.fits (fold T.Summary.empty T.Summary.op T.sum_of entries.items) }
    ensures split { IfOk result (λ p. IsSplit 0 0 entries.items p.0 (Some p.1)) }
    ensures cost { steps.new ≤ steps.old + 2 }
{
    let half = entries.len() / 2;
    let rest = entries.split_off(half)?;
    let front = leaf(alloc, entries, steps)?;
    let back = leaf(alloc, rest, steps)?;
    Ok((front, back))
}

// One leaf, or two if one has no room for all these entries.
pub(crate) fn leaves<T: Item, L: Ledger>(
    alloc: Global,
    entries: Vec<Entry<T>>,
    steps: &mut Steps<L>,
) -> Result<(SumTree<T>, Option<SumTree<T>>), OutOfMemory>
    requires most { length entries.items ≤ 24 }
    requires fits { T.Summary.fits (fold T.Summary.empty T.Summary.op T.sum_of entries.items) }
    ensures split { IfOk result (λ p. IsSplit 0 (length entries.items) entries.items p.0 p.1) }
    ensures cost { steps.new ≤ steps.old + 2 }
{
    if entries.len() <= MOST {
        return Ok((leaf(alloc, entries, steps)?, None));
    }
    let (front, back) = two_leaves(alloc, entries, steps)?;
    Ok((front, Some(back)))
}

// Two nodes that hold these children between them.
pub(crate) fn two_inners<T: Item, L: Ledger>(
    alloc: Global,
    height: u32,
    mut children: Vec<SumTree<T>>,
    steps: &mut Steps<L>,
) -> Result<(SumTree<T>, SumTree<T>), OutOfMemory>
    requires children { All (IsChild height) children.items }
    requires many { 12 < length children.items }
    requires most { length children.items ≤ 24 }
    requires short { length (join_items children.items) ≤ 2 ^ 40 }
    requires fits { T.Summary.fits (fold T.Summary.empty T.Summary.op T.sum_of
        (join_items children.items)) }
    ensures split { IfOk result (λ p. IsSplit height 0 (join_items children.items) p.0 (Some p.1)) }
    ensures cost { steps.new ≤ steps.old + 2 }
{
    let half = children.len() / 2;
    let rest = children.split_off(half)?;
    let front = inner(alloc, height, children, steps)?;
    let back = inner(alloc, height, rest, steps)?;
    Ok((front, back))
}

// One node, or two if one has no room for all these children.
pub(crate) fn inners<T: Item, L: Ledger>(
    alloc: Global,
    height: u32,
    children: Vec<SumTree<T>>,
    steps: &mut Steps<L>,
) -> Result<(SumTree<T>, Option<SumTree<T>>), OutOfMemory>
    requires children { All (IsChild height) children.items }
    requires least { 2 ≤ length children.items }
    requires most { length children.items ≤ 24 }
    requires short { length (join_items children.items) ≤ 2 ^ 40 }
    requires fits { T.Summary.fits (fold T.Summary.empty T.Summary.op T.sum_of
        (join_items children.items)) }
    ensures split { IfOk result (λ p. IsSplit height (length children.items)
        (join_items children.items) p.0 p.1) }
    ensures cost { steps.new ≤ steps.old + 2 }
{
    if children.len() <= MOST {
        return Ok((inner(alloc, height, children, steps)?, None));
    }
    let (front, back) = two_inners(alloc, height, children, steps)?;
    Ok((front, Some(back)))
}

fn pair_onto<T: Item>(
    front: SumTree<T>,
    back: Option<SumTree<T>>,
    out: &mut Vec<SumTree<T>>,
) -> Result<(), OutOfMemory>
    ensures { OnOk result (out.new.items ≡ out.old.items ++ pair_list front back) }
{
    out.push(front)?;
    match back {
        None => Ok(()),
        Some(back) => {
            out.push(back)?;
            Ok(())
        }
    }
}

// These children with those in `from..to` replaced.
pub(crate) fn gather<T: Item>(
    alloc: Global,
    nodes: &[SumTree<T>],
    from: usize,
    to: usize,
    front: SumTree<T>,
    back: Option<SumTree<T>>,
) -> Result<Vec<SumTree<T>>, OutOfMemory>
    requires order { from ≤ to }
    requires within { to ≤ length nodes.now }
    ensures { IfOk result (λ ts. ts.items ≡ with_run nodes.now from to front back) }
{
    let mut children = Vec::with_capacity(alloc, MOST + 1)?;
    share_onto(&nodes[..from], &mut children)?;
    pair_onto(front, back, &mut children)?;
    share_onto(&nodes[to..], &mut children)?;
    Ok(children)
}

// One node, or two, of these children with child k replaced.
fn with_child<T: Item, L: Ledger>(
    alloc: Global,
    height: u32,
    nodes: &[SumTree<T>],
    k: usize,
    front: SumTree<T>,
    back: Option<SumTree<T>>,
    steps: &mut Steps<L>,
) -> Result<(SumTree<T>, Option<SumTree<T>>), OutOfMemory>
    requires children { All (IsChild height) nodes.now }
    requires least { 2 ≤ length nodes.now }
    requires most { length nodes.now ≤ 12 }
    requires within { k < length nodes.now }
    requires pair { All (IsChild height) (pair_list front back) }
    requires short { length (join_items (with_pair nodes.now k front back)) ≤ 2 ^ 40 }
    requires fits { T.Summary.fits (fold T.Summary.empty T.Summary.op T.sum_of
        (join_items (with_pair nodes.now k front back))) }
    ensures split { IfOk result (λ p. IsSplit height (length nodes.now)
        (join_items (with_pair nodes.now k front back)) p.0 p.1) }
    ensures cost { steps.new ≤ steps.old + 2 }
{
    let children = gather(alloc, nodes, k, k + 1, front, back)?;
    inners(alloc, height, children, steps)
}

impl<T: Item> SumTree<T> {
    // Two trees of the same height, end to end.
    pub(crate) fn beside<L: Ledger>(
        &self,
        alloc: Global,
        other: &SumTree<T>,
        steps: &mut Steps<L>,
    ) -> Result<(SumTree<T>, Option<SumTree<T>>), OutOfMemory>
        requires level { other.now.height ≡ self.now.height }
        requires short { length (self.now.items ++ other.now.items) ≤ 2 ^ 40 }
        requires fits { T.Summary.fits (fold T.Summary.empty T.Summary.op T.sum_of
            (self.now.items ++ other.now.items)) }
        ensures split { IfOk result (λ p. IsSplit self.now.height
            (self.now.width + other.now.width) (self.now.items ++ other.now.items) p.0 p.1) }
        ensures cost { steps.new ≤ steps.old + 2 }
    {
        match (&self.node.content, &other.node.content) {
            (Content::Leaf(front), Content::Leaf(back)) => {
                let mut entries = Vec::with_capacity(alloc, front.len() + back.len())?;
                copy_onto(front, &mut entries)?;
                copy_onto(back, &mut entries)?;
                leaves(alloc, entries, steps)
            }
            (Content::Inner(front), Content::Inner(back)) => {
                let mut children = Vec::with_capacity(alloc, front.len() + back.len())?;
                share_onto(front, &mut children)?;
                share_onto(back, &mut children)?;
                inners(alloc, self.node.height, children, steps)
            }
            _ => unreachable!(),
        }
    }

    // This tree followed by a lower one, at the height of this tree.
    pub(crate) fn with_behind<L: Ledger>(
        &self,
        alloc: Global,
        other: &SumTree<T>,
        steps: &mut Steps<L>,
    ) -> Result<(SumTree<T>, Option<SumTree<T>>), OutOfMemory>
        requires lower { other.now.height ≤ self.now.height }
        requires short { length (self.now.items ++ other.now.items) ≤ 2 ^ 40 }
        requires fits { T.Summary.fits (fold T.Summary.empty T.Summary.op T.sum_of
            (self.now.items ++ other.now.items)) }
        ensures split { IfOk result (λ p. IsSplit self.now.height self.now.width
            (self.now.items ++ other.now.items) p.0 p.1) }
        ensures cost { steps.new + 2 * other.now.height ≤ steps.old + 2 * (self.now.height + 1) }
    {
        if other.height() == self.height() {
            return self.beside(alloc, other, steps);
        }
        match &self.node.content {
            Content::Leaf(_) => unreachable!(),
            Content::Inner(nodes) => {
                let last = nodes.len() - 1;
                let (front, back) = nodes[last].with_behind(alloc, other, steps)?;
                with_child(alloc, self.node.height, nodes, last, front, back, steps)
            }
        }
    }

    // A lower tree followed by this one, at the height of this tree.
    fn with_before<L: Ledger>(
        &self,
        alloc: Global,
        other: &SumTree<T>,
        steps: &mut Steps<L>,
    ) -> Result<(SumTree<T>, Option<SumTree<T>>), OutOfMemory>
        requires lower { other.now.height ≤ self.now.height }
        requires short { length (other.now.items ++ self.now.items) ≤ 2 ^ 40 }
        requires fits { T.Summary.fits (fold T.Summary.empty T.Summary.op T.sum_of
            (other.now.items ++ self.now.items)) }
        ensures split { IfOk result (λ p. IsSplit self.now.height self.now.width
            (other.now.items ++ self.now.items) p.0 p.1) }
        ensures cost { steps.new + 2 * other.now.height ≤ steps.old + 2 * (self.now.height + 1) }
    {
        if other.height() == self.height() {
            return other.beside(alloc, self, steps);
        }
        match &self.node.content {
            Content::Leaf(_) => unreachable!(),
            Content::Inner(nodes) => {
                let (front, back) = nodes[0].with_before(alloc, other, steps)?;
                with_child(alloc, self.node.height, nodes, 0, front, back, steps)
            }
        }
    }

    /// Appends the items of `other`.
    ///
    /// The result must have at most 2^40 items, and its sum must fit. Makes at most 2(h + 1) + 1 nodes, where h is the
    /// greater height of the two: those where the trees meet. The other nodes are shared.
    ///
    /// # Errors
    ///
    /// Fails only if an allocation fails. This tree is then as before, and `other` is dropped.
    pub fn append(&mut self, alloc: Global, other: SumTree<T>) -> Result<(), OutOfMemory>
        requires short { length (self.old.items ++ other.items) ≤ 2 ^ 40 }
        requires fits { T.Summary.fits (fold T.Summary.empty T.Summary.op T.sum_of
            (self.old.items ++ other.items)) }
        ensures ok { OnOk result (self.new.items ≡ self.old.items ++ other.items) }
        ensures err { OnErr result (self.new ≡ self.old) }
    {
        self.append_with::<Brand>(alloc, other, Blank::new(1))
    }

    // The same, with a counter made from the blank.
    fn append_with<L: Ledger>(
        &mut self,
        alloc: Global,
        other: SumTree<T>,
        blank: Blank,
    ) -> Result<(), OutOfMemory>
        requires name { blank.name ≡ L.name }
        requires parts { blank.parts ≡ L.parts }
        requires some { 0 < blank.parts }
        requires short { length (self.old.items ++ other.items) ≤ 2 ^ 40 }
        requires fits { T.Summary.fits (fold T.Summary.empty T.Summary.op T.sum_of
            (self.old.items ++ other.items)) }
        ensures ok { OnOk result (self.new.items ≡ self.old.items ++ other.items) }
        ensures err { OnErr result (self.new ≡ self.old) }
    {
        let mut steps = Steps::<L>::new(blank);
        self.append_counted(alloc, other, &mut steps)
    }

    /// Does what `append` does, under the same conditions, and counts a step for each node made: at most 2(h + 2) even
    /// if the call fails, where h is the greater height of the two.
    pub fn append_counted<L: Ledger>(
        &mut self,
        alloc: Global,
        other: SumTree<T>,
        steps: &mut Steps<L>,
    ) -> Result<(), OutOfMemory>
        requires short { length (self.old.items ++ other.items) ≤ 2 ^ 40 }
        requires fits { T.Summary.fits (fold T.Summary.empty T.Summary.op T.sum_of
            (self.old.items ++ other.items)) }
        ensures ok { OnOk result (self.new.items ≡ self.old.items ++ other.items) }
        ensures err { OnErr result (self.new ≡ self.old) }
        ensures cost { steps.new ≤ steps.old + 2 * (max self.old.height other.height + 2) }
    {
        *self = both(alloc, self, &other, steps)?;
        Ok(())
    }

    /// Appends one item.
    ///
    /// The tree must have fewer than 2^40 items, and the sum of all with the new one must fit. Nodes on the last path
    /// are changed in place as far down as no other tree shares them. If that reaches a leaf with room, no node is
    /// made; otherwise nodes are made only below the lowest of these nodes that has room for one more child, at most
    /// two for each level and one more. In any case at most 2(h + 2) nodes are made, where h is the height.
    ///
    /// # Errors
    ///
    /// Fails only if an allocation fails. The tree is then as before, and the item is dropped.
    pub fn push(&mut self, alloc: Global, item: T) -> Result<(), OutOfMemory>
        requires short { length self.old.items < 2 ^ 40 }
        requires fits { T.Summary.fits (fold T.Summary.empty T.Summary.op T.sum_of
            (self.old.items ++ item ∷ [])) }
        ensures ok { OnOk result (self.new.items ≡ self.old.items ++ item ∷ []) }
        ensures err { OnErr result (self.new ≡ self.old) }
    {
        self.push_with::<Brand>(alloc, item, Blank::new(1))
    }

    // The same, with a counter made from the blank.
    fn push_with<L: Ledger>(
        &mut self,
        alloc: Global,
        item: T,
        blank: Blank,
    ) -> Result<(), OutOfMemory>
        requires name { blank.name ≡ L.name }
        requires parts { blank.parts ≡ L.parts }
        requires some { 0 < blank.parts }
        requires short { length self.old.items < 2 ^ 40 }
        requires fits { T.Summary.fits (fold T.Summary.empty T.Summary.op T.sum_of
            (self.old.items ++ item ∷ [])) }
        ensures ok { OnOk result (self.new.items ≡ self.old.items ++ item ∷ []) }
        ensures err { OnErr result (self.new ≡ self.old) }
    {
        let mut steps = Steps::<L>::new(blank);
        self.push_counted(alloc, item, &mut steps)
    }

    /// Does what `push` does, under the same conditions, and counts a step for each node made: at most 2(h + 2) even if
    /// the call fails, where h is the height before the call.
    pub fn push_counted<L: Ledger>(
        &mut self,
        alloc: Global,
        item: T,
        steps: &mut Steps<L>,
    ) -> Result<(), OutOfMemory>
        requires short { length self.old.items < 2 ^ 40 }
        requires fits { T.Summary.fits (fold T.Summary.empty T.Summary.op T.sum_of
            (self.old.items ++ item ∷ [])) }
        ensures ok { OnOk result (self.new.items ≡ self.old.items ++ item ∷ []) }
        ensures err { OnErr result (self.new ≡ self.old) }
        ensures cost { steps.new ≤ steps.old + 2 * (self.old.height + 2) }
    {
        self.push_before(alloc, item, steps, &mut Nothing)
    }

    /// Does what `push` does, under the same conditions, once a continuation has succeeded: first all is done that may
    /// fail, then the continuation is run, and then the tree is changed, which does not allocate and cannot fail.
    ///
    /// # Errors
    ///
    /// Fails only if an allocation or the continuation fails. The tree is then as before, and the item is dropped.
    pub fn push_then<K: Continuation>(
        &mut self,
        alloc: Global,
        item: T,
        rest: &mut K,
    ) -> Result<(), OutOfMemory>
        requires short { length self.old.items < 2 ^ 40 }
        requires fits { T.Summary.fits (fold T.Summary.empty T.Summary.op T.sum_of
            (self.old.items ++ item ∷ [])) }
        requires may { K.may rest.old }
        ensures ok { OnOk result (self.new.items ≡ self.old.items ++ item ∷ []) }
        ensures err { OnErr result (self.new ≡ self.old) }
        ensures done { OnOk result (K.done rest.old rest.new) }
        ensures kept { OnErr result (K.kept rest.old rest.new) }
    {
        self.push_then_with::<Brand, K>(alloc, item, rest, Blank::new(1))
    }

    // The same, with a counter made from the blank.
    fn push_then_with<L: Ledger, K: Continuation>(
        &mut self,
        alloc: Global,
        item: T,
        rest: &mut K,
        blank: Blank,
    ) -> Result<(), OutOfMemory>
        requires name { blank.name ≡ L.name }
        requires parts { blank.parts ≡ L.parts }
        requires some { 0 < blank.parts }
        requires short { length self.old.items < 2 ^ 40 }
        requires fits { T.Summary.fits (fold T.Summary.empty T.Summary.op T.sum_of
            (self.old.items ++ item ∷ [])) }
        requires may { K.may rest.old }
        ensures ok { OnOk result (self.new.items ≡ self.old.items ++ item ∷ []) }
        ensures err { OnErr result (self.new ≡ self.old) }
        ensures done { OnOk result (K.done rest.old rest.new) }
        ensures kept { OnErr result (K.kept rest.old rest.new) }
    {
        let mut steps = Steps::<L>::new(blank);
        self.push_before(alloc, item, &mut steps, rest)
    }

    // Does what `push_then` does, and counts a step for each node made.
    fn push_before<L: Ledger, K: Continuation>(
        &mut self,
        alloc: Global,
        item: T,
        steps: &mut Steps<L>,
        rest: &mut K,
    ) -> Result<(), OutOfMemory>
        requires short { length self.old.items < 2 ^ 40 }
        requires fits { T.Summary.fits (fold T.Summary.empty T.Summary.op T.sum_of
            (self.old.items ++ item ∷ [])) }
        requires may { K.may rest.old }
        ensures ok { OnOk result (self.new.items ≡ self.old.items ++ item ∷ []) }
        ensures err { OnErr result (self.new ≡ self.old) }
        ensures done { OnOk result (K.done rest.old rest.new) }
        ensures kept { OnErr result (K.kept rest.old rest.new) }
        ensures cost { steps.new ≤ steps.old + 2 * (self.old.height + 2) }
    {
        match self.push_here(alloc, Entry::new(alloc, item)?, steps, rest)? {
            None => Ok(()),
            Some(entry) => {
                let other = single(alloc, entry, steps)?;
                let whole = both(alloc, self, &other, steps)?;
                rest.run(alloc)?;
                *self = whole;
                Ok(())
            }
        }
    }
}

// The items of both trees in one tree.
pub(crate) fn both<T: Item, L: Ledger>(
    alloc: Global,
    front: &SumTree<T>,
    back: &SumTree<T>,
    steps: &mut Steps<L>,
) -> Result<SumTree<T>, OutOfMemory>
    requires short { length (front.now.items ++ back.now.items) ≤ 2 ^ 40 }
    requires fits { T.Summary.fits (fold T.Summary.empty T.Summary.op T.sum_of
        (front.now.items ++ back.now.items)) }
    ensures items { IfOk result (λ t. t.items ≡ front.now.items ++ back.now.items) }
    ensures least { IfOk result (λ t. max front.now.height back.now.height ≤ t.height) }
    ensures most { IfOk result (λ t. t.height ≤ max front.now.height back.now.height + 1) }
    ensures cost { steps.new + 2 * min front.now.height back.now.height
        ≤ steps.old + 2 * max front.now.height back.now.height + 3 }
{
    front.known();
    back.known();
    if back.is_empty() {
        return front.share();
    }
    if front.is_empty() {
        return back.share();
    }
    if back.height() <= front.height() {
        let (a, b) = front.with_behind(alloc, back, steps)?;
        root(alloc, a, b, steps)
    } else {
        let (a, b) = back.with_before(alloc, front, steps)?;
        root(alloc, a, b, steps)
    }
}

// One tree made from one, or from two of the same height.
pub(crate) fn root<T: Item, L: Ledger>(
    alloc: Global,
    front: SumTree<T>,
    back: Option<SumTree<T>>,
    steps: &mut Steps<L>,
) -> Result<SumTree<T>, OutOfMemory>
    requires pair { IsSplit front.height 0 (join_items (pair_list front back)) front back }
    requires short { length (join_items (pair_list front back)) ≤ 2 ^ 40 }
    requires fits { T.Summary.fits (fold T.Summary.empty T.Summary.op T.sum_of
        (join_items (pair_list front back))) }
    ensures items { IfOk result (λ t. t.items ≡ join_items (pair_list front back)) }
    ensures least { IfOk result (λ t. front.height ≤ t.height) }
    ensures most { IfOk result (λ t. t.height ≤ front.height + 1) }
    ensures cost { steps.new ≤ steps.old + 1 }
{
    match back {
        None => Ok(front),
        Some(back) => {
            let height = front.height() + 1;
            let mut children = Vec::with_capacity(alloc, 2)?;
            children.push(front)?;
            children.push(back)?;
            inner(alloc, height, children, steps)
        }
    }
}

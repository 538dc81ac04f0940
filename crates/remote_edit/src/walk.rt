//! One walk over a tree of fragments, from the first piece of an edit to the last.
ghost use Rattle.std.specs.Prelude.{◌≡◌, ℕ, ◌+◌, ◌-◌, ◌*◌, ◌<◌, ◌≤◌, ◌^◌, ◌++◌, false, [], length, take, drop, max, IfOk, OnErr, OnOk, option_to_list};
ghost use Rattle.lamport_clock.specs.Versions.{Entries, sees};
ghost use Rattle.op_model.specs.Operations.{text_total};
ghost use Rattle.op_model.specs.Walked.{Ordered};
ghost use Rattle.fragments.specs.Laws.{cells_len};
ghost use Rattle.sum_tree.specs.Spliced.{splice_list};
ghost use Rattle.remote_edit.specs.Indexes.{IsIndexed};
ghost use Rattle.remote_edit.specs.Walk.{seen_bytes, Fit, one_piece, changes, walk};
ghost use Rattle.remote_edit.specs.Steps.{before, after, IsSought, IsAt, IsStop};
ghost use Rattle.remote_edit.specs.Places.{IsAfter};
ghost use Rattle.remote_edit.specs.Gathers.{so_far, ahead};
ghost use Rattle.remote_edit.specs.Costs.{touch_count_behind};
ghost use Rattle.remote_edit.specs.Starts.{AllSeen, starts, IsLeft, MakeFew, TakeFew};

use crate::gather::Gather;
use crate::{OutOfMemory, Passed, SeenPassed};
use fragments::{Fragment, Full, InsertionIndex, Sight};
use lamport_clock::Version;
use op_model::{EditOp, Piece};
use std::alloc::Global;
use std::sync::ledger::Ledger;
use sum_tree::{Steps, SumTree};
use tree_cursor::{Bias, Cursor};
use undo_map::UndoMap;

// The greatest number of cells of a tree.
const MOST_CELLS: u64 = 1 << 40;

// Where a seek stops, after a fragment that ends there: the number of fragments before it, that of their cells that a
// version sees, and those of their shown and of their hidden cells.
#[derive(Clone, Copy)]
struct Stop {
    at: u64,
    place: u64,
    passed: Passed,
}

/// The state of an edit on its way over all fragments: the tree and its index so far, and the numbers of the fragments
/// passed (`at`), of the cells of these that the edit's version sees (`place`), and of those that are the edit's own
/// (`number`).
#[derive(Drop)]
pub struct Walk {
    pub tree: SumTree<Fragment>,
    pub at: u64,
    pub place: u64,
    pub number: u64,
    pub index: InsertionIndex,
}

impl Walk {
    // Goes to the fragment that has the last of the next `count` cells that the edit's version sees, or after it if
    // they end with it, over whole nodes of the tree. Returns the number of cells that are still to be passed, and if
    // the walk is at its start, how many shown and hidden cells it has passed then.
    fn seek(&mut self, edit: &EditOp, count: u64) -> Result<(u64, Passed), OutOfMemory>
        requires within { self.old.at ≤ length self.old.tree.items }
        requires fit { Fit self.old.tree.items }
        requires place { self.old.place ≡ seen_bytes edit.now.version
            (take self.old.at self.old.tree.items) }
        ensures tree { self.new.tree ≡ self.old.tree }
        ensures number { self.new.number ≡ self.old.number }
        ensures index { self.new.index ≡ self.old.index }
        ensures sought { IfOk result (λ r. IsSought edit.now.stamp edit.now.version
            self.old.tree.items count self.old.at r.0 self.new.at self.new.place) }
        ensures passed { self.old.at ≡ 0
            → IfOk result (λ r. IsAfter r.1 (take self.new.at self.old.tree.items)) }
        ensures left { AllSeen edit.now.version (drop self.old.at self.old.tree.items)
            → count ≤ 2 ^ 40
            → IfOk result (λ r. IsLeft edit.now.version count (drop self.old.at self.old.tree.items)
            r.0 (drop self.new.at self.old.tree.items)) }
    {
        if count == 0 || count > MOST_CELLS {
            let none = Passed {
                visible: 0,
                hidden: 0,
            };
            return Ok((count, none));
        }
        let target = Full {
            bytes: self.place + count,
        };
        let stop = seen_stop(&self.tree, &edit.version, &target)?;
        self.at = stop.at;
        self.place = stop.place;
        Ok((target.bytes - stop.place, stop.passed))
    }

    // The tree, and the fragments that a piece makes from the range that begins here, after `left` more cells are
    // passed before its text.
    fn gather(
        self,
        alloc: Global,
        undos: &UndoMap,
        edit: &EditOp,
        left: u64,
        piece: &Piece,
    ) -> Result<(SumTree<Fragment>, Gather), OutOfMemory>
        requires unseen { sees edit.now.version edit.now.stamp ≡ false }
        requires within { self.at ≤ length self.tree.items }
        requires fit { Fit self.tree.items }
        requires place { self.place ≡ seen_bytes edit.now.version (take self.at self.tree.items) }
        requires room { cells_len self.tree.items + length piece.now.text ≤ 2 ^ 40 }
        requires numbers { self.number + length piece.now.text < 2 ^ 64 }
        requires indexed { IsIndexed edit.now.stamp self.number
            (take self.at self.tree.items ++ drop self.at self.tree.items) self.index }
        ensures tree { IfOk result (λ r. r.0 ≡ self.tree) }
        ensures from { IfOk result (λ r. r.1.from ≡ self.at) }
        ensures order { IfOk result (λ r. self.at ≤ r.1.at) }
        ensures gathered { IfOk result (λ r. IsAt edit.now.version
            (one_piece undos.now edit.now.stamp edit.now.version left self.number piece.now
            (take self.at self.tree.items) (drop self.at self.tree.items))
            (cells_len self.tree.items + length piece.now.text)
            (so_far self.tree.items r.1) (ahead self.tree.items r.1) r.1.place) }
        ensures few { AllSeen edit.now.version (drop self.at self.tree.items)
            → IfOk result (λ r. r.1.at ≤ self.at
            + starts 0 (left + (piece.now.end - piece.now.start)) (drop self.at self.tree.items)) }
        ensures number { IfOk result (λ r. r.1.number ≡ self.number + length piece.now.text) }
        ensures indexed { IfOk result (λ r. IsIndexed edit.now.stamp r.1.number
            (so_far self.tree.items r.1 ++ ahead self.tree.items r.1) r.1.index) }
    {
        let tree = self.tree;
        let mut gather = Gather {
            from: self.at,
            at: self.at,
            made: Vec::new(alloc),
            back: None,
            place: self.place,
            number: self.number,
            index: self.index,
        };
        let text = piece.text.as_str().len() as u64;
        let range = piece.end.saturating_sub(piece.start);
        gather.pass(alloc, &tree, edit, left, None)?;
        gather.skip_later(alloc, &tree, edit)?;
        gather.put_new(alloc, &tree, edit, text)?;
        gather.pass(alloc, &tree, edit, range, Some(undos))?;
        Ok((tree, gather))
    }

    // The walk after a range of the tree is replaced with what was gathered.
    fn after_change<L: Ledger>(
        alloc: Global,
        tree: SumTree<Fragment>,
        gather: Gather,
        steps: &mut Steps<L>,
    ) -> Result<Walk, OutOfMemory>
        requires order { gather.from ≤ gather.at }
        requires within { gather.from ≤ length tree.items }
        requires fit { Fit (so_far tree.items gather ++ ahead tree.items gather) }
        ensures before { IfOk result (λ w. take w.at w.tree.items ≡ so_far tree.items gather) }
        ensures after { IfOk result (λ w. drop w.at w.tree.items ≡ ahead tree.items gather) }
        ensures within { IfOk result (λ w. w.at ≤ length w.tree.items) }
        ensures place { IfOk result (λ w. w.place ≡ gather.place) }
        ensures number { IfOk result (λ w. w.number ≡ gather.number) }
        ensures index { IfOk result (λ w. w.index ≡ gather.index) }
        ensures cost { MakeFew steps.old steps.new gather.from gather.at
            (length gather.made.items + length (option_to_list gather.back)) }
    {
        let mut tree = tree;
        let index = gather.index;
        let at = put_back(
            &mut tree,
            alloc,
            gather.from,
            gather.at,
            gather.made,
            gather.back,
            steps,
        )?;
        Ok(Walk {
            tree,
            at,
            place: gather.place,
            number: gather.number,
            index,
        })
    }

    // Passes one piece, whose range begins after `count` more cells that the edit's version sees.
    fn piece<L: Ledger>(
        self,
        alloc: Global,
        undos: &UndoMap,
        edit: &EditOp,
        count: u64,
        piece: &Piece,
        steps: &mut Steps<L>,
    ) -> Result<Walk, OutOfMemory>
        requires unseen { sees edit.now.version edit.now.stamp ≡ false }
        requires within { self.at ≤ length self.tree.items }
        requires fit { Fit self.tree.items }
        requires place { self.place ≡ seen_bytes edit.now.version (take self.at self.tree.items) }
        requires room { cells_len self.tree.items + length piece.now.text ≤ 2 ^ 40 }
        requires numbers { self.number + length piece.now.text < 2 ^ 64 }
        requires indexed { IsIndexed edit.now.stamp self.number self.tree.items self.index }
        ensures within { IfOk result (λ w. w.at ≤ length w.tree.items) }
        ensures passed { IfOk result (λ w. IsAt edit.now.version
            (one_piece undos.now edit.now.stamp edit.now.version count self.number piece.now
            (take self.at self.tree.items) (drop self.at self.tree.items))
            (cells_len self.tree.items + length piece.now.text)
            (take w.at w.tree.items) (drop w.at w.tree.items) w.place) }
        ensures number { IfOk result (λ w. w.number ≡ self.number + length piece.now.text) }
        ensures indexed { IfOk result (λ w. IsIndexed edit.now.stamp w.number w.tree.items
            w.index) }
        ensures cost { AllSeen edit.now.version (drop self.at self.tree.items)
            → count ≤ 2 ^ 40 → steps.new ≤ steps.old + 256 * (1
            + starts (max 1 count) (count + (piece.now.end - piece.now.start))
            (drop self.at self.tree.items)) }
    {
        let mut walk = self;
        let (left, _) = walk.seek(edit, count)?;
        let (tree, gather) = walk.gather(alloc, undos, edit, left, piece)?;
        Self::after_change(alloc, tree, gather, steps)
    }

    // Passes all pieces of the edit, from the start.
    fn pass_pieces<L: Ledger>(
        self,
        alloc: Global,
        undos: &UndoMap,
        edit: &EditOp,
        steps: &mut Steps<L>,
    ) -> Result<Walk, OutOfMemory>
        requires start { self.at ≡ 0 }
        requires place { self.place ≡ 0 }
        requires number { self.number ≡ 0 }
        requires fit { Fit self.tree.items }
        requires unseen { sees edit.now.version edit.now.stamp ≡ false }
        requires room { cells_len self.tree.items + text_total edit.now.pieces ≤ 2 ^ 40 }
        requires indexed { IsIndexed edit.now.stamp 0 self.tree.items self.index }
        ensures walked { IfOk result (λ w. w.tree.items
            ≡ walk undos.now edit.now.stamp edit.now.version 0 0 edit.now.pieces
            [] self.tree.items) }
        ensures fit { IfOk result (λ w. Fit w.tree.items) }
        ensures indexed { IfOk result (λ w. IsIndexed edit.now.stamp w.number w.tree.items
            w.index) }
        ensures cost { AllSeen edit.now.version self.tree.items
            → Ordered 0 (2 ^ 40) edit.now.pieces
            → steps.new ≤ steps.old + 256 * (length edit.now.pieces
            + touch_count_behind 0 edit.now.pieces self.tree.items) }
    {
        let mut walk = self;
        let mut place = 0;
        for piece in edit.pieces.as_slice() {
            if changes(piece) {
                let count = piece.start.saturating_sub(place);
                walk = walk.piece(alloc, undos, edit, count, piece, steps)?;
                place = piece.end;
            }
        }
        Ok(walk)
    }
}

// Where a seek by all cells stops. A version that sees all fragments need not be asked.
fn plain_stop(tree: &SumTree<Fragment>, target: &Full) -> Result<Stop, OutOfMemory>
    requires room { cells_len tree.now.items ≤ 2 ^ 40 }
    ensures index { (v : Entries) → AllSeen v tree.now.items
        → IfOk result (λ r. IsStop v target.now.bytes tree.now.items r.at) }
    ensures place { (v : Entries) → AllSeen v tree.now.items
        → IfOk result (λ r. r.place ≡ seen_bytes v (take r.at tree.now.items)) }
    ensures passed { IfOk result (λ r. IsAfter r.passed (take r.at tree.now.items)) }
{
    let start = Passed {
        visible: 0,
        hidden: 0,
    };
    tree.known();
    let mut cursor = Cursor::new(tree, start)?;
    cursor.seek(target, Bias::Left)?;
    let at = cursor.index();
    let end = cursor.end();
    let last = end.visible + end.hidden;
    if last == target.bytes {
        let next = at + 1;
        return Ok(Stop {
            at: next,
            place: last,
            passed: end,
        });
    }
    let passed = cursor.start();
    let place = passed.visible + passed.hidden;
    Ok(Stop { at, place, passed })
}

// Where a seek by the cells that a version sees stops.
fn asked_stop(
    tree: &SumTree<Fragment>,
    version: &Version,
    target: &Full,
) -> Result<Stop, OutOfMemory>
    requires room { cells_len tree.now.items ≤ 2 ^ 40 }
    ensures index { IfOk result
        (λ r. IsStop version.now target.now.bytes tree.now.items r.at) }
    ensures place { IfOk result (λ r. r.place
        ≡ seen_bytes version.now (take r.at tree.now.items)) }
    ensures passed { IfOk result (λ r. IsAfter r.passed (take r.at tree.now.items)) }
{
    let start = SeenPassed {
        version,
        bytes: 0,
        visible: 0,
        hidden: 0,
    };
    tree.known();
    let mut cursor = Cursor::new(tree, start)?;
    cursor.seek(target, Bias::Left)?;
    let at = cursor.index();
    let end = cursor.end();
    if end.bytes == target.bytes {
        let next = at + 1;
        let passed = Passed {
            visible: end.visible,
            hidden: end.hidden,
        };
        return Ok(Stop {
            at: next,
            place: end.bytes,
            passed,
        });
    }
    let before = cursor.start();
    let passed = Passed {
        visible: before.visible,
        hidden: before.hidden,
    };
    Ok(Stop {
        at,
        place: before.bytes,
        passed,
    })
}

// The same. A version that sees all fragments is asked about their sum alone.
fn seen_stop(
    tree: &SumTree<Fragment>,
    version: &Version,
    target: &Full,
) -> Result<Stop, OutOfMemory>
    requires room { cells_len tree.now.items ≤ 2 ^ 40 }
    ensures index { IfOk result
        (λ r. IsStop version.now target.now.bytes tree.now.items r.at) }
    ensures place { IfOk result (λ r. r.place
        ≡ seen_bytes version.now (take r.at tree.now.items)) }
    ensures passed { IfOk result (λ r. IsAfter r.passed (take r.at tree.now.items)) }
{
    match tree.summary().span.sight(version) {
        Sight::All => plain_stop(tree, target),
        Sight::Nothing | Sight::Part => asked_stop(tree, version, target),
    }
}

/// Fragments that were made, with what is left of one after them. Fails only if an allocation fails.
pub fn with_rest(made: Vec<Fragment>, rest: Option<Fragment>) -> Result<Vec<Fragment>, OutOfMemory>
    ensures { IfOk result (λ v. v.items ≡ made.items ++ option_to_list rest) }
{
    let mut all = made;
    if let Some(fragment) = rest {
        all.push(fragment)?;
    }
    Ok(all)
}

// Replaces the fragments in `from..at` with those that were made and what is left of one. Returns the number of
// fragments before what is left.
fn put_back<L: Ledger>(
    tree: &mut SumTree<Fragment>,
    alloc: Global,
    from: u64,
    at: u64,
    made: Vec<Fragment>,
    back: Option<Fragment>,
    steps: &mut Steps<L>,
) -> Result<u64, OutOfMemory>
    requires order { from ≤ at }
    requires within { from ≤ length tree.old.items }
    requires fit { Fit (before tree.old.items from made.items ++ after tree.old.items at back) }
    ensures before { IfOk result (λ n. take n tree.new.items
        ≡ before tree.old.items from made.items) }
    ensures after { IfOk result (λ n. drop n tree.new.items ≡ after tree.old.items at back) }
    ensures within { IfOk result (λ n. n ≤ length tree.new.items) }
    ensures cost { MakeFew steps.old steps.new from at
        (length made.items + length (option_to_list back)) }
{
    tree.known();
    let count = made.len() as u64;
    let all = with_rest(made, back)?;
    let to = at.min(tree.len());
    put(tree, alloc, from, to, all, steps)?;
    Ok(from + count)
}

/// Replaces a range of fragments, and counts a step for each node made. An edit makes nodes of the tree only here.
///
/// # Errors
///
/// Fails only if an allocation fails. The tree is then as before.
pub fn put<L: Ledger>(
    tree: &mut SumTree<Fragment>,
    alloc: Global,
    from: u64,
    to: u64,
    fragments: Vec<Fragment>,
    steps: &mut Steps<L>,
) -> Result<(), OutOfMemory>
    requires order { from ≤ to }
    requires within { to ≤ length tree.old.items }
    requires fit { Fit (splice_list from to fragments.items tree.old.items) }
    ensures items { OnOk result (tree.new.items
        ≡ splice_list from to fragments.items tree.old.items) }
    ensures err { OnErr result (tree.new ≡ tree.old) }
    ensures cost { MakeFew steps.old steps.new from to (length fragments.items) }
{
    tree.known();
    tree.exchange_counted(alloc, from, to, fragments, steps)
}

/// Whether a piece has a range or a text.
pub fn changes(piece: &Piece) -> bool
    ensures { result ≡ changes piece.now }
{
    piece.start < piece.end || !piece.text.as_str().is_empty()
}

/// What the only piece of an edit makes of the fragments, and how many shown and hidden cells lie before it. The tree
/// stays as it is.
///
/// # Errors
///
/// Fails only if an allocation fails.
pub fn gather_one(
    alloc: Global,
    tree: &SumTree<Fragment>,
    index: InsertionIndex,
    undos: &UndoMap,
    edit: &EditOp,
    piece: &Piece,
) -> Result<(Passed, Gather), OutOfMemory>
    requires unseen { sees edit.now.version edit.now.stamp ≡ false }
    requires fit { Fit tree.now.items }
    requires room { cells_len tree.now.items + length piece.now.text ≤ 2 ^ 40 }
    requires indexed { IsIndexed edit.now.stamp 0 tree.now.items index }
    ensures within { IfOk result (λ r. r.1.from ≤ length tree.now.items) }
    ensures order { IfOk result (λ r. r.1.from ≤ r.1.at) }
    ensures passed { IfOk result (λ r. IsAfter r.0 (take r.1.from tree.now.items)) }
    ensures gathered { IfOk result (λ r. IsAt edit.now.version
        (one_piece undos.now edit.now.stamp edit.now.version piece.now.start 0 piece.now
        [] tree.now.items) (cells_len tree.now.items + length piece.now.text)
        (so_far tree.now.items r.1) (ahead tree.now.items r.1) r.1.place) }
    ensures indexed { IfOk result (λ r. IsIndexed edit.now.stamp r.1.number
        (so_far tree.now.items r.1 ++ ahead tree.now.items r.1) r.1.index) }
    ensures few { AllSeen edit.now.version tree.now.items → piece.now.start ≤ 2 ^ 40
        → IfOk result (λ r. TakeFew tree.now.items piece.now.start piece.now.end r.1) }
{
    gather_in(alloc, tree.share()?, index, undos, edit, piece)
}

// The same, with a tree that shares all nodes.
fn gather_in(
    alloc: Global,
    tree: SumTree<Fragment>,
    index: InsertionIndex,
    undos: &UndoMap,
    edit: &EditOp,
    piece: &Piece,
) -> Result<(Passed, Gather), OutOfMemory>
    requires unseen { sees edit.now.version edit.now.stamp ≡ false }
    requires fit { Fit tree.items }
    requires room { cells_len tree.items + length piece.now.text ≤ 2 ^ 40 }
    requires indexed { IsIndexed edit.now.stamp 0 tree.items index }
    ensures within { IfOk result (λ r. r.1.from ≤ length tree.items) }
    ensures order { IfOk result (λ r. r.1.from ≤ r.1.at) }
    ensures passed { IfOk result (λ r. IsAfter r.0 (take r.1.from tree.items)) }
    ensures gathered { IfOk result (λ r. IsAt edit.now.version
        (one_piece undos.now edit.now.stamp edit.now.version piece.now.start 0 piece.now
        [] tree.items) (cells_len tree.items + length piece.now.text)
        (so_far tree.items r.1) (ahead tree.items r.1) r.1.place) }
    ensures indexed { IfOk result (λ r. IsIndexed edit.now.stamp r.1.number
        (so_far tree.items r.1 ++ ahead tree.items r.1) r.1.index) }
    ensures few { AllSeen edit.now.version tree.items → piece.now.start ≤ 2 ^ 40
        → IfOk result (λ r. TakeFew tree.items piece.now.start piece.now.end r.1) }
{
    let mut walk = Walk {
        tree,
        at: 0,
        place: 0,
        number: 0,
        index,
    };
    let (left, passed) = walk.seek(edit, piece.start)?;
    let (_, gather) = walk.gather(alloc, undos, edit, left, piece)?;
    Ok((passed, gather))
}

/// Walks over all pieces of an edit, and counts a step for each node made. If the edit has seen all fragments, there
/// are at most 256 for each piece and each fragment that the ranges touch. Nodes that no other tree shares change in
/// place. Fails only if an allocation fails.
pub fn walk_in<L: Ledger>(
    alloc: Global,
    tree: SumTree<Fragment>,
    index: InsertionIndex,
    undos: &UndoMap,
    edit: &EditOp,
    steps: &mut Steps<L>,
) -> Result<Walk, OutOfMemory>
    requires fit { Fit tree.items }
    requires unseen { sees edit.now.version edit.now.stamp ≡ false }
    requires room { cells_len tree.items + text_total edit.now.pieces ≤ 2 ^ 40 }
    requires indexed { IsIndexed edit.now.stamp 0 tree.items index }
    ensures walked { IfOk result (λ w. w.tree.items
        ≡ walk undos.now edit.now.stamp edit.now.version 0 0 edit.now.pieces [] tree.items) }
    ensures fit { IfOk result (λ w. Fit w.tree.items) }
    ensures indexed { IfOk result (λ w. IsIndexed edit.now.stamp w.number w.tree.items w.index) }
    ensures cost { AllSeen edit.now.version tree.items
        → Ordered 0 (2 ^ 40) edit.now.pieces
        → steps.new ≤ steps.old + 256 * (length edit.now.pieces
        + touch_count_behind 0 edit.now.pieces tree.items) }
{
    let start = Walk {
        tree,
        at: 0,
        place: 0,
        number: 0,
        index,
    };
    start.pass_pieces(alloc, undos, edit, steps)
}

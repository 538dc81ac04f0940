//! The fragments and texts that a history makes.
ghost use Rattle.std.specs.Prelude.{◌≡◌, ◌+◌, ◌^◌, ◌≤◌, ℕ, List, ◌∷◌, [], length, map, IfOk};
ghost use Rattle.std.specs.List.{AllByRecursion};
ghost use Rattle.locators.specs.Locator.{IsLess, EndsAboveZero, between_digits, least_digits, greatest_digits};
ghost use Rattle.op_model.specs.declared.operation.Operation.TheVariants.{Edit, Undo};
ghost use Rattle.op_model.specs.Operations.{text_total};
ghost use Rattle.op_model.specs.Histories.{History, base};
ghost use Rattle.op_model.specs.Shown.{texts};
ghost use Rattle.op_model.specs.Walked.{IsWhole};
ghost use Rattle.fragments.specs.Laws.{whole_base, index_of_one};
ghost use Rattle.fragments.specs.Stand.{Stand, runs};
ghost use Rattle.remote_edit.specs.Fragments.{fragments_of};
ghost use Rattle.remote_edit.specs.Moves.{TakeTexts};
ghost use Rattle.text_buffer.specs.Document.{IsContent, IsMoved, IsWithOperation, MayAdd};

use crate::OutOfMemory;
use fragments::{Fragment, InsertionIndex, Stamps};
use lamport_clock::{Lamport, Version};
use locators::Locator;
use op_model::{EditOp, Operation, Piece, UndoCount, UndoOp};
use remote_edit::{Placed, mark_undo_by_index, place_remote_into};
use rope_chunks::Rope;
use rope_edits::{TextRopes, apply_moves_into};
use std::alloc::Global;
use sum_tree::SumTree;
use undo_map::UndoMap;

/// The stamp of every base.
pub const BASE: Lamport = Lamport {
    value: 1,
    replica: 0,
};

/// The fragments of a history with their index, its undo counts, and the bytes of its shown and of its hidden cells.
#[derive(Drop)]
pub struct Content {
    pub fragments: SumTree<Fragment>,
    pub index: InsertionIndex,
    pub undos: UndoMap,
    pub text: Rope,
    pub hidden: Rope,
}

impl Content {
    /// The content of a base alone. Linear in its text.
    pub fn over(alloc: Global, text: &str) -> Result<Content, OutOfMemory>
        requires { length text.now ≤ 2 ^ 40 }
        ensures { IfOk result (λ c. IsContent c (base text.now ∷ [])) }
    {
        let undos = UndoMap::new(alloc)?;
        let texts = base_texts(alloc, text)?;
        let (fragments, index) = base_fragments(alloc, text)?;
        Ok(Content {
            fragments,
            index,
            undos,
            text: texts.shown,
            hidden: texts.hidden,
        })
    }

    /// An equal content that shares everything with it. Copies nothing.
    pub fn share(&self) -> Result<Content, OutOfMemory>
        ensures { IfOk result (λ c. (h : History) → IsContent self.now h → IsContent c h) }
    {
        let undos = self.undos.share()?;
        let texts = self.share_texts()?;
        let (fragments, index) = self.share_fragments()?;
        Ok(Content {
            fragments,
            index,
            undos,
            text: texts.shown,
            hidden: texts.hidden,
        })
    }

    /// Both texts again, which share everything with these. Copies nothing.
    pub fn share_texts(&self) -> Result<TextRopes, OutOfMemory>
        ensures shown { IfOk result (λ t. t.shown ≡ self.now.text) }
        ensures hidden { IfOk result (λ t. t.hidden ≡ self.now.hidden) }
    {
        Ok(TextRopes {
            shown: self.text.share()?,
            hidden: self.hidden.share()?,
        })
    }

    // The fragments and their index.
    fn share_fragments(&self) -> Result<(SumTree<Fragment>, InsertionIndex), OutOfMemory>
        ensures fragments { IfOk result (λ r. r.0 ≡ self.now.fragments) }
        ensures index { IfOk result (λ r. r.1 ≡ self.now.index) }
    {
        Ok((self.fragments.share()?, self.index.share()?))
    }

    /// The content of the history with one operation more, which is good. This costs a few descents for each of its
    /// pieces, the fragments in their ranges and those that its counts concern. What no other content shares changes
    /// in place.
    ///
    /// # Errors
    ///
    /// Fails only if an allocation fails. The content is dropped then.
    pub fn with_operation(self, alloc: Global, op: &Operation) -> Result<Content, OutOfMemory>
        requires { MayAdd self op.now }
        ensures { IfOk result (λ c. IsWithOperation self op.now c) }
    {
        match op {
            Operation::Edit(edit) => self.with_edit(alloc, edit),
            Operation::Undo(undo) => self.with_undo(alloc, undo),
        }
    }

    // The content of the history with an edit that is good.
    fn with_edit(self, alloc: Global, edit: &EditOp) -> Result<Content, OutOfMemory>
        requires { MayAdd self (Edit edit.now) }
        ensures { IfOk result (λ c. IsWithOperation self (Edit edit.now) c) }
    {
        let Content {
            fragments,
            index,
            undos,
            text,
            hidden,
        } = self;
        let placed = place_remote_into(alloc, fragments, index, &undos, edit)?;
        let ropes = TextRopes {
            shown: text,
            hidden,
        };
        Content::after_moves(alloc, placed, undos, ropes, edit.pieces.as_slice())
    }

    // The content of the history with an undo that is good.
    fn with_undo(self, alloc: Global, undo: &UndoOp) -> Result<Content, OutOfMemory>
        requires { MayAdd self (Undo undo.now) }
        ensures { IfOk result (λ c. IsWithOperation self (Undo undo.now) c) }
    {
        let Content {
            fragments,
            index,
            undos,
            text,
            hidden,
        } = self;
        let undos = undos.put_undo(alloc, undo)?;
        let edits = edits_of(alloc, undo.counts.as_slice())?;
        let placed = mark_undo_by_index(
            alloc,
            &fragments,
            &index,
            &undos,
            undo.stamp,
            edits.as_slice(),
        )?;
        let ropes = TextRopes {
            shown: text,
            hidden,
        };
        Content::after_moves(alloc, placed, undos, ropes, &[])
    }

    /// The fragments and the index that an operation makes, with what its moves make of both texts. The new texts are
    /// copied. What no other content shares of the ropes changes in place.
    ///
    /// # Errors
    ///
    /// Fails only if an allocation fails. What was handed in is dropped then.
    pub fn after_moves(
        alloc: Global,
        placed: Placed,
        undos: UndoMap,
        ropes: TextRopes,
        pieces: &[Piece],
    ) -> Result<Content, OutOfMemory>
        requires texts { TakeTexts placed.moves ropes.shown ropes.hidden (texts pieces.now) }
        requires room { length ropes.shown + length ropes.hidden + text_total pieces.now
            ≤ 2 ^ 40 }
        ensures { IfOk result (λ c. IsMoved c placed undos ropes.shown ropes.hidden
            (texts pieces.now)) }
    {
        let Placed {
            fragments,
            index,
            moves,
        } = placed;
        let TextRopes { shown, hidden } = ropes;
        let ropes = apply_moves_into(alloc, shown, hidden, moves.as_slice(), pieces)?;
        Ok(Content {
            fragments,
            index,
            undos,
            text: ropes.shown,
            hidden: ropes.hidden,
        })
    }
}

// The edits that counts are of.
fn edits_of(alloc: Global, counts: &[UndoCount]) -> Result<Vec<Lamport>, OutOfMemory>
    ensures { IfOk result (λ ts. ts.items ≡ map (λ c. c.edit) counts.now) }
{
    let mut edits = Vec::with_capacity(alloc, counts.len())?;
    for count in counts {
        edits.push(count.edit)?;
    }
    Ok(edits)
}

// Both texts of a base.
fn base_texts(alloc: Global, text: &str) -> Result<TextRopes, OutOfMemory>
    requires { length text.now ≤ 2 ^ 40 }
    ensures shown { IfOk result (λ t. t.shown ≡ text.now) }
    ensures hidden { IfOk result (λ t. t.hidden ≡ []) }
{
    Ok(TextRopes {
        shown: Rope::from_str(alloc, text)?,
        hidden: Rope::new(alloc)?,
    })
}

// The fragments of a base and their index: one with all its cells, and none where it has no text.
fn base_fragments(
    alloc: Global,
    text: &str,
) -> Result<(SumTree<Fragment>, InsertionIndex), OutOfMemory>
    requires { length text.now ≤ 2 ^ 40 }
    ensures fragments { IfOk result (λ r. r.0.items ≡ fragments_of (base text.now ∷ [])) }
    ensures stand { IfOk result (λ r. Stand r.0.items r.1 [] (base text.now ∷ [])) }
    ensures whole { IfOk result
        (λ r. AllByRecursion (IsWhole (base text.now ∷ [])) (runs r.0.items)) }
{
    if text.is_empty() {
        return Ok((SumTree::new(alloc)?, InsertionIndex::new(alloc)?));
    }
    let whole = whole_base(alloc, text.len() as u64)?;
    let index = index_one(alloc, &whole)?;
    Ok((plant_one(alloc, whole)?, index))
}

// The index of one fragment.
fn index_one(alloc: Global, fragment: &Fragment) -> Result<InsertionIndex, OutOfMemory>
    ensures { IfOk result (λ w. w ≡ index_of_one fragment.now) }
{
    let id = fragment.id.copy(alloc)?;
    let mut index = InsertionIndex::new(alloc)?;
    index.add(alloc, fragment.stamp, fragment.offset, id)?;
    Ok(index)
}

// The tree of one fragment.
fn plant_one(alloc: Global, fragment: Fragment) -> Result<SumTree<Fragment>, OutOfMemory>
    requires { fragment.len ≤ 2 ^ 40 }
    ensures { IfOk result (λ t. t.items ≡ fragment ∷ []) }
{
    let mut fragments = Vec::new(alloc);
    fragments.push(fragment)?;
    SumTree::from_list(alloc, fragments)
}

// One fragment with all cells of a base.
fn whole_base(alloc: Global, len: u64) -> Result<Fragment, OutOfMemory>
    ensures fragment { IfOk result (λ f. (t : List ℕ) → length t ≡ len → f ≡ whole_base f.id t) }
    ensures id { IfOk result (λ f. f.id ≡ between_digits least_digits greatest_digits) }
    ensures above { IfOk result (λ f. IsLess least_digits f.id) }
    ensures below { IfOk result (λ f. IsLess f.id greatest_digits) }
    ensures ends { IfOk result (λ f. EndsAboveZero f.id) }
{
    Ok(Fragment {
        id: Locator::between(alloc, &Locator::least(alloc)?, &Locator::greatest(alloc)?)?,
        stamp: BASE,
        offset: 0,
        len,
        visible: true,
        deletions: Stamps::new(alloc),
        max_undos: Version::new(alloc),
    })
}

//! Texts and the lists of an operation, which contracts see as lists.
ghost use Rattle.std.specs.Prelude.{◌≡◌, [], ◌∷◌, string_bytes, IfOk};

use crate::items::Items;
use crate::{OutOfMemory, Piece, UndoCount};
use arrayvec::ArrayString;
use std::alloc::Global;
use std::marker::Model;
use std::mem::size_of;
use std::slice;
use std::sync::Arc;

/// A text, seen as its bytes. Up to 16 bytes are stored in place, without an allocation.
#[derive(Drop)]
pub struct Text {
    form: TextForm,
}

// As large as a string with a tag.
const _: () = prove!(size_of::<Text>() == 32);

#[derive(Drop)]
enum TextForm {
    Short(ArrayString<16>),
    Long(String),
}

impl Model for Text {
    ghost use Rattle.std.specs.Prelude.{List, ℕ};
    ghost use Rattle.op_model.specs.Items.{form_bytes};

    ghost Value = { List ℕ };

    ghost view = { λ t. form_bytes t.form };
}

impl Text {
    /// Makes a text of a string, which is freed if the text is stored in place. Does not allocate.
    pub fn new(inner: String) -> Text
        ensures { result ≡ string_bytes inner }
    {
        let form = match ArrayString::from(inner.as_str()).ok() {
            Some(text) => TextForm::Short(text),
            None => TextForm::Long(inner),
        };
        Text { form }
    }

    /// Borrows the text. O(1); does not allocate.
    pub fn as_str(&self) -> &str
        ensures { result.now ≡ self.now }
    {
        match &self.form {
            TextForm::Short(text) => text.as_str(),
            TextForm::Long(text) => text.as_str(),
        }
    }

    /// Returns an equal text. Linear in its bytes; allocates only if they are more than 16.
    ///
    /// # Errors
    ///
    /// `OutOfMemory` if an allocation fails.
    pub fn copy(&self, alloc: Global) -> Result<Text, OutOfMemory>
        ensures { IfOk result (λ text. text ≡ self.now) }
    {
        let form = match &self.form {
            TextForm::Short(text) => TextForm::Short(*text),
            TextForm::Long(text) => TextForm::Long(String::from_str(alloc, text.as_str())?),
        };
        Ok(Text { form })
    }
}

/// The pieces of an edit, seen as their list. They have one owner, or their copies share them (`into_shared`). A single
/// piece is shared without a vector, in one block.
#[derive(Drop)]
pub struct Pieces {
    items: Items<Piece>,
}

impl Model for Pieces {
    ghost use Rattle.std.specs.Prelude.{List};
    ghost use Rattle.op_model.specs.declared.operation.Piece.{Piece};
    ghost use Rattle.op_model.specs.Items.{items_of};

    ghost Value = { List Piece };

    ghost view = { λ p. items_of p.items };
}

impl Pieces {
    /// Returns equal pieces. Linear in their number and in the bytes of their texts.
    pub fn copy_of(alloc: Global, pieces: &[Piece]) -> Result<Pieces, OutOfMemory>
        ensures { IfOk result (λ ps. ps ≡ pieces.now) }
    {
        let mut copies = Vec::with_capacity(alloc, pieces.len())?;
        for p in pieces {
            copies.push(Piece {
                start: p.start,
                end: p.end,
                text: p.text.copy(alloc)?,
            })?;
        }
        Ok(Pieces::new(copies))
    }

    /// A list of one piece, which copies share. O(1).
    ///
    /// # Errors
    ///
    /// `OutOfMemory` if an allocation fails; the piece is then dropped.
    pub fn of(alloc: Global, piece: Piece) -> Result<Pieces, OutOfMemory>
        ensures { IfOk result (λ ps. ps ≡ piece ∷ []) }
    {
        Ok(Pieces {
            items: Items::of(alloc, piece)?,
        })
    }

    /// Makes a list of pieces of a vector. Does not allocate.
    pub fn new(inner: Vec<Piece>) -> Pieces
        ensures { result ≡ inner.items }
    {
        Pieces {
            items: Items::Own(inner),
        }
    }

    /// Borrows the pieces, in their order. O(1); does not allocate.
    pub fn as_slice(&self) -> &[Piece]
        ensures { result.now ≡ self.now }
    {
        match &self.items {
            Items::Own(items) => items,
            Items::One(item) => slice::from_ref(&**item),
            Items::Several(items) => items,
        }
    }

    /// Returns equal pieces that copies share, without spare capacity. Linear in their number if there is some, otherwise
    /// O(1); copies no text. If an allocation fails, the pieces are dropped.
    pub fn into_shared(self, alloc: Global) -> Result<Pieces, OutOfMemory>
        ensures { IfOk result (λ ps. ps ≡ self) }
    {
        Ok(Pieces {
            items: self.items.into_shared(alloc)?,
        })
    }

    /// Returns equal pieces. If they are shared, the copy shares them: O(1), without allocating. Otherwise linear in
    /// their number and in the bytes of their texts.
    pub fn copy(&self, alloc: Global) -> Result<Pieces, OutOfMemory>
        ensures { IfOk result (λ ps. ps ≡ self.now) }
    {
        match &self.items {
            Items::Own(items) => Pieces::copy_of(alloc, items),
            Items::One(item) => Ok(Pieces {
                items: Items::One(Arc::try_clone(item)?),
            }),
            Items::Several(items) => Ok(Pieces {
                items: Items::Several(Arc::try_clone(items)?),
            }),
        }
    }
}

/// The counts of an undo, seen as their list. They have one owner, or their copies share them (`into_shared`). A single
/// count is stored in place, without an allocation.
#[derive(Drop)]
pub struct Counts {
    form: CountForm,
}

#[derive(Drop)]
enum CountForm {
    One(UndoCount),
    Own(Vec<UndoCount>),
    Shared(Arc<Vec<UndoCount>>),
}

impl Model for Counts {
    ghost use Rattle.std.specs.Prelude.{List};
    ghost use Rattle.op_model.specs.declared.operation.UndoCount.{UndoCount};
    ghost use Rattle.op_model.specs.Items.{form_counts};

    ghost Value = { List UndoCount };

    ghost view = { λ c. form_counts c.form };
}

impl Counts {
    /// Returns equal counts. Linear in their number.
    pub fn copy_of(alloc: Global, counts: &[UndoCount]) -> Result<Counts, OutOfMemory>
        ensures { IfOk result (λ cs. cs ≡ counts.now) }
    {
        let form = match *counts {
            [count] => CountForm::One(count),
            _ => CountForm::Own(Vec::from_slice(alloc, counts)?),
        };
        Ok(Counts { form })
    }

    /// Makes a list of counts of a vector, which is freed if it has a single one. Does not allocate.
    pub fn new(inner: Vec<UndoCount>) -> Counts
        ensures { result ≡ inner.items }
    {
        let form = match *inner.as_slice() {
            [count] => CountForm::One(count),
            _ => CountForm::Own(inner),
        };
        Counts { form }
    }

    /// Borrows the counts, in their order. O(1); does not allocate.
    pub fn as_slice(&self) -> &[UndoCount]
        ensures { result.now ≡ self.now }
    {
        match &self.form {
            CountForm::One(count) => slice::from_ref(count),
            CountForm::Own(counts) => counts,
            CountForm::Shared(counts) => counts,
        }
    }

    /// Returns equal counts that copies share, without spare capacity. Linear in their number if there is some, otherwise
    /// O(1). If an allocation fails, the counts are dropped.
    pub fn into_shared(self, alloc: Global) -> Result<Counts, OutOfMemory>
        ensures { IfOk result (λ cs. cs ≡ self) }
    {
        let form = match self.form {
            CountForm::Own(mut counts) => {
                counts.shrink_to_fit();
                CountForm::Shared(Arc::new(alloc, counts)?)
            }
            form => form,
        };
        Ok(Counts { form })
    }

    /// Returns equal counts. If they are shared, the copy shares them: O(1), without allocating. Otherwise linear in
    /// their number.
    pub fn copy(&self, alloc: Global) -> Result<Counts, OutOfMemory>
        ensures { IfOk result (λ cs. cs ≡ self.now) }
    {
        let form = match &self.form {
            CountForm::One(count) => CountForm::One(*count),
            CountForm::Own(counts) => return Counts::copy_of(alloc, counts),
            CountForm::Shared(counts) => CountForm::Shared(Arc::try_clone(counts)?),
        };
        Ok(Counts { form })
    }
}

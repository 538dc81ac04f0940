//! Selections as values: ranges that keep to bytes, and the operation that has them.
ghost use Rattle.std.specs.Prelude.{◌≡◌, IfOk};
ghost use Rattle.selections.specs.Same.{same_anchor, same_bias, same_operation, same_selection};
ghost use Rattle.op_model.specs.Answers.{same_list};
ghost use Rattle.op_model.specs.declared.anchor.Anchor.TheVariants.{At};

use crate::OutOfMemory;
use lamport_clock::{Lamport, is_same};
use op_model::{Anchor, Bias};
use std::alloc::Global;
use std::marker::Model;
use std::sync::Arc;

/// A range of a text whose ends keep to bytes while the text around them changes. A caret has one Right anchor twice.
#[derive(Clone, Copy, Debug, PartialEq, Eq)]
pub struct Selection {
    /// Where the range starts: a Right anchor, so that text inserted there is before the range.
    pub start: Anchor,
    /// Where it ends: a Left anchor, unless it is a caret, so that text inserted there is after the range.
    pub end: Anchor,
}

/// The selections of a replica, seen as their list. They have one owner, or their copies share them (`into_shared`).
#[derive(Drop)]
pub struct Ranges {
    form: RangeForm,
}

#[derive(Drop)]
enum RangeForm {
    Own(Vec<Selection>),
    Shared(Arc<Vec<Selection>>),
}

impl Model for Ranges {
    ghost use Rattle.std.specs.Prelude.{List};
    ghost use Rattle.selections.specs.declared.selection.Selection.{Selection};
    ghost use Rattle.selections.specs.Forms.{form_ranges};

    ghost Value = { List Selection };

    ghost view = { λ r. form_ranges r.form };
}

impl Ranges {
    /// Makes a list of selections of a vector. Does not allocate.
    pub fn new(inner: Vec<Selection>) -> Ranges
        ensures { result ≡ inner.items }
    {
        Ranges {
            form: RangeForm::Own(inner),
        }
    }

    /// Borrows the selections, in their order. O(1); does not allocate.
    pub fn as_slice(&self) -> &[Selection]
        ensures { result.now ≡ self.now }
    {
        match &self.form {
            RangeForm::Own(ranges) => ranges,
            RangeForm::Shared(ranges) => ranges,
        }
    }

    /// Returns equal selections that copies share, without spare capacity. Linear in their number if there is some,
    /// otherwise O(1). If an allocation fails, the selections are dropped.
    pub fn into_shared(self, alloc: Global) -> Result<Ranges, OutOfMemory>
        ensures { IfOk result (λ rs. rs ≡ self) }
    {
        let form = match self.form {
            RangeForm::Own(mut ranges) => {
                ranges.shrink_to_fit();
                RangeForm::Shared(Arc::new(alloc, ranges)?)
            }
            form => form,
        };
        Ok(Ranges { form })
    }

    /// Returns equal selections. If they are shared, the copy shares them: O(1), without allocating. Otherwise linear
    /// in their number.
    pub fn copy(&self, alloc: Global) -> Result<Ranges, OutOfMemory>
        ensures { IfOk result (λ rs. rs ≡ self.now) }
    {
        let form = match &self.form {
            RangeForm::Own(ranges) => RangeForm::Own(Vec::from_slice(alloc, ranges)?),
            RangeForm::Shared(ranges) => RangeForm::Shared(Arc::try_clone(ranges)?),
        };
        Ok(Ranges { form })
    }
}

/// What a replica selected at one time. It replaces what the replica had selected before, and is sent to the others.
#[derive(Drop)]
pub struct SelectionOp {
    /// The name of the operation: its author, and the value of the clock of the author's sets.
    pub stamp: Lamport,
    /// The selections, in the order in which they were given. The list is empty if the replica has no caret.
    pub ranges: Ranges,
}

impl SelectionOp {
    /// Whether the two are equal: with the same stamp, and the same selections in the same order. Linear in their
    /// number; does not allocate.
    pub fn same(&self, other: &SelectionOp) -> bool
        ensures { result ≡ same_operation self.now other.now }
    {
        is_same(self.stamp, other.stamp)
            && same_ranges(self.ranges.as_slice(), other.ranges.as_slice())
    }

    /// Returns an equal operation. Costs what `Ranges::copy` does: O(1) for those that `SelectionSets::set` returns.
    ///
    /// # Errors
    ///
    /// `OutOfMemory` if an allocation fails.
    pub fn copy(&self, alloc: Global) -> Result<SelectionOp, OutOfMemory>
        ensures { IfOk result (λ op. op ≡ self.now) }
    {
        Ok(SelectionOp {
            stamp: self.stamp,
            ranges: self.ranges.copy(alloc)?,
        })
    }
}

fn same_ranges(a: &[Selection], b: &[Selection]) -> bool
    ensures { result ≡ same_list same_selection a.now b.now }
{
    if a.len() != b.len() {
        return false;
    }
    for (i, range) in a.iter().enumerate() {
        if !same_selection(*range, b[i]) {
            return false;
        }
    }
    true
}

fn same_selection(a: Selection, b: Selection) -> bool
    ensures { result ≡ same_selection a b }
{
    same_anchor(a.start, b.start) && same_anchor(a.end, b.end)
}

fn same_anchor(a: Anchor, b: Anchor) -> bool
    ensures { result ≡ same_anchor a b }
{
    match a {
        Anchor::Least => matches!(b, Anchor::Least),
        Anchor::Greatest => matches!(b, Anchor::Greatest),
        Anchor::At {
            stamp,
            offset,
            bias,
        } => is_at(b, stamp, offset, bias),
    }
}

// Whether an anchor is the one at this byte, on this side.
fn is_at(anchor: Anchor, byte: Lamport, place: u64, side: Bias) -> bool
    ensures { result ≡ same_anchor (At byte place side) anchor }
{
    match anchor {
        Anchor::At {
            stamp,
            offset,
            bias,
        } => is_same(byte, stamp) && place == offset && same_bias(side, bias),
        _ => false,
    }
}

fn same_bias(a: Bias, b: Bias) -> bool
    ensures { result ≡ same_bias a b }
{
    match a {
        Bias::Left => matches!(b, Bias::Left),
        Bias::Right => matches!(b, Bias::Right),
    }
}

//! What changed in a text, as C gets it.
ghost use Rattle.std.specs.Prelude.{◌≡◌, map, IfOk};
ghost use Rattle.c_values.specs.TextChanges.{text_change};

use op_model::{OutOfMemory, TextEdit};
use std::alloc::Global;

/// A range of an old text, and the range of the new text that stands in its place, in bytes. The ends are not included.
#[repr(C)]
#[derive(Clone, Copy)]
pub struct TextChange {
    /// The start of the range of the old text.
    pub old_start: u64,
    /// Its end.
    pub old_end: u64,
    /// The start of the range of the new text.
    pub new_start: u64,
    /// Its end.
    pub new_end: u64,
}

/// The changes of text edits, in their order. Linear in their number; allocates once.
///
/// # Errors
///
/// `OutOfMemory` if an allocation fails.
pub fn text_changes_of(alloc: Global, edits: &[TextEdit]) -> Result<Vec<TextChange>, OutOfMemory>
    ensures { IfOk result (λ cs. cs.items ≡ map text_change edits.now) }
{
    let mut made = Vec::with_capacity(alloc, edits.len())?;
    for edit in edits {
        made.push(TextChange {
            old_start: edit.old.0,
            old_end: edit.old.1,
            new_start: edit.new.0,
            new_end: edit.new.1,
        })?;
    }
    Ok(made)
}

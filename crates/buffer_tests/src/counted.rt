//! An edit by the call that counts its steps.
ghost use Rattle.std.specs.Prelude.{◌≡◌, ◌<◌};

use op_model::{Operation, Piece};
use std::marker::Brand;
use std::sync::ledger::{Blank, Ledger};
use text_buffer::{Buffer, EditFault, Steps};

/// Makes an edit whose steps are counted, on a counter that nobody looks at.
pub(crate) fn edit_and_count(
    buffer: &mut Buffer,
    changes: &[Piece],
) -> Result<Operation, EditFault> {
    edit_with::<Brand>(buffer, changes, Blank::new(1))
}

// The same with a counter that is made of the blank.
fn edit_with<L: Ledger>(
    buffer: &mut Buffer,
    changes: &[Piece],
    blank: Blank,
) -> Result<Operation, EditFault>
    requires name { blank.name ≡ L.name }
    requires parts { blank.parts ≡ L.parts }
    requires some { 0 < blank.parts }
{
    let mut steps = Steps::<L>::new(blank);
    buffer.edit(changes, &mut steps)
}

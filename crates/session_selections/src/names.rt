//! Operations that are kept under names.
ghost use Rattle.std.specs.Prelude.{◌≡◌, Some, IfOk, OnErr, OnOk};
ghost use Rattle.session_selections.specs.Names.{by_bytes, under, with_name};

use crate::OutOfMemory;
use op_model::Text;
use selections::SelectionOp;
use std::alloc::Global;
use std::collections::BTreeMap;

/// Keeps the operation under the name, in the place of what is there. Logarithmic in the names.
pub fn keep(
    alloc: Global,
    selects: &mut BTreeMap<String, SelectionOp>,
    name: &Text,
    op: SelectionOp,
) -> Result<(), OutOfMemory>
    ensures ok { OnOk result (by_bytes selects.new.entries
        ≡ with_name name.now (Some op) (by_bytes selects.old.entries)) }
    ensures err { OnErr result (by_bytes selects.new.entries ≡ by_bytes selects.old.entries) }
{
    selects.insert(String::from_str(alloc, name.as_str())?, op)?;
    Ok(())
}

/// A copy of the operation that is kept under the name, if one is. Logarithmic in the names.
pub fn copy_under(
    alloc: Global,
    selects: &BTreeMap<String, SelectionOp>,
    name: &Text,
) -> Result<Option<SelectionOp>, OutOfMemory>
    ensures { IfOk result (λ op. op ≡ under name.now (by_bytes selects.now.entries)) }
{
    match selects.get(name.as_str()) {
        Some(op) => Ok(Some(op.copy(alloc)?)),
        None => Ok(None),
    }
}

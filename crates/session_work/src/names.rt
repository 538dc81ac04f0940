//! What is kept under names, and what is reported of it.
ghost use Rattle.std.specs.Prelude.{◌≡◌, Some, IfOk, OnOk};
ghost use Rattle.std.specs.Option.{option_copied};
ghost use Rattle.std.specs.Result.{result_err, result_ok};
ghost use Rattle.session_work.specs.Names.{anchor_answer, by_bytes, since_answer, under, where_answer, with_name};

use crate::OutOfMemory;
use lamport_clock::Version;
use op_model::{Anchor, PlaceFault, SinceFault, Text};
use session_lines::{AnchorAnswer, SinceAnswer, TextEdits, WhereAnswer};
use std::alloc::Global;
use std::collections::BTreeMap;
use text_buffer::{Snapshot, UnknownAnchor};

/// Keeps the value under the name, in the place of what is there. Logarithmic in the names.
pub fn keep<V: Drop>(
    alloc: Global,
    names: &mut BTreeMap<String, V>,
    name: &Text,
    value: V,
) -> Result<(), OutOfMemory>
    ensures { OnOk result (by_bytes names.new.entries
        ≡ with_name name.now (Some value) (by_bytes names.old.entries)) }
{
    names.insert(String::from_str(alloc, name.as_str())?, value)?;
    Ok(())
}

/// What is kept under the name. Logarithmic in the names.
pub fn find<'a, V>(names: &'a BTreeMap<String, V>, name: &Text) -> Option<&'a V>
    ensures { option_copied result ≡ under name.now (by_bytes names.now.entries) }
{
    names.get(name.as_str())
}

/// Keeps the anchor that was made, if one was, and returns the outcome.
pub fn keep_anchor(
    alloc: Global,
    anchors: &mut BTreeMap<String, Anchor>,
    name: &Text,
    made: Result<Anchor, PlaceFault>,
) -> Result<AnchorAnswer, OutOfMemory>
    ensures answer { IfOk result (λ a. a ≡ anchor_answer (result_err made)) }
    ensures anchors { OnOk result (by_bytes anchors.new.entries
        ≡ with_name name.now (result_ok made) (by_bytes anchors.old.entries)) }
{
    match made {
        Ok(anchor) => {
            keep(alloc, anchors, name, anchor)?;
            Ok(AnchorAnswer::Set)
        }
        Err(fault) => Ok(AnchorAnswer::Fault(fault)),
    }
}

/// Where the anchor, if there is one, is in the snapshot's text.
pub fn where_answer(snapshot: &Snapshot, anchor: Option<&Anchor>) -> WhereAnswer
    ensures { result ≡ where_answer (option_copied anchor.entry) snapshot.now }
{
    let Some(anchor) = anchor else {
        return WhereAnswer::Nothing;
    };
    match snapshot.resolve(anchor) {
        Ok(offset) => WhereAnswer::Offset(offset),
        Err(UnknownAnchor { .. }) => WhereAnswer::Unknown,
    }
}

/// What changed in the snapshot's text since the version.
pub fn since_answer(snapshot: &Snapshot, version: &Version) -> Result<SinceAnswer, OutOfMemory>
    ensures { IfOk result (λ a. a ≡ since_answer version.now snapshot.now) }
{
    match snapshot.since(version) {
        Ok(edits) => Ok(SinceAnswer::Edits(TextEdits::new(edits.into_vec()))),
        Err(SinceFault::OutOfMemory) => Err(OutOfMemory),
        Err(fault) => Ok(SinceAnswer::Fault(fault)),
    }
}

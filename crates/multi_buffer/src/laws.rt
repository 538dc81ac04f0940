//! Laws of what multibuffers answer, shown by functions that do nothing.
ghost use Rattle.multi_buffer.specs.Laws.{EditsReplace, PlacesComeBack, ShownEndsStay};

use crate::MultiBuffer;

/// The place of a place: what `to_source` says of a place of the text, `to_multi` says of that one.
pub fn places_come_back(multi: &MultiBuffer)
    ensures { PlacesComeBack multi.now }
{
    multi.known();
}

/// Edits through the text: if each buffer that has pieces of `split` is edited by them, as it was synced last, and
/// synced after that, the text is the old one with the changes, each with its text as it enters its buffer.
pub fn edits_replace(multi: &MultiBuffer)
    ensures { EditsReplace multi.now }
{
    multi.known();
}

/// Ends that stay: where a buffer's later snapshot shows the byte that an end of an excerpt keeps to, the anchor that is
/// made again there is the same.
pub fn ends_stay()
    ensures { ShownEndsStay }
{}

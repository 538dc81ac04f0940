//! The laws of what a text with folds shows, as functions that do nothing.
ghost use Rattle.fold_spans.specs.Laws.{MarksAreLocal, KeptMarksStay, PartsAreMadeAgain, WindowsFit, ShownPlaceBySpan, TextPlaceBySpan, ShownPlacesComeBack, ShownAtMostThrice};

/// The marks of some bytes depend only on the ranges that hold one of them.
pub fn marks_are_local()
    ensures { MarksAreLocal }
{}

/// Kept bytes after a kept byte keep their marks, and so do those at the start of both texts.
pub fn kept_marks_stay()
    ensures { KeptMarksStay }
{}

/// If each part of a text that is made again holds edits whole and no edit touches the others, the old marks with those of these
/// parts in their places are the marks of the new text, made from nothing.
pub fn parts_are_made_again()
    ensures { PartsAreMadeAgain }
{}

/// Windows that hold the edits whole, with the parts between them, are parts of that kind.
pub fn windows_fit()
    ensures { WindowsFit }
{}

/// The shown place of a place follows from the span that holds it and both lengths before the span.
pub fn shown_place_by_span()
    ensures { ShownPlaceBySpan }
{}

/// The place of a shown place follows from the span that shows it and both lengths before the span.
pub fn text_place_by_span()
    ensures { TextPlaceBySpan }
{}

/// The place of the shown place of a place is that place again, unless it is strictly inside a ⋯.
pub fn shown_places_come_back()
    ensures { ShownPlacesComeBack }
{}

/// Spans show at most three bytes for each of the text.
pub fn shown_at_most_thrice()
    ensures { ShownAtMostThrice }
{}

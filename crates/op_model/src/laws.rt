//! The laws of histories, shown by functions that do nothing.
ghost use Rattle.op_model.specs.Laws.{SameSetsAgree, PartsAreFiltered, GoodIsLaidIn, ReplayedByStamps, LeftNeighbours, EachCellOnce, DeletersDelete, EditChanges, NewCellsShown, UndoChanges, OneWalk, TextsAreUtf8, BoundariesAreStd, EqualOperationsAreSame, EditsAreGood, UndosAreGood, SettlingEnds, SettlingKeepsLawful, RunsStayLawful, TextsAreShownCells, SameSetsAnswerAlike, AnchorsStandWhereMade, AnchorsStandInOrder, RightAnchorsAreKnown, TwoPassesAreEnough, SetIsNeverRefused, SetIsAppliedWhole, HonestSetsAreApplied, SettlingAppends, RunsAppend, FrontsAreLawful, FrontsAreSeen, ClosedParts, SameSetsRefuseAlike, AnchorsKeepTheirOrder, UndoIsTold, WalksLeaveCells, EditsSinceTellTheChange, HiddenTextsAreUtf8, FactsChangeAtBoundaries, WalksKeepRunsWhole, AnchorsResolve, HonestSetsAreAppliedWhole, EditsSinceAreAtBoundaries, LawfulIsHistory, TextsAtClosedVersions, SettlingGoesOn, StopsLeaveFronts, GoodKeepsTheRule, EnteredTextsHaveNoReturn, TextsWithoutReturnStay, NoReturnIsHeld, OpensWhatIsApplied, RunsOpenAgain, OpenedSetsAreApplied, OpenedSetsAreAppliedWhole, LocalEditsReplaceCells, PlacesAreBoundaries, PlacesByFates, PartsBeginHistories, SameVersionsSameSets, MadeAnchorsStandInOrder, ShownAnchorsAreMadeAgain};

/// Two lawful histories of the same operations show the same.
pub fn same_sets_agree()
    ensures { SameSetsAgree }
{}

/// What a version sees of a history is the history filtered.
pub fn parts_are_filtered()
    ensures { PartsAreFiltered }
{}

/// A good operation's texts are laid into the sequence.
pub fn good_is_laid_in()
    ensures { GoodIsLaidIn }
{}

/// A sequence is its operations replayed by stamps.
pub fn replayed_by_stamps()
    ensures { ReplayedByStamps }
{}

/// An operation's cells have their left neighbours in what its version sees.
pub fn left_neighbours()
    ensures { LeftNeighbours }
{}

/// A sequence has each cell once, in path order.
pub fn each_cell_once()
    ensures { EachCellOnce }
{}

/// An edit deletes what was shown at its ranges.
pub fn deleters_delete()
    ensures { DeletersDelete }
{}

/// What an edit deletes and hides.
pub fn edit_changes()
    ensures { EditChanges }
{}

/// New cells are shown.
pub fn new_cells_shown()
    ensures { NewCellsShown }
{}

/// What an undo shows and hides.
pub fn undo_changes()
    ensures { UndoChanges }
{}

/// One walk over runs of cells lays in an edit.
pub fn one_walk()
    ensures { OneWalk }
{}

/// Texts of lawful histories are UTF-8.
pub fn texts_are_utf8()
    ensures { TextsAreUtf8 }
{}

/// The boundaries of the definitions are those of `str`.
pub fn boundaries_are_std()
    ensures { BoundariesAreStd }
{}

/// The test of equal operations means equality.
pub fn equal_operations_are_same()
    ensures { EqualOperationsAreSame }
{}

/// A local edit is good and replaces its ranges.
pub fn edits_are_good()
    ensures { EditsAreGood }
{}

/// A local undo is good.
pub fn undos_are_good()
    ensures { UndosAreGood }
{}

/// Settling goes on until nothing more can be applied.
pub fn settling_ends()
    ensures { SettlingEnds }
{}

/// Settling keeps a history lawful.
pub fn settling_keeps_lawful()
    ensures { SettlingKeepsLawful }
{}

/// Every list of calls keeps the history lawful.
pub fn runs_stay_lawful()
    ensures { RunsStayLawful }
{}

/// The text is the bytes of the shown cells in order.
pub fn texts_are_shown_cells()
    ensures { TextsAreShownCells }
{}

/// Anchors and edits since depend on the set of operations alone.
pub fn same_sets_answer_alike()
    ensures { SameSetsAnswerAlike }
{}

/// An anchor stands where it was made.
pub fn anchors_stand_where_made()
    ensures { AnchorsStandWhereMade }
{}

/// Anchors stand in their order.
pub fn anchors_stand_in_order()
    ensures { AnchorsStandInOrder }
{}

/// A right anchor that is made at a boundary is known.
pub fn right_anchors_are_known()
    ensures { RightAnchorsAreKnown }
{}

/// Settling needs no more than two passes.
pub fn two_passes_are_enough()
    ensures { TwoPassesAreEnough }
{}

/// Operations of one lawful set are not refused.
pub fn set_is_never_refused()
    ensures { SetIsNeverRefused }
{}

/// A lawful set that is applied or waits is applied whole.
pub fn set_is_applied_whole()
    ensures { SetIsAppliedWhole }
{}

/// An honest set that the limits hold is applied whole.
pub fn honest_sets_are_applied()
    ensures { HonestSetsAreApplied }
{}

/// Settling appends operations that waited.
pub fn settling_appends()
    ensures { SettlingAppends }
{}

/// Every list of calls appends.
pub fn runs_append()
    ensures { RunsAppend }
{}

/// The front of a lawful history is lawful.
pub fn fronts_are_lawful()
    ensures { FrontsAreLawful }
{}

/// The version of a front sees that front.
pub fn fronts_are_seen()
    ensures { FrontsAreSeen }
{}

/// What a closed version sees is lawful, with the cells and the deletions that it sees.
pub fn closed_parts()
    ensures { ClosedParts }
{}

/// Versions, faults and answers about anchors depend on the set of operations alone.
pub fn same_sets_refuse_alike()
    ensures { SameSetsRefuseAlike }
{}

/// Known anchors stay known and keep their order.
pub fn anchors_keep_their_order()
    ensures { AnchorsKeepTheirOrder }
{}

/// After an undo the same cells stand in the same order, with the same deletions.
pub fn undo_is_told()
    ensures { UndoIsTold }
{}

/// A walk leaves no run without cells.
pub fn walks_leave_cells()
    ensures { WalksLeaveCells }
{}

/// The edits since a version take the text then to the text now.
pub fn edits_since_tell_the_change()
    ensures { EditsSinceTellTheChange }
{}

/// Hidden bytes are UTF-8.
pub fn hidden_texts_are_utf8()
    ensures { HiddenTextsAreUtf8 }
{}

/// Runs of alike facts begin and end on boundaries.
pub fn facts_change_at_boundaries()
    ensures { FactsChangeAtBoundaries }
{}

/// A walk over runs that begin and end on boundaries makes such runs.
pub fn walks_keep_runs_whole()
    ensures { WalksKeepRunsWhole }
{}

/// An anchor that is made at a boundary resolves to it.
pub fn anchors_resolve()
    ensures { AnchorsResolve }
{}

/// An honest set is applied whole if no Full came.
pub fn honest_sets_are_applied_whole()
    ensures { HonestSetsAreAppliedWhole }
{}

/// The edits since a version begin and end at character boundaries.
pub fn edits_since_are_at_boundaries()
    ensures { EditsSinceAreAtBoundaries }
{}

/// A lawful history has distinct stamps, the base first.
pub fn lawful_is_history()
    ensures { LawfulIsHistory }
{}

/// What was shown at a closed version, read from the whole history.
pub fn texts_at_closed_versions()
    ensures { TextsAtClosedVersions }
{}

/// Settling that was stopped and begun again ends as it would have ended without the stop.
pub fn settling_goes_on()
    ensures { SettlingGoesOn }
{}

/// What settling has applied when it is stopped is a front of what it would apply.
pub fn stops_leave_fronts()
    ensures { StopsLeaveFronts }
{}

/// A rule adds one fault to the plain answer and changes nothing else.
pub fn good_keeps_the_rule()
    ensures { GoodKeepsTheRule }
{}

/// A text that enters under Lf has no CR, and it stays UTF-8.
pub fn entered_texts_have_no_return()
    ensures { EnteredTextsHaveNoReturn }
{}

/// A text without CR enters as it is.
pub fn texts_without_return_stay()
    ensures { TextsWithoutReturnStay }
{}

/// If each operation keeps the rule Lf, no byte is a CR, shown or hidden.
pub fn no_return_is_held()
    ensures { NoReturnIsHeld }
{}

/// A list opens a buffer exactly if a buffer under the same rules may have applied it.
pub fn opens_what_is_applied()
    ensures { OpensWhatIsApplied }
{}

/// What a buffer has applied opens one again under the same rules.
pub fn runs_open_again()
    ensures { RunsOpenAgain }
{}

/// From an opened list on, an honest set is applied whole if no Full came.
pub fn opened_sets_are_applied_whole()
    ensures { OpenedSetsAreAppliedWhole }
{}

/// From an opened list on, an honest set that the limits hold is applied whole.
pub fn opened_sets_are_applied()
    ensures { OpenedSetsAreApplied }
{}

/// The place of a known anchor is a boundary of the text.
pub fn places_are_boundaries()
    ensures { PlacesAreBoundaries }
{}

/// The places of an anchor then and now are the numbers of cells shown before its gap.
pub fn places_by_fates()
    ensures { PlacesByFates }
{}

/// A part of a set begins a history of the whole set.
pub fn parts_begin_histories()
    ensures { PartsBeginHistories }
{}

/// A part of a set with the same version is the whole set.
pub fn same_versions_same_sets()
    ensures { SameVersionsSameSets }
{}

/// A local edit replaces the shown cells at its ranges by its own.
pub fn local_edits_replace_cells()
    ensures { LocalEditsReplaceCells }
{}

/// Of the two anchors that are made at the ends of a range, the first is less.
pub fn made_anchors_stand_in_order()
    ensures { MadeAnchorsStandInOrder }
{}

/// If an anchor's byte is shown, the anchor is made again at its place.
pub fn shown_anchors_are_made_again()
    ensures { ShownAnchorsAreMadeAgain }
{}

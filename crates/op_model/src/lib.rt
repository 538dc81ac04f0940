//! What replicas exchange, operations, and what the faults of local and taken operations are.
//!
//! The meaning of a list of operations, a history, stands in this crate's specs/.
#![tactic(auto)]

mod anchor;
mod endings;
mod faults;
mod items;
mod laws;
mod limits;
mod lists;
mod operation;
mod pieces;
mod same;
mod shapes;

pub use anchor::{Anchor, Bias, TextEdit};
pub use endings::{Endings, first_return, lf, lf_len, rule_fault};
pub use faults::{EditFault, OpFault, OpenFault, PlaceFault, SinceFault, UndoFault, Unit};
pub use lamport_clock::OutOfMemory;
pub use laws::{
    anchors_keep_their_order, anchors_resolve, anchors_stand_in_order, anchors_stand_where_made,
    boundaries_are_std, closed_parts, deleters_delete, each_cell_once, edit_changes,
    edits_are_good, edits_since_are_at_boundaries, edits_since_tell_the_change,
    entered_texts_have_no_return, equal_operations_are_same, facts_change_at_boundaries,
    fronts_are_lawful, fronts_are_seen, good_is_laid_in, good_keeps_the_rule,
    hidden_texts_are_utf8, honest_sets_are_applied, honest_sets_are_applied_whole,
    lawful_is_history, left_neighbours, local_edits_replace_cells, made_anchors_stand_in_order,
    new_cells_shown, no_return_is_held, one_walk, opened_sets_are_applied,
    opened_sets_are_applied_whole, opens_what_is_applied, parts_are_filtered,
    parts_begin_histories, places_are_boundaries, places_by_fates, replayed_by_stamps,
    right_anchors_are_known, runs_append, runs_open_again, runs_stay_lawful, same_sets_agree,
    same_sets_answer_alike, same_sets_refuse_alike, same_versions_same_sets, set_is_applied_whole,
    set_is_never_refused, settling_appends, settling_ends, settling_goes_on, settling_keeps_lawful,
    shown_anchors_are_made_again, stops_leave_fronts, texts_are_shown_cells, texts_are_utf8,
    texts_at_closed_versions, texts_without_return_stay, two_passes_are_enough, undo_changes,
    undo_is_told, undos_are_good, walks_keep_runs_whole, walks_leave_cells,
};
pub use limits::Limits;
pub use lists::{Counts, Pieces, Text};
pub use operation::{EditOp, Operation, Piece, UndoCount, UndoOp};
pub use pieces::{TEXT_LIMIT, first_overlap, first_past, first_reversed, text_total};
pub use shapes::{LAST_REPLICA, ShapeFault, shape};

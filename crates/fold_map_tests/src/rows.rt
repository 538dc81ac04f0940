//! Folds through edits, undo and redo: what is shown, by rows that were made outside.
ghost use Rattle.std.specs.Prelude.{◌≡◌};
ghost use Rattle.text_buffer.specs.Document.{IsFront};

use crate::drawn;
use crate::editor::{Authors, Places, comes_from, fold, go_on, is_shown_at, map_of, shows, unfold};
use fold_map::FoldMap;
use std::alloc::Global;
use std::process::Abort;
use text_buffer::Buffer;

/// A step of the author who has the map, but for `Theirs` and `Meet`.
#[derive(Clone, Copy)]
pub(crate) enum Step {
    Fold(u64, u64),
    /// A range, and how many folds it takes away.
    Unfold(u64, u64, u64),
    Edit(u64, u64, &'static str),
    /// An edit after which the map does not go on yet.
    Quiet(u64, u64, &'static str),
    /// The value of the stamp of an edit, which is undone or redone.
    Undo(u32),
    /// An edit of the other author.
    Theirs(u64, u64, &'static str),
    /// Each author takes what the other has made.
    Meet,
    Shows(&'static str),
    ShownAt(Places),
    From(Places),
}

pub(crate) struct Row {
    pub name: &'static str,
    pub base: &'static str,
    pub steps: &'static [Step],
}

const ROWS: &[Row] = &[
    Row {
        name: "two folds that share a byte",
        base: "abcdef",
        steps: &[
            Step::Fold(1, 3),
            Step::Fold(2, 4),
            Step::ShownAt((2, Some((1, 4)))),
            Step::Edit(2, 2, "X"),
            Step::Edit(1, 1, "Y"),
            Step::Shows("aY⋯ef"),
            Step::Unfold(2, 3, 1),
            Step::Shows("aYbX⋯ef"),
        ],
    },
    Row {
        name: "places in both texts",
        base: "abcdef",
        steps: &[
            Step::Fold(1, 3),
            Step::Shows("a⋯def"),
            Step::ShownAt((0, Some((0, 0)))),
            Step::ShownAt((1, Some((1, 1)))),
            Step::ShownAt((2, Some((1, 4)))),
            Step::ShownAt((3, Some((4, 4)))),
            Step::ShownAt((6, Some((7, 7)))),
            Step::ShownAt((7, None)),
            Step::From((1, Some((1, 1)))),
            Step::From((2, Some((1, 3)))),
            Step::From((3, Some((1, 3)))),
            Step::From((4, Some((3, 3)))),
            Step::From((7, Some((6, 6)))),
            Step::From((8, None)),
        ],
    },
    Row {
        name: "an ellipsis of the text itself",
        base: "a⋯b",
        steps: &[
            Step::From((1, Some((1, 1)))),
            Step::From((2, None)),
            Step::From((4, Some((4, 4)))),
            Step::Fold(0, 4),
            Step::Shows("⋯b"),
            Step::From((1, Some((0, 4)))),
            Step::ShownAt((2, None)),
        ],
    },
    Row {
        name: "a range that is folded twice",
        base: "abcd",
        steps: &[
            Step::Fold(1, 3),
            Step::Fold(1, 3),
            Step::Shows("a⋯d"),
            Step::Unfold(2, 3, 2),
            Step::Shows("abcd"),
        ],
    },
    Row {
        name: "folds that touch, and a range that touches",
        base: "abcdef",
        steps: &[
            Step::Fold(1, 3),
            Step::Fold(3, 5),
            Step::Shows("a⋯⋯f"),
            Step::Unfold(0, 1, 0),
            Step::Unfold(5, 6, 0),
            Step::Unfold(2, 3, 1),
            Step::Shows("abc⋯f"),
        ],
    },
    Row {
        name: "an edit that empties a fold, its undo and its redo",
        base: "abcdef",
        steps: &[
            Step::Fold(1, 3),
            Step::Edit(1, 3, ""),
            Step::Shows("adef"),
            Step::Unfold(0, 4, 0),
            Step::Undo(2),
            Step::Shows("a⋯def"),
            Step::Undo(2),
            Step::Shows("adef"),
            Step::Undo(2),
            Step::Unfold(1, 2, 1),
            Step::Shows("abcdef"),
        ],
    },
    Row {
        name: "text at both ends of a fold and inside it",
        base: "abcd",
        steps: &[
            Step::Fold(1, 3),
            Step::Edit(1, 1, "X"),
            Step::Shows("aX⋯d"),
            Step::Edit(4, 4, "Y"),
            Step::Shows("aX⋯Yd"),
            Step::Edit(3, 3, "Z"),
            Step::Shows("aX⋯Yd"),
            Step::Unfold(3, 4, 1),
            Step::Shows("aXbZcYd"),
        ],
    },
    Row {
        name: "another author's text at both ends of a fold and inside it",
        base: "abcd",
        steps: &[
            Step::Fold(1, 3),
            Step::Theirs(1, 1, "X"),
            Step::Theirs(4, 4, "Y"),
            Step::Theirs(3, 3, "Z"),
            Step::Meet,
            Step::Shows("aX⋯Yd"),
            Step::Unfold(3, 4, 1),
            Step::Shows("aXbZcYd"),
        ],
    },
    Row {
        name: "another author's text between two hidden bytes of a fold that waits",
        base: "abcd",
        steps: &[
            Step::Fold(1, 3),
            Step::Theirs(2, 2, "Z"),
            Step::Edit(1, 3, ""),
            Step::Shows("ad"),
            Step::Meet,
            Step::Shows("a⋯d"),
            Step::Undo(2),
            Step::Shows("a⋯d"),
            Step::Unfold(2, 3, 1),
            Step::Shows("abZcd"),
        ],
    },
    Row {
        name: "an edit that parts an ellipsis, text where its parts touch, and an undo that joins them",
        base: "abcdef",
        steps: &[
            Step::Fold(1, 3),
            Step::Fold(3, 5),
            Step::Fold(2, 4),
            Step::Shows("a⋯f"),
            Step::Edit(2, 4, ""),
            Step::Shows("a⋯⋯f"),
            Step::Edit(2, 2, "X"),
            Step::Shows("a⋯⋯f"),
            Step::Undo(2),
            Step::Shows("a⋯f"),
        ],
    },
    Row {
        name: "text between two ellipses",
        base: "abcdef",
        steps: &[
            Step::Fold(1, 3),
            Step::Fold(3, 5),
            Step::Shows("a⋯⋯f"),
            Step::Edit(3, 3, "X"),
            Step::Shows("a⋯X⋯f"),
            Step::Undo(2),
            Step::Shows("a⋯⋯f"),
        ],
    },
    Row {
        name: "several edits at once, far from each other, beside folds and in one",
        base: "abcdefghijklmnopqrst",
        steps: &[
            Step::Fold(2, 4),
            Step::Fold(8, 12),
            Step::Fold(16, 18),
            Step::Quiet(19, 20, "T"),
            Step::Quiet(14, 14, "X"),
            Step::Quiet(11, 12, ""),
            Step::Quiet(9, 9, "YY"),
            Step::Quiet(2, 4, ""),
            Step::Edit(0, 1, "A"),
            Step::Shows("Abefgh⋯mnXop⋯sT"),
            Step::Undo(6),
            Step::Shows("Ab⋯efgh⋯mnXop⋯sT"),
        ],
    },
    Row {
        name: "an edit that parts an ellipsis",
        base: "abcdef",
        steps: &[
            Step::Fold(1, 3),
            Step::Fold(2, 5),
            Step::Shows("a⋯f"),
            Step::Edit(2, 3, ""),
            Step::Shows("a⋯⋯f"),
            Step::Undo(2),
            Step::Shows("a⋯f"),
        ],
    },
    Row {
        name: "another author's text that joins two ellipses",
        base: "abcdefg",
        steps: &[
            Step::Fold(1, 4),
            Step::Fold(2, 6),
            Step::Theirs(3, 3, "Z"),
            Step::Edit(2, 4, ""),
            Step::Shows("a⋯⋯g"),
            Step::Meet,
            Step::Shows("a⋯g"),
            Step::Unfold(1, 2, 1),
            Step::Shows("ab⋯g"),
        ],
    },
    Row {
        name: "an edit far from the folds",
        base: "abcdefghij",
        steps: &[
            Step::Fold(1, 3),
            Step::Fold(6, 8),
            Step::Edit(4, 5, "XYZ"),
            Step::Shows("a⋯dXYZf⋯ij"),
            Step::Edit(0, 1, ""),
            Step::Shows("⋯dXYZf⋯ij"),
            Step::Edit(11, 11, "!"),
            Step::Shows("⋯dXYZf⋯ij!"),
        ],
    },
    Row {
        name: "an empty text, and a text that is folded whole",
        base: "",
        steps: &[
            Step::Shows(""),
            Step::ShownAt((0, Some((0, 0)))),
            Step::From((0, Some((0, 0)))),
            Step::Edit(0, 0, "ab"),
            Step::Fold(0, 2),
            Step::Shows("⋯"),
            Step::Edit(0, 2, ""),
            Step::Shows(""),
            Step::Edit(0, 0, "x"),
            Step::Shows("x"),
            Step::Undo(3),
            Step::Shows("⋯x"),
        ],
    },
    Row {
        name: "characters of several bytes",
        base: "aé⋯😀b",
        steps: &[
            Step::Fold(1, 6),
            Step::Shows("a⋯😀b"),
            Step::ShownAt((3, Some((1, 4)))),
            Step::ShownAt((4, None)),
            Step::From((5, None)),
            Step::From((8, Some((10, 10)))),
        ],
    },
];

// What the authors do at a step; whether the map goes on then.
fn moves(rt: &impl Abort, alloc: Global, authors: &mut Authors, step: Step) -> bool
    ensures { IsFront authors.old.own.history authors.new.own.history }
{
    match step {
        Step::Edit(s, e, text) => {
            authors.edit(rt, alloc, (s, e, text));
            true
        }
        Step::Quiet(s, e, text) => {
            authors.edit(rt, alloc, (s, e, text));
            false
        }
        Step::Theirs(s, e, text) => {
            authors.edit_theirs(rt, alloc, (s, e, text));
            false
        }
        Step::Undo(value) => {
            authors.undo(rt, value);
            true
        }
        Step::Meet => {
            authors.meet(rt);
            true
        }
        _ => false,
    }
}

// Whether the map answers to a step as the row says.
fn answers(map: &mut FoldMap, step: Step) -> bool
    ensures { map.new.history ≡ map.old.history }
{
    match step {
        Step::Fold(s, e) => fold(map, s, e) == Ok(()),
        Step::Unfold(s, e, count) => unfold(map, s, e) == Ok(count),
        Step::Shows(want) => shows(map, want),
        Step::ShownAt(places) => is_shown_at(map, places),
        Step::From(places) => comes_from(map, places),
        _ => true,
    }
}

// The map goes on to the buffer, if it is to.
fn follow(rt: &impl Abort, buffer: &Buffer, map: &mut FoldMap, goes_on: bool)
    requires { IsFront map.old.history buffer.now.history }
    ensures { IsFront map.new.history buffer.now.history }
{
    if !goes_on {
        return;
    }
    go_on(rt, buffer, map);
}

// Takes a step, and returns whether it is as the row says.
fn takes(
    rt: &impl Abort,
    alloc: Global,
    authors: &mut Authors,
    map: &mut FoldMap,
    step: Step,
) -> bool
    requires { IsFront map.old.history authors.old.own.history }
    ensures { IsFront map.new.history authors.new.own.history }
{
    let goes_on = moves(rt, alloc, authors, step);
    follow(rt, &authors.own, map, goes_on);
    answers(map, step)
}

// The number of the first step that is not as the row says, or that of all steps.
fn good_steps(
    rt: &impl Abort,
    alloc: Global,
    authors: &mut Authors,
    map: &mut FoldMap,
    steps: &[Step],
) -> usize
    requires { IsFront map.old.history authors.old.own.history }
{
    for (index, &step) in steps.iter().enumerate() {
        if !takes(rt, alloc, authors, map, step) {
            return index;
        }
    }
    steps.len()
}

// The same with a new map.
fn good_steps_from(rt: &impl Abort, alloc: Global, authors: &mut Authors, row: &Row) -> usize {
    let mut map = map_of(rt, alloc, &authors.own);
    good_steps(rt, alloc, authors, &mut map, row.steps)
}

// The same with new authors.
fn good_steps_of(rt: &impl Abort, alloc: Global, row: &Row) -> usize {
    let mut authors = Authors::new(rt, alloc, row.base);
    good_steps_from(rt, alloc, &mut authors, row)
}

// The row and the step at which rows stop, if they do.
fn stop(rt: &impl Abort, alloc: Global, rows: &[Row]) -> Option<(usize, usize)> {
    for (index, row) in rows.iter().enumerate() {
        let good = good_steps_of(rt, alloc, row);
        if good < row.steps.len() {
            return Some((index, good));
        }
    }
    None
}

#[test]
fn folds_live_through_edits(rt: HostRuntime) {
    let stop = stop(&rt, rt.alloc(), ROWS);
    assert!(rt; stop.is_none(), "row and step {stop:?}");
}

// One test for each list of drawn sessions: a list of all of them is too long for one proof.
#[test]
fn drawn_folds_live_through_edits(rt: HostRuntime) {
    let stop = stop(&rt, rt.alloc(), drawn::SEEDS_0_TO_3);
    assert!(rt; stop.is_none(), "row and step {stop:?}");
}

#[test]
fn more_drawn_folds_live_through_edits(rt: HostRuntime) {
    let stop = stop(&rt, rt.alloc(), drawn::SEEDS_4_TO_7);
    assert!(rt; stop.is_none(), "row and step {stop:?}");
}

#[test]
fn last_drawn_folds_live_through_edits(rt: HostRuntime) {
    let stop = stop(&rt, rt.alloc(), drawn::SEEDS_8_TO_11);
    assert!(rt; stop.is_none(), "row and step {stop:?}");
}

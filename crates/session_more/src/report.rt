//! A line of a report, as a value.
ghost use Rattle.std.specs.Prelude.{◌≡◌};
ghost use Rattle.session_more.specs.Reports.{more_session_counts};

use crate::session::{MoreSession, TextRanges};
use lamport_clock::Lamport;
use op_model::{EditFault, Text};
use session_lines::Report;
use std::marker::Model;

/// What comes of a line that selects ranges. Ranges are counted from 0.
#[derive(Clone, Copy, Debug, PartialEq, Eq)]
pub enum SelectAnswer {
    /// `V.R`: the operation with this stamp is kept under the name.
    Made(Lamport),
    /// `reversed I`: range I starts past its end.
    Reversed(u64),
    /// `pastend I LEN`: range I ends past the text, which has LEN bytes.
    PastEnd(u64, u64),
    /// `insidechar I`: range I starts or ends inside a character.
    InsideChar(u64),
    /// `toomany N`: there are N ranges, more than a replica may select.
    TooMany(u64),
    /// `clockend`: the clock of the replica's selections stands at its end.
    ClockEnd,
}

/// What a replica answers to selections that it is given.
#[derive(Clone, Copy, Debug, PartialEq, Eq)]
pub enum ShareAnswer {
    /// `set`: they are kept for their author.
    Set,
    /// `repeat`: the equal ones are kept.
    Repeat,
    /// `old V.R`: later ones of the author are kept, with this stamp.
    Old(Lamport),
    /// `nothing`: no selections are kept under the name.
    Nothing,
    /// `badstamp`: no replica makes an operation with this stamp.
    BadStamp,
    /// `toomany N`: there are N ranges, more than a replica may select.
    TooMany(u64),
    /// `conflict V.R`: others with this stamp are kept.
    Conflict(Lamport),
}

/// Where the selections of a replica are in a text.
#[derive(Drop)]
pub enum SelectedAnswer {
    /// `s..e, ..`: there, in the order in which they were given; `empty`, where there are none.
    Ranges(TextRanges),
    /// `none`: nothing is kept for the replica.
    Nothing,
    /// `unknown I`: range I, counted from 0, is the first with an anchor that is not known in the text.
    Unknown(u64),
}

/// Why no range is folded or unfolded. The one range is range 0.
#[derive(Clone, Copy, Debug, PartialEq, Eq)]
pub enum FoldRefusal {
    /// `reversed I`: range I starts past its end.
    Reversed(u64),
    /// `pastend I LEN`: range I ends past the text, which has LEN bytes.
    PastEnd(u64, u64),
    /// `insidechar I`: range I starts or ends inside a character.
    InsideChar(u64),
    /// `emptyrange`: the range has no byte.
    EmptyRange,
}

/// What comes of a line that folds a range.
#[derive(Clone, Copy, Debug, PartialEq, Eq)]
pub enum FoldAnswer {
    /// `set`: it is folded.
    Set,
    /// `FAULT`: nothing is.
    Refused(FoldRefusal),
}

/// What comes of a line that unfolds a range.
#[derive(Clone, Copy, Debug, PartialEq, Eq)]
pub enum UnfoldAnswer {
    /// `C`: this many folds are taken away.
    Count(u64),
    /// `FAULT`: none is.
    Refused(FoldRefusal),
}

/// Where a byte offset is shown in a text with folds.
#[derive(Clone, Copy, Debug, PartialEq, Eq)]
pub enum DisplayAnswer {
    /// `A B`: at these offsets of the shown text, the Left one first. They differ inside a fold.
    Places(u64, u64),
    /// `none`: the offset is no position of the text.
    Nothing,
}

/// What comes of a line that makes an excerpt. The one range is range 0.
#[derive(Clone, Copy, Debug, PartialEq, Eq)]
pub enum ExcerptAnswer {
    /// `I`: it is excerpt I of those under the name, counted from 0.
    Index(u32),
    /// `reversed I`: range I starts past its end.
    Reversed(u64),
    /// `pastend I LEN`: range I ends past the text, which has LEN bytes.
    PastEnd(u64, u64),
    /// `insidechar I`: range I starts or ends inside a character.
    InsideChar(u64),
}

/// Why an edit of excerpts is no edit of their replicas. Pieces and excerpts are counted from 0.
#[derive(Clone, Copy, Debug, PartialEq, Eq)]
pub enum SplitRefusal {
    /// `reversed I`: piece I starts past its end.
    Reversed(u64),
    /// `overlap I`: piece I starts before the end of the one before it.
    Overlap(u64),
    /// `pastend I LEN`: piece I ends past the text of the excerpts, which has LEN bytes.
    PastEnd(u64, u64),
    /// `insidechar I`: piece I starts or ends inside a character.
    InsideChar(u64),
    /// `textlimit N`: the new texts have N bytes together, more than an edit may have.
    TextLimit(u128),
    /// `crosses I`: no excerpt has all of piece I.
    Crosses(u64),
    /// `shared I X`: piece I is at bytes that excerpt X has too.
    Shared(u64, u32),
}

/// What an edit of excerpts is for one replica.
#[derive(Clone, Copy, Debug, PartialEq, Eq)]
pub enum PartAnswer {
    /// `V.R`: the operation with this stamp is made.
    Made(Lamport),
    /// `nothing`: no piece is of this replica.
    Nothing,
    /// `FAULT`: the replica refused the edit.
    Refused(EditFault),
}

/// `N ANSWER`: what an edit of excerpts is for the replica whose operation has number N.
#[derive(Clone, Copy, Debug, PartialEq, Eq)]
pub struct NumberAnswer {
    pub number: u64,
    pub answer: PartAnswer,
}

/// Answers of numbers, seen as their list.
#[derive(Drop)]
pub struct NumberAnswers {
    inner: Vec<NumberAnswer>,
}

impl Model for NumberAnswers {
    ghost use Rattle.std.specs.Prelude.{List};
    ghost use Rattle.session_more.specs.declared.report.NumberAnswer.{NumberAnswer};

    ghost Value = { List NumberAnswer };

    ghost view = { λ a. a.inner.items };
}

impl NumberAnswers {
    /// The answers of a vector. Does not allocate.
    pub fn new(inner: Vec<NumberAnswer>) -> NumberAnswers
        ensures { result ≡ inner.items }
    {
        NumberAnswers { inner }
    }

    /// The answers in their order. O(1); does not allocate.
    pub fn as_slice(&self) -> &[NumberAnswer]
        ensures { result.now ≡ self.now }
    {
        &self.inner
    }
}

/// What comes of a line that edits excerpts.
#[derive(Drop)]
pub enum MeditAnswer {
    /// `N ANSWER, ..`: for each replica, in the header's order.
    Numbers(NumberAnswers),
    /// `FAULT`: no replica is edited.
    Refused(SplitRefusal),
}

/// A line of a report, with what it prints.
#[derive(Drop)]
pub enum MoreReport {
    /// A line of `session_lines`.
    Plain(Report),
    /// `select NAME: ANSWER`: what comes of selecting ranges under the name.
    Select {
        name: Text,
        answer: SelectAnswer,
    },
    /// `share NAME to R: ANSWER`: what replica R answers to the selections under the name.
    Share {
        name: Text,
        replica: u16,
        answer: ShareAnswer,
    },
    /// `selected A at R: ANSWER`: where the selections of replica A are in the text of replica R.
    Selected {
        author: u16,
        replica: u16,
        answer: SelectedAnswer,
    },
    /// `fold R: ANSWER`: what comes of folding a range of the text of replica R.
    Fold {
        replica: u16,
        answer: FoldAnswer,
    },
    /// `unfold R: ANSWER`: what comes of unfolding a range of the text of replica R.
    Unfold {
        replica: u16,
        answer: UnfoldAnswer,
    },
    /// `folded R: B bytes, STRING`: the text of replica R as it is folded, which has B bytes.
    Folded {
        replica: u16,
        text: Text,
    },
    /// `display O at R: ANSWER`: where the byte offset O of the text of replica R is shown.
    Display {
        offset: u64,
        replica: u16,
        answer: DisplayAnswer,
    },
    /// `excerpt NAME: ANSWER`: what comes of making an excerpt under the name.
    Excerpt {
        name: Text,
        answer: ExcerptAnswer,
    },
    /// `multi NAME: B bytes, STRING`: the text of the excerpts under the name, which has B bytes.
    Multi {
        name: Text,
        text: Text,
    },
    /// `medit NAME: ANSWER`: what comes of editing the text of the excerpts under the name.
    Medit {
        name: Text,
        answer: MeditAnswer,
    },
}

impl MoreReport {
    /// What is counted of the session: all its lines, the header too, the ids of its header, its operation lines and
    /// its queries. Linear in its lines; does not allocate.
    pub fn check_line(session: &MoreSession) -> MoreReport
        ensures { result ≡ more_session_counts session.now }
    {
        MoreReport::Plain(Report::Checked {
            lines: session.lines.len() + 1,
            replicas: session.replicas.as_slice().len() as u64,
            operations: session.operation_count(),
            queries: session.query_count(),
        })
    }
}

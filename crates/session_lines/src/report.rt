//! A line of a report, as a value.
ghost use Rattle.std.specs.Prelude.{◌≡◌};
ghost use Rattle.session_lines.specs.Report.{session_counts};

use crate::session::{Numbers, Session};
use lamport_clock::Lamport;
use op_model::{EditFault, OpFault, PlaceFault, SinceFault, Text, TextEdit, UndoFault};
use std::marker::Model;
use text_dims::{OffsetUtf16, Point, PointUtf16};

/// What a replica answers to an operation that it is given.
#[derive(Clone, Copy, Debug, PartialEq, Eq)]
pub enum GiveAnswer {
    /// `applied C`: it was applied, and with it others that waited, C in all.
    Applied(u64),
    /// `waits R V`: it waits for the operation with value V of replica R.
    Waits { replica: u16, value: u32 },
    /// `repeat`: an equal one is applied or waits.
    Repeat,
    /// `nothing`: no operation stands under the number.
    Nothing,
    /// `FAULT`: it was refused.
    Refused(OpFault),
}

/// What comes of a line that makes an anchor.
#[derive(Clone, Copy, Debug, PartialEq, Eq)]
pub enum AnchorAnswer {
    /// `set`: it is kept.
    Set,
    /// `FAULT`: none is made there, and what is kept under the name stays.
    Fault(PlaceFault),
}

/// Where an anchor is.
#[derive(Clone, Copy, Debug, PartialEq, Eq)]
pub enum WhereAnswer {
    /// `O`: at this byte offset.
    Offset(u64),
    /// `unknown`: the replica does not know the byte that it keeps to.
    Unknown,
    /// `nothing`: no anchor is kept under the name.
    Nothing,
}

/// Edits of a text, in its order, seen as their list.
#[derive(Drop)]
pub struct TextEdits {
    inner: Vec<TextEdit>,
}

impl Model for TextEdits {
    ghost use Rattle.std.specs.Prelude.{List};
    ghost use Rattle.op_model.specs.declared.anchor.TextEdit.{TextEdit};

    ghost Value = { List TextEdit };

    ghost view = { λ e. e.inner.items };
}

impl TextEdits {
    /// The edits of a vector. It does not allocate.
    pub fn new(inner: Vec<TextEdit>) -> TextEdits
        ensures { result ≡ inner.items }
    {
        TextEdits { inner }
    }

    /// The edits in their order. O(1); does not allocate.
    pub fn as_slice(&self) -> &[TextEdit]
        ensures { result.now ≡ self.now }
    {
        &self.inner
    }
}

/// What changed in a text since a version.
#[derive(Drop)]
pub enum SinceAnswer {
    /// `a..b -> c..d, ..`: these edits, each by its range in the text then and its range in the text now; `none`, where there
    /// are none.
    Edits(TextEdits),
    /// `FAULT`: the replica has no answer for the version.
    Fault(SinceFault),
}

/// Where a needle stands in a text.
#[derive(Drop)]
pub enum FindAnswer {
    /// `S S ..`: at these byte offsets; `none`, where there are none.
    Starts(Numbers),
    /// `empty needle`: an empty needle has no places.
    EmptyNeedle,
}

/// Which point of a text is at a byte offset.
#[derive(Clone, Copy, Debug, PartialEq, Eq)]
pub enum PointAnswer {
    /// `ROW:COLUMN U ROW:UCOLUMN`: the point, the offset in UTF-16 units, and the point in UTF-16 units.
    Point {
        point: Point,
        utf16: OffsetUtf16,
        point_utf16: PointUtf16,
    },
    /// `none A B`: the offset is no position of the text; clipped Left and Right it is A and B.
    Clips {
        left: u64,
        right: u64,
    },
}

/// Which byte offset of a text is at a point.
#[derive(Clone, Copy, Debug, PartialEq, Eq)]
pub enum OffsetAnswer {
    /// `O`: the byte offset.
    Offset { offset: u64 },
    /// `none ROW:COLUMN ROW:COLUMN`: the point is no position of the text; clipped Left and Right it is these.
    Clips { left: Point, right: Point },
}

/// What a query is answered.
#[derive(Drop)]
pub enum QueryAnswer {
    Find(FindAnswer),
    Point(PointAnswer),
    Offset(OffsetAnswer),
}

/// What stands before the text in a line that ends with one.
#[derive(Clone, Copy, Debug, PartialEq, Eq)]
pub enum TextHead {
    /// `text R: B bytes, end ROW:COLUMN, K rows, `: the text of replica R as it is, with what is counted of it.
    CurrentText {
        replica: u16,
        bytes: u64,
        row: u64,
        column: u64,
        rows: u64,
    },
    /// `final R: `: the text of replica R at the end.
    FinalText {
        replica: u16,
    },
}

/// A line of a report, with what it prints.
#[derive(Drop)]
pub enum Report {
    /// `N: V.R`: the operation of operation line N has that stamp.
    Made {
        number: u64,
        stamp: Lamport,
    },
    /// `N: FAULT`: the edit of operation line N was refused.
    EditRefused {
        number: u64,
        fault: EditFault,
    },
    /// `N: FAULT`: the undo of operation line N was refused.
    UndoRefused {
        number: u64,
        fault: UndoFault,
    },
    /// `N: nothing n`: the undo of operation line N names a number under which no operation stands, the first such.
    Unnamed {
        number: u64,
        named: u64,
    },
    /// `settled R: C`: at replica R settling applied C operations that had waited.
    Settled {
        replica: u16,
        count: u64,
    },
    /// `give N to R: ANSWER`: what replica R answers to the operation of operation line N.
    Give {
        number: u64,
        replica: u16,
        answer: GiveAnswer,
    },
    /// A head and then `STRING`: a text of a replica.
    Text {
        head: TextHead,
        text: Text,
    },
    /// `anchor NAME: ANSWER`: what comes of making an anchor under the name.
    Anchor {
        name: Text,
        answer: AnchorAnswer,
    },
    /// `where NAME at R: ANSWER`: where the anchor under the name is in the text of replica R.
    Where {
        name: Text,
        replica: u16,
        answer: WhereAnswer,
    },
    /// `mark NAME: set`: a version is kept under the name.
    Mark {
        name: Text,
    },
    /// `since NAME at R: ANSWER`: what changed in the text of replica R since the version under the name.
    Since {
        name: Text,
        replica: u16,
        answer: SinceAnswer,
    },
    /// `reopen R: C`: replica R was opened with the C operations that it had applied, the base not counted.
    Reopen {
        replica: u16,
        count: u64,
    },
    /// `WORD Q at N: ANSWER`: query Q, which has the word, is answered on what N operations come to, the base not counted.
    Query {
        number: u64,
        applied: u64,
        answer: QueryAnswer,
    },
    /// `replica R: B bytes, K rows, A applied, W waiting, F refused`: what replica R holds at the end.
    Replica {
        replica: u16,
        bytes: u64,
        rows: u64,
        applied: u64,
        waiting: u64,
        refused: u64,
    },
    /// `refused R: V.S FAULT`: replica R refused the operation with that stamp while it settled.
    Refused {
        replica: u16,
        stamp: Lamport,
        fault: OpFault,
    },
    /// `session ok: L lines, R replicas, P operations, Q queries`: what is counted of a session.
    Checked {
        lines: u64,
        replicas: u64,
        operations: u64,
        queries: u64,
    },
}

impl Report {
    /// What is counted of the session: all its lines, the header too, the ids of its header, its operation lines and its
    /// queries. Linear in its lines.
    pub fn check_line(session: &Session) -> Report
        ensures { result ≡ session_counts session.now }
    {
        Report::Checked {
            lines: 1 + session.lines.len(),
            replicas: session.replicas.as_slice().len() as u64,
            operations: session.operation_count(),
            queries: session.query_count(),
        }
    }
}

//! A session, as it is read.
ghost use Rattle.std.specs.Prelude.{◌≡◌, length};
ghost use Rattle.session_lines.specs.Session.{endings_of};
ghost use Rattle.session_more.specs.Lines.{is_operation, is_query, number_count, operation_count, query_count};

use crate::line_list::MoreLines;
use op_model::{Endings, Pieces, Text};
use session_lines::{Ids, SessionLine};
use std::marker::Model;

/// A line after the header. A replica that acts in it is one of the header's. The forms that `session_lines` has not
/// are of version 2 alone.
#[derive(Drop)]
pub enum MoreLine {
    /// A line of `session_lines`.
    Plain(SessionLine),
    /// `["select",r,"name",[[s,e],..]]`: replica r selects ranges of its text, and the operation that it makes of
    /// them is kept under the name for all replicas, apart from anchors and marks.
    Select {
        replica: u16,
        name: Text,
        ranges: TextRanges,
    },
    /// `["share",r,"name"]`: replica r takes the operation under the name.
    Share {
        replica: u16,
        name: Text,
    },
    /// `["selected",r,a]`: where the selections of replica a are in the text of replica r. a need not be in the header.
    Selected {
        replica: u16,
        author: u16,
    },
    /// `["fold",r,s,e]`: replica r folds a range of its text.
    Fold {
        replica: u16,
        start: u64,
        end: u64,
    },
    /// `["unfold",r,s,e]`: replica r unfolds what has a byte in a range of its text.
    Unfold {
        replica: u16,
        start: u64,
        end: u64,
    },
    /// `["folded",r]`: the text of replica r is shown as it is folded.
    Folded {
        replica: u16,
    },
    /// `["display",r,o]`: where the byte offset o in the text of replica r is shown.
    Display {
        replica: u16,
        offset: u64,
    },
    /// `["excerpt","name",r,s,e]`: a range of the text of replica r becomes the next excerpt of the text under the
    /// name.
    Excerpt {
        name: Text,
        replica: u16,
        start: u64,
        end: u64,
    },
    /// `["multi","name"]`: the text of the excerpts under the name.
    Multi {
        name: Text,
    },
    /// `["medit","name",[[s,e,"t"],..]]`: ranges of the text of the excerpts under the name are replaced, each by a
    /// new text, in the replicas that these are of. It takes as many numbers as the header has ids, one for each
    /// replica in the header's order.
    Medit {
        name: Text,
        pieces: Pieces,
    },
}

impl MoreLine {
    /// Whether it is an operation line. These are numbered from 1 in their order. O(1); does not allocate.
    pub fn is_operation(&self) -> bool
        ensures { result ≡ is_operation self.now }
    {
        match self {
            MoreLine::Plain(line) => line.is_operation(),
            MoreLine::Medit { .. } => true,
            _ => false,
        }
    }

    /// How many numbers of operation lines it takes in a session of this many replicas. O(1); does not allocate.
    pub fn number_count(&self, replicas: u64) -> u64
        ensures { result ≡ number_count replicas self.now }
    {
        match self {
            MoreLine::Plain(line) => line.is_operation() as u64,
            MoreLine::Medit { .. } => replicas,
            _ => 0,
        }
    }

    /// Whether it is a query. These are numbered from 1 in their order, apart from operation lines. O(1); does not
    /// allocate.
    pub fn is_query(&self) -> bool
        ensures { result ≡ is_query self.now }
    {
        match self {
            MoreLine::Plain(line) => line.is_query(),
            _ => false,
        }
    }
}

/// Ranges of a text, each by its start and its end in bytes, seen as their list.
#[derive(Drop)]
pub struct TextRanges {
    inner: Vec<(u64, u64)>,
}

impl Model for TextRanges {
    ghost use Rattle.std.specs.Prelude.{List, ℕ};

    ghost Value = { List (ℕ × ℕ) };

    ghost view = { λ r. r.inner.items };
}

impl TextRanges {
    /// The list of the ranges of a vector. Does not allocate.
    pub fn new(inner: Vec<(u64, u64)>) -> TextRanges
        ensures { result ≡ inner.items }
    {
        TextRanges { inner }
    }

    /// The ranges in their order. O(1); does not allocate.
    pub fn as_slice(&self) -> &[(u64, u64)]
        ensures { result.now ≡ self.now }
    {
        &self.inner
    }
}

/// What a session's bytes say: a base text, replicas that each have a buffer over it, and what they do, line by line.
#[derive(Drop)]
pub struct MoreSession {
    /// The version of the format, 1 or 2.
    pub version: u32,
    /// The text that each replica begins with.
    pub base: Text,
    /// The ids of the replicas, in the header's order.
    pub replicas: Ids,
    /// The lines after the header.
    pub lines: MoreLines,
}

impl MoreSession {
    /// What the replicas' buffers do with line endings: `AsIs` in version 1, `Lf` in version 2. O(1); does not
    /// allocate.
    pub fn endings(&self) -> Endings
        ensures { result ≡ endings_of self.now.version }
    {
        if self.version == 2 {
            return Endings::Lf;
        }
        Endings::AsIs
    }

    /// How many numbers of operation lines there are, up to 2^64 - 1. Linear in the lines; does not allocate.
    pub fn operation_count(&self) -> u64
        ensures { result ≡ operation_count (length self.now.replicas) self.now.lines }
    {
        self.lines
            .operation_count(self.replicas.as_slice().len() as u64)
    }

    /// How many queries there are. Linear in the lines; does not allocate.
    pub fn query_count(&self) -> u64
        ensures { result ≡ query_count self.now.lines }
    {
        self.lines.query_count()
    }
}

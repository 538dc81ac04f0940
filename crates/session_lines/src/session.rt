//! A session, as it is read.
ghost use Rattle.std.specs.Prelude.{◌≡◌};
ghost use Rattle.std.specs.Option.{option_copied};
ghost use Rattle.session_lines.specs.Session.{anchor_name, endings_of, is_operation, is_query, mark_name, operation_count, query_count};

use crate::line_list::SessionLines;
use op_model::{Bias, EditOp, Endings, Pieces, Text, UndoOp};
use std::marker::Model;

/// A line after the header. A replica that acts in it is one of the header's.
#[derive(Drop)]
pub enum SessionLine {
    /// `["edit",r,[[s,e,"t"],..]]`: replica r replaces ranges of its text, each by a new one.
    Edit {
        replica: u16,
        pieces: Pieces,
    },
    /// `["undo",r,[n,..]]`: replica r undoes or redoes the edits made by operation lines n.
    Undo {
        replica: u16,
        numbers: Numbers,
    },
    /// `["op",[value,replica],[[r,v],..],[[s,e,"t"],..]]`: an edit operation as it stands, with its stamp, its version, whose
    /// ids stand in any order, and its pieces. It is applied nowhere.
    Op(EditOp),
    /// `["uop",[value,replica],[[r,v],..],[[value,replica,count],..]]`: an undo operation as it stands, with its stamp, its
    /// version, whose ids stand in any order, and its counts. It is applied nowhere.
    Uop(UndoOp),
    /// `["give",r,n]`: replica r takes the operation of operation line n.
    Give {
        replica: u16,
        number: u64,
    },
    /// `["text",r]`: the text of replica r is shown.
    Text {
        replica: u16,
    },
    /// `["anchor",r,"name",o,"left"]`, or `"right"`: an anchor is made at the byte offset o in the text of replica r, and kept under
    /// the name for all replicas.
    Anchor {
        replica: u16,
        name: Text,
        offset: u64,
        bias: Bias,
    },
    /// `["where",r,"name"]`: the place of the anchor under the name in the text of replica r.
    Where {
        replica: u16,
        name: Text,
    },
    /// `["mark",r,"name"]`: the version of replica r is kept under the name for all replicas. Marks and anchors have separate names.
    Mark {
        replica: u16,
        name: Text,
    },
    /// `["since",r,"name"]`: the edits that took the text at the mark of that name to the text of replica r.
    Since {
        replica: u16,
        name: Text,
    },
    /// `["find",r,"needle"]`: asks where the needle stands in the text of replica r.
    Find {
        replica: u16,
        needle: Text,
    },
    /// `["point",r,o]`: asks for the point of the byte offset o in the text of replica r.
    Point {
        replica: u16,
        offset: u64,
    },
    /// `["offset",r,row,column]`: asks for the byte offset of the point in the text of replica r, its column in bytes.
    Offset {
        replica: u16,
        row: u64,
        column: u64,
    },
    /// `["reopen",r]`, in version 2 alone: the buffer of replica r is opened with what it has applied, and what waits or was
    /// refused there is gone.
    Reopen {
        replica: u16,
    },
}

impl SessionLine {
    /// Whether it is an operation line. These are numbered from 1 in their order.
    pub fn is_operation(&self) -> bool
        ensures { result ≡ is_operation self.now }
    {
        matches!(
            self,
            SessionLine::Edit { .. }
                | SessionLine::Undo { .. }
                | SessionLine::Op(_)
                | SessionLine::Uop(_)
        )
    }

    /// Whether it is a query. These are numbered from 1 in their order, apart from operation lines.
    pub fn is_query(&self) -> bool
        ensures { result ≡ is_query self.now }
    {
        matches!(
            self,
            SessionLine::Find { .. } | SessionLine::Point { .. } | SessionLine::Offset { .. }
        )
    }

    /// The name under which it keeps an anchor, if it does.
    pub fn anchor_name(&self) -> Option<&str>
        ensures { option_copied result ≡ anchor_name self.now }
    {
        match self {
            SessionLine::Anchor { name, .. } => Some(name.as_str()),
            _ => None,
        }
    }

    /// The name under which it keeps a version, if it does.
    pub fn mark_name(&self) -> Option<&str>
        ensures { option_copied result ≡ mark_name self.now }
    {
        match self {
            SessionLine::Mark { name, .. } => Some(name.as_str()),
            _ => None,
        }
    }
}

/// The ids of replicas, seen as their list.
#[derive(Drop)]
pub struct Ids {
    inner: Vec<u16>,
}

impl Model for Ids {
    ghost use Rattle.std.specs.Prelude.{List, ℕ};

    ghost Value = { List ℕ };

    ghost view = { λ i. i.inner.items };
}

impl Ids {
    /// The list of the ids of a vector. Does not allocate.
    pub fn new(inner: Vec<u16>) -> Ids
        ensures { result ≡ inner.items }
    {
        Ids { inner }
    }

    /// The ids in their order. O(1); does not allocate.
    pub fn as_slice(&self) -> &[u16]
        ensures { result.now ≡ self.now }
    {
        &self.inner
    }
}

/// Numbers, as those of operation lines or the places of a text, seen as their list.
#[derive(Drop)]
pub struct Numbers {
    inner: Vec<u64>,
}

impl Model for Numbers {
    ghost use Rattle.std.specs.Prelude.{List, ℕ};

    ghost Value = { List ℕ };

    ghost view = { λ n. n.inner.items };
}

impl Numbers {
    /// The list of the numbers of a vector. Does not allocate.
    pub fn new(inner: Vec<u64>) -> Numbers
        ensures { result ≡ inner.items }
    {
        Numbers { inner }
    }

    /// The numbers in their order. O(1); does not allocate.
    pub fn as_slice(&self) -> &[u64]
        ensures { result.now ≡ self.now }
    {
        &self.inner
    }
}

/// What a session's bytes say: a base text, replicas that each have a buffer over it, and what they do, line by line.
#[derive(Drop)]
pub struct Session {
    /// The version of the format, 1 or 2.
    pub version: u32,
    /// The text that each replica begins with.
    pub base: Text,
    /// The ids of the replicas, in the header's order.
    pub replicas: Ids,
    /// The lines after the header.
    pub lines: SessionLines,
}

impl Session {
    /// What the replicas' buffers do with line endings: `AsIs` in version 1, `Lf` in version 2. O(1); does not
    /// allocate.
    pub fn endings(&self) -> Endings
        ensures { result ≡ endings_of self.now.version }
    {
        if self.version == 2 {
            return Endings::Lf;
        }
        Endings::AsIs
    }

    /// How many operation lines there are. Linear in the lines.
    pub fn operation_count(&self) -> u64
        ensures { result ≡ operation_count self.now.lines }
    {
        self.lines.operation_count()
    }

    /// How many queries there are. Linear in the lines.
    pub fn query_count(&self) -> u64
        ensures { result ≡ query_count self.now.lines }
    {
        self.lines.query_count()
    }
}

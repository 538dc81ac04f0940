//! What the lines of a session are checked against.
ghost use Rattle.std.specs.Prelude.{◌≡◌, OnErr, OnOk};
ghost use Rattle.session_lines.specs.Before.{after_header, has_name, name_added, names_of, operations_raised, returns_barred, taken_in};
ghost use Rattle.session_lines.specs.Session.{is_named_by};

use crate::OutOfMemory;
use crate::header::Header;
use crate::session::{Ids, SessionLine};
use op_model::Text;
use std::alloc::Global;
use std::collections::BTreeSet;
use std::marker::Model;

/// What a line of a session is checked against: the header, and what the lines before it number and name. Contracts see it as
/// a record of these, each list of names ascending and without repeats.
#[derive(Drop)]
pub struct Before {
    /// The version of the format, 1 or 2.
    version: u32,
    /// Whether the session is read to be migrated.
    migrate: bool,
    /// The ids of the header.
    replicas: Ids,
    /// How many operation numbers there are, up to 2^64 - 1.
    operations: u64,
    /// The names under which anchors are kept.
    anchors: BTreeSet<String>,
    /// The names under which versions are kept.
    marks: BTreeSet<String>,
}

impl Model for Before {
    ghost use Rattle.session_lines.specs.Before.{BeforeState, names_of};

    ghost Value = { BeforeState };

    ghost view = { λ b. record {
      version = b.version;
      migrate = b.migrate;
      replicas = b.replicas;
      operations = b.operations;
      anchors = names_of b.anchors;
      marks = names_of b.marks;
    } };
}

fn has_name(names: &BTreeSet<String>, name: &str) -> bool
    ensures { result ≡ has_name (names_of names.now) name.now }
{
    names.contains(name)
}

// Adds the name to the names.
fn add_name(alloc: Global, names: &mut BTreeSet<String>, name: &str) -> Result<(), OutOfMemory>
    ensures added { OnOk result (names_of names.new ≡ name_added (names_of names.old) name.now) }
    ensures err { OnErr result (names_of names.new ≡ names_of names.old) }
{
    names.insert(String::from_str(alloc, name)?)?;
    Ok(())
}

impl Before {
    /// The base of a header, and what the line after the header is checked against. Does not allocate.
    pub(crate) fn after_header(alloc: Global, migrate: bool, header: Header) -> (Text, Before)
        ensures { result ≡ after_header migrate header }
    {
        let Header {
            version,
            base,
            replicas,
        } = header;
        let before = Before {
            version,
            migrate,
            replicas,
            operations: 0,
            anchors: BTreeSet::new(alloc),
            marks: BTreeSet::new(alloc),
        };
        (base, before)
    }

    /// The version of the format, 1 or 2. O(1); does not allocate.
    pub fn version(&self) -> u32
        ensures { result ≡ self.now.version }
    {
        self.version
    }

    /// Whether the session is read to be migrated. O(1); does not allocate.
    pub fn migrates(&self) -> bool
        ensures { result ≡ self.now.migrate }
    {
        self.migrate
    }

    /// The ids of the header, in its order. O(1); does not allocate.
    pub fn replicas(&self) -> &[u16]
        ensures { result.now ≡ self.now.replicas }
    {
        self.replicas.as_slice()
    }

    /// How many operation numbers there are, up to 2^64 - 1. O(1); does not allocate.
    pub fn operations(&self) -> u64
        ensures { result ≡ self.now.operations }
    {
        self.operations
    }

    /// The ids of the header, in its order. O(1); does not allocate.
    pub fn into_replicas(self) -> Ids
        ensures { result ≡ self.replicas }
    {
        let Before { replicas, .. } = self;
        replicas
    }

    /// Counts this many operation numbers more, up to 2^64 - 1, the greatest that a line can name. O(1); does not allocate.
    pub fn raise_operations(&mut self, count: u64)
        ensures { self.new ≡ operations_raised count self.old }
    {
        self.operations = self.operations.saturating_add(count);
    }

    /// Whether what the line asks for by a name, if it does, is kept. Logarithmic in the number of names; does not allocate.
    pub(crate) fn is_named(&self, line: &SessionLine) -> bool
        ensures { result ≡ is_named_by (has_name self.now.anchors) (has_name self.now.marks) line.now }
    {
        match line {
            SessionLine::Where { name, .. } => has_name(&self.anchors, name.as_str()),
            SessionLine::Since { name, .. } => has_name(&self.marks, name.as_str()),
            _ => true,
        }
    }

    /// Whether no text with a CR may enter the buffers of the session. O(1); does not allocate.
    pub(crate) fn bars_return(&self) -> bool
        ensures { result ≡ returns_barred self.now }
    {
        self.migrate && self.version == 1
    }

    /// Takes in what the line after this one is checked against. Logarithmic in the number of names, and allocates, if
    /// something is kept under a name.
    ///
    /// # Errors
    ///
    /// `OutOfMemory` if an allocation fails; nothing is taken in then.
    pub(crate) fn take_in(&mut self, alloc: Global, line: &SessionLine) -> Result<(), OutOfMemory>
        ensures taken { OnOk result (self.new ≡ taken_in line.now self.old) }
        ensures err { OnErr result (self.new ≡ self.old) }
    {
        match line {
            SessionLine::Anchor { name, .. } => add_name(alloc, &mut self.anchors, name.as_str())?,
            SessionLine::Mark { name, .. } => add_name(alloc, &mut self.marks, name.as_str())?,
            SessionLine::Edit { .. }
            | SessionLine::Undo { .. }
            | SessionLine::Op(_)
            | SessionLine::Uop(_) => self.raise_operations(1),
            _ => {}
        }
        Ok(())
    }
}

//! What the lines of a session are checked against.
ghost use Rattle.std.specs.Prelude.{◌≡◌, OnErr, OnOk};
ghost use Rattle.session_lines.specs.Before.{has_name, name_added, names_of};
ghost use Rattle.session_more.specs.Lines.{IsFurther, is_known, is_named, more_taken_in};
ghost use Rattle.session_more.specs.State.{first_state};

use crate::session::MoreLine;
use session_lines::{Before, OutOfMemory};
use std::alloc::Global;
use std::collections::BTreeSet;
use std::marker::Model;

/// What a line of a session is checked against.
#[derive(Drop)]
pub struct MoreBefore {
    /// What a line of `session_lines` is checked against.
    pub plain: Before,
    /// The names under which selections are kept.
    selects: BTreeSet<String>,
    /// The names under which there are excerpts.
    excerpts: BTreeSet<String>,
}

impl Model for MoreBefore {
    ghost use Rattle.session_lines.specs.Before.{names_of};
    ghost use Rattle.session_more.specs.State.{MoreState};

    ghost Value = { MoreState };

    ghost view = { λ b. record {
      plain = b.plain;
      selects = names_of b.selects;
      excerpts = names_of b.excerpts;
    } };
}

// Whether the name is one of the names.
fn has_name(names: &BTreeSet<String>, name: &str) -> bool
    ensures { result ≡ has_name (names_of names.now) name.now }
{
    names.contains(name)
}

// Adds the name to the names.
fn add_name(alloc: Global, names: &mut BTreeSet<String>, name: &str) -> Result<(), OutOfMemory>
    ensures added { OnOk result (names_of names.new ≡ name_added (names_of names.old) name.now) }
    ensures err { OnErr result (names_of names.new ≡ names_of names.old) }
{
    names.insert(String::from_str(alloc, name)?)?;
    Ok(())
}

impl MoreBefore {
    /// What the line after a header is checked against. Does not allocate.
    pub fn new(alloc: Global, plain: Before) -> MoreBefore
        ensures { result ≡ first_state plain }
    {
        MoreBefore {
            plain,
            selects: BTreeSet::new(alloc),
            excerpts: BTreeSet::new(alloc),
        }
    }

    /// Whether the replica that acts in a line of a further form is in the header. Linear in the ids; does not
    /// allocate.
    pub fn is_known(&self, line: &MoreLine) -> bool
        requires { IsFurther line.now }
        ensures { result ≡ is_known self.now.plain.replicas line.now }
    {
        match line {
            MoreLine::Plain(_) => unreachable!(),
            MoreLine::Select { replica, .. }
            | MoreLine::Share { replica, .. }
            | MoreLine::Selected { replica, .. }
            | MoreLine::Fold { replica, .. }
            | MoreLine::Unfold { replica, .. }
            | MoreLine::Folded { replica }
            | MoreLine::Display { replica, .. }
            | MoreLine::Excerpt { replica, .. } => self.plain.replicas().contains(replica),
            MoreLine::Multi { .. } | MoreLine::Medit { .. } => true,
        }
    }

    /// Whether what a line of a further form asks for by a name, if it does, is kept. Logarithmic in the number of
    /// names; does not allocate.
    pub fn is_named(&self, line: &MoreLine) -> bool
        requires { IsFurther line.now }
        ensures { result ≡ is_named self.now line.now }
    {
        match line {
            MoreLine::Share { name, .. } => has_name(&self.selects, name.as_str()),
            MoreLine::Multi { name } | MoreLine::Medit { name, .. } => {
                has_name(&self.excerpts, name.as_str())
            }
            _ => true,
        }
    }

    /// Takes in what the line after one of a further form is checked against. Logarithmic in the number of names, and
    /// allocates, if something is kept under a name.
    ///
    /// # Errors
    ///
    /// `OutOfMemory` if an allocation fails; nothing is taken in then.
    pub fn take_in(&mut self, alloc: Global, line: &MoreLine) -> Result<(), OutOfMemory>
        requires { IsFurther line.now }
        ensures taken { OnOk result (self.new ≡ more_taken_in line.now self.old) }
        ensures err { OnErr result (self.new ≡ self.old) }
    {
        match line {
            MoreLine::Select { name, .. } => add_name(alloc, &mut self.selects, name.as_str())?,
            MoreLine::Excerpt { name, .. } => add_name(alloc, &mut self.excerpts, name.as_str())?,
            MoreLine::Medit { .. } => {
                let count = self.plain.replicas().len() as u64;
                self.plain.raise_operations(count);
            }
            _ => {}
        }
        Ok(())
    }
}

//! Lists of text edits.
ghost use Rattle.std.specs.Prelude.{◌≡◌, [], ◌∷◌, ◌++◌, OnErr, OnOk};

use crate::OutOfMemory;
use op_model::TextEdit;
use std::alloc::Global;
use std::marker::Model;

/// Text edits, in the order of the text. Contracts see them as their list.
#[derive(Drop)]
pub struct Edits {
    list: Vec<TextEdit>,
}

impl Model for Edits {
    ghost use Rattle.std.specs.Prelude.{List};
    ghost use Rattle.op_model.specs.declared.anchor.TextEdit.{TextEdit};

    ghost Value = { List TextEdit };

    ghost view = { λ e. e.list.items };
}

impl Edits {
    // No edits. Does not allocate.
    pub(crate) fn new(alloc: Global) -> Edits
        ensures { result ≡ [] }
    {
        Edits {
            list: Vec::new(alloc),
        }
    }

    /// The edits of a list. Does not allocate.
    pub fn of(list: Vec<TextEdit>) -> Edits
        ensures { result ≡ list.items }
    {
        Edits { list }
    }

    /// The edits, in order.
    pub fn as_slice(&self) -> &[TextEdit]
        ensures { result.now ≡ self.now }
    {
        &self.list
    }

    /// The list of the edits. Does not allocate.
    pub fn into_vec(self) -> Vec<TextEdit>
        ensures { result.items ≡ self }
    {
        self.list
    }

    // Puts an edit after the others.
    pub(crate) fn push(&mut self, edit: TextEdit) -> Result<(), OutOfMemory>
        ensures ok { OnOk result (self.new ≡ self.old ++ edit ∷ []) }
        ensures err { OnErr result (self.new ≡ self.old) }
    {
        self.list.push(edit)?;
        Ok(())
    }
}

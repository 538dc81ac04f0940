//! The counts of whole undos.
ghost use Rattle.std.specs.Prelude.{◌≡◌, ◌+◌, ◌^◌, ◌≤◌, ◌++◌, ◌∷◌, [], length, IfOk};
ghost use Rattle.op_model.specs.declared.operation.Operation.TheVariants.{Undo};
ghost use Rattle.op_model.specs.Histories.{History};
ghost use Rattle.undo_map.specs.Undos.{undo_entries, with_counts};

use crate::{OutOfMemory, UndoMap};
use op_model::UndoOp;
use std::alloc::Global;

impl UndoMap {
    /// The map with the counts of an undo kept too: where the map has those of a history, those of the history with the
    /// undo. Afterwards there are at most 2^40 entries. Logarithmic in their number for each count; the nodes that do not
    /// change are shared, and this map stays as it is.
    pub fn with_undo(&self, alloc: Global, undo: &UndoOp) -> Result<UndoMap, OutOfMemory>
        requires { length self.now + length undo.now.counts ≤ 2 ^ 40 }
        ensures counts { IfOk result (λ m. m ≡ with_counts undo.now.stamp undo.now.counts
            self.now) }
        ensures history { IfOk result (λ m. (h : History) → self.now ≡ undo_entries h
            → m ≡ undo_entries (h ++ Undo undo.now ∷ [])) }
    {
        let map = self.share()?;
        map.put_undo(alloc, undo)
    }

    /// Does what `with_undo` does, to this map, whose nodes change in place where no other map shares them.
    ///
    /// # Errors
    ///
    /// Fails only if an allocation fails. The map is dropped then.
    pub fn put_undo(self, alloc: Global, undo: &UndoOp) -> Result<UndoMap, OutOfMemory>
        requires { length self + length undo.now.counts ≤ 2 ^ 40 }
        ensures counts { IfOk result (λ m. m ≡ with_counts undo.now.stamp undo.now.counts self) }
        ensures history { IfOk result (λ m. (h : History) → self ≡ undo_entries h
            → m ≡ undo_entries (h ++ Undo undo.now ∷ [])) }
    {
        let mut map = self;
        let counts = undo.counts.as_slice();
        for count in counts {
            map.set(alloc, count.edit, undo.stamp, count.count)?;
        }
        Ok(map)
    }
}

//! What an operation makes of a content, with the change of the fragments still to be made.
ghost use Rattle.std.specs.Prelude.{◌≡◌, ◌++◌, ◌∷◌, [], None, OnErr, OnOk};
ghost use Rattle.op_model.specs.Operations.{stamp_of};
ghost use Rattle.op_model.specs.Histories.{operation_at};
ghost use Rattle.remote_edit.specs.Changes.{after_change, MayChange, ChangeFew};

use crate::OutOfMemory;
use applied_ops::AppliedList;
use fragments::{Fragment, InsertionIndex};
use op_model::Operation;
use remote_edit::TreeChange;
use rope_chunks::Rope;
use std::alloc::Global;
use std::sync::ledger::Ledger;
use sum_tree::{Continuation, Steps, SumTree};
use undo_map::UndoMap;

/// A content whose fragments are those of another one after a change that is still to be made.
#[derive(Drop)]
pub struct Draft {
    pub change: TreeChange,
    pub index: InsertionIndex,
    pub undos: UndoMap,
    pub text: Rope,
    pub hidden: Rope,
}

// A change of a tree of fragments, to be made just before another tree changes. Counts a step for each node that is made.
#[derive(Drop)]
struct FragmentsChange<'a, L: Ledger> {
    tree: &'a mut SumTree<Fragment>,
    change: &'a mut Option<TreeChange>,
    steps: &'a mut Steps<L>,
}

impl<'a, L: Ledger> Continuation for FragmentsChange<'a, L> {
    ghost use Rattle.std.specs.Prelude.{◌≡◌, IfSome, refl};
    ghost use Rattle.remote_edit.specs.Changes.{after_change, MayChange, ChangeFew};
    ghost use Rattle.remote_edit.proofs.Planned.{change_none};
    ghost use Rattle.text_buffer.specs.Drafts.{some_always};

    ghost may = { λ a. IfSome a.change.now (λ c. MayChange c a.tree.now.items) };

    ghost done = { λ a b. (b.tree.ghost_name ≡ a.tree.ghost_name)
        × (b.steps.ghost_name ≡ a.steps.ghost_name)
        × IfSome a.change.now (λ c. b.tree.now.items ≡ after_change c a.tree.now.items)
        × IfSome a.change.now (λ c. ChangeFew c a.steps.now b.steps.now) };

    ghost kept = { λ a b. (b.tree.ghost_name ≡ a.tree.ghost_name)
        × (b.steps.ghost_name ≡ a.steps.ghost_name)
        × (b.tree.now ≡ a.tree.now)
        × IfSome a.change.now (λ c. ChangeFew c a.steps.now b.steps.now) };

    ghost same = { λ k. (
      refl,
      refl,
      refl,
      some_always k.change.now (λ c. ChangeFew c k.steps.now k.steps.now)
          (λ c. change_none c k.steps.now),
    ) };

    fn run(&mut self, alloc: Global) -> Result<(), OutOfMemory> {
        match self.change.take() {
            Some(change) => change.make(alloc, self.tree, self.steps),
            None => Ok(()),
        }
    }
}

/// Appends an operation to a list and makes a change of a tree of fragments: both, or neither. What no other list and no other
/// tree shares changes in place. Counts a step for each node of fragments that is made, even if the call fails.
///
/// # Errors
///
/// Fails only if an allocation fails. The operation is then dropped, and the list and the tree are as before.
pub fn push_with_change<L: Ledger>(
    alloc: Global,
    operations: &mut AppliedList,
    fragments: &mut SumTree<Fragment>,
    op: Operation,
    change: TreeChange,
    steps: &mut Steps<L>,
) -> Result<(), OutOfMemory>
    requires new { operation_at operations.old (stamp_of op) ≡ None }
    requires may { MayChange change fragments.old.items }
    ensures pushed { OnOk result (operations.new ≡ operations.old ++ op ∷ []) }
    ensures ok { OnOk result (fragments.new.items ≡ after_change change fragments.old.items) }
    ensures operations { OnErr result (operations.new ≡ operations.old) }
    ensures err { OnErr result (fragments.new ≡ fragments.old) }
    ensures cost { ChangeFew change steps.old steps.new }
{
    let mut change = Some(change);
    let mut rest = FragmentsChange {
        tree: fragments,
        change: &mut change,
        steps,
    };
    operations.push_then(alloc, op, &mut rest)
}

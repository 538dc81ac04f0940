//! The excerpts of a multibuffer in trees, by which one is found at an offset of their text or by its index, and those
//! of one buffer.
ghost use Rattle.std.specs.Prelude.{◌≡◌, ◌++◌, ◌∷◌, [], ◌<◌, ◌^◌, length, map, IfOk, OnErr, OnOk};
ghost use Rattle.std.specs.Option.{option_copied};
ghost use Rattle.std.specs.Prelude.{slice_get};
ghost use Rattle.multi_buffer.specs.Calls.{followed_in};
ghost use Rattle.multi_buffer.specs.Following.{AllMayFollow};
ghost use Rattle.multi_buffer.specs.Found.{IsAtIndex, IsAtOffset, AreShort, IsShort};
ghost use Rattle.multi_buffer.specs.Lengths.{size_sum};
ghost use Rattle.multi_buffer.specs.Members.{next_met, IsNextMet};
ghost use Rattle.multi_buffer.specs.Splits.{sharing};

use crate::lengths::{ByIndex, ByOffset};
use crate::making::{differs, follow};
use crate::members::{Member, put_at, put_member};
use crate::parts::Part;
use crate::reach::{Meeting, NoPlace, OfBuffer};
use crate::{Excerpt, Lengths, OutOfMemory, Snapshot};
use std::alloc::Global;
use std::marker::Model;
use sum_tree::SumTree;
use tree_cursor::{Bias, FilterCursor, look_up};

/// Excerpts in their order. Contracts see their list.
///
/// There are at most 2^20, of texts of at most 2^40 bytes.
#[derive(Drop)]
pub(crate) struct Excerpts {
    tree: SumTree<Excerpt>,
    // The same, buffers ascending, those of one buffer in their order.
    members: SumTree<Member>,
}

impl Model for Excerpts {
    ghost use Rattle.std.specs.Prelude.{List};
    ghost use Rattle.multi_buffer.specs.declared.excerpt.Excerpt.{Excerpt};

    ghost Value = { List Excerpt };

    ghost use Rattle.multi_buffer.specs.Members.{AreExcerpts};

    ghost view = { λ excerpts. excerpts.tree.items };

    ghost invariant = { λ excerpts. AreExcerpts excerpts.tree.items excerpts.members.items };
}

// The next member that meets a part, if there is a further one.
fn next_meeting<'a>(found: &mut FilterCursor<'a, Member, NoPlace, Meeting>) -> Option<&'a Member>
    ensures item { option_copied result ≡ slice_get found.old.items (next_met found.old) }
    ensures moved { IsNextMet found.old found.new }
{
    match found.next() {
        Ok(next) => next,
        Err(_) => unreachable!(),
    }
}

impl Excerpts {
    /// No excerpts. Makes two nodes; fails only if an allocation fails.
    pub(crate) fn new(alloc: Global) -> Result<Excerpts, OutOfMemory>
        ensures { IfOk result (λ excerpts. excerpts ≡ []) }
    {
        let tree = SumTree::new(alloc)?;
        let members = SumTree::new(alloc)?;
        Ok(Excerpts { tree, members })
    }

    /// Equal excerpts with the same nodes. O(1); fails only if a node cannot count another owner.
    pub(crate) fn share(&self) -> Result<Excerpts, OutOfMemory>
        ensures { IfOk result (λ excerpts. excerpts ≡ self.now) }
    {
        let tree = self.tree.share()?;
        let members = self.members.share()?;
        Ok(Excerpts { tree, members })
    }

    /// The number of excerpts. O(1); does not allocate.
    pub(crate) fn len(&self) -> u64
        ensures { result ≡ length self.now }
    {
        self.tree.len()
    }

    /// The number of their bytes. O(1); does not allocate.
    pub(crate) fn bytes(&self) -> u64
        ensures { result ≡ size_sum self.now }
    {
        self.tree.summary().bytes
    }

    /// The excerpt of an index. O(log n); does not allocate.
    pub(crate) fn get(&self, index: u64) -> Option<&Excerpt>
        ensures { option_copied result ≡ slice_get self.now index }
    {
        self.tree.get(index)
    }

    // The index of the next excerpt.
    fn next_index(&self) -> u32
        requires { length self.now < 2 ^ 20 }
        ensures { result ≡ length self.now }
    {
        self.tree.len() as u32
    }

    /// Puts an excerpt last. O(log n). Fails only if an allocation fails; the excerpts are then as before.
    pub(crate) fn push(&mut self, alloc: Global, excerpt: Excerpt) -> Result<(), OutOfMemory>
        requires few { length self.old < 2 ^ 20 }
        requires short { IsShort excerpt }
        ensures ok { OnOk result (self.new ≡ self.old ++ excerpt ∷ []) }
        ensures err { OnErr result (self.new ≡ self.old) }
    {
        let index = self.next_index();
        let mut members = self.members.share()?;
        put_member(alloc, &mut members, Member { index, excerpt })?;
        self.tree.push(alloc, excerpt)?;
        self.members = members;
        Ok(())
    }

    /// The excerpts, those of a buffer between the places of their anchors in a later snapshot. A few descents for each
    /// of the buffer's, of which those that stay as they are share their nodes. Fails only if an allocation fails.
    pub(crate) fn follow(
        &self,
        alloc: Global,
        buffer: u32,
        snapshot: &Snapshot,
    ) -> Result<Excerpts, OutOfMemory>
        requires { AllMayFollow buffer snapshot.now self.now }
        ensures { IfOk result (λ xs. xs ≡ map (followed_in buffer snapshot.now) self.now) }
    {
        snapshot.known();
        let mut tree = self.tree.share()?;
        let mut members = self.members.share()?;
        let mut found = FilterCursor::new(&self.members, NoPlace, OfBuffer { buffer })?;
        while let Some(member) = found.next()? {
            let excerpt = follow(snapshot, &member.excerpt);
            if differs(&excerpt, &member.excerpt) {
                let index = member.index;
                put_at(alloc, &mut tree, u64::from(index), excerpt)?;
                put_at(
                    alloc,
                    &mut members,
                    found.index(),
                    Member { index, excerpt },
                )?;
            }
        }
        Ok(Excerpts { tree, members })
    }

    /// The least other excerpt of a part's buffer that has a place in common with the part. A descent for each that
    /// has; does not allocate.
    pub(crate) fn sharing(&self, part: Part) -> Option<u32>
        ensures { result ≡ sharing 0 part self.now }
    {
        let Ok(mut found) = FilterCursor::new(&self.members, NoPlace, Meeting { part }) else {
            unreachable!()
        };
        while let Some(member) = next_meeting(&mut found) {
            if member.index != part.excerpt {
                return Some(member.index);
            }
        }
        None
    }

    /// The excerpt whose closed range has an offset of the text of all, and what lies before it; None, and the lengths
    /// of all, if the offset is past the text. One descent; does not allocate.
    pub(crate) fn at_offset(&self, offset: u64) -> (Option<&Excerpt>, Lengths)
        ensures { IsAtOffset self.now offset (option_copied result.0) result.1 }
    {
        self.tree.known();
        look_up(&self.tree, Lengths::none(), &ByOffset(offset), Bias::Right)
    }

    /// The excerpt of an index, and what lies before it; None, and the lengths of all, if there is none. One descent;
    /// does not allocate.
    pub(crate) fn at_index(&self, index: u64) -> (Option<&Excerpt>, Lengths)
        ensures { IsAtIndex self.now index (option_copied result.0) result.1 }
    {
        self.tree.known();
        look_up(&self.tree, Lengths::none(), &ByIndex(index), Bias::Right)
    }

    /// What holds of all excerpts, for callers that see only their list. Does nothing when it runs.
    pub(crate) fn known(&self)
        ensures { AreShort self.now }
    {
        let _tree = &self.tree;
    }
}

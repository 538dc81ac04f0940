//! The excerpts in the order of their buffers, by which those of one buffer are found.
ghost use Rattle.std.specs.Prelude.{◌≡◌, ◌<◌, ◌^◌, [], ◌∷◌, ◌+◌, length, OnErr, OnOk};
ghost use Rattle.sum_tree.specs.Laws.{fold};
ghost use Rattle.sum_tree.specs.Spliced.{splice_list};
ghost use Rattle.multi_buffer.specs.Members.{put_member, place_after, reach_of};

use crate::reach::{Bounds, NoPlace, OfGreater, Reach};
use crate::{Excerpt, OutOfMemory};
use std::alloc::Global;
use sum_tree::{Item, SumTree, list_of_one};
use tree_cursor::FilterCursor;

/// An excerpt with its index.
#[derive(Clone, Copy, Debug, PartialEq, Eq)]
pub(crate) struct Member {
    pub(crate) index: u32,
    pub(crate) excerpt: Excerpt,
}

impl Item for Member {
    type Summary = Reach;

    ghost sum_of = { reach_of };

    ghost admitted = { λ member. tt };

    ghost is_single = { λ member. tt };

    fn summary(&self, _alloc: Global) -> Result<Reach, OutOfMemory> {
        Ok(Reach {
            bounds: Some(Bounds {
                first: self.excerpt.buffer,
                last: self.excerpt.buffer,
                start: self.excerpt.start,
                end: self.excerpt.end,
            }),
        })
    }

    fn copy(&self, _alloc: Global) -> Result<Member, OutOfMemory> {
        Ok(*self)
    }
}

// Where the members of greater buffers begin. One descent; does not allocate.
fn place_after(members: &SumTree<Member>, buffer: u32) -> u64
    ensures { result ≡ place_after buffer members.now.items }
{
    let Ok(mut found) = FilterCursor::new(members, NoPlace, OfGreater { buffer }) else {
        unreachable!()
    };
    let Ok(_next) = found.next() else {
        unreachable!()
    };
    found.index()
}

/// Puts a member after those of its buffer and of lesser ones. O(log n). Fails only if an allocation fails; the members
/// are then as before.
pub(crate) fn put_member(
    alloc: Global,
    members: &mut SumTree<Member>,
    member: Member,
) -> Result<(), OutOfMemory>
    requires { length members.old.items < 2 ^ 40 }
    ensures ok { OnOk result (members.new.items ≡ put_member member members.old.items) }
    ensures err { OnErr result (members.new ≡ members.old) }
{
    let at = place_after(members, member.excerpt.buffer);
    let list = list_of_one(alloc, member)?;
    members.splice(alloc, at, at, list)
}

/// Puts an item in place of another. O(log n). Fails only if an allocation fails; the items are then as before.
pub(crate) fn put_at<T: Item>(
    alloc: Global,
    items: &mut SumTree<T>,
    index: u64,
    item: T,
) -> Result<(), OutOfMemory>
    requires within { index < length items.old.items }
    requires fits { T.Summary.fits (fold T.Summary.empty T.Summary.op T.sum_of
        (splice_list index (index + 1) (item ∷ []) items.old.items)) }
    ensures ok { OnOk result (items.new.items
        ≡ splice_list index (index + 1) (item ∷ []) items.old.items) }
    ensures err { OnErr result (items.new ≡ items.old) }
{
    items.known();
    let list = list_of_one(alloc, item)?;
    items.splice(alloc, index, index + 1, list)
}

//! Anchors among fragments: where they are made, where they are, and their order.
use crate::operations::{Stamp, stamp};
use crate::runs::{Run, tree_of};
use crate::seen_texts::rope_of;
use crate::trees::keep;
use anchors::{Anchor, Bias, PlaceFault, anchor_at, compare, resolve};
use fragments::{Fragment, InsertionIndex};
use rope_chunks::Rope;
use std::alloc::Global;
use std::cmp::Ordering;
use std::process::Abort;
use sum_tree::SumTree;

// An edit, a number of a byte, and a side: the anchor of these.
type Name = (Stamp, u64, Bias);

// Runs of bytes, and the texts of those shown and of those hidden. Anchors, and the places of those that are known; offsets
// with a side, and what is made there; pairs of anchors, and their orders where both are known.
struct Row {
    runs: &'static [Run],
    visible: &'static str,
    hidden: &'static str,
    places: &'static [(Name, Option<u64>)],
    made: &'static [(u64, Bias, Made)],
    orders: &'static [(Name, Name, Option<Ordering>)],
}

const BASE: Stamp = (1, 0);

const LEFT: Bias = Bias::Left;

const RIGHT: Bias = Bias::Right;

// What is made at an offset.
#[derive(Clone, Copy)]
enum Made {
    Least,
    Greatest,
    Named(Name),
    Fault(PlaceFault),
}

const ROWS: &[Row] = &[
    // Both ends of an empty text.
    Row {
        runs: &[],
        visible: "",
        hidden: "",
        places: &[((BASE, 0, RIGHT), None), ((BASE, 0, LEFT), None)],
        made: &[
            (0, LEFT, Made::Least),
            (0, RIGHT, Made::Greatest),
            (1, LEFT, Made::Fault(PlaceFault::PastEnd(0))),
        ],
        orders: &[],
    },
    // X put between a and b: both sides of one gap.
    Row {
        runs: &[
            (BASE, 0, "a", true, &[], &[]),
            ((2, 1), 0, "X", true, &[], &[]),
            (BASE, 1, "b", true, &[], &[]),
        ],
        visible: "aXb",
        hidden: "",
        places: &[
            ((BASE, 1, LEFT), Some(1)),
            ((BASE, 1, RIGHT), Some(2)),
            (((2, 1), 1, LEFT), Some(2)),
            (((2, 1), 1, RIGHT), None),
            (((2, 2), 0, RIGHT), None),
            ((BASE, 2, LEFT), Some(3)),
            ((BASE, 3, LEFT), None),
        ],
        made: &[
            (1, LEFT, Made::Named((BASE, 1, LEFT))),
            (1, RIGHT, Made::Named(((2, 1), 0, RIGHT))),
            (2, LEFT, Made::Named(((2, 1), 1, LEFT))),
            (2, RIGHT, Made::Named((BASE, 1, RIGHT))),
            (3, LEFT, Made::Named((BASE, 2, LEFT))),
            (3, RIGHT, Made::Greatest),
            (4, RIGHT, Made::Fault(PlaceFault::PastEnd(3))),
        ],
        orders: &[
            ((BASE, 1, LEFT), (BASE, 1, RIGHT), Some(Ordering::Less)),
            ((BASE, 1, LEFT), ((2, 1), 0, RIGHT), Some(Ordering::Less)),
            ((BASE, 1, RIGHT), ((2, 1), 1, LEFT), Some(Ordering::Greater)),
            ((BASE, 1, LEFT), (BASE, 1, LEFT), Some(Ordering::Equal)),
            ((BASE, 1, LEFT), ((2, 2), 0, RIGHT), None),
        ],
    },
    // a and b are deleted: their anchors keep their order at one place.
    Row {
        runs: &[
            (BASE, 0, "a", false, &[], &[]),
            ((2, 1), 0, "X", true, &[], &[]),
            (BASE, 1, "b", false, &[], &[]),
        ],
        visible: "X",
        hidden: "ab",
        places: &[
            ((BASE, 1, LEFT), Some(0)),
            ((BASE, 0, RIGHT), Some(0)),
            ((BASE, 1, RIGHT), Some(1)),
            ((BASE, 2, LEFT), Some(1)),
        ],
        made: &[(1, LEFT, Made::Named(((2, 1), 1, LEFT)))],
        orders: &[
            ((BASE, 0, RIGHT), (BASE, 1, LEFT), Some(Ordering::Less)),
            ((BASE, 2, LEFT), (BASE, 1, RIGHT), Some(Ordering::Greater)),
        ],
    },
    // X put after b: an anchor after c moves with it.
    Row {
        runs: &[
            (BASE, 0, "ab", true, &[], &[]),
            ((2, 1), 0, "X", true, &[], &[]),
            (BASE, 2, "c", true, &[], &[]),
        ],
        visible: "abXc",
        hidden: "",
        places: &[((BASE, 3, LEFT), Some(4)), ((BASE, 2, LEFT), Some(2))],
        made: &[],
        orders: &[],
    },
    // Characters of 2, 3 and 4 bytes, the second one hidden.
    Row {
        runs: &[
            (BASE, 0, "é", true, &[], &[]),
            (BASE, 2, "€", false, &[], &[]),
            (BASE, 5, "😀", true, &[], &[]),
        ],
        visible: "é😀",
        hidden: "€",
        places: &[
            ((BASE, 1, LEFT), None),
            ((BASE, 2, LEFT), Some(2)),
            ((BASE, 3, RIGHT), None),
            ((BASE, 2, RIGHT), Some(2)),
            ((BASE, 5, LEFT), Some(2)),
            ((BASE, 5, RIGHT), Some(2)),
            ((BASE, 8, LEFT), None),
            ((BASE, 9, LEFT), Some(6)),
            ((BASE, 9, RIGHT), None),
        ],
        made: &[
            (1, LEFT, Made::Fault(PlaceFault::InsideChar)),
            (2, LEFT, Made::Named((BASE, 2, LEFT))),
            (2, RIGHT, Made::Named((BASE, 5, RIGHT))),
            (6, LEFT, Made::Named((BASE, 9, LEFT))),
        ],
        orders: &[
            ((BASE, 2, RIGHT), (BASE, 5, LEFT), Some(Ordering::Less)),
            ((BASE, 1, LEFT), (BASE, 5, LEFT), None),
        ],
    },
];

// Fragments, their index, and both texts.
#[derive(Clone, Copy)]
struct Content<'c> {
    tree: &'c SumTree<Fragment>,
    index: &'c InsertionIndex,
    visible: &'c Rope,
    hidden: &'c Rope,
}

fn anchor_of((edit, offset, bias): Name) -> Anchor {
    Anchor::At {
        stamp: stamp(edit),
        offset,
        bias,
    }
}

fn answer_of(want: Made) -> Result<Anchor, PlaceFault> {
    match want {
        Made::Least => Ok(Anchor::Least),
        Made::Greatest => Ok(Anchor::Greatest),
        Made::Named(name) => Ok(anchor_of(name)),
        Made::Fault(fault) => Err(fault),
    }
}

impl Content<'_> {
    fn place(&self, anchor: Anchor) -> Option<u64> {
        resolve(self.tree, self.index, self.visible, self.hidden, &anchor).ok()
    }

    fn order(&self, a: Anchor, b: Anchor) -> Option<Ordering> {
        compare(self.tree, self.index, self.visible, self.hidden, &a, &b).ok()
    }

    fn anchor(&self, offset: u64, bias: Bias) -> Result<Anchor, PlaceFault> {
        anchor_at(
            self.tree,
            self.index,
            self.visible,
            self.hidden,
            offset,
            bias,
        )
    }

    fn has_places(&self, rows: &[(Name, Option<u64>)]) -> bool {
        let mut right = true;
        for &(name, want) in rows {
            right = right && self.place(anchor_of(name)) == want;
        }
        right
    }

    // Whether this is made at each offset, and each anchor has its offset for its place.
    fn makes(&self, rows: &[(u64, Bias, Made)]) -> bool {
        let mut right = true;
        for &(offset, bias, want) in rows {
            let made = self.anchor(offset, bias);
            right = right && made == answer_of(want);
            if let Ok(anchor) = made {
                right = right && self.place(anchor) == Some(offset);
            }
        }
        right
    }

    fn has_orders(&self, rows: &[(Name, Name, Option<Ordering>)]) -> bool {
        let mut right = true;
        for &(a, b, want) in rows {
            right = right && self.order(anchor_of(a), anchor_of(b)) == want;
        }
        right
    }

    fn holds(&self, row: &Row) -> bool {
        self.has_places(row.places) && self.has_orders(row.orders) && self.makes(row.made)
    }
}

// Enters a fragment, and what is deleted of it.
fn enter(rt: &impl Abort, alloc: Global, index: &mut InsertionIndex, fragment: &Fragment) {
    let id = fragment.id.copy(alloc).expect(rt, "memory");
    keep(alloc, index, fragment.stamp, fragment.offset, id).expect(rt, "memory");
    for edit in fragment.deletions.as_slice() {
        index
            .add_deleted(alloc, *edit, fragment.stamp, fragment.offset, fragment.len)
            .expect(rt, "memory");
    }
}

/// The index of fragments and of what is deleted of them.
pub(crate) fn index_of(rt: &impl Abort, alloc: Global, tree: &SumTree<Fragment>) -> InsertionIndex {
    let mut index = InsertionIndex::new(alloc).expect(rt, "memory");
    for i in 0..tree.len() {
        if let Some(fragment) = tree.get(i) {
            enter(rt, alloc, &mut index, fragment);
        }
    }
    index
}

fn holds_of(
    rt: &impl Abort,
    alloc: Global,
    tree: &SumTree<Fragment>,
    index: &InsertionIndex,
    row: &Row,
) -> bool {
    let visible = rope_of(rt, alloc, row.visible);
    let hidden = rope_of(rt, alloc, row.hidden);
    let content = Content {
        tree,
        index,
        visible: &visible,
        hidden: &hidden,
    };
    content.holds(row)
}

fn holds(rt: &impl Abort, alloc: Global, row: &Row) -> bool {
    let tree = tree_of(rt, alloc, row.runs, 1);
    let index = index_of(rt, alloc, &tree);
    holds_of(rt, alloc, &tree, &index, row)
}

#[test]
fn anchors_keep_to_their_bytes(rt: HostRuntime) {
    for row in ROWS {
        assert!(rt;
            holds(&rt, rt.alloc(), row),
            "in {} beside {}",
            row.visible,
            row.hidden
        );
    }
}

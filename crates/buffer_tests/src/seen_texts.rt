//! What versions see of a text in fragments: how many bytes, and where characters begin.
use crate::operations::{Stamp, version};
use crate::runs::{Run, tree_of};
use fragments::Fragment;
use lamport_clock::Version;
use rope_chunks::Rope;
use seen_text::{is_seen_boundary, seen_len};
use std::alloc::Global;
use std::process::Abort;
use sum_tree::SumTree;

// Of a base "aé" the bytes around those of an edit, "éb", which is deleted.
const RUNS: &[Run] = &[
    ((1, 0), 0, "a", true, &[], &[]),
    ((2, 1), 0, "éb", false, &[], &[]),
    ((1, 0), 1, "é", true, &[], &[]),
];

const SHOWN: &str = "aé";

const HIDDEN: &str = "éb";

// The stamps that a version has seen, and the text that it sees.
const ROWS: &[(&[Stamp], &str)] = &[
    (&[], ""),
    (&[(1, 0)], "aé"),
    (&[(2, 1)], "éb"),
    (&[(1, 0), (2, 1)], "aébé"),
];

/// The rope of a text, unless it is long.
pub(crate) fn rope_of(rt: &impl Abort, alloc: Global, text: &str) -> Rope {
    if text.len() >= 1 << 30 {
        return Rope::new(alloc).expect(rt, "memory");
    }
    Rope::from_str(alloc, text).expect(rt, "memory")
}

// Whether a version sees a text of these many bytes and characters, at each place of it and the next ones.
fn sees_text(
    rt: &impl Abort,
    alloc: Global,
    tree: &SumTree<Fragment>,
    version: &Version,
    text: &str,
) -> bool {
    let shown = rope_of(rt, alloc, SHOWN);
    let hidden = rope_of(rt, alloc, HIDDEN);
    let mut right = seen_len(tree, version) == text.len() as u64;
    for place in 0..9 {
        let begins = is_seen_boundary(tree, &shown, &hidden, version, place);
        right = right && begins == text.is_char_boundary(place as usize);
    }
    right
}

fn sees(rt: &impl Abort, alloc: Global, stamps: &[Stamp], text: &str) -> bool {
    let tree = tree_of(rt, alloc, RUNS, 1);
    sees_text(
        rt,
        alloc,
        &tree,
        &version(alloc, stamps).expect(rt, "memory"),
        text,
    )
}

#[test]
fn versions_see_lengths_and_characters(rt: HostRuntime) {
    for &(stamps, text) in ROWS {
        assert!(rt; sees(&rt, rt.alloc(), stamps, text), "of {text}");
    }
}

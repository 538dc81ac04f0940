//! Changes of ropes.
use crate::operations::{Change, pieces};
use op_model::{EditFault, Piece, text_total};
use rope_chunks::Rope;
use rope_edits::{piece_fault, replace_ranges};
use std::alloc::Global;
use std::process::Abort;
use sum_tree::OutOfMemory;

// Changes of a text, and their fault, or the text with them.
struct Changed {
    text: &'static str,
    changes: &'static [Change],
    answer: Result<&'static str, EditFault>,
}

const CHANGED: &[Changed] = &[
    Changed {
        text: "",
        changes: &[(0, 0, "new")],
        answer: Ok("new"),
    },
    Changed {
        text: "one two three",
        changes: &[(0, 3, "1"), (4, 7, ""), (7, 7, "and"), (8, 13, "3")],
        answer: Ok("1 and 3"),
    },
    Changed {
        text: "é😀\n",
        changes: &[(0, 2, "e"), (6, 7, "")],
        answer: Ok("e😀"),
    },
    Changed {
        text: "é😀\n",
        changes: &[(0, 2, ""), (3, 6, "")],
        answer: Err(EditFault::InsideChar(1)),
    },
    Changed {
        text: "ab",
        changes: &[(0, 1, ""), (1, 3, "")],
        answer: Err(EditFault::PastEnd(1, 2)),
    },
    Changed {
        text: "ab",
        changes: &[(1, 2, ""), (1, 1, "")],
        answer: Err(EditFault::Overlap(1)),
    },
    Changed {
        text: "ab",
        changes: &[(2, 1, "")],
        answer: Err(EditFault::Reversed(0)),
    },
];

// The fault of changes of a text, or the text with them, where both are short.
fn text_with(
    rt: &impl Abort,
    alloc: Global,
    text: &str,
    changes: &[Piece],
) -> Result<String, EditFault> {
    if text.len() > 1 << 30 || text_total(changes) > 1 << 30 {
        return Err(EditFault::OutOfMemory);
    }
    let rope = Rope::from_str(alloc, text).expect(rt, "memory");
    match piece_fault(&rope, changes) {
        Some(fault) => Err(fault),
        None => {
            let changed = replace_ranges(alloc, &rope, changes).expect(rt, "memory");
            Ok(changed.to_string(alloc).expect(rt, "memory"))
        }
    }
}

// Whether a case comes to its answer.
fn is_changed(rt: &impl Abort, alloc: Global, case: &Changed) -> bool {
    let changes = pieces(alloc, case.changes).expect(rt, "memory");
    match text_with(rt, alloc, case.text, changes.as_slice()) {
        Ok(text) => case.answer == Ok(text.as_str()),
        Err(fault) => case.answer == Err(fault),
    }
}

#[test]
fn ranges_are_replaced_or_refused(rt: HostRuntime) {
    for case in CHANGED {
        assert!(rt;
            is_changed(&rt, rt.alloc(), case),
            "where {:?} is wanted",
            case.answer
        );
    }
}

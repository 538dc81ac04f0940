//! What excerpts of buffers show, and how their text is changed, by rows that were made outside.
use crate::steps::{Step, first_wrong};
use multi_buffer::{PushFault, SplitFault};

struct Row {
    name: &'static str,
    steps: &'static [Step],
}

const ROWS: &[Row] = &[
    Row {
        name: "the example",
        steps: &[
            Step::Page("abc\ndef"),
            Step::Page("abc\ndef"),
            Step::Excerpt(0, 0, 2, 0),
            Step::Excerpt(1, 4, 7, 1),
            Step::Text("ab\ndef"),
            Step::Changes(&[(2, 2, "X"), (3, 4, "")], 2),
            Step::Text("abX\nef"),
            Step::Refused(&[(2, 4, "")], SplitFault::Crosses(0)),
            Step::PageText(0, "abXc\ndef"),
            Step::PageText(1, "abc\nef"),
        ],
    },
    Row {
        name: "three excerpts of two buffers",
        steps: &[
            Step::Page("abc\ndef"),
            Step::Page("abc\ndef"),
            Step::Excerpt(0, 0, 2, 0),
            Step::Excerpt(1, 4, 7, 1),
            Step::Excerpt(0, 5, 7, 2),
            Step::Text("ab\ndef\nef"),
            Step::Changes(&[(2, 2, "X"), (3, 4, ""), (9, 9, "Y")], 2),
            Step::Text("abX\nef\nefY"),
            Step::PageText(0, "abXc\ndefY"),
            Step::PageText(1, "abc\nef"),
        ],
    },
    Row {
        name: "excerpts that touch",
        steps: &[
            Step::Page("abc"),
            Step::Excerpt(0, 0, 2, 0),
            Step::Excerpt(0, 2, 3, 1),
            Step::Refused(&[(2, 2, "X")], SplitFault::Shared(0, 1)),
            Step::Refused(&[(3, 3, "X")], SplitFault::Shared(0, 0)),
            Step::Changes(&[(1, 1, "X"), (4, 4, "Y")], 1),
            Step::Text("aXb\ncY"),
        ],
    },
    Row {
        name: "no excerpt",
        steps: &[
            Step::Page("abc"),
            Step::Text(""),
            Step::Changes(&[], 0),
            Step::Refused(&[(0, 0, "")], SplitFault::Crosses(0)),
            Step::Refused(&[(0, 0, "X")], SplitFault::Crosses(0)),
            Step::Refused(&[(1, 1, "")], SplitFault::PastEnd(0, 0)),
            Step::Nowhere(0),
        ],
    },
    Row {
        name: "an empty excerpt grows",
        steps: &[
            Step::Page("ab"),
            Step::Excerpt(0, 1, 1, 0),
            Step::Text(""),
            Step::At(0, 0, 0, 1),
            Step::Changes(&[(0, 0, "X")], 1),
            Step::Text("X"),
            Step::PageText(0, "aXb"),
        ],
    },
    Row {
        name: "empty excerpts side by side",
        steps: &[
            Step::Page("ab"),
            Step::Page("cd"),
            Step::Excerpt(0, 1, 1, 0),
            Step::Excerpt(1, 1, 1, 1),
            Step::Text("\n"),
            Step::At(0, 0, 0, 1),
            Step::At(1, 1, 1, 1),
            Step::Nowhere(2),
            Step::Changes(&[(0, 0, "X"), (1, 1, "Y")], 2),
            Step::Text("X\nY"),
        ],
    },
    Row {
        name: "empty excerpts at both ends of a text",
        steps: &[
            Step::Page("ab"),
            Step::Excerpt(0, 2, 2, 0),
            Step::Excerpt(0, 0, 0, 1),
            Step::Text("\n"),
            Step::Changes(&[(0, 0, "X"), (1, 1, "Y")], 1),
            Step::Text("X\nY"),
            Step::PageText(0, "YabX"),
        ],
    },
    Row {
        name: "one range twice",
        steps: &[
            Step::Page("ab"),
            Step::Excerpt(0, 0, 2, 0),
            Step::Excerpt(0, 0, 2, 1),
            Step::Text("ab\nab"),
            Step::Refused(&[(1, 1, "X")], SplitFault::Shared(0, 1)),
            Step::Refused(&[(4, 4, "X")], SplitFault::Shared(0, 0)),
            Step::Edit(0, (1, 1, "X")),
            Step::Text("aXb\naXb"),
        ],
    },
    Row {
        name: "text at both ends of an excerpt is in it",
        steps: &[
            Step::Page("abcd"),
            Step::Excerpt(0, 1, 3, 0),
            Step::Edit(0, (1, 1, "X")),
            Step::Text("Xbc"),
            Step::Edit(0, (4, 4, "Y")),
            Step::Text("XbcY"),
            Step::Edit(0, (1, 1, "é")),
            Step::Text("éXbcY"),
            Step::Changes(&[(0, 0, "P"), (6, 6, "Q")], 1),
            Step::Text("PéXbcYQ"),
        ],
    },
    Row {
        name: "all bytes of an excerpt are deleted and come back",
        steps: &[
            Step::Page("abcd"),
            Step::Excerpt(0, 1, 3, 0),
            Step::Edit(0, (1, 3, "")),
            Step::Text(""),
            Step::PageText(0, "ad"),
            Step::Undo(0, 2),
            Step::Text("bc"),
        ],
    },
    Row {
        name: "bytes at the start are deleted and come back",
        steps: &[
            Step::Page("abcd"),
            Step::Excerpt(0, 1, 3, 0),
            Step::Edit(0, (0, 2, "")),
            Step::Text("c"),
            Step::Undo(0, 2),
            Step::PageText(0, "abcd"),
            Step::Text("abc"),
        ],
    },
    Row {
        name: "bytes at the end are deleted and come back",
        steps: &[
            Step::Page("abcd"),
            Step::Excerpt(0, 1, 3, 0),
            Step::Edit(0, (2, 4, "")),
            Step::Text("b"),
            Step::Undo(0, 2),
            Step::PageText(0, "abcd"),
            Step::Text("bcd"),
        ],
    },
    Row {
        name: "a whole text is replaced",
        steps: &[
            Step::Page("abcd"),
            Step::Excerpt(0, 1, 3, 0),
            Step::Edit(0, (0, 4, "XY")),
            Step::Text(""),
            Step::Edit(0, (2, 2, "Z")),
            Step::Text("Z"),
            Step::PageText(0, "XYZ"),
        ],
    },
    Row {
        name: "carets in three buffers, one with LFs alone",
        steps: &[
            Step::Page("ab"),
            Step::LfPage("cd"),
            Step::Page("ef"),
            Step::Excerpt(0, 0, 2, 0),
            Step::Excerpt(1, 0, 2, 1),
            Step::Excerpt(2, 0, 2, 2),
            Step::Changes(&[(1, 1, "x\r\ny"), (4, 4, "x\r\ny"), (7, 7, "z")], 3),
            Step::Text("ax\r\nyb\ncx\nyd\nezf"),
        ],
    },
    Row {
        name: "excerpts of one buffer in falling order",
        steps: &[
            Step::Page("abcdef"),
            Step::Excerpt(0, 4, 6, 0),
            Step::Excerpt(0, 2, 3, 1),
            Step::Excerpt(0, 0, 1, 2),
            Step::Text("ef\nc\na"),
            Step::Changes(&[(0, 0, "1"), (2, 2, "2"), (3, 4, "3"), (5, 6, "4")], 1),
            Step::Text("1ef2\n3\n4"),
            Step::PageText(0, "4b3d1ef2"),
        ],
    },
    Row {
        name: "two changes at one place stay in their order",
        steps: &[
            Step::Page("ab"),
            Step::Excerpt(0, 0, 2, 0),
            Step::Changes(&[(1, 1, "X"), (1, 1, "Y"), (1, 2, "Z")], 1),
            Step::Text("aXYZ"),
        ],
    },
    Row {
        name: "faults in their order",
        steps: &[
            Step::Page("aé"),
            Step::Excerpt(0, 0, 3, 0),
            Step::Excerpt(0, 1, 3, 1),
            Step::Text("aé\né"),
            Step::Refused(&[(9, 9, ""), (3, 2, "")], SplitFault::Reversed(1)),
            Step::Refused(&[(0, 9, ""), (1, 1, "")], SplitFault::Overlap(1)),
            Step::Refused(&[(2, 2, ""), (4, 7, "")], SplitFault::PastEnd(1, 6)),
            Step::Refused(&[(0, 0, ""), (2, 4, "")], SplitFault::InsideChar(1)),
            Step::Refused(&[(0, 0, "X"), (3, 4, "X")], SplitFault::Crosses(1)),
            Step::Refused(&[(0, 0, "X"), (1, 1, "X")], SplitFault::Shared(1, 1)),
            Step::Refused(&[(5, 5, "")], SplitFault::InsideChar(0)),
            Step::Changes(&[(0, 0, "X")], 1),
            Step::Text("Xaé\né"),
        ],
    },
    Row {
        name: "ranges that are no excerpts",
        steps: &[
            Step::Page("aé"),
            Step::NoExcerpt(0, 2, 1, PushFault::Reversed(0)),
            Step::NoExcerpt(0, 0, 4, PushFault::PastEnd(0, 3)),
            Step::NoExcerpt(0, 0, 2, PushFault::InsideChar(0)),
            Step::NoExcerpt(0, 2, 3, PushFault::InsideChar(0)),
            Step::Text(""),
            Step::Excerpt(0, 3, 3, 0),
        ],
    },
    Row {
        name: "places",
        steps: &[
            Step::Page("aé"),
            Step::Page("bcd"),
            Step::Excerpt(1, 1, 3, 0),
            Step::Excerpt(0, 1, 3, 1),
            Step::Excerpt(1, 0, 2, 2),
            Step::Text("cd\né\nbc"),
            Step::At(0, 0, 1, 1),
            Step::At(2, 0, 1, 3),
            Step::At(3, 1, 0, 1),
            Step::Nowhere(4),
            Step::At(5, 1, 0, 3),
            Step::At(6, 2, 1, 0),
            Step::At(8, 2, 1, 2),
            Step::Nowhere(9),
        ],
    },
];

#[test]
fn rows(rt: HostRuntime) {
    for row in ROWS {
        let wrong = first_wrong(&rt, rt.alloc(), row.steps);
        assert_eq!(rt; wrong, None, "{}", row.name);
    }
}

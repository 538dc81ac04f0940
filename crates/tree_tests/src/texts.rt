//! Worked rows, whose counts were made outside.
ghost use Rattle.std.specs.Prelude.{◌≡◌, ◌+◌, ◌^◌, ◌≤◌, length};

use std::alloc::Global;
use sum_tree::{OutOfMemory, Summary};
use text_dims::{OffsetUtf16, Place, Point, PointUtf16, TextSummary, is_char_start, units_at};

fn point(row: u64, column: u64) -> Point
    ensures { (result.row ≡ row) × (result.column ≡ column) }
{
    Point { row, column }
}

fn point_utf16(row: u64, column: u64) -> PointUtf16
    ensures { (result.row ≡ row) × (result.column ≡ column) }
{
    PointUtf16 { row, column }
}

// The bytes, UTF-16 units and characters of a text; its end; the characters of its first row; the characters and units of its
// last row; its longest row and the characters of that.
type Counts = ([u64; 3], [u64; 2], u64, [u64; 2], [u64; 2]);

const TEXTS: &[(&str, Counts)] = &[
    ("", ([0, 0, 0], [0, 0], 0, [0, 0], [0, 0])),
    ("a", ([1, 1, 1], [0, 1], 1, [1, 1], [0, 1])),
    ("\n", ([1, 1, 1], [1, 0], 0, [0, 0], [0, 0])),
    ("a\nbc", ([4, 4, 4], [1, 2], 1, [2, 2], [1, 2])),
    ("é😀\n", ([7, 4, 3], [1, 0], 2, [0, 0], [0, 2])),
    (
        "ab\r\ncd\n\nxyz\npqr",
        ([15, 15, 15], [4, 3], 3, [3, 3], [0, 3]),
    ),
    ("€uro\nß", ([9, 6, 6], [1, 2], 4, [1, 1], [0, 4])),
    ("😀😀\nabcd\n", ([14, 10, 8], [2, 0], 2, [0, 0], [1, 4])),
    ("ab\ncd\ne", ([7, 7, 7], [2, 1], 2, [1, 1], [0, 2])),
    ("a\nbcd\nef", ([8, 8, 8], [2, 2], 1, [2, 2], [1, 3])),
    ("\n\n\n", ([3, 3, 3], [3, 0], 0, [0, 0], [0, 0])),
    ("😀", ([4, 2, 1], [0, 4], 1, [1, 2], [0, 1])),
    (
        "a\n😀é€z\nbcd\nwxyz",
        ([21, 16, 15], [3, 4], 1, [4, 4], [1, 4]),
    ),
];

fn counts_of(text: &str) -> Counts {
    let sum = TextSummary::of(text);
    (
        [sum.len, sum.len_utf16, sum.chars],
        [sum.lines.row, sum.lines.column],
        sum.first_row_chars,
        [sum.last_row_chars, sum.last_row_len_utf16],
        [sum.longest_row, sum.longest_row_chars],
    )
}

#[test]
fn texts_are_counted(rt: HostRuntime) {
    for &(text, expected) in TEXTS {
        assert!(rt; counts_of(text) == expected, "of {text:?}");
    }
}

fn add<S: Summary>(alloc: Global, sum: &mut S, other: &S) -> Result<(), OutOfMemory>
    requires { S.fits (S.op sum.old other.now) }
{
    sum.add(alloc, other)
}

// The summary of two short texts, as any summary is added.
fn sum_of(alloc: Global, first: &str, second: &str) -> Result<TextSummary, OutOfMemory>
    requires { length first.now + length second.now ≤ 2 ^ 40 }
{
    let mut sum = TextSummary::of(first);
    add(alloc, &mut sum, &TextSummary::of(second))?;
    Ok(sum)
}

// Whether the summaries of two short texts add to that of both.
fn is_added(alloc: Global, first: &str, second: &str) -> Result<bool, OutOfMemory> {
    if first.len() > 100 || second.len() > 100 {
        return Ok(false);
    }
    let sum = sum_of(alloc, first, second)?;
    let both = join(alloc, first, second)?;
    Ok(sum == TextSummary::of(both.as_str()))
}

fn join(alloc: Global, first: &str, second: &str) -> Result<String, OutOfMemory> {
    let mut both = String::from_str(alloc, first)?;
    both.push_str(second)?;
    Ok(both)
}

#[test]
fn summaries_add_as_texts_join(rt: HostRuntime) -> Result<(), OutOfMemory> {
    for &(first, _) in TEXTS {
        for &(second, _) in TEXTS {
            assert!(rt;
                is_added(rt.alloc(), first, second)?,
                "of {first:?} and {second:?}"
            );
        }
    }
    assert!(rt;
        <TextSummary as Summary>::zero(rt.alloc()) == TextSummary::of(""),
        "of no text"
    );
    Ok(())
}

// Bytes, whether a character starts there, and its UTF-16 units.
const BYTES: &[(u8, bool, u64)] = &[
    (0x00, true, 1),
    (0x7f, true, 1),
    (0x80, false, 0),
    (0xbf, false, 0),
    (0xc2, true, 1),
    (0xef, true, 1),
    (0xf0, true, 2),
    (0xf4, true, 2),
];

#[test]
fn bytes_start_characters(rt: HostRuntime) {
    for &(byte, starts, units) in BYTES {
        assert!(rt; is_char_start(byte) == starts, "at {byte}");
        assert!(rt; units_at(byte) == units, "at {byte}");
    }
}

type Pair = (u64, u64);

// Two points, and their sum.
const SUMS: &[(Pair, Pair, Pair)] = &[
    ((2, 3), (0, 4), (2, 7)),
    ((2, 3), (1, 4), (3, 4)),
    ((0, 0), (0, 5), (0, 5)),
];

const SUMS_UTF16: &[(Pair, Pair, Pair)] = &[((1, 2), (0, 3), (1, 5))];

const ASCENDING: &[(Pair, Pair)] = &[((1, 9), (2, 0)), ((1, 2), (1, 3))];

// The sum of points in small rows and columns.
fn sum_of_points(first: Pair, second: Pair) -> Option<Pair> {
    if first.0 >= 100 || second.0 >= 100 || first.1 >= 100 || second.1 >= 100 {
        return None;
    }
    let sum = point(first.0, first.1) + point(second.0, second.1);
    Some((sum.row, sum.column))
}

fn sum_of_points_utf16(first: Pair, second: Pair) -> Option<Pair> {
    if first.0 >= 100 || second.0 >= 100 || first.1 >= 100 || second.1 >= 100 {
        return None;
    }
    let sum = point_utf16(first.0, first.1) + point_utf16(second.0, second.1);
    Some((sum.row, sum.column))
}

#[test]
fn points_add(rt: HostRuntime) {
    for &(first, second, sum) in SUMS {
        assert!(rt;
            sum_of_points(first, second) == Some(sum),
            "{first:?} and {second:?}"
        );
    }
    for &(first, second, sum) in SUMS_UTF16 {
        let added = sum_of_points_utf16(first, second);
        assert!(rt; added == Some(sum), "{first:?} and {second:?}, in units");
    }
    for &(first, second) in ASCENDING {
        let ascend = point(first.0, first.1) < point(second.0, second.1);
        assert!(rt; ascend, "{first:?} and {second:?}");
    }
}

const BEFORE: Place = Place {
    offset: 8,
    utf16: 5,
    row: 1,
    column: 1,
    column_utf16: 1,
};

const AFTER: Place = Place {
    offset: 9,
    utf16: 6,
    row: 1,
    column: 2,
    column_utf16: 2,
};

#[test]
fn places_go_past_texts(rt: HostRuntime) {
    assert!(rt;
        Place::default().past(&TextSummary::of("é😀\nx")) == BEFORE,
        "past a text"
    );
    assert!(rt; BEFORE.after(b'y') == AFTER, "after a byte");
    assert!(rt; BEFORE.after(b'\n').point() == point(2, 0), "after an LF");
    assert!(rt; AFTER.offset_utf16() == OffsetUtf16(6), "in units");
    assert!(rt; AFTER.point() == point(1, 2), "as a point");
    assert!(rt;
        AFTER.point_utf16() == point_utf16(1, 2),
        "as a point in units"
    );
    let wide = Place::default().past(&TextSummary::of("é😀"));
    assert!(rt; wide.point() == point(0, 6), "past wide characters");
    assert!(rt;
        wide.point_utf16() == point_utf16(0, 3),
        "past wide characters, in units"
    );
}

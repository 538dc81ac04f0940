//! Parts of ropes and replacements, against plain texts, and how full chunks are.
use crate::chance::step;
use crate::lent::lends;
use rope_chunks::{OutOfMemory, Rope};
use std::alloc::Global;

// Texts of 1 to 8 bytes, of characters of 1 to 4 bytes.
const PIECES: [&str; 8] = ["a", "é", "€", "😀", "b😀", "\r\n", "x\ny", "éé\n€"];

// More than a chunk, with characters of each length, empty rows and both kinds of ends of rows.
const MIXED: &str =
    "é😀\n\nThe quick brown fox jumps over the lazy dog, €20.\r\n\r\nÀ la 😀😀😀 carte\n\
                     a longest row in the middle, which is longer than every other row of the text é\n\
                     b\n€€€€€€€€€€€€€€€€€€€€€€€€€€€€€€\n😀";

// The rope of a text, unless it is long.
pub(crate) fn rope_of(alloc: Global, text: &str) -> Result<Rope, OutOfMemory> {
    if text.len() >= 1 << 30 {
        return Rope::new(alloc);
    }
    Rope::from_str(alloc, text)
}

// Whether the rope has this text.
pub(crate) fn has(alloc: Global, rope: &Rope, text: &str) -> Result<bool, OutOfMemory> {
    let own = rope.to_string(alloc)?;
    Ok(own.as_str() == text && rope.len() == text.len() as u64)
}

// Whether both agree on where they may be cut.
fn bounds_alike(rope: &Rope, text: &str, offset: usize) -> bool {
    rope.is_char_boundary(offset as u64) == text.is_char_boundary(offset)
}

// The part of a rope, where there is such a part, and else no text.
fn part_of(alloc: Global, rope: &Rope, start: u64, end: u64) -> Result<Rope, OutOfMemory> {
    if start > end || !rope.is_char_boundary(start) || !rope.is_char_boundary(end) {
        return Rope::new(alloc);
    }
    rope.slice(alloc, start, end)
}

// The same as a copy of its text.
fn copy_of(alloc: Global, rope: &Rope, start: u64, end: u64) -> Result<String, OutOfMemory> {
    if start > end || !rope.is_char_boundary(start) || !rope.is_char_boundary(end) {
        return Ok(String::new(alloc));
    }
    rope.text_of(alloc, start, end)
}

// The part of a text, where there is such a part, and else no text.
pub(crate) fn plain_part(text: &str, start: usize, end: usize) -> &str {
    if start <= end && text.is_char_boundary(start) && text.is_char_boundary(end) {
        return &text[start..end];
    }
    ""
}

// Whether the part of the rope is this text.
fn has_part(
    alloc: Global,
    rope: &Rope,
    (start, end): (usize, usize),
    text: &str,
) -> Result<bool, OutOfMemory> {
    let part = part_of(alloc, rope, start as u64, end as u64)?;
    has(alloc, &part, text)
}

// Whether it is that of the text, as a copy and as lent too, and both agree on where they may be cut.
fn cuts_alike(
    alloc: Global,
    rope: &Rope,
    text: &str,
    (start, end): (usize, usize),
) -> Result<bool, OutOfMemory> {
    let expected = plain_part(text, start, end);
    let copied = copy_of(alloc, rope, start as u64, end as u64)?.as_str() == expected;
    let lent = lends(alloc, rope, (start, end), expected)?;
    let bounds = bounds_alike(rope, text, start) & bounds_alike(rope, text, end);
    Ok(has_part(alloc, rope, (start, end), expected)? & copied & lent & bounds)
}

// Whether all parts that start at a place are alike, of several lengths.
fn cuts_alike_at(
    alloc: Global,
    rope: &Rope,
    text: &str,
    start: usize,
) -> Result<bool, OutOfMemory> {
    let mut alike = cuts_alike(alloc, rope, text, (start, text.len()))?;
    for size in [0, 1, 4, 127, 130] {
        alike = alike & cuts_alike(alloc, rope, text, (start, start.saturating_add(size)))?;
    }
    Ok(alike)
}

// The first place at which a part that starts there is not alike.
fn wrong_cut(alloc: Global, text: &str) -> Result<Option<usize>, OutOfMemory> {
    let rope = rope_of(alloc, text)?;
    for start in 0..text.len().saturating_add(2) {
        if !cuts_alike_at(alloc, &rope, text, start)? {
            return Ok(Some(start));
        }
    }
    Ok(None)
}

// The text of a part.
fn part(alloc: Global, text: &str, start: usize, end: usize) -> Result<String, OutOfMemory> {
    let rope = rope_of(alloc, text)?;
    part_of(alloc, &rope, start as u64, end as u64)?.to_string(alloc)
}

#[test]
fn parts_are_those_of_texts(rt: HostRuntime) -> Result<(), OutOfMemory> {
    assert!(rt;
        part(rt.alloc(), "a\nbc", 1, 3)?.as_str() == "\nb",
        "of a short text"
    );
    let wrong = wrong_cut(rt.alloc(), MIXED)?;
    assert!(rt; wrong.is_none(), "at {wrong:?}");
    Ok(())
}

// A text with a piece in the place of a range.
fn text_with(alloc: Global, parts: [&str; 3]) -> Result<String, OutOfMemory> {
    let mut new = String::new(alloc);
    for part in parts {
        new.push_str(part)?;
    }
    Ok(new)
}

// Replaces a range of a rope, where it may be.
fn replace(
    alloc: Global,
    rope: &mut Rope,
    start: u64,
    end: u64,
    piece: &str,
) -> Result<(), OutOfMemory> {
    if start <= end
        && rope.is_char_boundary(start)
        && rope.is_char_boundary(end)
        && rope.len() < 1 << 30
        && piece.len() < 1 << 20
    {
        rope.replace(alloc, start, end, piece)?;
    }
    Ok(())
}

// Replaces a range in a rope, where it may be, and returns the text that it should have then.
fn replace_both(
    alloc: Global,
    rope: &mut Rope,
    text: &str,
    (start, end): (usize, usize),
    piece: &str,
) -> Result<String, OutOfMemory> {
    if start > end || !text.is_char_boundary(start) || !text.is_char_boundary(end) {
        return String::from_str(alloc, text);
    }
    replace(alloc, rope, start as u64, end as u64, piece)?;
    text_with(alloc, [&text[..start], piece, &text[end..]])
}

// The range, of less than `most` bytes, and the piece that x draws.
fn draw(x: u64, len: usize, most: usize) -> ((usize, usize), &'static str) {
    let start = (x >> 20) as usize % len.saturating_add(1);
    let size = (x >> 8) as usize % most.max(1);
    let piece = PIECES[(x >> 40) as usize % 8];
    ((start, start.saturating_add(size).min(len)), piece)
}

// Replaces n ranges by chance, and returns whether the rope had the right text after each.
fn replaces_often(
    alloc: Global,
    rope: &mut Rope,
    n: u64,
    most: usize,
) -> Result<bool, OutOfMemory> {
    let mut text = rope.to_string(alloc)?;
    let mut alike = true;
    let mut x = most as u64;
    for _ in 0..n {
        x = step(x);
        let (range, piece) = draw(x, text.len(), most);
        text = replace_both(alloc, rope, text.as_str(), range, piece)?;
        alike = has(alloc, rope, text.as_str())? & alike;
    }
    Ok(alike)
}

// Replaces ranges of a rope in some runs while another shares its chunks, which keeps its text.
fn replaces_beside(
    alloc: Global,
    rope: &mut Rope,
    text: &str,
    runs: Runs,
) -> Result<bool, OutOfMemory> {
    let shared = rope.share()?;
    let alike = replaces_runs(alloc, rope, runs)?;
    Ok(has(alloc, &shared, text)? & alike)
}

fn replaces_shared(alloc: Global, text: &str, runs: Runs) -> Result<bool, OutOfMemory> {
    let mut rope = rope_of(alloc, text)?;
    replaces_beside(alloc, &mut rope, text, runs)
}

fn replaces_runs(alloc: Global, rope: &mut Rope, runs: Runs) -> Result<bool, OutOfMemory> {
    let mut alike = true;
    for &(n, most) in runs {
        alike = replaces_often(alloc, rope, n, most)? & alike;
    }
    Ok(alike)
}

// How many ranges are replaced, and the bytes of which each has less.
type Runs = &'static [(u64, usize)];

const REPLACED: &[(&str, Runs)] = &[(MIXED, &[(400, 9), (200, 300)]), ("", &[(100, 20)])];

#[test]
fn replacements_are_those_of_texts(rt: HostRuntime) -> Result<(), OutOfMemory> {
    for &(text, runs) in REPLACED {
        assert!(rt; replaces_shared(rt.alloc(), text, runs)?, "{runs:?}");
    }
    Ok(())
}

fn count(rope: &Rope) -> u64 {
    let mut chunks = 0u64;
    for _ in rope.chunks() {
        chunks = chunks.wrapping_add(1);
    }
    chunks
}

// Whether a rope of n bytes has at most n / 62 + 2 chunks.
fn is_filled(rope: &Rope) -> bool {
    count(rope) <= (rope.len() / 62).saturating_add(2)
}

// Puts a piece after a rope by a push.
fn push_to(alloc: Global, rope: &mut Rope, piece: &str) -> Result<(), OutOfMemory> {
    if rope.len() < 1 << 30 && piece.len() < 1 << 20 {
        return rope.push_str(alloc, piece);
    }
    Ok(())
}

// The same by the rope of the piece.
fn join_to(alloc: Global, rope: &mut Rope, piece: &str) -> Result<(), OutOfMemory> {
    let back = rope_of(alloc, piece)?;
    if rope.len() < 1 << 30 && back.len() < 1 << 30 {
        return rope.append(alloc, back);
    }
    Ok(())
}

// How a rope gets its text: piece by piece, or at once.
#[derive(Clone, Copy, Debug)]
enum Growth {
    Pushes,
    Joins,
    Once,
}

// Puts n texts of 1 to 5 bytes, drawn by chance, after a rope.
fn grow(alloc: Global, rope: &mut Rope, growth: Growth, n: u64) -> Result<(), OutOfMemory> {
    let mut x = 1u64;
    for _ in 0..n {
        x = step(x);
        let piece = PIECES[(x >> 40) as usize % 5];
        match growth {
            Growth::Pushes => push_to(alloc, rope, piece)?,
            _ => join_to(alloc, rope, piece)?,
        }
    }
    Ok(())
}

// The text of n such pieces.
fn grown_text(alloc: Global, n: u64) -> Result<String, OutOfMemory> {
    let mut text = String::new(alloc);
    let mut x = 1u64;
    for _ in 0..n {
        x = step(x);
        text.push_str(PIECES[(x >> 40) as usize % 5])?;
    }
    Ok(text)
}

fn grown(alloc: Global, growth: Growth, n: u64, text: &str) -> Result<Rope, OutOfMemory> {
    let mut rope = Rope::new(alloc)?;
    match growth {
        Growth::Once => rope = rope_of(alloc, text)?,
        _ => grow(alloc, &mut rope, growth, n)?,
    }
    Ok(rope)
}

// Whether the rope of n pieces has their text, in chunks that are filled, and more bytes than the least.
fn is_filled_with(
    alloc: Global,
    growth: Growth,
    n: u64,
    least: usize,
) -> Result<bool, OutOfMemory> {
    let text = grown_text(alloc, n)?;
    let rope = grown(alloc, growth, n, text.as_str())?;
    Ok(has(alloc, &rope, text.as_str())? & is_filled(&rope) & (text.len() > least))
}

const GROWTHS: &[Growth] = &[Growth::Pushes, Growth::Joins, Growth::Once];

#[test]
fn chunks_stay_filled(rt: HostRuntime) -> Result<(), OutOfMemory> {
    for &growth in GROWTHS {
        assert!(rt;
            is_filled_with(rt.alloc(), growth, 100_000, 200_000)?,
            "{growth:?}"
        );
    }
    Ok(())
}

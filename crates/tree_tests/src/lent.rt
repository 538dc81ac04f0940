//! What ropes lend of ranges, against the same ranges of plain texts.
use crate::chance::step;
use crate::parts::{plain_part, rope_of};
use rope_chunks::{OutOfMemory, Rope};
use std::alloc::Global;

// Texts of one character, or a mixed piece, many times over. What comes first moves the characters against the ends of chunks:
// a chunk of 128 bytes ends inside none, or is 1, 2 or 3 bytes short.
const TEXTS: &[(&str, &str)] = &[
    ("", ""),
    ("", "é"),
    ("a", "é"),
    ("", "€"),
    ("a", "€"),
    ("", "😀"),
    ("a", "😀"),
    ("éa", "😀"),
    ("", "éa😀\r\n€"),
];

// How often the piece stands in a text, so that the chunks need many leaves; how many ranges are lent, and the bytes of which
// each has less.
const TIMES: u64 = 1500;

const RANGES: &[(u64, usize)] = &[(100, 9), (100, 300), (50, 20_000)];

// Whether what a rope lends of a range is this text, and each piece of it has 1 to 128 bytes. A range that does not begin and end
// at positions has no text.
pub(crate) fn lends(
    alloc: Global,
    rope: &Rope,
    (start, end): (usize, usize),
    text: &str,
) -> Result<bool, OutOfMemory> {
    let (start, end) = (start as u64, end as u64);
    if start > end || !rope.is_char_boundary(start) || !rope.is_char_boundary(end) {
        return Ok(text.is_empty());
    }
    let mut lent = String::new(alloc);
    let mut sized = true;
    for piece in rope.chunks_in(start, end) {
        sized = sized & !piece.is_empty() & (piece.len() <= 128);
        lent.push_str(piece)?;
    }
    Ok(sized & (lent.as_str() == text))
}

// A text before n times a piece.
fn repeated(alloc: Global, first: &str, piece: &str, n: u64) -> Result<String, OutOfMemory> {
    let mut text = String::from_str(alloc, first)?;
    for _ in 0..n {
        text.push_str(piece)?;
    }
    Ok(text)
}

// The last position of a text at or before an offset.
fn position_at(text: &str, offset: usize) -> usize {
    for back in 0..4 {
        let place = offset.saturating_sub(back);
        if text.is_char_boundary(place) {
            return place;
        }
    }
    0
}

// The range, of less than `most` bytes, that x draws.
fn draw(x: u64, text: &str, most: usize) -> (usize, usize) {
    let start = (x >> 20) as usize % text.len().saturating_add(1);
    let size = (x >> 8) as usize % most.max(1);
    let end = start.saturating_add(size).min(text.len());
    (position_at(text, start), position_at(text, end))
}

// Lends n ranges by chance, and returns how many were not those of the text.
fn wrongly_lent(
    alloc: Global,
    rope: &Rope,
    text: &str,
    n: u64,
    most: usize,
) -> Result<u64, OutOfMemory> {
    let mut wrong = 0u64;
    let mut x = most as u64;
    for _ in 0..n {
        x = step(x);
        let range = draw(x, text, most);
        if !lends(alloc, rope, range, plain_part(text, range.0, range.1))? {
            wrong = wrong.wrapping_add(1);
        }
    }
    Ok(wrong)
}

// The same in the rope of a text, with ranges of several sizes.
fn wrongly_lent_of(alloc: Global, first: &str, piece: &str) -> Result<u64, OutOfMemory> {
    let text = repeated(alloc, first, piece, TIMES)?;
    let rope = rope_of(alloc, text.as_str())?;
    let mut wrong = 0u64;
    for &(n, most) in RANGES {
        wrong = wrong.wrapping_add(wrongly_lent(alloc, &rope, text.as_str(), n, most)?);
    }
    Ok(wrong)
}

#[test]
fn lent_ranges_are_those_of_texts(rt: HostRuntime) -> Result<(), OutOfMemory> {
    for &(first, piece) in TEXTS {
        assert!(rt;
            wrongly_lent_of(rt.alloc(), first, piece)? == 0,
            "{first:?} before {piece:?}"
        );
    }
    Ok(())
}

//! The masks of chunks, by rows that were counted outside.
use rope_chunks::{Chunk, Masks};

const ROW: &str =
    "abcdefghijklmnopqrstuvwxyzabcdefghijklmnopqrstuvwxyzabcdefghijklmnopqrstuvwxyzabcdefghijklmnopqrstuvwxyzabcdefghijklmnopqrstuvw\n";

const WIDE: &str = "😀😀😀😀😀😀😀😀😀😀😀😀😀😀😀😀😀😀😀😀😀😀😀😀😀😀😀😀😀😀😀😀";

const EVERY_FOURTH: u128 = 0x11111111_11111111_11111111_11111111;

// A text, with the masks of its starts of characters, of its characters of four bytes, and of its LFs.
const ROWS: &[(&str, u128, u128, u128)] = &[
    ("", 0, 0, 0),
    ("a", 1, 0, 0),
    ("\n\n", 3, 0, 3),
    ("é😀\n", 69, 4, 64),
    ("0123456789abcde\n", 0xffff, 0, 0x8000),
    ("0123456789abcdef\nx", 0x3ffff, 0, 0x10000),
    ("0123456789abcd€\n😀", 0x67fff, 0x40000, 0x20000),
    (ROW, u128::MAX, 0, 1 << 127),
    (WIDE, EVERY_FOURTH, EVERY_FOURTH, 0),
];

// The masks of the chunk of a text, where that fits one.
fn masks_of(text: &str) -> Option<Masks> {
    if text.len() > 128 {
        return None;
    }
    let chunk = Chunk::new(text);
    Some(chunk.masks())
}

#[test]
fn masks_mark_bytes(rt: HostRuntime) {
    for &(text, starts, wide, newlines) in ROWS {
        let expected = Masks {
            starts,
            wide,
            newlines,
        };
        assert!(rt; masks_of(text) == Some(expected), "of {text:?}");
    }
}

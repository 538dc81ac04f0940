//! Texts to work on.
use crate::report::{Done, step};
use std::alloc::Global;
use sum_tree::OutOfMemory;

/// One of eight texts of 1 to 8 bytes, the one that x draws. Does not allocate.
pub fn short_text(x: u64) -> &'static str {
    [
        "a", "bc", "d\ne", "fghi", "jklmn", "opqrst", "uvw\nxyz", "abcdefgh",
    ][(x % 8) as usize]
}

/// A text of about `bytes` bytes: small letters and an LF at one place in sixty, or words, some of which have
/// `summary` or `th`.
///
/// # Errors
///
/// `OutOfMemory` if an allocation fails.
pub fn long_text(alloc: Global, bytes: u32, has_words: bool) -> Result<String, OutOfMemory> {
    let mut text = String::new(alloc);
    let mut x = 1u64;
    for _ in 0..bytes {
        x = step(x);
        if text.len() < bytes as usize {
            push(&mut text, x, has_words)?;
        }
    }
    Ok(text)
}

fn push(text: &mut String, x: u64, has_words: bool) -> Done {
    let drawn = if has_words { (x >> 40) % 128 } else { x >> 40 };
    match drawn {
        0 if has_words => text.push_str("summary"),
        1..=7 if has_words => text.push_str("th"),
        8..=27 if has_words => text.push(' '),
        _ if !has_words && (x >> 20) % 60 == 0 => text.push('\n'),
        _ => text.push((b'a' + (drawn % 26) as u8) as char),
    }
}

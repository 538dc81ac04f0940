//! Buffers at their limits, and long texts.
use crate::cases::{AMPLE, opened};
use crate::operations::Parts::Letters;
use crate::steps::Step::{Edit, Take, Undo};
use crate::steps::{Step, comes};
use Took::Applied;
use lamport_clock::Lamport;
use std::alloc::Global;
use std::process::Abort;
use text_buffer::{Base, Buffer, Limits, NewFault, Took};

const EDIT: Lamport = Lamport {
    value: 2,
    replica: 9,
};

// A step over 2,000 digits, and the range of those that are hidden after it.
type Hiding = (Step, u32, u32);

// More bytes are hidden and shown again than lie in one chunk.
const LONG_PARTS: &[Hiding] = &[
    (Edit(&[(100, 1_500, "")], Ok(2)), 100, 1_500),
    (Undo(&[EDIT], Ok(3)), 0, 0),
    (Undo(&[EDIT], Ok(4)), 100, 1_500),
];

// 2,000 digits but for those of a range.
fn digits(rt: &impl Abort, alloc: Global, from: u32, to: u32) -> String {
    let mut text = String::new(alloc);
    for n in 0..2_000u32 {
        if n < from || to <= n {
            text.push(char::from(b'0' + (n % 10) as u8))
                .expect(rt, "memory");
        }
    }
    text
}

fn hides(rt: &impl Abort, alloc: Global, buffer: &mut Buffer, row: &Hiding) -> bool {
    let right = comes(alloc, buffer, row.0).expect(rt, "memory");
    let wanted = digits(rt, alloc, row.1, row.2);
    buffer.text().expect(rt, "memory").as_str() == wanted.as_str() && right
}

fn each_hides(rt: &impl Abort, alloc: Global, buffer: &mut Buffer) -> bool {
    let mut right = true;
    for row in LONG_PARTS {
        right = hides(rt, alloc, buffer, row) && right;
    }
    right
}

fn hide_long(rt: &impl Abort, alloc: Global) -> bool {
    let base = digits(rt, alloc, 0, 0);
    each_hides(rt, alloc, &mut opened(rt, alloc, base.as_str(), AMPLE))
}

#[test]
fn long_parts_change_sides(rt: HostRuntime) {
    assert!(rt; hide_long(&rt, rt.alloc()));
}

const FEW: Limits = Limits {
    bytes: 5,
    entries: 2,
};

// Whether no buffer of few bytes is opened over a base, and its fault has these words.
fn is_refused(rt: &impl Abort, alloc: Global, base: &str, words: &str) -> bool {
    match Buffer::new(alloc, 9, base, FEW).err() {
        None => false,
        Some(fault) => format!(in alloc; "{fault}").expect(rt, "memory").as_str() == words,
    }
}

// The fault of a buffer of few bytes over a base that was made ready.
fn fault_over(rt: &impl Abort, alloc: Global, base: &str) -> Option<NewFault> {
    let base = Base::new(alloc, base).expect(rt, "a base");
    Buffer::over(alloc, 9, &base, FEW).err()
}

// An edit that brings as many letters as one edit may.
const MOST_LETTERS: Step = Take((2, 1), &[(1, 0)], Letters(1, 65_536), Ok(Applied(1)));

fn takes_most_letters(rt: &impl Abort, alloc: Global, buffer: &mut Buffer) -> bool {
    comes(alloc, buffer, MOST_LETTERS).expect(rt, "memory") && buffer.summary().len == 65_538
}

// Whether a buffer over 2 bytes takes it.
fn are_most_letters_taken(rt: &impl Abort, alloc: Global) -> bool {
    takes_most_letters(rt, alloc, &mut opened(rt, alloc, "ab", AMPLE))
}

#[test]
fn texts_are_refused_past_their_limits(rt: HostRuntime) {
    let words = "full: 0 bytes are held, and 6 more pass the limit";
    assert!(rt; is_refused(&rt, rt.alloc(), "abcdef", words));
    assert!(rt;
        fault_over(&rt, rt.alloc(), "abcdef") == Buffer::new(rt.alloc(), 9, "abcdef", FEW).err()
    );
    assert!(rt; are_most_letters_taken(&rt, rt.alloc()));
}

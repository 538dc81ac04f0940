//! Changes whose texts are too long, and a buffer that refuses while another takes.
use excerpt_desk::{Desk, pieces};
use lamport_clock::Lamport;
use multi_buffer::SplitFault;
use op_model::{Counts, Operation, Piece, Text, UndoCount, UndoOp};
use std::alloc::Global;
use std::process::Abort;
use text_buffer::{Buffer, Limits};

fn open(rt: &impl Abort, alloc: Global, base: &str) -> Buffer {
    Buffer::new(alloc, 9, base, Limits::MOST).expect(rt, "a buffer")
}

// The greatest stamp after which a clock ticks no more.
const LAST: Lamport = Lamport {
    value: 4_294_967_294,
    replica: 1,
};

// A buffer whose clock is at its end, since it has taken an operation with that stamp.
fn open_at_end(rt: &impl Abort, alloc: Global, base: &str) -> Buffer {
    let mut buffer = open(rt, alloc, base);
    let version = buffer.version().copy(alloc).expect(rt, "memory");
    let edit = Lamport {
        value: 1,
        replica: 0,
    };
    let counts = Counts::copy_of(alloc, &[UndoCount { edit, count: 2 }]).expect(rt, "memory");
    let undo = UndoOp {
        stamp: LAST,
        version,
        counts,
    };
    buffer.take(Operation::Undo(undo)).expect(rt, "an undo");
    buffer
}

// Puts a further buffer, and its first two bytes as an excerpt.
fn put(rt: &impl Abort, desk: &mut Desk, page: u32, buffer: Buffer) {
    desk.open(buffer).expect(rt, "memory");
    desk.excerpt(page, 0, 2).expect(rt, "an excerpt");
}

// A text, a number of times, in place of a range.
fn change(rt: &impl Abort, alloc: Global, start: u64, end: u64, text: &str, times: usize) -> Piece {
    let text = text.repeat(alloc, times).expect(rt, "memory");
    Piece::new(start, end, Text::new(text))
}

// Two buffers, of which the second has LFs alone.
fn two_pages(rt: &impl Abort, alloc: Global) -> Desk {
    let mut desk = Desk::new(alloc).expect(rt, "memory");
    put(rt, &mut desk, 0, open(rt, alloc, "ab"));
    let lines = Buffer::new_lf(alloc, 9, "cd", Limits::MOST).expect(rt, "a buffer");
    put(rt, &mut desk, 1, lines);
    desk
}

#[test]
fn texts_are_counted_over_all_buffers(rt: HostRuntime) {
    let alloc = rt.alloc();
    let mut desk = two_pages(&rt, alloc);
    let more = [
        change(&rt, alloc, 1, 1, "x", 32_769),
        change(&rt, alloc, 4, 4, "y", 32_768),
    ];
    assert_eq!(rt; desk.change(&more), Err(SplitFault::TextLimit(65_537)));
    assert!(rt; desk.shows("ab\ncd"));
    let most = [
        change(&rt, alloc, 1, 1, "x", 32_768),
        change(&rt, alloc, 4, 4, "y", 32_768),
    ];
    assert_eq!(rt; desk.change(&most), Ok(2));
    assert_eq!(rt; desk.multi().len(), 65_541);
}

#[test]
fn texts_are_counted_as_they_are_given(rt: HostRuntime) {
    let alloc = rt.alloc();
    let mut desk = two_pages(&rt, alloc);
    let returns = [change(&rt, alloc, 4, 4, "\r\n", 32_769)];
    assert_eq!(rt; desk.change(&returns), Err(SplitFault::TextLimit(65_538)));
    let crossing = [change(&rt, alloc, 1, 4, "x", 65_537)];
    assert_eq!(rt; desk.change(&crossing), Err(SplitFault::TextLimit(65_537)));
    let outside = [change(&rt, alloc, 1, 6, "x", 65_537)];
    assert_eq!(rt; desk.change(&outside), Err(SplitFault::PastEnd(0, 5)));
}

#[test]
fn one_buffer_refuses_and_another_takes(rt: HostRuntime) {
    let alloc = rt.alloc();
    let mut desk = Desk::new(alloc).expect(&rt, "memory");
    put(&rt, &mut desk, 0, open_at_end(&rt, alloc, "ab"));
    put(&rt, &mut desk, 1, open(&rt, alloc, "cd"));
    let changes = pieces(alloc, &[(1, 1, "X"), (4, 4, "Y")]).expect(&rt, "memory");
    assert_eq!(rt; desk.change(changes.as_slice()), Ok(1));
    assert!(rt; desk.shows("ab\ncYd"));
    assert!(rt; desk.page_shows(0, "ab"));
    assert!(rt; desk.page_shows(1, "cYd"));
}

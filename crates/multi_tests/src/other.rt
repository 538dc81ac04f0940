//! Excerpts of one replica's buffer that go on to the buffer of another.
ghost use Rattle.std.specs.Prelude.{◌≡◌, ◌≤◌};
ghost use Rattle.op_model.specs.Steps.{new_state};
ghost use Rattle.text_buffer.specs.Buffer.{state};
ghost use Rattle.multi_buffer.specs.Calls.{IsWithin};
ghost use Rattle.multi_buffer.specs.State.{history_of};

use excerpt_desk::{Change, edit, pieces};
use multi_buffer::MultiBuffer;
use std::alloc::Global;
use std::process::Abort;
use text_buffer::{Buffer, Limits};

// What both replicas begin with.
const BASE: &str = "one two";

// An excerpt, an edit of the other replica, and the text of the excerpt after it.
const ROWS: &[(u64, u64, Change, &str)] = &[
    (0, 3, (3, 3, "s"), "ones"),
    (0, 3, (0, 0, "n"), "none"),
    (4, 7, (0, 4, ""), "two"),
    (4, 7, (4, 7, "three"), "three"),
    (3, 4, (3, 4, ""), ""),
];

// The buffer of a replica over a base.
fn open(rt: &impl Abort, alloc: Global, replica: u16, base: &str) -> Buffer
    requires least { 1 ≤ replica }
    requires greatest { replica ≤ 1023 }
    ensures { state result ≡ new_state base.now }
{
    Buffer::new(alloc, replica, base, Limits::MOST).expect(rt, "a buffer")
}

// One excerpt of a buffer.
fn excerpt_of(rt: &impl Abort, alloc: Global, buffer: &Buffer, s: u64, e: u64) -> MultiBuffer
    ensures { history_of 0 result.synced ≡ buffer.now.history }
{
    let mut multi = MultiBuffer::new(alloc).expect(rt, "memory");
    let snapshot = buffer.snapshot().expect(rt, "memory");
    multi.push(0, snapshot, s, e).expect(rt, "an excerpt");
    multi
}

// One excerpt of the first replica's buffer.
fn own_excerpt(rt: &impl Abort, alloc: Global, base: &str, s: u64, e: u64) -> MultiBuffer
    ensures { history_of 0 result.synced ≡ (new_state base.now).history }
{
    let buffer = open(rt, alloc, 1, base);
    excerpt_of(rt, alloc, &buffer, s, e)
}

// Makes an edit.
fn change(rt: &impl Abort, alloc: Global, buffer: &mut Buffer, change: Change)
    ensures { IsWithin buffer.old.history buffer.new.history }
{
    let changes = pieces(alloc, &[change]).expect(rt, "memory");
    edit(buffer, changes.as_slice());
}

// The second replica's buffer after an edit.
fn other_edited(rt: &impl Abort, alloc: Global, base: &str, edit: Change) -> Buffer
    ensures { IsWithin (new_state base.now).history result.history }
{
    let mut buffer = open(rt, alloc, 2, base);
    change(rt, alloc, &mut buffer, edit);
    buffer
}

// The excerpt goes on to a buffer that has all operations of the one that was synced.
fn go_on(rt: &impl Abort, buffer: &Buffer, multi: &mut MultiBuffer)
    requires { IsWithin (history_of 0 multi.old.synced) buffer.now.history }
{
    let snapshot = buffer.snapshot().expect(rt, "memory");
    multi.sync(0, snapshot).expect(rt, "memory");
}

fn shows(multi: &MultiBuffer, want: &str) -> bool {
    multi.text().is_ok_and(|text| text.as_str() == want)
}

// Whether an excerpt of the first replica's buffer shows a text once it has gone on to the second's.
fn follows(rt: &impl Abort, alloc: Global, s: u64, e: u64, edit: Change, want: &str) -> bool {
    let mut multi = own_excerpt(rt, alloc, BASE, s, e);
    let other = other_edited(rt, alloc, BASE, edit);
    go_on(rt, &other, &mut multi);
    shows(&multi, want)
}

#[test]
fn excerpts_go_on_to_another_replica(rt: HostRuntime) {
    for &(s, e, edit, want) in ROWS {
        assert!(rt;
            follows(&rt, rt.alloc(), s, e, edit, want),
            "excerpt {s} to {e}, {want}"
        );
    }
}

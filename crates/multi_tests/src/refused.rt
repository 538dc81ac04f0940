//! Calls in which an allocation fails: the excerpts stay as they were, and the call is made again.
//!
//! Where none fails, each call is made once. `bench/refused_calls.sh` refuses each allocation in turn.
use excerpt_desk::{Change, Desk, pieces};
use multi_buffer::{MultiBuffer, OutOfMemory, PushFault, SplitFault};
use op_model::Piece;
use text_buffer::{Buffer, Limits};

const CHANGES: &[Change] = &[(0, 0, "a text of more than sixteen bytes"), (2, 2, "X")];

// Makes a call again once, where its allocation failed.
fn excerpt_again(desk: &mut Desk) -> bool {
    match desk.excerpt(0, 0, 2) {
        Ok(index) => index == 0,
        Err(PushFault::OutOfMemory) => desk.multi().len() == 0 && desk.excerpt(0, 0, 2) == Ok(0),
        Err(_) => false,
    }
}

fn text_again(multi: &MultiBuffer) -> bool {
    match multi.text() {
        Ok(text) => text.as_str() == "ab",
        Err(OutOfMemory) => multi.text().is_ok(),
    }
}

fn rope_again(multi: &MultiBuffer) -> bool {
    match multi.rope() {
        Ok(rope) => rope.is_some_and(|rope| rope.len() == 2),
        Err(OutOfMemory) => multi.rope().is_ok(),
    }
}

fn sync_again(desk: &mut Desk) -> bool {
    desk.sync(0) || (desk.multi().len() == 2 && desk.sync(0))
}

fn split_again(multi: &MultiBuffer, changes: &[Piece]) -> bool {
    match multi.split(changes) {
        Ok(groups) => groups.len() == 1,
        Err(SplitFault::OutOfMemory) => multi.split(changes).is_ok(),
        Err(_) => false,
    }
}

#[test]
fn calls_are_made_again(rt: HostRuntime) {
    let buffer = Buffer::new(rt.alloc(), 9, "abc", Limits::MOST).expect(&rt, "a buffer");
    let mut desk = Desk::new(rt.alloc()).expect(&rt, "memory");
    desk.open(buffer).expect(&rt, "memory");
    let changes = pieces(rt.alloc(), CHANGES).expect(&rt, "memory");
    assert!(rt; excerpt_again(&mut desk));
    assert!(rt; sync_again(&mut desk));
    assert!(rt; text_again(desk.multi()));
    assert!(rt; rope_again(desk.multi()));
    assert!(rt; split_again(desk.multi(), changes.as_slice()));
}

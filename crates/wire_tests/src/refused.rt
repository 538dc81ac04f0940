//! Feeds in which an allocation fails: the piece is fed again, and the stream comes to the same.
//!
//! Where none fails, each piece is fed once. `bench/refused_calls.sh` refuses each allocation in turn.
use crate::cases::comes_back;

// An edit of five entries and two pieces, the edit 2.1 of one entry and one piece, and an undo of both.
const STREAM: &[u8] = &[
    1, 0, 0, 0, 9, 0, 3, 0, 0, 0, 5, 0, 0, 0, 0, 0, 1, 0, 1, 0, 0, 0, 2, 0, 2, 0, 0, 0, 3, 0, 3, 0,
    0, 0, 4, 0, 4, 0, 0, 0, 5, 0, 0, 0, 2, 0, 0, 0, 0, 0, 0, 0, 1, 0, 0, 0, 0, 0, 0, 0, 1, 0, 0, 0,
    30, 97, 98, 99, 100, 101, 102, 103, 104, 105, 106, 107, 108, 109, 110, 111, 112, 113, 114, 115,
    116, 117, 118, 119, 120, 121, 122, 97, 98, 99, 100, 0, 0, 0, 0, 0, 0, 0, 2, 0, 0, 0, 0, 0, 0,
    0, 3, 0, 0, 0, 0, 1, 0, 0, 0, 2, 0, 1, 0, 0, 0, 1, 0, 0, 0, 0, 0, 1, 0, 0, 0, 1, 0, 0, 0, 0, 0,
    0, 0, 1, 0, 0, 0, 0, 0, 0, 0, 1, 0, 0, 0, 1, 88, 2, 0, 0, 0, 10, 0, 3, 0, 0, 0, 2, 0, 1, 0, 0,
    0, 2, 0, 3, 0, 0, 0, 9, 0, 0, 0, 2, 0, 0, 0, 2, 0, 1, 0, 0, 0, 1, 0, 0, 0, 9, 0, 3, 0, 0, 0, 1,
];

const SIZES: [usize; 4] = [1, 7, 60, 500];

#[test]
fn a_piece_is_fed_again(rt: HostRuntime) {
    for size in SIZES {
        assert!(rt;
            size > 0 && comes_back(rt.alloc(), STREAM, size),
            "{size} bytes a feed"
        );
    }
}

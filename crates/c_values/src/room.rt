//! What is written into the room that a caller gives.
ghost use Rattle.std.specs.Prelude.{◌≡◌, length};
ghost use Rattle.c_values.specs.Room.{over, room_answer};

use crate::answer::{Answer, Code};

/// Writes items into the room, as many as fit. The answer has their number: `Done` where all fit, else `NoRoom`. Linear
/// in what is written; does not allocate.
pub fn write_front<T: Copy>(items: &[T], into: &mut [T]) -> Answer
    ensures answer { result ≡ room_answer (length items.now) (length into.old) }
    ensures written { into.new ≡ over items.now into.old }
{
    let len = items.len();
    if len <= into.len() {
        into[..len].copy_from_slice(items);
        Answer::new(Code::Done, len as u64, 0, 0)
    } else {
        let room = into.len();
        into.copy_from_slice(&items[..room]);
        Answer::new(Code::NoRoom, len as u64, 0, 0)
    }
}

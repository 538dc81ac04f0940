//! Desks to work on, and changes of them that numbers draw.
use bench_reports::{short_text, step};
use excerpt_desk::Desk;
use op_model::{Piece, Text};
use std::alloc::Global;
use sum_tree::OutOfMemory;
use text_buffer::{Buffer, Limits};

/// How many buffers a desk has.
pub const BUFFERS: u32 = 10;

// A buffer over a text.
fn open(alloc: Global, text: &str) -> Result<Buffer, OutOfMemory> {
    Buffer::new(alloc, 1, text, Limits::MOST).or(Err(OutOfMemory))
}

/// Buffers over one text.
pub fn buffers_of(alloc: Global, text: &str) -> Result<Vec<Buffer>, OutOfMemory> {
    let mut buffers = Vec::new(alloc);
    for _ in 0..BUFFERS {
        buffers.push(open(alloc, text)?)?;
    }
    Ok(buffers)
}

/// A desk of such buffers, without excerpts.
pub fn desk_of(alloc: Global, text: &str) -> Result<Desk, OutOfMemory> {
    let mut desk = Desk::new(alloc)?;
    for _ in 0..BUFFERS {
        desk.open(open(alloc, text)?)?;
    }
    Ok(desk)
}

/// Puts excerpts of the buffers in turn, each of `len` bytes, and `stride` bytes after the start of the one before in
/// its buffer. Returns how many were put.
pub fn push_all(desk: &mut Desk, count: u32, stride: u64, len: u64) -> u64 {
    let mut put = 0u64;
    for i in 0..count {
        let start = u64::from(i / BUFFERS).wrapping_mul(stride);
        let pushed = desk.excerpt(i % BUFFERS, start, start.wrapping_add(len));
        put = put.wrapping_add(pushed.is_ok() as u64);
    }
    put
}

// A text that is put at an offset.
fn insertion(alloc: Global, offset: u64, text: &str) -> Result<Piece, OutOfMemory> {
    let text = Text::new(String::from_str(alloc, text)?);
    Ok(Piece::new(offset, offset, text))
}

/// A text of 1 to 8 bytes at an offset below `len`, both of them drawn.
pub fn drawn_insertion(alloc: Global, x: u64, len: u64) -> Result<Piece, OutOfMemory> {
    insertion(alloc, (x >> 20) % len.max(1), short_text(x >> 56))
}

/// A letter after the first byte of each excerpt, where these have `len` bytes.
pub fn carets(alloc: Global, count: u32, len: u64) -> Result<Vec<Piece>, OutOfMemory> {
    let mut pieces = Vec::new(alloc);
    for i in 0..count {
        let before = u64::from(i).wrapping_mul(len.wrapping_add(1));
        pieces.push(insertion(alloc, before.wrapping_add(1), "x")?)?;
    }
    Ok(pieces)
}

/// Edits the buffers in turn, each while there is a snapshot of it. Returns how many edits were made.
pub fn edit_alone(
    alloc: Global,
    buffers: &mut Vec<Buffer>,
    count: u32,
    len: u64,
) -> Result<u64, OutOfMemory> {
    let (mut x, mut made) = (1u64, 0u64);
    for i in 0..count {
        x = step(x);
        let change = drawn_insertion(alloc, x, len)?;
        if let Some(buffer) = buffers.get_mut((i % BUFFERS) as usize) {
            let _snapshot = buffer.snapshot()?;
            made = made.wrapping_add(buffer.edit_uncounted(&[change]).is_ok() as u64);
        }
    }
    Ok(made)
}

/// Makes the same edits in a desk, which syncs each buffer after its edit.
pub fn edit_and_sync(
    alloc: Global,
    desk: &mut Desk,
    count: u32,
    len: u64,
) -> Result<u64, OutOfMemory> {
    let (mut x, mut made) = (1u64, 0u64);
    for i in 0..count {
        x = step(x);
        let change = drawn_insertion(alloc, x, len)?;
        made = made.wrapping_add(desk.edit(i % BUFFERS, &[change]) as u64);
    }
    Ok(made)
}

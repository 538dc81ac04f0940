//! Pieces put among those of their buffers.
ghost use Rattle.std.specs.Prelude.{◌≡◌, OnOk, IfOk, map};
ghost use Rattle.multi_buffer.specs.Splits.{put_in, put_piece};
ghost use Rattle.std.specs.List.{position};
ghost use Rattle.multi_buffer.specs.Groups.{is_after, is_from, pieces_in};

use crate::OutOfMemory;
use crate::parts::BufferPieces;
use op_model::{Piece, Pieces};
use std::alloc::Global;
use sum_tree::list_of_one;

/// Pieces of a buffer that may still grow.
#[derive(Drop)]
pub(crate) struct Group {
    pub(crate) buffer: u32,
    pub(crate) pieces: Vec<Piece>,
}

// The place of the first piece that starts after an offset.
fn first_after(pieces: &[Piece], offset: u64) -> Option<usize>
    ensures { result ≡ position (is_after offset) pieces.now }
{
    pieces.iter().position(|piece| offset < piece.start)
}

// Puts a piece after those that start at its start or before.
fn put_piece(pieces: &mut Vec<Piece>, piece: Piece) -> Result<(), OutOfMemory>
    ensures { OnOk result (pieces.new.items ≡ put_piece piece pieces.old.items) }
{
    match first_after(pieces.as_slice(), piece.start) {
        Some(at) => Ok(pieces.insert(at, piece)?),
        None => Ok(pieces.push(piece)?),
    }
}

// The place of the first group of a buffer or of a greater one.
fn first_from(groups: &[Group], buffer: u32) -> Option<usize>
    ensures { result ≡ position (is_from buffer) groups.now }
{
    groups.iter().position(|group| buffer <= group.buffer)
}

/// Puts a piece among those of its buffer. Linear in the number of buffers and of the buffer's pieces. Fails only if an
/// allocation fails.
pub(crate) fn put_in(
    alloc: Global,
    groups: &mut Vec<Group>,
    buffer: u32,
    piece: Piece,
) -> Result<(), OutOfMemory>
    ensures { OnOk result (map pieces_in groups.new.items
        ≡ put_in buffer piece (map pieces_in groups.old.items)) }
{
    match first_from(groups.as_slice(), buffer) {
        Some(at) if groups[at].buffer == buffer => put_piece(&mut groups[at].pieces, piece),
        Some(at) => {
            let pieces = list_of_one(alloc, piece)?;
            Ok(groups.insert(at, Group { buffer, pieces })?)
        }
        None => {
            let pieces = list_of_one(alloc, piece)?;
            Ok(groups.push(Group { buffer, pieces })?)
        }
    }
}

/// The pieces of each buffer, as they are handed out.
pub(crate) fn finish(alloc: Global, groups: Vec<Group>) -> Result<Vec<BufferPieces>, OutOfMemory>
    ensures { IfOk result (λ gs. gs.items ≡ map pieces_in groups.items) }
{
    let mut list = Vec::with_capacity(alloc, groups.len())?;
    for group in groups {
        list.push(BufferPieces {
            buffer: group.buffer,
            pieces: Pieces::new(group.pieces),
        })?;
    }
    Ok(list)
}

//! Two authors edit one text, each in a buffer of its own, as in an editor that embeds the library.
#![tactic(auto)]

mod exchange;
mod showing;

use crate::exchange::{send_all, take_shown};
use crate::showing::{show, show_place, show_rows};
use anyhow::Result;
use lamport_clock::Lamport;
use op_model::{Operation, Piece, Text};
use rope_chunks::Rope;
use std::alloc::Global;
use std::io::Print;
use text_buffer::{Anchor, Bias, Buffer, EditFault, Limits, agree};
use text_dims::PointUtf16;

const BASE: &str = "The café is full.\nThe cat sat.\nThe end.\n";

// Puts a text in the place of the bytes from `start` to `end`. Gives the operation, which the other authors take.
fn replace(
    alloc: Global,
    author: &mut Buffer,
    start: u64,
    end: u64,
    text: &str,
) -> Result<Operation> {
    let text = Text::new(String::from_str(alloc, text)?);
    Ok(author.edit_uncounted(&[Piece::new(start, end, text)])?)
}

// An edit that cannot be made says why, and leaves the buffer as it was.
fn refuse(rt: &impl Print, alloc: Global, author: &mut Buffer) -> Result<()> {
    let text = Text::new(String::from_str(alloc, "e")?);
    match author.edit_uncounted(&[Piece::new(8, 9, text)]) {
        Ok(_) => println!(rt; "edited")?,
        Err(EditFault::InsideChar(piece)) => println!(rt; "range {piece} cuts a character")?,
        Err(EditFault::PastEnd(piece, len)) => {
            println!(rt; "range {piece} ends past the {len} bytes")?;
        }
        Err(fault) => return Err(fault.into()),
    }
    Ok(())
}

// Both edit at the same time, and then each takes what the other made. Operations may come in any order, and more than once.
fn edit_both(rt: &impl Print, alloc: Global, ann: &mut Buffer, ben: &mut Buffer) -> Result<()> {
    let by_ann = replace(alloc, ann, 23, 26, "dog")?;
    let by_ben = replace(alloc, ben, 0, 0, "Look: ")?;
    take_shown(rt, alloc, ann, by_ben)?;
    take_shown(rt, alloc, ben, by_ann)?;
    // two buffers with the same operations show the same text: this call says so, and does nothing
    agree(ann, ben);
    Ok(())
}

// Undoes an edit, whoever made it, or redoes it if it is undone. The operation is not sent here: a peer asks for what it lacks.
fn undo(author: &mut Buffer, edit: Lamport) -> Result<()> {
    let _op = author.undo(&[edit])?;
    Ok(())
}

// An author takes an edit of another one, undoes it, redoes it and undoes it again; then the other one gets what it lacks.
fn undo_and_send(alloc: Global, ann: &mut Buffer, ben: &mut Buffer) -> Result<()> {
    let edit = replace(alloc, ben, 6, 6, "here, ")?;
    let stamp = edit.stamp();
    let _answer = ann.take(edit)?;
    undo(ann, stamp)?;
    undo(ann, stamp)?;
    undo(ann, stamp)?;
    send_all(alloc, ann, ben)
}

// Two rows, as on a screen, and a position in one of them.
fn show_screen(rt: &impl Print, text: &Rope) -> Result<()> {
    show_rows(rt, text, 1, 3)?;
    show_place(rt, text, PointUtf16 { row: 1, column: 8 })
}

// An anchor that keeps to the byte after an offset of the author's text.
fn anchor_at(author: &Buffer, offset: u64) -> Result<Anchor> {
    let snapshot = author.snapshot()?;
    Ok(snapshot.anchor(offset, Bias::Right)?)
}

fn play(rt: &impl Print, alloc: Global, ann: &mut Buffer, ben: &mut Buffer) -> Result<()> {
    let sat = anchor_at(ann, 27)?;
    refuse(rt, alloc, ann)?;
    edit_both(rt, alloc, ann, ben)?;
    undo_and_send(alloc, ann, ben)?;
    show(rt, alloc, ann, &sat)?;
    show(rt, alloc, ben, &sat)?;
    let snapshot = ben.snapshot()?;
    show_screen(rt, snapshot.text())
}

fn main(rt: HostRuntime) -> Result<()> {
    let alloc = rt.alloc();
    let mut ann = Buffer::new(alloc, 1, BASE, Limits::MOST)?;
    let mut ben = Buffer::new(alloc, 2, BASE, Limits::MOST)?;
    play(&rt, alloc, &mut ann, &mut ben)
}

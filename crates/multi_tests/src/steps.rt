//! Steps of an editor, each with its result.
use excerpt_desk::{Change, Desk, pieces};
use lamport_clock::Lamport;
use multi_buffer::{Place, PushFault, SplitFault};
use std::alloc::Global;
use std::process::Abort;
use text_buffer::{Buffer, Limits};

/// A step, and what it answers.
pub(crate) enum Step {
    /// A buffer over a base, the next by number.
    Page(&'static str),
    /// The same, of a buffer that has LFs alone.
    LfPage(&'static str),
    /// A range of a buffer becomes the excerpt of an index.
    Excerpt(u32, u64, u64, u32),
    /// A range of a buffer is refused.
    NoExcerpt(u32, u64, u64, PushFault),
    /// A range of a buffer is replaced.
    Edit(u32, Change),
    /// The edit of a buffer with a stamp is undone.
    Undo(u32, u32),
    /// The text of all excerpts is changed, and so are a number of buffers.
    Changes(&'static [Change], u32),
    /// Changes of it are refused.
    Refused(&'static [Change], SplitFault),
    /// The text of all excerpts.
    Text(&'static str),
    /// The text of a buffer.
    PageText(u32, &'static str),
    /// Where an offset of the text is: in an excerpt of a buffer, at an offset of the buffer's text.
    At(u64, u32, u32, u64),
    /// An offset that is nowhere.
    Nowhere(u64),
}

fn stamp(value: u32) -> Lamport {
    Lamport { value, replica: 9 }
}

fn open(rt: &impl Abort, alloc: Global, desk: &mut Desk, base: &str) -> bool {
    let buffer = Buffer::new(alloc, 9, base, Limits::MOST).expect(rt, "a buffer");
    desk.open(buffer).is_ok()
}

fn open_lf(rt: &impl Abort, alloc: Global, desk: &mut Desk, base: &str) -> bool {
    let buffer = Buffer::new_lf(alloc, 9, base, Limits::MOST).expect(rt, "a buffer");
    desk.open(buffer).is_ok()
}

fn edits(rt: &impl Abort, alloc: Global, desk: &mut Desk, page: u32, change: Change) -> bool {
    let list = pieces(alloc, &[change]).expect(rt, "memory");
    desk.edit(page, list.as_slice())
}

fn changes(
    rt: &impl Abort,
    alloc: Global,
    desk: &mut Desk,
    list: &[Change],
) -> Result<u32, SplitFault> {
    let list = pieces(alloc, list).expect(rt, "memory");
    desk.change(list.as_slice())
}

// Whether an offset is at a place, and the place at the offset.
fn is_at(desk: &Desk, o: u64, place: Place) -> bool {
    desk.multi().to_source(o) == Some(place)
        && desk.multi().to_multi(place.excerpt, place.offset) == Some(o)
}

// Whether a step is answered as it should be.
fn goes(rt: &impl Abort, alloc: Global, desk: &mut Desk, step: &Step) -> bool {
    match *step {
        Step::Page(base) => open(rt, alloc, desk, base),
        Step::LfPage(base) => open_lf(rt, alloc, desk, base),
        Step::Excerpt(page, s, e, index) => desk.excerpt(page, s, e) == Ok(index),
        Step::NoExcerpt(page, s, e, fault) => desk.excerpt(page, s, e) == Err(fault),
        Step::Edit(page, change) => edits(rt, alloc, desk, page, change),
        Step::Undo(page, value) => desk.undo(page, stamp(value)),
        Step::Changes(list, edited) => changes(rt, alloc, desk, list) == Ok(edited),
        Step::Refused(list, fault) => changes(rt, alloc, desk, list) == Err(fault),
        Step::Text(want) => desk.shows(want),
        Step::PageText(page, want) => desk.page_shows(page, want),
        Step::At(o, excerpt, buffer, offset) => is_at(
            desk,
            o,
            Place {
                excerpt,
                buffer,
                offset,
            },
        ),
        Step::Nowhere(o) => desk.multi().to_source(o).is_none(),
    }
}

/// The number of the first step that is not answered as it should be, if there is one.
pub(crate) fn first_wrong(rt: &impl Abort, alloc: Global, steps: &[Step]) -> Option<usize> {
    let mut desk = Desk::new(alloc).expect(rt, "memory");
    for (i, step) in steps.iter().enumerate() {
        if !goes(rt, alloc, &mut desk, step) {
            return Some(i);
        }
    }
    None
}

//! The works.
use crate::desks::{BUFFERS, buffers_of, carets, desk_of, edit_alone, edit_and_sync, push_all};
use bench_reports::{Answer, Done, Report, long_text};
use excerpt_desk::Desk;
use op_model::Piece;
use sum_tree::OutOfMemory;

// How often works of one call are done.
const TIMES: u32 = 10;

// How many edits are made.
const EDITS: u32 = 1_000;

// How many excerpts of a whole buffer each have text to copy.
const WHOLES: u32 = 64;

/// Works on `count` excerpts of buffers of `bytes` bytes each, on a few that are whole buffers, and on `count` and a
/// hundred times as many that are put.
pub fn works(report: &mut Report<'_>, bytes: u32, count: u32) -> Done {
    let text = long_text(report.alloc(), bytes, false)?;
    let len = text.len() as u64;
    let stride = len / u64::from(count / BUFFERS).max(1);
    let mut desk = desk_of(report.alloc(), &text)?;
    report.begin();
    report.add("Push", push_all(&mut desk, count, stride, stride / 2));
    looks(report, &desk, count, stride)?;
    changes(report, &mut desk, &text)?;
    wholes(report, &text)?;
    pushes(report, &text, count)
}

// Places converted, changes split, and the text as a rope.
fn looks(report: &mut Report<'_>, desk: &Desk, count: u32, stride: u64) -> Done {
    let n = u64::from(count).wrapping_mul(100);
    let len = desk.multi().len().max(1);
    report.sum("ToSource", n, |x| {
        desk.multi()
            .to_source(x % len)
            .map_or(0, |place| place.offset)
    });
    report.sum("ToMulti", n, |x| drawn_offset(desk, count, stride, x));
    let carets = carets(report.alloc(), count, stride / 2)?;
    report.begin();
    report.add("Split", split_all(desk, &carets));
    let ropes = rope_all(desk)?;
    report.add("Rope", ropes);
    Ok(())
}

// Where a place in an excerpt is in the text of all, the excerpt and the place drawn.
fn drawn_offset(desk: &Desk, count: u32, stride: u64, x: u64) -> u64 {
    let Ok(excerpt) = u32::try_from(x % u64::from(count).max(1)) else {
        return 0;
    };
    let start = u64::from(excerpt / BUFFERS).wrapping_mul(stride);
    let offset = start.wrapping_add((x >> 30) % (stride / 2).max(1));
    desk.multi().to_multi(excerpt, offset).unwrap_or(0)
}

// How many buffers change, the same each time.
fn split_all(desk: &Desk, carets: &[Piece]) -> u64 {
    let mut groups = 0u64;
    for _ in 0..TIMES {
        let split = desk.multi().split(carets);
        groups = groups.wrapping_add(split.map_or(0, |list| list.len() as u64));
    }
    groups
}

// How many bytes the ropes have.
fn rope_all(desk: &Desk) -> Answer {
    let mut bytes = 0u64;
    for _ in 0..TIMES {
        if let Some(rope) = desk.multi().rope()? {
            bytes = bytes.wrapping_add(rope.len());
        }
    }
    Ok(bytes)
}

// Buffers edited alone and with a sync after each edit, and syncs of buffers that stayed as they were.
fn changes(report: &mut Report<'_>, desk: &mut Desk, text: &str) -> Done {
    let (alloc, len) = (report.alloc(), text.len() as u64);
    let mut buffers = buffers_of(alloc, text)?;
    report.begin();
    let alone = edit_alone(alloc, &mut buffers, EDITS, len)?;
    report.add("Edits", alone);
    let synced = edit_and_sync(alloc, desk, EDITS, len)?;
    report.add("EditsSynced", synced);
    report.add("SyncSame", sync_same(desk, EDITS.wrapping_mul(100)));
    report.add("Len", desk.multi().len());
    Ok(())
}

// How many syncs of buffers that stayed as they were are taken in.
fn sync_same(desk: &mut Desk, times: u32) -> u64 {
    let mut taken = 0u64;
    for i in 0..times {
        taken = taken.wrapping_add(desk.sync(i % BUFFERS) as u64);
    }
    taken
}

// The text of whole buffers, and a copy of it.
fn wholes(report: &mut Report<'_>, text: &str) -> Done {
    let mut desk = desk_of(report.alloc(), text)?;
    push_all(&mut desk, WHOLES, 0, text.len() as u64);
    report.begin();
    let shown = desk.multi().text()?;
    report.add("Text", shown.len() as u64);
    let copy = shown.clone()?;
    report.add("Copy", copy.len() as u64);
    Ok(())
}

// Excerpts put, and a hundred times as many.
fn pushes(report: &mut Report<'_>, text: &str, count: u32) -> Done {
    let mut few = desk_of(report.alloc(), text)?;
    let mut many = desk_of(report.alloc(), text)?;
    report.begin();
    report.add("PushFew", push_all(&mut few, count, 1, 8));
    let times = count.wrapping_mul(100);
    report.add("PushMany", push_all(&mut many, times, 1, 8));
    Ok(())
}

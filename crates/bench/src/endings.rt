//! Works in buffers that keep line endings as they come, and in those that have LFs alone.
use crate::buffers::{self, replace};
use bench_reports::{Answer, Done, Report};
use std::alloc::Global;
use sum_tree::OutOfMemory;
use text_buffer::{Buffer, Endings, Limits};

// Rows of 60 bytes each, with their endings, about `bytes` bytes in all.
fn rows(alloc: Global, bytes: u32, ending: &str) -> Result<String, OutOfMemory> {
    let mut row = String::new(alloc);
    for _ in ending.len()..60 {
        row.push('a')?;
    }
    row.push_str(ending)?;
    let mut text = String::with_capacity(alloc, bytes as usize + 60)?;
    for _ in 0..bytes / 60 {
        text.push_str(row.as_str())?;
    }
    Ok(text)
}

fn open(alloc: Global, endings: Endings, base: &str) -> Result<Buffer, OutOfMemory> {
    match endings {
        Endings::AsIs => buffers::open(alloc, 1, base),
        Endings::Lf => Buffer::new_lf(alloc, 1, base, Limits::MOST).or(Err(OutOfMemory)),
    }
}

fn open_len(alloc: Global, endings: Endings, base: &str) -> Answer {
    Ok(open(alloc, endings, base)?.summary().len)
}

fn type_all(alloc: Global, buffer: &mut Buffer, edits: u32) -> Done {
    for n in 0..edits {
        let end = buffer.summary().len;
        replace(
            alloc,
            buffer,
            end,
            end,
            if n % 60 == 59 { "\n" } else { "a" },
        )?;
    }
    Ok(())
}

// The length of a text that is typed, one letter an edit.
fn typed_len(alloc: Global, endings: Endings, edits: u32) -> Answer {
    let mut buffer = open(alloc, endings, "")?;
    type_all(alloc, &mut buffer, edits)?;
    Ok(buffer.summary().len)
}

/// Buffers are opened over texts of about `bytes` bytes, in rows of 60, without CR and with a CR LF in each row, and
/// `edits` letters are typed: the lengths of the texts.
pub fn works(report: &mut Report<'_>, bytes: u32, edits: u32) -> Done {
    let alloc = report.alloc();
    let base = rows(alloc, bytes, "\n")?;
    let returns = rows(alloc, bytes, "\r\n")?;
    report.begin();
    report.add("OpenAsIs", open_len(alloc, Endings::AsIs, base.as_str())?);
    report.add("OpenLf", open_len(alloc, Endings::Lf, base.as_str())?);
    report.add(
        "OpenReturns",
        open_len(alloc, Endings::Lf, returns.as_str())?,
    );
    report.add("TypeAsIs", typed_len(alloc, Endings::AsIs, edits)?);
    report.add("TypeLf", typed_len(alloc, Endings::Lf, edits)?);
    Ok(())
}

//! The cases of the files, and an input that no file of cases can hold.
use crate::calls::{AMPLE, Ends, Passing, Run, Wanted, comes_to, sink_after};
use crate::case::Case;
use crate::choices::Choices;
use crate::tally::{Host, Tally};
use op_model::OutOfMemory;
use session_io::MemSink;
use std::alloc::Global;
use std::rt::Files;
use std::sync::Wait;
use std::thread::Threads;
use std::{fs, io};

/// Runs the cases of all files of the folder, in the order of their names, and a session with a line that is no text.
pub fn test<R: Host + Files + Clone + Drop>(rt: &R, tally: &mut Tally) {
    match names(rt) {
        Ok(names) => {
            for name in names {
                test_file(rt, tally, name.as_str());
            }
        }
        Err(_) => tally.note(rt, "data", "the folder is not read", false),
    }
    let is_right = is_refused(rt, rt.alloc()) == Ok(true);
    tally.note(rt, "replay", "a line that is no text", is_right);
}

const NO_TEXT: &[u8] = b"[\"zedbuf\",1,\"ab\",[1,2]]\n[\"text\",\xff\n";

// Whether the line that is no text is named.
fn is_refused<R: Threads + Wait + Sync>(rt: &R, alloc: Global) -> Result<bool, OutOfMemory> {
    let ends = Ends { status: 5, ..AMPLE };
    let run = Run {
        words: "replay",
        input: NO_TEXT,
        ends,
    };
    comes_to(
        rt,
        alloc,
        &Passing,
        run,
        Wanted::Bytes(b"session line 2: json\n"),
    )
}

fn names<R: Files + AllocGlobal + Clone + Drop>(rt: &R) -> io::Result<Vec<String>> {
    let mut names = Vec::new(rt.alloc());
    for entry in fs::read_dir(rt, ".")? {
        let entry = entry?;
        if entry.file_name().ends_with(".case") {
            names.push(String::from_str(rt.alloc(), entry.file_name())?)?;
        }
    }
    names.sort_unstable();
    Ok(names)
}

fn test_file<R: Host + Files>(rt: &R, tally: &mut Tally, name: &str) {
    match fs::read_to_string(rt, name) {
        Ok(text) => match Case::read(text.as_str()) {
            Some(case) => {
                test_case(rt, tally, name, &case);
                if name.starts_with("example_") && case.ends().status == 0 {
                    test_example(rt, tally, name, &case);
                }
            }
            None => tally.note(rt, name, "the file is no case", false),
        },
        Err(_) => tally.note(rt, name, "the file is not read", false),
    }
}

fn test_case<R: Host>(rt: &R, tally: &mut Tally, name: &str, case: &Case<'_>) {
    for line in case.head.lines() {
        if let Some(words) = line.strip_prefix("words:") {
            test_words(rt, tally, name, case, words.trim());
        }
    }
}

fn test_example<R: Host>(rt: &R, tally: &mut Tally, name: &str, case: &Case<'_>) {
    let is_right = reports_alike(rt, rt.alloc(), case) == Ok(true);
    tally.note(rt, name, "migrate", is_right);
    let is_right = packs_again(rt, rt.alloc(), case) == Ok(true);
    tally.note(rt, name, "pack, unpack and pack", is_right);
}

// What a command makes of an input, if it ends with status 0.
fn made_of<R: Threads + Wait + Sync>(
    rt: &R,
    alloc: Global,
    words: &str,
    input: &[u8],
) -> Result<Option<MemSink>, OutOfMemory> {
    let run = Run {
        words,
        input,
        ends: AMPLE,
    };
    sink_after(rt, alloc, &Passing, run)
}

// Whether a command makes these bytes of an input.
fn makes<R: Threads + Wait + Sync>(
    rt: &R,
    alloc: Global,
    words: &str,
    input: &[u8],
    output: &[u8],
) -> Result<bool, OutOfMemory> {
    let run = Run {
        words,
        input,
        ends: AMPLE,
    };
    comes_to(rt, alloc, &Passing, run, Wanted::Bytes(output))
}

// Whether the session as one of version 2 has the report of the case.
fn reports_alike<R: Threads + Wait + Sync>(
    rt: &R,
    alloc: Global,
    case: &Case<'_>,
) -> Result<bool, OutOfMemory> {
    let Some(sink) = made_of(rt, alloc, "migrate", case.session.as_bytes())? else {
        return Ok(false);
    };
    let report = case.output.as_bytes();
    makes(rt, alloc, "replay --workers 0", sink.bytes(), report)
}

// Whether the records of the session, as lines after a header, have the same records.
fn packs_again<R: Threads + Wait + Sync>(
    rt: &R,
    alloc: Global,
    case: &Case<'_>,
) -> Result<bool, OutOfMemory> {
    let Some(packed) = made_of(rt, alloc, "pack", case.session.as_bytes())? else {
        return Ok(false);
    };
    let Some(unpacked) = made_of(rt, alloc, "unpack", packed.bytes())? else {
        return Ok(false);
    };
    let mut session = b"[\"zedbuf\",2,\"\",[1]]\n".to_vec(alloc)?;
    session.extend_from_slice(unpacked.bytes())?;
    makes(rt, alloc, "pack", &session, packed.bytes())
}

fn test_words<R: Host>(rt: &R, tally: &mut Tally, name: &str, case: &Case<'_>, words: &str) {
    match case.lines {
        Some(lines) => {
            for line in lines.lines() {
                let is_right = is_right_with(rt, rt.alloc(), case, words, line);
                tally.note(rt, name, line, is_right == Ok(true));
            }
        }
        None => {
            let is_right = is_right(rt, rt.alloc(), case, words, case.session);
            tally.note(rt, name, words, is_right == Ok(true));
        }
    }
}

// Whether the case is right with this line in the place of its line %. Strokes are ends of lines.
fn is_right_with<R: Threads + Wait + Sync>(
    rt: &R,
    alloc: Global,
    case: &Case<'_>,
    words: &str,
    line: &str,
) -> Result<bool, OutOfMemory> {
    let Some((before, after)) = case.session.split_once("%\n") else {
        return Ok(false);
    };
    let mut session = String::from_str(alloc, before)?;
    for part in line.split(" / ") {
        session.push_str(part)?;
        session.push('\n')?;
    }
    session.push_str(after)?;
    is_right(rt, alloc, case, words, session.as_str())
}

fn is_right<R: Threads + Wait + Sync>(
    rt: &R,
    alloc: Global,
    case: &Case<'_>,
    words: &str,
    session: &str,
) -> Result<bool, OutOfMemory> {
    let input = case.input(alloc, session)?;
    let output = case.output_bytes(alloc)?;
    let run = Run {
        words,
        input: &input,
        ends: case.ends(),
    };
    let wanted = if case.has_choices() {
        Wanted::Choices(Choices {
            workers: workers(words),
            session,
            rows: case.output,
        })
    } else {
        Wanted::Bytes(&output)
    };
    comes_to(rt, alloc, &Passing, run, wanted)
}

// How many workers the words of a replay ask for.
fn workers(words: &str) -> usize {
    match words.split_once("--workers ") {
        Some((_, number)) => number.parse().unwrap_or(2),
        None => 2,
    }
}

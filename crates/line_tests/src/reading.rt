//! Sessions with further lines, as they are read.
use op_model::{Endings, Pieces};
use session_lines::SessionLine;
use session_more::{
    DecodeFault, MoreLine, MoreQueue, MoreReport, MoreSession, OutOfMemory, TextRanges, Word,
    decode, write_line,
};
use std::alloc::Global;

// A session: its text, the words of its lines, and the line that counts them.
struct Row {
    input: &'static str,
    words: &'static [&'static str],
    counts: &'static str,
}

const ROWS: &[Row] = &[
    Row {
        input: r#"["zedbuf",1,"ab",[1]]
["edit",1,[[0,0,"x"]]]
["find",1,"a"]
"#,
        words: &["edit", "find"],
        counts: "session ok: 3 lines, 1 replicas, 1 operations, 1 queries\n",
    },
    Row {
        input: r#"["zedbuf",2,"ab",[1,2]]
["select",1,"c",[[1,1],[0,2]]]
["select",1,"a name of many bytes",[]]
["share",2,"c"]
["selected",2,65535]
"#,
        words: &[
            "select c 2",
            "select a name of many bytes 0",
            "share c",
            "selected 65535",
        ],
        counts: "session ok: 5 lines, 2 replicas, 0 operations, 0 queries\n",
    },
    Row {
        input: r#"["zedbuf",2,"abcdef",[1]]
["fold",1,1,3]
["unfold",1,18446744073709551615,0]
["folded",1]
["display",1,2]
"#,
        words: &[
            "fold 1 3",
            "unfold 18446744073709551615 0",
            "folded",
            "display 2",
        ],
        counts: "session ok: 5 lines, 1 replicas, 0 operations, 0 queries\n",
    },
    Row {
        input: r#"["zedbuf",2,"abc\ndef",[1,2]]
["excerpt","m",1,0,2]
["excerpt","",2,4,7]
["multi","m"]
["medit","m",[[2,2,"X"],[3,4,""]]]
["give",2,2]
["edit",1,[]]
["undo",1,[3]]
["point",2,0]
"#,
        words: &[
            "excerpt m 0 2",
            "excerpt  4 7",
            "multi m",
            "medit m 2",
            "give",
            "edit",
            "undo",
            "point",
        ],
        counts: "session ok: 9 lines, 2 replicas, 4 operations, 1 queries\n",
    },
];

// The word of a line of old.
fn plain_word(line: &SessionLine) -> &'static str {
    match line {
        SessionLine::Edit { .. } => "edit",
        SessionLine::Undo { .. } => "undo",
        SessionLine::Give { .. } => "give",
        SessionLine::Find { .. } => "find",
        SessionLine::Point { .. } => "point",
        _ => "another",
    }
}

fn count_of_ranges(ranges: &TextRanges) -> usize {
    ranges.as_slice().len()
}

fn count_of_pieces(pieces: &Pieces) -> usize {
    pieces.as_slice().len()
}

// The word of a line and its members after the replica, lists as their numbers of members.
fn words_of(alloc: Global, line: &MoreLine) -> Result<String, OutOfMemory> {
    match line {
        MoreLine::Plain(line) => String::from_str(alloc, plain_word(line)),
        MoreLine::Select { name, ranges, .. } => {
            let (name, count) = (name.as_str(), count_of_ranges(ranges));
            format!(in alloc; "select {name} {count}")
        }
        MoreLine::Share { name, .. } => {
            let name = name.as_str();
            format!(in alloc; "share {name}")
        }
        MoreLine::Selected { author, .. } => format!(in alloc; "selected {author}"),
        MoreLine::Fold { start, end, .. } => format!(in alloc; "fold {start} {end}"),
        MoreLine::Unfold { start, end, .. } => format!(in alloc; "unfold {start} {end}"),
        MoreLine::Folded { .. } => String::from_str(alloc, "folded"),
        MoreLine::Display { offset, .. } => format!(in alloc; "display {offset}"),
        MoreLine::Excerpt {
            name,
            start,
            end,
            ..
        } => {
            let name = name.as_str();
            format!(in alloc; "excerpt {name} {start} {end}")
        }
        MoreLine::Multi { name } => {
            let name = name.as_str();
            format!(in alloc; "multi {name}")
        }
        MoreLine::Medit { name, pieces } => {
            let (name, count) = (name.as_str(), count_of_pieces(pieces));
            format!(in alloc; "medit {name} {count}")
        }
    }
}

fn has_words(alloc: Global, line: &MoreLine, want: &str) -> Result<bool, OutOfMemory> {
    Ok(words_of(alloc, line)?.as_str() == want)
}

// Whether the lines are these, in turn.
fn have_words(alloc: Global, mut lines: MoreQueue, words: &[&str]) -> Result<bool, OutOfMemory> {
    for want in words {
        let Some((line, rest)) = lines.split_first(alloc)? else {
            return Ok(false);
        };
        if !has_words(alloc, &line, want)? {
            return Ok(false);
        }
        lines = rest;
    }
    Ok(lines.len() == 0)
}

// Whether the line that counts a session is this text.
fn has_counts(alloc: Global, session: &MoreSession, counts: &str) -> Result<bool, OutOfMemory> {
    let mut out = Vec::new(alloc);
    write_line(alloc, &mut out, &MoreReport::check_line(session))?;
    Ok(out.as_slice() == counts.as_bytes())
}

fn is_read(alloc: Global, row: &Row) -> Result<bool, OutOfMemory> {
    let Ok(session) = decode(alloc, row.input.as_bytes(), false) else {
        return Ok(false);
    };
    let is_counted = has_counts(alloc, &session, row.counts)?;
    Ok(is_counted && have_words(alloc, session.lines.into_queue(), row.words)?)
}

#[test]
fn sessions_are_read(rt: HostRuntime) {
    for row in ROWS {
        assert!(rt; is_read(rt.alloc(), row) == Ok(true), "{}", row.counts);
    }
}

// Lines after a header of version 2 over replicas 1 and 2, and what is wrong with the last of them.
const REFUSED: &[(&str, Word)] = &[
    (r#"["fold",1,1]"#, Word::Shape),
    (r#"["unfold",1,1,2.0]"#, Word::Shape),
    (r#"["folded","1"]"#, Word::Shape),
    (r#"["display",1,-1]"#, Word::Shape),
    (r#"["fold",3,9,1]"#, Word::Replica),
    (r#"["excerpt",1,"m",0,1]"#, Word::Shape),
    (r#"["excerpt","m",3,0,1]"#, Word::Replica),
    (r#"["multi","m",1]"#, Word::Shape),
    (r#"["multi","m"]"#, Word::Name),
    (r#"["medit","m",[[0,0]]]"#, Word::Shape),
    (r#"["medit","m",[]]"#, Word::Name),
    (r#"["give",1,1]"#, Word::Number),
];

fn fault_of(alloc: Global, version: u32, line: &str) -> Result<Option<DecodeFault>, OutOfMemory> {
    let input = format!(in alloc; "[\"zedbuf\",{version},\"ab\",[1,2]]\n{line}\n")?;
    Ok(decode(alloc, input.as_bytes(), false).err())
}

// Whether line 2 is bad for this word.
fn is_bad(alloc: Global, line: &str, word: Word) -> Result<bool, OutOfMemory> {
    let fault = DecodeFault::Bad { line: 2, word };
    Ok(fault_of(alloc, 2, line)? == Some(fault))
}

#[test]
fn bad_lines_have_their_word(rt: HostRuntime) {
    for &(line, word) in REFUSED {
        assert!(rt; is_bad(rt.alloc(), line, word) == Ok(true), "{line}");
    }
}

// Lines of further forms.
const FURTHER: &[&str] = &[
    r#"["select",1,"c",[]]"#,
    r#"["selected",1,1]"#,
    r#"["fold",1,0,1]"#,
    r#"["unfold",1,0,1]"#,
    r#"["folded",1]"#,
    r#"["display",1,0]"#,
    r#"["excerpt","m",1,0,1]"#,
];

// Whether the line is one of version 2 alone.
fn is_later(alloc: Global, line: &str) -> Result<bool, OutOfMemory> {
    let fault = DecodeFault::Bad {
        line: 2,
        word: Word::Shape,
    };
    Ok(fault_of(alloc, 1, line)? == Some(fault) && fault_of(alloc, 2, line)? == None)
}

#[test]
fn further_lines_are_of_version_2(rt: HostRuntime) {
    for line in FURTHER {
        assert!(rt; is_later(rt.alloc(), line) == Ok(true), "{line}");
    }
}

fn endings_of(alloc: Global, input: &str) -> Option<Endings> {
    let session = decode(alloc, input.as_bytes(), false).ok()?;
    Some(session.endings())
}

#[test]
fn versions_have_endings(rt: HostRuntime) {
    let alloc = rt.alloc();
    assert!(rt; endings_of(alloc, r#"["zedbuf",1,"",[1]]"#) == Some(Endings::AsIs));
    assert!(rt; endings_of(alloc, r#"["zedbuf",2,"",[1]]"#) == Some(Endings::Lf));
}

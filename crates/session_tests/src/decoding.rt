//! Sessions as `decode` reads them, and inputs that no file can hold.
use crate::limits::{Part, joined};
use crate::tally::{Host, Tally};
use op_model::OutOfMemory;
use session_lines::{DecodeFault, LineQueue, SessionLine, Word, decode};
use std::alloc::Global;

/// Decodes the inputs of each table.
pub fn test<R: Host>(rt: &R, tally: &mut Tally) {
    for (input, ids, words) in SESSIONS {
        let is_right = reads(rt.alloc(), input, ids, words) == Ok(true);
        tally.note(rt, "decoding", input, is_right);
    }
    for (version, entries) in VERSIONS {
        let is_right = reads_version(rt.alloc(), version, entries) == Ok(true);
        tally.note(rt, "decoding a version", version, is_right);
    }
    for (name, count) in AUTHORS {
        let is_right = reads_many(rt.alloc(), *count) == Ok(true);
        tally.note(rt, "decoding a version of many authors", name, is_right);
    }
    for (name, input, want) in REFUSED {
        let is_right = is_refused_for(rt.alloc(), input, *want) == Ok(true);
        tally.note(rt, "decoding what is refused", name, is_right);
    }
}

/// The word of a line.
pub fn name_of(line: &SessionLine) -> &'static str {
    match line {
        SessionLine::Edit { .. } => "edit",
        SessionLine::Undo { .. } => "undo",
        SessionLine::Op(_) => "op",
        SessionLine::Uop(_) => "uop",
        SessionLine::Give { .. } => "give",
        SessionLine::Text { .. } => "text",
        SessionLine::Anchor { .. } => "anchor",
        SessionLine::Where { .. } => "where",
        SessionLine::Mark { .. } => "mark",
        SessionLine::Since { .. } => "since",
        SessionLine::Find { .. } => "find",
        SessionLine::Point { .. } => "point",
        SessionLine::Offset { .. } => "offset",
        SessionLine::Reopen { .. } => "reopen",
    }
}

// Inputs that are sessions, with the ids of their replicas and the words of their lines.
const SESSIONS: &[(&str, &[u16], &[&str])] = &[
    (r#"["zedbuf",1,"ab",[1]]"#, &[1], &[]),
    (
        " [ \"zedbuf\" , 1 , \"\" , [ 1023 , 1 ] ] \n[\"text\",1]\n[\"text\",1023]\n",
        &[1023, 1],
        &["text", "text"],
    ),
    (
        "[\"zedbuf\",1,\"\\u00e9\",[2,3,1]]\r\n[\"edit\",3,[]]\n[\"edit\",2,[[0,18446744073709551615,\"\"]]]\n[\"text\",1]",
        &[2, 3, 1],
        &["edit", "edit", "text"],
    ),
    (
        r#"["zedbuf",1,"ab",[1,2]]
["op",[0,65535],[],[]]
["edit",1,[]]
["give",2,1]
["give",1,2]
["op",[4294967295,0],[[65535,4294967295],[0,1]],[[2,1,"x"]]]
["give",1,3]
"#,
        &[1, 2],
        &["op", "edit", "give", "give", "op", "give"],
    ),
    (
        r#"["zedbuf",1,"ab",[1,2]]
["undo",1,[]]
["uop",[4294967295,65535],[],[[4294967295,65535,4294967295],[0,0,0]]]
["undo",2,[2,1,2]]
["give",1,3]
"#,
        &[1, 2],
        &["undo", "uop", "undo", "give"],
    ),
    (
        r#"["zedbuf",1,"ab",[1,2]]
["find",2,""]
["point",1,18446744073709551615]
["offset",2,18446744073709551615,0]
["edit",1,[]]
["find",1,"\ud83d\ude00"]
["give",2,1]
"#,
        &[1, 2],
        &["find", "point", "offset", "edit", "find", "give"],
    ),
    (
        r#"["zedbuf",1,"ab",[1,2]]
["anchor",1,"",18446744073709551615,"left"]
["where",2,""]
["mark",2,"\u0061"]
["anchor",1,"é",0,"right"]
["since",1,"a"]
["where",1,"\u00e9"]
["mark",1,"a"]
["since",2,"a"]
"#,
        &[1, 2],
        &[
            "anchor", "where", "mark", "anchor", "since", "where", "mark", "since",
        ],
    ),
];

// Whether the lines are of these words.
fn have_words(alloc: Global, mut lines: LineQueue, words: &[&str]) -> Result<bool, OutOfMemory> {
    for word in words {
        let Some((line, rest)) = lines.split_first(alloc)? else {
            return Ok(false);
        };
        if name_of(&line) != *word {
            return Ok(false);
        }
        lines = rest;
    }
    Ok(lines.len() == 0)
}

// Whether the input is a session with these replicas and lines of these words.
fn reads(alloc: Global, input: &str, ids: &[u16], words: &[&str]) -> Result<bool, OutOfMemory> {
    let Ok(session) = decode(alloc, input.as_bytes(), false) else {
        return Ok(false);
    };
    let is_headed = session.version == 1 && session.replicas.as_slice() == ids;
    Ok(have_words(alloc, session.lines.into_queue(), words)? && is_headed)
}

// Versions as they stand in a line, and their entries.
const VERSIONS: &[(&str, &[(u16, u32)])] = &[
    ("[]", &[]),
    ("[[7,3]]", &[(7, 3)]),
    ("[[7,3],[0,1]]", &[(0, 1), (7, 3)]),
    (
        "[[2,5],[65535,4294967295],[0,1],[1,5],[9,2]]",
        &[(0, 1), (1, 5), (2, 5), (9, 2), (65_535, 4_294_967_295)],
    ),
];

// Whether the version of an operation line is read as these entries.
fn reads_version(alloc: Global, version: &str, want: &[(u16, u32)]) -> Result<bool, OutOfMemory> {
    let input = format!(in alloc; "[\"zedbuf\",1,\"\",[1]]\n[\"op\",[9,1],{version},[]]")?;
    let Ok(session) = decode(alloc, input.as_bytes(), false) else {
        return Ok(false);
    };
    let Some((line, rest)) = session.lines.into_queue().split_first(alloc)? else {
        return Ok(false);
    };
    Ok(has_version(&line, want) && rest.len() == 0)
}

fn has_version(line: &SessionLine, want: &[(u16, u32)]) -> bool {
    match line {
        SessionLine::Op(edit) => edit.version.as_slice() == want,
        _ => false,
    }
}

// The entries of a version as they stand in a line: first the greatest id with the value 7, then those below with 9.
fn entries_text(alloc: Global, count: u16) -> Result<String, OutOfMemory> {
    let mut text = format!(in alloc; "[{count},7]")?;
    for id in 1..count {
        text = format!(in alloc; "{text},[{id},9]")?;
    }
    Ok(text)
}

// These entries in the order of their ids.
fn entries(alloc: Global, count: u16) -> Result<Vec<(u16, u32)>, OutOfMemory> {
    let mut entries = Vec::new(alloc);
    for id in 1..count {
        entries.push((id, 9))?;
    }
    entries.push((count, 7))?;
    Ok(entries)
}

// Numbers of authors.
const AUTHORS: &[(&str, u16)] = &[("16", 16), ("17", 17), ("40", 40)];

// Whether a version of that many ids is read, and one with another entry of the first id is refused.
fn reads_many(alloc: Global, count: u16) -> Result<bool, OutOfMemory> {
    let text = entries_text(alloc, count)?;
    Ok(reads_entries(alloc, text.as_str(), count)? && refuses_another(alloc, text.as_str())?)
}

fn reads_entries(alloc: Global, text: &str, count: u16) -> Result<bool, OutOfMemory> {
    let version = format!(in alloc; "[{text}]")?;
    let want = entries(alloc, count)?;
    reads_version(alloc, version.as_str(), want.as_slice())
}

fn refuses_another(alloc: Global, text: &str) -> Result<bool, OutOfMemory> {
    let input = format!(in alloc;
        "[\"zedbuf\",1,\"ab\",[1,2]]\n[\"op\",[9,1],[{text},[1,9]],[]]\n[\"text\",4]\n"
    )?;
    let want = DecodeFault::Bad {
        line: 2,
        word: Word::Shape,
    };
    Ok(is_refused(alloc, input.as_bytes(), want))
}

fn is_refused(alloc: Global, input: &[u8], want: DecodeFault) -> bool {
    decode(alloc, input, false).err() == Some(want)
}

// Inputs with a byte that is no text, and inputs of many lines.
const REFUSED: &[(&str, &[Part], DecodeFault)] = &[
    (
        "a line that is no text",
        &[
            ("[\"zedbuf\",1,\"ab\",[1]]\n[\"text\",", b'\xff', 1),
            ("\n[\"text\",1]\n", 0, 0),
        ],
        DecodeFault::Bad {
            line: 2,
            word: Word::Json,
        },
    ),
    (
        "a string that is no text",
        &[
            ("[\"zedbuf\",1,\"ab\",[1]]\n[\"text\",1]\n\"", b'\xff', 1),
            ("\"\n", 0, 0),
        ],
        DecodeFault::Bad {
            line: 3,
            word: Word::Json,
        },
    ),
    ("1,048,576 lines", &[("", b'\n', 1_048_576)], BAD_JSON),
    (
        "1,048,576 lines, the last without a line feed",
        &[("", b'\n', 1_048_575), (" ", 0, 0)],
        BAD_JSON,
    ),
    ("1,048,577 lines", &[("", b'\n', 1_048_577)], TOO_MANY),
    (
        "1,048,577 lines, the last without a line feed",
        &[("", b'\n', 1_048_576), (" ", 0, 0)],
        TOO_MANY,
    ),
];

const BAD_JSON: DecodeFault = DecodeFault::Bad {
    line: 1,
    word: Word::Json,
};

const TOO_MANY: DecodeFault = DecodeFault::Lines(1_048_577);

fn is_refused_for(alloc: Global, input: &[Part], want: DecodeFault) -> Result<bool, OutOfMemory> {
    let input = joined(alloc, input)?;
    Ok(is_refused(alloc, &input, want))
}

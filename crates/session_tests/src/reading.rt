//! Lines of sessions, read one by one.
use crate::decoding::name_of;
use crate::tally::{Host, Tally};
use session_lines::{Before, LineFault, Word, read_header, read_line};
use std::alloc::Global;

/// Reads the lines of each table.
pub fn test<R: Host>(rt: &R, tally: &mut Tally) {
    for (line, migrate, want) in HEADERS {
        let is_right = is_headed(rt.alloc(), line, *migrate, *want);
        tally.note(rt, "reading a header", line, is_right);
    }
    for (name, header, migrate, lines) in LINES {
        let is_right = reads(rt.alloc(), header, *migrate, lines);
        tally.note(rt, "reading line by line", name, is_right);
    }
    for (name, counts, line, want) in RAISED {
        let is_right = is_numbered(rt.alloc(), counts, line, *want);
        tally.note(rt, "reading after further operations", name, is_right);
    }
}

// The base, the version and the ids of a header.
type Heading<'a> = (&'a str, u32, &'a [u16]);

// First lines, whether they are read to be migrated, and their headings or what is wrong with them.
const HEADERS: &[(&str, bool, Result<Heading<'static>, Word>)] = &[
    (r#"["zedbuf",1,"ab",[1]]"#, false, Ok(("ab", 1, &[1]))),
    (r#"["zedbuf",2,"",[1023,1]]"#, true, Ok(("", 2, &[1023, 1]))),
    (r#"["zedbuf",1,"a\rb",[2]]"#, false, Ok(("a\rb", 1, &[2]))),
    (r#"["zedbuf",2,"a\rb",[2]]"#, true, Ok(("a\rb", 2, &[2]))),
    (r#"["zedbuf",1,"a\rb",[2]]"#, true, Err(Word::Cr)),
    (r#"["zedbuf",1,"a\rb",[2,2]]"#, true, Err(Word::Header)),
    (r#"["zedbuf",3,"ab",[1]]"#, false, Err(Word::Header)),
    (r#"["text",1]"#, false, Err(Word::Header)),
    ("", false, Err(Word::Json)),
];

fn is_headed(alloc: Global, line: &str, migrate: bool, want: Result<Heading<'_>, Word>) -> bool {
    match (read_header(alloc, line.as_bytes(), migrate), want) {
        (Ok((base, before)), Ok((text, version, ids))) => {
            base.as_str() == text
                && (before.version() == version && before.migrates() == migrate)
                && (before.replicas() == ids && before.operations() == 0)
        }
        (Err(LineFault::Bad(word)), Err(want)) => word == want,
        _ => false,
    }
}

// A line and its word, or what is wrong with it.
type Row<'a> = (&'a str, Result<&'a str, Word>);

const VERSION_1: &str = r#"["zedbuf",1,"ab",[1,2]]"#;

const VERSION_2: &str = r#"["zedbuf",2,"ab",[1,2]]"#;

// Lines in turn after a header, which may be read to be migrated. A bad line is as if it were not there.
const LINES: &[(&str, &str, bool, &[Row<'static>])] = &[
    ("numbers", VERSION_1, false, NUMBERS),
    ("names", VERSION_1, false, NAMES),
    ("other words", VERSION_1, false, OTHERS),
    ("version 2", VERSION_2, false, LATER),
    ("version 1 to be migrated", VERSION_1, true, BARRED),
    ("version 2 to be migrated", VERSION_2, true, LATER),
];

const NUMBERS: &[Row<'static>] = &[
    (r#"["undo",1,[1]]"#, Err(Word::Number)),
    (r#"["edit",1,[[2,1,"x"]]]"#, Ok("edit")),
    (r#"["undo",1,[2]]"#, Err(Word::Number)),
    (r#"["undo",1,[1]]"#, Ok("undo")),
    (r#"["give",2,3]"#, Err(Word::Number)),
    (r#"["give",2,2]"#, Ok("give")),
    (r#"["op",[2,3],[],[]]"#, Ok("op")),
    (r#"["uop",[2,3],[],[]]"#, Ok("uop")),
    (r#"["give",1,5]"#, Err(Word::Number)),
    (r#"["find",1,""]"#, Ok("find")),
    (r#"["give",1,4]"#, Ok("give")),
];

const NAMES: &[Row<'static>] = &[
    (r#"["where",1,"p"]"#, Err(Word::Name)),
    (r#"["mark",1,"p"]"#, Ok("mark")),
    (r#"["where",1,"p"]"#, Err(Word::Name)),
    (r#"["since",2,"p"]"#, Ok("since")),
    (r#"["anchor",3,"p",0,"left"]"#, Err(Word::Replica)),
    (r#"["where",1,"p"]"#, Err(Word::Name)),
    (r#"["anchor",1,"p",0,"left"]"#, Ok("anchor")),
    (r#"["anchor",1,"b",9,"right"]"#, Ok("anchor")),
    (r#"["anchor",2,"p",1,"right"]"#, Ok("anchor")),
    (r#"["where",2,"p"]"#, Ok("where")),
    (r#"["where",2,"b"]"#, Ok("where")),
    (r#"["since",2,"b"]"#, Err(Word::Name)),
    (r#"["where",2,"pp"]"#, Err(Word::Name)),
    (r#"["where",2,""]"#, Err(Word::Name)),
];

const OTHERS: &[Row<'static>] = &[
    ("", Err(Word::Json)),
    (VERSION_1, Err(Word::Shape)),
    (r#"["jump",1]"#, Err(Word::Shape)),
    (r#"["reopen",1]"#, Err(Word::Shape)),
    (r#"["undo",3,[1]]"#, Err(Word::Replica)),
    (r#"["edit",1,[[0,0,"\r"]]]"#, Ok("edit")),
];

const LATER: &[Row<'static>] = &[
    (r#"["reopen",3]"#, Err(Word::Replica)),
    (r#"["reopen",1]"#, Ok("reopen")),
    (r#"["edit",1,[[0,0,"\r"]]]"#, Ok("edit")),
    (r#"["give",1,1]"#, Ok("give")),
];

const BARRED: &[Row<'static>] = &[
    (r#"["edit",1,[[0,0,"a\r"]]]"#, Err(Word::Cr)),
    (r#"["op",[2,1],[],[[0,0,"\r\n"]]]"#, Err(Word::Cr)),
    (r#"["edit",3,[[0,0,"\r"]]]"#, Err(Word::Replica)),
    (r#"["give",1,1]"#, Err(Word::Number)),
    (r#"["edit",1,[[0,0,"\n"]]]"#, Ok("edit")),
    (r#"["give",1,1]"#, Ok("give")),
    (r#"["mark",1,"\r"]"#, Ok("mark")),
];

// Whether each of the lines has its answer.
fn reads(alloc: Global, header: &str, migrate: bool, lines: &[Row<'_>]) -> bool {
    match read_header(alloc, header.as_bytes(), migrate) {
        Ok((_, mut before)) => have_answers(alloc, &mut before, lines),
        Err(_) => false,
    }
}

fn have_answers(alloc: Global, before: &mut Before, lines: &[Row<'_>]) -> bool {
    for (line, want) in lines {
        if !has_answer(alloc, before, line, *want) {
            return false;
        }
    }
    true
}

fn has_answer(alloc: Global, before: &mut Before, line: &str, want: Result<&str, Word>) -> bool {
    match (read_line(alloc, line.as_bytes(), before), want) {
        (Ok(line), Ok(name)) => name_of(&line) == name,
        (Err(LineFault::Bad(word)), Err(want)) => word == want,
        _ => false,
    }
}

// By how much the count of operations is raised, in turn, and a line with its answer.
const RAISED: &[(&str, &[u64], &str, Result<&str, Word>)] = &[
    ("none", &[0], r#"["give",1,1]"#, Err(Word::Number)),
    ("three", &[2, 1], r#"["give",1,3]"#, Ok("give")),
    ("no fourth", &[2, 1], r#"["undo",1,[4]]"#, Err(Word::Number)),
    (
        "as many as lines can name",
        &[u64::MAX, 5],
        r#"["give",1,18446744073709551615]"#,
        Ok("give"),
    ),
    (
        "one more than these",
        &[u64::MAX],
        r#"["edit",1,[]]"#,
        Ok("edit"),
    ),
];

fn is_numbered(alloc: Global, counts: &[u64], line: &str, want: Result<&str, Word>) -> bool {
    match read_header(alloc, VERSION_1.as_bytes(), false) {
        Ok((_, mut before)) => {
            for count in counts {
                before.raise_operations(*count);
            }
            has_answer(alloc, &mut before, line, want)
        }
        Err(_) => false,
    }
}

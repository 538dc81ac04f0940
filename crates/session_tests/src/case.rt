//! A case as its file has it: a head, what is read and an output.
use crate::calls::Ends;
use op_model::OutOfMemory;
use std::alloc::Global;

/// A case. `docs/SESSIONS.md` says what its parts are.
#[derive(Clone, Copy)]
pub struct Case<'a> {
    pub head: &'a str,
    pub session: &'a str,
    pub lines: Option<&'a str>,
    pub output: &'a str,
}

/// What the lines of a head begin with.
const KEYS: &[&str] = &[
    "#",
    "words:",
    "status: ",
    "bytes a call: ",
    "failing read: ",
    "failing write: ",
    "room: ",
    "choice: |",
    "no last line feed: session",
    "no last line feed: output",
    "bytes: session",
    "bytes: output",
];

fn is_known(line: &str) -> bool {
    for key in KEYS {
        if line.starts_with(*key) {
            return true;
        }
    }
    false
}

// What the first line of the head that begins with the key has after it.
fn value<'a>(head: &'a str, key: &str) -> Option<&'a str> {
    for line in head.lines() {
        if let Some(rest) = line.strip_prefix(key) {
            return Some(rest);
        }
    }
    None
}

fn is_head(head: &str) -> bool {
    for line in head.lines() {
        if !is_known(line) {
            return false;
        }
    }
    value(head, "words:").is_some() && value(head, "status: ").is_some()
}

// The text, without its last line feed where there is a line of the head that says so.
fn cut<'a>(text: &'a str, line: Option<&str>) -> &'a str {
    match text.strip_suffix('\n') {
        Some(front) if line.is_some() => front,
        _ => text,
    }
}

// The session, and the lines that are tried in turn where there are any.
fn session_and_lines(input: &str) -> (&str, Option<&str>) {
    match input.split_once("--- lines\n") {
        Some((session, lines)) => (session, Some(lines)),
        None => (input, None),
    }
}

impl<'a> Case<'a> {
    /// The case that a file's text says, if it says one.
    pub fn read(text: &'a str) -> Option<Case<'a>> {
        let (head, rest) = text.split_once("--- session\n")?;
        let (input, output) = rest.split_once("--- output\n")?;
        if is_head(head) {
            Some(Case::new(head, input, output))
        } else {
            None
        }
    }

    fn new(head: &'a str, input: &'a str, output: &'a str) -> Case<'a> {
        let (session, lines) = session_and_lines(input);
        Case {
            head,
            session: cut(session, value(head, "no last line feed: session")),
            lines,
            output: cut(output, value(head, "no last line feed: output")),
        }
    }

    // The number after the key.
    fn number(&self, key: &str) -> Option<u64> {
        value(self.head, key)?.parse().ok()
    }

    /// How `run` is called.
    pub fn ends(&self) -> Ends {
        let most = self.number("bytes a call: ").unwrap_or(8) as usize;
        Ends {
            status: self.number("status: ").unwrap_or(0),
            read: most,
            write: most,
            failing_read: self.number("failing read: ").unwrap_or(0),
            failing_write: self.number("failing write: ").unwrap_or(0),
            room: self.number("room: ").unwrap_or(200_000) as usize,
        }
    }

    /// What is read, where this is the session of the case.
    pub fn input(&self, alloc: Global, session: &str) -> Result<Vec<u8>, OutOfMemory> {
        bytes_of(alloc, session, value(self.head, "bytes: session"))
    }

    /// The bytes of the output.
    pub fn output_bytes(&self, alloc: Global) -> Result<Vec<u8>, OutOfMemory> {
        bytes_of(alloc, self.output, value(self.head, "bytes: output"))
    }

    /// Whether rows of the output are choices.
    pub fn has_choices(&self) -> bool {
        value(self.head, "choice: |").is_some()
    }
}

// The bytes of a part, which stands in hexadecimal digits where there is a line of the head that says so.
fn bytes_of(alloc: Global, part: &str, line: Option<&str>) -> Result<Vec<u8>, OutOfMemory> {
    match line {
        Some(_) => read_digits(alloc, part),
        None => Ok(part.as_bytes().to_vec(alloc)?),
    }
}

// A byte for each two digits. What stands between digits does not count.
fn read_digits(alloc: Global, part: &str) -> Result<Vec<u8>, OutOfMemory> {
    let mut bytes = Vec::new(alloc);
    let mut high: Option<u8> = None;
    for byte in part.as_bytes() {
        let Some(digit) = digit_of(*byte) else {
            continue;
        };
        high = match high {
            Some(before) => {
                bytes.push(before << 4 | digit)?;
                None
            }
            None => Some(digit),
        };
    }
    Ok(bytes)
}

fn digit_of(byte: u8) -> Option<u8> {
    match byte {
        b'0'..=b'9' => Some(byte - b'0'),
        b'a'..=b'f' => Some(byte - b'a' + 10),
        _ => None,
    }
}

//! Why an input is no session.
ghost use Rattle.std.specs.Prelude.{◌≡◌, Some};
ghost use Rattle.session_lines.specs.Words.{word_text};
ghost use Rattle.session_lines.specs.declared.fault.DecodeFault.{DecodeFault};
ghost use Rattle.session_lines.specs.declared.fault.LineFault.{LineFault};

use crate::OutOfMemory;
use std::alloc::AllocFailed;
use std::fmt;
use thiserror::Error;

/// What is wrong with a bad line. Of several it is the first of these.
#[derive(Clone, Copy, Debug, PartialEq, Eq)]
pub enum Word {
    /// The line is no JSON text.
    Json,
    /// It is the first line, and no header; or there is no line.
    Header,
    /// It is no line of any form.
    Shape,
    /// The replica that it names is not in the header.
    Replica,
    /// The number that it names is not that of an operation line before it.
    Number,
    /// No line before it keeps an anchor, or a version, under the name that it asks for.
    Name,
    /// The session is read to be migrated, its version is 1, and a text that the line brings into buffers has a CR: the base,
    /// or a text of an edit.
    Cr,
}

impl fmt::Display for Word {
    ghost output = { λ w. Some (word_text w) };

    fn fmt<W: fmt::Write>(&self, f: &mut fmt::Formatter<W>) -> fmt::Result {
        match self {
            Word::Json => write!(f, "json"),
            Word::Header => write!(f, "header"),
            Word::Shape => write!(f, "shape"),
            Word::Replica => write!(f, "replica"),
            Word::Number => write!(f, "number"),
            Word::Name => write!(f, "name"),
            Word::Cr => write!(f, "cr"),
        }
    }
}

/// Why a text is no line of a session.
#[derive(Clone, Copy, Debug, PartialEq, Eq, Error)]
pub enum LineFault {
    /// What is wrong with the line.
    #[error("the line is bad: {0}")]
    Bad(Word),
    #[error("out of memory")]
    OutOfMemory,
}

impl From<OutOfMemory> for LineFault {
    ghost from_gives = { λ _ e. e ≡ LineFault.OutOfMemory };

    fn from(_: OutOfMemory) -> Self {
        LineFault::OutOfMemory
    }
}

/// Why an input is no session.
#[derive(Clone, Copy, Debug, PartialEq, Eq, Error)]
pub enum DecodeFault {
    /// It has this many lines, more than 1,048,576.
    #[error("{0} lines are more than 1048576")]
    Lines(u64),
    /// The number of its first bad line, counted from 1, and what is wrong with it.
    #[error("line {line} is bad: {word}")]
    Bad { line: u64, word: Word },
    #[error("out of memory")]
    OutOfMemory,
}

impl From<OutOfMemory> for DecodeFault {
    ghost from_gives = { λ _ e. e ≡ DecodeFault.OutOfMemory };

    fn from(_: OutOfMemory) -> Self {
        DecodeFault::OutOfMemory
    }
}

impl<T: Drop> From<AllocFailed<T>> for DecodeFault {
    ghost from_gives = { λ _ e. e ≡ DecodeFault.OutOfMemory };

    fn from(_: AllocFailed<T>) -> Self {
        DecodeFault::OutOfMemory
    }
}

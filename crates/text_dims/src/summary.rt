//! What is counted of a whole text.
ghost use Rattle.std.specs.Prelude.{◌≡◌, ◌+◌, ◌<◌, ◌≤◌, ◌^◌, [], ◌∷◌, length, take, sum_by, IfOk};
ghost use Rattle.std.specs.Str.{IsUtf8, chars};
ghost use Rattle.text_dims.specs.Counts.{char_units};
ghost use Rattle.text_dims.specs.Summaries.{summary_of, text_sum, no_text, longer, longest, IsOfText, TextFits};
ghost use Rattle.text_dims.specs.Bytes.{newline_summary, run_summary};
ghost use Rattle.text_dims.specs.Monoid.{text_laws};

use crate::OutOfMemory;
use crate::bytes::{is_char_start, units_at};
use crate::lanes::{LANES, run_at};
use crate::points::Point;
use std::alloc::Global;
use sum_tree::Summary;

/// The counts of a text, all of them plain: nothing of the text itself is kept.
///
/// Texts are at most 2^40 bytes long, so that each sum fits its `u64`.
#[derive(Clone, Copy, Debug, PartialEq, Eq, Hash)]
pub struct TextSummary {
    /// How many bytes the text has.
    pub len: u64,

    /// How many UTF-16 units the text has.
    pub len_utf16: u64,

    /// How many characters the text has, LFs among them.
    pub chars: u64,

    /// The end of the text: how many LFs it has, and how many bytes follow the last one. With `last_row_len_utf16` as the
    /// column it is the end in UTF-16 units.
    pub lines: Point,

    /// How many characters stand before the first LF.
    pub first_row_chars: u64,

    /// How many characters stand after the last LF.
    pub last_row_chars: u64,

    /// How many UTF-16 units stand after the last LF.
    pub last_row_len_utf16: u64,

    /// The first among the rows with most characters, counted from 0; LFs belong to no row.
    pub longest_row: u64,

    /// How many characters the longest row has.
    pub longest_row_chars: u64,
}

impl TextSummary {
    /// Counts the text. Takes no memory, and time by the text's length.
    pub fn of(text: &str) -> TextSummary
        ensures summary { result ≡ summary_of text.now }
        ensures characters { result.chars ≡ length (chars text.now) }
        ensures units { result.len_utf16 ≡ sum_by char_units (chars text.now) }
    {
        let bytes = text.as_bytes();
        let mut summary = TextSummary::empty();
        let mut at = 0;
        while bytes.len() - at >= LANES {
            at = summary.push_lanes(bytes, at);
        }
        while at < bytes.len() {
            summary.push_byte(bytes[at]);
            at += 1;
        }
        summary
    }

    fn empty() -> TextSummary
        ensures { result ≡ no_text }
    {
        TextSummary {
            len: 0,
            len_utf16: 0,
            chars: 0,
            lines: Point { row: 0, column: 0 },
            first_row_chars: 0,
            last_row_chars: 0,
            last_row_len_utf16: 0,
            longest_row: 0,
            longest_row_chars: 0,
        }
    }

    /// Counts some bytes behind those before `at`, which are counted: 16, or those up to the first LF with it. Answers how
    /// many are counted then.
    #[inline(always)]
    fn push_lanes(&mut self, bytes: &[u8], at: usize) -> usize
        requires within { at + LANES ≤ length bytes.now }
        requires text { IsUtf8 bytes.now }
        requires short { length bytes.now < 2 ^ 64 }
        requires before { self.old ≡ summary_of (take at bytes.now) }
        ensures after { self.new ≡ summary_of (take result bytes.now) }
        ensures more { at < result }
        ensures within { result ≤ length bytes.now }
    {
        let run = run_at(bytes, at);
        self.push_run(run.len as u64, run.chars, run.units);
        let end = at + run.len;
        if run.len == LANES {
            return end;
        }
        self.push_byte(bytes[end]);
        end + 1
    }

    fn push_byte(&mut self, byte: u8)
        requires longest { self.old.last_row_chars ≤ self.old.longest_row_chars }
        requires fits { TextFits (text_sum self.old (summary_of (byte ∷ []))) }
        ensures { self.new ≡ text_sum self.old (summary_of (byte ∷ [])) }
    {
        if byte == b'\n' {
            self.push_newline();
        } else {
            self.push_run(1, u64::from(is_char_start(byte)), units_at(byte));
        }
    }

    /// Goes on to the next row.
    #[inline(always)]
    fn push_newline(&mut self)
        requires longest { self.old.last_row_chars ≤ self.old.longest_row_chars }
        requires fits { TextFits (text_sum self.old newline_summary) }
        ensures { self.new ≡ text_sum self.old newline_summary }
    {
        self.len += 1;
        self.len_utf16 += 1;
        self.chars += 1;
        self.lines.row += 1;
        self.lines.column = 0;
        self.last_row_chars = 0;
        self.last_row_len_utf16 = 0;
    }

    /// Goes on by `len` bytes without an LF, which begin `chars` characters of `units` UTF-16 units.
    #[inline(always)]
    fn push_run(&mut self, len: u64, chars: u64, units: u64)
        requires longest { self.old.last_row_chars ≤ self.old.longest_row_chars }
        requires fits { TextFits (text_sum self.old (run_summary len chars units)) }
        ensures { self.new ≡ text_sum self.old (run_summary len chars units) }
    {
        self.len += len;
        self.len_utf16 += units;
        self.chars += chars;
        self.lines.column += len;
        if self.lines.row == 0 {
            self.first_row_chars += chars;
        }
        self.last_row_chars += chars;
        self.last_row_len_utf16 += units;
        if self.longest_row_chars < self.last_row_chars {
            self.longest_row = self.lines.row;
            self.longest_row_chars = self.last_row_chars;
        }
    }
}

impl Summary for TextSummary {
    ghost empty = { no_text };

    ghost op = { text_sum };

    ghost admits = { IsOfText };

    ghost fits = { TextFits };

    ghost single = { IsOfText };

    ghost laws = { text_laws };

    fn zero(_alloc: Global) -> TextSummary {
        TextSummary::empty()
    }

    fn add(&mut self, _alloc: Global, other: &TextSummary) -> Result<(), OutOfMemory> {
        *self = TextSummary::sum(self, other);
        Ok(())
    }
}

/// A row, and how many characters it has.
#[derive(Clone, Copy)]
struct Row {
    number: u64,
    chars: u64,
}

impl Row {
    fn longer(self, other: Row) -> Row
        ensures { result ≡ longer self other }
    {
        if self.chars < other.chars {
            other
        } else {
            self
        }
    }
}

impl TextSummary {
    /// The longest row of a text with the first summary followed by one with the second.
    fn longest(first: &TextSummary, second: &TextSummary) -> Row
        requires number { (longest first.now second.now).number < 2 ^ 64 }
        requires chars { (longest first.now second.now).chars < 2 ^ 64 }
        ensures { result ≡ longest first.now second.now }
    {
        let before = Row {
            number: first.longest_row,
            chars: first.longest_row_chars,
        };
        let joined = Row {
            number: first.lines.row,
            chars: first.last_row_chars + second.first_row_chars,
        };
        let longer = before.longer(joined);
        if longer.chars < second.longest_row_chars {
            Row {
                number: first.lines.row + second.longest_row,
                chars: second.longest_row_chars,
            }
        } else {
            longer
        }
    }

    /// The summary of a text with the first summary followed by one with the second.
    fn sum(first: &TextSummary, second: &TextSummary) -> TextSummary
        requires { TextFits (text_sum first.now second.now) }
        ensures { result ≡ text_sum first.now second.now }
    {
        let longest = TextSummary::longest(first, second);
        TextSummary {
            len: first.len + second.len,
            len_utf16: first.len_utf16 + second.len_utf16,
            chars: first.chars + second.chars,
            lines: first.lines + second.lines,
            first_row_chars: if first.lines.row == 0 {
                first.first_row_chars + second.first_row_chars
            } else {
                first.first_row_chars
            },
            last_row_chars: if second.lines.row == 0 {
                first.last_row_chars + second.last_row_chars
            } else {
                second.last_row_chars
            },
            last_row_len_utf16: if second.lines.row == 0 {
                first.last_row_len_utf16 + second.last_row_len_utf16
            } else {
                second.last_row_len_utf16
            },
            longest_row: longest.number,
            longest_row_chars: longest.chars,
        }
    }
}

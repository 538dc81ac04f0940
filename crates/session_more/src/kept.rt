//! A line as a session keeps it until it is worked.
ghost use Rattle.std.specs.Prelude.{◌≡◌, IfOk, IfSome};
ghost use Rattle.session_more.specs.Kept.{line_of};
ghost use Rattle.session_more.specs.Lines.{is_query, number_count};
ghost use Rattle.session_more.specs.declared.kept.Form.{Form};
ghost use Rattle.session_more.specs.declared.session.MoreLine.{MoreLine};

use crate::session::{MoreLine, TextRanges};
use arrayvec::ArrayString;
use op_model::Text;
use session_lines::{KeptLine, OutOfMemory};
use std::alloc::Global;
use std::marker::Model;
use std::mem::size_of;

/// A line in a form of 56 bytes, seen as the line. A line of `session_lines` takes more as it does in a `KeptLine`;
/// of the others only an edit of excerpts, and one with a name of more than 16 bytes or with no or several ranges,
/// takes more, in a block of its own.
#[derive(Drop)]
pub struct KeptMore {
    form: Form,
}

const _: () = prove!(size_of::<KeptMore>() == 56);

impl Model for KeptMore {
    ghost use Rattle.session_more.specs.declared.session.MoreLine.{MoreLine};
    ghost use Rattle.session_more.specs.Kept.{line_of};

    ghost Value = { MoreLine };

    ghost view = { λ k. line_of k.form };
}

/// The forms of lines. Each has the members of its line, in their order.
#[derive(Drop)]
pub enum Form {
    /// A line of `session_lines`.
    Plain(KeptLine),
    /// A line that selects one range: its replica, its name, and the start and the end of the range.
    Select(u16, ArrayString<16>, u64, u64),
    Share(u16, ArrayString<16>),
    Selected(u16, u16),
    Fold(u16, u64, u64),
    Unfold(u16, u64, u64),
    Folded(u16),
    Display(u16, u64),
    Excerpt(ArrayString<16>, u16, u64, u64),
    Multi(ArrayString<16>),
    /// Any line, as it is.
    Whole(Box<MoreLine>),
}

// The text, where it has at most 16 bytes.
fn short(text: &Text) -> Option<ArrayString<16>>
    ensures { IfSome result (λ t. t.bytes ≡ text.now) }
{
    ArrayString::from(text.as_str()).ok()
}

fn short_select(replica: u16, name: &Text, ranges: &[(u64, u64)]) -> Option<Form>
    ensures { IfSome result
        (λ form. line_of form ≡ MoreLine.Select replica name.now ranges.now) }
{
    let [(start, end)] = ranges else {
        return None;
    };
    Some(Form::Select(replica, short(name)?, *start, *end))
}

// The form without a block of its own, if the line has one and is no line of `session_lines`.
fn short_form(line: &MoreLine) -> Option<Form>
    ensures { IfSome result (λ form. line_of form ≡ line.now) }
{
    match line {
        MoreLine::Plain(_) => None,
        MoreLine::Select {
            replica,
            name,
            ranges,
        } => short_select(*replica, name, ranges.as_slice()),
        MoreLine::Share { replica, name } => Some(Form::Share(*replica, short(name)?)),
        MoreLine::Selected { replica, author } => Some(Form::Selected(*replica, *author)),
        MoreLine::Fold {
            replica,
            start,
            end,
        } => Some(Form::Fold(*replica, *start, *end)),
        MoreLine::Unfold {
            replica,
            start,
            end,
        } => Some(Form::Unfold(*replica, *start, *end)),
        MoreLine::Folded { replica } => Some(Form::Folded(*replica)),
        MoreLine::Display { replica, offset } => Some(Form::Display(*replica, *offset)),
        MoreLine::Excerpt {
            name,
            replica,
            start,
            end,
        } => Some(Form::Excerpt(short(name)?, *replica, *start, *end)),
        MoreLine::Multi { name } => Some(Form::Multi(short(name)?)),
        MoreLine::Medit { .. } => None,
    }
}

// The text of a short one.
fn text_of(alloc: Global, text: &ArrayString<16>) -> Result<Text, OutOfMemory>
    ensures { IfOk result (λ t. t ≡ text.now.bytes) }
{
    Ok(Text::new(String::from_str(alloc, text.as_str())?))
}

fn select_line(
    alloc: Global,
    replica: u16,
    name: &ArrayString<16>,
    start: u64,
    end: u64,
) -> Result<MoreLine, OutOfMemory>
    ensures { IfOk result (λ line. line ≡ line_of (Form.Select replica name.now start end)) }
{
    let mut ranges = Vec::with_capacity(alloc, 1)?;
    ranges.push((start, end))?;
    Ok(MoreLine::Select {
        replica,
        name: text_of(alloc, name)?,
        ranges: TextRanges::new(ranges),
    })
}

impl KeptMore {
    /// Keeps the line. O(1), and allocates only for a block of its own.
    ///
    /// # Errors
    ///
    /// `OutOfMemory` if an allocation fails; the line is then dropped.
    pub fn new(alloc: Global, line: MoreLine) -> Result<KeptMore, OutOfMemory>
        ensures { IfOk result (λ kept. kept ≡ line) }
    {
        let form = match line {
            MoreLine::Plain(line) => Form::Plain(KeptLine::new(alloc, line)?),
            line => match short_form(&line) {
                Some(form) => form,
                None => Form::Whole(Box::new(alloc, line)?),
            },
        };
        Ok(KeptMore { form })
    }

    /// How many numbers of operation lines it takes in a session of this many replicas.
    pub fn number_count(&self, replicas: u64) -> u64
        ensures { result ≡ number_count replicas self.now }
    {
        match &self.form {
            Form::Plain(line) => line.is_operation() as u64,
            Form::Whole(line) => line.number_count(replicas),
            _ => 0,
        }
    }

    /// Whether it is a query.
    pub fn is_query(&self) -> bool
        ensures { result ≡ is_query self.now }
    {
        match &self.form {
            Form::Plain(line) => line.is_query(),
            Form::Whole(line) => line.is_query(),
            _ => false,
        }
    }

    /// The line itself. O(1). Allocates for the texts and lists that are in the form.
    ///
    /// # Errors
    ///
    /// `OutOfMemory` if an allocation fails; the line is then dropped.
    pub fn into_line(self, alloc: Global) -> Result<MoreLine, OutOfMemory>
        ensures { IfOk result (λ line. line ≡ self) }
    {
        let KeptMore { form } = self;
        match form {
            Form::Plain(line) => Ok(MoreLine::Plain(line.into_line(alloc)?)),
            Form::Select(replica, name, start, end) => {
                select_line(alloc, replica, &name, start, end)
            }
            Form::Share(replica, name) => Ok(MoreLine::Share {
                replica,
                name: text_of(alloc, &name)?,
            }),
            Form::Selected(replica, author) => Ok(MoreLine::Selected { replica, author }),
            Form::Fold(replica, start, end) => Ok(MoreLine::Fold {
                replica,
                start,
                end,
            }),
            Form::Unfold(replica, start, end) => Ok(MoreLine::Unfold {
                replica,
                start,
                end,
            }),
            Form::Folded(replica) => Ok(MoreLine::Folded { replica }),
            Form::Display(replica, offset) => Ok(MoreLine::Display { replica, offset }),
            Form::Excerpt(name, replica, start, end) => Ok(MoreLine::Excerpt {
                name: text_of(alloc, &name)?,
                replica,
                start,
                end,
            }),
            Form::Multi(name) => Ok(MoreLine::Multi {
                name: text_of(alloc, &name)?,
            }),
            Form::Whole(line) => Ok(Box::into_inner(line)),
        }
    }
}

//! A line as a session keeps it until it is worked.
ghost use Rattle.std.specs.Prelude.{◌≡◌, true, IfOk, IfSome};
ghost use Rattle.session_lines.specs.Kept.{is_short, line_of};
ghost use Rattle.session_lines.specs.Session.{is_operation, is_query};
ghost use Rattle.session_lines.specs.declared.kept.Form.{Form};
ghost use Rattle.session_lines.specs.declared.session.SessionLine.{SessionLine};

use crate::OutOfMemory;
use crate::session::{Numbers, SessionLine};
use arrayvec::ArrayString;
use op_model::{Bias, Piece, Pieces, Text};
use std::alloc::Global;
use std::marker::Model;
use std::mem::size_of;

/// A line in a form of 48 bytes, seen as the line. Only a line with an operation, with a text of more than 16 bytes, or with
/// no or several pieces or numbers takes more, in a block of its own.
#[derive(Drop)]
pub struct KeptLine {
    form: Form,
}

const _: () = prove!(size_of::<KeptLine>() == 48);

impl Model for KeptLine {
    ghost use Rattle.session_lines.specs.declared.session.SessionLine.{SessionLine};
    ghost use Rattle.session_lines.specs.Kept.{line_of};

    ghost Value = { SessionLine };

    ghost view = { λ k. line_of k.form };
}

/// The forms of lines. Each has the members of its line, in their order.
#[derive(Drop)]
pub enum Form {
    /// An edit of one piece: its replica, and the start, the end and the text of the piece.
    Edit(u16, u64, u64, ArrayString<16>),
    /// An undo that names one operation line.
    Undo(u16, u64),
    Give(u16, u64),
    Text(u16),
    Anchor(u16, ArrayString<16>, u64, Bias),
    Where(u16, ArrayString<16>),
    Mark(u16, ArrayString<16>),
    Since(u16, ArrayString<16>),
    Find(u16, ArrayString<16>),
    Point(u16, u64),
    Offset(u16, u64, u64),
    Reopen(u16),
    /// Any line, as it is.
    Whole(Box<SessionLine>),
}

// The text, where it has at most 16 bytes.
fn short(text: &Text) -> Option<ArrayString<16>>
    ensures { IfSome result (λ t. t.bytes ≡ text.now) }
{
    ArrayString::from(text.as_str()).ok()
}

fn short_edit(replica: u16, pieces: &[Piece]) -> Option<Form>
    ensures { IfSome result (λ form. line_of form ≡ SessionLine.Edit replica pieces.now) }
{
    let [Piece { start, end, text }] = pieces else {
        return None;
    };
    Some(Form::Edit(replica, *start, *end, short(text)?))
}

fn short_undo(replica: u16, numbers: &[u64]) -> Option<Form>
    ensures { IfSome result (λ form. line_of form ≡ SessionLine.Undo replica numbers.now) }
{
    let [number] = numbers else {
        return None;
    };
    Some(Form::Undo(replica, *number))
}

// The form without a block of its own, if the line has one.
fn short_form(line: &SessionLine) -> Option<Form>
    ensures { IfSome result (λ form. line_of form ≡ line.now) }
{
    match line {
        SessionLine::Edit { replica, pieces } => short_edit(*replica, pieces.as_slice()),
        SessionLine::Undo { replica, numbers } => short_undo(*replica, numbers.as_slice()),
        SessionLine::Op(_) => None,
        SessionLine::Uop(_) => None,
        SessionLine::Give { replica, number } => Some(Form::Give(*replica, *number)),
        SessionLine::Text { replica } => Some(Form::Text(*replica)),
        SessionLine::Anchor {
            replica,
            name,
            offset,
            bias,
        } => Some(Form::Anchor(*replica, short(name)?, *offset, *bias)),
        SessionLine::Where { replica, name } => Some(Form::Where(*replica, short(name)?)),
        SessionLine::Mark { replica, name } => Some(Form::Mark(*replica, short(name)?)),
        SessionLine::Since { replica, name } => Some(Form::Since(*replica, short(name)?)),
        SessionLine::Find { replica, needle } => Some(Form::Find(*replica, short(needle)?)),
        SessionLine::Point { replica, offset } => Some(Form::Point(*replica, *offset)),
        SessionLine::Offset {
            replica,
            row,
            column,
        } => Some(Form::Offset(*replica, *row, *column)),
        SessionLine::Reopen { replica } => Some(Form::Reopen(*replica)),
    }
}

// The text of a short one.
fn text_of(alloc: Global, text: &ArrayString<16>) -> Result<Text, OutOfMemory>
    ensures { IfOk result (λ t. t ≡ text.now.bytes) }
{
    Ok(Text::new(String::from_str(alloc, text.as_str())?))
}

fn edit_line(
    alloc: Global,
    replica: u16,
    start: u64,
    end: u64,
    text: &ArrayString<16>,
) -> Result<SessionLine, OutOfMemory>
    ensures { IfOk result (λ line. line ≡ line_of (Form.Edit replica start end text.now)) }
{
    let piece = Piece::new(start, end, text_of(alloc, text)?);
    Ok(SessionLine::Edit {
        replica,
        pieces: Pieces::of(alloc, piece)?,
    })
}

fn undo_line(alloc: Global, replica: u16, number: u64) -> Result<SessionLine, OutOfMemory>
    ensures { IfOk result (λ line. line ≡ line_of (Form.Undo replica number)) }
{
    let mut numbers = Vec::with_capacity(alloc, 1)?;
    numbers.push(number)?;
    Ok(SessionLine::Undo {
        replica,
        numbers: Numbers::new(numbers),
    })
}

fn anchor_line(
    alloc: Global,
    replica: u16,
    name: &ArrayString<16>,
    offset: u64,
    bias: Bias,
) -> Result<SessionLine, OutOfMemory>
    ensures { IfOk result (λ line. line ≡ line_of (Form.Anchor replica name.now offset bias)) }
{
    Ok(SessionLine::Anchor {
        replica,
        name: text_of(alloc, name)?,
        offset,
        bias,
    })
}

// The line of a form without a block of its own.
fn short_line(alloc: Global, form: &Form) -> Result<SessionLine, OutOfMemory>
    requires { is_short form.now ≡ true }
    ensures { IfOk result (λ line. line ≡ line_of form.now) }
{
    match *form {
        Form::Edit(replica, start, end, ref text) => edit_line(alloc, replica, start, end, text),
        Form::Undo(replica, number) => undo_line(alloc, replica, number),
        Form::Give(replica, number) => Ok(SessionLine::Give { replica, number }),
        Form::Text(replica) => Ok(SessionLine::Text { replica }),
        Form::Anchor(replica, ref name, offset, bias) => {
            anchor_line(alloc, replica, name, offset, bias)
        }
        Form::Where(replica, ref name) => Ok(SessionLine::Where {
            replica,
            name: text_of(alloc, name)?,
        }),
        Form::Mark(replica, ref name) => Ok(SessionLine::Mark {
            replica,
            name: text_of(alloc, name)?,
        }),
        Form::Since(replica, ref name) => Ok(SessionLine::Since {
            replica,
            name: text_of(alloc, name)?,
        }),
        Form::Find(replica, ref needle) => Ok(SessionLine::Find {
            replica,
            needle: text_of(alloc, needle)?,
        }),
        Form::Point(replica, offset) => Ok(SessionLine::Point { replica, offset }),
        Form::Offset(replica, row, column) => Ok(SessionLine::Offset {
            replica,
            row,
            column,
        }),
        Form::Reopen(replica) => Ok(SessionLine::Reopen { replica }),
        Form::Whole(_) => unreachable!(),
    }
}

impl KeptLine {
    /// Keeps the line. O(1), and allocates only for a block of its own.
    ///
    /// # Errors
    ///
    /// `OutOfMemory` if an allocation fails; the line is then dropped.
    pub fn new(alloc: Global, line: SessionLine) -> Result<KeptLine, OutOfMemory>
        ensures { IfOk result (λ kept. kept ≡ line) }
    {
        let form = match short_form(&line) {
            Some(form) => form,
            None => Form::Whole(Box::new(alloc, line)?),
        };
        Ok(KeptLine { form })
    }

    /// Whether it is an operation line.
    pub fn is_operation(&self) -> bool
        ensures { result ≡ is_operation self.now }
    {
        match &self.form {
            Form::Edit(..) => true,
            Form::Undo(..) => true,
            Form::Whole(line) => line.is_operation(),
            _ => false,
        }
    }

    /// Whether it is a query.
    pub fn is_query(&self) -> bool
        ensures { result ≡ is_query self.now }
    {
        match &self.form {
            Form::Find(..) => true,
            Form::Point(..) => true,
            Form::Offset(..) => true,
            Form::Whole(line) => line.is_query(),
            _ => false,
        }
    }

    /// The line itself. O(1). Allocates for the texts and lists that are in the form.
    ///
    /// # Errors
    ///
    /// `OutOfMemory` if an allocation fails; the line is then dropped.
    pub fn into_line(self, alloc: Global) -> Result<SessionLine, OutOfMemory>
        ensures { IfOk result (λ line. line ≡ self) }
    {
        match self.form {
            Form::Whole(line) => Ok(Box::into_inner(line)),
            form => short_line(alloc, &form),
        }
    }
}

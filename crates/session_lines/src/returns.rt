//! Texts with a CR, which a session of version 1 may bring into its buffers, and a migrated one may not.
ghost use Rattle.std.specs.Prelude.{◌≡◌, ◌&&◌};
ghost use Rattle.std.specs.List.{list_any};
ghost use Rattle.op_model.specs.Rules.{has_return, is_return};
ghost use Rattle.session_lines.specs.Session.{bars_return, brings_return};

use crate::header::Header;
use crate::session::SessionLine;
use op_model::Piece;

fn text_has_return(text: &str) -> bool
    ensures { result ≡ list_any is_return text.now }
{
    text.as_bytes().iter().any(|b| *b == b'\r')
}

fn has_return(piece: &Piece) -> bool
    ensures { result ≡ has_return piece.now }
{
    text_has_return(piece.text.as_str())
}

fn have_return(pieces: &[Piece]) -> bool
    ensures { result ≡ list_any has_return pieces.now }
{
    pieces.iter().any(has_return)
}

/// Whether no text with a CR may enter the buffers of a session with the header. O(1); does not allocate.
pub fn bars_return(migrate: bool, header: &Header) -> bool
    ensures { result ≡ bars_return migrate header.now }
{
    migrate && header.version == 1
}

/// Whether a CR bars the header. Linear in its base; does not allocate.
pub fn is_barred_header(migrate: bool, header: &Header) -> bool
    ensures { result ≡ (bars_return migrate header.now && list_any is_return header.now.base) }
{
    bars_return(migrate, header) && text_has_return(header.base.as_str())
}

/// Whether a text that the line brings into buffers has a CR. Linear in its texts; does not allocate.
pub fn brings_return(line: &SessionLine) -> bool
    ensures { result ≡ brings_return line.now }
{
    match line {
        SessionLine::Edit { pieces, .. } => have_return(pieces.as_slice()),
        SessionLine::Op(edit) => have_return(edit.pieces.as_slice()),
        _ => false,
    }
}

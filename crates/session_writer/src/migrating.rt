//! Sessions that are written as sessions of version 2.
ghost use Rattle.std.specs.Prelude.{◌≡◌, ◌<◌, ◌≤◌, ◌⊎◌, length, true, Err, IfErr, IfOk, Ok};
ghost use Rattle.session_lines.specs.Cut.{lines_of};
ghost use Rattle.session_lines.specs.Session.{lines_limit};
ghost use Rattle.session_more.specs.Decoding.{more_session_of_text};
ghost use Rattle.session_more.specs.declared.session.MoreSession.{MoreSession};
ghost use Rattle.session_writer.specs.Migrated.{IsMigrated};

use crate::OutOfMemory;
use crate::header::header_text;
use crate::lines::push_lines;
use session_lines::{DecodeFault, first_line};
use session_more::{MoreSession, decode};
use std::alloc::Global;

// The session as one of version 2, by its base and its ids.
fn migrated(alloc: Global, input: &[u8], session: MoreSession) -> Result<Vec<u8>, OutOfMemory>
    requires { more_session_of_text true input.now ≡ Ok session }
    ensures { IfOk result (λ v. IsMigrated session input.now v.items) }
{
    let MoreSession { base, replicas, .. } = session;
    let mut out = header_text(alloc, input.len() + 1, base.as_str(), replicas.as_slice())?;
    out.push(b'\n')?;
    let (_, after) = first_line(input);
    push_lines(alloc, &mut out, after)?;
    Ok(out)
}

/// The text of a session, which the bytes are, as one of version 2: its header with a 2, and each line as the compact
/// text of its value, all with a line feed. It is a session with the same base, ids and lines, and it is the same for
/// a session of version 2 that was written so. Linear in the bytes. It takes as much memory as the session, and then
/// as the text.
///
/// # Errors
///
/// Those of `decode` for a session that is to be migrated: `Lines`, and `Bad` with `Cr` after every other word.
/// `OutOfMemory` only where there is a line, and not too many.
pub fn migrate(alloc: Global, input: &[u8]) -> Result<Vec<u8>, DecodeFault>
    ensures ok { IfOk result (λ v. (s : MoreSession) × (more_session_of_text true input.now ≡ Ok s)
        × IsMigrated s input.now v.items) }
    ensures lines { lines_limit < length (lines_of input.now)
        → result ≡ Err (DecodeFault.Lines (length (lines_of input.now))) }
    ensures fault { IfErr result (λ e. (more_session_of_text true input.now ≡ Err e)
        ⊎ ((0 < length input.now) × (length (lines_of input.now) ≤ lines_limit)
        × (e ≡ DecodeFault.OutOfMemory))) }
{
    let session = decode(alloc, input, true)?;
    match migrated(alloc, input, session) {
        Ok(text) => Ok(text),
        Err(OutOfMemory) => Err(DecodeFault::OutOfMemory),
    }
}

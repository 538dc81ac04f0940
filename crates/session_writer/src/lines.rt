//! The lines after a header, each as the compact text of its value.
ghost use Rattle.std.specs.Prelude.{◌≡◌, ◌++◌, codes, string_bytes, IfOk, IsUtf8, OnOk};
ghost use Rattle.std.specs.List.{flat_map};
ghost use Rattle.session_lines.specs.Cut.{lines_of};
ghost use Rattle.session_writer.specs.Migrated.{written_line};
ghost use Rattle.session_writer.specs.Readable.{AreReadable, AreWritten, IsReadable, IsWritten};

use crate::OutOfMemory;
use serde_json::Value;
use session_lines::first_line;
use std::alloc::Global;

// Writes a line as the compact text of its value.
fn push_line(alloc: Global, out: &mut Vec<u8>, line: &[u8]) -> Result<(), OutOfMemory>
    requires { IsReadable line.now }
    ensures text { OnOk result (out.new.items ≡ out.old.items ++ written_line line.now) }
    ensures written { OnOk result (IsWritten line.now) }
{
    let text = compact_text(alloc, line)?;
    out.extend_from_slice(text.as_bytes())?;
    out.push(b'\n')?;
    Ok(())
}

/// Writes the lines of a text, each as the compact text of its value. Linear in the text, and each line is read for
/// itself.
///
/// # Errors
///
/// `OutOfMemory` if an allocation fails; some of the lines may be written then.
pub fn push_lines(alloc: Global, out: &mut Vec<u8>, text: &[u8]) -> Result<(), OutOfMemory>
    requires { AreReadable (lines_of text.now) }
    ensures text { OnOk result (out.new.items
        ≡ out.old.items ++ flat_map written_line (lines_of text.now)) }
    ensures written { OnOk result (AreWritten (lines_of text.now)) }
{
    let mut rest = text;
    while !rest.is_empty() {
        let (line, after) = first_line(rest);
        push_line(alloc, out, line)?;
        rest = after;
    }
    Ok(())
}

// The compact text of a line's value.
fn compact_text(alloc: Global, line: &[u8]) -> Result<String, OutOfMemory>
    requires { IsReadable line.now }
    ensures text { IfOk result (λ s. string_bytes s ++ codes "\n" ≡ written_line line.now) }
    ensures written { IfOk result (λ s. IsUtf8 (string_bytes s) → IsWritten line.now) }
{
    match Value::from_slice(alloc, line) {
        Ok(value) => value.to_string(alloc),
        Err(error) if error.is_memory() => Err(OutOfMemory),
        // a line of a session is a value
        Err(_) => unreachable!(),
    }
}

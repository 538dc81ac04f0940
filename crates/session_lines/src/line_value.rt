//! A line as JSON.
ghost use Rattle.std.specs.Prelude.{◌≡◌, map, option_map, IfOk, None, Some, Err};
ghost use Rattle.serde_json.specs.View.{view};
ghost use Rattle.session_lines.specs.Json.{value_of, members_of, is_text, is_number};
ghost use Rattle.session_lines.specs.declared.fault.LineFault.{LineFault};
ghost use Rattle.session_lines.specs.declared.fault.Word.{Word};

use crate::fault::{LineFault, Word};
use serde_json::Value;
use std::alloc::Global;

/// The value that a line is. Linear in the line. Allocates for the value.
///
/// # Errors
///
/// `Bad` with `Json` if the line is no value; `OutOfMemory` if an allocation fails.
#[tactic(auto, unfolding(crate::specs::Json::value_of))]
pub fn value_of(alloc: Global, line: &[u8]) -> Result<Value, LineFault>
    ensures ok { IfOk result (λ v. value_of line.now ≡ Some (view v)) }
    ensures bad { (w : Word) → result ≡ Err (LineFault.Bad w)
        → (w ≡ Word.Json) × (value_of line.now ≡ None) }
{
    match Value::from_slice(alloc, line) {
        Ok(value) => Ok(value),
        Err(error) => {
            if error.is_memory() {
                Err(LineFault::OutOfMemory)
            } else {
                Err(LineFault::Bad(Word::Json))
            }
        }
    }
}

/// The members of an array, or None if the value is not one. O(1); does not allocate.
pub fn members_of(value: &Value) -> Option<&[Value]>
    ensures { option_map (λ vs. map view vs.now) result ≡ members_of (view value.now) }
{
    match value.as_array() {
        Some(list) => Some(list.as_slice()),
        None => None,
    }
}

/// Whether the value is this text. Linear in the text; does not allocate.
pub fn is_text(value: &Value, text: &str) -> bool
    ensures { result ≡ is_text text.now (view value.now) }
{
    match value.as_str() {
        Some(s) => s == text,
        None => false,
    }
}

/// Whether the value is this whole number. O(1); does not allocate.
pub fn is_number(value: &Value, n: u64) -> bool
    ensures { result ≡ is_number n (view value.now) }
{
    match value.as_u64() {
        Some(m) => m == n,
        None => false,
    }
}

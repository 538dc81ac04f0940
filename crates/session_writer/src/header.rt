//! The header of version 2.
ghost use Rattle.std.specs.Prelude.{◌≡◌, IfOk, IsUtf8, OnOk};
ghost use Rattle.serde_json.specs.Written.{compact_text};
ghost use Rattle.session_writer.specs.Values.{header_value};

use crate::OutOfMemory;
use json::Writer;
use std::alloc::Global;

/// The header of version 2 over a base and the ids of replicas, without its line feed, in a vector with room for this
/// many bytes. Linear in the base.
///
/// # Errors
///
/// `OutOfMemory` if an allocation fails.
pub fn header_text(
    alloc: Global,
    room: usize,
    base: &str,
    ids: &[u16],
) -> Result<Vec<u8>, OutOfMemory>
    ensures text { IfOk result (λ v. v.items ≡ compact_text (header_value 2 base.now ids.now)) }
    ensures utf8 { OnOk result (IsUtf8 (compact_text (header_value 2 base.now ids.now))) }
{
    let mut writer = Writer::new(Vec::with_capacity(alloc, room)?);
    writer.begin_array()?;
    writer.string("zedbuf")?;
    writer.u64(2)?;
    writer.string(base)?;
    writer.begin_array()?;
    for id in ids {
        writer.u64(u64::from(*id))?;
    }
    writer.end_array()?;
    writer.end_array()?;
    Ok(writer.into_inner())
}

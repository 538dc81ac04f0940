//! The fields of a record, read from the front of bytes.
ghost use Rattle.std.specs.Prelude.{◌≡◌, ◌+◌, ◌==◌, length, nat_lt, true, false, IfSome, IfNone};
ghost use Rattle.std.specs.Str.{is_utf8};
ghost use Rattle.std.specs.Int.{w16, w32, w64};
ghost use Rattle.op_wire.specs.declared.fault.Word.TheVariants.{Order, Zero, Long};
ghost use Rattle.op_wire.specs.Spelling.{limit};
ghost use Rattle.op_wire.specs.Reading.{Gives, number_at, checked_at, stamp_at, amount_at, string_at, text_at};

use crate::fault::{ReadError, Stop, Word};
use lamport_clock::Lamport;
use op_model::Text;
use std::alloc::Global;

/// The greatest number of entries, of pieces and of counts, and of the bytes that an edit's texts have together.
pub(crate) const LIMIT: u32 = 65_536;

pub(crate) fn u16_at(bytes: &[u8]) -> Result<(u16, &[u8]), ReadError>
    ensures { Gives (λ x. (x.0, x.1.now)) result (number_at w16 bytes.now) }
{
    if bytes.len() < 2 {
        return Err(ReadError::Stopped(Stop::Short));
    }
    let (front, rest) = bytes.split_at(2);
    Ok((u16::from_be_bytes([front[0], front[1]]), rest))
}

pub(crate) fn u32_at(bytes: &[u8]) -> Result<(u32, &[u8]), ReadError>
    ensures { Gives (λ x. (x.0, x.1.now)) result (number_at w32 bytes.now) }
{
    if bytes.len() < 4 {
        return Err(ReadError::Stopped(Stop::Short));
    }
    let (front, rest) = bytes.split_at(4);
    let number = u32::from_be_bytes([front[0], front[1], front[2], front[3]]);
    Ok((number, rest))
}

pub(crate) fn u64_at(bytes: &[u8]) -> Result<(u64, &[u8]), ReadError>
    ensures { Gives (λ x. (x.0, x.1.now)) result (number_at w64 bytes.now) }
{
    if bytes.len() < 8 {
        return Err(ReadError::Stopped(Stop::Short));
    }
    let (front, rest) = bytes.split_at(8);
    let number = u64::from_be_bytes([
        front[0], front[1], front[2], front[3], front[4], front[5], front[6], front[7],
    ]);
    Ok((number, rest))
}

#[tactic(auto, unfolding(crate::specs::Reading::stamp_at))]
pub(crate) fn stamp_of(bytes: &[u8]) -> Result<(Lamport, &[u8]), ReadError>
    ensures { Gives (λ x. (x.0, x.1.now)) result (stamp_at bytes.now) }
{
    let (value, rest) = u32_at(bytes)?;
    let (replica, rest) = u16_at(rest)?;
    Ok((Lamport { value, replica }, rest))
}

#[tactic(auto, unfolding(crate::specs::Reading::checked_at))]
pub(crate) fn replica_of(least: u32, bytes: &[u8]) -> Result<(u16, &[u8]), ReadError>
    ensures { Gives (λ x. (x.0, x.1.now)) result
        (checked_at w16 (λ r. nat_lt r least) Order bytes.now) }
{
    let (replica, rest) = u16_at(bytes)?;
    if u32::from(replica) < least {
        return Err(ReadError::Stopped(Stop::Bad(Word::Order, bytes.len())));
    }
    Ok((replica, rest))
}

#[tactic(auto, unfolding(crate::specs::Reading::checked_at))]
pub(crate) fn value_of(bytes: &[u8]) -> Result<(u32, &[u8]), ReadError>
    ensures { Gives (λ x. (x.0, x.1.now)) result (checked_at w32 (λ v. v == 0) Zero bytes.now) }
{
    let (value, rest) = u32_at(bytes)?;
    if value == 0 {
        return Err(ReadError::Stopped(Stop::Bad(Word::Zero, bytes.len())));
    }
    Ok((value, rest))
}

#[tactic(auto, unfolding(crate::specs::Reading::checked_at))]
pub(crate) fn amount_of(bytes: &[u8]) -> Result<(u32, &[u8]), ReadError>
    ensures { Gives (λ x. (x.0, x.1.now)) result (amount_at bytes.now) }
{
    let (amount, rest) = u32_at(bytes)?;
    if LIMIT < amount {
        return Err(ReadError::Stopped(Stop::Bad(Word::Long, bytes.len())));
    }
    Ok((amount, rest))
}

#[tactic(auto, unfolding(crate::specs::Reading::checked_at))]
fn length_of(so_far: u32, bytes: &[u8]) -> Result<(u32, &[u8]), ReadError>
    ensures { Gives (λ x. (x.0, x.1.now)) result
        (checked_at w32 (λ n. nat_lt limit (so_far + n)) Long bytes.now) }
{
    let (len, rest) = u32_at(bytes)?;
    if u64::from(LIMIT) < u64::from(so_far) + u64::from(len) {
        return Err(ReadError::Stopped(Stop::Bad(Word::Long, bytes.len())));
    }
    Ok((len, rest))
}

// The bytes as a text, if they are UTF-8.
fn utf8_of(bytes: &[u8]) -> Option<&str>
    ensures text { IfSome result (λ t. (t.now ≡ bytes.now) × (is_utf8 bytes.now ≡ true)) }
    ensures none { IfNone result (is_utf8 bytes.now ≡ false) }
{
    match simdutf8::basic::from_utf8(bytes) {
        Ok(text) => Some(text),
        Err(_) => None,
    }
}

#[tactic(auto, unfolding(crate::specs::Reading::string_at))]
fn string_of(len: u32, bytes: &[u8]) -> Result<(&str, &[u8]), ReadError>
    ensures { Gives (λ x. (x.0.now, x.1.now)) result (string_at len bytes.now) }
{
    let len = len as usize;
    if bytes.len() < len {
        return Err(ReadError::Stopped(Stop::Short));
    }
    let (front, rest) = bytes.split_at(len);
    match utf8_of(front) {
        Some(text) => Ok((text, rest)),
        None => Err(ReadError::Stopped(Stop::Bad(Word::Utf8, bytes.len()))),
    }
}

/// A text, which is not copied.
#[tactic(auto, unfolding(crate::specs::Reading::text_at))]
pub(crate) fn str_of(so_far: u32, bytes: &[u8]) -> Result<(&str, &[u8]), ReadError>
    ensures { Gives (λ x. (x.0.now, x.1.now)) result (text_at so_far bytes.now) }
{
    let (len, rest) = length_of(so_far, bytes)?;
    string_of(len, rest)
}

pub(crate) fn text_of(alloc: Global, so_far: u32, bytes: &[u8]) -> Result<(Text, &[u8]), ReadError>
    ensures { Gives (λ x. (x.0, x.1.now)) result (text_at so_far bytes.now) }
{
    let (text, rest) = str_of(so_far, bytes)?;
    Ok((Text::new(String::from_str(alloc, text)?), rest))
}

//! What a byte of UTF-8 tells of its character.
ghost use Rattle.std.specs.Prelude.{◌≡◌};
ghost use Rattle.text_dims.specs.Counts.{begins_char, byte_units};

/// Whether a byte of a text begins a character: where it is below 128, or from 192 on.
#[inline]
pub const fn is_char_start(byte: u8) -> bool
    ensures { result ≡ begins_char byte }
{
    byte < 128 || 192 <= byte
}

/// How many UTF-16 units the character has that the byte begins, 0 where it begins none.
#[inline]
pub const fn units_at(byte: u8) -> u64
    ensures { result ≡ byte_units byte }
{
    if !is_char_start(byte) {
        0
    } else if byte < 240 {
        1
    } else {
        2
    }
}

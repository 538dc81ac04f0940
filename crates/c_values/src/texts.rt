//! Texts, as C hands them in.
ghost use Rattle.std.specs.Prelude.{◌≡◌, false, true, IfNone, IfSome};
ghost use Rattle.std.specs.Str.{is_utf8};

/// The bytes as a text; `None` where they are not UTF-8. Linear in the bytes; does not allocate.
pub fn utf8_of(bytes: &[u8]) -> Option<&str>
    ensures text { IfSome result (λ t. (t.now ≡ bytes.now) × (is_utf8 bytes.now ≡ true)) }
    ensures none { IfNone result (is_utf8 bytes.now ≡ false) }
{
    match std::str::from_utf8(bytes) {
        Ok(text) => Some(text),
        Err(_) => None,
    }
}

//! What a buffer does with line endings, as C says it.
ghost use Rattle.std.specs.Prelude.{◌≡◌};
ghost use Rattle.c_values.specs.Endings.{endings_at};

use op_model::Endings;

/// What a number says of line endings: 0 that texts enter as they are, 1 that each CR LF and each other CR enters as an
/// LF; `None` for all other numbers. O(1); does not allocate.
pub fn endings_at(number: u32) -> Option<Endings>
    ensures { result ≡ endings_at number }
{
    match number {
        0 => Some(Endings::AsIs),
        1 => Some(Endings::Lf),
        _ => None,
    }
}

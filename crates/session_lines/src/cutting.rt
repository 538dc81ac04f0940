//! The lines of a text.
ghost use Rattle.std.specs.Prelude.{◌≡◌, ◌<◌, ◌∷◌, ◌+◌, length};
ghost use Rattle.std.specs.List.{position, position_or_len};
ghost use Rattle.text_dims.specs.Counts.{is_newline, newline_count};
ghost use Rattle.session_lines.specs.Cut.{lines_of};

fn line_end(text: &[u8]) -> Option<usize>
    ensures { result ≡ position is_newline text.now }
{
    text.iter().position(|b| *b == 10)
}

fn line_len(text: &[u8]) -> usize
    ensures { result ≡ position_or_len is_newline text.now }
{
    match line_end(text) {
        Some(end) => end,
        None => text.len(),
    }
}

/// The first line of a text, and what comes after its line feed. Linear in the line; does not allocate.
pub fn first_line(text: &[u8]) -> (&[u8], &[u8])
    requires { 0 < length text.now }
    ensures cut { lines_of text.now ≡ result.0.now ∷ lines_of result.1.now }
    ensures shorter { length result.1.now < length text.now }
{
    let end = line_len(text);
    if end < text.len() {
        (&text[..end], &text[end + 1..])
    } else {
        (text, &[])
    }
}

// How many line feeds a text has.
#[tactic(auto, unfolding(text_dims::specs::Counts::newline_count))]
fn newline_count(text: &[u8]) -> usize
    ensures { result ≡ newline_count text.now }
{
    text.iter().filter(|b| **b == 10).count()
}

/// How many lines a text has. Linear in the text; does not allocate.
#[tactic(auto, using(crate::proofs::Cut::lines_counted), unfolding(text_dims::specs::Counts::newline_count))]
pub fn line_count(text: &[u8]) -> usize
    ensures { result ≡ length (lines_of text.now) }
{
    if text.is_empty() {
        return 0;
    }
    // a line feed at the end begins no line
    1 + newline_count(&text[..text.len() - 1])
}

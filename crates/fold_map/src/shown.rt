//! What is shown.
ghost use Rattle.std.specs.Prelude.{◌≡◌, ◌+◌, ◌++◌, ◌<◌, ◌≤◌, ◌^◌, length, slice_range, IfOk, OnOk, string_bytes};
ghost use Rattle.std.specs.Str.{IsCharBoundary};
ghost use Rattle.fold_spans.specs.Spans.{span_len};
ghost use Rattle.fold_map.specs.Folds.{shown};
ghost use Rattle.fold_map.specs.Passed.{MayPass, IsPassed};

use crate::OutOfMemory;
use crate::map::FoldMap;
use fold_spans::Span;
use rope_chunks::Rope;

/// What is shown for a fold.
const ELLIPSIS: &str = "⋯";

// Adds a part of the text, chunk by chunk.
fn push_part(shown: &mut String, text: &Rope, from: u64, to: u64) -> Result<(), OutOfMemory>
    requires start { IsCharBoundary text.now from }
    requires end { IsCharBoundary text.now to }
    requires order { from ≤ to }
    ensures { OnOk result (string_bytes shown.new
        ≡ string_bytes shown.old ++ slice_range text.now from to) }
{
    for chunk in text.chunks_in(from, to) {
        shown.push_str(chunk)?;
    }
    Ok(())
}

// Goes on over a span that begins at `at`; the bytes `from..at` are shown as they are, and not added yet. Returns from where on
// bytes are not added after it.
fn pass(
    shown: &mut String,
    text: &Rope,
    span: &Span,
    from: u64,
    at: u64,
) -> Result<u64, OutOfMemory>
    requires start { IsCharBoundary text.now from }
    requires end { MayPass span.now text.now at }
    requires order { from ≤ at }
    requires room { at + span_len span.now < 2 ^ 64 }
    ensures { IfOk result (λ next. IsPassed span.now text.now from at
        (string_bytes shown.old) (string_bytes shown.new) next) }
{
    match span {
        Span::Open { .. } | Span::Waiting { .. } => Ok(from),
        Span::Fold { len, .. } => {
            push_part(shown, text, from, at)?;
            shown.push_str(ELLIPSIS)?;
            Ok(at + *len)
        }
    }
}

impl FoldMap {
    /// What is shown: the text, with one ⋯ for each run of bytes that folds join. It is copied chunk by chunk.
    ///
    /// # Errors
    ///
    /// `OutOfMemory` if an allocation fails.
    pub fn text(&self) -> Result<String, OutOfMemory>
        ensures { IfOk result (λ t. string_bytes t ≡ shown self.now) }
    {
        let text = self.snapshot.text();
        self.snapshot.known();
        self.spans.known();
        let tree = self.spans.tree();
        let mut shown = String::new(self.alloc);
        // The bytes `from..at` are shown as they are, and not added yet.
        let mut from = 0;
        let mut at = 0;
        for index in 0..tree.len() {
            let Some(span) = tree.get(index) else {
                unreachable!()
            };
            from = pass(&mut shown, text, span, from, at)?;
            at += span.len();
        }
        push_part(&mut shown, text, from, at)?;
        Ok(shown)
    }

    /// The length of what is shown, in bytes. Does not allocate.
    pub fn len(&self) -> u64
        ensures { result ≡ length (shown self.now) }
    {
        self.spans.known();
        self.spans.shown_len()
    }
}

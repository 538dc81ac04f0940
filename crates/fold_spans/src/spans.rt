//! The spans of a text.
ghost use Rattle.std.specs.Prelude.{◌≡◌, ◌≤◌, ◌<◌, ◌^◌, length, IfOk, OnOk, OnErr};
ghost use Rattle.std.specs.Option.{option_copied};
ghost use Rattle.sum_tree.specs.Spliced.{splice_list};
ghost use Rattle.fold_spans.specs.Spans.{some_open, text_sum, shown_sum, AreSpans};
ghost use Rattle.fold_spans.specs.Found.{IsTextSpan, IsShownSpan};

use crate::OutOfMemory;
use crate::lengths::{ByShown, ByText, Lengths};
use crate::span::Span;
use std::alloc::Global;
use std::marker::Model;
use sum_tree::SumTree;
use tree_cursor::{Bias, look_up};

/// The spans of a text with folds, in the order of the text. Contracts see their list.
///
/// A span has a byte of the text, unless folds wait in it. Both lengths are less than 2^64, and there are at most 2^40 spans.
#[derive(Drop)]
pub struct Spans {
    pub(crate) tree: SumTree<Span>,
}

impl Model for Spans {
    ghost use Rattle.std.specs.Prelude.{List};
    ghost use Rattle.fold_spans.specs.declared.span.Span.{Span};

    ghost Value = { List Span };

    ghost use Rattle.fold_spans.specs.Spans.{AreSpans};

    ghost view = { λ spans. spans.tree.items };

    ghost invariant = { λ spans. AreSpans spans.tree.items };
}

impl Spans {
    /// The spans of a text of `len` bytes without folds: one open span, or none if the text is empty. Makes one node.
    ///
    /// # Errors
    ///
    /// Fails only if an allocation fails.
    pub fn new(alloc: Global, len: u64) -> Result<Spans, OutOfMemory>
        ensures { IfOk result (λ spans. spans ≡ some_open len) }
    {
        let tree = if len == 0 {
            SumTree::new(alloc)?
        } else {
            SumTree::from_item(alloc, Span::Open { len })?
        };
        Ok(Spans { tree })
    }

    /// The same spans, with the same nodes, in constant time.
    ///
    /// # Errors
    ///
    /// Fails only if `Arc` cannot count another owner.
    pub fn share(&self) -> Result<Spans, OutOfMemory>
        ensures { IfOk result (λ spans. spans ≡ self.now) }
    {
        let tree = self.tree.share()?;
        Ok(Spans { tree })
    }

    /// The spans as a tree, for walks over all of them. Does not allocate.
    pub fn tree(&self) -> &SumTree<Span>
        ensures { result.now.items ≡ self.now }
    {
        &self.tree
    }

    /// The number of spans. Does not allocate.
    pub fn len(&self) -> u64
        ensures { result ≡ length self.now }
    {
        self.tree.len()
    }

    /// The length of the text, in bytes. Does not allocate.
    pub fn text_len(&self) -> u64
        ensures { result ≡ text_sum self.now }
    {
        self.tree.summary().text
    }

    /// The length of what is shown, in bytes. Does not allocate.
    pub fn shown_len(&self) -> u64
        ensures { result ≡ shown_sum self.now }
    {
        self.tree.summary().shown
    }

    /// The span with the byte `offset` of the text, and what lies before it; None, and the lengths of all spans, if the text has
    /// no such byte.
    ///
    /// One descent, in O(log n) for n spans. Does not allocate.
    pub fn at_text(&self, offset: u64) -> (Option<&Span>, Lengths)
        ensures { IsTextSpan self.now offset (option_copied result.0) result.1 }
    {
        self.tree.known();
        look_up(&self.tree, Lengths::none(), &ByText(offset), Bias::Right)
    }

    /// The span that shows the byte `offset` of what is shown, and what lies before it; None, and the lengths of all spans, if no
    /// such byte is shown.
    ///
    /// One descent, in O(log n) for n spans. Does not allocate.
    pub fn at_shown(&self, offset: u64) -> (Option<&Span>, Lengths)
        ensures { IsShownSpan self.now offset (option_copied result.0) result.1 }
    {
        self.tree.known();
        look_up(&self.tree, Lengths::none(), &ByShown(offset), Bias::Right)
    }

    /// Replaces the spans `from..to` by others. The result must have at most 2^40 spans and lengths less than 2^64.
    ///
    /// O(log n) for n spans, and what is replaced; nodes that no other `Spans` shares are changed in place.
    ///
    /// # Errors
    ///
    /// Fails only if an allocation fails. The spans are then as before, and the new ones are dropped.
    pub fn replace(
        &mut self,
        alloc: Global,
        from: u64,
        to: u64,
        spans: Vec<Span>,
    ) -> Result<(), OutOfMemory>
        requires order { from ≤ to }
        requires within { to ≤ length self.old }
        requires spans { AreSpans spans.items }
        requires short { length (splice_list from to spans.items self.old) ≤ 2 ^ 40 }
        requires text { text_sum (splice_list from to spans.items self.old) < 2 ^ 64 }
        requires shown { shown_sum (splice_list from to spans.items self.old) < 2 ^ 64 }
        ensures ok { OnOk result (self.new ≡ splice_list from to spans.items self.old) }
        ensures err { OnErr result (self.new ≡ self.old) }
    {
        self.tree.splice(alloc, from, to, spans)
    }

    /// What holds of all spans, for callers that see only their list. Does nothing when it runs.
    pub fn known(&self)
        ensures spans { AreSpans self.now }
        ensures short { length self.now ≤ 2 ^ 40 }
        ensures text { text_sum self.now < 2 ^ 64 }
        ensures shown { shown_sum self.now < 2 ^ 64 }
    {
        self.tree.known();
    }
}

//! Spans, and the numbers of the folds in them.
ghost use Rattle.std.specs.Prelude.{◌≡◌, [], ◌∷◌, ◌++◌, IfOk, OnOk, OnErr};
ghost use Rattle.fold_spans.specs.Spans.{span_len, shown_span, span_folds};

use crate::OutOfMemory;
use std::alloc::Global;
use std::marker::Model;

/// Numbers of folds, seen as their list.
#[derive(Drop)]
pub struct Numbers {
    list: Vec<u64>,
}

impl Model for Numbers {
    ghost use Rattle.std.specs.Prelude.{List, ℕ};

    ghost Value = { List ℕ };

    ghost view = { λ numbers. numbers.list.items };
}

impl Numbers {
    /// The numbers of this list. Does not allocate.
    pub fn new(list: Vec<u64>) -> Numbers
        ensures { result ≡ list.items }
    {
        Numbers { list }
    }

    // A list of one number.
    pub(crate) fn one(alloc: Global, number: u64) -> Result<Numbers, OutOfMemory>
        ensures { IfOk result (λ numbers. numbers ≡ number ∷ []) }
    {
        let mut list = Vec::new(alloc);
        list.push(number)?;
        Ok(Numbers { list })
    }

    // Puts a number last.
    pub(crate) fn push(&mut self, number: u64) -> Result<(), OutOfMemory>
        ensures ok { OnOk result (self.new ≡ self.old ++ number ∷ []) }
        ensures err { OnErr result (self.new ≡ self.old) }
    {
        self.list.push(number)?;
        Ok(())
    }

    /// The numbers, in order. Does not allocate.
    pub fn as_slice(&self) -> &[u64]
        ensures { result.now ≡ self.now }
    {
        &self.list
    }

    /// A copy.
    ///
    /// # Errors
    ///
    /// Fails only if an allocation fails.
    pub fn copy(&self, alloc: Global) -> Result<Numbers, OutOfMemory>
        ensures { IfOk result (λ numbers. numbers ≡ self.now) }
    {
        let list = Vec::from_slice(alloc, &self.list)?;
        Ok(Numbers { list })
    }
}

/// Some neighbouring bytes of a text that are shown alike, or a place between two bytes where folds wait.
#[derive(Drop)]
pub enum Span {
    /// Bytes that are shown as they are: at least one.
    Open { len: u64 },
    /// Bytes that are shown as one ⋯: at least one. `folds` has the numbers of the folds whose ranges lie in it.
    Fold { len: u64, folds: Numbers },
    /// No bytes: `folds` has the numbers of folds that hold nothing, at a place that is not inside a ⋯.
    Waiting { folds: Numbers },
}

/// The number of bytes that a ⋯ has.
pub const ELLIPSIS_BYTES: u64 = 3;

impl Span {
    /// The number of the text's bytes in the span. Does not allocate.
    pub fn len(&self) -> u64
        ensures { result ≡ span_len self.now }
    {
        match self {
            Span::Open { len } | Span::Fold { len, .. } => *len,
            Span::Waiting { .. } => 0,
        }
    }

    /// The number of bytes that are shown for the span. Does not allocate.
    pub fn shown_len(&self) -> u64
        ensures { result ≡ shown_span self.now }
    {
        match self {
            Span::Open { len } => *len,
            Span::Fold { .. } => ELLIPSIS_BYTES,
            Span::Waiting { .. } => 0,
        }
    }

    /// The numbers of the folds in the span. Does not allocate.
    pub fn folds(&self) -> &[u64]
        ensures { result.now ≡ span_folds self.now }
    {
        match self {
            Span::Open { .. } => &[],
            Span::Fold { folds, .. } | Span::Waiting { folds } => folds.as_slice(),
        }
    }
}

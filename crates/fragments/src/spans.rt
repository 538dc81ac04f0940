//! The least and the greatest value of some stamps, by replica.
ghost use Rattle.std.specs.Prelude.{◌≡◌, ◌≤◌, ◌<◌, ◌∷◌, [], length, min, max, None, IsOk, IfOk, IfSome, OnErr, OnOk, true, false};
ghost use Rattle.fragments.specs.declared.spans.Span.{Span};
ghost use Rattle.fragments.specs.Spans.{hull, with_span, join_spans, spans_before, has_replica, has_replicas, covers, covers_all, IsSpanAt, sees_all, sees_none};
ghost use Rattle.fragments.specs.declared.spans.Sight.{Sight};

use crate::OutOfMemory;
use lamport_clock::Version;
use smallvec::SmallVec;
use std::alloc::Global;
use std::marker::Model;

/// The number of spans that are stored inline.
pub const INLINE_SPANS: usize = 4;

/// The least and the greatest value of one replica's stamps.
#[derive(Clone, Copy, Debug, Default, PartialEq, Eq)]
pub struct Span {
    pub replica: u16,
    pub least: u32,
    pub greatest: u32,
}

impl Span {
    // The least span that has both, at the replica of the first.
    fn hull(self, other: Span) -> Span
        ensures { result ≡ hull self other }
    {
        Span {
            replica: self.replica,
            least: self.least.min(other.least),
            greatest: self.greatest.max(other.greatest),
        }
    }
}

/// Which of some stamps a version sees.
#[derive(Clone, Copy, Debug, PartialEq, Eq)]
pub enum Sight {
    /// All of them; also if there are none.
    All,
    /// None of them.
    Nothing,
    /// Possibly some of them and not others.
    Part,
}

/// A list of spans. Contracts see it as that list.
///
/// The spans of a summary are one for each replica, replicas ascending. The type itself keeps no such order: it is part
/// of the law of summaries (`IsSummary`), and every sum of fragments has it.
///
/// Up to [`INLINE_SPANS`] spans are stored inline.
#[derive(Drop)]
pub struct Spans {
    inner: SmallVec<Span, INLINE_SPANS>,
}

impl Model for Spans {
    ghost use Rattle.std.specs.Prelude.{List};
    ghost use Rattle.fragments.specs.declared.spans.Span.{Span};

    ghost Value = { List Span };

    ghost view = { λ s. s.inner.items };
}

impl Spans {
    /// An empty list. Does not allocate.
    pub fn new(alloc: Global) -> Spans
        ensures { result ≡ [] }
    {
        Spans {
            inner: SmallVec::new(alloc),
        }
    }

    /// A list of one span. Does not allocate and never fails.
    pub fn of(alloc: Global, span: Span) -> Result<Spans, OutOfMemory>
        ensures span { IfOk result (λ s. s ≡ span ∷ []) }
        ensures succeeds { IsOk result }
    {
        Ok(Spans {
            inner: SmallVec::from_slice(alloc, &[span])?,
        })
    }

    /// The spans of a `Vec`, in its order. Does not allocate: a `Vec` with room for more than [`INLINE_SPANS`] keeps
    /// its buffer.
    pub fn from_vec(spans: Vec<Span>) -> Spans
        ensures { result ≡ spans.items }
    {
        Spans {
            inner: SmallVec::from_vec(spans),
        }
    }

    /// The spans, in order. Does not allocate.
    pub fn as_slice(&self) -> &[Span]
        ensures { result.now ≡ self.now }
    {
        self.inner.as_slice()
    }

    // The spans of both joined. Or `None` if each replica of the others has a span here: then `join` does it in place,
    // and cannot fail. O(n m).
    pub(crate) fn wider(&self, alloc: Global, others: &Spans) -> Result<Option<Spans>, OutOfMemory>
        ensures some { IfOk result (λ o. IfSome o (λ s. s ≡ join_spans self.now others.now)) }
        ensures none { IfOk result (λ o. o ≡ None → has_replicas self.now others.now ≡ true) }
    {
        if has_replicas(self.as_slice(), others.as_slice()) {
            return Ok(None);
        }
        let mut inner = SmallVec::from_slice(alloc, self.as_slice())?;
        for span in others.as_slice() {
            widen(&mut inner, *span)?;
        }
        Ok(Some(Spans { inner }))
    }

    // Widens the span of a replica, in place.
    fn widen_here(&mut self, span: Span)
        requires { has_replica self.old span.replica ≡ true }
        ensures { self.new ≡ with_span span self.old }
    {
        let at = place_in(self.as_slice(), span.replica);
        let old = self.as_slice()[at];
        self.inner.as_mut_slice()[at] = old.hull(span);
    }

    // Widens the spans by those of the others, in place. O(n m), does not allocate.
    pub(crate) fn join(&mut self, others: &Spans)
        requires { has_replicas self.old others.now ≡ true }
        ensures { self.new ≡ join_spans self.old others.now }
    {
        for span in others.as_slice() {
            self.widen_here(*span);
        }
    }

    // The same spans.
    pub(crate) fn copy(&self, alloc: Global) -> Result<Spans, OutOfMemory>
        ensures { IfOk result (λ s. s ≡ self.now) }
    {
        Ok(Spans {
            inner: SmallVec::from_slice(alloc, self.as_slice())?,
        })
    }

    // The spans of both joined.
    pub(crate) fn joined(&self, alloc: Global, others: &Spans) -> Result<Spans, OutOfMemory>
        ensures { IfOk result (λ s. s ≡ join_spans self.now others.now) }
    {
        match self.wider(alloc, others)? {
            Some(spans) => Ok(spans),
            None => {
                let mut spans = self.copy(alloc)?;
                spans.join(others);
                Ok(spans)
            }
        }
    }

    // Whether the spans have all stamps of the others. O(n m), does not allocate.
    pub(crate) fn covers(&self, others: &Spans) -> bool
        ensures { result ≡ covers_all self.now others.now }
    {
        for span in others.as_slice() {
            if !covers(self.as_slice(), *span) {
                return false;
            }
        }
        true
    }

    /// Which of the stamps of these spans the version sees. Reads each span once, and stops once the answer is `Part`.
    /// Does not allocate.
    pub fn sight(&self, version: &Version) -> Sight
        ensures all { result ≡ Sight.All → sees_all version.now self.now ≡ true }
        ensures nothing { result ≡ Sight.Nothing
            → (sees_all version.now self.now ≡ false) × (sees_none version.now self.now ≡ true) }
        ensures part { result ≡ Sight.Part
            → (sees_all version.now self.now ≡ false) × (sees_none version.now self.now ≡ false) }
    {
        let mut all = true;
        let mut none = true;
        for span in self.as_slice() {
            let seen = version.get(span.replica);
            all = all && span.greatest <= seen;
            none = none && seen < span.least;
            if !all && !none {
                return Sight::Part;
            }
        }
        if all { Sight::All } else { Sight::Nothing }
    }
}

// The number of spans before the place of a replica.
fn place_in(spans: &[Span], r: u16) -> usize
    ensures place { result ≡ spans_before spans.now r }
    ensures within { result ≤ length spans.now }
{
    let mut at = 0;
    while at < spans.len() && spans[at].replica < r {
        at += 1;
    }
    at
}

// Whether the replica has a span.
fn has_replica(spans: &[Span], r: u16) -> bool
    ensures { result ≡ has_replica spans.now r }
{
    for span in spans {
        if r <= span.replica {
            return span.replica == r;
        }
    }
    false
}

// Whether the spans have all stamps of this one.
fn covers(spans: &[Span], span: Span) -> bool
    ensures { result ≡ covers spans.now span }
{
    for other in spans {
        if span.replica <= other.replica {
            return other.replica == span.replica
                && other.least <= span.least
                && span.greatest <= other.greatest;
        }
    }
    false
}

// Whether each replica of the others has a span.
fn has_replicas(spans: &[Span], others: &[Span]) -> bool
    ensures { result ≡ has_replicas spans.now others.now }
{
    for span in others {
        if !has_replica(spans, span.replica) {
            return false;
        }
    }
    true
}

// The span at an index, if it is the replica's.
fn span_at(spans: &[Span], at: usize, r: u16) -> Option<Span>
    ensures { IsSpanAt spans.now at r result }
{
    match spans.get(at) {
        Some(span) if span.replica == r => Some(*span),
        _ => None,
    }
}

// Widens the replica's span, or inserts one.
fn widen(spans: &mut SmallVec<Span, INLINE_SPANS>, span: Span) -> Result<(), OutOfMemory>
    ensures ok { OnOk result (spans.new.items ≡ with_span span spans.old.items) }
    ensures err { OnErr result (spans.new.items ≡ spans.old.items) }
{
    let at = place_in(spans.as_slice(), span.replica);
    if let Some(old) = span_at(spans.as_slice(), at, span.replica) {
        spans.as_mut_slice()[at] = old.hull(span);
        return Ok(());
    }
    match spans.insert(at, span) {
        Ok(()) => Ok(()),
        Err(_) => Err(OutOfMemory),
    }
}

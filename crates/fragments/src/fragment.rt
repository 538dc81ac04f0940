//! Fragments and their summaries.
ghost use Rattle.std.specs.Prelude.{◌≡◌, ◌+◌, IfOk, IfSome, OnErr, OnOk, true, if◌then◌else◌};
ghost use Rattle.std.specs.Option.{option_copied};
ghost use Rattle.fragments.specs.Summaries.{no_fragments, summaries, IsSummary, SummaryFits, IsOne, summary_of, with_stamps, greater_id, all_but_id, Absorbs};
ghost use Rattle.fragments.specs.SummaryLaws.{summary_laws, one_admitted, one_single};

use crate::{OutOfMemory, Span, Spans, Stamps};
use lamport_clock::{Lamport, Version};
use locators::Locator;
use std::alloc::Global;
use sum_tree::{Exchange, Item, Summary};

/// A run of cells of one edit that have the same status: shown or hidden, and by which edits they are deleted.
///
/// A cell is a byte that an edit inserted, hidden or not. Its number is its index among all bytes of that edit.
#[derive(Drop)]
pub struct Fragment {
    /// Its place among all fragments, whose ids ascend.
    pub id: Locator,
    /// The edit that inserted the cells.
    pub stamp: Lamport,
    /// The number of the first cell.
    pub offset: u64,
    /// The number of cells, at least one.
    pub len: u64,
    /// Whether the cells are shown.
    pub visible: bool,
    /// The edits that delete the cells, the one with the greatest stamp first.
    pub deletions: Stamps,
    /// A version that sees every undo or redo of the edit or of one of the deletions.
    pub max_undos: Version,
}

/// The summary of a run of fragments.
#[derive(Drop)]
pub struct FragmentSummary {
    /// The number of shown cells.
    pub visible: u64,
    /// The number of hidden cells.
    pub hidden: u64,
    /// The greatest id, `None` if there is no fragment.
    pub last_id: Option<Locator>,
    /// The least and the greatest value of the fragments' stamps, by replica.
    pub span: Spans,
    /// A version that sees the stamps, the deletions and the undos.
    pub greatest: Version,
}

impl Summary for FragmentSummary {
    ghost empty = { no_fragments };

    ghost op = { summaries };

    ghost admits = { IsSummary };

    ghost fits = { SummaryFits };

    ghost single = { IsOne };

    ghost laws = { summary_laws };

    fn zero(alloc: Global) -> FragmentSummary {
        FragmentSummary {
            visible: 0,
            hidden: 0,
            last_id: None,
            span: Spans::new(alloc),
            greatest: Version::new(alloc),
        }
    }

    fn add(&mut self, alloc: Global, other: &FragmentSummary) -> Result<(), OutOfMemory> {
        let last_id = copy_id(
            alloc,
            greater_id(self.last_id.as_ref(), other.last_id.as_ref()),
        )?;
        self.add_all_but_id(alloc, other)?;
        self.last_id = last_id;
        Ok(())
    }

    // Ids ascend, so the next sum's id replaces the other's, which need not be copied.
    fn add_before(
        &mut self,
        alloc: Global,
        other: &FragmentSummary,
        next: &FragmentSummary,
    ) -> Result<(), OutOfMemory> {
        if !gives_way(other.last_id.as_ref(), next.last_id.as_ref()) {
            return self.add(alloc, other);
        }
        self.add_all_but_id(alloc, other)
    }
}

impl Exchange for FragmentSummary {
    fn copy(&self, alloc: Global) -> Result<FragmentSummary, OutOfMemory> {
        Ok(FragmentSummary {
            visible: self.visible,
            hidden: self.hidden,
            last_id: copy_id(alloc, self.last_id.as_ref())?,
            span: self.span.copy(alloc)?,
            greatest: self.greatest.copy(alloc)?,
        })
    }

    // What goes out is no longer known by itself, so what is put in must have its id, stamps and versions too.
    fn exchange(
        &self,
        alloc: Global,
        out: &FragmentSummary,
        put: &FragmentSummary,
    ) -> Result<Option<FragmentSummary>, OutOfMemory> {
        if !put.absorbs(out) {
            return Ok(None);
        }
        let Some(visible) = exchanged(self.visible, out.visible, put.visible) else {
            return Ok(None);
        };
        let Some(hidden) = exchanged(self.hidden, out.hidden, put.hidden) else {
            return Ok(None);
        };
        let last_id = greater_id(self.last_id.as_ref(), put.last_id.as_ref());
        let mut greatest = self.greatest.copy(alloc)?;
        greatest.join(&put.greatest)?;
        Ok(Some(FragmentSummary {
            visible,
            hidden,
            last_id: copy_id(alloc, last_id)?,
            span: self.span.joined(alloc, &put.span)?,
            greatest,
        }))
    }
}

// A number of cells after a part of them is replaced.
fn exchanged(whole: u64, out: u64, put: u64) -> Option<u64>
    ensures { IfSome result (λ n. n + out ≡ whole + put) }
{
    whole.checked_sub(out)?.checked_add(put)
}

impl FragmentSummary {
    // Whether to join the other changes nothing but the numbers of cells. Does not allocate.
    fn absorbs(&self, other: &FragmentSummary) -> bool
        ensures { result ≡ true → Absorbs self.now other.now }
    {
        id_absorbs(self.last_id.as_ref(), other.last_id.as_ref())
            && self.span.covers(&other.span)
            && self.greatest.sees_all(&other.greatest)
    }

    // Adds a sum, but keeps this one's id. The spans are put in place only after the last step that can fail.
    fn add_all_but_id(&mut self, alloc: Global, other: &FragmentSummary) -> Result<(), OutOfMemory>
        requires { SummaryFits (summaries self.old other.now) }
        ensures ok { OnOk result (self.new ≡ all_but_id self.old other.now) }
        ensures err { OnErr result (self.new ≡ self.old) }
    {
        let wider = self.span.wider(alloc, &other.span)?;
        self.greatest.join(&other.greatest)?;
        match wider {
            Some(span) => self.span = span,
            None => self.span.join(&other.span),
        }
        self.visible += other.visible;
        self.hidden += other.hidden;
        Ok(())
    }
}

// The greater of two ids, the first if they are equal.
pub(crate) fn greater_id<'a>(a: Option<&'a Locator>, b: Option<&'a Locator>) -> Option<&'a Locator>
    ensures { option_copied result ≡ greater_id (option_copied a.entry) (option_copied b.entry) }
{
    match (a, b) {
        (None, b) => b,
        (a, None) => a,
        (Some(x), Some(y)) if x.cmp(y).is_lt() => Some(y),
        (Some(x), Some(_)) => Some(x),
    }
}

// Whether the greater of two ids is the second and not the first.
fn gives_way(id: Option<&Locator>, next: Option<&Locator>) -> bool
    ensures { result ≡ true → greater_id (option_copied id.entry) (option_copied next.entry)
        ≡ option_copied next.entry }
{
    match (id, next) {
        (None, _) => true,
        (Some(_), None) => false,
        (Some(x), Some(y)) => x.cmp(y).is_lt(),
    }
}

// Whether the other id is not the greater of the two.
fn id_absorbs(id: Option<&Locator>, other: Option<&Locator>) -> bool
    ensures { result ≡ true → greater_id (option_copied other.entry) (option_copied id.entry)
        ≡ option_copied id.entry }
{
    match (other, id) {
        (None, _) => true,
        (Some(_), None) => false,
        (Some(x), Some(y)) => x.cmp(y).is_le(),
    }
}

fn copy_id(alloc: Global, id: Option<&Locator>) -> Result<Option<Locator>, OutOfMemory>
    ensures { IfOk result (λ o. o ≡ option_copied id.entry) }
{
    match id {
        None => Ok(None),
        Some(id) => Ok(Some(id.copy(alloc)?)),
    }
}

impl Item for Fragment {
    type Summary = FragmentSummary;

    ghost sum_of = { summary_of };

    ghost admitted = { one_admitted };

    ghost is_single = { one_single };

    fn summary(&self, alloc: Global) -> Result<FragmentSummary, OutOfMemory> {
        let span = Span {
            replica: self.stamp.replica,
            least: self.stamp.value,
            greatest: self.stamp.value,
        };
        Ok(FragmentSummary {
            visible: if self.visible { self.len } else { 0 },
            hidden: if self.visible { 0 } else { self.len },
            last_id: Some(self.id.copy(alloc)?),
            span: Spans::of(alloc, span)?,
            greatest: greatest_of(alloc, self)?,
        })
    }

    fn copy(&self, alloc: Global) -> Result<Fragment, OutOfMemory> {
        Ok(Fragment {
            id: self.id.copy(alloc)?,
            stamp: self.stamp,
            offset: self.offset,
            len: self.len,
            visible: self.visible,
            deletions: self.deletions.copy(alloc)?,
            max_undos: self.max_undos.copy(alloc)?,
        })
    }
}

// A version that sees a fragment's stamp, its deletions and its undos. Fails only if an allocation fails.
fn greatest_of(alloc: Global, fragment: &Fragment) -> Result<Version, OutOfMemory>
    ensures { IfOk result (λ v. v ≡ (summary_of fragment.now).greatest) }
{
    let _kept = fragment.max_undos.as_slice();
    let mut version = fragment.max_undos.copy(alloc)?;
    version.observe(fragment.stamp)?;
    for stamp in fragment.deletions.as_slice() {
        version.observe(*stamp)?;
    }
    Ok(version)
}

//! The buffer of one replica.
ghost use Rattle.std.specs.Prelude.{◌≡◌, ◌<◌, ◌≤◌, ◌^◌, ◌-◌, ◌+◌, ◌⊎◌, ◌++◌, ◌∷◌, [], length, IfOk, IfErr, OnErr, OnOk, None, Some, option_map, string_bytes, true, false};
ghost use Rattle.std.specs.List.{list_any};
ghost use Rattle.op_model.specs.Histories.{SameSet, clock, version};
ghost use Rattle.op_model.specs.Limited.{excess};
ghost use Rattle.op_model.specs.Domains.{IsProper};
ghost use Rattle.op_model.specs.Answers.{shape_fault};
ghost use Rattle.op_model.specs.Answers.Answer.{Good};
ghost use Rattle.op_model.specs.Made.{local_edit, local_edit_fault};
ghost use Rattle.op_model.specs.Rules.{answer_under, is_return, lf, pieces_under, rule_fault, text_under};
ghost use Rattle.op_model.specs.Settled.{full_fault};
ghost use Rattle.op_model.specs.Edits.{replace_ranges};
ghost use Rattle.op_model.specs.Steps.{new_state};
ghost use Rattle.op_model.specs.Steps.Step.{Edits};
ghost use Rattle.op_model.specs.Shown.{full, text};
ghost use Rattle.op_model.specs.declared.endings.Endings.TheVariants.{AsIs, Lf};
ghost use Rattle.remote_edit.specs.Fragments.{fragments_of};
ghost use Rattle.text_dims.specs.Summaries.{summary_of};
ghost use Rattle.text_buffer.specs.Buffer.{BufferState, IsBuffer, after_call, after_apply, base_under, edit_fault, after_edit, edit_of, new_fault, over_base, rules, state};
ghost use Rattle.text_buffer.specs.Costs.{IsEditCost};
ghost use Rattle.text_buffer.specs.Document.{excess_of};
ghost use Rattle.text_buffer.specs.EditResult.{IsEditResult};
ghost use Rattle.text_buffer.specs.Entering.{is_rewritten};

use crate::base::Base;
use crate::document::Document;
use crate::entering::{entered_total, is_rewritten, lf_pieces};
use crate::faults::{Excess, length_fault, text_fault};
use crate::pieces::size;
use crate::{Endings, NewFault, OutOfMemory, Refused};
use deferred_ops::Deferred;
use fragments::Fragment;
use lamport_clock::{Lamport, Version};
use op_model::{EditFault, Limits, OpFault, Operation, Piece, TEXT_LIMIT};
use rope_edits::piece_fault;
use std::alloc::Global;
use std::marker::{Brand, Model};
use std::sync::ledger::{Blank, Ledger};
use sum_tree::{Steps, SumTree};
use text_dims::TextSummary;

/// A replica's text, and the operations that made it. Contracts see the operations in the order in which they were
/// applied, the base first, those that wait, those that were refused while settling, the replica's id, the limits, and
/// what the buffer does with line endings; everything else is a function of these. Each applied operation is good
/// against those before it.
///
/// A buffer of [`Buffer::new_lf`] has LFs alone: each CR LF of a text that it is handed, and each other CR, enters as
/// one LF, and an operation with a CR is refused. So all buffers of one document have to be made alike: what a buffer
/// of [`Buffer::new`] writes with a CR is refused by the others for ever, and whatever depends on it waits for ever.
///
/// # Examples
///
/// Each call stands in a function of this repository, of a program or of a test:
///
/// - `new`: `main` of `crates/embed/src/main.rt`; `over`, with [`Base::new`]: `count_over` and `count_twice` of
///   `crates/buffer_tests/src/cases.rt`; `new_lf`: `open_lf` there; `endings`: `enters` of
///   `crates/buffer_tests/src/entering.rt`; `open`: `reopened` of `crates/buffer_tests/src/openings.rt`
/// - `edit_uncounted`: `replace` of `crates/embed/src/main.rt`; `edit`, with a counter: `edit_with` of
///   `crates/buffer_tests/src/counted.rt`
/// - `take`: `edit_both` of `crates/embed/src/main.rt`; `settle` and `undo`: the functions of these names of
///   `crates/buffer_tests/src/steps.rt`; `forget`: `forget_newest` of `crates/buffer_tests/src/forgotten.rt`
/// - `text` and `snapshot`: `show` of `crates/embed/src/main.rt`
/// - `summary`, and `known`, which is for proofs: `text_len` of `crates/session_work/src/replica.rt`
/// - `version` and `applied`: `new_operation` of `crates/buffer_tests/src/groups.rt`; `deferred` and `refused`: `keeps` of
///   `crates/buffer_tests/src/steps.rt`
#[derive(Drop)]
pub struct Buffer {
    pub(crate) alloc: Global,
    pub(crate) replica: u16,
    pub(crate) document: Document,
    pub(crate) waiting: Deferred,
    pub(crate) refused: Vec<Refused>,
    pub(crate) limits: Limits,
    pub(crate) endings: Endings,
}

impl Model for Buffer {
    ghost use Rattle.text_buffer.specs.Buffer.{BufferState};

    ghost Value = { BufferState };

    ghost use Rattle.text_buffer.specs.BufferInside.{state_of, IsBufferInside};

    ghost view = { state_of };

    ghost invariant = { IsBufferInside };
}

impl Buffer {
    /// The buffer of a replica, 1 to 1023, over a base text, with limits of at most 2^40 bytes and 2^40 - 1 entries.
    /// Texts enter it as they are. Linear in the base.
    ///
    /// # Errors
    ///
    /// `Full`, with 0 held, exactly where the base has more bytes than the limit. `OutOfMemory` if an allocation fails, and only
    /// where the base is within the limit.
    pub fn new(alloc: Global, replica: u16, base: &str, limits: Limits) -> Result<Buffer, NewFault>
        requires least { 1 ≤ replica }
        requires greatest { replica ≤ 1023 }
        requires bytes { limits.bytes ≤ 2 ^ 40 }
        requires entries { limits.entries ≤ 2 ^ 40 - 1 }
        ensures ok { OnOk result (new_fault limits base.now ≡ None) }
        ensures new { IfOk result (λ b. b ≡ over_base replica (base_under AsIs base.now) limits) }
        ensures opened { IfOk result (λ b. state b ≡ new_state base.now) }
        ensures fault { IfErr result (λ e. (new_fault limits base.now ≡ Some e)
            ⊎ ((new_fault limits base.now ≡ None) × (e ≡ NewFault.OutOfMemory))) }
    {
        Buffer::under(alloc, replica, Endings::AsIs, base, limits)
    }

    /// The buffer of a replica that has LFs alone, over a base text: in the base, and in each new text of
    /// [`Buffer::edit`], each CR LF and each other CR becomes one LF, one text at a time, before its bytes are counted.
    /// So offsets count the bytes of the texts as they entered:
    ///
    /// ```text
    /// "a\r\nb"        61 0d 0a 62        enters as  61 0a 62
    /// "a\rb"          61 0d 62           enters as  61 0a 62
    /// "a\r\r\nb"      61 0d 0d 0a 62     enters as  61 0a 0a 62
    /// "a\n\rb"        61 0a 0d 62        enters as  61 0a 0a 62
    /// "a\r", "\nb"    61 0d, 0a 62       enter as   61 0a, 0a 62, two texts side by side
    /// ```
    ///
    /// The replica's id and the limits are as for [`Buffer::new`]. Linear in the base, of which one copy is made.
    ///
    /// # Errors
    ///
    /// `Full`, with 0 held, exactly where the base, as it enters, has more bytes than the limit. `OutOfMemory` if an
    /// allocation fails, and only where the base is within the limit.
    pub fn new_lf(
        alloc: Global,
        replica: u16,
        base: &str,
        limits: Limits,
    ) -> Result<Buffer, NewFault>
        requires least { 1 ≤ replica }
        requires greatest { replica ≤ 1023 }
        requires bytes { limits.bytes ≤ 2 ^ 40 }
        requires entries { limits.entries ≤ 2 ^ 40 - 1 }
        ensures ok { OnOk result (new_fault limits (lf base.now) ≡ None) }
        ensures new { IfOk result (λ b. b ≡ over_base replica (base_under Lf base.now) limits) }
        ensures opened { IfOk result (λ b. state b ≡ new_state (lf base.now)) }
        ensures fault { IfErr result (λ e. (new_fault limits (lf base.now) ≡ Some e)
            ⊎ ((new_fault limits (lf base.now) ≡ None) × (e ≡ NewFault.OutOfMemory))) }
    {
        Buffer::under(alloc, replica, Endings::Lf, base, limits)
    }

    // The buffer over a text, by what it does with line endings.
    fn under(
        alloc: Global,
        replica: u16,
        endings: Endings,
        base: &str,
        limits: Limits,
    ) -> Result<Buffer, NewFault>
        requires least { 1 ≤ replica }
        requires greatest { replica ≤ 1023 }
        requires bytes { limits.bytes ≤ 2 ^ 40 }
        requires entries { limits.entries ≤ 2 ^ 40 - 1 }
        ensures ok { OnOk result (new_fault limits (text_under endings base.now) ≡ None) }
        ensures new { IfOk result
            (λ b. b ≡ over_base replica (base_under endings base.now) limits) }
        ensures fault { IfErr result
            (λ e. (new_fault limits (text_under endings base.now) ≡ Some e)
            ⊎ ((new_fault limits (text_under endings base.now) ≡ None)
            × (e ≡ NewFault.OutOfMemory))) }
    {
        match text_fault(endings, limits.bytes, base) {
            Some(fault) => Err(fault),
            None => Ok(Buffer::over_text(alloc, replica, endings, base, limits)?),
        }
    }

    // The buffer over a text that is within the limits once it has entered.
    fn over_text(
        alloc: Global,
        replica: u16,
        endings: Endings,
        base: &str,
        limits: Limits,
    ) -> Result<Buffer, OutOfMemory>
        requires least { 1 ≤ replica }
        requires greatest { replica ≤ 1023 }
        requires bytes { limits.bytes ≤ 2 ^ 40 }
        requires entries { limits.entries ≤ 2 ^ 40 - 1 }
        requires room { length (text_under endings base.now) ≤ limits.bytes }
        ensures { IfOk result (λ b. b ≡ over_base replica (base_under endings base.now) limits) }
    {
        let ready = Base::over(alloc, endings, base)?;
        Buffer::begin(alloc, replica, &ready, limits)
    }

    /// The buffer of a replica, 1 to 1023, over a base that was made ready, with limits of at most 2^40 bytes and
    /// 2^40 - 1 entries. It does with line endings what the base says. All buffers over a base share it: nothing is
    /// copied, so the time does not grow with the base.
    ///
    /// # Errors
    ///
    /// `Full`, with 0 held, exactly where the base has more bytes than the limit. `OutOfMemory` if an allocation fails, and only
    /// where the base is within the limit.
    pub fn over(
        alloc: Global,
        replica: u16,
        base: &Base,
        limits: Limits,
    ) -> Result<Buffer, NewFault>
        requires least { 1 ≤ replica }
        requires greatest { replica ≤ 1023 }
        requires bytes { limits.bytes ≤ 2 ^ 40 }
        requires entries { limits.entries ≤ 2 ^ 40 - 1 }
        ensures ok { OnOk result (new_fault limits base.now.text ≡ None) }
        ensures new { IfOk result (λ b. b ≡ over_base replica base.now limits) }
        ensures opened { IfOk result (λ b. state b ≡ new_state base.now.text) }
        ensures fault { IfErr result (λ e. (new_fault limits base.now.text ≡ Some e)
            ⊎ ((new_fault limits base.now.text ≡ None) × (e ≡ NewFault.OutOfMemory))) }
    {
        match length_fault(limits.bytes, base.len()) {
            Some(fault) => Err(fault),
            None => Ok(Buffer::begin(alloc, replica, base, limits)?),
        }
    }

    // The buffer over a base that is within the limits.
    fn begin(
        alloc: Global,
        replica: u16,
        base: &Base,
        limits: Limits,
    ) -> Result<Buffer, OutOfMemory>
        requires least { 1 ≤ replica }
        requires greatest { replica ≤ 1023 }
        requires bytes { limits.bytes ≤ 2 ^ 40 }
        requires entries { limits.entries ≤ 2 ^ 40 - 1 }
        requires room { length base.now.text ≤ limits.bytes }
        ensures { IfOk result (λ b. b ≡ over_base replica base.now limits) }
    {
        base.known();
        let waiting = Deferred::new(alloc)?;
        Ok(Buffer {
            alloc,
            replica,
            document: base.document()?,
            waiting,
            refused: Vec::new(alloc),
            limits,
            endings: base.endings(),
        })
    }

    /// What the buffer does with the line endings of texts that enter it. If it is `Lf`, none of the bytes that the
    /// buffer keeps is a CR, shown or hidden. Constant time; does not allocate.
    pub fn endings(&self) -> Endings
        ensures endings { result ≡ self.now.endings }
        ensures returns { result ≡ Lf → list_any is_return (full self.now.history) ≡ false }
    {
        self.document.known();
        self.endings
    }

    /// The most that the buffer holds. Constant time; does not allocate.
    pub fn limits(&self) -> Limits
        ensures { result ≡ self.now.limits }
    {
        self.limits
    }

    /// Says what is true of every buffer, for callers' proofs. Does nothing when it runs.
    pub fn known(&self)
        ensures { IsBuffer self.now }
    {
        let _alloc = &self.alloc;
    }

    /// A copy of the text. Linear in its length.
    ///
    /// # Errors
    ///
    /// `OutOfMemory` if an allocation fails.
    pub fn text(&self) -> Result<String, OutOfMemory>
        ensures { IfOk result (λ s. string_bytes s ≡ text self.now.history) }
    {
        self.document.text().to_string(self.alloc)
    }

    /// The counts of the text: its bytes, its rows, where it ends. Constant time; does not allocate.
    pub fn summary(&self) -> &TextSummary
        ensures { result.now ≡ summary_of (text self.now.history) }
    {
        self.document.text().summary()
    }

    /// The greatest stamp value applied of each replica, the base's among them. Constant time; does not allocate.
    pub fn version(&self) -> &Version
        ensures { result.now ≡ version self.now.history }
    {
        self.document.version()
    }

    /// The runs of bytes that the buffer keeps, shown and hidden ones, in the order of the document. This is for tests and tools that
    /// look at how a text is kept. Constant time; does not allocate.
    pub fn fragments(&self) -> &SumTree<Fragment>
        ensures { result.now.items ≡ fragments_of self.now.history }
    {
        &self.document.content().fragments
    }

    /// Replaces ranges of the text, given in bytes and in order: each starts at or past the end of the one before it.
    /// Returns the operation, whose pieces count hidden bytes too, and keeps an equal one. Where the buffer has LFs
    /// alone, each new text enters without a CR, as [`Buffer::new_lf`] says, and the operation has the texts as they
    /// entered. Each range costs a few descents, what lies in it and its new text; the length of the whole text does
    /// not matter. A step is counted for each node that is made in the tree of fragments, the runs of bytes that the
    /// buffer keeps: for p changes whose ranges touch f of its fragments there are at most 256 (p + f + 1) (h + 1)
    /// steps, with or without a fault, for an h that may be the height of a tree with all these fragments: it is 0, or
    /// there are at least 2 * 6^h of them.
    ///
    /// # Errors
    ///
    /// Of the faults that the pieces meet the first in the order of `EditFault`, each for the first piece that meets
    /// it: `Reversed`, `Overlap` (with the piece before it), `PastEnd`, `InsideChar`; then `TextLimit` where the new
    /// texts have more than 65,536 bytes as they enter, `ClockEnd`, and `Full` where bytes, then entries, pass their
    /// limit. `OutOfMemory` if an allocation fails, and only where there is none of these. After an error the buffer is
    /// as before.
    pub fn edit<L: Ledger>(
        &mut self,
        changes: &[Piece],
        steps: &mut Steps<L>,
    ) -> Result<Operation, EditFault>
        ensures ok { OnOk result (edit_fault self.old changes.now ≡ None) }
        ensures made { IfOk result (λ op. op ≡ edit_of self.old changes.now) }
        ensures new { OnOk result (self.new ≡ after_edit self.old changes.now) }
        ensures history { IfOk result (λ op. self.new.history ≡ self.old.history ++ op ∷ []) }
        ensures text { OnOk result (text self.new.history
            ≡ replace_ranges (pieces_under self.old.endings changes.now)
            (text self.old.history)) }
        ensures fault { IfErr result (λ e. (edit_fault self.old changes.now ≡ Some e)
            ⊎ ((edit_fault self.old changes.now ≡ None) × (e ≡ EditFault.OutOfMemory))) }
        ensures err { OnErr result (self.new ≡ self.old) }
        ensures step { OnOk result (self.new ≡ after_call (Edits changes.now) self.old) }
        ensures refused { IfErr result (λ e. (self.new ≡ after_call (Edits changes.now) self.old)
            ⊎ (e ≡ EditFault.OutOfMemory)) }
        ensures cost { IsEditCost self.old.history changes.now (steps.new - steps.old) }
    {
        self.document.known_cost();
        let rewrites = is_rewritten(self.endings, changes);
        match self.fault(changes, rewrites) {
            Some(fault) => Err(fault),
            None => Ok(self.make_edit(changes, rewrites, steps)?),
        }
    }

    /// Does what [`Buffer::edit`] does, at the same cost, for callers that do not ask for its steps.
    ///
    /// # Errors
    ///
    /// Those of [`Buffer::edit`]. After an error the buffer is as before.
    pub fn edit_uncounted(&mut self, changes: &[Piece]) -> Result<Operation, EditFault>
        ensures ok { OnOk result (edit_fault self.old changes.now ≡ None) }
        ensures made { IfOk result (λ op. op ≡ edit_of self.old changes.now) }
        ensures new { OnOk result (self.new ≡ after_edit self.old changes.now) }
        ensures history { IfOk result (λ op. self.new.history ≡ self.old.history ++ op ∷ []) }
        ensures text { OnOk result (text self.new.history
            ≡ replace_ranges (pieces_under self.old.endings changes.now)
            (text self.old.history)) }
        ensures fault { IfErr result (λ e. (edit_fault self.old changes.now ≡ Some e)
            ⊎ ((edit_fault self.old changes.now ≡ None) × (e ≡ EditFault.OutOfMemory))) }
        ensures err { OnErr result (self.new ≡ self.old) }
        ensures step { OnOk result (self.new ≡ after_call (Edits changes.now) self.old) }
        ensures refused { IfErr result (λ e. (self.new ≡ after_call (Edits changes.now) self.old)
            ⊎ (e ≡ EditFault.OutOfMemory)) }
    {
        self.edit_with::<Brand>(changes, Blank::new(1))
    }

    // The same with a counter that is made from the blank.
    fn edit_with<L: Ledger>(
        &mut self,
        changes: &[Piece],
        blank: Blank,
    ) -> Result<Operation, EditFault>
        requires name { blank.name ≡ L.name }
        requires parts { blank.parts ≡ L.parts }
        requires some { 0 < blank.parts }
        ensures { IsEditResult self.old self.new changes.now result }
    {
        let mut steps = Steps::<L>::new(blank);
        self.edit(changes, &mut steps)
    }

    // Makes an edit that meets no fault; `rewrites` says whether one of its texts enters changed.
    fn make_edit<L: Ledger>(
        &mut self,
        changes: &[Piece],
        rewrites: bool,
        steps: &mut Steps<L>,
    ) -> Result<Operation, OutOfMemory>
        requires faultless { edit_fault self.old changes.now ≡ None }
        requires rewrites { rewrites ≡ is_rewritten self.old.endings changes.now }
        ensures made { IfOk result (λ op. op ≡ edit_of self.old changes.now) }
        ensures new { OnOk result (self.new ≡ after_edit self.old changes.now) }
        ensures text { OnOk result (text self.new.history
            ≡ replace_ranges (pieces_under self.old.endings changes.now)
            (text self.old.history)) }
        ensures err { OnErr result (self.new ≡ self.old) }
        ensures cost { IsEditCost self.old.history changes.now (steps.new - steps.old) }
    {
        if rewrites {
            return self.make_rewritten(changes, steps);
        }
        self.make_entered(changes, steps)
    }

    // The same where one of its texts enters changed.
    fn make_rewritten<L: Ledger>(
        &mut self,
        changes: &[Piece],
        steps: &mut Steps<L>,
    ) -> Result<Operation, OutOfMemory>
        requires faultless { edit_fault self.old changes.now ≡ None }
        requires rewritten { is_rewritten self.old.endings changes.now ≡ true }
        ensures made { IfOk result (λ op. op ≡ edit_of self.old changes.now) }
        ensures new { OnOk result (self.new ≡ after_edit self.old changes.now) }
        ensures text { OnOk result (text self.new.history
            ≡ replace_ranges (pieces_under self.old.endings changes.now)
            (text self.old.history)) }
        ensures err { OnErr result (self.new ≡ self.old) }
        ensures cost { IsEditCost self.old.history changes.now (steps.new - steps.old) }
    {
        self.document.known_cost();
        let entered = lf_pieces(self.alloc, changes)?;
        self.make_entered(entered.as_slice(), steps)
    }

    // Makes an edit of pieces that have entered and meet no fault.
    fn make_entered<L: Ledger>(
        &mut self,
        pieces: &[Piece],
        steps: &mut Steps<L>,
    ) -> Result<Operation, OutOfMemory>
        requires faultless { local_edit_fault self.old.limits self.old.history pieces.now ≡ None }
        requires rule { rule_fault self.old.endings
            (local_edit self.old.history self.old.replica pieces.now) ≡ None }
        ensures made { IfOk result
            (λ op. op ≡ local_edit self.old.history self.old.replica pieces.now) }
        ensures new { OnOk result (self.new
            ≡ after_apply self.old (local_edit self.old.history self.old.replica pieces.now)) }
        ensures text { OnOk result (text self.new.history
            ≡ replace_ranges pieces.now (text self.old.history)) }
        ensures err { OnErr result (self.new ≡ self.old) }
        ensures cost { IsEditCost self.old.history pieces.now (steps.new - steps.old) }
    {
        let made = self.document.make_edit(self.replica, pieces, steps)?;
        self.document.known();
        Ok(made)
    }

    // The fault that the pieces meet, if any; `rewrites` says whether one of their texts enters changed.
    #[tactic(auto, using(crate::proofs::LineEndings::piece_fault_under))]
    fn fault(&self, changes: &[Piece], rewrites: bool) -> Option<EditFault>
        requires { rewrites ≡ is_rewritten self.now.endings changes.now }
        ensures { result ≡ edit_fault self.now changes.now }
    {
        if let Some(fault) = piece_fault(self.document.text(), changes) {
            return Some(fault);
        }
        let total = entered_total(self.endings, changes, rewrites);
        if TEXT_LIMIT < total {
            return Some(EditFault::TextLimit(total));
        }
        if self.document.clock() == u32::MAX {
            return Some(EditFault::ClockEnd);
        }
        let Excess { unit, held, adds } = self.excess(total as u64, 1 + changes.len() as u64)?;
        Some(EditFault::Full { unit, held, adds })
    }

    // The limit that an operation would exceed, if any. That its texts are UTF-8 is a clause for callers.
    pub(crate) fn full(&self, op: &Operation) -> Option<OpFault>
        requires { shape_fault op.now ≡ None }
        ensures fault { result ≡ full_fault (rules self.now) self.now.history op.now }
        ensures proper { IsProper op.now }
    {
        let (bytes, entries) = size(op);
        let Excess { unit, held, adds } = self.excess(bytes as u64, entries)?;
        Some(OpFault::Full { unit, held, adds })
    }

    // Applies an operation that is good and passes no limit. If an allocation fails, the operation is dropped.
    pub(crate) fn apply(&mut self, op: Operation) -> Result<(), OutOfMemory>
        requires proper { IsProper op }
        requires good { answer_under self.old.endings self.old.history [] op ≡ Good }
        requires room { full_fault (rules self.old) self.old.history op ≡ None }
        ensures ok { OnOk result (self.new ≡ after_apply self.old op) }
        ensures err { OnErr result (self.new ≡ self.old) }
    {
        self.document.apply(op)?;
        self.document.known();
        Ok(())
    }

    // The limit that these additional bytes and entries would exceed, if any.
    pub(crate) fn excess(&self, bytes: u64, entries: u64) -> Option<Excess>
        ensures { option_map excess_of result
            ≡ excess self.now.limits self.now.history bytes entries }
    {
        self.document.excess(&self.limits, bytes, entries)
    }

    // The stamp of the next edit or undo.
    pub(crate) fn next_stamp(&self) -> Lamport
        ensures { result ≡ record { value = clock self.now.history; replica = self.now.replica } }
    {
        Lamport {
            value: self.document.clock(),
            replica: self.replica,
        }
    }
}

/// Two buffers that have applied the same operations, in whatever order, show the same text, whatever each does with
/// line endings.
pub fn agree(a: &Buffer, b: &Buffer)
    ensures { SameSet a.now.history b.now.history → text a.now.history ≡ text b.now.history }
{
    a.document.known();
    b.document.known();
}

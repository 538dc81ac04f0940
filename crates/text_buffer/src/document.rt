//! A history, and what it makes.
ghost use Rattle.std.specs.Prelude.{◌≡◌, ◌+◌, ◌-◌, ◌^◌, ◌<◌, ◌≤◌, ℕ, List, ◌++◌, ◌∷◌, [], None, length, IfOk, OnErr, OnOk, option_map, string_bytes};
ghost use Rattle.std.specs.Arc.{arc_value};
ghost use Rattle.lamport_clock.specs.Clocks.{clock_after};
ghost use Rattle.lamport_clock.specs.Versions.{raise};
ghost use Rattle.op_model.specs.declared.operation.Operation.TheVariants.{Edit};
ghost use Rattle.op_model.specs.declared.operation.Piece.{Piece};
ghost use Rattle.op_model.specs.Domains.{IsProper};
ghost use Rattle.op_model.specs.Operations.{bytes_of, entries_of, pieces_of, stamp_of, text_total};
ghost use Rattle.op_model.specs.Histories.{Distinct, base, bytes_held, clock, operation_at, version};
ghost use Rattle.op_model.specs.Limited.{excess};
ghost use Rattle.op_model.specs.Made.{local_edit};
ghost use Rattle.op_model.specs.Shown.{hidden_text, text, texts};
ghost use Rattle.op_model.specs.Rules.{answer_under};
ghost use Rattle.undo_map.specs.Undos.{undo_entries};
ghost use Rattle.op_answers.specs.Verdicts.{answer_of};
ghost use Rattle.remote_edit.specs.Changes.{ChangeFew};
ghost use Rattle.remote_edit.specs.Fragments.{fragments_of};
ghost use Rattle.remote_edit.specs.Moves.{TakeTexts};
ghost use Rattle.text_buffer.specs.Bases.{first_text};
ghost use Rattle.text_buffer.specs.Costs.{IsEditCost};
ghost use Rattle.text_buffer.specs.Document.{IsContent, IsBufferHistory, MayEdit, MayGrow, excess_of};
ghost use Rattle.text_buffer.specs.Drafts.{IsDraft, IsDrafted};

use crate::content::{BASE, Content};
use crate::draft::{Draft, push_with_change};
use crate::faults::Excess;
use crate::pieces::{first_text, size};
use crate::{Endings, OutOfMemory};
use applied_ops::AppliedList;
use deferred_ops::Deferred;
use lamport_clock::{Lamport, Version};
use op_answers::{Verdict, judge};
use op_model::{EditOp, Limits, Operation, Piece, Pieces, Text, Unit};
use remote_edit::{Placement, TreeChange, plan_local, plan_remote};
use rope_chunks::Rope;
use rope_edits::apply_moves;
use std::alloc::Global;
use std::marker::{Brand, Model};
use std::sync::Arc;
use std::sync::ledger::{Blank, Ledger};
use sum_tree::Steps;
use undo_map::UndoMap;

/// The applied operations, and all that they make: the clock and the version, the fragments with their index and the undo
/// counts, the shown and the hidden text, and how many bytes and entries are held. Contracts see it as the list of operations, the
/// history; it is lawful. Documents share what they have in common.
#[derive(Drop)]
pub struct Document {
    pub(crate) alloc: Global,
    operations: AppliedList,
    clock: u32,
    version: Arc<Version>,
    content: Content,
    bytes: u64,
    entries: u64,
}

impl Model for Document {
    ghost use Rattle.std.specs.Prelude.{List};
    ghost use Rattle.op_model.specs.declared.operation.Operation.{Operation};

    ghost Value = { List Operation };

    ghost use Rattle.text_buffer.specs.DocumentInside.{IsDocumentInside};

    ghost view = { λ d. d.operations };

    ghost invariant = { IsDocumentInside };
}

impl Document {
    /// The base alone, which keeps its text. Linear in the text.
    pub fn over(alloc: Global, text: String) -> Result<Document, OutOfMemory>
        requires { length (string_bytes text) ≤ 2 ^ 40 }
        ensures { IfOk result (λ d. d ≡ base (string_bytes text) ∷ []) }
    {
        let op = base_operation(alloc, text)?;
        Document::over_base(alloc, op)
    }

    /// A base alone, given as its operation. Linear in its text.
    pub fn over_base(alloc: Global, op: Operation) -> Result<Document, OutOfMemory>
        requires base { op ≡ base (first_text (pieces_of op)) }
        requires room { length (first_text (pieces_of op)) ≤ 2 ^ 40 }
        ensures { IfOk result (λ d. d ≡ op ∷ []) }
    {
        let version = base_version(alloc)?;
        let shown = first_text(&op);
        let bytes = shown.len() as u64;
        let content = Content::over(alloc, shown)?;
        let operations = list_of(alloc, op)?;
        Ok(Document {
            alloc,
            operations,
            clock: 2,
            version,
            content,
            bytes,
            entries: 0,
        })
    }

    /// An equal document that shares everything with it. Copies nothing.
    pub fn share(&self) -> Result<Document, OutOfMemory>
        ensures { IfOk result (λ d. d ≡ self.now) }
    {
        let operations = self.operations.share()?;
        let version = Arc::try_clone(&self.version)?;
        let content = self.content.share()?;
        Ok(Document {
            alloc: self.alloc,
            operations,
            clock: self.clock,
            version,
            content,
            bytes: self.bytes,
            entries: self.entries,
        })
    }

    /// Says what is true of every document, for callers' proofs. Does nothing when it runs.
    pub fn known(&self)
        ensures { IsBufferHistory self.now }
    {
        let _alloc = &self.alloc;
    }

    /// Says that an edit that makes no node costs no more than it may, for callers' proofs. Does nothing when it runs.
    pub fn known_cost(&self)
        ensures { (changes : List Piece) → IsEditCost self.now changes 0 }
    {
        self.content.fragments.known();
    }

    /// The operations, in their order.
    pub fn operations(&self) -> &AppliedList
        ensures { result.now ≡ self.now }
    {
        &self.operations
    }

    /// The value of the next stamp.
    pub fn clock(&self) -> u32
        ensures { result ≡ clock self.now }
    {
        self.clock
    }

    /// The greatest stamp value of each replica, the base's among them.
    pub fn version(&self) -> &Version
        ensures { result.now ≡ version self.now }
    {
        &self.version
    }

    /// The undo counts.
    pub fn undos(&self) -> &UndoMap
        ensures { result.now ≡ undo_entries self.now }
    {
        &self.content.undos
    }

    /// The content that the operations make.
    pub fn content(&self) -> &Content
        ensures { IsContent result.now self.now }
    {
        &self.content
    }

    /// The shown text.
    pub fn text(&self) -> &Rope
        ensures { result.now ≡ text self.now }
    {
        &self.content.text
    }

    /// The limit that these additional bytes and entries would exceed, if any.
    pub fn excess(&self, limits: &Limits, bytes: u64, entries: u64) -> Option<Excess>
        ensures { option_map excess_of result ≡ excess limits.now self.now bytes entries }
    {
        if (limits.bytes as u128) < self.bytes as u128 + bytes as u128 {
            return Some(Excess {
                unit: Unit::Bytes,
                held: self.bytes,
                adds: bytes,
            });
        }
        if (limits.entries as u128) < self.entries as u128 + entries as u128 {
            return Some(Excess {
                unit: Unit::Entries,
                held: self.entries,
                adds: entries,
            });
        }
        None
    }

    /// The answer to an operation that is taken while others wait, by what the buffer does with line endings.
    pub fn judge(&self, endings: Endings, waiting: &Deferred, op: &Operation) -> Verdict
        requires { Distinct waiting.now }
        ensures { answer_of result ≡ answer_under endings self.now waiting.now op.now }
    {
        judge(
            endings,
            &self.operations,
            waiting,
            &self.version,
            &self.content.fragments,
            &self.content.text,
            &self.content.hidden,
            op,
        )
    }

    /// Appends an operation that is good. This costs a few descents for each of its pieces, the fragments in their ranges and those
    /// that its counts concern; what does not change is shared. An edit of one piece changes in place the fragments that no other
    /// document shares. If an allocation fails, the operation is dropped and nothing changes.
    pub fn apply(&mut self, op: Operation) -> Result<(), OutOfMemory>
        requires grows { MayGrow self.old op }
        ensures ok { OnOk result (self.new ≡ self.old ++ op ∷ []) }
        ensures err { OnErr result (self.new ≡ self.old) }
    {
        self.make_room()?;
        self.apply_in_room(op)
    }

    // Does what `apply` does, once the index has room.
    fn apply_in_room(&mut self, op: Operation) -> Result<(), OutOfMemory>
        requires { MayGrow self.old op }
        ensures ok { OnOk result (self.new ≡ self.old ++ op ∷ []) }
        ensures err { OnErr result (self.new ≡ self.old) }
    {
        let adds = size(&op);
        let draft = self.draft_with(&op)?;
        self.push_with::<Brand>(op, adds, draft, Blank::new(1))
    }

    // Makes room in the index for what an operation adds to it. The document means what it meant.
    fn make_room(&mut self) -> Result<(), OutOfMemory>
        ensures { self.new ≡ self.old }
    {
        self.content.index.make_room(self.alloc)
    }

    /// The document with one operation more, which is good. This costs what `apply` does, but what no other document
    /// shares changes in place, the version too.
    ///
    /// # Errors
    ///
    /// Fails only if an allocation fails. The document and the operation are dropped then.
    pub fn with_operation(self, op: Operation) -> Result<Document, OutOfMemory>
        requires { MayGrow self op }
        ensures { IfOk result (λ d. d ≡ self ++ op ∷ []) }
    {
        let Document {
            alloc,
            mut operations,
            clock,
            version,
            content,
            bytes,
            entries,
        } = self;
        let stamp = op.stamp();
        let adds = size(&op);
        let content = content.with_operation(alloc, &op)?;
        let version = raise_version(alloc, version, stamp)?;
        operations.push(alloc, op)?;
        Ok(Document {
            alloc,
            operations,
            clock: after(clock, stamp),
            version,
            content,
            bytes: bytes + adds.0 as u64,
            entries: entries + adds.1,
        })
    }

    /// Makes an edit of changes that meet no fault, and appends it. Returns the edit; the document keeps a copy, which shares its
    /// texts. This costs what `apply` does, and two descents for each change. A step is counted for each node that is made in the
    /// tree of fragments.
    pub fn make_edit<L: Ledger>(
        &mut self,
        replica: u16,
        changes: &[Piece],
        steps: &mut Steps<L>,
    ) -> Result<Operation, OutOfMemory>
        requires { MayEdit self.old replica changes.now }
        ensures made { IfOk result (λ op. op ≡ local_edit self.old replica changes.now) }
        ensures new { OnOk result (self.new
            ≡ self.old ++ local_edit self.old replica changes.now ∷ []) }
        ensures err { OnErr result (self.new ≡ self.old) }
        ensures cost { IsEditCost self.old changes.now (steps.new - steps.old) }
    {
        self.known_cost();
        self.make_room()?;
        self.edit_in_room(replica, changes, steps)
    }

    // Does what `make_edit` does, once the index has room.
    fn edit_in_room<L: Ledger>(
        &mut self,
        replica: u16,
        changes: &[Piece],
        steps: &mut Steps<L>,
    ) -> Result<Operation, OutOfMemory>
        requires { MayEdit self.old replica changes.now }
        ensures made { IfOk result (λ op. op ≡ local_edit self.old replica changes.now) }
        ensures new { OnOk result (self.new
            ≡ self.old ++ local_edit self.old replica changes.now ∷ []) }
        ensures err { OnErr result (self.new ≡ self.old) }
        ensures cost { IsEditCost self.old changes.now (steps.new - steps.old) }
    {
        let (edit, adds, draft) = self.with_changes(replica, changes, steps)?;
        let (made, kept) = with_copy(self.alloc, edit)?;
        self.push(kept, adds, draft, steps)?;
        Ok(made)
    }

    // The edit of changes that meet no fault, what it adds to the bytes and entries, and a draft of the content of the history with
    // it. The steps of the draft's change are within the cost too.
    fn with_changes<L: Ledger>(
        &self,
        replica: u16,
        changes: &[Piece],
        steps: &mut Steps<L>,
    ) -> Result<(Operation, (u128, u64), Draft), OutOfMemory>
        requires { MayEdit self.now replica changes.now }
        ensures made { IfOk result (λ r. r.0 ≡ local_edit self.now replica changes.now) }
        ensures grows { IfOk result (λ r. MayGrow self.now r.0) }
        ensures bytes { IfOk result (λ r. r.1.0 ≡ bytes_of r.0) }
        ensures entries { IfOk result (λ r. r.1.1 ≡ entries_of r.0) }
        ensures draft { IfOk result (λ r. IsDraft r.2 (fragments_of self.now)
            (self.now ++ r.0 ∷ [])) }
        ensures cost { IsEditCost self.now changes.now (steps.new - steps.old) }
        ensures change { IfOk result (λ r. (n : ℕ) → ChangeFew r.2.change steps.new n
            → IsEditCost self.now changes.now (n - steps.old)) }
    {
        self.content.fragments.known();
        let stamp = Lamport {
            value: self.clock,
            replica,
        };
        let undos = self.content.undos.share()?;
        let (edit, placement) = plan_local(
            self.alloc,
            &self.content.fragments,
            &self.content.index,
            &self.content.undos,
            stamp,
            self.version.copy(self.alloc)?,
            changes,
            steps,
        )?;
        let made = Operation::Edit(edit);
        let adds = size(&made);
        let draft = self.draft_of(placement, undos, changes)?;
        Ok((made, adds, draft))
    }

    // A draft of the content of the history with an operation that is good.
    fn draft_with(&self, op: &Operation) -> Result<Draft, OutOfMemory>
        requires { MayGrow self.now op.now }
        ensures { IfOk result (λ d. IsDraft d (fragments_of self.now) (self.now ++ op.now ∷ [])) }
    {
        match op {
            Operation::Edit(edit) => self.draft_with_edit(edit),
            Operation::Undo(_) => self.draft_beside(op),
        }
    }

    // A draft of the content of the history with an edit that is good.
    fn draft_with_edit(&self, edit: &EditOp) -> Result<Draft, OutOfMemory>
        requires { MayGrow self.now (Edit edit.now) }
        ensures { IfOk result (λ d. IsDraft d (fragments_of self.now)
            (self.now ++ Edit edit.now ∷ [])) }
    {
        let placement = plan_remote(
            self.alloc,
            &self.content.fragments,
            &self.content.index,
            &self.content.undos,
            edit,
        )?;
        self.draft_of(
            placement,
            self.content.undos.share()?,
            edit.pieces.as_slice(),
        )
    }

    // A draft of the content of the history with any operation that is good: the whole content, made beside the old one.
    fn draft_beside(&self, op: &Operation) -> Result<Draft, OutOfMemory>
        requires { MayGrow self.now op.now }
        ensures { IfOk result (λ d. IsDraft d (fragments_of self.now) (self.now ++ op.now ∷ [])) }
    {
        let content = self.content_with(op)?;
        Ok(Draft {
            change: TreeChange::Whole(content.fragments),
            index: content.index,
            undos: content.undos,
            text: content.text,
            hidden: content.hidden,
        })
    }

    // The content of the history with an operation that is good.
    fn content_with(&self, op: &Operation) -> Result<Content, OutOfMemory>
        requires { MayGrow self.now op.now }
        ensures { IfOk result (λ c. IsContent c (self.now ++ op.now ∷ [])) }
    {
        let content = self.content.share()?;
        content.with_operation(self.alloc, op)
    }

    // The change of the fragments and the index that an operation makes, with both texts after its moves.
    fn draft_of(
        &self,
        placement: Placement,
        undos: UndoMap,
        pieces: &[Piece],
    ) -> Result<Draft, OutOfMemory>
        requires texts { TakeTexts placement.moves (text self.now) (hidden_text self.now)
            (texts pieces.now) }
        requires room { bytes_held self.now + text_total pieces.now ≤ 2 ^ 40 }
        ensures { IfOk result (λ d. IsDrafted d placement undos self.now (texts pieces.now)) }
    {
        let texts = apply_moves(
            self.alloc,
            &self.content.text,
            &self.content.hidden,
            placement.moves.as_slice(),
            pieces,
        )?;
        Ok(Draft {
            change: placement.change,
            index: placement.index,
            undos,
            text: texts.shown,
            hidden: texts.hidden,
        })
    }

    // Does what `push` does, with a counter made from the blank.
    fn push_with<L: Ledger>(
        &mut self,
        op: Operation,
        adds: (u128, u64),
        draft: Draft,
        blank: Blank,
    ) -> Result<(), OutOfMemory>
        requires name { blank.name ≡ L.name }
        requires parts { blank.parts ≡ L.parts }
        requires some { 0 < blank.parts }
        requires grows { MayGrow self.old op }
        requires bytes { adds.0 ≡ bytes_of op }
        requires entries { adds.1 ≡ entries_of op }
        requires draft { IsDraft draft (fragments_of self.old) (self.old ++ op ∷ []) }
        ensures ok { OnOk result (self.new ≡ self.old ++ op ∷ []) }
        ensures err { OnErr result (self.new ≡ self.old) }
    {
        let mut steps = Steps::<L>::new(blank);
        self.push(op, adds, draft, &mut steps)
    }

    // Appends an operation that is good and adds these bytes and entries, with a draft of the content of the history that has it. The
    // change of the fragments is the last step that may fail.
    fn push<L: Ledger>(
        &mut self,
        op: Operation,
        adds: (u128, u64),
        draft: Draft,
        steps: &mut Steps<L>,
    ) -> Result<(), OutOfMemory>
        requires grows { MayGrow self.old op }
        requires bytes { adds.0 ≡ bytes_of op }
        requires entries { adds.1 ≡ entries_of op }
        requires draft { IsDraft draft (fragments_of self.old) (self.old ++ op ∷ []) }
        ensures ok { OnOk result (self.new ≡ self.old ++ op ∷ []) }
        ensures err { OnErr result (self.new ≡ self.old) }
        ensures cost { ChangeFew draft.change steps.old steps.new }
    {
        let stamp = op.stamp();
        let (bytes, entries) = adds;
        let version = version_with(self.alloc, &self.version, stamp)?;
        push_with_change(
            self.alloc,
            &mut self.operations,
            &mut self.content.fragments,
            op,
            draft.change,
            steps,
        )?;
        self.clock = after(self.clock, stamp);
        self.version = version;
        self.content.index = draft.index;
        self.content.undos = draft.undos;
        self.content.text = draft.text;
        self.content.hidden = draft.hidden;
        self.bytes += bytes as u64;
        self.entries += entries;
        Ok(())
    }
}

/// An equal operation with a copy of it, which shares its pieces or counts. Linear in the version. If an allocation fails, the
/// operation is dropped.
pub(crate) fn with_copy(alloc: Global, op: Operation) -> Result<(Operation, Operation), OutOfMemory>
    ensures made { IfOk result (λ r. r.0 ≡ op) }
    ensures copy { IfOk result (λ r. r.1 ≡ op) }
{
    let made = op.into_shared(alloc)?;
    let copy = made.copy(alloc)?;
    Ok((made, copy))
}

// The version with a stamp.
fn version_with(
    alloc: Global,
    version: &Arc<Version>,
    stamp: Lamport,
) -> Result<Arc<Version>, OutOfMemory>
    ensures { IfOk result (λ v. arc_value v ≡ raise (arc_value version.now) stamp) }
{
    let mut version = version.copy(alloc)?;
    version.observe(stamp)?;
    Ok(Arc::new(alloc, version)?)
}

// The version with a stamp. One that nobody shares is raised in place. If an allocation fails, it is dropped.
fn raise_version(
    alloc: Global,
    version: Arc<Version>,
    stamp: Lamport,
) -> Result<Arc<Version>, OutOfMemory>
    ensures { IfOk result (λ v. arc_value v ≡ raise (arc_value version) stamp) }
{
    let mut version = version;
    match Arc::get_mut(&mut version) {
        Some(alone) => alone.observe(stamp)?,
        None => return version_with(alloc, &version, stamp),
    }
    Ok(version)
}

// The value of a clock that has seen a stamp.
fn after(clock: u32, stamp: Lamport) -> u32
    ensures { result ≡ clock_after clock stamp.value }
{
    clock.max(stamp.value).saturating_add(1)
}

// The version of a base alone.
fn base_version(alloc: Global) -> Result<Arc<Version>, OutOfMemory>
    ensures { IfOk result (λ v. (t : List ℕ) → arc_value v ≡ version (base t ∷ [])) }
{
    let mut version = Version::new(alloc);
    version.observe(BASE)?;
    Ok(Arc::new(alloc, version)?)
}

// An operation in a list of its own.
fn list_of(alloc: Global, op: Operation) -> Result<AppliedList, OutOfMemory>
    ensures { IfOk result (λ l. l ≡ op ∷ []) }
{
    let mut operations = AppliedList::new(alloc)?;
    operations.push(alloc, op)?;
    Ok(operations)
}

// The base as an operation.
fn base_operation(alloc: Global, text: String) -> Result<Operation, OutOfMemory>
    ensures { IfOk result (λ op. op ≡ base (string_bytes text)) }
{
    let mut pieces = Vec::new(alloc);
    pieces.push(Piece {
        start: 0,
        end: 0,
        text: Text::new(text),
    })?;
    Ok(Operation::Edit(EditOp {
        stamp: BASE,
        version: Version::new(alloc),
        pieces: Pieces::new(pieces),
    }))
}

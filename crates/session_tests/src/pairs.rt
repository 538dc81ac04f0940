//! What readers show of what is published, on one thread, with ample memory.
ghost use Rattle.std.specs.Prelude.{◌≡◌, ◌∷◌, [], length, map, replicate, IfSome, List, OnOk};
ghost use Rattle.logbook.specs.Pages.{Named};
ghost use Rattle.op_model.specs.declared.operation.Operation.{Operation};
ghost use Rattle.snapshot_pub.specs.States.{ReaderState};
ghost use Rattle.text_buffer.specs.Document.{IsFront};

use crate::tally::{Host, Tally};
use op_model::{Limits, Piece, Text};
use snapshot_pub::{Publisher, SnapReader, open_pairs};
use std::alloc::Global;
use std::sync::Wait;
use sum_tree::OutOfMemory;
use text_buffer::{Buffer, EditFault, Snapshot};

const AMPLE: Limits = Limits {
    bytes: 1 << 40,
    entries: (1 << 40) - 1,
};

// Puts X between the two letters.
fn insert(alloc: Global, buffer: &mut Buffer) -> Result<(), EditFault>
    ensures { OnOk result (IsFront buffer.old.history buffer.new.history) }
{
    let text = Text::new(String::from_str(alloc, "X")?);
    let piece = Piece {
        start: 1,
        end: 1,
        text,
    };
    edit(buffer, &[piece])
}

/// An edit.
pub(crate) fn edit(buffer: &mut Buffer, changes: &[Piece]) -> Result<(), EditFault>
    ensures { OnOk result (IsFront buffer.old.history buffer.new.history) }
{
    let _made = buffer.edit_uncounted(changes)?;
    Ok(())
}

fn is_text(alloc: Global, snapshot: &Snapshot, want: &str) -> Result<bool, OutOfMemory> {
    Ok(snapshot.text().to_string(alloc)?.as_str() == want)
}

// Whether `latest` gives the text.
fn gives(alloc: Global, reader: &mut SnapReader, want: &str) -> Result<bool, OutOfMemory>
    ensures { reader.new.pair ≡ reader.old.pair }
{
    let snapshot = reader.latest()?;
    is_text(alloc, &snapshot, want)
}

// Whether `latest` gives the text, and enters as it is to.
fn shows(alloc: Global, reader: &mut SnapReader, want: &str, enters: bool) -> bool
    ensures { reader.new.pair ≡ reader.old.pair }
{
    gives(alloc, reader, want) == Ok(true) && reader.entered() == enters
}

fn publish_both<R: Wait>(
    rt: &R,
    publisher: &mut Publisher,
    snapshot: &Snapshot,
) -> Result<(), OutOfMemory>
    requires { (first : List Operation) × (publisher.old.published ≡ first ∷ first ∷ [])
        × IsFront first snapshot.now }
    ensures pairs { publisher.new.pairs ≡ publisher.old.pairs }
    ensures published { OnOk result (publisher.new.published ≡ snapshot.now ∷ snapshot.now ∷ []) }
{
    publisher.publish(rt, 0, snapshot)?;
    publisher.publish(rt, 1, snapshot)
}

// Publishes the snapshot to both, and tells the first reader alone.
fn publish_and_tell<R: Wait>(
    rt: &R,
    publisher: &mut Publisher,
    snapshot: &Snapshot,
    told: &mut SnapReader,
) -> Result<(), OutOfMemory>
    requires published { (first : List Operation) × (publisher.old.published ≡ first ∷ first ∷ [])
        × IsFront first snapshot.now }
    requires pair { (other : Named) × (publisher.old.pairs ≡ told.old.pair ∷ other ∷ []) }
{
    publish_both(rt, publisher, snapshot)?;
    told.learn(publisher.tell(0)?);
    Ok(())
}

// Publishes what the buffer is after an insertion.
fn publish_next<R: Wait>(
    rt: &R,
    alloc: Global,
    buffer: &mut Buffer,
    publisher: &mut Publisher,
    told: &mut SnapReader,
) -> Result<(), EditFault>
    requires published { publisher.old.published ≡ buffer.old.history ∷ buffer.old.history ∷ [] }
    requires pair { (other : Named) × (publisher.old.pairs ≡ told.old.pair ∷ other ∷ []) }
{
    insert(alloc, buffer)?;
    let snapshot = buffer.snapshot()?;
    Ok(publish_and_tell(rt, publisher, &snapshot, told)?)
}

// Whether both readers give the text, and enter as they are to.
fn show_both(
    alloc: Global,
    told: &mut SnapReader,
    untold: &mut SnapReader,
    want: &str,
    enter: bool,
) -> bool
    ensures told { told.new.pair ≡ told.old.pair }
    ensures untold { untold.new.pair ≡ untold.old.pair }
{
    shows(alloc, told, want, enter) && shows(alloc, untold, want, enter)
}

// Whether both readers show what is published before an insertion, after it, and once the writers are gone.
fn both_show<R: Wait>(
    rt: &R,
    alloc: Global,
    buffer: &mut Buffer,
    mut publisher: Publisher,
    told: &mut SnapReader,
    untold: &mut SnapReader,
) -> bool
    requires published { publisher.published ≡ buffer.old.history ∷ buffer.old.history ∷ [] }
    requires pairs { publisher.pairs ≡ told.old.pair ∷ untold.old.pair ∷ [] }
{
    let looked = told.entered() || untold.entered();
    let before = show_both(alloc, told, untold, "ab", true);
    let published = publish_next(rt, alloc, buffer, &mut publisher, told) == Ok(());
    let after = show_both(alloc, told, untold, "aXb", true);
    publisher.close(rt);
    let closed = show_both(alloc, told, untold, "aXb", false);
    !looked && before && published && after && closed
}

/// A buffer, and a publisher of its snapshot with its readers, if no allocation fails.
pub(crate) fn open<R: Wait>(
    rt: &R,
    alloc: Global,
    readers: u32,
) -> Option<(Buffer, Publisher, Vec<SnapReader>)>
    ensures count { IfSome result (λ r. length r.2.items ≡ readers) }
    ensures published { IfSome result (λ r. r.1.published ≡ replicate readers r.0.history) }
    ensures pairs { IfSome result (λ r. map (λ (x : ReaderState). x.pair) r.2.items ≡ r.1.pairs) }
{
    let buffer = Buffer::new(alloc, 1, "ab", AMPLE).ok()?;
    let first = buffer.snapshot().ok()?;
    match open_pairs(rt, alloc, first, readers) {
        Ok((publisher, readers)) => Some((buffer, publisher, readers)),
        Err(_) => None,
    }
}

fn show_in_turn<R: Wait>(rt: &R, alloc: Global) -> bool {
    let Some((mut buffer, publisher, mut readers)) = open(rt, alloc, 2) else {
        return false;
    };
    let (Some(mut untold), Some(mut told)) = (readers.pop(), readers.pop()) else {
        publisher.close(rt);
        return false;
    };
    both_show(rt, alloc, &mut buffer, publisher, &mut told, &mut untold)
}

/// Tests two readers on one thread.
pub fn test<R: Host>(rt: &R, tally: &mut Tally) {
    let is_right = show_in_turn(rt, rt.alloc());
    tally.note(rt, "pairs", "readers show what is published", is_right);
}

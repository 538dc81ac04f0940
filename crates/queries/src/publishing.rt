//! What an editor publishes and tells.
ghost use Rattle.std.specs.Prelude.{◌≡◌, List, length, All, IfOk, OnOk};
ghost use Rattle.op_model.specs.declared.operation.Operation.{Operation};
ghost use Rattle.text_buffer.specs.Document.{IsFront};

use crate::OutOfMemory;
use snapshot_pub::Publisher;
use std::sync::Wait;
use text_buffer::Snapshot;

/// Publishes the snapshot of a replica to each of its `pairs` pairs, where it has more than the `published` operations that were last
/// published. Gives how many it has.
///
/// # Errors
///
/// `OutOfMemory` alone. It is then published to some of the pairs.
pub(crate) fn publish_new<R: Wait>(
    rt: &R,
    publisher: &mut Publisher,
    pairs: u32,
    published: u64,
    snapshot: &Snapshot,
) -> Result<u64, OutOfMemory>
    requires count { length publisher.old.published ≡ pairs }
    requires published { (h : List Operation) × (length h ≡ published)
        × All (λ x. x ≡ h) publisher.old.published × IsFront h snapshot.now }
    ensures pairs { publisher.new.pairs ≡ publisher.old.pairs }
    ensures count { length publisher.new.published ≡ length publisher.old.published }
    ensures published { OnOk result (All (λ x. x ≡ snapshot.now) publisher.new.published) }
    ensures size { IfOk result (λ n. n ≡ length snapshot.now) }
{
    let operations = size_of(snapshot);
    if operations != published {
        publish_all(rt, publisher, pairs, snapshot)?;
    }
    Ok(operations)
}

// How many operations it has, the base among them.
pub(crate) fn size_of(snapshot: &Snapshot) -> u64
    ensures { result ≡ length snapshot.now }
{
    snapshot.applied().len()
}

fn publish_all<R: Wait>(
    rt: &R,
    publisher: &mut Publisher,
    pairs: u32,
    snapshot: &Snapshot,
) -> Result<(), OutOfMemory>
    requires count { length publisher.old.published ≡ pairs }
    requires grows { All (λ x. IsFront x snapshot.now) publisher.old.published }
    ensures pairs { publisher.new.pairs ≡ publisher.old.pairs }
    ensures count { length publisher.new.published ≡ length publisher.old.published }
    ensures published { OnOk result (All (λ x. x ≡ snapshot.now) publisher.new.published) }
{
    for i in 0..pairs {
        publisher.publish(rt, i, snapshot)?;
    }
    Ok(())
}

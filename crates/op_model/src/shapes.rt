//! Whether an operation, taken by itself, is one that a replica can make.
ghost use Rattle.std.specs.Prelude.{◌≡◌, nat_lt, nat_le, Some, None, IfErr, OnOk};
ghost use Rattle.std.specs.List.{list_any};
ghost use Rattle.op_model.specs.Operations.{version_of, pieces_of};
ghost use Rattle.op_model.specs.Answers.{bad_stamp, no_base, shape_fault};
ghost use Rattle.op_model.specs.Shapes.{op_fault};

use crate::{OpFault, Operation, Piece, TEXT_LIMIT, first_overlap, first_reversed, text_total};
use lamport_clock::Version;
use thiserror::Error;

/// The greatest id of an editor's replica. The least one is 1.
pub const LAST_REPLICA: u16 = 1023;

/// Why no replica can have made an operation. Pieces are counted from 0.
#[derive(Clone, Copy, Debug, PartialEq, Eq, Error)]
pub enum ShapeFault {
    #[error("the stamp, its author or its version is none that a replica makes")]
    BadStamp,
    #[error("the version has not seen the base")]
    NoBase,
    /// The number of bytes of all new texts.
    #[error("the new texts have {0} bytes, more than 65536")]
    TextLimit(u128),
    #[error("piece {0} starts past its end")]
    Reversed(u64),
    #[error("piece {0} starts before the end of the one before it")]
    Overlap(u64),
}

impl From<ShapeFault> for OpFault {
    ghost from_gives = { λ f e. e ≡ op_fault f };

    fn from(fault: ShapeFault) -> Self {
        match fault {
            ShapeFault::BadStamp => OpFault::BadStamp,
            ShapeFault::NoBase => OpFault::NoBase,
            ShapeFault::TextLimit(total) => OpFault::TextLimit(total),
            ShapeFault::Reversed(i) => OpFault::Reversed(i),
            ShapeFault::Overlap(i) => OpFault::Overlap(i),
        }
    }
}

fn has_replica_past(version: &Version, last: u16) -> bool
    ensures { result ≡ list_any (λ e. nat_lt last e.0) version.now }
{
    version.as_slice().iter().any(|e| last < e.0)
}

fn has_value_from(version: &Version, value: u32) -> bool
    ensures { result ≡ list_any (λ e. nat_le value e.1) version.now }
{
    version.as_slice().iter().any(|e| value <= e.1)
}

// Whether the stamp, its author or the version is one that no replica makes.
fn is_stamped_badly(op: &Operation) -> bool
    ensures { result ≡ bad_stamp op.now }
{
    let stamp = op.stamp();
    stamp.value == 0
        || stamp.value == u32::MAX
        || stamp.replica == 0
        || LAST_REPLICA < stamp.replica
        || has_replica_past(op.version(), LAST_REPLICA)
        || has_value_from(op.version(), stamp.value)
}

fn lacks_base(op: &Operation) -> bool
    ensures { result ≡ no_base op.now }
{
    op.version().get(0) != 1
}

fn pieces_of(op: &Operation) -> &[Piece]
    ensures { result.now ≡ pieces_of op.now }
{
    match op {
        Operation::Edit(edit) => edit.pieces.as_slice(),
        Operation::Undo(_) => &[],
    }
}

/// Checks an operation by itself; of an undo only the stamp and the version. Linear in the version and the pieces; does
/// not allocate.
///
/// # Errors
///
/// Exactly the first of these that applies:
///
/// - `BadStamp`: the stamp's value is 0 or 4,294,967,295, or not above every entry of the version; its author's id is
///   not 1 to 1023; or the version has an id past 1023.
/// - `NoBase`: the version's entry for replica 0 is not 1.
/// - `TextLimit`: the new texts have more than 65,536 bytes.
/// - `Reversed`, for the least piece that starts past its end.
/// - `Overlap`, for the least piece that starts before the end of the one before it.
pub fn shape(op: &Operation) -> Result<(), ShapeFault>
    ensures ok { OnOk result (shape_fault op.now ≡ None) }
    ensures fault { IfErr result (λ f. shape_fault op.now ≡ Some (op_fault f)) }
{
    if is_stamped_badly(op) {
        return Err(ShapeFault::BadStamp);
    }
    if lacks_base(op) {
        return Err(ShapeFault::NoBase);
    }
    let pieces = pieces_of(op);
    let total = text_total(pieces);
    if TEXT_LIMIT < total {
        return Err(ShapeFault::TextLimit(total));
    }
    if let Some(i) = first_reversed(pieces) {
        return Err(ShapeFault::Reversed(i as u64));
    }
    if let Some(i) = first_overlap(pieces) {
        return Err(ShapeFault::Overlap(i as u64));
    }
    Ok(())
}

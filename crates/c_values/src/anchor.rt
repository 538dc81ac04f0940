//! Anchors, as C keeps them.
ghost use Rattle.std.specs.Prelude.{◌≡◌};
ghost use Rattle.c_values.specs.Anchors.{bias_at, bias_number, flat, unflat};

use lamport_clock::Lamport;
use op_model::{Anchor, Bias};

/// A place in a text that keeps to a byte while the text around it changes. It is plain data, which may be stored and
/// sent, and means the same in each buffer of the document.
#[repr(C)]
#[derive(Clone, Copy)]
pub struct FlatAnchor {
    /// 0 is the start of the text, 1 its end, 2 a byte, which the other numbers name.
    pub kind: u32,
    /// 0 keeps to the byte before the place, 1 to the byte after it.
    pub bias: u32,
    /// The value of the stamp of the byte's edit.
    pub value: u32,
    /// The replica of the stamp of the byte's edit.
    pub replica: u16,
    /// The place among the bytes of the edit's new texts.
    pub offset: u64,
}

/// The bias of a number, 0 for left and 1 for right.
pub fn bias_at(number: u32) -> Option<Bias>
    ensures { result ≡ bias_at number }
{
    match number {
        0 => Some(Bias::Left),
        1 => Some(Bias::Right),
        _ => None,
    }
}

fn bias_number(bias: Bias) -> u32
    ensures { result ≡ bias_number bias }
{
    match bias {
        Bias::Left => 0,
        Bias::Right => 1,
    }
}

/// The anchor as plain numbers. O(1); does not allocate.
pub fn flat_anchor(anchor: Anchor) -> FlatAnchor
    ensures { result ≡ flat anchor }
{
    let nowhere = FlatAnchor {
        kind: 0,
        bias: 0,
        value: 0,
        replica: 0,
        offset: 0,
    };
    match anchor {
        Anchor::Least => nowhere,
        Anchor::Greatest => FlatAnchor { kind: 1, ..nowhere },
        Anchor::At {
            stamp,
            offset,
            bias,
        } => FlatAnchor {
            kind: 2,
            bias: bias_number(bias),
            value: stamp.value,
            replica: stamp.replica,
            offset,
        },
    }
}

/// The anchor of plain numbers; `None` where its kind or its bias is out of its range. O(1); does not allocate.
pub fn anchor_of(flat: &FlatAnchor) -> Option<Anchor>
    ensures { result ≡ unflat flat.now }
{
    match flat.kind {
        0 => Some(Anchor::Least),
        1 => Some(Anchor::Greatest),
        2 => {
            let bias = bias_at(flat.bias)?;
            Some(Anchor::At {
                stamp: Lamport {
                    value: flat.value,
                    replica: flat.replica,
                },
                offset: flat.offset,
                bias,
            })
        }
        _ => None,
    }
}

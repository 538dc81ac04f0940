//! The record of an operation.
ghost use Rattle.std.specs.Prelude.{◌≡◌, ◌<◌, ◌≤◌, ◌^◌, ◌++◌, length, None, Some, OnOk, IfOk, IfErr};
ghost use Rattle.std.specs.Int.{w32, w64, to_be_bytes};
ghost use Rattle.op_model.specs.declared.operation.Operation.TheVariants.{Edit, Undo};
ghost use Rattle.op_wire.specs.Spelling.{limit, stamp, entry, version, text, piece, pieces, count, counts, spelling, long_sum, long_number, HasSpelling};
ghost use Rattle.op_wire.specs.Encoding.{EncodeCause, HaveBytes, HasSize};

use crate::fault::EncodeFault;
use crate::fields::LIMIT;
use crate::ranges::{counts_fit, piece_fits, stamp_fits};
use lamport_clock::Lamport;
use op_model::{EditOp, Operation, OutOfMemory, Piece, UndoCount, UndoOp};
use std::alloc::Global;

fn put_stamp(out: &mut Vec<u8>, t: Lamport) -> Result<(), OutOfMemory>
    ensures { OnOk result (out.new.items ≡ out.old.items ++ stamp t) }
{
    out.extend_from_slice(&t.value.to_be_bytes())?;
    out.extend_from_slice(&t.replica.to_be_bytes())?;
    Ok(())
}

fn put_amount(out: &mut Vec<u8>, amount: usize) -> Result<(), OutOfMemory>
    requires { amount < 2 ^ 32 }
    ensures { OnOk result (out.new.items ≡ out.old.items ++ to_be_bytes w32 amount) }
{
    out.extend_from_slice(&(amount as u32).to_be_bytes())?;
    Ok(())
}

fn put_entry(out: &mut Vec<u8>, replica: u16, value: u32) -> Result<(), OutOfMemory>
    ensures { OnOk result (out.new.items ≡ out.old.items ++ entry (replica, value)) }
{
    out.extend_from_slice(&replica.to_be_bytes())?;
    out.extend_from_slice(&value.to_be_bytes())?;
    Ok(())
}

fn put_version(out: &mut Vec<u8>, entries: &[(u16, u32)]) -> Result<(), OutOfMemory>
    requires { length entries.now ≤ limit }
    ensures { OnOk result (out.new.items ≡ out.old.items ++ version entries.now) }
{
    put_amount(out, entries.len())?;
    for &(replica, value) in entries {
        put_entry(out, replica, value)?;
    }
    Ok(())
}

fn put_text(out: &mut Vec<u8>, t: &str) -> Result<(), OutOfMemory>
    requires { length t.now ≤ limit }
    ensures { OnOk result (out.new.items ≡ out.old.items ++ text t.now) }
{
    put_amount(out, t.len())?;
    out.extend_from_slice(t.as_bytes())?;
    Ok(())
}

fn put_range(out: &mut Vec<u8>, start: u64, end: u64) -> Result<(), OutOfMemory>
    ensures { OnOk result (out.new.items
        ≡ out.old.items ++ (to_be_bytes w64 start ++ to_be_bytes w64 end)) }
{
    out.extend_from_slice(&start.to_be_bytes())?;
    out.extend_from_slice(&end.to_be_bytes())?;
    Ok(())
}

fn put_piece(out: &mut Vec<u8>, p: &Piece) -> Result<(), OutOfMemory>
    requires { length p.now.text ≤ limit }
    ensures { OnOk result (out.new.items ≡ out.old.items ++ piece p.now) }
{
    put_range(out, p.start, p.end)?;
    put_text(out, p.text.as_str())?;
    Ok(())
}

fn put_pieces(out: &mut Vec<u8>, ps: &[Piece]) -> Result<(), OutOfMemory>
    requires amount { length ps.now ≤ limit }
    requires short { long_sum 0 ps.now ≡ None }
    ensures { OnOk result (out.new.items ≡ out.old.items ++ pieces ps.now) }
{
    put_amount(out, ps.len())?;
    for p in ps {
        put_piece(out, p)?;
    }
    Ok(())
}

fn put_count(out: &mut Vec<u8>, c: UndoCount) -> Result<(), OutOfMemory>
    ensures { OnOk result (out.new.items ≡ out.old.items ++ count c) }
{
    put_stamp(out, c.edit)?;
    out.extend_from_slice(&c.count.to_be_bytes())?;
    Ok(())
}

fn put_counts(out: &mut Vec<u8>, cs: &[UndoCount]) -> Result<(), OutOfMemory>
    requires { length cs.now ≤ limit }
    ensures { OnOk result (out.new.items ≡ out.old.items ++ counts cs.now) }
{
    put_amount(out, cs.len())?;
    for &c in cs {
        put_count(out, c)?;
    }
    Ok(())
}

fn put_edit(out: &mut Vec<u8>, edit: &EditOp) -> Result<(), OutOfMemory>
    requires { long_number (Edit edit.now) ≡ None }
    ensures { OnOk result (out.new.items ≡ out.old.items ++ spelling (Edit edit.now)) }
{
    out.push(1)?;
    put_stamp(out, edit.stamp)?;
    put_version(out, edit.version.as_slice())?;
    put_pieces(out, edit.pieces.as_slice())?;
    Ok(())
}

fn put_undo(out: &mut Vec<u8>, undo: &UndoOp) -> Result<(), OutOfMemory>
    requires { long_number (Undo undo.now) ≡ None }
    ensures { OnOk result (out.new.items ≡ out.old.items ++ spelling (Undo undo.now)) }
{
    out.push(2)?;
    put_stamp(out, undo.stamp)?;
    put_version(out, undo.version.as_slice())?;
    put_counts(out, undo.counts.as_slice())?;
    Ok(())
}

fn put(out: &mut Vec<u8>, op: &Operation) -> Result<(), OutOfMemory>
    requires { long_number op.now ≡ None }
    ensures { OnOk result (out.new.items ≡ out.old.items ++ spelling op.now) }
{
    match op {
        Operation::Edit(edit) => put_edit(out, edit),
        Operation::Undo(undo) => put_undo(out, undo),
    }
}

// The bytes of the texts together, or their first sum that passes the limit.
fn texts_len(ps: &[Piece]) -> Result<usize, u64>
    ensures ok { IfOk result (λ n. HaveBytes ps.now n) }
    ensures long { IfErr result (λ n. long_sum 0 ps.now ≡ Some n) }
{
    let mut so_far = 0u64;
    for p in ps {
        piece_fits(p);
        so_far += p.text.as_str().len() as u64;
        if u64::from(LIMIT) < so_far {
            return Err(so_far);
        }
    }
    Ok(so_far as usize)
}

fn edit_len(edit: &EditOp) -> Result<usize, u64>
    ensures ok { IfOk result (λ n. HasSize (Edit edit.now) n) }
    ensures long { IfErr result (λ n. long_number (Edit edit.now) ≡ Some n) }
{
    stamp_fits(edit.stamp);
    let entries = edit.version.as_slice();
    let ps = edit.pieces.as_slice();
    if (LIMIT as usize) < ps.len() {
        return Err(ps.len() as u64);
    }
    match texts_len(ps) {
        Ok(bytes) => Ok(15 + 6 * entries.len() + 20 * ps.len() + bytes),
        Err(sum) => Err(sum),
    }
}

fn undo_len(undo: &UndoOp) -> Result<usize, u64>
    ensures ok { IfOk result (λ n. HasSize (Undo undo.now) n) }
    ensures long { IfErr result (λ n. long_number (Undo undo.now) ≡ Some n) }
{
    stamp_fits(undo.stamp);
    let entries = undo.version.as_slice();
    let cs = undo.counts.as_slice();
    counts_fit(cs);
    if (LIMIT as usize) < cs.len() {
        return Err(cs.len() as u64);
    }
    Ok(15 + 6 * entries.len() + 10 * cs.len())
}

// The bytes of the record, or the first number in it that passes the limit. A version cannot have so many entries.
fn record_len(op: &Operation) -> Result<usize, u64>
    ensures ok { IfOk result (λ n. HasSize op.now n) }
    ensures long { IfErr result (λ n. long_number op.now ≡ Some n) }
{
    match op {
        Operation::Edit(edit) => edit_len(edit),
        Operation::Undo(undo) => undo_len(undo),
    }
}

fn record_bytes(alloc: Global, op: &Operation, size: usize) -> Result<Vec<u8>, OutOfMemory>
    requires { long_number op.now ≡ None }
    ensures { IfOk result (λ bytes. bytes.items ≡ spelling op.now) }
{
    let mut out = Vec::with_capacity(alloc, size)?;
    put(&mut out, op)?;
    Ok(out)
}

/// The record of an operation: its kind, stamp, version, and pieces or counts, with numbers big-endian. Linear in the
/// record; makes one allocation, of its size.
///
/// ```text
/// let record = encode(alloc, &op)?;
/// file.write_all(&record)?;
/// ```
///
/// # Errors
///
/// `Long` exactly if a number of pieces or of counts, or the bytes of an edit's texts so far, pass 65,536, with the
/// first such number of the record. A version has no more entries than that. `OutOfMemory` if none does and an
/// allocation fails.
pub fn encode(alloc: Global, op: &Operation) -> Result<Vec<u8>, EncodeFault>
    ensures ok { IfOk result (λ bytes. bytes.items ≡ spelling op.now) }
    ensures short { IfOk result (λ _. long_number op.now ≡ None) }
    ensures fits { long_number op.now ≡ None → HasSpelling op.now }
    ensures fault { IfErr result (λ e. EncodeCause e op.now) }
{
    match record_len(op) {
        Ok(size) => Ok(record_bytes(alloc, op, size)?),
        Err(number) => Err(EncodeFault::Long(number)),
    }
}

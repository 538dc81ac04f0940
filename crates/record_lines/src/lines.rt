//! The line of an operation.
ghost use Rattle.std.specs.Prelude.{◌≡◌, ◌++◌, IfOk, OnOk};
ghost use Rattle.op_model.specs.declared.operation.Operation.TheVariants.{Edit, Undo};
ghost use Rattle.session_writer.specs.Values.{line_text};
ghost use Rattle.record_lines.specs.Lines.{count_value, counts_value, entry_value, operation_lines, operation_value, piece_value, pieces_value, stamp_value, value_tokens, version_value};

use json::Writer;
use lamport_clock::Lamport;
use op_model::{EditOp, Operation, OutOfMemory, Piece, UndoCount, UndoOp};

fn put_stamp(writer: &mut Writer, t: Lamport) -> Result<(), OutOfMemory>
    ensures value { OnOk result (writer.new.tokens
        ≡ writer.old.tokens ++ value_tokens (stamp_value t)) }
    ensures before { writer.new.before ≡ writer.old.before }
{
    writer.begin_array()?;
    writer.u64(u64::from(t.value))?;
    writer.u64(u64::from(t.replica))?;
    writer.end_array()?;
    Ok(())
}

fn put_entry(writer: &mut Writer, replica: u16, value: u32) -> Result<(), OutOfMemory>
    ensures value { OnOk result (writer.new.tokens
        ≡ writer.old.tokens ++ value_tokens (entry_value (replica, value))) }
    ensures before { writer.new.before ≡ writer.old.before }
{
    writer.begin_array()?;
    writer.u64(u64::from(replica))?;
    writer.u64(u64::from(value))?;
    writer.end_array()?;
    Ok(())
}

fn put_version(writer: &mut Writer, entries: &[(u16, u32)]) -> Result<(), OutOfMemory>
    ensures value { OnOk result (writer.new.tokens
        ≡ writer.old.tokens ++ value_tokens (version_value entries.now)) }
    ensures before { writer.new.before ≡ writer.old.before }
{
    writer.begin_array()?;
    for &(replica, value) in entries {
        put_entry(writer, replica, value)?;
    }
    writer.end_array()?;
    Ok(())
}

fn put_piece(writer: &mut Writer, p: &Piece) -> Result<(), OutOfMemory>
    ensures value { OnOk result (writer.new.tokens
        ≡ writer.old.tokens ++ value_tokens (piece_value p.now)) }
    ensures before { writer.new.before ≡ writer.old.before }
{
    writer.begin_array()?;
    writer.u64(p.start)?;
    writer.u64(p.end)?;
    writer.string(p.text.as_str())?;
    writer.end_array()?;
    Ok(())
}

fn put_pieces(writer: &mut Writer, ps: &[Piece]) -> Result<(), OutOfMemory>
    ensures value { OnOk result (writer.new.tokens
        ≡ writer.old.tokens ++ value_tokens (pieces_value ps.now)) }
    ensures before { writer.new.before ≡ writer.old.before }
{
    writer.begin_array()?;
    for p in ps {
        put_piece(writer, p)?;
    }
    writer.end_array()?;
    Ok(())
}

fn put_count(writer: &mut Writer, c: UndoCount) -> Result<(), OutOfMemory>
    ensures value { OnOk result (writer.new.tokens
        ≡ writer.old.tokens ++ value_tokens (count_value c)) }
    ensures before { writer.new.before ≡ writer.old.before }
{
    writer.begin_array()?;
    writer.u64(u64::from(c.edit.value))?;
    writer.u64(u64::from(c.edit.replica))?;
    writer.u64(u64::from(c.count))?;
    writer.end_array()?;
    Ok(())
}

fn put_counts(writer: &mut Writer, cs: &[UndoCount]) -> Result<(), OutOfMemory>
    ensures value { OnOk result (writer.new.tokens
        ≡ writer.old.tokens ++ value_tokens (counts_value cs.now)) }
    ensures before { writer.new.before ≡ writer.old.before }
{
    writer.begin_array()?;
    for &c in cs {
        put_count(writer, c)?;
    }
    writer.end_array()?;
    Ok(())
}

fn put_edit(writer: &mut Writer, edit: &EditOp) -> Result<(), OutOfMemory>
    ensures value { OnOk result (writer.new.tokens
        ≡ writer.old.tokens ++ value_tokens (operation_value (Edit edit.now))) }
    ensures before { writer.new.before ≡ writer.old.before }
{
    writer.begin_array()?;
    writer.string("op")?;
    put_stamp(writer, edit.stamp)?;
    put_version(writer, edit.version.as_slice())?;
    put_pieces(writer, edit.pieces.as_slice())?;
    writer.end_array()?;
    Ok(())
}

fn put_undo(writer: &mut Writer, undo: &UndoOp) -> Result<(), OutOfMemory>
    ensures value { OnOk result (writer.new.tokens
        ≡ writer.old.tokens ++ value_tokens (operation_value (Undo undo.now))) }
    ensures before { writer.new.before ≡ writer.old.before }
{
    writer.begin_array()?;
    writer.string("uop")?;
    put_stamp(writer, undo.stamp)?;
    put_version(writer, undo.version.as_slice())?;
    put_counts(writer, undo.counts.as_slice())?;
    writer.end_array()?;
    Ok(())
}

fn put_operation(writer: &mut Writer, operation: &Operation) -> Result<(), OutOfMemory>
    ensures value { OnOk result (writer.new.tokens
        ≡ writer.old.tokens ++ value_tokens (operation_value operation.now)) }
    ensures before { writer.new.before ≡ writer.old.before }
{
    match operation {
        Operation::Edit(edit) => put_edit(writer, edit),
        Operation::Undo(undo) => put_undo(writer, undo),
    }
}

// The text with the line of an operation after it.
fn with_line(text: Vec<u8>, operation: &Operation) -> Result<Vec<u8>, OutOfMemory>
    ensures { IfOk result (λ v. v.items ≡ text.items ++ line_text (operation_value operation.now)) }
{
    let mut writer = Writer::new(text);
    put_operation(&mut writer, operation)?;
    let mut text = writer.into_inner();
    text.push(b'\n')?;
    Ok(text)
}

/// The text with the lines of operations after it. Linear in the lines; allocates for them alone.
///
/// # Errors
///
/// `OutOfMemory` if an allocation fails.
pub fn with_lines(text: Vec<u8>, operations: &[Operation]) -> Result<Vec<u8>, OutOfMemory>
    ensures { IfOk result (λ v. v.items ≡ text.items ++ operation_lines operations.now) }
{
    let mut lines = text;
    for operation in operations {
        lines = with_line(lines, operation)?;
    }
    Ok(lines)
}

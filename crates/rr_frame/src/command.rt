//! Commands as bytes, on a disk and in messages.

ghost use Rattle.std.specs.Prelude.{◌≡◌, ◌++◌, IfOk, OnOk};
ghost use Rattle.rr_types.specs.Commands.{operand_shape};
ghost use Rattle.rr_types.specs.Names.{IsName, IsValue};
ghost use Rattle.rr_frame.specs.Reading.{Gives};
ghost use Rattle.rr_frame.specs.CommandFormat.{text_bytes, operand_bytes, op_bytes, command_bytes, IsLawfulOperand, IsLawfulOp, IsLawfulCommand, name_at, value_at, operand_at, op_at, command_at};

use crate::number::{put_u8, put_u32, put_u64};
use crate::reader::Reader;
use crate::stop::Fault;
use crate::version::Version;
use rr_types::{Command, MAX_VALUE, Name, Op, OpKind, Operand, RequestNo, Shape, Value};
use std::alloc::AllocError;

#[tactic(auto, unfolding(crate::specs::CommandFormat::name_at, crate::specs::Reading::text_at))]
fn read_name(version: Version, reader: &mut Reader<'_>) -> Result<Name, Fault>
    ensures { Gives result reader.new (name_at version reader.old) }
{
    let here = reader.fault();
    let count = reader.u8()? as usize;
    if count == 0 || count > version.longest_name() {
        return Err(here);
    }
    let here = reader.fault();
    let text = reader.take(count)?;
    match Name::new(text) {
        Ok(name) => Ok(name),
        Err(_) => Err(here),
    }
}

#[tactic(auto, unfolding(crate::specs::CommandFormat::value_at, crate::specs::Reading::text_at))]
fn read_value(reader: &mut Reader<'_>) -> Result<Value, Fault>
    ensures { Gives result reader.new (value_at reader.old) }
{
    let here = reader.fault();
    let count = reader.u8()? as usize;
    if count > MAX_VALUE {
        return Err(here);
    }
    let here = reader.fault();
    let text = reader.take(count)?;
    match Value::new(text) {
        Ok(value) => Ok(value),
        Err(_) => Err(here),
    }
}

#[tactic(auto, unfolding(crate::specs::CommandFormat::operand_at))]
fn read_operand(shape: Shape, reader: &mut Reader<'_>) -> Result<Operand, Fault>
    ensures read { Gives result reader.new (operand_at shape reader.old) }
    ensures shaped { IfOk result (λ operand. operand_shape operand ≡ shape) }
{
    match shape {
        Shape::Bare => Ok(Operand::Nothing),
        Shape::Valued => {
            let value = read_value(reader)?;
            Ok(Operand::Value(value))
        }
        Shape::Owned => {
            let owner = reader.u32()?;
            Ok(Operand::Owner(owner))
        }
    }
}

#[tactic(auto, unfolding(crate::specs::CommandFormat::op_at))]
fn read_op(version: Version, reader: &mut Reader<'_>) -> Result<Op, Fault>
    ensures { Gives result reader.new (op_at version reader.old) }
{
    let here = reader.fault();
    let byte = reader.u8()?;
    if byte == 0 || byte > version.operations() {
        return Err(here);
    }
    let kind = OpKind::of_byte(byte);
    let name = read_name(version, reader)?;
    let operand = read_operand(kind.shape(), reader)?;
    Ok(Op::of(kind, &name, &operand))
}

/// Reads a command of a version. A fault is the first field that is cut short or holds no lawful value.
#[tactic(auto, unfolding(crate::specs::CommandFormat::command_at))]
pub fn read_command(version: Version, reader: &mut Reader<'_>) -> Result<Command, Fault>
    ensures { Gives result reader.new (command_at version reader.old) }
{
    let client = reader.u32()?;
    let seq = reader.u64()?;
    let op = read_op(version, reader)?;
    let request = RequestNo { client, seq };
    Ok(Command { request, op })
}

fn put_name(out: &mut Vec<u8>, name: &Name) -> Result<(), AllocError>
    ensures name { IsName name.now }
    ensures ok { OnOk result (out.new.items ≡ out.old.items ++ text_bytes name.now) }
{
    let bytes = name.as_bytes();
    put_u8(out, bytes.len() as u8)?;
    out.extend_from_slice(bytes)?;
    Ok(())
}

fn put_value(out: &mut Vec<u8>, value: &Value) -> Result<(), AllocError>
    ensures value { IsValue value.now }
    ensures ok { OnOk result (out.new.items ≡ out.old.items ++ text_bytes value.now) }
{
    let bytes = value.as_bytes();
    put_u8(out, bytes.len() as u8)?;
    out.extend_from_slice(bytes)?;
    Ok(())
}

fn put_operand(out: &mut Vec<u8>, operand: &Operand) -> Result<(), AllocError>
    ensures operand { IsLawfulOperand operand.now }
    ensures ok { OnOk result (out.new.items ≡ out.old.items ++ operand_bytes operand.now) }
{
    match operand {
        Operand::Nothing => Ok(()),
        Operand::Value(value) => put_value(out, value),
        Operand::Owner(owner) => put_u32(out, *owner),
    }
}

#[tactic(auto, using(rr_types::proofs::PartLemmas::byte_last), unfolding(crate::specs::CommandFormat::op_bytes))]
fn put_op(out: &mut Vec<u8>, op: &Op) -> Result<(), AllocError>
    ensures ok { OnOk result (out.new.items ≡ out.old.items ++ op_bytes op.now) }
    ensures lawful { OnOk result (IsLawfulOp op.now) }
{
    put_u8(out, op.kind().byte())?;
    put_name(out, op.name())?;
    put_operand(out, &op.operand())
}

/// Puts a command behind the other bytes.
#[tactic(auto, unfolding(crate::specs::CommandFormat::command_bytes))]
pub fn put_command(out: &mut Vec<u8>, command: &Command) -> Result<(), AllocError>
    ensures ok { OnOk result (out.new.items ≡ out.old.items ++ command_bytes command.now) }
    ensures lawful { OnOk result (IsLawfulCommand command.now) }
{
    put_u32(out, command.request.client)?;
    put_u64(out, command.request.seq)?;
    put_op(out, &command.op)?;
    Ok(())
}

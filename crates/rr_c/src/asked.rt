//! What a caller in C asks for, in the library's types.

ghost use Rattle.std.specs.Prelude.{◌≡◌, ◌≤◌, ◌↔◌, [], IsTrue, IfOk, OnOk, OnErr};
ghost use Rattle.rr_types.specs.Names.{IsName, IsValue};
ghost use Rattle.rr_types.specs.Commands.{operand_shape};
ghost use Rattle.rr_host.specs.Doings.{IsOf};
ghost use Rattle.rr_c.specs.Calls.{IsOp, operand_asked, op_asked};

use rr_host::Host;
use rr_types::{Name, Op, OpKind, Operand, Refusal, Shape, Value, made_of};
use std::alloc::Global;

fn copied(alloc: Global, bytes: &[u8]) -> Result<Vec<u8>, Refusal>
    ensures { IfOk result (λ copy. copy.items ≡ bytes.now) }
{
    let mut copy = Vec::new(alloc);
    copy.extend_from_slice(bytes)?;
    Ok(copy)
}

/// A node over copies of what its areas hold.
pub(crate) fn opened(
    alloc: Global,
    nodes: u8,
    node: u8,
    first: &[u8],
    second: &[u8],
    is_new: bool,
) -> Result<Box<Host>, Refusal>
    ensures vanished { OnOk result (IsTrue is_new ↔ ((first.now ≡ []) × (second.now ≡ []))) }
    ensures whose { IfOk result (λ h. (h.value.nodes ≡ nodes) × (h.value.node ≡ node) × IsOf nodes node h.value.doing) }
{
    let first = copied(alloc, first)?;
    let second = copied(alloc, second)?;
    let host = Host::open(alloc, nodes, node, first, second, is_new)?;
    let held = Box::new(alloc, host)?;
    Ok(held)
}

/// The operation of a kind from 1 to 4.
///
/// # Errors
/// `BadName`; `BadValue`, where the kind has a value; `Malformed`, where there is no such kind.
pub(crate) fn operation(kind: u32, name: &[u8], value: &[u8], owner: u32) -> Result<Op, Refusal>
    ensures asked { IfOk result (λ op. op ≡ op_asked kind name.now value.now owner) }
    ensures kinds { OnOk result ((1 ≤ kind) × (kind ≤ 4)) }
    ensures name { OnOk result (IsName name.now) }
    ensures refused { OnErr result (IsOp kind name.now value.now → ⊥) }
{
    made_of!(Op, Operand, Name, Value);
    if kind == 0 || kind > 4 {
        return Err(Refusal::Malformed(0));
    }
    let name = Name::new(name)?;
    let kind = OpKind::of_byte(kind as u8);
    let operand = operand(kind.shape(), value, owner)?;
    Ok(Op::of(kind, &name, &operand))
}

// What an operation of this shape has beside its name.
fn operand(shape: Shape, value: &[u8], owner: u32) -> Result<Operand, Refusal>
    ensures asked { IfOk result (λ operand. operand ≡ operand_asked shape value.now owner) }
    ensures shape { IfOk result (λ operand. operand_shape operand ≡ shape) }
    ensures refused { OnErr result ((shape ≡ Shape.Valued) × (IsValue value.now → ⊥)) }
{
    made_of!(Value);
    match shape {
        Shape::Bare => Ok(Operand::Nothing),
        Shape::Valued => Ok(Operand::Value(Value::new(value)?)),
        Shape::Owned => Ok(Operand::Owner(owner)),
    }
}

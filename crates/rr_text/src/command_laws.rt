//! What the types of a command keep of its text.

ghost use Rattle.std.specs.Prelude.{◌≡◌};
ghost use Rattle.rr_text.specs.Words.{IsOperand, IsOp, IsCommand};

use rr_types::{Command, Op, Operand};

fn operand_law(operand: &Operand)
    ensures { IsOperand operand.now }
{
    match operand {
        Operand::Nothing => (),
        Operand::Value(value) => {
            let _value = value.as_bytes();
        }
        Operand::Owner(owner) => {
            let _owner = *owner;
        }
    }
}

/// An operation has a name, and a value that isn't too long. It does nothing when it runs, as the law below.
fn op_law(op: &Op)
    ensures { IsOp op.now }
{
    let _name = op.name().as_bytes();
    operand_law(&op.operand());
}

/// A command is one that the texts can name: its type keeps the ranges of its parts.
pub fn command_law(command: &Command)
    ensures { IsCommand command.now }
{
    op_law(&command.op);
    let _client = command.request.client;
    let _seq = command.request.seq;
}

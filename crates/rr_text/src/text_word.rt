//! Printing the words that schedules and reports have in common.

ghost use Rattle.std.specs.Prelude.{◌≡◌, ◌∷◌, ◌++◌, OnOk, decimal};
ghost use Rattle.std.specs.List.{flat_map};
ghost use Rattle.std.specs.Prelude.{[], ◌-◌, ◌≤◌, ◌<◌};
ghost use Rattle.rr_text.specs.Words.{spaced, operand_words, op_words, set_text, fill_text, hex_pair, hex_digit, member_digits};
ghost use Rattle.rr_text.specs.ReportTexts.{owner_words, reply_words};

use itoa::Buffer;
use rr_types::{Name, NodeSet, Op, Operand, Reply};
use std::alloc::AllocError;

/// Appends bytes.
pub fn push_bytes(out: &mut Vec<u8>, bytes: &[u8]) -> Result<(), AllocError>
    ensures ok { OnOk result (out.new.items ≡ out.old.items ++ bytes.now) }
{
    out.extend_from_slice(bytes)?;
    Ok(())
}

/// Appends one byte.
pub fn push_byte(out: &mut Vec<u8>, byte: u8) -> Result<(), AllocError>
    ensures ok { OnOk result (out.new.items ≡ out.old.items ++ byte ∷ []) }
{
    out.push(byte)?;
    Ok(())
}

/// Appends a number in decimal.
#[tactic(auto, using(std::proofs::lemmas::Fmt::decimal_digit))]
pub fn push_number(out: &mut Vec<u8>, number: u64) -> Result<(), AllocError>
    ensures ok { OnOk result (out.new.items ≡ out.old.items ++ decimal number) }
{
    if number < 10 {
        return push_byte(out, b'0' + number as u8);
    }
    let mut buffer = Buffer::new();
    push_bytes(out, buffer.format(number).as_bytes())
}

/// Appends a space and a word.
pub fn push_word(out: &mut Vec<u8>, word: &[u8]) -> Result<(), AllocError>
    ensures ok { OnOk result (out.new.items ≡ out.old.items ++ 32 ∷ word.now) }
{
    push_byte(out, b' ')?;
    push_bytes(out, word)
}

/// Appends a space and a number in decimal.
pub fn push_number_word(out: &mut Vec<u8>, number: u64) -> Result<(), AllocError>
    ensures ok { OnOk result (out.new.items ≡ out.old.items ++ 32 ∷ decimal number) }
{
    push_byte(out, b' ')?;
    push_number(out, number)
}

// A name, and what stands beside it. The empty value is no word.
fn push_named(out: &mut Vec<u8>, name: &Name, operand: &Operand) -> Result<(), AllocError>
    ensures ok { OnOk result (out.new.items ≡ out.old.items ++ 32 ∷ spaced (name.now ∷ operand_words operand.now)) }
{
    push_word(out, name.as_bytes())?;
    match operand {
        Operand::Nothing => Ok(()),
        Operand::Value(value) => {
            let value = value.as_bytes();
            match value {
                [] => Ok(()),
                [_, ..] => push_word(out, value),
            }
        }
        Operand::Owner(owner) => push_number_word(out, u64::from(*owner)),
    }
}

/// Appends a space and an operation.
pub fn push_op(out: &mut Vec<u8>, op: &Op) -> Result<(), AllocError>
    ensures ok { OnOk result (out.new.items ≡ out.old.items ++ 32 ∷ spaced (op_words op.now)) }
{
    push_word(out, op.kind().word().as_bytes())?;
    push_named(out, op.name(), &op.operand())
}

// A word, and the owner that is named behind it.
fn push_owned_word(out: &mut Vec<u8>, word: &[u8], owner: Option<u32>) -> Result<(), AllocError>
    ensures ok { OnOk result (out.new.items ≡ out.old.items ++ spaced (word.now ∷ owner_words owner)) }
{
    push_bytes(out, word)?;
    match owner {
        None => Ok(()),
        Some(owner) => push_number_word(out, u64::from(owner)),
    }
}

/// Appends a reply: its word, and the owner of a name that is taken.
pub fn push_reply(out: &mut Vec<u8>, reply: Reply) -> Result<(), AllocError>
    ensures ok { OnOk result (out.new.items ≡ out.old.items ++ spaced (reply_words reply)) }
{
    push_owned_word(out, reply.kind().word().as_bytes(), reply.owner())
}

#[tactic(auto, using(crate::proofs::WordLemmas::member_digits_step, crate::proofs::WordLemmas::member_digits_end, crate::proofs::WordLemmas::members_one))]
fn push_members(out: &mut Vec<u8>, node: u8, bits: u8) -> Result<(), AllocError>
    requires { node ≤ 7 }
    ensures ok { OnOk result (out.new.items ≡ out.old.items ++ member_digits node (7 - node) bits) }
{
    if node == 7 {
        return Ok(());
    }
    if bits % 2 == 1 {
        push_byte(out, b'0' + node)?;
        push_members(out, node + 1, bits / 2)
    } else {
        push_members(out, node + 1, bits / 2)
    }
}

/// Appends a space and a set of nodes.
pub fn push_set(out: &mut Vec<u8>, set: NodeSet) -> Result<(), AllocError>
    ensures ok { OnOk result (out.new.items ≡ out.old.items ++ 32 ∷ set_text set) }
{
    let bits = set.bits();
    if bits == 0 {
        push_word(out, b"-")
    } else {
        push_byte(out, b' ')?;
        push_members(out, 0, bits)
    }
}

fn hex_digit(digit: u8) -> u8
    requires { digit < 16 }
    ensures { result ≡ hex_digit digit }
{
    if digit < 10 {
        b'0' + digit
    } else {
        b'A' + (digit - 10)
    }
}

/// Appends a space and the bytes of a fill.
pub fn push_fill(out: &mut Vec<u8>, fill: &[u8]) -> Result<(), AllocError>
    ensures ok { OnOk result (out.new.items ≡ out.old.items ++ 32 ∷ fill_text fill.now) }
{
    if fill.is_empty() {
        return push_word(out, b"-");
    }
    push_byte(out, b' ')?;
    push_pairs(out, fill)
}

#[tactic(auto, using(crate::proofs::WordLemmas::pairs_more))]
fn push_pairs(out: &mut Vec<u8>, bytes: &[u8]) -> Result<(), AllocError>
    ensures ok { OnOk result (out.new.items ≡ out.old.items ++ flat_map hex_pair bytes.now) }
{
    for byte in bytes {
        push_byte(out, hex_digit(*byte / 16))?;
        push_byte(out, hex_digit(*byte % 16))?;
    }
    Ok(())
}

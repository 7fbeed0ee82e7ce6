//! The parts of JSON texts.

ghost use Rattle.std.specs.Prelude.{◌≡◌, ◌∷◌, ◌++◌, [], OnOk, codes};
ghost use Rattle.std.specs.List.{flat_map};
ghost use Rattle.rr_json.specs.Json.{quoted, escaped_byte, label, begun, text_member, words_member, number_member, opened};

use rr_text::text_word::{push_byte, push_bytes, push_number};
use std::alloc::AllocError;

/// Appends a text between quotation marks. It has none, and no backslash.
///
/// # Errors
/// Bytes of it may then stand at the end, as for all functions of this file.
#[tactic(auto, unfolding(crate::specs::Json::quoted))]
pub fn push_quoted(out: &mut Vec<u8>, text: &[u8]) -> Result<(), AllocError>
    ensures ok { OnOk result (out.new.items ≡ out.old.items ++ quoted text.now) }
{
    push_byte(out, b'"')?;
    push_bytes(out, text)?;
    push_byte(out, b'"')
}

fn push_escaped_byte(out: &mut Vec<u8>, byte: u8) -> Result<(), AllocError>
    ensures ok { OnOk result (out.new.items ≡ out.old.items ++ escaped_byte byte) }
{
    if byte == b'"' || byte == b'\\' {
        push_bytes(out, &[b'\\', byte])
    } else if 32 <= byte && byte <= 126 {
        push_byte(out, byte)
    } else {
        push_byte(out, b' ')
    }
}

/// Appends what stands between the quotation marks for any text: a backslash before a quotation mark and a backslash, and a
/// space for a byte that isn't printable ASCII.
pub fn push_escaped(out: &mut Vec<u8>, text: &[u8]) -> Result<(), AllocError>
    ensures ok { OnOk result (out.new.items ≡ out.old.items ++ flat_map escaped_byte text.now) }
{
    for byte in text {
        push_escaped_byte(out, *byte)?;
    }
    Ok(())
}

/// Appends a comma, the name of a member, and a colon.
#[tactic(auto, unfolding(crate::specs::Json::label))]
pub fn push_label(out: &mut Vec<u8>, name: &[u8]) -> Result<(), AllocError>
    ensures ok { OnOk result (out.new.items ≡ out.old.items ++ label name.now) }
{
    push_byte(out, b',')?;
    push_quoted(out, name)?;
    push_byte(out, b':')
}

/// Appends the beginning of an object, the name of its first member, and a colon.
#[tactic(auto, unfolding(crate::specs::Json::begun))]
pub fn push_begun(out: &mut Vec<u8>, name: &[u8]) -> Result<(), AllocError>
    ensures ok { OnOk result (out.new.items ≡ out.old.items ++ begun name.now) }
{
    push_byte(out, b'{')?;
    push_quoted(out, name)?;
    push_byte(out, b':')
}

/// Appends a member that is a text without quotation marks and backslashes.
#[tactic(auto, unfolding(crate::specs::Json::text_member))]
pub fn push_text_member(out: &mut Vec<u8>, name: &[u8], text: &[u8]) -> Result<(), AllocError>
    ensures ok { OnOk result (out.new.items ≡ out.old.items ++ text_member name.now text.now) }
{
    push_label(out, name)?;
    push_quoted(out, text)
}

/// Appends a member that is any text.
#[tactic(auto, unfolding(crate::specs::Json::words_member, crate::specs::Json::quoted))]
pub fn push_words_member(out: &mut Vec<u8>, name: &[u8], text: &[u8]) -> Result<(), AllocError>
    ensures ok { OnOk result (out.new.items ≡ out.old.items ++ words_member name.now text.now) }
{
    push_label(out, name)?;
    push_byte(out, b'"')?;
    push_escaped(out, text)?;
    push_byte(out, b'"')
}

/// Appends a member that is a number.
#[tactic(auto, unfolding(crate::specs::Json::number_member))]
pub fn push_number_member(out: &mut Vec<u8>, name: &[u8], number: u64) -> Result<(), AllocError>
    ensures ok { OnOk result (out.new.items ≡ out.old.items ++ number_member name.now number) }
{
    push_label(out, name)?;
    push_number(out, number)
}

/// Appends the beginning of an object, with its kind.
#[tactic(auto, unfolding(crate::specs::Json::opened))]
pub fn push_open(out: &mut Vec<u8>, kind: &[u8]) -> Result<(), AllocError>
    ensures ok { OnOk result (out.new.items ≡ out.old.items ++ opened kind.now) }
{
    push_begun(out, b"kind")?;
    push_quoted(out, kind)
}

/// Appends the end of an object and of its line.
pub fn push_end(out: &mut Vec<u8>) -> Result<(), AllocError>
    ensures ok { OnOk result (out.new.items ≡ out.old.items ++ 125 ∷ 10 ∷ []) }
{
    push_bytes(out, b"}\n")
}

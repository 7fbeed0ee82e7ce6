//! Text within SVG, and JSON within a script of HTML.

ghost use Rattle.std.specs.Prelude.{◌≡◌, ◌++◌, OnOk, IfErr};
ghost use Rattle.std.specs.List.{flat_map};
ghost use Rattle.rr_draw.specs.Pictures.{escaped, in_script};

use rr_text::text_word::{push_byte, push_bytes};
use rr_types::Refusal;

/// Appends a byte of a text. Those that SVG reads as its own are spelt by name.
fn push_escaped_byte(out: &mut Vec<u8>, byte: u8) -> Result<(), Refusal>
    ensures ok { OnOk result (out.new.items ≡ out.old.items ++ escaped byte) }
    ensures err { IfErr result (λ e. e ≡ Refusal.OutOfMemory) }
{
    match byte {
        b'&' => Ok(push_bytes(out, b"&amp;")?),
        b'<' => Ok(push_bytes(out, b"&lt;")?),
        b'>' => Ok(push_bytes(out, b"&gt;")?),
        b'"' => Ok(push_bytes(out, b"&quot;")?),
        _ => Ok(push_byte(out, byte)?),
    }
}

/// Appends a text, whose bytes SVG shows as they are.
pub fn push_escaped(out: &mut Vec<u8>, text: &[u8]) -> Result<(), Refusal>
    ensures ok { OnOk result (out.new.items ≡ out.old.items ++ flat_map escaped text.now) }
    ensures err { IfErr result (λ e. e ≡ Refusal.OutOfMemory) }
{
    for byte in text {
        push_escaped_byte(out, *byte)?;
    }
    Ok(())
}

/// Appends a byte of JSON. HTML would read the byte that begins an element; JSON spells it by its number.
fn push_script_byte(out: &mut Vec<u8>, byte: u8) -> Result<(), Refusal>
    ensures ok { OnOk result (out.new.items ≡ out.old.items ++ in_script byte) }
    ensures err { IfErr result (λ e. e ≡ Refusal.OutOfMemory) }
{
    match byte {
        b'<' => Ok(push_bytes(out, b"\\u003c")?),
        _ => Ok(push_byte(out, byte)?),
    }
}

/// Appends JSON, which stands in a script of HTML as it is.
pub fn push_script_data(out: &mut Vec<u8>, json: &[u8]) -> Result<(), Refusal>
    ensures ok { OnOk result (out.new.items ≡ out.old.items ++ flat_map in_script json.now) }
    ensures err { IfErr result (λ e. e ≡ Refusal.OutOfMemory) }
{
    for byte in json {
        push_script_byte(out, *byte)?;
    }
    Ok(())
}

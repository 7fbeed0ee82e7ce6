//! Notes: lines that stand beside those of a report.

ghost use Rattle.std.specs.Prelude.{◌≡◌, ◌++◌, ◌∷◌, [], map, codes, OnOk, IfErr};
ghost use Rattle.rr_account.specs.Texts.{unbroken, note_line};

use rr_text::text_word::{push_byte, push_bytes};
use rr_types::Refusal;

// A byte as a line has it: a space for a line feed.
fn unbroken(byte: u8) -> u8
    ensures { result ≡ unbroken byte }
{
    if byte == b'\n' { b' ' } else { byte }
}

// Appends bytes, with a space for each line feed.
fn push_unbroken(text: &mut Vec<u8>, bytes: &[u8]) -> Result<(), Refusal>
    ensures ok { OnOk result (text.new.items ≡ text.old.items ++ map unbroken bytes.now) }
    ensures err { IfErr result (λ e. e ≡ Refusal.OutOfMemory) }
{
    for byte in bytes {
        text.push(unbroken(*byte))?;
    }
    Ok(())
}

/// Appends a note, a line that begins with four spaces.
pub(crate) fn push_note(text: &mut Vec<u8>, words: &[u8]) -> Result<(), Refusal>
    ensures ok { OnOk result (text.new.items ≡ text.old.items ++ note_line words.now) }
    ensures err { IfErr result (λ e. e ≡ Refusal.OutOfMemory) }
{
    push_bytes(text, b"    ")?;
    push_unbroken(text, words)?;
    Ok(push_byte(text, b'\n')?)
}

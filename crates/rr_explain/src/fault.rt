//! A fault of a text, and the line that tells it.

ghost use Rattle.std.specs.Prelude.{◌≡◌, ◌≤◌, ◌+◌, ℕ, List, [], ◌∷◌, ◌++◌, length, codes, OnOk};
ghost use Rattle.std.specs.List.{list_all, flat_map};
ghost use Rattle.std.specs.Io.KnownBytes.{Appends};
ghost use Rattle.rr_explain.specs.Faults.{is_printable, shown_byte, shown, ArePlain, fault_line};
ghost use Rattle.rr_explain.specs.Found.{kind_words, found_text, IsFaultOf};

use std::io;
use std::io::Write;

/// What is wrong at a place of a line.
#[derive(Clone, Copy, Debug)]
pub(crate) enum Kind<'a> {
    /// The word that stands there isn't what is called so; this is expected.
    Word(&'a [u8], &'static str, &'static str),
    /// The line ends where something that is called so is expected.
    Missing(&'static str, &'static str),
    /// What these words say.
    Said(&'static str),
}

/// What is wrong in a text, in which line, and at which byte of it, both from 1.
#[derive(Clone, Copy, Debug)]
pub(crate) struct Fault<'a> {
    pub(crate) line: u64,
    pub(crate) column: u64,
    pub(crate) kind: Kind<'a>,
}

/// A fault that words say, whatever stands in the line.
pub(crate) fn said<'a>(number: u64, column: u64, words: &'static str) -> Fault<'a>
    requires behind { 1 ≤ column }
    requires plain { ArePlain words.now }
    ensures { (line : List ℕ) → column ≤ length line + 1 → IsFaultOf line number result }
{
    Fault {
        line: number,
        column,
        kind: Kind::Said(words),
    }
}

/// Prints the line that tells the fault that was found in the text of this name; nothing where none was.
pub(crate) fn print_found<W: Write>(
    err: &mut W,
    name: &str,
    found: Option<Fault<'_>>,
) -> io::Result<()>
    ensures { OnOk result (Appends (W.contents err.old) (W.contents err.new) (found_text name.now found.entry)) }
{
    match found {
        Some(fault) => print_fault(err, name, fault),
        None => Ok(()),
    }
}

fn print_fault<W: Write>(err: &mut W, name: &str, fault: Fault<'_>) -> io::Result<()>
    ensures { OnOk result (Appends (W.contents err.old) (W.contents err.new) (fault_line name.now fault.entry.line fault.entry.column (kind_words fault.entry.kind))) }
{
    let line = fault.line;
    let column = fault.column;
    write!(err, "{name}:{line}:{column}: ")?;
    print_kind(err, fault.kind)
}

// Prints what is wrong, to the end of the line.
fn print_kind<W: Write>(err: &mut W, kind: Kind<'_>) -> io::Result<()>
    ensures { OnOk result (Appends (W.contents err.old) (W.contents err.new) (kind_words kind.entry ++ 10 ∷ [])) }
{
    match kind {
        Kind::Word(word, called, expected) => print_word(err, word, called, expected),
        Kind::Missing(called, expected) => {
            writeln!(
                err,
                "the line ends without its {called}; expected {expected}"
            )
        }
        Kind::Said(words) => writeln!(err, "{words}"),
    }
}

// Prints that a word isn't what is called so.
fn print_word<W: Write>(err: &mut W, word: &[u8], called: &str, expected: &str) -> io::Result<()>
    ensures { OnOk result (Appends (W.contents err.old) (W.contents err.new)
        (codes "no " ++ called.now ++ 32 ∷ 34 ∷ shown word.now ++ 34 ∷ codes "; expected " ++ expected.now ++ 10 ∷ [])) }
{
    write!(err, "no {called} \"")?;
    print_shown(err, word)?;
    writeln!(err, "\"; expected {expected}")
}

// How many bytes of a word are shown.
const SHOWN: usize = 80;

// Prints a word, of a long one its front.
fn print_shown<W: Write>(err: &mut W, word: &[u8]) -> io::Result<()>
    ensures { OnOk result (Appends (W.contents err.old) (W.contents err.new) (shown word.now)) }
{
    if word.len() > SHOWN {
        let front = &word[..SHOWN];
        print_bytes(err, front)?;
        err.write_all(b"..")
    } else {
        print_bytes(err, word)
    }
}

pub(crate) fn is_printable(byte: u8) -> bool
    ensures { result ≡ is_printable byte }
{
    matches!(byte, b' '..=b'~')
}

fn are_printable(bytes: &[u8]) -> bool
    ensures { result ≡ list_all is_printable bytes.now }
{
    bytes.iter().all(|byte| is_printable(*byte))
}

// Prints bytes, at once where each is printable.
fn print_bytes<W: Write>(err: &mut W, bytes: &[u8]) -> io::Result<()>
    ensures { OnOk result (Appends (W.contents err.old) (W.contents err.new) (flat_map shown_byte bytes.now)) }
{
    if are_printable(bytes) {
        return err.write_all(bytes);
    }
    for byte in bytes {
        print_byte(err, *byte)?;
    }
    Ok(())
}

// Prints a byte. One that isn't printable ASCII is shown by its number.
pub(crate) fn print_byte<W: Write>(err: &mut W, byte: u8) -> io::Result<()>
    ensures { OnOk result (Appends (W.contents err.old) (W.contents err.new) (shown_byte byte)) }
{
    if is_printable(byte) {
        err.write_all(&[byte])
    } else {
        write!(err, "\\x{byte:02x}")
    }
}

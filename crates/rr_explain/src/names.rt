//! Names and lines that people gave, printed so that no control byte of theirs comes to a terminal.

ghost use Rattle.std.specs.Prelude.{◌≡◌, OnOk};
ghost use Rattle.std.specs.List.{list_all, flat_map};
ghost use Rattle.std.specs.Io.KnownBytes.{Appends};
ghost use Rattle.rr_explain.specs.Names.{is_clean, given_byte};

use crate::fault::{is_printable, print_byte};
use std::io;
use std::io::Write;

fn is_clean(byte: u8) -> bool
    ensures { result ≡ is_clean byte }
{
    is_printable(byte) || byte == b'\n' || byte >= 128
}

fn are_clean(bytes: &[u8]) -> bool
    ensures { result ≡ list_all is_clean bytes.now }
{
    bytes.iter().all(|byte| is_clean(*byte))
}

// Prints a byte, a control byte by its number.
fn print_given_byte<W: Write>(out: &mut W, byte: u8) -> io::Result<()>
    ensures { OnOk result (Appends (W.contents out.old) (W.contents out.new) (given_byte byte)) }
{
    if is_clean(byte) {
        out.write_all(&[byte])
    } else {
        print_byte(out, byte)
    }
}

/// Prints bytes that people gave. A control byte is shown as `\x` and two hex digits, and all else as it is, as a line feed.
///
/// # Errors
/// Those of the writer; some of the bytes may then be printed.
pub fn print_given<W: Write>(out: &mut W, bytes: &[u8]) -> io::Result<()>
    ensures { OnOk result (Appends (W.contents out.old) (W.contents out.new) (flat_map given_byte bytes.now)) }
{
    if are_clean(bytes) {
        return out.write_all(bytes);
    }
    for byte in bytes {
        print_given_byte(out, *byte)?;
    }
    Ok(())
}

/// A writer to people, who may have a terminal: it prints all as `print_given` does. No contract knows what it holds.
#[derive(Drop)]
pub struct Shown<W> {
    out: W,
}

impl<W> Shown<W> {
    /// To this writer.
    pub fn new(out: W) -> Shown<W>
        ensures { result.out ≡ out }
    {
        Shown { out }
    }
}

impl<W: Write> Write for Shown<W> {
    fn write(&mut self, bytes: &[u8]) -> io::Result<usize> {
        print_given(&mut self.out, bytes)?;
        Ok(bytes.len())
    }

    fn flush(&mut self) -> io::Result<()> {
        self.out.flush()
    }
}

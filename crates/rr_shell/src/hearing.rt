//! Hearing a line: reading it from an input, and nothing behind it.

ghost use Rattle.std.specs.Prelude.{◌≡◌, ◌≤◌, ◌<◌, ℕ, List, [], ◌∷◌, IfOk, OnOk, IfSome, IfNone, length};
ghost use Rattle.std.specs.Io.KnownBytes.{Consumes, IsAtEnd};
ghost use Rattle.rr_shell.specs.Hearings.{IsNextByte, IsSkipped, Hears};

use crate::shell_line::MAX_LINE;
use rr_stream::Source;
use std::alloc::Global;
use std::io;
use std::io::Error;

/// What is heard next.
#[derive(Debug, Drop)]
pub enum Heard {
    /// A line, without its line feed, which the last one may lack.
    Line(Vec<u8>),
    /// A line of more bytes than a line may have. All of it is read and thrown away.
    TooLong,
    /// The end of the input.
    End,
}

// The next byte, unless the input is at its end. What the shell doesn't hear is left for the next reader of the input.
// No answer waits for a line after the one that asks.
fn next_byte<I: Source>(input: &mut I) -> io::Result<Option<u8>>
    ensures next { IfOk result (IsNextByte (I.reading input.old) (I.reading input.new)) }
    ensures faults { (I.reading input.old).faults ≤ (I.reading input.new).faults }
{
    let mut room = [0u8; 1];
    let read = input.read(&mut room)?;
    if read == 0 {
        Ok(None)
    } else {
        Ok(Some(room[0]))
    }
}

// Reads on to the end of a line that is known to be too long.
fn skip_line<I: Source>(input: &mut I) -> io::Result<()>
    ensures skipped { OnOk result (IsSkipped (I.reading input.old) (I.reading input.new)) }
    ensures faults { (I.reading input.old).faults ≤ (I.reading input.new).faults }
{
    'bytes: for _ in 0..u64::MAX {
        let Some(byte) = next_byte(input)? else {
            return Ok(());
        };
        if byte == b'\n' {
            return Ok(());
        }
    }
    Err(Error::other("a line without an end"))
}

/// Hears the next line.
///
/// # Errors
/// Those of the input, and `OutOfMemory`. What was read of the line is lost then.
pub fn hear<I: Source>(alloc: Global, input: &mut I) -> io::Result<Heard>
    ensures heard { IfOk result (Hears (I.reading input.old) (I.reading input.new)) }
    ensures faults { (I.reading input.old).faults ≤ (I.reading input.new).faults }
{
    let mut line = Vec::new(alloc);
    'bytes: while line.len() <= MAX_LINE {
        match next_byte(input)? {
            None => {
                if line.is_empty() {
                    return Ok(Heard::End);
                }
                return Ok(Heard::Line(line));
            }
            Some(b'\n') => return Ok(Heard::Line(line)),
            Some(byte) => line.push(byte)?,
        }
    }
    skip_line(input)?;
    Ok(Heard::TooLong)
}

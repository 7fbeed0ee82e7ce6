//! A writer to people that prints the reason of a refusal before its number.

ghost use Rattle.std.specs.Prelude.{◌≡◌};

use std::io;
use std::io::Write;

// The most bytes of the line of a refusal.
const MOST: usize = 80;

/// A writer to people. Where they see what comes as it comes, the line of the first refusal, as `rr: 14 BadEvent 7`, is kept until
/// `finish`: so what is said of its reason stands before it. Elsewhere all is printed as it comes. No contract knows what it holds.
#[derive(Drop)]
pub struct ReasonsFirst<W> {
    out: W,
    is_on: bool,
    // The front of the line, where it may be that of a refusal, or all of it.
    kept: [u8; MOST],
    count: usize,
    is_whole: bool,
    // Whether the line is another.
    is_other: bool,
}

impl<W> ReasonsFirst<W> {
    /// To this writer, where people see what comes as it comes, or elsewhere.
    pub fn new(out: W, is_on: bool) -> ReasonsFirst<W>
        ensures out { result.out ≡ out }
        ensures on { result.is_on ≡ is_on }
    {
        ReasonsFirst {
            out,
            is_on,
            kept: [0; MOST],
            count: 0,
            is_whole: false,
            is_other: false,
        }
    }
}

impl<W: Write> ReasonsFirst<W> {
    /// Prints what was kept.
    pub fn finish(&mut self) {
        if let Some(kept) = self.kept.get(..self.count) {
            let _ = self.out.write_all(kept);
        }
        let _ = self.out.flush();
        self.count = 0;
        self.is_whole = false;
    }

    // Keeps a byte of the line of a refusal. Answers whether it is one.
    fn keep(&mut self, byte: u8) -> bool {
        if !can_follow(self.count, byte) {
            return false;
        }
        let Some(room) = self.kept.get_mut(self.count) else {
            return false;
        };
        *room = byte;
        self.count += 1;
        self.is_whole = byte == b'\n';
        true
    }

    // Takes the next byte.
    fn take(&mut self, byte: u8) -> io::Result<()> {
        if self.is_whole {
            return self.out.write_all(&[byte]);
        }
        if !self.is_other && self.keep(byte) {
            return Ok(());
        }
        if let Some(kept) = self.kept.get(..self.count) {
            self.out.write_all(kept)?;
        }
        self.count = 0;
        self.is_other = byte != b'\n';
        self.out.write_all(&[byte])
    }
}

// Whether a byte can stand at this place of the line of a refusal.
fn can_follow(place: usize, byte: u8) -> bool {
    match place {
        0 | 1 => byte == b'r',
        2 => byte == b':',
        3 => byte == b' ',
        4 => byte.is_ascii_digit(),
        _ => true,
    }
}

impl<W: Write> Write for ReasonsFirst<W> {
    fn write(&mut self, bytes: &[u8]) -> io::Result<usize> {
        if !self.is_on || self.is_whole {
            self.out.write_all(bytes)?;
            return Ok(bytes.len());
        }
        for byte in bytes {
            self.take(*byte)?;
        }
        Ok(bytes.len())
    }

    fn flush(&mut self) -> io::Result<()> {
        self.out.flush()
    }
}

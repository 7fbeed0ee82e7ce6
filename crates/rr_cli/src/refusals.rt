//! How a refusal ends the program.

ghost use Rattle.std.specs.Prelude.{◌≡◌, OnOk};
ghost use Rattle.std.specs.Io.KnownBytes.{Appends};
ghost use Rattle.rr_cli.specs.Refusals.{status_of, refusal_line};

use rr_explain::{print_schedule_fault, print_tape_fault};
use rr_text::{Schedule, Tape};
use rr_types::Refusal;
use std::alloc::Global;
use std::io;
use std::io::Write;

/// The exit status of a refusal: 3 for a schedule or a tape, 4 for a damaged area, 5 for a device, 6 for memory and 7
/// for an audit.
pub fn status(refusal: &Refusal) -> u8
    ensures { result ≡ status_of refusal.now }
{
    match refusal {
        Refusal::BadNodes | Refusal::BadEvent(_) => 3,
        Refusal::Damaged { .. } => 4,
        Refusal::OutOfMemory => 6,
        Refusal::AuditNo(_) => 7,
        _ => 5,
    }
}

/// Prints the line of a refusal, as `rr: 14 BadEvent 7`.
///
/// # Errors
/// Those of the writer.
pub fn print_refusal<W: Write>(err: &mut W, refusal: &Refusal) -> io::Result<()>
    ensures { OnOk result (Appends (W.contents err.old) (W.contents err.new) (refusal_line refusal.now)) }
{
    let number = refusal.number();
    writeln!(err, "rr: {number} {refusal}")
}

/// Ends by a refusal: prints its line, and gives its status. Where the line can't be printed the status still tells.
pub fn end_by_refusal<E: Write>(err: &mut E, refusal: &Refusal) -> u8
    ensures { result ≡ status_of refusal.now }
{
    let _ = print_refusal(err, refusal);
    status(refusal)
}

/// What a text was read as.
#[derive(Clone, Copy, Debug)]
pub enum TextKind {
    Schedule,
    Tape,
}

// Tells people that a text which was read as the one kind is of the other, if it is.
fn print_other_kind<E: Write>(
    alloc: Global,
    err: &mut E,
    kind: TextKind,
    name: &str,
    bytes: &[u8],
) -> io::Result<()> {
    match kind {
        TextKind::Schedule if Tape::parse(alloc, bytes).is_ok() => {
            writeln!(err, "{name}: this is a tape; see rr audit")
        }
        TextKind::Tape if Schedule::parse(alloc, bytes).is_ok() => {
            writeln!(err, "{name}: this is a schedule; see rr sim")
        }
        _ => Ok(()),
    }
}

/// Ends by the refusal of a text of this kind and name. A second line tells people where it is at fault and why. A text of the
/// other kind is told in a third.
pub fn end_by_fault<E: Write>(
    alloc: Global,
    err: &mut E,
    kind: TextKind,
    name: &str,
    bytes: &[u8],
    refusal: &Refusal,
) -> u8
    ensures { result ≡ status_of refusal.now }
{
    let ending = end_by_refusal(err, refusal);
    let _ = match kind {
        TextKind::Schedule => print_schedule_fault(err, name, bytes, refusal),
        TextKind::Tape => print_tape_fault(err, name, bytes, refusal),
    };
    if ending == 3 {
        let _ = print_other_kind(alloc, err, kind, name, bytes);
    }
    ending
}

//! The audit of a tape while its text is read.

ghost use Rattle.std.specs.Prelude.{◌≡◌, ◌≤◌, ◌++◌, IfOk, IfErr};
ghost use Rattle.rr_text.specs.Lines.{nodes_line, IsStop, IsFault};
ghost use Rattle.rr_text.specs.Taped.{IsTapeEvent};
ghost use Rattle.rr_text.specs.TapeTexts.{tape_line};
ghost use Rattle.rr_audit.specs.AuditTexts.{IsVerdictOn};

use crate::auditing::Verdict;
use crate::progress::Progress;
use rr_stream::{Sink, tell_step};
use rr_text::next_tape_event;
use rr_text::text_parse::first_line;
use rr_types::{Nodes, Refusal};
use std::alloc::Global;

// Audits the tape of `nodes` nodes whose lines after the first are `bytes`, and tells the sink how far it is.
fn audit_lines<O: Sink>(
    alloc: Global,
    nodes: Nodes,
    bytes: &[u8],
    out: &mut O,
) -> Result<Verdict, Refusal>
    requires some { 1 ≤ nodes }
    requires few { nodes ≤ 7 }
    ensures ok { IfOk result (λ verdict. IsVerdictOn (nodes_line nodes ++ bytes.now) verdict) }
    ensures err { IfErr result (λ e. IsStop (IsTapeEvent nodes) tape_line bytes.now e) }
    ensures unprinted { O.printing out.new ≡ O.printing out.old }
{
    let mut progress = Progress::new(alloc, nodes)?;
    let mut line = 2u64;
    let mut rest = bytes;
    loop {
        let read = bytes.len().saturating_sub(rest.len());
        tell_step(line, read as u64, bytes.len() as u64, out);
        match next_tape_event(alloc, nodes, rest, line) {
            Err(refusal) => return Err(refusal),
            Ok(None) => return Ok(progress.verdict(line - 2)),
            Ok(Some((event, behind))) => {
                progress.follow(line - 1, &event)?;
                rest = behind;
                line += 1;
            }
        }
    }
}

/// Audits the tape whose text the bytes are, as `examine` does. Only one event at a time is kept. Those who watch
/// `out` are told how far it is; `out` takes nothing.
///
/// # Errors
/// `BadNodes` and `BadEvent` for bytes that are no tape, as from `Tape::parse`, also after an event that isn't next;
/// `OutOfMemory`.
pub fn audit_on<O: Sink>(alloc: Global, bytes: &[u8], out: &mut O) -> Result<Verdict, Refusal>
    ensures ok { IfOk result (λ verdict. IsVerdictOn bytes.now verdict) }
    ensures fault { IfErr result (λ e. IsFault IsTapeEvent tape_line bytes.now e) }
    ensures unprinted { O.printing out.new ≡ O.printing out.old }
{
    match first_line(bytes) {
        Err(refusal) => Err(refusal),
        Ok((nodes, rest)) => {
            let _count = nodes.count();
            let verdict = audit_lines(alloc, nodes, rest, out);
            out.tell_progress(1, 1);
            verdict
        }
    }
}

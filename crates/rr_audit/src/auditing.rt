//! The audit of a tape.

ghost use Rattle.std.specs.Prelude.{◌≡◌, ◌⊎◌, ℕ, length, Err, IfOk, IfErr};
ghost use Rattle.rr_audit.specs.Audits.{IsTapeRun, AgreesWithOneList, StopsAt, IsVerdict};

use crate::given::Given;
use crate::progress::Progress;
use rr_stream::{Sink, tell_step};
use rr_text::Tape;
use rr_types::{Body, Command, Message, NodeId, Op, Refusal, made_of};
use std::alloc::Global;

/// What an audit finds.
#[derive(Debug, Drop)]
pub enum Verdict {
    /// The events, of which there are this many, are a tape run.
    Yes(u64),
    /// The event with this number, from 1, is the first that the world doesn't give next. Its node, and what is given
    /// instead of it, follow.
    No(u64, NodeId, Given),
}

/// Audits a tape: whether its events are what nodes do that all begin up and without facts. Where one isn't, what
/// the world gives instead is told too.
///
/// # Errors
/// `OutOfMemory`.
pub fn examine(alloc: Global, tape: &Tape) -> Result<Verdict, Refusal>
    ensures verdict { IfOk result (λ v. IsVerdict tape.now.nodes tape.now.events v) }
    ensures err { IfErr result (λ e. e ≡ Refusal.OutOfMemory) }
{
    let mut progress = Progress::new(alloc, tape.nodes())?;
    let mut count = 0u64;
    let events = tape.events();
    for event in events {
        progress.follow(count + 1, event)?;
        count += 1;
    }
    Ok(progress.verdict(count))
}

/// Audits a tape as `examine` does. Those who watch `out` are told how far it is; `out` takes nothing.
///
/// # Errors
/// `OutOfMemory`.
pub fn watch_tape<O: Sink>(alloc: Global, tape: &Tape, out: &mut O) -> Result<Verdict, Refusal>
    ensures verdict { IfOk result (λ v. IsVerdict tape.now.nodes tape.now.events v) }
    ensures err { IfErr result (λ e. e ≡ Refusal.OutOfMemory) }
    ensures unprinted { O.printing out.new ≡ O.printing out.old }
{
    let mut progress = Progress::new(alloc, tape.nodes())?;
    let mut count = 0u64;
    let events = tape.events();
    for event in events {
        tell_step(count, count, events.len() as u64, out);
        progress.follow(count + 1, event)?;
        count += 1;
    }
    out.tell_progress(1, 1);
    Ok(progress.verdict(count))
}

/// Audits a tape, and answers how many events it has.
///
/// Then these events are what nodes do that all begin up and without facts, each by the definition of a node, and each
/// message and each reply on the tape is the one that the node gives next. That is a sound run of the world.
///
/// # Errors
/// `AuditNo` of the first event, counted from 1, that isn't what the world gives next: a node would refuse it or had
/// nothing to do, or gives another message or reply. `OutOfMemory`.
pub fn audit(alloc: Global, tape: &Tape) -> Result<u64, Refusal>
    ensures yes { IfOk result (λ count. count ≡ length tape.now.events) }
    ensures run { IfOk result (λ count. IsTapeRun tape.now.nodes tape.now.events) }
    ensures one_list { IfOk result (λ count. AgreesWithOneList tape.now.nodes tape.now.events) }
    ensures no { (index : ℕ) → result ≡ Err (Refusal.AuditNo index) → StopsAt tape.now.nodes tape.now.events index }
    ensures else_memory { IfErr result (λ e. (e ≡ Refusal.OutOfMemory) ⊎ ((index : ℕ) × (e ≡ Refusal.AuditNo index))) }
{
    made_of!(Body, Command, Message, Op);
    match examine(alloc, tape)? {
        Verdict::Yes(count) => Ok(count),
        Verdict::No(index, _, _) => Err(Refusal::AuditNo(index)),
    }
}

//! Why a node has failed, in words.

ghost use Rattle.std.specs.Prelude.{◌≡◌, IfOk, option_map};
ghost use Rattle.rr_run.specs.Differences.{IsWhyBy};

use crate::disputes::push_dispute;
use rr_folders::Reasons;
use rr_text::text_word::push_bytes;
use rr_threads::Dispute;
use rr_types::{Command, Name, NodeId, Op, Refusal, Value, made_of};
use std::alloc::Global;

// What a refusal means by which a node has failed.
fn words(refusal: &Refusal) -> &'static str {
    match refusal {
        Refusal::OutOfMemory => "memory was refused",
        Refusal::Device =>
            "a file of its disk couldn't be read or written, or the clock couldn't be read",
        Refusal::Damaged { .. } => "what its disk holds isn't what a node wrote",
        Refusal::TooLarge => "an area of its disk, an epoch or its facts are at their end",
        other => other.name(),
    }
}

// Why a node has failed by this refusal, in words: of a device the file, the call and what the system said, if a call has failed. It is
// refused for lack of memory.
fn failure_text(
    alloc: Global,
    reasons: &Reasons,
    node: NodeId,
    refusal: &Refusal,
) -> Result<Vec<u8>, Refusal> {
    let mut text = Vec::new(alloc);
    if let Refusal::Device = refusal {
        if let Some(reason) = reasons.text(alloc, node)? {
            push_bytes(&mut text, reason.as_bytes())?;
            return Ok(text);
        }
    }
    push_bytes(&mut text, words(refusal).as_bytes())?;
    Ok(text)
}

/// Why a node is down that has gone down over this dispute or by this refusal, in words. None: by neither.
///
/// # Errors
/// `OutOfMemory`.
pub(crate) fn why_text(
    alloc: Global,
    reasons: &Reasons,
    node: NodeId,
    dispute: &Option<Dispute>,
    refusal: &Option<Refusal>,
) -> Result<Option<Vec<u8>>, Refusal>
    ensures { IfOk result (λ why. IsWhyBy dispute.now refusal.now (option_map (λ v. v.items) why)) }
{
    made_of!(Command, Name, Op, Value);
    if let Some(dispute) = dispute {
        let mut text = Vec::new(alloc);
        push_dispute(&mut text, dispute)?;
        return Ok(Some(text));
    }
    match refusal {
        Some(refusal) => Ok(Some(failure_text(alloc, reasons, node, refusal)?)),
        None => Ok(None),
    }
}

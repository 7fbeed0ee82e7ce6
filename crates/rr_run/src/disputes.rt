//! What is told of a node that has heard a decision against its own, and by what a shell ends.

ghost use Rattle.std.specs.Prelude.{◌≡◌, ◌++◌, OnOk};
ghost use Rattle.rr_run.specs.Fronts.{GrowsByFront};
ghost use Rattle.rr_run.specs.Differences.{behind_space, dispute_text, dispute_lines, failure_by};

use crate::fronts::write_front;
use rr_text::text_report::push_request;
use rr_text::text_word::{push_byte, push_bytes, push_number_word, push_op};
use rr_threads::Dispute;
use rr_types::{Command, Name, NodeId, Op, Refusal, Value, made_of};
use std::alloc::{AllocError, Global};
use std::io::Write;

/// A node that is down since it has heard a decision against its own.
#[derive(Clone, Copy, Debug)]
pub(crate) struct Disputed {
    pub(crate) node: NodeId,
    pub(crate) dispute: Dispute,
}

/// By what a shell ends behind a talk that is over.
#[derive(Clone, Copy, Debug)]
pub(crate) enum Failure {
    /// By a refusal, of its run or of a node that is down.
    Refused(Refusal),
    /// By two decisions that differ.
    Differing(Disputed),
}

// Appends a command behind a space.
#[tactic(auto, unfolding(crate::specs::Differences::behind_space))]
fn push_behind_space(out: &mut Vec<u8>, command: &Command) -> Result<(), AllocError>
    ensures ok { OnOk result (out.new.items ≡ out.old.items ++ behind_space command.now) }
{
    push_request(out, command.request)?;
    push_op(out, &command.op)
}

/// Appends the instance that is decided differently, and both commands.
///
/// # Errors
/// Bytes of the text may then stand at the end.
pub(crate) fn push_dispute(out: &mut Vec<u8>, dispute: &Dispute) -> Result<(), AllocError>
    ensures ok { OnOk result (out.new.items ≡ out.old.items ++ dispute_text dispute.now) }
{
    push_bytes(out, b"instance")?;
    push_number_word(out, u64::from(dispute.instance.number()))?;
    push_bytes(out, b" is decided as")?;
    push_behind_space(out, &dispute.own)?;
    push_bytes(out, b" here and as")?;
    push_behind_space(out, &dispute.heard)?;
    push_bytes(out, b" by another node")
}

// Appends the lines at the end of a shell.
fn push_dispute_lines(out: &mut Vec<u8>, disputed: &Disputed) -> Result<(), AllocError>
    ensures ok { OnOk result (out.new.items ≡ out.old.items ++ dispute_lines disputed.now) }
{
    push_bytes(out, b"rr: 3 Damaged 0 0\nnode")?;
    push_number_word(out, u64::from(disputed.node.index()))?;
    push_bytes(out, b" failed: ")?;
    push_dispute(out, &disputed.dispute)?;
    push_byte(out, b'\n')
}

/// Ends by a dispute, and gives the status of a disk that may be damaged: that of `rr verify` where folders disagree. Where memory or the
/// stream fails, people aren't told.
#[tactic(auto, using(crate::proofs::ToldLemmas::nothing_yet))]
pub(crate) fn end_by_dispute<E: Write>(alloc: Global, err: &mut E, disputed: &Disputed) -> u8
    ensures status { result ≡ 4 }
    ensures told { GrowsByFront (E.contents err.old) (E.contents err.new) (dispute_lines disputed.now) }
{
    let mut text = Vec::new(alloc);
    match push_dispute_lines(&mut text, disputed) {
        Ok(()) => write_front(err, text.as_slice()),
        Err(_) => {}
    }
    4
}

/// By what a shell ends behind a talk that is over: by the dispute by which a node is down, if one is; else by the refusal, if there is one.
pub(crate) fn failure_by(disputed: Option<Disputed>, refusal: Option<Refusal>) -> Option<Failure>
    ensures { result ≡ failure_by disputed refusal }
{
    made_of!(Command, Dispute, Name, Op, Value);
    match (disputed, refusal) {
        (Some(disputed), _) => Some(Failure::Differing(disputed)),
        (None, Some(refusal)) => Some(Failure::Refused(refusal)),
        (None, None) => None,
    }
}

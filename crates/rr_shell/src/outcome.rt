//! What comes of a submit, or of a sync.

ghost use Rattle.std.specs.Prelude.{◌≡◌, ◌++◌, ◌∷◌, OnOk};
ghost use Rattle.rr_text.specs.Words.{spaced};
ghost use Rattle.rr_shell.specs.Texts.{numbered_text, used_text, full_text, nothing_text};

use rr_text::Answer;
use rr_text::text_report::push_request;
use rr_text::text_word::{push_bytes, push_op};
use rr_types::{Command, RequestNo};
use std::alloc::AllocError;

/// What comes of a submit, of the line that asks one again, or of a sync.
#[derive(Clone, Copy, Debug)]
pub enum Outcome {
    /// What the node answered.
    Answered(Answer),
    /// The list is full without the command, which is never decided.
    ListFull,
    /// The request number was already used for this command, which is another.
    Used(Command),
    /// Nothing is unacknowledged, so nothing is asked again.
    Nothing,
    /// The list is full, and the node that was asked to sync has published all of it.
    Whole,
}

#[tactic(auto, unfolding(crate::specs::Texts::numbered_text))]
fn push_numbered(out: &mut Vec<u8>, request: RequestNo) -> Result<(), AllocError>
    ensures ok { OnOk result (out.new.items ≡ out.old.items ++ numbered_text request) }
{
    push_bytes(out, b"request")?;
    push_request(out, request)
}

/// Appends that a request number was already used for this command.
///
/// # Errors
/// Bytes of the text may then stand at the end.
pub fn push_used_text(out: &mut Vec<u8>, command: &Command) -> Result<(), AllocError>
    ensures ok { OnOk result (out.new.items ≡ out.old.items ++ used_text command.now) }
{
    push_numbered(out, command.request)?;
    push_bytes(out, b" was already used for:")?;
    push_op(out, &command.op)
}

/// Appends that the list is full.
pub(crate) fn push_full_text(out: &mut Vec<u8>) -> Result<(), AllocError>
    ensures ok { OnOk result (out.new.items ≡ out.old.items ++ full_text) }
{
    push_bytes(
        out,
        b"no further command can be decided, and this one isn't",
    )
}

/// Appends that nothing is asked again.
pub(crate) fn push_nothing_text(out: &mut Vec<u8>) -> Result<(), AllocError>
    ensures ok { OnOk result (out.new.items ≡ out.old.items ++ nothing_text) }
{
    push_bytes(out, b"nothing to ask again: no command is unacknowledged")
}

//! A look for changes of what is watched, and what is said of them.

ghost use Rattle.std.specs.Prelude.{◌≡◌, ◌++◌, IfOk, OnOk, OnErr};
ghost use Rattle.std.specs.List.{flat_map};
ghost use Rattle.rr_shell.specs.Forms.{late_said};
ghost use Rattle.rr_shell.specs.Watches.{bytes_of, change_said, IsAdded, IsLook, IsFrontSaid};

use crate::answering::Asked;
use crate::said_text::{say_changed, say_freed, say_late};
use crate::sign::Seen;
use crate::talking::Stop;
use rr_stream::{Sink, print_all};
use rr_types::{Name, Refusal};
use rr_window::Change;
use std::alloc::{AllocError, Global};

/// That changes were looked for: whether none were missed, and whether the next line was heard before. Only `look_once` gives this.
#[derive(Drop)]
pub(crate) struct Looked {
    goes_on: bool,
    is_last: bool,
}

impl Looked {
    /// Whether no change was missed, so that the watch goes on.
    pub(crate) fn goes_on(&self) -> bool
        ensures { result ≡ self.now.goes_on }
    {
        self.goes_on
    }

    /// Whether the next line was heard before the look.
    pub(crate) fn is_last(&self) -> bool
        ensures { result ≡ self.now.is_last }
    {
        self.is_last
    }
}

// Appends what is said of a change.
fn say_change(out: &mut Vec<u8>, json: bool, change: &Change) -> Result<(), AllocError>
    ensures ok { OnOk result (out.new.items ≡ out.old.items ++ change_said json change.now) }
{
    match change {
        Change::Bound(binding) => say_changed(out, json, binding),
        Change::Freed(name) => say_freed(out, json, name),
    }
}

// What is said of changes.
fn text_of(alloc: Global, json: bool, changes: &[Change]) -> Result<Vec<u8>, AllocError>
    ensures { IfOk result (λ text. text.items ≡ flat_map (change_said json) changes.now) }
{
    let mut text = Vec::new(alloc);
    for change in changes {
        say_change(&mut text, json, change)?;
    }
    Ok(text)
}

// Prints changes, where there are any.
fn print_changes<O: Sink>(
    alloc: Global,
    json: bool,
    changes: &[Change],
    out: &mut O,
) -> Result<(), Stop>
    ensures printed { OnOk result (IsAdded (O.printing out.old) (O.printing out.new) (flat_map (change_said json) changes.now)) }
    ensures front { OnErr result (IsFrontSaid (O.printing out.old) (O.printing out.new)) }
{
    let Ok(text) = text_of(alloc, json, changes) else {
        return Err(Stop::Refused(Refusal::OutOfMemory));
    };
    if text.is_empty() {
        return Ok(());
    }
    match print_all(out, text.as_slice()) {
        Ok(()) => Ok(()),
        Err(error) => Err(Stop::Unprinted(error)),
    }
}

// Prints that changes were missed.
fn print_late<O: Sink>(alloc: Global, json: bool, out: &mut O) -> Result<(), Stop>
    ensures printed { OnOk result (IsAdded (O.printing out.old) (O.printing out.new) (late_said json)) }
    ensures front { OnErr result (IsFrontSaid (O.printing out.old) (O.printing out.new)) }
{
    let mut text = Vec::new(alloc);
    if say_late(&mut text, json).is_err() {
        return Err(Stop::Refused(Refusal::OutOfMemory));
    }
    match print_all(out, text.as_slice()) {
        Ok(()) => Ok(()),
        Err(error) => Err(Stop::Unprinted(error)),
    }
}

/// Looks for changes, behind this look at the sign, and says them.
pub(crate) fn look_once<O: Sink, A: Asked>(
    alloc: Global,
    json: bool,
    prefix: &Option<Name>,
    asked: &mut A,
    out: &mut O,
    seen: &Seen,
) -> Result<Looked, Stop>
    ensures look { IfOk result (λ l. IsLook json (bytes_of prefix.now) l.goes_on (A.told asked.old) (A.told asked.new) (O.printing out.old) (O.printing out.new)) }
    ensures last { IfOk result (λ l. l.is_last ≡ seen.now.is_heard) }
    ensures front { OnErr result (IsFrontSaid (O.printing out.old) (O.printing out.new)) }
{
    match asked.changes(prefix) {
        Ok(Some(changes)) => {
            print_changes(alloc, json, changes.as_slice(), out)?;
            Ok(Looked {
                goes_on: true,
                is_last: seen.is_heard(),
            })
        }
        Ok(None) => {
            print_late(alloc, json, out)?;
            Ok(Looked {
                goes_on: false,
                is_last: seen.is_heard(),
            })
        }
        Err(refusal) => Err(Stop::Refused(refusal)),
    }
}

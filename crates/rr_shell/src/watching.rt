//! A watch: the changes that a node publishes are said while the next line is heard.

ghost use Rattle.std.specs.Prelude.{◌≡◌, [], IfOk, OnOk, OnErr};
ghost use Rattle.rr_stream.specs.Streams.{IsPrinted};
ghost use Rattle.rr_shell.specs.Forms.{watching_said};
ghost use Rattle.rr_shell.specs.Deeds.{observes};
ghost use Rattle.rr_shell.specs.Hearings.{Hears};
ghost use Rattle.rr_shell.specs.Watches.{bytes_of, IsOver, IsToldOf, IsShown, IsFrontSaid};

use crate::answering::Asked;
use crate::hearing::{Heard, hear};
use crate::looking::{Looked, look_once};
use crate::prompting::Prompting;
use crate::said_text::say_watching;
use crate::sign::LineSign;
use crate::talking::Stop;
use rr_stream::{Sink, Source, print_all};
use rr_types::{Name, NodeId, Refusal};
use std::alloc::Global;
use std::io;
use std::thread::{Threads, join_mut};

/// What is watched: the names that begin so, or all.
#[derive(Clone, Copy, Debug)]
pub struct Watched {
    pub prefix: Option<Name>,
}

// Prints that a watch has begun at a node, once it has.
fn print_watching<O: Sink, A: Asked>(
    alloc: Global,
    json: bool,
    node: NodeId,
    watched: &Watched,
    _asked: &A,
    out: &mut O,
) -> Result<(), Stop>
    requires { A.did (observes node watched.now.prefix) }
    ensures printed { OnOk result (IsPrinted (O.printing out.old) (O.printing out.new) (watching_said json)) }
    ensures front { OnErr result (IsFrontSaid (O.printing out.old) (O.printing out.new)) }
{
    let mut text = Vec::new(alloc);
    if say_watching(&mut text, json).is_err() {
        return Err(Stop::Refused(Refusal::OutOfMemory));
    }
    match print_all(out, text.as_slice()) {
        Ok(()) => Ok(()),
        Err(error) => Err(Stop::Unprinted(error)),
    }
}

// Says changes until the next line is heard, and looks once more then.
fn show_changes<O: Sink, A: Asked>(
    alloc: Global,
    json: bool,
    prefix: &Option<Name>,
    asked: &mut A,
    out: &mut O,
    sign: &LineSign,
) -> Result<Looked, Stop>
    requires { A.told asked.old ≡ [] }
    ensures last { IfOk result (λ l. IsOver l) }
    ensures told { OnOk result (IsToldOf json (bytes_of prefix.now) (O.printing out.old) (O.printing out.new)) }
    ensures front { IsFrontSaid (O.printing out.old) (O.printing out.new) }
{
    'looks: for _ in 0..u64::MAX {
        let looked = look_once(alloc, json, prefix, asked, out, &sign.look())?;
        let goes_on = looked.goes_on();
        if !goes_on {
            return Ok(looked);
        }
        let is_last = looked.is_last();
        if is_last {
            return Ok(looked);
        }
        asked.rest();
    }
    Err(Stop::Refused(Refusal::TooLarge))
}

// Hears the next line, and tells that it is heard.
fn hear_and_tell<I: Source>(alloc: Global, input: &mut I, sign: &LineSign) -> io::Result<Heard>
    ensures { IfOk result (Hears (I.reading input.old) (I.reading input.new)) }
{
    let heard = hear(alloc, input);
    sign.give(&heard);
    heard
}

// Hears the next line. Beside that the changes are said, in a thread of their own; where none can be made, they are said then.
fn hear_beside<I: Prompting, O: Sink + Send, A: Asked + Send, R: Threads>(
    alloc: Global,
    json: bool,
    prefix: &Option<Name>,
    asked: &mut A,
    rt: &R,
    input: &mut I,
    out: &mut O,
) -> Result<Heard, Stop>
    requires { A.told asked.old ≡ [] }
    ensures heard { IfOk result (Hears (I.reading input.old) (I.reading input.new)) }
    ensures told { OnOk result (IsToldOf json (bytes_of prefix.now) (O.printing out.old) (O.printing out.new)) }
    ensures front { IsFrontSaid (O.printing out.old) (O.printing out.new) }
{
    let sign = LineSign::new();
    let (shown, heard) = join_mut(
        rt,
        &mut ||
            requires { A.told asked.now ≡ [] }
        { show_changes(alloc, json, prefix, asked, out, &sign) },
        &mut || hear_and_tell(alloc, input, &sign),
    );
    let _looked = shown?;
    match heard {
        Ok(heard) => Ok(heard),
        Err(error) => Err(Stop::Unread(error)),
    }
}

/// Begins a watch at a node, says so, and hears the next line. Beside that the changes are said.
pub(crate) fn watch_and_hear<I: Prompting, O: Sink + Send, A: Asked + Send, R: Threads>(
    alloc: Global,
    json: bool,
    node: NodeId,
    watched: &Watched,
    asked: &mut A,
    rt: &R,
    input: &mut I,
    out: &mut O,
) -> Result<Heard, Stop>
    ensures heard { IfOk result (Hears (I.reading input.old) (I.reading input.new)) }
    ensures shown { OnOk result (IsShown A.did json node (Some watched.now) (O.printing out.old) (O.printing out.new)) }
    ensures front { OnErr result (IsFrontSaid (O.printing out.old) (O.printing out.new)) }
{
    if let Err(refusal) = asked.watch(node, &watched.prefix) {
        return Err(Stop::Refused(refusal));
    }
    print_watching(alloc, json, node, watched, asked, out)?;
    input.prompt();
    hear_beside(alloc, json, &watched.prefix, asked, rt, input, out)
}

//! What is kept of the last commands for those who watch.

ghost use Rattle.std.specs.Prelude.{◌≡◌, ◌<◌, ◌++◌, IfOk};
ghost use Rattle.std.specs.VecDeque.{deque_len, deque_capacity};
ghost use Rattle.rr_window.specs.Watches.{with_trace, told_of, told_behind};

use crate::change::Change;
use crate::list::Beginning;
use rr_types::{Binding, Name, Value, made_of};
use std::alloc::{AllocError, Global};
use std::collections::VecDeque;
use std::marker::Model;

/// How many commands are kept for those who watch.
const MOST: usize = 1_024;

/// The list up to and with a command, and the change that this makes.
#[derive(Drop)]
pub(crate) struct Trace {
    beginning: Beginning,
    change: Option<Change>,
}

impl Model for Trace {
    ghost use Rattle.rr_window.specs.Watches.{Trace};

    ghost Value = { Trace };

    ghost view = { λ t. record { beginning = t.beginning; change = t.change } };
}

impl Trace {
    pub(crate) fn new(beginning: Beginning, change: Option<Change>) -> Trace
        ensures { result ≡ record { beginning = beginning; change = change } }
    {
        Trace { beginning, change }
    }
}

/// Keeps one more trace, for which there is room. The oldest goes where there are as many as are kept.
pub(crate) fn keep(recent: &mut VecDeque<Trace>, trace: Trace)
    requires { deque_len recent.old < deque_capacity recent.old }
    ensures { recent.new.items ≡ with_trace recent.old.items trace }
{
    if recent.len() >= MOST {
        drop(recent.pop_front());
    }
    recent.push_back_reserved(trace);
}

// Tells the change of a trace, where it is behind so many commands, and there is one, and its name begins with these bytes.
fn tell_behind(
    changes: &mut Vec<Change>,
    prefix: &[u8],
    count: u64,
    trace: &Trace,
) -> Result<(), AllocError>
    ensures { IfOk result (λ _. changes.new.items ≡ changes.old.items ++ told_of prefix.now count trace.now) }
{
    made_of!(Binding, Name, Value);
    if trace.beginning.count() <= count {
        return Ok(());
    }
    match &trace.change {
        Some(change) if change.name().as_bytes().starts_with(prefix) => Ok(changes.push(*change)?),
        _ => Ok(()),
    }
}

// Tells the changes that commands make behind so many, of names that begin with these bytes.
#[tactic(auto, using(crate::proofs::Watching::told_step, crate::proofs::Watching::told_end))]
fn tell_all(
    changes: &mut Vec<Change>,
    prefix: &[u8],
    count: u64,
    traces: &[Trace],
) -> Result<(), AllocError>
    ensures { IfOk result (λ _. changes.new.items ≡ changes.old.items ++ told_behind prefix.now count traces.now) }
{
    'traces: for trace in traces {
        tell_behind(changes, prefix, count, trace)?;
    }
    Ok(())
}

/// The changes that commands make behind so many, of names that begin with these bytes.
#[tactic(auto, using(crate::proofs::Watching::told_append))]
pub(crate) fn changes_behind(
    alloc: Global,
    prefix: &[u8],
    count: u64,
    recent: &VecDeque<Trace>,
) -> Result<Vec<Change>, AllocError>
    ensures { IfOk result (λ v. v.items ≡ told_behind prefix.now count recent.now.items) }
{
    let mut changes = Vec::new(alloc);
    let (older, newer) = recent.as_slices();
    tell_all(&mut changes, prefix, count, older)?;
    tell_all(&mut changes, prefix, count, newer)?;
    Ok(changes)
}

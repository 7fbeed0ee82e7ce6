//! Why the folders of a cluster aren't opened.

ghost use Rattle.std.specs.Prelude.{◌≡◌, Ok, IfOk};

use crate::judging::Fault;
use rr_types::{NodeId, Refusal};
use std::alloc::{AllocError, AllocFailed};
use std::io;
use std::io::{ErrorKind, Write};

/// Why the folders of a cluster aren't opened.
#[derive(Drop)]
pub enum Closed {
    /// A growth was refused.
    OutOfMemory,
    /// Another program has locked the folder of this path.
    InUse(String),
    /// This call on this path failed.
    Failed {
        path: String,
        call: &'static str,
        error: io::Error,
    },
    /// The disk of this node can't be opened.
    Unopened(NodeId, Refusal),
    /// The folder of this node may not be opened.
    Refused(NodeId, Fault),
}

impl From<AllocError> for Closed {
    fn from(_error: AllocError) -> Closed {
        Closed::OutOfMemory
    }
}

impl<T: Drop> From<AllocFailed<T>> for Closed {
    fn from(_error: AllocFailed<T>) -> Closed {
        Closed::OutOfMemory
    }
}

impl From<Refusal> for Closed {
    fn from(_refusal: Refusal) -> Closed {
        Closed::OutOfMemory
    }
}

/// Prints the line on a folder that another program has locked, or on a call that failed. For the others nothing is printed.
///
/// # Errors
/// Those of the writer.
pub fn print_closed<W: Write>(err: &mut W, closed: &Closed) -> io::Result<()> {
    match closed {
        Closed::InUse(path) => writeln!(err, "{path}: another program has locked it"),
        Closed::Failed { path, call, error } => writeln!(err, "{path}: {call}: {error}"),
        Closed::OutOfMemory | Closed::Unopened(..) | Closed::Refused(..) => Ok(()),
    }
}

/// What a call on a path gave, or why the folders aren't opened.
pub(crate) fn done<R: AllocGlobal, T: Drop>(
    rt: &R,
    path: &str,
    call: &'static str,
    given: io::Result<T>,
) -> Result<T, Closed>
    ensures { IfOk result (λ value. given ≡ Ok value) }
{
    match given {
        Ok(value) => Ok(value),
        Err(error) => Err(failed(rt, path, call, error)),
    }
}

/// Why the folders aren't opened where this call on a path failed.
pub(crate) fn failed<R: AllocGlobal>(
    rt: &R,
    path: &str,
    call: &'static str,
    error: io::Error,
) -> Closed {
    if error.kind() == ErrorKind::OutOfMemory {
        return Closed::OutOfMemory;
    }
    match format!(in rt.alloc(); "{path}") {
        Ok(path) => Closed::Failed { path, call, error },
        Err(_) => Closed::OutOfMemory,
    }
}

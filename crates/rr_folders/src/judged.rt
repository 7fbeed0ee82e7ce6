//! Whether a start over the folders of a cluster would be refused, for somebody who only reads them.

ghost use Rattle.std.specs.Prelude.{◌≡◌, true, false, IfOk, IsSome, ◌↔◌};
ghost use Rattle.rr_folders.specs.Judged.{refused_by, MayStart};
ghost use Rattle.rr_folders.specs.NumberCalls.{has_no_block};

use crate::closed::{Closed, print_closed};
use crate::faults::print_fault;
use crate::folder::judge_folders;
use crate::judging::{Fault, Verdict};
use crate::number_file::{FolderNumbers, NumberFile};
use crate::reading::Shares;
use crate::requests::{Block, free_by};
use rr_types::{NodeId, Nodes};
use std::alloc::AllocError;
use std::io;
use std::io::{ErrorKind, Write};
use std::marker::Model;
use std::rt::Files;

/// Why a start over the folders of a cluster would be refused, but for what an opening finds in their areas. Only `judge_cluster`
/// gives this. Contracts see whether it would.
#[derive(Drop)]
pub struct Judged {
    nodes: Nodes,
    refusal: Option<Closed>,
}

impl Model for Judged {
    ghost use Rattle.std.specs.Prelude.{Bool, is_some};

    ghost Value = { Bool };

    ghost view = { λ j. is_some j.refusal };
}

impl Judged {
    /// Whether it would.
    pub fn is_refused(&self) -> bool
        ensures { result ≡ self.now }
    {
        self.refusal.is_some()
    }

    /// Prints in one line why a start over the folders in the folder DIR would be refused; nothing where it wouldn't.
    ///
    /// # Errors
    /// Those of the writer.
    pub fn print<W: Write>(&self, err: &mut W, dir: &str) -> io::Result<()> {
        match &self.refusal {
            Some(Closed::Refused(node, fault)) => print_fault(err, dir, self.nodes, *node, fault),
            Some(closed) => print_closed(err, closed),
            None => Ok(()),
        }
    }
}

/// The folder that a verdict refuses, and why.
pub(crate) fn refused_by(verdict: Verdict) -> Option<(NodeId, Fault)>
    ensures { result ≡ refused_by verdict }
{
    match verdict {
        Verdict::Refused(node, fault) => Some((node, fault)),
        Verdict::Open(_) | Verdict::Begin | Verdict::TakeOn(_) => None,
    }
}

// What is wrong with a file of request numbers, by the first that isn't reserved.
fn numbers_fault(free: Option<u64>) -> Option<&'static str>
    ensures { IsSome result ↔ (has_no_block free ≡ true) }
{
    match free {
        None => Some("expected the first number that is not reserved, and a line feed"),
        Some(first) if Block::from(first).is_none() => Some("all request numbers are reserved"),
        Some(_) => None,
    }
}

// Why a start would be refused for the file of request numbers.
fn numbers_refusal<R: Files + AllocGlobal>(
    rt: &R,
    dir: &str,
) -> Result<Option<Closed>, AllocError> {
    let mut file = match FolderNumbers::new(rt, dir) {
        Ok(file) => file,
        Err(_) => return Err(AllocError),
    };
    let error = match file.read() {
        Ok(found) => match numbers_fault(free_by(&found)) {
            Some(fault) => io::Error::new(ErrorKind::InvalidData, fault),
            None => return Ok(None),
        },
        Err(error) if error.kind() == ErrorKind::OutOfMemory => return Err(AllocError),
        Err(_) => return Ok(file.take_failed()),
    };
    let path = format!(in rt.alloc(); "{dir}/requests")?;
    let call = "reading";
    Ok(Some(Closed::Failed { path, call, error }))
}

/// Judges the folders of a cluster of so many nodes in the folder DIR as a start does, and looks at its file of request numbers. Nothing
/// is made or written.
///
/// # Errors
/// `OutOfMemory`.
pub fn judge_cluster<R: Files + AllocGlobal>(
    rt: &R,
    _shares: &Shares<R::File>,
    nodes: Nodes,
    dir: &str,
) -> Result<Judged, AllocError>
    ensures { IfOk result (λ j. j ≡ false → MayStart nodes) }
{
    let verdict = match judge_folders(rt, nodes, dir) {
        Ok(verdict) => verdict,
        Err(Closed::OutOfMemory) => return Err(AllocError),
        Err(closed) => {
            let refusal = Some(closed);
            return Ok(Judged { nodes, refusal });
        }
    };
    if let Some((node, fault)) = refused_by(verdict) {
        let refusal = Some(Closed::Refused(node, fault));
        return Ok(Judged { nodes, refusal });
    }
    let refusal = numbers_refusal(rt, dir)?;
    Ok(Judged { nodes, refusal })
}

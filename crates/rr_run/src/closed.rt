//! The lines that tell why the folders of a run aren't opened.

ghost use Rattle.std.specs.Prelude.{◌≡◌};
ghost use Rattle.rr_journal.specs.Image.{found};
ghost use Rattle.rr_run.specs.Closings.{may_be_damaged, IsRefusalOf, IsClosedBy, IsRefusedFor};

use rr_cli::{end_by_refusal, print_folder_fault};
use rr_folders::{Closed, Fault, print_closed, print_fault};
use rr_journal::read_image;
use rr_types::{NodeId, Nodes, Refusal};
use std::alloc::Global;
use std::io::Write;
use std::os::unix::fs::FileExt;
use std::rt::Files;
use std::{fs, io};

/// Ends because the folders in the folder DIR aren't opened. The second line says which it is, what that means and what to do.
pub(crate) fn end_by_closed<R: Files + AllocGlobal, E: Write>(
    rt: &R,
    err: &mut E,
    dir: &str,
    nodes: Nodes,
    closed: &Closed,
) -> u8
where
    R::File: FileExt,
    ensures { IsClosedBy closed.now result }
{
    let refusal = refusal_of(rt, dir, nodes, closed);
    let ending = end_by_refusal(err, &refusal);
    let _ = match closed {
        Closed::OutOfMemory | Closed::InUse(_) | Closed::Failed { .. } => {
            print_closed(err, closed)
        }
        Closed::Unopened(node, _) => print_unopened(rt, err, dir, *node, &refusal),
        Closed::Refused(node, fault) => print_refused(rt, err, dir, nodes, *node, fault, &refusal),
    };
    ending
}

// The refusal that the program ends with.
fn refusal_of<R: Files + AllocGlobal>(rt: &R, dir: &str, nodes: Nodes, closed: &Closed) -> Refusal
    ensures { IsRefusalOf closed.now result }
{
    match closed {
        Closed::OutOfMemory => Refusal::OutOfMemory,
        Closed::InUse(_) | Closed::Failed { .. } => Refusal::Device,
        Closed::Unopened(_, refusal) => *refusal,
        Closed::Refused(node, fault) if may_be_damaged(fault) => {
            opening_refusal(rt, dir, nodes, *node)
        }
        Closed::Refused(..) => Refusal::Device,
    }
}

// Whether an opening of the disk may find it too.
fn may_be_damaged(fault: &Fault) -> bool
    ensures { result ≡ may_be_damaged fault.now }
{
    match fault {
        Fault::Cut | Fault::OtherNode(_) | Fault::OtherNodes(_) => true,
        Fault::Older | Fault::Shorter | Fault::Altered => true,
        _ => false,
    }
}

// What an opening of a node's disk is refused with; a device that fails where it isn't, or where the disk can't be read.
fn opening_refusal<R: Files + AllocGlobal>(
    rt: &R,
    dir: &str,
    nodes: Nodes,
    node: NodeId,
) -> Refusal {
    let index = node.index();
    let (Ok(first), Ok(second)) = (
        format!(in rt.alloc(); "{dir}/{index}/a0"),
        format!(in rt.alloc(); "{dir}/{index}/a1"),
    ) else {
        return Refusal::OutOfMemory;
    };
    let (Ok(first), Ok(second)) = (fs::read(rt, first.as_str()), fs::read(rt, second.as_str()))
    else {
        return Refusal::Device;
    };
    refusal_for(rt.alloc(), nodes, node, first.as_slice(), second.as_slice())
}

// What an opening of a node's disk of these areas is refused with; a device that fails where it isn't.
fn refusal_for(alloc: Global, nodes: Nodes, node: NodeId, first: &[u8], second: &[u8]) -> Refusal
    ensures { IsRefusedFor (found nodes node first.now second.now) result }
{
    match read_image(alloc, nodes, node, first, second) {
        Ok(_) => Refusal::Device,
        Err(refusal) => refusal,
    }
}

// Prints why the files of a node's folder can't be opened.
fn print_unopened<R: Files + AllocGlobal, W: Write>(
    rt: &R,
    err: &mut W,
    dir: &str,
    node: NodeId,
    refusal: &Refusal,
) -> io::Result<()> {
    let index = node.index();
    let path = format!(in rt.alloc(); "{dir}/{index}")?;
    print_folder_fault(rt, err, path.as_str(), refusal)
}

// Prints why a node's folder may not be opened. Where an opening finds damage, that is told.
fn print_refused<R: Files + AllocGlobal, W: Write>(
    rt: &R,
    err: &mut W,
    dir: &str,
    nodes: Nodes,
    node: NodeId,
    fault: &Fault,
    refusal: &Refusal,
) -> io::Result<()> {
    match fault {
        Fault::Cut | Fault::Older | Fault::Shorter | Fault::Altered
            if !matches!(refusal, Refusal::Device) => {
            print_unopened(rt, err, dir, node, refusal)
        }
        _ => print_fault(err, dir, nodes, node, fault),
    }
}

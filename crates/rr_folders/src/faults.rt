//! Why a node's folder may not be opened, told to people.

use crate::judging::Fault;
use rr_types::{NodeId, Nodes};
use std::io;
use std::io::Write;

// Ends a line with what else can be done, of a node of so many: without one of three or more a majority is left.
fn print_without<W: Write>(err: &mut W, dir: &str, nodes: Nodes, node: NodeId) -> io::Result<()> {
    if nodes.count() < 3 {
        return writeln!(err);
    }
    let path = node.index();
    writeln!(
        err,
        ", or start without it by --without {path}, or replace it by rr replace {dir} --node {path}"
    )
}

/// Prints why the folder of a node may not be opened, of a cluster in the folder DIR of which so many nodes are asked for: what that means
/// and what to do. It is one line.
///
/// # Errors
/// Those of the writer.
pub fn print_fault<W: Write>(
    err: &mut W,
    dir: &str,
    nodes: Nodes,
    node: NodeId,
    fault: &Fault,
) -> io::Result<()> {
    let path = node.index();
    match fault {
        Fault::Missing => write!(err, "{dir}/{path}: the folder is gone, and ")?,
        Fault::Blank => write!(err, "{dir}/{path}: its disk is blank, and ")?,
        Fault::Cut => write!(err, "{dir}/{path}: a file of its disk is gone or cut, and ")?,
        Fault::Older => write!(
            err,
            "{dir}/{path}: the newest area of its disk isn't the one that its file node names, and "
        )?,
        Fault::Shorter => write!(
            err,
            "{dir}/{path}: the newest area of its disk is shorter than its file node says, and "
        )?,
        Fault::Altered => write!(
            err,
            "{dir}/{path}: the newest area of its disk has other bytes than its file node says, and "
        )?,
        Fault::Outdated => return print_outdated(err, dir, nodes, node),
        Fault::Replaced => return print_replaced(err, dir, nodes, node),
        Fault::LeftOut | Fault::Unfounded => return print_left_out(err, dir, nodes, node, fault),
        Fault::OtherNode(_) | Fault::OtherNodes(_) | Fault::OtherCluster | Fault::Unmarked =>
            return print_other(err, dir, nodes, node, fault),
    }
    write!(
        err,
        "node {path} can't know any more what it promised; put the folder back as it was last, or go on from the others by rr export"
    )?;
    print_without(err, dir, nodes, node)
}

/// Prints that the folder of a node isn't in its place any more, in which its disk was open: it was removed, or else replaced. It is one line.
///
/// # Errors
/// Those of the writer.
pub(crate) fn print_moved<W: Write>(
    err: &mut W,
    dir: &str,
    nodes: Nodes,
    node: NodeId,
    is_removed: bool,
) -> io::Result<()> {
    let path = node.index();
    if is_removed {
        write!(
            err,
            "{dir}/{path}: the folder was removed while node {path} had it open, and "
        )?;
    } else {
        write!(
            err,
            "{dir}/{path}: it isn't the folder any more that node {path} had open, or has lost its file node, and "
        )?;
    }
    write!(
        err,
        "what the node wrote since isn't there; put that folder back, or go on from the others by rr export"
    )?;
    print_without(err, dir, nodes, node)
}

// Prints that it is of an earlier moment.
fn print_outdated<W: Write>(err: &mut W, dir: &str, nodes: Nodes, node: NodeId) -> io::Result<()> {
    let path = node.index();
    write!(
        err,
        "{dir}/{path}: it is an older copy, as its file node isn't as far as {dir}/marks says; put back the folder as it was last, or all of {dir} from one backup"
    )?;
    print_without(err, dir, nodes, node)
}

// Prints that it is of a time before its node was replaced.
fn print_replaced<W: Write>(err: &mut W, dir: &str, nodes: Nodes, node: NodeId) -> io::Result<()> {
    let path = node.index();
    write!(
        err,
        "{dir}/{path}: it is from before node {path} was replaced, as its file node says, and has no say any more; put the new folder back"
    )?;
    print_without(err, dir, nodes, node)
}

// Prints why it may not be left out.
fn print_left_out<W: Write>(
    err: &mut W,
    dir: &str,
    nodes: Nodes,
    node: NodeId,
    fault: &Fault,
) -> io::Result<()> {
    let (path, asked) = (node.index(), nodes.count());
    match fault {
        Fault::LeftOut => writeln!(
            err,
            "{dir}/{path}: it is left out, and more than half of {asked} nodes have to be there; leave out fewer"
        ),
        _ => writeln!(
            err,
            "{dir}/{path}: it is left out, and there is no cluster in {dir} yet that could do without it; start all {asked} nodes first"
        ),
    }
}

// Prints whose folder it is, where it is another's.
fn print_other<W: Write>(
    err: &mut W,
    dir: &str,
    nodes: Nodes,
    node: NodeId,
    fault: &Fault,
) -> io::Result<()> {
    let (path, asked) = (node.index(), nodes.count());
    match fault {
        Fault::OtherNode(other) => {
            let other = other.index();
            writeln!(
                err,
                "{dir}/{path}: it is the folder of node {other}; put each folder back in its place"
            )
        }
        Fault::OtherNodes(others) => {
            let others = others.count();
            writeln!(
                err,
                "{dir}: its cluster has another number of nodes than {asked}; ask for --nodes {others}"
            )
        }
        Fault::OtherCluster => writeln!(
            err,
            "{dir}/{path}: it is a folder of another cluster; put that of this one back"
        ),
        _ => writeln!(
            err,
            "{dir}/{path}: no cluster has marked it; put the folder of this one back"
        ),
    }
}

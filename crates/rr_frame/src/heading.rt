//! Snapshots that are judged whole, without their entries being kept.

ghost use Rattle.std.specs.Prelude.{◌≡◌};
ghost use Rattle.rr_frame.specs.Reading.{Gives};
ghost use Rattle.rr_frame.specs.SnapshotFormat.{entries_at, contents_at, snapshot_at};
ghost use Rattle.rr_frame.specs.Headings.{nothing, told, heading_of, heading_in};

use crate::reader::Reader;
use crate::snapshot::{read_entry, read_owner};
use crate::stop::Fault;
use crate::version::Version;
use rr_types::{Command, NodeId, Nodes, Op, Standing, made_of};

/// What is told of a snapshot beside its promise: its version, whose it is, of how many nodes, and its epoch.
#[derive(Clone, Copy, Debug)]
pub struct Heading {
    pub version: Version,
    pub nodes: Nodes,
    pub node: NodeId,
    pub epoch: u64,
}

/// Reads so many entries, and keeps none.
fn pass_entries(
    version: Version,
    nodes: Nodes,
    node: NodeId,
    count: u32,
    reader: &mut Reader<'_>,
) -> Result<(), Fault>
    ensures { Gives result reader.new (told nothing (entries_at version nodes node 0 count reader.old)) }
{
    made_of!(Command, Op, Standing);
    let mut low = 0;
    for _ in 0..count {
        let entry = read_entry(version, nodes, node, low, reader)?;
        low = entry.instance.number() + 1;
    }
    Ok(())
}

/// Reads the next fact number and the entries, and keeps neither.
#[tactic(auto, unfolding(crate::specs::SnapshotFormat::contents_at), using(crate::proofs::HeadingLaws::told_bind))]
fn pass_contents(
    version: Version,
    nodes: Nodes,
    node: NodeId,
    reader: &mut Reader<'_>,
) -> Result<(), Fault>
    ensures { Gives result reader.new (told nothing (contents_at version nodes node reader.old)) }
{
    let next = reader.u64()?;
    let here = reader.fault();
    let count = reader.u32()?;
    if count > 0 && next == 0 {
        return Err(here);
    }
    pass_entries(version, nodes, node, count, reader)
}

/// Reads a snapshot, and keeps its heading.
#[tactic(auto, unfolding(crate::specs::SnapshotFormat::snapshot_at))]
fn read_heading(reader: &mut Reader<'_>) -> Result<Heading, Fault>
    ensures { Gives result reader.new (told heading_of (snapshot_at reader.old)) }
{
    let (version, node, nodes) = read_owner(reader)?;
    let here = reader.fault();
    let epoch = reader.u64()?;
    if epoch == 0 {
        return Err(here);
    }
    pass_contents(version, nodes, node, reader)?;
    Ok(Heading {
        version,
        nodes,
        node,
        epoch,
    })
}

/// The heading of the snapshot that all these bytes spell; `None` where they spell none, as `decode_snapshot` says it. It
/// takes no memory.
#[tactic(auto, unfolding(crate::specs::SnapshotFormat::snapshot_in))]
pub fn snapshot_heading(bytes: &[u8]) -> Option<Heading>
    ensures { result ≡ heading_in bytes.now }
{
    let mut reader = Reader::new(bytes);
    match read_heading(&mut reader) {
        Ok(heading) if reader.left() == 0 => Some(heading),
        _ => None,
    }
}

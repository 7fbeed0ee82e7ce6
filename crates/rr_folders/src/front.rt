//! What the first bytes of a disk's areas say of its node.

ghost use Rattle.std.specs.Prelude.{◌≡◌};
ghost use Rattle.rr_folders.specs.Fronts.{formatted_front, number_of, epoch_of, front_of, content_of, active_of};

use rr_types::{NodeId, Nodes};

/// How an area begins.
#[derive(Clone, Copy, Debug)]
pub enum AreaFront {
    /// Its file is missing.
    Missing,
    /// It has no byte.
    Empty,
    /// It isn't formatted.
    Unformatted,
    /// It is formatted. Its first frame isn't whole, or names no node.
    Cut,
    /// It is formatted, as that of this node of so many, with this epoch.
    Formatted {
        node: NodeId,
        nodes: Nodes,
        epoch: u64,
    },
}

/// What a node's folder has.
#[derive(Clone, Copy, Debug)]
pub enum Content {
    /// There is no folder.
    Absent,
    /// No area is formatted.
    Blank,
    /// An area is formatted, and one is shorter than it was, is missing, or names no node or another one.
    Cut,
    /// The disk of this node of so many.
    Holds { node: NodeId, nodes: Nodes },
}

/// Which area of a folder is active: the formatted one of the greater epoch. Opening refuses two of one epoch.
#[derive(Clone, Copy, Debug)]
pub enum Active {
    /// No area is formatted.
    Neither,
    /// Area 0, with this epoch.
    First(u64),
    /// Area 1, with this epoch.
    Second(u64),
}

// The number of four bytes.
fn number_of(a: u8, b: u8, c: u8, d: u8) -> u64
    ensures { result ≡ number_of a b c d }
{
    16_777_216 * u64::from(a) + 65_536 * u64::from(b) + 256 * u64::from(c) + u64::from(d)
}

// The epoch that begins these bytes.
fn epoch_of(bytes: &[u8]) -> u64
    ensures { result ≡ epoch_of bytes.now }
{
    match bytes {
        [a, b, c, d, e, f, g, h, ..] => {
            4_294_967_296 * number_of(*a, *b, *c, *d) + number_of(*e, *f, *g, *h)
        }
        _ => 0,
    }
}

// An area that is formatted: its length, and of its first frame the length of the payload, the node, the number of nodes and the epoch.
fn formatted_front(length: u64, payload: u64, node: u8, nodes: u8, epoch: u64) -> AreaFront
    ensures { result ≡ formatted_front length payload node nodes epoch }
{
    if length < 6 || length - 6 < payload {
        return AreaFront::Cut;
    }
    let Ok(nodes) = Nodes::new(nodes) else {
        return AreaFront::Cut;
    };
    match NodeId::new(nodes, node) {
        Some(node) => AreaFront::Formatted { node, nodes, epoch },
        None => AreaFront::Cut,
    }
}

/// How an area of this length begins, by its first sixteen bytes or as many as it has.
pub fn front_of(length: u64, bytes: &[u8]) -> AreaFront
    ensures { result ≡ front_of length bytes.now }
{
    match bytes {
        [] => AreaFront::Empty,
        [0xA5, a, b, c, d, _, node, nodes, rest @ ..] => {
            let payload = number_of(*a, *b, *c, *d);
            formatted_front(length, payload, *node, *nodes, epoch_of(rest))
        }
        [0xA5, _, ..] => AreaFront::Cut,
        [_, ..] => AreaFront::Unformatted,
    }
}

// What a folder has whose first area is formatted.
fn beside_formatted(node: NodeId, nodes: Nodes, epoch: u64, second: AreaFront) -> Content
    ensures { result ≡ content_of (AreaFront.Formatted node nodes epoch) second }
{
    match second {
        AreaFront::Missing | AreaFront::Cut => Content::Cut,
        AreaFront::Empty | AreaFront::Unformatted => Content::Holds { node, nodes },
        AreaFront::Formatted {
            node: other,
            nodes: others,
            epoch: _,
        } => {
            if node == other && nodes == others {
                Content::Holds { node, nodes }
            } else {
                Content::Cut
            }
        }
    }
}

// What a folder has whose first area isn't formatted, but has bytes.
fn beside_unformatted(second: AreaFront) -> Content
    ensures { result ≡ content_of AreaFront.Unformatted second }
{
    match second {
        AreaFront::Cut => Content::Cut,
        AreaFront::Formatted { node, nodes, .. } => Content::Holds { node, nodes },
        _ => Content::Blank,
    }
}

/// What a folder with these areas has.
pub fn content_of(first: AreaFront, second: AreaFront) -> Content
    ensures { result ≡ content_of first second }
{
    match first {
        AreaFront::Cut => Content::Cut,
        AreaFront::Formatted { node, nodes, epoch } => {
            beside_formatted(node, nodes, epoch, second)
        }
        AreaFront::Unformatted => beside_unformatted(second),
        AreaFront::Missing | AreaFront::Empty => match second {
            AreaFront::Cut | AreaFront::Formatted { .. } => Content::Cut,
            _ => Content::Blank,
        },
    }
}

/// Which of these areas is active.
pub fn active_of(first: AreaFront, second: AreaFront) -> Active
    ensures { result ≡ active_of first second }
{
    match (first, second) {
        (AreaFront::Formatted { epoch, .. }, AreaFront::Formatted { epoch: other, .. }) => {
            if epoch < other {
                Active::Second(other)
            } else {
                Active::First(epoch)
            }
        }
        (AreaFront::Formatted { epoch, .. }, _) => Active::First(epoch),
        (_, AreaFront::Formatted { epoch, .. }) => Active::Second(epoch),
        (_, _) => Active::Neither,
    }
}

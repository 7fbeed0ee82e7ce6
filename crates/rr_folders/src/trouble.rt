//! What went wrong with a node's disk, as a number: so a thread can note it in an atomic, and another one tell it.

ghost use Rattle.std.specs.Prelude.{◌≡◌, ◌≤◌, ◌<◌};

use crate::closed::Closed;
use crate::judging::Fault;
use rr_disk::Area;
use rr_types::{NodeId, Nodes, Refusal};
use std::io;
use std::io::ErrorKind;

/// A call on a file or a folder.
#[derive(Clone, Copy, Debug)]
pub(crate) enum Call {
    Reading,
    Writing,
    Syncing,
    Looking,
    Opening,
    OpeningFolder,
    Locking,
    Making,
    Renaming,
    SyncingFolder,
}

impl Call {
    /// The words for it.
    pub(crate) fn words(self) -> &'static str {
        match self {
            Call::Reading => "reading",
            Call::Writing => "writing",
            Call::Syncing => "syncing",
            Call::Looking => "looking",
            Call::Opening => "opening",
            Call::OpeningFolder => "opening the folder",
            Call::Locking => "locking",
            Call::Making => "making the file",
            Call::Renaming => "renaming",
            Call::SyncingFolder => "syncing the folder",
        }
    }

    // The call of these words.
    fn of_words(words: &str) -> Call {
        match words {
            "reading" => Call::Reading,
            "writing" => Call::Writing,
            "syncing" => Call::Syncing,
            "looking" => Call::Looking,
            "opening the folder" => Call::OpeningFolder,
            "locking" => Call::Locking,
            "making the file" => Call::Making,
            "renaming" => Call::Renaming,
            "syncing the folder" => Call::SyncingFolder,
            _ => Call::Opening,
        }
    }

    // Its number.
    fn number(self) -> u64
        ensures { result ≤ 15 }
    {
        match self {
            Call::Reading => 0,
            Call::Writing => 1,
            Call::Syncing => 2,
            Call::Looking => 3,
            Call::Opening => 4,
            Call::OpeningFolder => 5,
            Call::Locking => 6,
            Call::Making => 7,
            Call::Renaming => 8,
            Call::SyncingFolder => 9,
        }
    }

    // The call of a number.
    fn of_number(number: u64) -> Call {
        match number {
            0 => Call::Reading,
            1 => Call::Writing,
            2 => Call::Syncing,
            3 => Call::Looking,
            4 => Call::Opening,
            5 => Call::OpeningFolder,
            6 => Call::Locking,
            7 => Call::Making,
            8 => Call::Renaming,
            _ => Call::SyncingFolder,
        }
    }
}

/// On what of a node a call was made.
#[derive(Clone, Copy, Debug)]
pub(crate) enum Spot {
    /// Its folder.
    Folder,
    /// Its first area.
    First,
    /// Its second area.
    Second,
    /// Its mark.
    Mark,
    /// The file of the cluster in which marks are noted.
    Marks,
    /// The file of request numbers.
    Numbers,
    /// The new file of request numbers, until it is put in place of that.
    FreshNumbers,
}

impl Spot {
    /// What stands in its path behind DIR, and the node's number if it is a node's.
    pub(crate) fn name(self) -> &'static str {
        match self {
            Spot::Folder | Spot::Marks => "",
            Spot::First => "/a0",
            Spot::Second => "/a1",
            Spot::Mark => "/node",
            Spot::Numbers => "/requests",
            Spot::FreshNumbers => "/requests.new",
        }
    }

    /// The file of an area.
    pub(crate) fn of_area(area: Area) -> Spot {
        match area {
            Area::First => Spot::First,
            Area::Second => Spot::Second,
        }
    }

    // What is at a path.
    fn of_path(path: &str) -> Spot {
        if path.ends_with("/a0") {
            Spot::First
        } else if path.ends_with("/a1") {
            Spot::Second
        } else if path.ends_with("/node") || path.ends_with("/node.new") {
            Spot::Mark
        } else if path.ends_with("/marks") {
            Spot::Marks
        } else if path.ends_with("/requests") {
            Spot::Numbers
        } else if path.ends_with("/requests.new") {
            Spot::FreshNumbers
        } else {
            Spot::Folder
        }
    }

    // Its number.
    fn number(self) -> u64
        ensures { result ≤ 7 }
    {
        match self {
            Spot::Folder => 0,
            Spot::First => 1,
            Spot::Second => 2,
            Spot::Mark => 3,
            Spot::Marks => 4,
            Spot::Numbers => 5,
            Spot::FreshNumbers => 6,
        }
    }

    // What has a number.
    fn of_number(number: u64) -> Spot {
        match number {
            0 => Spot::Folder,
            1 => Spot::First,
            2 => Spot::Second,
            3 => Spot::Mark,
            4 => Spot::Marks,
            5 => Spot::Numbers,
            _ => Spot::FreshNumbers,
        }
    }
}

/// The code of an error by which there is something else than a plain file. The system has none so great.
const NOT_PLAIN: u64 = 65_536;

/// The greatest code of the system's that is told.
const LAST_CODE: u64 = 65_535;

/// The code of an error: the system's, or one of ours.
pub(crate) fn code_of(error: &io::Error) -> u64
    ensures { result < 4294967296 }
{
    match error.raw_os_error() {
        Some(code) if code >= 0 => u64::from(code as u32),
        None if error.kind() == ErrorKind::InvalidInput => NOT_PLAIN,
        _ => 0,
    }
}

/// The error of a code.
pub(crate) fn error_of(code: u64) -> io::Error {
    if code == NOT_PLAIN {
        io::Error::new(ErrorKind::InvalidInput, "not a plain file")
    } else if code == 0 || code > LAST_CODE {
        io::Error::new(
            ErrorKind::Other,
            "the file gives or takes less than asked for",
        )
    } else {
        io::Error::from_raw_os_error(code as i32)
    }
}

/// What went wrong with a node's disk.
#[derive(Clone, Copy, Debug)]
pub(crate) enum Trouble {
    /// A call on the file of an area that is open.
    Area { area: Area, call: Call, code: u64 },
    /// A call by which the folder was to be opened again.
    Entering { spot: Spot, call: Call, code: u64 },
    /// Another program has locked the folder.
    InUse,
    /// The folder was removed while the disk in it was open.
    Removed,
    /// Another folder has come to its place while the disk in it was open, or it has lost its mark.
    Replaced,
    /// The folder may not be opened.
    Refused(Fault),
}

impl Trouble {
    /// Why a folder isn't opened. None: memory was refused.
    pub(crate) fn of_closed(closed: &Closed) -> Option<Trouble> {
        match closed {
            Closed::OutOfMemory | Closed::Unopened(_, Refusal::OutOfMemory) => None,
            Closed::InUse(_) => Some(Trouble::InUse),
            Closed::Failed { path, call, error } => Some(Trouble::Entering {
                spot: Spot::of_path(path.as_str()),
                call: Call::of_words(call),
                code: code_of(error),
            }),
            Closed::Unopened(..) => Some(Trouble::Entering {
                spot: Spot::Folder,
                call: Call::Opening,
                code: 0,
            }),
            Closed::Refused(_, fault) => Some(Trouble::Refused(*fault)),
        }
    }

    /// Whether it is that the folder isn't in its place any more.
    pub(crate) fn is_of_place(&self) -> bool {
        matches!(self, Trouble::Removed | Trouble::Replaced)
    }

    /// Its number, which isn't 0.
    pub(crate) fn number(self) -> u64 {
        match self {
            Trouble::Area { area, call, code } => {
                let area = match area {
                    Area::First => 0,
                    Area::Second => 1,
                };
                1 + 4 * packed(area, call.number(), code)
            }
            Trouble::Entering { spot, call, code } => {
                2 + 4 * packed(spot.number(), call.number(), code)
            }
            Trouble::InUse => 3,
            Trouble::Removed => 3 + 4,
            Trouble::Replaced => 3 + 8,
            Trouble::Refused(fault) => {
                let (kind, detail) = numbers_of(fault);
                4 + 4 * packed(detail, 0, kind)
            }
        }
    }

    /// What has a number. None: nothing went wrong.
    pub(crate) fn of_number(number: u64) -> Option<Trouble> {
        let rest = number / 4;
        let (low, call, code) = (rest % 8, Call::of_number(rest / 8 % 16), rest / 128);
        match number % 4 {
            1 if low == 0 => Some(Trouble::Area {
                area: Area::First,
                call,
                code,
            }),
            1 => Some(Trouble::Area {
                area: Area::Second,
                call,
                code,
            }),
            2 => Some(Trouble::Entering {
                spot: Spot::of_number(low),
                call,
                code,
            }),
            3 if rest == 0 => Some(Trouble::InUse),
            3 if rest == 1 => Some(Trouble::Removed),
            3 => Some(Trouble::Replaced),
            _ if rest > 0 => {
                let packed = rest - 1;
                Some(Trouble::Refused(fault_of(packed / 128, packed % 8)?))
            }
            _ => None,
        }
    }
}

// Three numbers as one: below 8, below 16, and a code.
fn packed(low: u64, call: u64, code: u64) -> u64
    requires low { low ≤ 7 }
    requires call { call ≤ 15 }
    ensures { result < 549755813888 }
{
    low + 8 * call + 128 * (code % 4_294_967_296)
}

// The number of a fault's kind, and that of the node or nodes that it names.
fn numbers_of(fault: Fault) -> (u64, u64)
    ensures { result.1 ≤ 7 }
{
    match fault {
        Fault::Missing => (0, 0),
        Fault::Blank => (1, 0),
        Fault::Cut => (2, 0),
        Fault::OtherNode(node) => (3, u64::from(node.index())),
        Fault::OtherNodes(nodes) => (4, u64::from(nodes.count())),
        Fault::OtherCluster => (5, 0),
        Fault::Unmarked => (6, 0),
        Fault::Older => (7, 0),
        Fault::Shorter => (8, 0),
        Fault::Altered => (9, 0),
        Fault::Outdated => (10, 0),
        Fault::LeftOut => (11, 0),
        Fault::Unfounded => (12, 0),
        Fault::Replaced => (13, 0),
    }
}

// The fault of these numbers.
fn fault_of(kind: u64, detail: u64) -> Option<Fault> {
    match kind {
        0 => Some(Fault::Missing),
        1 => Some(Fault::Blank),
        2 => Some(Fault::Cut),
        3 => Some(Fault::OtherNode(NodeId::at((detail % 8) as u8)?)),
        4 => Some(Fault::OtherNodes(Nodes::new((detail % 8) as u8).ok()?)),
        5 => Some(Fault::OtherCluster),
        6 => Some(Fault::Unmarked),
        7 => Some(Fault::Older),
        8 => Some(Fault::Shorter),
        9 => Some(Fault::Altered),
        10 => Some(Fault::Outdated),
        11 => Some(Fault::LeftOut),
        12 => Some(Fault::Unfounded),
        13 => Some(Fault::Replaced),
        _ => None,
    }
}

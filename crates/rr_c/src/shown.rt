//! What crosses to C: structs of the caller, which a call fills.

ghost use Rattle.std.specs.Prelude.{◌≡◌, OnOk};
ghost use Rattle.rr_c.specs.Shown.{call_of, ack_of, addressee, Leaves, standing_of};

use rr_disk::Area;
use rr_handle::{DueWrite, Status, put, reply_number};
use rr_host::Leaving;
use rr_types::{Refusal, Reply, RequestNo};

/// A write that is due. `kind` is 0 where none is, else 1.
#[repr(C)]
#[derive(Clone, Copy, Debug)]
pub struct RrCall {
    pub kind: u32,
    pub area: u32,
    pub at: u64,
    pub len: usize,
}

/// A request that is decided, and the registry's reply. `reply` is 0 where there is none.
#[repr(C)]
#[derive(Clone, Copy, Debug)]
pub struct RrAck {
    pub client: u32,
    pub reply: u32,
    pub seq: u64,
    pub owner: u32,
}

/// A message that has left: `kind` is 0 where none may, 1 for one to another node, and 2 for one to the node itself, which has heard it.
#[repr(C)]
#[derive(Clone, Copy, Debug)]
pub struct RrMessage {
    pub kind: u32,
    pub to: u32,
    pub len: usize,
}

/// Who has a name: `is_bound` is 0 where nobody does.
#[repr(C)]
#[derive(Clone, Copy, Debug)]
pub struct RrHolding {
    pub is_bound: u32,
    pub owner: u32,
    pub len: usize,
}

/// A bound name and who has it: `is_bound` is 0 behind the last.
#[repr(C)]
#[derive(Clone, Copy, Debug)]
pub struct RrBinding {
    pub is_bound: u32,
    pub owner: u32,
    pub name_len: usize,
    pub len: usize,
}

/// How a node stands.
#[repr(C)]
#[derive(Clone, Copy, Debug)]
pub struct RrStanding {
    pub decided: u64,
    pub facts: u64,
    pub nodes: u32,
    pub node: u32,
    pub suspects: u32,
    pub is_up: u32,
}

pub(crate) const NO_ACK: RrAck = RrAck {
    client: 0,
    reply: 0,
    seq: 0,
    owner: 0,
};

pub(crate) const NO_MESSAGE: RrMessage = RrMessage {
    kind: 0,
    to: 0,
    len: 0,
};

pub(crate) const NO_HOLDING: RrHolding = RrHolding {
    is_bound: 0,
    owner: 0,
    len: 0,
};

pub(crate) const NO_BINDING: RrBinding = RrBinding {
    is_bound: 0,
    owner: 0,
    name_len: 0,
    len: 0,
};

pub(crate) const NO_STANDING: RrStanding = RrStanding {
    decided: 0,
    facts: 0,
    nodes: 0,
    node: 0,
    suspects: 0,
    is_up: 0,
};

/// A write that is due.
pub(crate) fn call_of(due: Option<DueWrite>) -> RrCall
    ensures { result ≡ call_of due }
{
    match due {
        None => RrCall {
            kind: 0,
            area: 0,
            at: 0,
            len: 0,
        },
        Some(write) => RrCall {
            kind: 1,
            area: match write.area {
                Area::First => 0,
                Area::Second => 1,
            },
            at: write.at,
            len: write.len,
        },
    }
}

/// A message that has left: its bytes go to the front of the buffer.
///
/// # Errors
/// `TooLarge` where they have no room.
pub(crate) fn show(leaving: Leaving, message: &mut RrMessage, out: &mut [u8]) -> Result<(), Refusal>
    ensures { OnOk result (Leaves leaving message.new out.new) }
{
    let to = addressee(&leaving);
    match leaving {
        Leaving::Nothing => {
            *message = NO_MESSAGE;
            Ok(())
        }
        Leaving::Own => {
            *message = RrMessage {
                kind: 2,
                ..NO_MESSAGE
            };
            Ok(())
        }
        Leaving::Out(_, bytes) => match put(out, &bytes) {
            Err(refusal) => Err(refusal),
            Ok(len) => {
                *message = RrMessage { kind: 1, to, len };
                Ok(())
            }
        },
    }
}

// To whom a message goes.
fn addressee(leaving: &Leaving) -> u32
    ensures { result ≡ addressee leaving.now }
{
    match leaving {
        Leaving::Out(to, _) => u32::from(to.index()),
        _ => 0,
    }
}

/// The answer to a request.
pub(crate) fn ack_of(request: RequestNo, reply: Option<Reply>) -> RrAck
    ensures { result ≡ ack_of request reply }
{
    let (number, owner) = match reply {
        None => (0, 0),
        Some(reply) => (reply_number(reply.kind()), reply.owner().unwrap_or(0)),
    };
    RrAck {
        client: request.client,
        reply: number,
        seq: request.seq,
        owner,
    }
}

/// How a node stands.
pub(crate) fn standing_of(status: Status) -> RrStanding
    ensures { result ≡ standing_of status }
{
    let stands = RrStanding {
        nodes: u32::from(status.nodes),
        node: u32::from(status.node),
        ..NO_STANDING
    };
    match status.standing {
        None => stands,
        Some(now) => RrStanding {
            decided: now.decided,
            facts: now.facts,
            suspects: u32::from(now.suspects),
            is_up: 1,
            ..stands
        },
    }
}

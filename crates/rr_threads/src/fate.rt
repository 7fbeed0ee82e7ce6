//! What has become of a command, by what its node knows.

ghost use Rattle.std.specs.Prelude.{◌≡◌};
ghost use Rattle.rr_model.specs.NodeState.{decided_prefix};
ghost use Rattle.rr_threads.specs.Fates.{first_under, fate_of};

use rr_core::Core;
use rr_types::{Command, INSTANCES, Op, RequestNo, made_of};

/// What a node's list of decided commands says of a command.
#[derive(Clone, Copy, Debug)]
pub enum Fate {
    /// It has the command.
    Decided,
    /// It has this other command under the request number, which counts for it.
    Used(Command),
    /// It is full without the request number: the command is never decided.
    Never,
    /// It doesn't have the request number yet.
    Open,
}

// The first command of a node's list with this request number.
fn first_under(core: &Core, request: RequestNo) -> Option<Command>
    ensures { result ≡ first_under request (decided_prefix core.now) }
{
    for place in 0..core.decided_count() {
        made_of!(Op);
        let Some(command) = core.decided_at(place) else {
            unreachable!()
        };
        if command.request.is_same(request) {
            return Some(command);
        }
    }
    None
}

/// What a node's list says of a command. It goes through the list only where that has the request number.
pub(crate) fn fate_in(core: &Core, command: &Command) -> Fate
    ensures { result ≡ fate_of (decided_prefix core.now) command.now }
{
    if core.reply(command.request).is_none() {
        if core.decided_count() < INSTANCES as usize {
            return Fate::Open;
        }
        return Fate::Never;
    }
    match first_under(core, command.request) {
        Some(first) => {
            if first.op.is_same(&command.op) {
                Fate::Decided
            } else {
                Fate::Used(first)
            }
        }
        None => Fate::Open,
    }
}

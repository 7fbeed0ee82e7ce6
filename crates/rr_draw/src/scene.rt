//! What is seen of the nodes behind an event.

ghost use Rattle.std.specs.Prelude.{◌≡◌, [], option_map, slice_get};
ghost use Rattle.std.specs.Option.{option_map_or};
ghost use Rattle.rr_model.specs.NodeState.{NodeState};
ghost use Rattle.rr_model.specs.NodeStep.{running_group};
ghost use Rattle.rr_node.specs.Seats.{Seat};
ghost use Rattle.rr_node.specs.Stances.{stance_of, synced_of};

use rr_audit::Replay;
use rr_sim::{Cluster, Stance};
use rr_text::ReportLine;
use rr_types::{Fact, Message, NodeId};

/// What is seen of the nodes behind an event.
#[derive(Clone, Copy)]
pub(crate) struct Scene<'a> {
    /// The lines that the report has of the event.
    pub(crate) lines: &'a [ReportLine],
    /// The messages that were sent.
    pub(crate) wire: &'a [Message],
    /// What the node of the event waits for; `None` where there is no such node.
    pub(crate) stance: Option<Stance>,
    /// The facts of the group that the node has synced. On a tape, which has no device calls, they are those that it flushes.
    pub(crate) synced: &'a [Fact],
}

/// What is seen of a cluster behind an event at a node. It has the lines of the event alone.
pub(crate) fn scene_of(cluster: &Cluster, node: NodeId) -> Scene<'_>
    ensures lines { result.lines.now ≡ cluster.now.lines }
    ensures wire { result.wire.now ≡ cluster.now.wire }
    ensures stance { result.stance ≡ option_map (λ (seat : Seat). stance_of seat.doing) (slice_get cluster.now.seats node) }
    ensures synced { result.synced.now ≡ option_map_or (λ (seat : Seat). synced_of seat.doing) (slice_get cluster.now.seats node) [] }
{
    let lines = cluster.lines();
    let wire = cluster.wire();
    match cluster.node(node) {
        Some(seat) => Scene {
            lines,
            wire,
            stance: Some(seat.stance()),
            synced: seat.synced(),
        },
        None => Scene {
            lines,
            wire,
            stance: None,
            synced: &[],
        },
    }
}

/// What is seen of the nodes of a tape behind an event at a node, which has these lines of a report, where these messages were sent.
pub(crate) fn tape_scene<'a>(
    replay: &'a Replay,
    lines: &'a [ReportLine],
    wire: &'a [Message],
    node: NodeId,
) -> Scene<'a>
    ensures lines { result.lines.now ≡ lines.entry.now }
    ensures wire { result.wire.now ≡ wire.entry.now }
    ensures synced { result.synced.now
        ≡ option_map_or (λ (s : NodeState). option_map_or (λ g. g.facts) (running_group s) []) (slice_get replay.entry.now.nodes node) [] }
{
    let group = match replay.node(node) {
        Some(seat) => seat.flushed(),
        None => None,
    };
    match group {
        Some(group) => Scene {
            lines,
            wire,
            stance: Some(Stance::Calling),
            synced: group.facts(),
        },
        None => Scene {
            lines,
            wire,
            stance: Some(Stance::Resting),
            synced: &[],
        },
    }
}

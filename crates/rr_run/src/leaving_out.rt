//! Which nodes of a cluster are left down, by a word.

ghost use Rattle.std.specs.Prelude.{◌≡◌, ◌<◌, false, None, IfSome, option_map};
ghost use Rattle.rr_types.specs.Nodes.{has_member};
ghost use Rattle.rr_run.specs.LeavingOut.{named_beside, named_from, left_out_by, AreLeftOutBelow, IsFirstLeft};

use rr_text::text_read::node;
use rr_types::{NodeId, NodeSet, Nodes};
use std::io::Write;

// The set with the node too that a word names. None: it names no node, or one that the set has.
fn named_beside(nodes: Nodes, named: NodeSet, word: &[u8]) -> Option<NodeSet>
    ensures { result ≡ named_beside nodes named word.now }
{
    let node = node(nodes, word)?;
    if named.contains(node) {
        None
    } else {
        Some(named.with(node))
    }
}

// The set with the nodes too that a list names. None: it isn't such a list.
fn named_from(nodes: Nodes, named: NodeSet, list: &[u8]) -> Option<NodeSet>
    ensures { result ≡ named_from nodes named list.now }
{
    match list {
        [] => None,
        [_] => named_beside(nodes, named, list),
        [digit, comma, rest @ ..] => {
            if *comma == b',' {
                named_from(nodes, named_beside(nodes, named, &[*digit])?, rest)
            } else {
                None
            }
        }
    }
}

/// The nodes that a word names, by their numbers with commas between them, each once: none of them where there is no word. None: the
/// word is no such list of these nodes.
pub(crate) fn left_out_by(nodes: Nodes, word: Option<&str>) -> Option<NodeSet>
    ensures { result ≡ left_out_by nodes (option_map (λ s. s.now) word.entry) }
{
    match word {
        Some(word) => named_from(nodes, NodeSet::empty(), word.as_bytes()),
        None => Some(NodeSet::empty()),
    }
}

/// The nodes that a word names, however many there are; none of them where it is no list of nodes.
pub(crate) fn left_out_of_any(word: Option<&str>) -> NodeSet {
    match Nodes::new(7) {
        Ok(seven) => match left_out_by(seven, word) {
            Some(named) => named,
            None => NodeSet::empty(),
        },
        Err(_) => NodeSet::empty(),
    }
}

// The lowest node that isn't left out. None: all are.
#[tactic(auto, using(crate::proofs::LeftLemmas::one_more))]
fn lowest_left(nodes: Nodes, without: NodeSet) -> Option<NodeId>
    ensures some { IfSome result (λ p. (p < nodes) × (has_member without p ≡ false) × AreLeftOutBelow p without) }
    ensures none { result ≡ None → AreLeftOutBelow nodes without }
{
    for index in 0..nodes.count() {
        let Some(node) = NodeId::new(nodes, index) else {
            unreachable!()
        };
        if !without.contains(node) {
            return Some(node);
        }
    }
    None
}

/// The lowest node that isn't left out; node 0, where all are.
pub(crate) fn first_left(nodes: Nodes, without: NodeSet) -> NodeId
    ensures { IsFirstLeft nodes without result }
{
    match (lowest_left(nodes, without), NodeId::new(nodes, 0)) {
        (Some(node), _) => node,
        (None, Some(node)) => node,
        (None, None) => unreachable!(),
    }
}

/// Ends a command whose word for nodes that are left down is no list of these nodes.
pub(crate) fn end_without_list<E: Write>(err: &mut E, command: &str, nodes: Nodes) -> u8
    ensures { result ≡ 2 }
{
    let last = nodes.count() - 1;
    let example = if last < 2 { "0" } else { "1 or 0,2" };
    let _ = writeln!(
        err,
        "rr: {command}: --without names nodes from 0 to {last}, as {example}"
    );
    2
}

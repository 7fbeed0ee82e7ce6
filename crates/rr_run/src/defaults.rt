//! What a shell takes where words are left out, and what it tells of that.

ghost use Rattle.std.specs.Prelude.{◌≡◌, ℕ, IfSome, Option, None, option_map};
ghost use Rattle.rr_run.specs.Shells.{IsNodesBy};

use crate::leaving_out::{first_left, left_out_of_any};
use rr_cli::nodes_of;
use rr_folders::read_only_disk;
use rr_journal::inspect;
use rr_shell::Prompting;
use rr_types::{NodeId, NodeSet, Nodes};
use std::alloc::{AllocError, Global};
use std::os::unix::fs::FileExt;
use std::rt::Files;

/// How many nodes there are where no folder tells it.
const COUNT: u8 = 3;

// How many nodes a cluster has, by the first area in the folder of a node that tells it.
fn nodes_told<R: Files + AllocGlobal>(rt: &R, folder: &str) -> Option<Nodes>
where
    R::File: FileExt,
{
    let mut disk = read_only_disk(rt, folder).ok()?;
    match inspect(rt.alloc(), &mut disk).ok()? {
        (Some(report), _) => Some(report.nodes),
        (None, Some(report)) => Some(report.nodes),
        (None, None) => None,
    }
}

// How many nodes a folder was made for, by the first folder of a node that tells it. Those of nodes that are left out aren't read.
fn nodes_there<R: Files + AllocGlobal>(rt: &R, dir: &str, without: NodeSet) -> Option<Nodes>
where
    R::File: FileExt,
{
    for index in 0..7u8 {
        if without.contains(NodeId::at(index)?) {
            continue;
        }
        let folder = format!(in rt.alloc(); "{dir}/{index}").ok()?;
        if let Some(nodes) = nodes_told(rt, folder.as_str()) {
            return Some(nodes);
        }
    }
    None
}

/// How many nodes the folder was made for, or else three. The folders of nodes that are left out aren't read.
pub(crate) fn nodes_of_folders<R: Files + AllocGlobal>(rt: &R, dir: &str, without: NodeSet) -> Nodes
where
    R::File: FileExt,
{
    if let Some(nodes) = nodes_there(rt, dir, without) {
        return nodes;
    }
    match Nodes::new(COUNT) {
        Ok(nodes) => nodes,
        Err(_) => unreachable!(),
    }
}

/// How many nodes a word names. Without a word, as many as the folder was made for, or else three. The folders of nodes that another word
/// leaves out aren't read.
pub(crate) fn nodes_by<R: Files + AllocGlobal>(
    rt: &R,
    word: Option<&str>,
    dir: &str,
    without: Option<&str>,
) -> Option<Nodes>
where
    R::File: FileExt,
    ensures some { IfSome result (λ n. IsNodesBy (option_map (λ s. s.now) word.entry) n) }
    ensures none { result ≡ None → (n : ℕ) → IsNodesBy (option_map (λ s. s.now) word.entry) n → ⊥ }
{
    match word {
        Some(word) => nodes_of(word),
        None => match nodes_there(rt, dir, left_out_of_any(without)) {
            Some(nodes) => Some(nodes),
            None => Nodes::new(COUNT).ok(),
        },
    }
}

/// Shows what a shell runs over, where somebody types: how many nodes, which folder, who is left out, who asks, and which node is asked first.
pub(crate) fn show_begin<I: Prompting>(
    alloc: Global,
    nodes: Nodes,
    dir: &str,
    client: u32,
    without: NodeSet,
    input: &mut I,
)
    ensures { I.reading input.new ≡ I.reading input.old }
{
    let count = nodes.count();
    let first = first_left(nodes, without).index();
    let Ok(left_out) = left_out_text(alloc, nodes, without) else {
        return;
    };
    let left_out = left_out.as_str();
    let Ok(text) = format!(in alloc;
        "rr: the registry in {dir}, of {count} nodes{left_out}; you are client {client}, and ask node {first}; \"help\" lists the commands, \"quit\" or Ctrl-D ends\n"
    ) else {
        return;
    };
    input.show(text.as_bytes());
}

// Who is left out, in words; nothing where nobody is.
fn left_out_text(alloc: Global, nodes: Nodes, without: NodeSet) -> Result<String, AllocError> {
    let mut text = String::new(alloc);
    for index in 0..nodes.count() {
        if let Some(node) = NodeId::new(nodes, index) {
            if without.contains(node) {
                let front = if text.is_empty() { ", without " } else { "," };
                text.push_str(front)?;
                text.push(char::from(b'0' + index))?;
            }
        }
    }
    Ok(text)
}

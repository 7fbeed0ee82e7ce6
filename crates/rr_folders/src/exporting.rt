//! The registry of a decided list as a script of claims.

ghost use Rattle.std.specs.Prelude.{◌≡◌, ◌≤◌, ℕ, [], IfOk, length};
ghost use Rattle.std.specs.List.{AllByRecursion};
ghost use Rattle.rr_types.specs.Limits.{max_nodes};
ghost use Rattle.rr_types.specs.Registry.{registry_of};
ghost use Rattle.rr_text.specs.Scripted.{IsScript, IsScriptLine};
ghost use Rattle.rr_folders.specs.Exports.{owned, claim_of, claims_behind, export_of, commands_of};

use rr_registry::{Holding, Registry};
use rr_text::{Script, ScriptLine, command_law};
use rr_types::{Command, Name, NodeId, Nodes, Op, RequestNo, Value, made_of};
use std::alloc::{AllocError, Global};

// How many of these names a client has.
fn owned(client: u32, names: &[(Name, Holding)]) -> u64
    ensures value { result ≡ owned client names.now }
    ensures few { result ≤ length names.now }
{
    made_of!(Holding);
    let mut count = 0;
    for binding in names {
        if binding.1.owner() == client {
            count += 1;
        }
    }
    count
}

// The claim of a name by its owner.
fn claim_of(seq: u64, name: &Name, holding: &Holding) -> Command
    ensures { result ≡ claim_of seq (name.now, holding.now) }
{
    Command {
        request: RequestNo {
            client: holding.owner(),
            seq,
        },
        op: Op::Claim(*name, holding.value()),
    }
}

// Submits of the claims of these names to a node.
fn claims(
    alloc: Global,
    node: NodeId,
    names: &[(Name, Holding)],
) -> Result<Vec<ScriptLine>, AllocError>
    requires { node ≡ 0 }
    ensures ok { IfOk result (λ v. v.items ≡ export_of names.now) }
    ensures lawful { IfOk result (λ v. (n : ℕ) → 1 ≤ n → AllByRecursion (IsScriptLine n) v.items) }
{
    made_of!(Command, Name, Value, Op, RequestNo, Holding);
    let mut lines = Vec::new(alloc);
    for place in 0..names.len() {
        let (name, holding) = &names[place];
        let (before, _) = names.split_at(place);
        let seq = owned(holding.owner(), before) + 1;
        let command = claim_of(seq, name, holding);
        command_law(&command);
        lines.push(ScriptLine::Submit { node, command })?;
    }
    Ok(lines)
}

/// The registry of a decided list as a script for so many nodes: a claim of each bound name, in byte order, by its owner
/// and with its value. Each client numbers its requests from 1, and all are submitted to node 0. Run from empty, the
/// script gives the same registry.
///
/// # Errors
/// `OutOfMemory`.
pub fn export(alloc: Global, nodes: Nodes, decided: &[Command]) -> Result<Script, AllocError>
    ensures same { IfOk result (λ s. registry_of (commands_of s.lines) ≡ registry_of decided.now) }
    ensures lines { IfOk result (λ s. s.lines ≡ export_of (registry_of decided.now)) }
    ensures taken { IfOk result (λ s. (n : ℕ) → 1 ≤ n → n ≤ max_nodes → IsScript (record { nodes = n; lines = s.lines })) }
{
    made_of!(Command, Name, Value, Op, RequestNo, Holding);
    let _count = nodes.count();
    let mut registry = Registry::new(alloc);
    registry.apply_all(decided)?;
    let mut names = Vec::new(alloc);
    for entry in registry.entries() {
        names.push(entry)?;
    }
    let Some(node) = NodeId::at(0) else {
        unreachable!();
    };
    let lines = claims(alloc, node, names.as_slice())?;
    Ok(Script::of_parts(nodes, lines))
}

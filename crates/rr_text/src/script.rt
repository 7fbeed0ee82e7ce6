//! Scripts.

ghost use Rattle.std.specs.Prelude.{◌≡◌};
ghost use Rattle.rr_text.specs.Scripted.{IsScript};

use crate::script_line::ScriptLine;
use rr_types::Nodes;
use std::marker::Model;

/// A script: how many nodes there are, and what clients ask of them, line by line.
#[derive(Debug, Drop)]
pub struct Script {
    nodes: Nodes,
    lines: Vec<ScriptLine>,
}

impl Model for Script {
    ghost use Rattle.rr_text.specs.Scripted.{Scripted, IsScript};

    ghost Value = { Scripted };

    ghost view = { λ s. record { nodes = s.nodes; lines = s.lines.items } };

    ghost invariant = { λ s. IsScript (record { nodes = s.nodes; lines = s.lines.items }) };
}

impl Script {
    /// The script of these nodes and lines, which ask these nodes. It keeps the vector.
    pub fn of_parts(nodes: Nodes, lines: Vec<ScriptLine>) -> Script
        requires { IsScript (record { nodes = nodes; lines = lines.items }) }
        ensures { result ≡ record { nodes = nodes; lines = lines.items } }
    {
        Script { nodes, lines }
    }

    /// How many nodes there are.
    pub fn nodes(&self) -> Nodes
        ensures { result ≡ self.now.nodes }
    {
        self.nodes
    }

    /// The lines, in their order.
    pub fn lines(&self) -> &[ScriptLine]
        ensures value { result.now ≡ self.now.lines }
        ensures valid { IsScript self.now }
    {
        let lines = &self.lines;
        lines
    }
}

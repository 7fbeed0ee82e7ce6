//! The commands that wait for an instance.

ghost use Rattle.std.specs.Prelude.{◌≡◌, ◌∷◌, ◌++◌, [], List, false, not, filter, OnOk, OnErr};
ghost use Rattle.rr_types.specs.declared.command.Command.{Command};
ghost use Rattle.rr_types.specs.Registry.{is_same_request, has_request};

use crate::arrivals::{Arrivals, Values};
use rr_types::{Command, Op, RequestNo, made_of};
use std::alloc::{AllocError, Global};
use std::marker::Model;

/// Commands in order of arrival, one a request number. Each call costs the logarithm of how many there are.
#[derive(Drop)]
pub struct Pool {
    commands: Arrivals<Command>,
}

impl Model for Pool {
    ghost use Rattle.std.specs.Prelude.{List};
    ghost use Rattle.rr_types.specs.declared.command.Command.{Command};

    ghost Value = { List Command };

    ghost view = { λ p. p.commands };
}

impl Pool {
    /// No command.
    pub fn new(alloc: Global) -> Pool
        ensures { result ≡ [] }
    {
        made_of!(Command, Op);
        Pool {
            commands: Arrivals::new(alloc),
        }
    }

    /// Whether there is a command with this request number.
    #[tactic(auto, using(crate::proofs::PoolLemmas::has_one))]
    pub fn has(&self, request: RequestNo) -> bool
        ensures { result ≡ has_request self.now request }
    {
        made_of!(Command, Op);
        self.commands.has(request)
    }

    /// Puts a command last. After an error nothing has changed.
    #[tactic(auto, using(crate::proofs::PoolLemmas::has_one))]
    pub fn push(&mut self, command: &Command) -> Result<(), AllocError>
        requires { has_request self.old command.now.request ≡ false }
        ensures ok { OnOk result (self.new ≡ self.old ++ command.now ∷ []) }
        ensures kept { OnErr result (self.new ≡ self.old) }
    {
        made_of!(Command, Op);
        self.commands.push(*command)
    }

    /// Takes the last command away again. It needs no memory.
    pub fn take_back(&mut self)
        ensures { (cs : List Command) (c : Command) → self.old ≡ cs ++ c ∷ [] → self.new ≡ cs }
    {
        made_of!(Command, Op);
        self.commands.take_back();
    }

    /// Takes the command with this request number away. It needs no memory.
    pub fn remove(&mut self, request: RequestNo)
        ensures { self.new ≡ filter (λ c. not (is_same_request c.request request)) self.old }
    {
        made_of!(Command, Op);
        self.commands.remove(request);
    }

    /// The commands, oldest first.
    pub fn iter(&self) -> Values<'_, Command>
        ensures { result ≡ self.now }
    {
        made_of!(Command, Op);
        self.commands.iter()
    }
}

//! The registry.

ghost use Rattle.std.specs.Prelude.{◌≡◌, List, [], ◌∷◌, ◌++◌, OnOk, OnErr, IfOk};
ghost use Rattle.rr_types.specs.declared.command.Command.{Command};
ghost use Rattle.rr_types.specs.Registry.{holding_of, registry_of, reply_of};
ghost use Rattle.rr_registry.specs.Kept.{kept_reply, applied, applied_all, kept_of};

use crate::entries::Entries;
use crate::holding::Holding;
use crate::tables::Tables;
use rr_types::{Command, Name, Reply, RequestNo};
use std::alloc::{AllocError, Global};
use std::marker::Model;

/// The names that are bound, and the reply to each request. It is the registry of a list of commands, in
/// which each request counts once, where it first comes. It keeps a place in memory for each bound name and each
/// reply, and no other: the place of a released name is given up.
#[derive(Drop)]
pub struct Registry {
    tables: Tables,
}

impl Model for Registry {
    ghost use Rattle.rr_registry.specs.Kept.{Kept};

    ghost Value = { Kept };

    ghost use Rattle.rr_registry.specs.Tables.{kept_in, IsSound};

    ghost view = { λ r. kept_in r.tables };

    ghost invariant = { λ r. IsSound r.tables };
}

impl Registry {
    /// The registry of no command.
    pub fn new(alloc: Global) -> Registry
        ensures { result ≡ kept_of [] }
    {
        Registry {
            tables: Tables::new(alloc),
        }
    }

    /// Applies a command, and gives the reply to its request: the kept one if the request was applied before.
    /// After an error the registry is as it was.
    pub fn apply(&mut self, command: &Command) -> Result<Reply, AllocError>
        ensures ok { OnOk result (self.new ≡ applied self.old command.now) }
        ensures reply { IfOk result (λ reply. kept_reply self.new command.now.request ≡ Some reply) }
        ensures err { OnErr result (self.new ≡ self.old) }
        ensures of_list { (L : List Command) → self.old ≡ kept_of L →
            IfOk result (λ reply. (self.new ≡ kept_of (L ++ command.now ∷ [])) × (reply_of (L ++ command.now ∷ []) command.now.request ≡ Some reply)) }
    {
        self.apply_all(&[*command])?;
        match self.reply(command.request) {
            Some(reply) => Ok(reply),
            None => unreachable!(),
        }
    }

    /// Applies commands in their order, all of them or, after an error, none.
    pub fn apply_all(&mut self, commands: &[Command]) -> Result<(), AllocError>
        ensures ok { OnOk result (self.new ≡ applied_all self.old commands.now) }
        ensures err { OnErr result (self.new ≡ self.old) }
        ensures of_list { (L : List Command) → self.old ≡ kept_of L → OnOk result (self.new ≡ kept_of (L ++ commands.now)) }
    {
        self.tables.apply_all(commands)
    }

    /// The reply to a request that was applied. It takes no memory.
    pub fn reply(&self, request: RequestNo) -> Option<Reply>
        ensures kept { result ≡ kept_reply self.now request }
        ensures of_list { (L : List Command) → self.now ≡ kept_of L → result ≡ reply_of L request }
    {
        self.tables.reply(request)
    }

    /// Who has a name, and its value. It takes no memory.
    pub fn entry(&self, name: &Name) -> Option<Holding>
        ensures bound { result ≡ holding_of self.now.bindings name.now }
        ensures of_list { (L : List Command) → self.now ≡ kept_of L → result ≡ holding_of (registry_of L) name.now }
    {
        self.tables.holding(name)
    }

    /// The bound names in byte order, each with its holding. It takes no memory.
    pub fn entries(&self) -> Entries<'_>
        ensures bound { result ≡ self.now.bindings }
        ensures of_list { (L : List Command) → self.now ≡ kept_of L → result ≡ registry_of L }
    {
        self.tables.entries()
    }
}

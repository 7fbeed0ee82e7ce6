//! The two tables of a registry: the bound names, and the kept replies. A list of commands is first given its
//! places, which may need memory, and then applied, which needs none.

ghost use Rattle.std.specs.Prelude.{◌≡◌, List, [], ◌∷◌, IsTrue, OnOk, OnErr};
ghost use Rattle.std.specs.List.{All};
ghost use Rattle.rr_types.specs.declared.command.Command.{Command};
ghost use Rattle.rr_types.specs.Registry.{holding_of};
ghost use Rattle.rr_registry.specs.Kept.{kept_reply, applied, applied_all};
ghost use Rattle.rr_registry.specs.Tables.{bindings_in, kept_in, has_places, IsCounted, HasFreeNamesOnlyFor, HasFreeRepliesOnlyFor, HasFreeOnlyFor, HasNoFree, IsSound};

use crate::entries::Entries;
use crate::holding::Holding;
use crate::names::Names;
use crate::places::{drop_free_place, make_place, value_at};
use rr_types::{Command, Name, Reply, RequestNo};
use std::alloc::{AllocError, Global};
use std::collections::BTreeMap;
use std::collections::btree_map::Entry;

#[derive(Drop)]
pub(crate) struct Tables {
    names: Names,
    replies: BTreeMap<RequestNo, Option<Reply>>,
}

impl Tables {
    pub(crate) fn new(alloc: Global) -> Tables
        ensures kept { kept_in result ≡ record { bindings = []; replies = [] } }
        ensures sound { IsSound result }
    {
        Tables {
            names: Names::new(alloc),
            replies: BTreeMap::new(alloc),
        }
    }

    /// Who has a name.
    pub(crate) fn holding(&self, name: &Name) -> Option<Holding>
        ensures { result ≡ holding_of (bindings_in self.now.names) name.now }
    {
        self.names.holding(name)
    }

    /// The kept reply to a request.
    pub(crate) fn reply(&self, request: RequestNo) -> Option<Reply>
        ensures { result ≡ kept_reply (kept_in self.now) request }
    {
        value_at(&self.replies, &request)
    }

    /// The bound names in byte order.
    pub(crate) fn entries(&self) -> Entries<'_>
        ensures { result ≡ bindings_in self.now.names }
    {
        self.names.entries()
    }

    /// Applies commands in their order, or, where memory is refused, none of them. One alone needs no places made
    /// before.
    pub(crate) fn apply_all(&mut self, commands: &[Command]) -> Result<(), AllocError>
        requires sound { IsSound self.old }
        ensures kept { OnOk result (kept_in self.new ≡ applied_all (kept_in self.old) commands.now) }
        ensures err { OnErr result (kept_in self.new ≡ kept_in self.old) }
        ensures sound { IsSound self.new }
    {
        match commands {
            [] => Ok(()),
            [command] => self.apply_one(command),
            _ => self.apply_several(commands),
        }
    }

    /// Applies one command. The request's place is found once, and filled only when the names are done.
    fn apply_one(&mut self, command: &Command) -> Result<(), AllocError>
        requires sound { IsSound self.old }
        ensures kept { OnOk result (kept_in self.new ≡ applied (kept_in self.old) command.now) }
        ensures err { OnErr result (kept_in self.new ≡ kept_in self.old) }
        ensures sound { IsSound self.new }
    {
        match self.replies.entry(command.request)? {
            // No place is free, so this one has the reply.
            Entry::Occupied(_kept) => Ok(()),
            Entry::Vacant(place) => {
                let reply = self.names.apply(command.request.client, &command.op)?;
                place.insert(Some(reply));
                Ok(())
            }
        }
    }

    /// Applies commands that first get their places, all of them. Whatever comes, no place is left free.
    fn apply_several(&mut self, commands: &[Command]) -> Result<(), AllocError>
        requires sound { IsSound self.old }
        ensures kept { OnOk result (kept_in self.new ≡ applied_all (kept_in self.old) commands.now) }
        ensures err { OnErr result (kept_in self.new ≡ kept_in self.old) }
        ensures sound { IsSound self.new }
    {
        match self.make_all_places(commands) {
            Ok(()) => {
                self.perform_all(commands);
                self.drop_free_names(commands);
                Ok(())
            }
            Err(refusal) => {
                self.drop_free_places(commands);
                Err(refusal)
            }
        }
    }

    /// Applies a command that has its places, unless a reply to its request is kept.
    fn perform(&mut self, command: &Command)
        requires places { IsTrue (has_places self.old command.now) }
        requires counted { IsCounted self.old.names }
        ensures kept { kept_in self.new ≡ applied (kept_in self.old) command.now }
        ensures counted { IsCounted self.new.names }
        ensures places { (c : Command) → has_places self.new c ≡ has_places self.old c }
        ensures names { (cs : List Command) → HasFreeNamesOnlyFor self.old cs → HasFreeNamesOnlyFor self.new (command.now ∷ cs) }
        ensures replies { (cs : List Command) → HasFreeRepliesOnlyFor self.old (command.now ∷ cs) → HasFreeRepliesOnlyFor self.new cs }
    {
        match self.replies.get_mut(&command.request) {
            Some(place) => {
                if place.is_none() {
                    *place = Some(self.names.perform(command.request.client, &command.op));
                }
            }
            None => unreachable!(),
        }
    }

    /// Applies commands that have their places, in their order.
    #[tactic(auto, using(crate::proofs::FreeLemmas::free_names_known, crate::proofs::FreeLemmas::free_replies_next, crate::proofs::FreeLemmas::free_replies_end))]
    fn perform_all(&mut self, commands: &[Command])
        requires places { All (λ c. IsTrue (has_places self.old c)) commands.now }
        requires counted { IsCounted self.old.names }
        requires free { HasFreeOnlyFor self.old commands.now }
        ensures kept { kept_in self.new ≡ applied_all (kept_in self.old) commands.now }
        ensures counted { IsCounted self.new.names }
        ensures names { HasFreeNamesOnlyFor self.new commands.now }
        ensures replies { HasFreeRepliesOnlyFor self.new [] }
    {
        for command in commands {
            self.perform(command);
        }
    }

    /// Makes the places that a command needs. Where memory is refused, those that it made stay.
    fn make_places(&mut self, command: &Command) -> Result<(), AllocError>
        ensures kept { kept_in self.new ≡ kept_in self.old }
        ensures count { self.new.names.bound ≡ self.old.names.bound }
        ensures made { OnOk result (IsTrue (has_places self.new command.now)) }
        ensures stay { (c : Command) → IsTrue (has_places self.old c) → IsTrue (has_places self.new c) }
        ensures free { (cs : List Command) → HasFreeOnlyFor self.old cs → HasFreeOnlyFor self.new (command.now ∷ cs) }
    {
        make_place(&mut self.replies, command.request)?;
        self.names.make_place(&command.op)?;
        Ok(())
    }

    /// The same for each of the commands.
    #[tactic(auto, using(crate::proofs::FreeLemmas::free_all, crate::proofs::FreeLemmas::free_known))]
    fn make_all_places(&mut self, commands: &[Command]) -> Result<(), AllocError>
        requires free { HasNoFree self.old }
        ensures kept { kept_in self.new ≡ kept_in self.old }
        ensures count { self.new.names.bound ≡ self.old.names.bound }
        ensures made { OnOk result (All (λ c. IsTrue (has_places self.new c)) commands.now) }
        ensures free { HasFreeOnlyFor self.new commands.now }
    {
        for command in commands {
            self.make_places(command)?;
        }
        Ok(())
    }

    /// Takes away the places of a command that are free.
    fn drop_places(&mut self, command: &Command)
        requires { IsCounted self.old.names }
        ensures kept { kept_in self.new ≡ kept_in self.old }
        ensures count { self.new.names.bound ≡ self.old.names.bound }
        ensures free { (cs : List Command) → HasFreeOnlyFor self.old (command.now ∷ cs) → HasFreeOnlyFor self.new cs }
    {
        drop_free_place(&mut self.replies, &command.request);
        self.names.drop_free_place(&command.op);
    }

    /// The same for each of these commands: no free place is left.
    #[tactic(auto, using(crate::proofs::FreeLemmas::free_next, crate::proofs::FreeLemmas::free_end))]
    fn drop_free_places(&mut self, commands: &[Command])
        requires counted { IsCounted self.old.names }
        requires free { HasFreeOnlyFor self.old commands.now }
        ensures kept { kept_in self.new ≡ kept_in self.old }
        ensures count { self.new.names.bound ≡ self.old.names.bound }
        ensures free { HasNoFree self.new }
    {
        for command in commands {
            self.drop_places(command);
        }
    }

    /// Takes away the free places of these commands' names. No reply has one.
    fn drop_free_names(&mut self, commands: &[Command])
        requires counted { IsCounted self.old.names }
        requires names { HasFreeNamesOnlyFor self.old commands.now }
        requires replies { HasFreeRepliesOnlyFor self.old [] }
        ensures kept { kept_in self.new ≡ kept_in self.old }
        ensures count { self.new.names.bound ≡ self.old.names.bound }
        ensures free { HasNoFree self.new }
    {
        for command in commands {
            self.names.drop_free_place(&command.op);
        }
    }
}

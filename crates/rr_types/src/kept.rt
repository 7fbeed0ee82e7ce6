//! An entry of a promise in little room.

ghost use Rattle.std.specs.Prelude.{◌≡◌, MatchOption, IfOk, IsOk};
ghost use Rattle.rr_types.specs.declared.command.Command.{Command};
ghost use Rattle.rr_types.specs.declared.promise.Standing.TheVariants as stands;
ghost use Rattle.rr_types.specs.Rounds.{OpenAt};

use crate::command::Command;
use crate::promise::{Entry, OpenStanding, Standing};
use crate::round::Instance;
use std::alloc::{AllocError, Global};
use std::marker::Model;

/// Where the instance of an entry stands. Nearly all of a promise have decided, so an open one has its parts in a box.
#[derive(Debug, Drop)]
enum Form {
    Decided(Command),
    Open(Box<OpenStanding>),
}

/// An instance and where it stands, as a promise keeps it. One that has decided takes half the room of an `Entry`.
#[derive(Debug, Drop)]
pub struct Kept {
    pub instance: Instance,
    form: Form,
}

impl Model for Kept {
    ghost use Rattle.rr_types.specs.declared.promise.Entry.{Entry};
    ghost use Rattle.rr_types.specs.Kept.{entry_in};

    ghost Value = { Entry };

    ghost view = { λ k. entry_in k.instance k.form };
}

impl Kept {
    /// An instance that has decided on this command.
    pub fn decided(instance: Instance, command: &Command) -> Kept
        ensures { result ≡ record { instance = instance; standing = stands.Decided command.now } }
    {
        Kept {
            instance,
            form: Form::Decided(*command),
        }
    }

    /// An instance that stands so. It needs memory only where that is open.
    pub fn new(alloc: Global, instance: Instance, standing: &Standing) -> Result<Kept, AllocError>
        ensures ok { IfOk result (λ k. k ≡ record { instance = instance; standing = standing.now }) }
        ensures decided { (v : Command) → standing.now ≡ stands.Decided v → IsOk result }
    {
        match standing {
            Standing::Decided(command) => Ok(Kept::decided(instance, command)),
            Standing::Open(open) => {
                let parts = Box::new(alloc, *open)?;
                Ok(Kept {
                    instance,
                    form: Form::Open(parts),
                })
            }
        }
    }

    /// Where the instance stands.
    pub fn standing(&self) -> Standing
        ensures { result ≡ self.now.standing }
    {
        match &self.form {
            Form::Decided(command) => Standing::Decided(*command),
            Form::Open(parts) => Standing::Open(**parts),
        }
    }

    /// The command that the instance has decided, lent.
    pub fn decision(&self) -> Option<&Command>
        ensures { MatchOption result ((o : OpenAt) × (self.now.standing ≡ stands.Open o)) (λ v. self.now.standing ≡ stands.Decided v.now) }
    {
        match &self.form {
            Form::Decided(command) => Some(command),
            Form::Open(_) => None,
        }
    }

    /// Where the instance stands while it hasn't decided, lent.
    pub fn open(&self) -> Option<&OpenStanding>
        ensures { MatchOption result ((v : Command) × (self.now.standing ≡ stands.Decided v)) (λ o. self.now.standing ≡ stands.Open o.now) }
    {
        match &self.form {
            Form::Decided(_) => None,
            Form::Open(parts) => Some(&**parts),
        }
    }
}

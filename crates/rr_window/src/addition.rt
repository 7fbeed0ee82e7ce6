//! A command that joined the list.

ghost use Rattle.std.specs.Prelude.{◌≡◌};

use crate::list::Beginning;
use rr_types::Command;
use std::marker::Model;

/// A command that joined the list, and the list up to and with it.
#[derive(Drop)]
pub struct Addition {
    command: Command,
    beginning: Beginning,
}

impl Model for Addition {
    ghost use Rattle.rr_window.specs.Windows.{Addition};

    ghost Value = { Addition };

    ghost view = { λ a. record { command = a.command; beginning = a.beginning } };
}

impl Addition {
    pub fn new(command: &Command, beginning: Beginning) -> Addition
        ensures { result ≡ record { command = command.now; beginning = beginning } }
    {
        Addition {
            command: *command,
            beginning,
        }
    }

    pub fn command(&self) -> Command
        ensures { result ≡ self.now.command }
    {
        self.command
    }

    pub fn beginning(&self) -> &Beginning
        ensures { result.now ≡ self.now.beginning }
    {
        &self.beginning
    }
}

//! Those who watch a window's list.

ghost use Rattle.std.specs.Prelude.{◌≡◌};
ghost use Rattle.rr_window.specs.Lists.{beginning};

use crate::list::{Beginning, WindowName};
use std::marker::{Model, PhantomData};

/// How far somebody has been told of a window's list. Contracts see the list up to there.
#[derive(Drop)]
pub struct Watch<W: WindowName> {
    position: Beginning,
    of: PhantomData<W>,
}

impl<W: WindowName> Model for Watch<W> {
    ghost use Rattle.std.specs.Prelude.{◌≡◌, List};
    ghost use Rattle.rr_types.specs.declared.command.Command.{Command};

    ghost Value = { List Command };

    ghost view = { λ w. w.position.list };

    ghost invariant = { λ w. w.position.book ≡ W.book };
}

impl<W: WindowName> Watch<W> {
    /// A watch that goes on behind this beginning of the list.
    pub(crate) fn from(position: Beginning) -> Watch<W>
        requires { position.book ≡ W.book }
        ensures { result ≡ position.list }
    {
        Watch {
            position,
            of: PhantomData,
        }
    }

    /// The list up to where somebody has been told.
    pub(crate) fn position(&self) -> &Beginning
        ensures { result.now ≡ beginning W.book self.now }
    {
        &self.position
    }
}

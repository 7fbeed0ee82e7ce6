//! What tells that a list was published, and that a request has a reply in it.

ghost use Rattle.std.specs.Prelude.{◌≡◌, Some};
ghost use Rattle.rr_types.specs.Registry.{reply_of};
ghost use Rattle.rr_window.specs.Lists.{beginning};

use crate::list::{Beginning, WindowName};
use rr_types::{Reply, RequestNo};
use std::marker::{Model, PhantomData};

/// A list that a window published. Contracts see its commands.
#[derive(Drop)]
pub struct Told<W: WindowName> {
    beginning: Beginning,
    of: PhantomData<W>,
}

impl<W: WindowName> Model for Told<W> {
    ghost use Rattle.std.specs.Prelude.{◌≡◌, List};
    ghost use Rattle.rr_types.specs.declared.command.Command.{Command};

    ghost Value = { List Command };

    ghost view = { λ t. t.beginning.list };

    ghost invariant = { λ t. t.beginning.book ≡ W.book };
}

impl<W: WindowName> Told<W> {
    pub(crate) fn new(beginning: Beginning) -> Told<W>
        requires { beginning.book ≡ W.book }
        ensures { result ≡ beginning.list }
    {
        Told {
            beginning,
            of: PhantomData,
        }
    }

    pub(crate) fn beginning(&self) -> &Beginning
        ensures { result.now ≡ beginning W.book self.now }
    {
        &self.beginning
    }
}

/// A request with its reply, and the published list that holds the request and gives it this reply.
#[derive(Drop)]
pub struct Receipt<W: WindowName> {
    request: RequestNo,
    reply: Reply,
    told: Told<W>,
}

impl<W: WindowName> Model for Receipt<W> {
    ghost use Rattle.std.specs.Prelude.{◌≡◌, Some};
    ghost use Rattle.rr_types.specs.Registry.{reply_of};
    ghost use Rattle.rr_window.specs.Windows.{Receipt};

    ghost Value = { Receipt };

    ghost view = { λ r. record { request = r.request; reply = r.reply; list = r.told } };

    ghost invariant = { λ r. reply_of r.told r.request ≡ Some r.reply };
}

impl<W: WindowName> Receipt<W> {
    pub(crate) fn new(request: RequestNo, reply: Reply, told: Told<W>) -> Receipt<W>
        requires { reply_of told request ≡ Some reply }
        ensures { result ≡ record { request = request; reply = reply; list = told } }
    {
        Receipt {
            request,
            reply,
            told,
        }
    }

    /// The request.
    pub fn request(&self) -> RequestNo
        ensures { result ≡ self.now.request }
    {
        self.request
    }

    /// Its reply, which is that of the list.
    pub fn reply(&self) -> Reply
        ensures kept { result ≡ self.now.reply }
        ensures of_list { reply_of self.now.list self.now.request ≡ Some result }
    {
        self.reply
    }

    /// The list that was published.
    pub fn told(&self) -> &Told<W>
        ensures { result.now ≡ self.now.list }
    {
        &self.told
    }
}

//! What a window serves: the registry of a beginning of its list.

ghost use Rattle.std.specs.Prelude.{◌≡◌, List, [], IfOk};
ghost use Rattle.rr_types.specs.Registry.{holding_of, registry_of, reply_of};
ghost use Rattle.rr_types.specs.declared.command.Command.{Command};
ghost use Rattle.rr_registry.specs.Kept.{kept_of};
ghost use Rattle.rr_window.specs.Sights.{bindings_with};
ghost use Rattle.rr_window.specs.Windows.{with_addition};

use crate::addition::Addition;
use crate::change::change_between;
use crate::list::{Beginning, WindowName};
use crate::listing::bindings_with;
use crate::trace::{Trace, keep};
use crossbeam_utils::rule::{Outcome, Protocol};
use left_right::Absorb;
use rr_registry::{Holding, Registry};
use rr_types::{Binding, Name, Reply, RequestNo};
use std::alloc::{AllocError, Global};
use std::collections::VecDeque;
use std::marker::{Model, PhantomData};

/// A registry, a beginning of the list, and the traces of its last commands. The window's rule says that these are of that beginning.
#[derive(Drop)]
pub struct Served {
    registry: Registry,
    beginning: Beginning,
    recent: VecDeque<Trace>,
}

impl Model for Served {
    ghost use Rattle.rr_window.specs.Windows.{Served};

    ghost Value = { Served };

    ghost view = { λ s. record { kept = s.registry; beginning = s.beginning; recent = s.recent.items } };
}

impl Served {
    /// The registry of no commands, with this beginning.
    pub fn new(alloc: Global, beginning: Beginning) -> Served
        ensures { result ≡ record { kept = kept_of []; beginning = beginning; recent = [] } }
    {
        Served {
            registry: Registry::new(alloc),
            beginning,
            recent: VecDeque::new(alloc),
        }
    }

    /// The beginning of the list that is served.
    pub fn beginning(&self) -> &Beginning
        ensures { result.now ≡ self.now.beginning }
    {
        &self.beginning
    }

    /// Who has a name, and its value. It takes no memory.
    pub fn entry(&self, name: &Name) -> Option<Holding>
        ensures { (list : List Command) → self.now.kept ≡ kept_of list → result ≡ holding_of (registry_of list) name.now }
    {
        self.registry.entry(name)
    }

    /// The bindings whose names begin with these bytes, in byte order.
    pub fn bindings_with(&self, alloc: Global, prefix: &[u8]) -> Result<Vec<Binding>, AllocError>
        ensures ok { (list : List Command) → self.now.kept ≡ kept_of list → IfOk result (λ v. v.items ≡ bindings_with prefix.now (registry_of list)) }
    {
        bindings_with(alloc, prefix, self.registry.entries())
    }

    /// The traces of the last commands of that beginning.
    pub fn recent(&self) -> &VecDeque<Trace>
        ensures { result.now.items ≡ self.now.recent }
    {
        &self.recent
    }

    /// The reply to a request. It takes no memory.
    pub fn reply(&self, request: RequestNo) -> Option<Reply>
        ensures { (list : List Command) → self.now.kept ≡ kept_of list → result ≡ reply_of list request }
    {
        self.registry.reply(request)
    }
}

impl Absorb<Addition> for Served {
    type State = Served;

    ghost state = { λ s. s };

    ghost applied = { with_addition };

    fn absorb_first(&mut self, addition: &Addition, _other: &Served) -> Result<(), AllocError> {
        let command = addition.command();
        let name = *command.op.name();
        self.recent.reserve(1)?;
        let before = self.registry.entry(&name);
        if self.registry.apply(&command).is_err() {
            return Err(AllocError);
        }
        let change = change_between(&name, before, self.registry.entry(&name));
        self.beginning = addition.beginning().again();
        keep(
            &mut self.recent,
            Trace::new(addition.beginning().again(), change),
        );
        Ok(())
    }
}

/// The rule of a window: what it serves is the registry of a beginning of its one list.
pub struct WindowRule<W: WindowName> {
    of: PhantomData<W>,
}

impl<W: WindowName> Protocol<Served, ()> for WindowRule<W> {
    ghost use Rattle.rr_window.specs.Windows.{IsServed};

    ghost holds = { λ s _. IsServed W.book s };

    ghost first = { tt };
}

impl<W: WindowName> Outcome<Served, ()> for WindowRule<W> {
    ghost use Rattle.rr_window.specs.Windows.{IsServed};

    ghost then = { λ _ _ s _. IsServed W.book s };
}

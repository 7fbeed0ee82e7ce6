//! A guest at its node, and the names that it asks for there.

ghost use Rattle.std.specs.Prelude.{◌≡◌, Bool, None, Some, IfOk, IfErr};
ghost use Rattle.rr_types.specs.Registry.{reply_of};
ghost use Rattle.rr_client.specs.declared.error.ClusterError.TheVariants.{OutOfMemory, Over, Unseen};
ghost use Rattle.rr_types.specs.declared.refusal.Refusal.TheVariants as refusals;
ghost use Rattle.rr_client.specs.Asking.{GoesOn, IsUnanswered, kept_behind, ComesTo, IsSubmitted, IsLookedFor, IsAwaited, IsOver};
ghost use Rattle.rr_client.specs.Standings.{is_done_by};

use crate::error::ClusterError;
use crate::guest::Guest;
use crate::host::{GuestRuntime, Host};
use crate::names::{Awaited, Names};
use crate::numbers::take_number;
use crate::waiting::Waiting;
use rr_folders::Block;
use rr_text::Answer;
use rr_threads::{Client, Fate, Handle};
use rr_turn::Turnstile;
use rr_types::{Binding, Command, Name, NodeId, Op, Refusal, Reply, RequestNo, Value, made_of};
use rr_window::{Change, Sight, Watch, WindowName};
use std::alloc::Global;
use std::marker::Model;
use std::sync::{Mutex, Wait};
use std::time::Clock;

/// Where a guest lies while it doesn't ask.
pub(crate) type Slot<G> = Mutex<Option<Resting<G>>>;

/// A guest that comes to its node, with the command that `again` asks.
#[derive(Drop)]
pub(crate) struct Coming<G> {
    pub(crate) guest: G,
    pub(crate) client: u32,
    pub(crate) numbers: Block,
    pub(crate) unanswered: Option<Command>,
}

/// A guest that has returned from its node, and what it gave. One that isn't done comes again where the node is started.
#[derive(Drop)]
pub(crate) struct Resting<G> {
    pub(crate) node: NodeId,
    pub(crate) coming: Coming<G>,
    pub(crate) told: Result<(), ClusterError>,
    pub(crate) is_done: bool,
}

/// A guest at its node, until it comes there first, and its slot from then on.
#[derive(Drop)]
pub(crate) struct Seated<'x, G, H> {
    pub(crate) host: &'x Host<'x, H>,
    pub(crate) looks: u32,
    pub(crate) slot: &'x Slot<G>,
    pub(crate) coming: Option<Coming<G>>,
}

/// What a guest asks its node with: it has the calls of `Names`.
#[derive(Drop)]
pub struct Caller<'h, 'd, 'y, W: WindowName, T, R> {
    handle: &'h mut Handle<'d, 'y, W, T, R>,
    alloc: Global,
    looks: u32,
    client: u32,
    numbers: Block,
    unanswered: Option<Command>,
    watch: Watch<W>,
}

impl<'h, 'd, 'y, W: WindowName, T, R> Model for Caller<'h, 'd, 'y, W, T, R> {
    ghost use Rattle.rr_client.specs.Asking.{Asker};

    ghost Value = { Asker };

    ghost view = { λ c. record { node = c.handle.now.node; client = c.client; known = c.handle.now.known; next = c.numbers.next; unanswered = c.unanswered; asked = c.handle.now.wanted; told = c.watch } };
}

// The command that is kept to be asked again behind what a submit of it has come to.
fn kept_behind(command: &Command, told: &Result<Reply, ClusterError>) -> Option<Command>
    ensures { result ≡ kept_behind command.now told.now }
{
    made_of!(Op, Name, Value);
    match told {
        Err(ClusterError::Unacknowledged { .. }) | Err(ClusterError::Over) => Some(*command),
        _ => None,
    }
}

/// The name of the command by which a client learns what was acknowledged. It stays as it is.
const SYNC: &[u8] = b"sync";

impl<'h, 'd, 'y, W: WindowName, T: Turnstile, R: Wait> Caller<'h, 'd, 'y, W, T, R> {
    // Why a command isn't acknowledged.
    fn error_behind(&self, command: &Command) -> ClusterError
        ensures { IsUnanswered command.now result }
    {
        made_of!(Op, Name, Value);
        if self.handle.is_over() {
            return ClusterError::Over;
        }
        match self.handle.fate(command) {
            Fate::Never => ClusterError::ListFull,
            Fate::Used(_) => ClusterError::NumberUsed { command: *command },
            Fate::Open | Fate::Decided => ClusterError::Unacknowledged { command: *command },
        }
    }

    // Submits a command under its number, and says what it comes to.
    fn ask(&mut self, command: &Command) -> Result<Reply, ClusterError>
        ensures reply { IfOk result (λ reply. (reply_of self.new.known command.now.request ≡ Some reply) × (self.new.asked ≡ Some command.now)) }
        ensures err { IfErr result (IsUnanswered command.now) }
        ensures later { GoesOn self.old self.new }
        ensures kept { (self.new.unanswered ≡ self.old.unanswered) × (self.new.next ≡ self.old.next) }
    {
        made_of!(Answer, Op, Name, Reply, Value);
        if let Fate::Used(_) = self.handle.fate(command) {
            return Err(ClusterError::NumberUsed { command: *command });
        }
        let answer = self.handle.submit_within(self.looks, command);
        match answer {
            Answer::Acknowledged { reply, .. } => Ok(reply),
            _ => Err(self.error_behind(command)),
        }
    }

    // Submits a command under its number, and keeps it where it isn't acknowledged.
    fn put(&mut self, command: &Command) -> Result<Reply, ClusterError>
        ensures reply { ComesTo command.now self.new result }
        ensures later { GoesOn self.old self.new }
        ensures kept { self.new.next ≡ self.old.next }
    {
        let told = self.ask(command);
        self.unanswered = kept_behind(command, &told);
        told
    }

    // Submits an operation under a new number.
    #[tactic(auto, using(crate::proofs::Submits::submitted))]
    fn submit(&mut self, op: Op) -> Result<Reply, ClusterError>
        ensures reply { IsSubmitted op self.old self.new result }
        ensures later { GoesOn self.old self.new }
    {
        let request = RequestNo {
            client: self.client,
            seq: take_number(&mut self.numbers)?,
        };
        self.put(&Command { request, op })
    }

    // It is `Over`, where the node goes down.
    fn check_up(&self) -> Result<(), ClusterError>
        ensures { IfErr result (λ e. e ≡ Over) }
    {
        if self.handle.is_over() {
            Err(ClusterError::Over)
        } else {
            Ok(())
        }
    }

    // One look for changes: those that there are; or that the time is over, where it is.
    #[tactic(auto, using(crate::proofs::Waits::quiet_self, crate::proofs::Waits::quiet_told, crate::proofs::Waits::told_error))]
    fn look_once(&mut self, prefix: &[u8], is_late: bool) -> Result<Option<Awaited>, ClusterError>
        ensures { IsLookedFor prefix.now is_late self.old self.new result }
    {
        self.check_up()?;
        let changes = self.changes(prefix)?;
        if !changes.is_empty() {
            return Ok(Some(Awaited::Changed(changes)));
        }
        if is_late {
            Ok(Some(Awaited::TimeIsOver))
        } else {
            Ok(None)
        }
    }

    // Looks for changes again and again, until there are some or the time is over.
    #[tactic(auto, using(crate::proofs::Waits::quiet_self, crate::proofs::Waits::quiet_on, crate::proofs::Waits::awaited_on))]
    fn look_until<H: Wait + Clock>(
        &mut self,
        rt: &H,
        prefix: &[u8],
        milliseconds: u64,
    ) -> Result<Awaited, ClusterError>
        ensures { IsAwaited prefix.now self.old self.new result }
    {
        let mut waiting = Waiting::new(rt, milliseconds)?;
        'looks: for _ in rt.forever() {
            let left = waiting.left(rt)?;
            if let Some(awaited) = self.look_once(prefix, left.is_zero())? {
                return Ok(awaited);
            }
            waiting.rest(rt, left);
        }
        unreachable!()
    }

    // Rests until the time is over, or the node goes down.
    fn rest_until<H: Wait + Clock>(&self, rt: &H, milliseconds: u64) -> Result<(), ClusterError>
        ensures { IfErr result IsOver }
    {
        let mut waiting = Waiting::new(rt, milliseconds)?;
        for _ in rt.forever() {
            self.check_up()?;
            let left = waiting.left(rt)?;
            if left.is_zero() {
                return Ok(());
            }
            waiting.rest(rt, left);
        }
        unreachable!()
    }
}

impl<'h, 'd, 'y, W: WindowName, T: Turnstile, R: Wait> Names for Caller<'h, 'd, 'y, W, T, R> {
    ghost asker = { λ c. c };

    fn node(&self) -> NodeId {
        self.handle.node()
    }

    fn client(&self) -> u32 {
        self.client
    }

    fn is_over(&self) -> bool {
        self.handle.is_over()
    }

    fn claim(&mut self, name: &Name, value: &Value) -> Result<Reply, ClusterError> {
        self.submit(Op::Claim(*name, *value))
    }

    fn update(&mut self, name: &Name, value: &Value) -> Result<Reply, ClusterError> {
        self.submit(Op::Update(*name, *value))
    }

    fn release(&mut self, name: &Name) -> Result<Reply, ClusterError> {
        self.submit(Op::Release(*name))
    }

    fn transfer(&mut self, name: &Name, owner: u32) -> Result<Reply, ClusterError> {
        self.submit(Op::Transfer(*name, owner))
    }

    fn again(&mut self) -> Result<Reply, ClusterError> {
        made_of!(Op, Name, Value);
        match self.unanswered {
            Some(command) => self.put(&command),
            None => Err(ClusterError::NothingToAsk),
        }
    }

    #[tactic(auto, using(crate::proofs::Submits::synced))]
    fn sync(&mut self) -> Result<(), ClusterError> {
        let name = Name::new(SYNC)?;
        let request = RequestNo {
            client: self.client,
            seq: take_number(&mut self.numbers)?,
        };
        let op = Op::Transfer(name, self.client);
        let _ = self.ask(&Command { request, op })?;
        Ok(())
    }

    fn look(&mut self, name: &Name) -> Result<Sight, ClusterError> {
        made_of!(Answer, Name, Reply, Value);
        match self.handle.look(name) {
            Answer::Free { .. } => Ok(Sight::Free),
            Answer::Bound { owner, value, .. } => Ok(Sight::Bound(owner, value)),
            _ => Err(ClusterError::Unseen),
        }
    }

    fn list(&mut self, prefix: &[u8]) -> Result<Vec<Binding>, ClusterError> {
        match self.handle.list(self.alloc, prefix) {
            Ok(bindings) => Ok(bindings),
            Err(refusal) => Err(unseen(&refusal)),
        }
    }

    fn watch(&mut self, prefix: &[u8]) -> Result<Vec<Binding>, ClusterError> {
        let bindings = self.list(prefix)?;
        self.watch = self.handle.watch();
        Ok(bindings)
    }

    fn changes(&mut self, prefix: &[u8]) -> Result<Vec<Change>, ClusterError> {
        match self.handle.changes(self.alloc, prefix, &mut self.watch) {
            Ok(Some(changes)) => Ok(changes),
            Ok(None) => Err(ClusterError::Late),
            Err(refusal) => Err(unseen(&refusal)),
        }
    }

    fn changes_within<H: Wait + Clock>(
        &mut self,
        rt: &H,
        prefix: &[u8],
        milliseconds: u64,
    ) -> Result<Awaited, ClusterError> {
        self.look_until(rt, prefix, milliseconds)
    }

    fn pause<H: Wait + Clock>(&self, rt: &H, milliseconds: u64) -> Result<(), ClusterError> {
        self.rest_until(rt, milliseconds)
    }
}

// Why a client sees nothing.
fn unseen(refusal: &Refusal) -> ClusterError
    ensures memory { refusal.now ≡ refusals.OutOfMemory → result ≡ OutOfMemory }
    ensures guard { refusal.now ≡ refusals.NoGuard → result ≡ Unseen }
{
    match refusal {
        Refusal::OutOfMemory => ClusterError::OutOfMemory,
        _ => ClusterError::Unseen,
    }
}

// Whether a guest is done that has given this. It isn't where it says that its node goes down, and the node does.
fn is_done_by(told: &Result<(), ClusterError>, is_ending: bool) -> bool
    ensures { result ≡ is_done_by told.now is_ending }
{
    match told {
        Err(ClusterError::Over) => !is_ending,
        _ => true,
    }
}

// Has a guest ask for names by a handle.
fn serve<'h, 'd, 'y, W: WindowName, T: Turnstile, R: Wait, G: Guest + Drop, H: GuestRuntime>(
    handle: &'h mut Handle<'d, 'y, W, T, R>,
    host: &Host<'_, H>,
    looks: u32,
    coming: Coming<G>,
) -> Resting<G>
    ensures client { result.coming.client ≡ coming.client }
    ensures done { (ending : Bool) × (result.is_done ≡ is_done_by result.told ending) }
{
    let Coming {
        mut guest,
        client,
        numbers,
        unanswered,
    } = coming;
    let node = handle.node();
    let watch = handle.watch();
    let mut caller = Caller {
        handle,
        alloc: host.rt().alloc(),
        looks,
        client,
        numbers,
        unanswered,
        watch,
    };
    let told = guest.run(&mut caller, host);
    let is_done = is_done_by(&told, caller.handle.is_over());
    let Caller {
        handle: _,
        alloc: _,
        looks: _,
        client: _,
        numbers,
        unanswered,
        watch: _watch,
    } = caller;
    Resting {
        node,
        coming: Coming {
            guest,
            client,
            numbers,
            unanswered,
        },
        told,
        is_done,
    }
}

impl<'x, G: Drop, H: GuestRuntime> Seated<'x, G, H> {
    // The guest that comes: to its node's first life, or to a later one from its slot.
    fn next(&mut self) -> Option<Coming<G>>
        ensures first { (coming : Coming G) → self.old.coming ≡ Some coming → result ≡ Some coming }
        ensures once { self.new.coming ≡ None }
    {
        if let Some(coming) = self.coming.take() {
            return Some(coming);
        }
        let resting = self.slot.lock(self.host.rt()).take()?;
        let Resting {
            node: _,
            coming,
            told: _told,
            is_done: _,
        } = resting;
        Some(coming)
    }
}

impl<'x, G: Guest + Drop, H: GuestRuntime> Client for Seated<'x, G, H> {
    fn run<W: WindowName, T: Turnstile, R: Wait>(
        &mut self,
        handle: &mut Handle<'_, '_, W, T, R>,
    ) -> Result<(), Refusal> {
        let Some(coming) = self.next() else {
            return Ok(());
        };
        let resting = serve(handle, self.host, self.looks, coming);
        let is_done = resting.is_done;
        *self.slot.lock(self.host.rt()) = Some(resting);
        // (a client that is told `Down` is called again in the next life of its node)
        if is_done { Ok(()) } else { Err(Refusal::Down) }
    }
}

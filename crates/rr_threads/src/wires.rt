//! What the thread of a node calls in a turn, over the real inboxes, hand-overs, bells and clients. A contract says what becomes of an event
//! of the node, by which way a message is put, what is late, what is taken, and whose bell is rung. What the others hold no contract
//! knows: each of those calls is a few lines, to be read.

ghost use Rattle.std.specs.Prelude.{◌≡◌, None};
ghost use Rattle.rr_turn.specs.Asked.{Call};
ghost use Rattle.rr_threads.specs.Ways.{IsPut, IsPutIfAny, IsPutLate, IsPutTo, IsLatePutAt, AllPutLate, IsTaken, HasSameEnds};
ghost use Rattle.rr_threads.specs.Mails.{mail_gives};

use crate::desk::Desk;
use crate::disputing::hear_undisputed;
use crate::recorder::{Recorder, Scribe};
use crate::rest::Rest;
use crate::running::Running;
use crate::switches::Switches;
use rr_journal::Synced;
use rr_turn::{
    Bell, FlusherRung, Kept, Links, Locked, Place, PublisherRung, Rung, Sent, Turnstile, Unflushed,
    send, send_on,
};
use rr_types::{Command, Group, Input, Message, NodeId, Refusal};
use rr_window::{Giver, Outlet, Port, ROOM, Taker, TrySendError, WindowName};
use std::mem;
use std::sync::Wait;
use std::time::{Clock, Duration};

/// A node's end of an inbox, and what found no room there: the last messages by which the receiver can tell that it is behind.
#[derive(Drop)]
pub struct Way {
    port: Port<Sent>,
    late: Kept,
}

impl Way {
    /// Nothing was put yet.
    pub fn new(port: Port<Sent>) -> Way
        ensures { result ≡ record { port = port; late = record { opening = None; request = None; decision = None } } }
    {
        Way {
            port,
            late: Kept::new(),
        }
    }

    /// Puts a message. It is lost where there is no room for it, or late if it is one of the last that tell where its sender is.
    #[inline(always)]
    fn put<R: Wait>(&mut self, rt: &R, sent: Sent)
        ensures { IsPut self.old sent self.new }
    {
        if let Err(back) = self.port.try_put(sent) {
            self.put_anew(rt, &back);
        }
    }

    // As `put`, where one attempt failed.
    #[inline(never)]
    fn put_anew<R: Wait>(&mut self, rt: &R, sent: &Sent)
        ensures { IsPut self.old sent.now self.new }
    {
        if let Err(refused) = self.port.put(rt, *sent) {
            self.late.note(&refused);
        }
    }

    /// Puts a message that may have been late.
    fn put_some<R: Wait>(&mut self, rt: &R, late: Option<Sent>)
        ensures { IsPutIfAny self.old late self.new }
    {
        if let Some(sent) = late {
            self.put(rt, sent);
        }
    }

    /// Puts what is late, which stays so where there is no room still.
    #[inline(never)]
    fn put_late<R: Wait>(&mut self, rt: &R)
        ensures { IsPutLate self.old self.new }
    {
        let late = mem::replace(&mut self.late, Kept::new());
        self.put_some(rt, late.request());
        self.put_some(rt, late.opening());
        self.put_some(rt, late.decision());
    }
}

/// A node's inbox, its end of each node's inbox, and what it keeps of what came.
#[derive(Drop)]
pub struct Mail {
    pub inbox: Outlet<Sent>,
    pub ways: Vec<Way>,
    pub kept: Kept,
}

impl Mail {
    /// Takes the oldest message of the inbox, and keeps it if it is one of the last that tell where its sender is.
    #[inline(never)]
    pub fn take<R: Wait>(&mut self, rt: &R) -> Option<Sent>
        ensures { IsTaken self.old result self.new }
    {
        let sent = self.inbox.take(rt)?;
        self.kept.note(&sent);
        Some(sent)
    }

    /// A node that is down loses what comes to it, but for what is kept.
    pub fn keep_all<R: Wait>(&mut self, rt: &R)
        ensures { HasSameEnds self.old self.new }
    {
        for _ in 0..ROOM {
            if self.take(rt).is_none() {
                break;
            }
        }
    }

    /// Puts a message into the inbox of a node, as its way does.
    #[inline(always)]
    pub fn put<R: Wait>(&mut self, rt: &R, to: NodeId, sent: Sent)
        ensures { IsPutTo to sent self.old self.new }
    {
        if let Some(way) = self.ways.get_mut(usize::from(to.index())) {
            way.put(rt, sent);
        }
    }

    // The way at this place puts what is late.
    fn put_late_at<R: Wait>(&mut self, rt: &R, place: usize)
        ensures { IsLatePutAt place self.old self.new }
    {
        if let Some(way) = self.ways.get_mut(place) {
            way.put_late(rt);
        }
    }

    /// Puts what is late into the inboxes of all nodes.
    pub fn put_late<R: Wait>(&mut self, rt: &R)
        ensures { AllPutLate self.old self.new }
    {
        for place in 0..self.ways.len() {
            self.put_late_at(rt, place);
        }
    }
}

/// A node's mail, and its ends of the hand-overs.
#[derive(Drop)]
pub struct NodeEnds {
    pub mail: Mail,
    pub groups: Giver<Group>,
    pub backs: Taker<Result<Synced, Unflushed>>,
}

/// What the thread of a node has of the node, of others and of its clients. It owns its ends.
#[derive(Drop)]
pub struct Wires<'x, W: WindowName, T, R> {
    pub rt: &'x R,
    pub running: &'x Running,
    pub switches: Option<&'x Switches>,
    pub turnstile: &'x T,
    pub scribe: Scribe<'x, R>,
    pub desk: &'x Desk<W>,
    pub ends: NodeEnds,
    pub bell: &'x Bell,
    pub rest: Rest,
}

impl<'x, W: WindowName, T, R> Wires<'x, W, T, R> {
    /// What the thread of a node calls, over these ends.
    pub fn new(
        rt: &'x R,
        running: &'x Running,
        switches: Option<&'x Switches>,
        turnstile: &'x T,
        recorder: Option<&'x Recorder>,
        desk: &'x Desk<W>,
        ends: NodeEnds,
    ) -> Wires<'x, W, T, R>
        ensures ends { result.ends ≡ ends }
        ensures bell { result.bell.now.node ≡ desk.now.node }
    {
        Wires {
            rt,
            running,
            switches,
            turnstile,
            scribe: Scribe::new(rt, recorder),
            desk,
            ends,
            bell: running.bell(desk.node),
            rest: Rest::rung(),
        }
    }
}

impl<'x, W: WindowName, T: Turnstile, R: Wait + Clock> Links for Wires<'x, W, T, R> {
    ghost gives = { λ old call new. mail_gives old.ends.mail call new.ends.mail };

    fn tell(&mut self, locked: &mut Locked, input: &Input<Message>) -> Result<(), Refusal> {
        self.scribe.tell(locked, input)
    }

    fn hear(&mut self, locked: &mut Locked, sent: &Sent) -> Result<(), Refusal> {
        let node = self.desk.node;
        hear_undisputed(self.rt, self.switches, &self.scribe, node, locked, sent)
    }

    fn mark(&mut self, locked: &mut Locked, synced: Synced) -> Result<(), Refusal> {
        self.scribe.mark(locked, synced)
    }

    fn group(&mut self, locked: &mut Locked) -> Result<Option<Group>, Refusal> {
        self.scribe.group(locked)
    }

    fn send(&mut self, locked: &mut Locked) -> Result<Option<Sent>, Refusal> {
        let sent = match self.scribe.recorder {
            None => send(locked),
            Some(recorder) => send_on(locked, &mut recorder.recording().lock(self.rt))?,
        };
        if let Some(sent) = &sent {
            self.running.rounds().note(sent.message());
        }
        Ok(sent)
    }

    fn put(&mut self, to: NodeId, sent: Sent) {
        self.ends.mail.put(self.rt, to, sent);
    }

    // Nobody is rung for it: the nodes hear it at their next ticks.
    fn put_late(&mut self) {
        self.ends.mail.put_late(self.rt);
    }

    fn ring(&mut self, node: NodeId) -> Rung {
        self.running.ring(node)
    }

    fn is_idle(&mut self) -> bool {
        self.ends.mail.inbox.is_empty()
    }

    // As `Mail::take`, which is called where one attempt isn't enough: a message is large, and each call that hands it on copies it.
    fn take(&mut self) -> Option<Sent> {
        let mail = &mut self.ends.mail;
        if mail.inbox.is_empty() {
            return None;
        }
        let Some(sent) = mail.inbox.try_take() else {
            return mail.take(self.rt);
        };
        mail.kept.note(&sent);
        Some(sent)
    }

    fn back(&mut self) -> Option<Result<Synced, Unflushed>> {
        self.ends.backs.take(self.rt)
    }

    // There is room for it, since the flusher has given back what it had.
    fn give(&mut self, group: Group) {
        let mut waiting = group;
        for _ in self.rt.forever() {
            match self.ends.groups.give(self.rt, waiting) {
                Err(TrySendError::Full(refused)) => waiting = refused,
                _ => break,
            }
        }
    }

    fn wake_flusher(&mut self) -> FlusherRung {
        self.desk.flusher.ring()
    }

    fn wake_publisher(&mut self) -> PublisherRung {
        self.desk.publisher.ring()
    }

    fn is_wanted(&mut self) -> bool {
        self.desk.take_note()
    }

    fn clients(&mut self) -> usize {
        self.desk.counters.len()
    }

    fn take_wanted(&mut self, place: usize) -> Option<Command> {
        match self.desk.counter(place) {
            Some(counter) => counter.take_wanted(self.rt),
            None => None,
        }
    }

    // A run ends whose tape may lack the submit.
    fn refuse(&mut self, place: usize, refusal: Refusal) {
        if self.scribe.lacks(&refusal) {
            self.running.fail(self.rt, self.desk.node, refusal);
        }
        if let Some(counter) = self.desk.counter(place) {
            counter.refuse(self.rt, refusal);
        }
    }

    fn pass_submits(&mut self, count: usize) {
        for _ in 0..count {
            self.turnstile.pass(self.desk.node, Place::AfterSubmit);
        }
    }

    fn read_clock(&mut self) -> Result<Duration, Refusal> {
        match self.rt.monotonic() {
            Ok(time) => Ok(time),
            Err(_) => Err(Refusal::Device),
        }
    }

    fn rest(&mut self, most: Duration) {
        self.rest.wait_for(self.rt, self.bell.parker(), most);
    }

    fn go_on(&mut self) {
        self.rest.end();
    }
}

//! Who asks a cluster, and who oversees it.

ghost use Rattle.std.specs.Prelude.{◌≡◌, true, is_ok, Ok, Err};
ghost use Rattle.rr_client.specs.declared.error.ClusterError.{ClusterError};

use crate::error::ClusterError;
use crate::host::{GuestRuntime, Host};
use crate::seated::Caller;
use rr_turn::Turnstile;
use rr_window::WindowName;
use std::sync::Wait;

/// Someone who asks a node for names, in a thread of its own.
pub trait Guest {
    /// Asks what it has to ask, by `names`. By `host` it prints, reads the clock, and stops and starts nodes.
    ///
    /// What it gives is told in its own `Returned`, and leaves the other guests alone. But where its node goes down, its calls give
    /// `Over`, and it is to give `Over` too: once the node is started again, this is called again.
    fn run<W: WindowName, T: Turnstile, R: Wait, H: GuestRuntime>(
        &mut self,
        names: &mut Caller<'_, '_, '_, W, T, R>,
        host: &Host<'_, H>,
    ) -> Result<(), ClusterError>;
}

/// A guest, the node that it asks, and the client that it is.
#[derive(Debug, Drop)]
pub struct Place<G> {
    /// The node, from 0 on.
    pub node: u8,
    /// The client's number.
    pub client: u32,
    pub guest: G,
}

/// A guest that is back.
#[derive(Debug, Drop)]
pub struct Returned<G> {
    pub guest: G,
    /// What its `run` gave. Where it wasn't done, as its node was down at the end: `Node` if the node had failed, and else `Over`.
    pub told: Result<(), ClusterError>,
}

impl<G: Drop> Returned<G> {
    /// The guest, where it was done without an error.
    ///
    /// # Errors
    /// What it gave.
    pub fn into_guest(self) -> Result<G, ClusterError>
        ensures done { is_ok self.told ≡ true → result ≡ Ok self.guest }
        ensures err { (e : ClusterError) → self.told ≡ Err e → result ≡ Err e }
    {
        let Returned { guest, told } = self;
        match told {
            Ok(()) => Ok(guest),
            Err(error) => Err(error),
        }
    }
}

/// Someone who stops and starts nodes in the thread that has called, while guests ask.
pub trait Overseer {
    /// Oversees the run, from before its nodes are up. A guest whose node is down waits for as long as this goes on. What the overseer and
    /// guests tell one another is theirs, as by a channel.
    fn oversee<H: GuestRuntime>(&mut self, host: &Host<'_, H>);
}

/// An overseer that does nothing.
#[derive(Drop)]
pub(crate) struct Nobody;

impl Overseer for Nobody {
    fn oversee<H: GuestRuntime>(&mut self, _host: &Host<'_, H>) {}
}

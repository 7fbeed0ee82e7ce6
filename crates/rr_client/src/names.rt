//! What a guest asks a node.

ghost use Rattle.std.specs.Prelude.{◌≡◌, IfErr};
ghost use Rattle.rr_types.specs.declared.command.Op.TheVariants.{Claim, Update, Release, Transfer};
ghost use Rattle.rr_client.specs.Asking.{Asker, GoesOn, IsSubmitted, IsSubmittedAgain, IsSynced, IsLooked, IsListed, IsWatching, IsToldOf};
ghost use Rattle.rr_client.specs.Asking.{IsAwaited, IsOver};

use crate::error::ClusterError;
use rr_types::{Binding, Name, NodeId, Reply, Value};
use rr_window::{Change, Sight};
use std::sync::Wait;
use std::time::Clock;

/// What comes of a wait for changes.
#[derive(Debug, Drop)]
pub enum Awaited {
    /// What has changed, in the order of the list: one change at least.
    Changed(Vec<Change>),
    /// The time is over, and nothing had changed by what the node had published at the last look.
    TimeIsOver,
}

/// The names of a cluster, as a client at a node asks for them. Each change has a request number of its own, so it counts once.
///
/// A call that waits gives up behind the patience of `Options`.
pub trait Names {
    /// The client, its node, and what it knows.
    ghost asker: { Self → Asker };

    /// The node that is asked.
    fn node(&self) -> NodeId
        ensures { result ≡ (asker self.now).node };

    /// The client that asks.
    fn client(&self) -> u32
        ensures { result ≡ (asker self.now).client };

    /// Whether the run comes to its end. Then no command is acknowledged any more.
    fn is_over(&self) -> bool;

    /// Binds a free name to the client, with a value. The reply is `Claimed`, `Taken` by its owner, or `Full`.
    ///
    /// # Errors
    /// `Unacknowledged`, `ListFull`, `NumberUsed`, `Over`, `Numbers`.
    fn claim(&mut self, name: &Name, value: &Value) -> Result<Reply, ClusterError>
        ensures reply { IsSubmitted (Claim name.now value.now) (asker self.old) (asker self.new) result }
        ensures later { GoesOn (asker self.old) (asker self.new) };

    /// Sets the value of a name that the client has. The reply is `Updated`, `NotOwner` or `Unknown`.
    ///
    /// # Errors
    /// As of `claim`.
    fn update(&mut self, name: &Name, value: &Value) -> Result<Reply, ClusterError>
        ensures reply { IsSubmitted (Update name.now value.now) (asker self.old) (asker self.new) result }
        ensures later { GoesOn (asker self.old) (asker self.new) };

    /// Frees a name that the client has. The reply is `Released`, `NotOwner` or `Unknown`.
    ///
    /// # Errors
    /// As of `claim`.
    fn release(&mut self, name: &Name) -> Result<Reply, ClusterError>
        ensures reply { IsSubmitted (Release name.now) (asker self.old) (asker self.new) result }
        ensures later { GoesOn (asker self.old) (asker self.new) };

    /// Gives a name that the client has to another client. The reply is `Transferred`, `NotOwner` or `Unknown`.
    ///
    /// # Errors
    /// As of `claim`.
    fn transfer(&mut self, name: &Name, owner: u32) -> Result<Reply, ClusterError>
        ensures reply { IsSubmitted (Transfer name.now owner) (asker self.old) (asker self.new) result }
        ensures later { GoesOn (asker self.old) (asker self.new) };

    /// Asks the last command once more that wasn't acknowledged, under its request number. However often it is asked, it counts once.
    ///
    /// # Errors
    /// As of `claim`, and `NothingToAsk`.
    fn again(&mut self) -> Result<Reply, ClusterError>
        ensures reply { IsSubmittedAgain (asker self.old) (asker self.new) result }
        ensures later { GoesOn (asker self.old) (asker self.new) };

    /// Waits until the client knows all that was acknowledged anywhere before: a look or a list behind it has that. It takes a place
    /// of the list of commands, and changes no name.
    ///
    /// # Errors
    /// As of `claim`. Then nothing is told. The command that `again` asks stays the same.
    fn sync(&mut self) -> Result<(), ClusterError>
        ensures synced { IsSynced (asker self.old) (asker self.new) result }
        ensures later { GoesOn (asker self.old) (asker self.new) };

    /// Who has a name, by what the node has published: all that this client has seen, and what it was acknowledged. It doesn't wait.
    ///
    /// # Errors
    /// `Unseen`.
    fn look(&mut self, name: &Name) -> Result<Sight, ClusterError>
        ensures sight { IsLooked name.now (asker self.old) (asker self.new) result }
        ensures later { GoesOn (asker self.old) (asker self.new) };

    /// The bound names that begin with these bytes, in byte order, by what the node has published. It doesn't wait.
    ///
    /// # Errors
    /// `Unseen`, `OutOfMemory`.
    fn list(&mut self, prefix: &[u8]) -> Result<Vec<Binding>, ClusterError>
        ensures bindings { IsListed prefix.now (asker self.old) (asker self.new) result }
        ensures later { GoesOn (asker self.old) (asker self.new) };

    /// The bound names that begin with these bytes, as `list` tells them. From here on `changes` tells what changes.
    ///
    /// # Errors
    /// As of `list`.
    fn watch(&mut self, prefix: &[u8]) -> Result<Vec<Binding>, ClusterError>
        ensures { IsWatching prefix.now (asker self.old) (asker self.new) result };

    /// What has changed since the last call of this or of `watch`, of names that begin with these bytes, by what the node has
    /// published: each change once, in the order of the list. It doesn't wait.
    ///
    /// # Errors
    /// `Late`, where more than 1,024 commands were published since: what changed meanwhile isn't told. As of `list`.
    fn changes(&mut self, prefix: &[u8]) -> Result<Vec<Change>, ClusterError>
        ensures { IsToldOf prefix.now (asker self.old) (asker self.new) result };

    /// What has changed, as `changes` tells it, once something has: it waits for that, but no longer than so many milliseconds. It looks
    /// once at least.
    ///
    /// # Errors
    /// `Over`, once the node goes down; `System`, where the clock can't be read; and as of `changes`. But for `Late` no change is lost
    /// then: the next call tells it.
    fn changes_within<H: Wait + Clock>(
        &mut self,
        rt: &H,
        prefix: &[u8],
        milliseconds: u64,
    ) -> Result<Awaited, ClusterError>
        ensures { IsAwaited prefix.now (asker self.old) (asker self.new) result };

    /// Sleeps so many milliseconds. The client knows what it knew.
    ///
    /// # Errors
    /// `Over`, as soon as the node goes down; `System`, where the clock can't be read.
    fn pause<H: Wait + Clock>(&self, rt: &H, milliseconds: u64) -> Result<(), ClusterError>
        ensures { IfErr result IsOver };
}

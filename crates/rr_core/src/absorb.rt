//! Taking on what a step has changed: all of it, or after an error nothing.

ghost use Rattle.std.specs.Prelude.{◌≡◌, ◌++◌, List, OnOk, OnErr};
ghost use Rattle.rr_types.specs.declared.command.Command.{Command};
ghost use Rattle.rr_types.specs.declared.command.RequestNo.{RequestNo};
ghost use Rattle.rr_core.specs.Steps.{combined, without_requests, AreNew, AreNewRequests, IsFitting};

use crate::state::State;
use crate::step::Changes;
use rr_state::{Pool, Waiting};
use rr_types::{Command, Op, RequestNo, made_of};
use std::alloc::{AllocError, Global};

/// Commands come into the pool, all of them or, after an error, none.
#[tactic(auto, using(crate::proofs::PoolLemmas::first_new, crate::proofs::PoolLemmas::rest_new, crate::proofs::PoolLemmas::first_rest))]
fn pool_all(pool: &mut Pool, commands: &[Command]) -> Result<(), AllocError>
    requires { AreNew pool.old commands.now }
    ensures ok { OnOk result (pool.new ≡ pool.old ++ commands.now) }
    ensures kept { OnErr result (pool.new ≡ pool.old) }
{
    made_of!(Op);
    if commands.len() == 0 {
        return Ok(());
    }
    let first = commands[0];
    pool.push(&first)?;
    match pool_all(pool, &commands[1..]) {
        Ok(()) => Ok(()),
        Err(refusal) => {
            pool.take_back();
            Err(refusal)
        }
    }
}

/// Commands that came last leave the pool again. It needs no memory.
fn unpool_all(pool: &mut Pool, commands: &[Command])
    ensures { (cs : List Command) → pool.old ≡ cs ++ commands.now → pool.new ≡ cs }
{
    made_of!(Op);
    if commands.len() > 0 {
        unpool_all(pool, &commands[1..]);
        pool.take_back();
    }
}

/// Requests wait, all of them or, after an error, none.
#[tactic(auto, using(crate::proofs::PoolLemmas::first_request, crate::proofs::PoolLemmas::rest_requests, crate::proofs::PoolLemmas::first_rest))]
fn wait_all(waiting: &mut Waiting, requests: &[RequestNo]) -> Result<(), AllocError>
    requires { AreNewRequests waiting.old requests.now }
    ensures ok { OnOk result (waiting.new ≡ waiting.old ++ requests.now) }
    ensures kept { OnErr result (waiting.new ≡ waiting.old) }
{
    if requests.len() == 0 {
        return Ok(());
    }
    let first = requests[0];
    waiting.push(first)?;
    match wait_all(waiting, &requests[1..]) {
        Ok(()) => Ok(()),
        Err(refusal) => {
            waiting.take_back();
            Err(refusal)
        }
    }
}

/// The requests that came last no longer wait. It needs no memory.
fn unwait_all(waiting: &mut Waiting, requests: &[RequestNo])
    ensures { (qs : List RequestNo) → waiting.old ≡ qs ++ requests.now → waiting.new ≡ qs }
{
    if requests.len() > 0 {
        unwait_all(waiting, &requests[1..]);
        waiting.take_back();
    }
}

/// Commands come into the pool and requests wait, all of them or, after an error, none.
fn arrive(
    pool: &mut Pool,
    waiting: &mut Waiting,
    commands: &[Command],
    requests: &[RequestNo],
) -> Result<(), AllocError>
    requires commands { AreNew pool.old commands.now }
    requires requests { AreNewRequests waiting.old requests.now }
    ensures pool { OnOk result (pool.new ≡ pool.old ++ commands.now) }
    ensures waiting { OnOk result (waiting.new ≡ waiting.old ++ requests.now) }
    ensures pool_kept { OnErr result (pool.new ≡ pool.old) }
    ensures waiting_kept { OnErr result (waiting.new ≡ waiting.old) }
{
    wait_all(waiting, requests)?;
    match pool_all(pool, commands) {
        Ok(()) => Ok(()),
        Err(refusal) => {
            unwait_all(waiting, requests);
            Err(refusal)
        }
    }
}

/// Commands with one of these request numbers leave the pool. It needs no memory.
#[tactic(auto, using(crate::proofs::PoolLemmas::none_taken))]
fn take_all(pool: &mut Pool, taken: &[RequestNo])
    ensures { pool.new ≡ without_requests taken.now pool.old }
{
    for request in taken {
        pool.remove(*request);
    }
}

impl State {
    /// Takes on what a step has changed. After an error nothing has changed. What is left in
    /// `changes` is room for another step.
    #[tactic(auto, using(crate::proofs::OverLemmas::put_reversed, crate::proofs::OverLemmas::reversed_stay))]
    pub fn absorb(&mut self, alloc: Global, changes: &mut Changes) -> Result<(), AllocError>
        requires { IsFitting self.old changes.old }
        ensures ok { OnOk result (self.new ≡ combined self.old changes.old) }
        ensures err { OnErr result (self.new ≡ self.old) }
    {
        // What takes memory comes first, and is undone if a later part is refused. What follows the rows can't be
        // refused.
        arrive(
            &mut self.pool,
            &mut self.waiting,
            &changes.pooled,
            &changes.waiting,
        )?;
        match self.owed.owe_all(&changes.owed) {
            Ok(()) => (),
            Err(refusal) => {
                unpool_all(&mut self.pool, &changes.pooled);
                unwait_all(&mut self.waiting, &changes.waiting);
                return Err(refusal);
            }
        }
        match self.unmarked.push_all(&changes.staged) {
            Ok(()) => (),
            Err(refusal) => {
                self.owed.forget_last(changes.owed.len());
                unpool_all(&mut self.pool, &changes.pooled);
                unwait_all(&mut self.waiting, &changes.waiting);
                return Err(refusal);
            }
        }
        changes.rows.reverse();
        match self.instances.absorb(alloc, &mut changes.rows) {
            Ok(()) => (),
            Err(refusal) => {
                self.unmarked.take_back(&changes.staged);
                self.owed.forget_last(changes.owed.len());
                unpool_all(&mut self.pool, &changes.pooled);
                unwait_all(&mut self.waiting, &changes.waiting);
                return Err(refusal);
            }
        }
        take_all(&mut self.pool, &changes.taken);
        self.suspects = changes.suspects;
        self.heartbeat = changes.heartbeat;
        self.is_spent = changes.is_spent;
        self.is_settled = changes.is_settled;
        Ok(())
    }
}

//! Three workers share nine tasks. One of them leads and does the tasks, dies amid them, and another takes them over.
#![tactic(auto)]

ghost use Rattle.std.specs.Prelude.{◌<◌};

use rr_client::{
    Awaited, Caller, Change, ClusterError, Guest, GuestRuntime, Host, Names, Options, Place,
    Returned, Turnstile, WindowName, run_cluster,
};
use rr_types::{Name, Nodes, Reply, Value};
use std::fs;
use std::sync::Wait;

/// How long a leader may be silent, in milliseconds, before another takes its work over.
const SILENCE: u64 = 10_000;

/// What all names here begin with.
const ALL: &[u8] = b"t";

/// The name that is claimed once all tasks are done.
const DONE: &[u8] = b"tasks-done";

/// Someone who leads or waits, and how many tasks it has done.
#[derive(Drop)]
struct Worker {
    tasks: u32,
}

/// The name of a term. Who claims it leads in it.
fn term_name(term: u8) -> Result<Name, ClusterError>
    requires { term < 10 }
{
    Ok(Name::new(&[b't', b'e', b'r', b'm', b'-', b'0' + term])?)
}

/// The name of a task. Who claims it does it, and nobody else.
fn task_name(task: u8) -> Result<Name, ClusterError>
    requires { task < 10 }
{
    Ok(Name::new(&[b't', b'a', b's', b'k', b'-', b'0' + task])?)
}

/// Whether a change says that all tasks are done.
fn says_done(changes: &[Change]) -> bool {
    for change in changes {
        if change.name().as_bytes() == DONE {
            return true;
        }
    }
    false
}

/// Waits until all tasks are done, which it says, or until the leader is silent.
fn follow<W: WindowName, T: Turnstile, R: Wait, H: GuestRuntime>(
    names: &mut Caller<'_, '_, '_, W, T, R>,
    host: &Host<'_, H>,
) -> Result<bool, ClusterError> {
    for binding in &names.watch(ALL)? {
        if binding.name.as_bytes() == DONE {
            return Ok(true);
        }
    }
    for _ in host.rt().forever() {
        match names.changes_within(host.rt(), ALL, SILENCE)? {
            Awaited::TimeIsOver => return Ok(false),
            Awaited::Changed(changes) => {
                if says_done(changes.as_slice()) {
                    return Ok(true);
                }
            }
        }
    }
    unreachable!()
}

impl Worker {
    /// Does the tasks that nobody has begun. The first leader dies amid them: its node stops.
    fn lead<W: WindowName, T: Turnstile, R: Wait, H: GuestRuntime>(
        &mut self,
        names: &mut Caller<'_, '_, '_, W, T, R>,
        host: &Host<'_, H>,
        term: u8,
    ) -> Result<(), ClusterError> {
        for task in 1..10u8 {
            if term == 1 && task == 4 {
                host.stop(names.node());
                return Err(ClusterError::Over);
            }
            if let Reply::Claimed = names.claim(&task_name(task)?, &Value::new(b"begun")?)? {
                self.tasks = self.tasks.saturating_add(1);
            }
        }
        names.claim(&Name::new(DONE)?, &Value::new(b"")?)?;
        Ok(())
    }
}

impl Guest for Worker {
    fn run<W: WindowName, T: Turnstile, R: Wait, H: GuestRuntime>(
        &mut self,
        names: &mut Caller<'_, '_, '_, W, T, R>,
        host: &Host<'_, H>,
    ) -> Result<(), ClusterError> {
        for term in 1..10u8 {
            // The name of a dead leader stays its own. So the next leader is who claims the next name.
            if let Reply::Claimed = names.claim(&term_name(term)?, &Value::new(b"led")?)? {
                println!(host.rt(); "term {term} begins")?;
                return self.lead(names, host, term);
            }
            if follow(names, host)? {
                break;
            }
        }
        Ok(())
    }
}

fn main(rt: HostRuntime) -> anyhow::Result<()> {
    let _ = fs::remove_dir_all(&rt, "one_leader.nodes"); // to begin anew; a registry keeps its folder
    let mut places = Vec::new(rt.alloc());
    for node in 0..3u8 {
        let client = u32::from(node);
        let guest = Worker { tasks: 0 };
        places.push(Place {
            node,
            client,
            guest,
        })?;
    }
    let (nodes, options) = (Nodes::new(3)?, Options::usual());
    let mut tasks = 0u32;
    for back in run_cluster(&rt, nodes, "one_leader.nodes", &options, places)? {
        let Returned { guest, told } = back;
        tasks = tasks.saturating_add(guest.tasks);
        if let Err(error) = told {
            println!(rt; "a worker is gone: {error}")?;
        }
    }
    println!(rt; "{tasks} tasks are done, each once")?;
    Ok(())
}

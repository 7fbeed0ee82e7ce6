//! A wait for changes ends at its time where there are none, and else tells them.

use super::clusters::{clear, hasty, name, placed, three, value};
use rr_client::{
    Awaited, Caller, Change, ClusterError, Guest, GuestRuntime, Host, Names, Turnstile, WindowName,
    run_cluster,
};
use rr_types::Name;
use std::sync::Wait;
use std::time::Instant;

/// Someone who waits for names that begin with `w`, first in vain, or who claims two names.
#[derive(Debug, Drop)]
struct Waiter {
    claims: bool,
    has_waited: bool,
    changes: u8,
}

/// Whether a change says that client 1 has bound the name `wanted`.
fn is_wanted(change: &Change) -> bool {
    match change {
        Change::Bound(binding) => binding.owner == 1
            && binding.name.as_bytes() == b"wanted".as_slice(),
        Change::Freed(_) => false,
    }
}

/// How many of these changes are the wanted one; 100 where another is among them.
fn count_wanted(changes: &[Change]) -> u8 {
    let mut count = 0u8;
    for change in changes {
        if !is_wanted(change) {
            return 100;
        }
        count = count.saturating_add(1);
    }
    count
}

/// Claims a name, however often it has to be asked.
fn claim<W: WindowName, T: Turnstile, R: Wait>(
    names: &mut Caller<'_, '_, '_, W, T, R>,
    name: &Name,
) -> Result<(), ClusterError> {
    let mut told = names.claim(name, &value()?);
    for _ in 0..100 {
        if !matches!(told, Err(ClusterError::Unacknowledged { .. })) {
            break;
        }
        told = names.again();
    }
    let _ = told?;
    Ok(())
}

impl Waiter {
    /// Claims a name of another beginning, and then the one that is wanted.
    fn claim_both<W: WindowName, T: Turnstile, R: Wait, H: GuestRuntime>(
        names: &mut Caller<'_, '_, '_, W, T, R>,
        host: &Host<'_, H>,
    ) -> Result<(), ClusterError> {
        // (the waiter claims `go` behind its first wait)
        let _ = names.changes_within(host.rt(), b"go", 30_000)?;
        claim(names, &name(b"aside")?)?;
        claim(names, &name(b"wanted")?)
    }
}

impl Guest for Waiter {
    fn run<W: WindowName, T: Turnstile, R: Wait, H: GuestRuntime>(
        &mut self,
        names: &mut Caller<'_, '_, '_, W, T, R>,
        host: &Host<'_, H>,
    ) -> Result<(), ClusterError> {
        if self.claims {
            return Waiter::claim_both(names, host);
        }
        let start = Instant::now(host.rt())?;
        if let Awaited::TimeIsOver = names.changes_within(host.rt(), b"w", 100)? {
            self.has_waited = start.elapsed(host.rt())?.as_millis() >= 100;
        }
        claim(names, &name(b"go")?)?;
        if let Awaited::Changed(changes) = names.changes_within(host.rt(), b"w", 30_000)? {
            self.changes = count_wanted(changes.as_slice());
        }
        Ok(())
    }
}

#[test]
fn a_wait_ends_at_its_time_or_tells_what_changed(rt: HostRuntime) {
    let dir = "waits.nodes";
    clear(&rt, dir);
    let mut guests = Vec::new(rt.alloc());
    for claims in [false, true] {
        guests
            .push(Waiter {
                claims,
                has_waited: false,
                changes: 0,
            })
            .expect(&rt, "memory");
    }
    let places = placed(&rt, rt.alloc(), guests);
    let backs = run_cluster(&rt, three(&rt), dir, &hasty(), places).expect(&rt, "a run");
    for back in backs {
        let guest = back.into_guest().expect(&rt, "a guest that is done");
        if !guest.claims {
            assert!(rt; guest.has_waited, "the first wait took its time");
            assert!(rt; guest.changes == 1, "the second told the one change");
        }
    }
}

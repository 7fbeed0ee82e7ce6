//! A guest whose node is stopped and started is called again, and the cluster has what it was acknowledged before.

use super::clusters::{clear, hasty, name, node, placed, three, value};
use rr_client::{
    Caller, ClusterError, Guest, GuestRuntime, Host, Names, Overseer, Sight, Standing, Turnstile,
    WindowName, run_overseen,
};
use rr_types::Reply;
use std::sync::Wait;
use std::sync::atomic::{AtomicBool, Ordering};
use std::thread;
use std::time::Duration;

/// Someone who claims a name in its first life, and looks for it in its second.
#[derive(Drop)]
struct Survivor<'s> {
    has_claimed: &'s AtomicBool,
    lives: u8,
    is_there: bool,
}

impl<'s> Guest for Survivor<'s> {
    fn run<W: WindowName, T: Turnstile, R: Wait, H: GuestRuntime>(
        &mut self,
        names: &mut Caller<'_, '_, '_, W, T, R>,
        host: &Host<'_, H>,
    ) -> Result<(), ClusterError> {
        self.lives = self.lives.saturating_add(1);
        if self.lives == 1 {
            let mut told = names.claim(&name(b"claimed")?, &value()?);
            for _ in 0..100 {
                if !matches!(told, Err(ClusterError::Unacknowledged { .. })) {
                    break;
                }
                told = names.again();
            }
            if let Reply::Claimed = told? {
                self.has_claimed.store(true, Ordering::SeqCst);
            }
            // (the overseer stops the node meanwhile)
            names.pause(host.rt(), 60_000)?;
            return Ok(());
        }
        for _ in 0..100 {
            if let Ok(()) = names.sync() {
                break;
            }
        }
        if let Sight::Bound(owner, _) = names.look(&name(b"claimed")?)? {
            self.is_there = owner == names.client();
        }
        Ok(())
    }
}

/// Someone who stops node 0 once its guest has claimed, and starts it again; and whether it saw it up, down and up.
#[derive(Drop)]
struct Switcher<'s> {
    has_claimed: &'s AtomicBool,
    is_seen: bool,
}

/// Whether a node was seen so.
fn is_up<E: Drop>(settled: &Result<Option<Standing>, E>) -> bool {
    matches!(settled, Ok(Some(Standing::Up)))
}

impl<'s> Overseer for Switcher<'s> {
    fn oversee<H: GuestRuntime>(&mut self, host: &Host<'_, H>) {
        let Some(node) = node(0) else {
            return;
        };
        let begins = is_up(&host.settle(node, 30_000));
        for _ in 0..600 {
            if self.has_claimed.load(Ordering::SeqCst) {
                break;
            }
            thread::sleep(host.rt(), Duration::from_millis(50));
        }
        host.stop(node);
        let ends = matches!(host.settle(node, 30_000), Ok(Some(Standing::Down)));
        host.start(node);
        self.is_seen = begins && ends && is_up(&host.settle(node, 30_000));
    }
}

#[test]
fn a_guest_is_called_again_behind_a_start(rt: HostRuntime) {
    let dir = "lives.nodes";
    clear(&rt, dir);
    let has_claimed = AtomicBool::new(false);
    let mut guests = Vec::new(rt.alloc());
    guests
        .push(Survivor {
            has_claimed: &has_claimed,
            lives: 0,
            is_there: false,
        })
        .expect(&rt, "memory");
    let places = placed(&rt, rt.alloc(), guests);
    let mut switcher = Switcher {
        has_claimed: &has_claimed,
        is_seen: false,
    };
    let ran = run_overseen(&rt, three(&rt), dir, &hasty(), places, &mut switcher);
    assert!(rt; switcher.is_seen, "the node was up, down and up");
    for back in ran.expect(&rt, "a run") {
        let guest = back.into_guest().expect(&rt, "a guest that is done");
        assert!(rt; guest.lives == 2, "the guest was called twice");
        assert!(rt; guest.is_there, "its name is there");
    }
}

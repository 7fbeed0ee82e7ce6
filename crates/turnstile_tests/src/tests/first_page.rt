//! The program on the first page of rr_threads.

use rr_disk::MemDisk;
use rr_text::Answer;
use rr_threads::{Client, Handle, run_clients};
use rr_turn::{Open, Turnstile};
use rr_types::{Command, Name, Nodes, Op, Refusal, RequestNo, Value};
use rr_window::WindowName;
use std::sync::Wait;
use std::sync::atomic::{AtomicBool, Ordering};
use std::thread::Threads;
use std::time::Clock;

/// A client that claims a name and looks at it.
#[derive(Drop)]
struct Guest<'s> {
    is_seen: &'s AtomicBool,
}

impl<'s> Client for Guest<'s> {
    fn run<W: WindowName, T: Turnstile, R: Wait>(
        &mut self,
        handle: &mut Handle<'_, '_, W, T, R>,
    ) -> Result<(), Refusal> {
        let name = Name::new(b"printer")?;
        let request = RequestNo { client: 7, seq: 1 };
        let op = Op::Claim(name, Value::new(b"room-4")?);
        handle.submit(&Command { request, op });
        let is_bound = matches!(handle.look(&name), Answer::Bound { .. });
        self.is_seen.store(is_bound, Ordering::SeqCst);
        Ok(())
    }
}

/// Runs three nodes over disks in memory, with a guest at the first. It says whether the guest saw its name bound.
fn is_seen_bound<R: Threads + Wait + Clock + AllocGlobal + Sync>(rt: &R) -> Result<bool, Refusal> {
    let alloc = rt.alloc();
    let is_seen = AtomicBool::new(false);
    let disks = vec![in alloc;
        MemDisk::new(alloc),
        MemDisk::new(alloc),
        MemDisk::new(alloc),
    ]?;
    let guest = Guest { is_seen: &is_seen };
    let clients = vec![in alloc; vec![in alloc; guest]?, Vec::new(alloc), Vec::new(alloc)]?;
    run_clients(rt, alloc, Nodes::new(3)?, disks, clients, &Open, None)?;
    Ok(is_seen.load(Ordering::SeqCst))
}

#[test]
fn a_guest_sees_what_it_claimed(rt: HostRuntime) {
    assert!(rt; is_seen_bound(&rt).expect(&rt, "a run"));
}

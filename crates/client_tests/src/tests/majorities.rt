//! A claim without a majority of nodes is unacknowledged. Asked again behind a start, it counts, once.

use super::clusters::{clear, hasty, name, node, placed, three, value};
use rr_client::{
    Caller, ClusterError, Guest, GuestRuntime, Host, Names, Turnstile, WindowName, run_cluster,
};
use rr_types::Reply;
use std::sync::Wait;

/// Someone who claims a name where the others are down, and what came of it.
#[derive(Debug, Drop)]
struct Claimer {
    is_unacknowledged: bool,
    is_claimed: bool,
    is_nothing_left: bool,
}

/// Whether a command is to be asked again.
fn is_open(told: &Result<Reply, ClusterError>) -> bool {
    matches!(told, Err(ClusterError::Unacknowledged { .. }))
}

impl Guest for Claimer {
    fn run<W: WindowName, T: Turnstile, R: Wait, H: GuestRuntime>(
        &mut self,
        names: &mut Caller<'_, '_, '_, W, T, R>,
        host: &Host<'_, H>,
    ) -> Result<(), ClusterError> {
        for index in [1u8, 2] {
            if let Some(node) = node(index) {
                host.stop(node);
                let _ = host.settle(node, 10_000)?;
            }
        }
        self.is_unacknowledged = is_open(&names.claim(&name(b"alone")?, &value()?));
        if let Some(node) = node(1) {
            host.start(node);
        }
        for _ in 0..100 {
            let told = names.again();
            if !is_open(&told) {
                self.is_claimed = matches!(told, Ok(Reply::Claimed));
                break;
            }
        }
        self.is_nothing_left = matches!(names.again(), Err(ClusterError::NothingToAsk));
        Ok(())
    }
}

#[test]
fn a_claim_without_a_majority_counts_behind_a_start(rt: HostRuntime) {
    let dir = "majorities.nodes";
    clear(&rt, dir);
    let mut guests = Vec::new(rt.alloc());
    guests
        .push(Claimer {
            is_unacknowledged: false,
            is_claimed: false,
            is_nothing_left: false,
        })
        .expect(&rt, "memory");
    let places = placed(&rt, rt.alloc(), guests);
    let backs = run_cluster(&rt, three(&rt), dir, &hasty(), places).expect(&rt, "a run");
    assert!(rt; backs.len() == 1, "one guest is back");
    for back in backs {
        let guest = back.into_guest().expect(&rt, "a guest that is done");
        assert!(rt; guest.is_unacknowledged, "what the claimer saw");
        assert!(rt; guest.is_claimed, "what the claimer saw");
        assert!(rt; guest.is_nothing_left, "what the claimer saw");
    }
}

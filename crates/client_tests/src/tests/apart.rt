//! Guests are told apart: an error of one doesn't end the others, and each comes back in its place.

use super::clusters::{clear, hasty, name, placed, three, value};
use rr_client::{
    Caller, ClusterError, Guest, GuestRuntime, Host, Names, Turnstile, WindowName, run_cluster,
};
use rr_types::Reply;
use std::sync::Wait;

/// Someone who fails at once, or claims a name then.
#[derive(Debug, Drop)]
struct Clerk {
    fails: bool,
    is_claimed: bool,
}

impl Guest for Clerk {
    fn run<W: WindowName, T: Turnstile, R: Wait, H: GuestRuntime>(
        &mut self,
        names: &mut Caller<'_, '_, '_, W, T, R>,
        host: &Host<'_, H>,
    ) -> Result<(), ClusterError> {
        if self.fails {
            return Err(ClusterError::NothingToAsk);
        }
        // (the other guest has failed by then)
        names.pause(host.rt(), 100)?;
        let mut told = names.claim(&name(b"kept")?, &value()?);
        for _ in 0..100 {
            if !matches!(told, Err(ClusterError::Unacknowledged { .. })) {
                break;
            }
            told = names.again();
        }
        self.is_claimed = matches!(told, Ok(Reply::Claimed));
        Ok(())
    }
}

#[test]
fn an_error_of_one_guest_leaves_the_others(rt: HostRuntime) {
    let dir = "apart.nodes";
    clear(&rt, dir);
    let mut guests = Vec::new(rt.alloc());
    for fails in [false, true, false] {
        let is_claimed = false;
        guests
            .push(Clerk { fails, is_claimed })
            .expect(&rt, "memory");
    }
    let places = placed(&rt, rt.alloc(), guests);
    let backs = run_cluster(&rt, three(&rt), dir, &hasty(), places).expect(&rt, "a run");
    assert!(rt; backs.len() == 3, "each guest is back");
    let mut claims = 0u8;
    for (place, back) in backs.into_iter().enumerate() {
        let is_second = place == 1;
        assert!(rt;
            back.guest.fails == is_second,
            "guests are back in their places"
        );
        assert!(rt;
            back.told.is_err() == is_second,
            "only the second has failed"
        );
        if back.guest.is_claimed {
            claims = claims.saturating_add(1);
        }
    }
    assert!(rt; claims == 1, "one of the others has the name");
}

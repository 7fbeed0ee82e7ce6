//! The registry of the decided prefix.

ghost use Rattle.std.specs.Prelude.{◌≡◌, IfOk};
ghost use Rattle.rr_model.specs.NodeState.{decided_prefix};
ghost use Rattle.rr_registry.specs.Kept.{kept_of};

use crate::state::State;
use rr_registry::Registry;
use std::alloc::{AllocError, Global};

/// The registry of the decided prefix, made from nothing.
pub fn registry_of_prefix(state: &State, alloc: Global) -> Result<Registry, AllocError>
    ensures ok { IfOk result (λ r. r ≡ kept_of (decided_prefix state.now)) }
{
    let mut registry = Registry::new(alloc);
    for place in 0..state.instances.prefix_len() {
        match state.instances.command_at(place) {
            None => unreachable!(),
            Some(command) => match registry.apply(&command) {
                Ok(_) => (),
                Err(refusal) => return Err(refusal),
            },
        }
    }
    Ok(registry)
}

//! Request numbers that no client has had.

ghost use Rattle.std.specs.Prelude.{◌≡◌, ◌+◌, ◌≤◌, IfOk, IfErr, OnErr};
ghost use Rattle.rr_client.specs.Asking.{IsNumberless};

use crate::error::ClusterError;
use rr_folders::{Block, Unreserved, reserve};
use rr_types::Refusal;
use std::rt::Files;

/// A block of request numbers from this one on, none of which has been given before. A guest needs no second one: a block has as many
/// numbers as a cluster decides commands in its life.
pub(crate) fn block_from<R: Files + AllocGlobal>(
    rt: &R,
    dir: &str,
    least: u64,
) -> Result<Block, ClusterError>
    ensures least { IfOk result (λ b. least ≤ b.next) }
    ensures err { IfErr result IsNumberless }
{
    match reserve(rt, dir, least) {
        Ok(block) => Ok(block),
        Err(unreserved) => {
            let Unreserved { refusal, why: _ } = unreserved;
            Err(ClusterError::Numbers { refusal })
        }
    }
}

/// A new number.
pub(crate) fn take_number(block: &mut Block) -> Result<u64, ClusterError>
    ensures some { IfOk result (λ n. (block.old.next ≤ n) × (block.new.next ≡ n + 1)) }
    ensures kept { OnErr result (block.new ≡ block.old) }
    ensures err { IfErr result IsNumberless }
{
    match block.take() {
        Some(number) => Ok(number),
        None => Err(ClusterError::Numbers {
            refusal: Refusal::TooLarge,
        }),
    }
}

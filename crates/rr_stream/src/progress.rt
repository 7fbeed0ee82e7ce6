//! How far a long work is, told from time to time.

ghost use Rattle.std.specs.Prelude.{◌≡◌};

use crate::stream::Sink;

/// How many steps are made between one word on progress and the next, less one.
const UNTOLD_STEPS: u64 = 8191;

/// Tells the sink, at one step in 8192, that `done` of `all` is done. The sink takes nothing.
pub fn tell_step<O: Sink>(step: u64, done: u64, all: u64, out: &mut O)
    ensures { O.printing out.new ≡ O.printing out.old }
{
    if step & UNTOLD_STEPS == 0 {
        out.tell_progress(done, all);
    }
}

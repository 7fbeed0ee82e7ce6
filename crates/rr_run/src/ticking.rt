//! How often nodes tick, by a word.

ghost use Rattle.std.specs.Prelude.{option_map};
ghost use Rattle.std.specs.Duration.{as_nanos};
ghost use Rattle.rr_run.specs.Ticking.{IsTickBy};

use rr_cli::number_in;
use rr_threads::usual_tick;
use rr_words::{LEAST_TICK, MOST_TICK};
use std::time::Duration;

/// How long after a tick of a node the next is due, by the milliseconds that a word names: 50 milliseconds where there is no word.
/// So it is also where a word is no number of such milliseconds, which the command line doesn't let through.
pub(crate) fn tick_by(word: Option<&str>) -> Duration
    ensures { IsTickBy (option_map (λ s. s.now) word.entry) (as_nanos result) }
{
    let Some(word) = word else {
        return usual_tick();
    };
    match number_in(word, LEAST_TICK, MOST_TICK) {
        Some(millis) => Duration::from_millis(millis),
        None => usual_tick(),
    }
}

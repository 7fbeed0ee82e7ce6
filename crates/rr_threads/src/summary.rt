//! A node in brief.

ghost use Rattle.std.specs.Prelude.{◌≡◌};
ghost use Rattle.rr_threads.specs.Summaries.{summary_of};

use rr_core::Core;
use rr_types::NodeSummary;

/// A node in brief, by what it knows.
pub(crate) fn summary_of(core: &Core) -> NodeSummary
    ensures { result ≡ summary_of core.now }
{
    NodeSummary {
        facts: core.facts(),
        decided: core.decided_count() as u64,
        suspects: core.suspects(),
    }
}

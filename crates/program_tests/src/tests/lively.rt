//! Lively schedules, told with the reports of their runs.

use rr_lively::{DEFAULT_FAULTS, Recipe, lively_run};
use rr_sim::report_on;
use rr_stream::Counted;
use rr_types::Nodes;
use std::alloc::Global;
use std::process::Abort;

/// The text of a lively schedule on three nodes, a line `report`, and the report.
fn drawn(rt: &impl Abort, alloc: Global, seed: u64, faults: u32) -> String {
    let nodes = Nodes::new(3).expect(rt, "nodes");
    let unwatched = &mut Counted::new(Vec::new(alloc));
    let recipe = Recipe {
        nodes,
        seed,
        steps: 1_000,
        faults,
    };
    let text = lively_run(alloc, recipe, unwatched).expect(rt, "a schedule");
    String::from_utf8(text).expect(rt, "a text")
}

/// Whether a report is that of a schedule.
fn is_report(rt: &impl Abort, alloc: Global, schedule: &str, report: &str) -> bool {
    let told = report_on(
        alloc,
        schedule.as_bytes(),
        &mut Counted::new(Vec::new(alloc)),
    )
    .expect(rt, "a report");
    told.as_slice() == report.as_bytes()
}

#[test]
fn the_report_is_that_of_the_schedule(rt: HostRuntime) {
    let text = drawn(&rt, rt.alloc(), 1, DEFAULT_FAULTS);
    assert!(rt; text.as_str().starts_with("nodes 3\nrestart 0\ndev 0\n"));
    let (schedule, report) = text
        .as_str()
        .split_once("report\n")
        .expect(&rt, "a line between them");
    assert!(rt; is_report(&rt, rt.alloc(), schedule, report));
}

#[test]
fn the_same_words_give_the_same_text(rt: HostRuntime) {
    let once = drawn(&rt, rt.alloc(), 2, 100);
    let again = drawn(&rt, rt.alloc(), 2, 100);
    assert!(rt; once.as_str() == again.as_str());
    let other = drawn(&rt, rt.alloc(), 3, 100);
    assert!(rt; once.as_str() != other.as_str());
}

#[test]
fn commands_are_decided(rt: HostRuntime) {
    let text = drawn(&rt, rt.alloc(), 1, DEFAULT_FAULTS);
    let (_, list) = text
        .as_str()
        .split_once("\ndecided ")
        .expect(&rt, "a decided list");
    // One in 150 steps would be six; the first line says how many there are.
    assert!(rt; list.lines().count() > 6);
}

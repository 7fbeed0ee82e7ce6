//! How a report tells the refusals and the reply that no schedule comes to.

use rr_text::{Report, ReportLine};
use rr_types::{NodeId, Nodes, Refusal, Reply, RequestNo};
use std::alloc::Global;
use std::process::Abort;

/// The lines. Each but the last is a refusal at the line of its number, from 2 on.
const TEXT: &[u8] = b"refuse 2 3 Damaged\n\
refuse 3 9 ListFull\n\
refuse 4 10 RoundsOut\n\
refuse 5 16 TooLarge\n\
ack 0 7.4096 full\n\
decided 0\n";

fn refusal(line: u64, refusal: Refusal) -> ReportLine {
    ReportLine::Refuse { line, refusal }
}

fn full(rt: &impl Abort) -> ReportLine {
    let nodes = Nodes::new(1).expect(rt, "nodes");
    ReportLine::Ack {
        node: NodeId::new(nodes, 0).expect(rt, "a node"),
        request: RequestNo {
            client: 7,
            seq: 4096,
        },
        reply: Reply::Full,
    }
}

fn report(rt: &impl Abort, alloc: Global) -> Report {
    let damaged = Refusal::Damaged { area: 1, offset: 9 };
    let lines = [
        refusal(2, damaged),
        refusal(3, Refusal::ListFull),
        refusal(4, Refusal::RoundsOut),
        refusal(5, Refusal::TooLarge),
        full(rt),
    ];
    let lines = Vec::from_array(alloc, lines).expect(rt, "memory");
    Report::new(lines, Vec::new(alloc))
}

#[test]
fn a_report_names_them(rt: HostRuntime) {
    let text = report(&rt, rt.alloc())
        .text(rt.alloc())
        .expect(&rt, "memory");
    assert_eq!(rt; text.as_slice(), TEXT);
}

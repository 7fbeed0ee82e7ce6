//! Runs of scripts that have one answer, whose tapes the auditor accepts.

ghost use Rattle.std.specs.Prelude.{◌<◌};

use super::asking::{disks_for, numbered};
use rr_audit::{Verdict, examine};
use rr_text::Script;
use rr_threads::{Recorder, run_script};
use rr_turn::Open;
use std::alloc::{AllocError, Global};
use std::process::Abort;
use std::sync::Wait;
use std::thread::Threads;
use std::time::Clock;

/// A script and its answers: `count` times, a client of the next node in turn claims a name and then looks at it.
fn claims(alloc: Global, nodes: u8, count: u8) -> Result<(String, String), AllocError>
    requires { 0 < nodes }
{
    let mut script = String::new(alloc);
    let mut answers = String::new(alloc);
    for number in 0..count {
        let node = number % nodes;
        let asked = format!(in alloc;
            "submit {node} {node} {number} claim name-{number} v{number}\nlook {node} name-{number}\n"
        )?;
        let answered = format!(in alloc;
            "ack {node} {node}.{number} claimed\nlook {node} name-{number} {node}:v{number}\n"
        )?;
        script.push_str(asked.as_str())?;
        answers.push_str(answered.as_str())?;
    }
    Ok((script, answers))
}

/// Runs such a script and holds its answers and its tape against what they have to be. (The clients of a script are those of
/// `rr run`, which look for a reply up to 10,000,000 times: no test can bound that.)
fn runs_as_it_has_to<R: Threads + Wait + Clock + Abort + AllocGlobal + Sync>(
    rt: &R,
    count: u8,
    commands: u8,
)
    requires { 0 < count }
{
    let nodes = numbered(rt, count);
    let (text, wanted) = claims(rt.alloc(), count, commands).expect(rt, "memory");
    let script = Script::parse(rt.alloc(), nodes, text.as_bytes()).expect(rt, "a script");
    let recorder = Recorder::new(rt.alloc(), nodes);
    let disks = disks_for(rt, nodes);
    let ran = run_script(rt, rt.alloc(), disks, &script, &Open, Some(&recorder));
    let answers = ran
        .expect(rt, "answers")
        .text(rt.alloc())
        .expect(rt, "memory");
    assert!(rt; answers.as_slice() == wanted.as_bytes());
    let tape = recorder.into_tape();
    let verdict = examine(rt.alloc(), &tape).expect(rt, "memory");
    assert!(rt; matches!(verdict, Verdict::Yes(_)), "{verdict:?}");
}

#[test]
fn forty_commands_on_three_nodes_make_a_tape_run(rt: HostRuntime) {
    runs_as_it_has_to(&rt, 3, 40);
}

#[test]
fn seven_nodes_agree(rt: HostRuntime) {
    runs_as_it_has_to(&rt, 7, 28);
}

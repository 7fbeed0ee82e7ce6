//! The prompt of `rr shell`.

use rr_run::execute;
use rr_shell::Prompted;
use rr_stream::{Counted, HostFiles};
use std::fs;

/// The words of a shell with one node.
const WORDS: [&str; 6] = ["rr", "shell", "--nodes", "1", "--dir", "rr_shell_prompts"];

#[test]
fn a_prompt_stands_before_each_line_that_is_read(rt: HostRuntime) {
    let mut seen = Vec::new(rt.alloc());
    let mut out = Counted::new(Vec::new(rt.alloc()));
    let mut err = Vec::new(rt.alloc());
    let typed = Counted::new(&b"claim a x\nlist\n"[..]);
    let status = execute(
        &rt,
        &WORDS,
        &mut HostFiles::new(&rt),
        &mut Prompted::new(typed, Some(&mut seen)),
        &mut out,
        &mut err,
    );
    assert_eq!(rt; status, 0);
    assert!(rt; out.into_inner().as_slice() == b"claimed\nlist 1\na bound 0 x\n".as_slice());
    let told =
        b"rr: the registry in rr_shell_prompts, of 1 nodes; you are client 0, and ask node 0; \"help\" lists the commands, \"quit\" or Ctrl-D ends\n> > > \n";
    assert!(rt; seen.as_slice() == told.as_slice());
    assert!(rt;
        err.as_slice() == b"rr: rr_shell_prompts: a new registry, with --nodes 1\n".as_slice()
    );
    fs::remove_dir_all(&rt, "rr_shell_prompts").expect(&rt, "the folder goes");
}

#[test]
fn who_types_sees_what_the_shell_runs_over(rt: HostRuntime) {
    let words = ["rr", "shell", "--dir", "rr_shell_defaults"];
    let mut seen = Vec::new(rt.alloc());
    let mut out = Counted::new(Vec::new(rt.alloc()));
    let mut err = Vec::new(rt.alloc());
    let typed = Counted::new(&b"claim a x\n"[..]);
    let status = execute(
        &rt,
        &words,
        &mut HostFiles::new(&rt),
        &mut Prompted::new(typed, Some(&mut seen)),
        &mut out,
        &mut err,
    );
    assert_eq!(rt; status, 0);
    assert!(rt;
        seen.as_slice()
            .starts_with(b"rr: the registry in rr_shell_defaults, of 3 nodes; ")
    );
    assert!(rt; seen.as_slice().ends_with(b"\n> > \n"));
    assert!(rt;
        err.as_slice() == b"rr: rr_shell_defaults: a new registry, with --nodes 3\n".as_slice()
    );
    fs::remove_dir_all(&rt, "rr_shell_defaults").expect(&rt, "the folder goes");
}

#[test]
fn who_types_sees_that_a_command_may_be_asked_again(rt: HostRuntime) {
    let words = ["rr", "shell", "--nodes", "2", "--dir", "rr_shell_again"];
    let mut seen = Vec::new(rt.alloc());
    let mut out = Counted::new(Vec::new(rt.alloc()));
    let mut err = Vec::new(rt.alloc());
    let typed = Counted::new(&b"stop 1\nclaim a x\nstart 1\nagain\n"[..]);
    let status = execute(
        &rt,
        &words,
        &mut HostFiles::new(&rt),
        &mut Prompted::new(typed, Some(&mut seen)),
        &mut out,
        &mut err,
    );
    let told = b"stopped 1\nunacknowledged\nstarted 1\nclaimed\n";
    let hint =
        b"rr: the registry in rr_shell_again, of 2 nodes; you are client 0, and ask node 0; \"help\" lists the commands, \"quit\" or Ctrl-D ends\n> > it may count or not; \"again\" asks once more under its request number, so that it counts once\n> > > \n";
    assert_eq!(rt; status, 0);
    assert!(rt; out.into_inner().as_slice() == told.as_slice());
    assert!(rt; seen.as_slice() == hint.as_slice());
    fs::remove_dir_all(&rt, "rr_shell_again").expect(&rt, "the folder goes");
}

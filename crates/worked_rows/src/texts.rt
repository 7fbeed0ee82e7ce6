//! What is done with the texts of schedules and tapes.

ghost use Rattle.std.specs.Prelude.{◌≡◌, IfOk};
ghost use Rattle.rr_sim.specs.Told.{IsReportOn};

use crate::areas::areas_behind;
use crate::audits::print_audit;
use crate::sweep::sweep;
use rr_audit::Verdict;
use rr_cli::{audit_on, print_refusal, report_on};
use rr_sim::push_sweep_lines;
use rr_stream::Counted;
use rr_text::{Schedule, Tape};
use rr_types::Refusal;
use std::alloc::Global;
use std::io::Write;
use std::{fs, io};

/// What is done with a text.
#[derive(Clone, Copy)]
pub enum Work {
    Read,
    Run,
    Areas,
    Sweep,
    Restarts,
    Audit,
    Examine,
}

/// Works on the text in the file at this path.
pub fn work_on(rt: &HostRuntime, work: Work, path: &str) -> io::Result<()> {
    let bytes = fs::read(rt, path)?;
    match work {
        Work::Read => read_again(rt, path, &bytes),
        Work::Run => run(rt, path, &bytes),
        Work::Areas => print_areas(rt, path, &bytes),
        Work::Sweep => sweep(rt, path, &bytes),
        Work::Restarts => print_restarts(rt, path, &bytes),
        Work::Audit => audit(rt, path, &bytes),
        Work::Examine => print_audit(rt, &bytes),
    }
}

fn printed(alloc: Global, is_tape: bool, bytes: &[u8]) -> Result<Vec<u8>, Refusal>
    // What is read is printed so.
    ensures { IfOk result (λ text. text.items ≡ bytes.now) }
{
    if is_tape {
        Ok(Tape::parse(alloc, bytes)?.text(alloc)?)
    } else {
        Ok(Schedule::parse(alloc, bytes)?.text(alloc)?)
    }
}

fn read_again(rt: &HostRuntime, path: &str, bytes: &[u8]) -> io::Result<()> {
    match printed(rt.alloc(), path.ends_with(".tape"), bytes) {
        Ok(text) if text.as_slice() == bytes => { println!(rt; "{path} printed as it was read") }
        Ok(_) => println!(rt; "{path} printed otherwise"),
        Err(refusal) => println!(rt; "{path} {refusal}"),
    }
}

fn run(rt: &HostRuntime, path: &str, bytes: &[u8]) -> io::Result<()> {
    match report_on(rt.alloc(), bytes, &mut Counted::new(rt.stdout())) {
        Ok(report) => {
            println!(rt; "{path} run")?;
            rt.stdout().write_all(&report)
        }
        Err(refusal) => println!(rt; "{path} {refusal}"),
    }
}

/// The bytes of both areas of node 0 behind the schedule of these bytes.
fn areas_after(alloc: Global, bytes: &[u8]) -> Result<[Vec<u8>; 2], Refusal> {
    areas_behind(alloc, &Schedule::parse(alloc, bytes)?)
}

fn print_areas(rt: &HostRuntime, path: &str, bytes: &[u8]) -> io::Result<()> {
    match areas_after(rt.alloc(), bytes) {
        Ok(areas) => {
            for area in &areas {
                println!(rt; "{path} area of {} bytes", area.len())?;
                for byte in area {
                    println!(rt; "{byte:02X}")?;
                }
            }
            Ok(())
        }
        Err(refusal) => println!(rt; "{path} {refusal}"),
    }
}

/// The sweep of the schedule of these bytes, with the words of seed 0.
fn sweep_text(alloc: Global, bytes: &[u8]) -> Result<Vec<u8>, Refusal> {
    let schedule = Schedule::parse(alloc, bytes)?;
    let lines = rr_sim::sweep(alloc, schedule.nodes().count(), &schedule, 0)?;
    let mut text = Vec::new(alloc);
    push_sweep_lines(&mut text, lines.as_slice())?;
    Ok(text)
}

fn print_restarts(rt: &HostRuntime, path: &str, bytes: &[u8]) -> io::Result<()> {
    match sweep_text(rt.alloc(), bytes) {
        Ok(text) => {
            println!(rt; "{path} swept")?;
            rt.stdout().write_all(&text)
        }
        Err(refusal) => println!(rt; "{path} {refusal}"),
    }
}

fn audit(rt: &HostRuntime, path: &str, bytes: &[u8]) -> io::Result<()> {
    println!(rt; "{path} audited")?;
    match audit_on(rt.alloc(), bytes, &mut Counted::new(rt.stdout())) {
        Ok(Verdict::Yes(count)) => println!(rt; "audit yes {count}"),
        Ok(Verdict::No(number, _, _)) => {
            print_refusal(&mut rt.stdout(), &Refusal::AuditNo(number))
        }
        Err(refusal) => print_refusal(&mut rt.stdout(), &refusal),
    }
}

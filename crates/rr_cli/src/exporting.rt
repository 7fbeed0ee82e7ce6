//! `rr export`: what the folders of a cluster have decided, as a script or as a list, or as JSON.

ghost use Rattle.std.specs.Prelude.{◌≡◌, ◌≤◌, ◌++◌, false, length, option_map, IfOk, IfSome, OnOk};
ghost use Rattle.std.specs.List.{AllByRecursion, flat_map};
ghost use Rattle.std.specs.Io.KnownBytes.{Keeps};
ghost use Rattle.rr_types.specs.declared.refusal.Refusal.TheVariants.{OutOfMemory};
ghost use Rattle.rr_types.specs.Limits.{max_nodes};
ghost use Rattle.rr_folders.specs.Judged.{MayStartWithout};
ghost use Rattle.rr_cli.specs.Ends.{EndsOnExport, EndsOnUsed, EndsOnDir};
ghost use Rattle.rr_cli.specs.Clusters.{AreRead, HoldsNothing, name_object, claim_object, left_status, IsExportOf};
ghost use Rattle.rr_folders.specs.Agreement.{AllAlike, longest_decided};

use crate::folder_faults::{end_by_unlocked, end_without_such};
use crate::folders::{end_without_dir, print_folder_faults, read_sifted};
use crate::refusals::end_by_refusal;
use crate::streams::end_by_text;
use crate::verification::unlike;
use rr_folders::{
    Lockable, Reading, Sifted, decided_text, export, longest_decided, use_readings, verify,
};
use rr_json::{
    push_decided_objects, push_end, push_number_member, push_open, push_text_member,
    push_words_member,
};
use rr_stream::Sink;
use rr_text::ScriptLine;
use rr_types::{Command, Name, Nodes, Op, Refusal, Value};
use rr_words::Exported;
use std::alloc::{AllocError, Global};
use std::io;
use std::io::Write;
use std::os::unix::fs::FileExt;
use std::rt::Files;

// The registry of a decided list as the text of a script.
fn script_of(alloc: Global, decided: &[Command]) -> Result<Vec<u8>, AllocError>
    ensures text { IfOk result (λ v. IsExportOf Exported.Claims decided.now v.items) }
{
    let Ok(nodes) = Nodes::new(1) else {
        unreachable!();
    };
    match export(alloc, nodes, decided) {
        Ok(script) => script.text(alloc),
        Err(refusal) => Err(refusal),
    }
}

// Appends a name, its owner and its value, as an object.
fn push_name(out: &mut Vec<u8>, name: &Name, owner: u32, value: &Value) -> Result<(), AllocError>
    ensures ok { OnOk result (out.new.items ≡ out.old.items ++ name_object name.now owner value.now) }
{
    push_open(out, b"bound")?;
    push_text_member(out, b"name", name.as_bytes())?;
    push_number_member(out, b"owner", u64::from(owner))?;
    push_words_member(out, b"value", value.as_bytes())?;
    push_end(out)
}

// Appends what a line of a script claims, as an object.
fn push_claim(out: &mut Vec<u8>, line: &ScriptLine) -> Result<(), AllocError>
    ensures ok { OnOk result (out.new.items ≡ out.old.items ++ claim_object line.now) }
{
    match line {
        ScriptLine::Submit { command, .. } => match &command.op {
            Op::Claim(name, value) => push_name(out, name, command.request.client, value),
            _ => Ok(()),
        },
        ScriptLine::Look { .. } => Ok(()),
    }
}

// Appends what the lines of a script claim, an object each.
fn push_claims(out: &mut Vec<u8>, lines: &[ScriptLine]) -> Result<(), AllocError>
    ensures ok { OnOk result (out.new.items ≡ out.old.items ++ flat_map claim_object lines.now) }
{
    for line in lines {
        push_claim(out, line)?;
    }
    Ok(())
}

// The names of the registry of a decided list, an object each.
fn names_of(alloc: Global, decided: &[Command]) -> Result<Vec<u8>, AllocError>
    ensures text { IfOk result (λ v. IsExportOf Exported.Names decided.now v.items) }
{
    let Ok(nodes) = Nodes::new(1) else {
        unreachable!();
    };
    let script = export(alloc, nodes, decided)?;
    let mut text = Vec::new(alloc);
    push_claims(&mut text, script.lines())?;
    Ok(text)
}

// A decided list, an object for each command.
fn commands_of(alloc: Global, decided: &[Command]) -> Result<Vec<u8>, AllocError>
    ensures text { IfOk result (λ v. IsExportOf Exported.Commands decided.now v.items) }
{
    let mut text = Vec::new(alloc);
    push_decided_objects(&mut text, decided)?;
    Ok(text)
}

// A decided list, or its registry, as it is exported.
fn text_of(alloc: Global, what: Exported, decided: &[Command]) -> Result<Vec<u8>, AllocError>
    ensures text { IfOk result (λ v. IsExportOf what decided.now v.items) }
{
    match what {
        Exported::Claims => script_of(alloc, decided),
        Exported::List => decided_text(alloc, decided),
        Exported::Names => names_of(alloc, decided),
        Exported::Commands => commands_of(alloc, decided),
    }
}

// The refusal of the first folder, where no folder holds facts and the first is refused.
fn first_refusal(readings: &[Reading]) -> Option<&Refusal>
    ensures { IfSome result (λ refusal. AllByRecursion HoldsNothing readings.now) }
{
    for reading in readings {
        match reading {
            Reading::Facts(_) => return None,
            Reading::Blank => (),
            Reading::Refused(_) => (),
        }
    }
    match readings.first() {
        Some(Reading::Refused(refusal)) => Some(refusal),
        _ => None,
    }
}

// The export of the longest list that folders have decided.
fn export_text(alloc: Global, what: Exported, readings: &[Reading]) -> Result<Vec<u8>, AllocError>
    ensures text { IfOk result (λ v. IsExportOf what (longest_decided readings.now) v.items) }
{
    match longest_decided(alloc, readings) {
        Ok(decided) => text_of(alloc, what, decided.as_slice()),
        Err(wanting) => Err(wanting),
    }
}

// Prints it. They decide no instance differently.
fn print_export<O: Sink, E: Write>(
    alloc: Global,
    what: Exported,
    readings: &[Reading],
    out: &mut O,
    err: &mut E,
) -> u8
    requires { AllAlike readings.now }
    ensures ends { EndsOnUsed what readings.now result (O.printing out.old) (O.printing out.new) }
    ensures quiet { result ≡ 0 → Keeps (E.contents err.old) (E.contents err.new) }
{
    match export_text(alloc, what, readings) {
        Ok(text) => end_by_text(out, err, text.as_slice()),
        Err(_) => end_by_refusal(err, &Refusal::OutOfMemory),
    }
}

// Exports what folders have decided that are used.
fn export_readings<R: Files + AllocGlobal, O: Sink, E: Write>(
    rt: &R,
    dir: &str,
    what: Exported,
    readings: &[Reading],
    out: &mut O,
    err: &mut E,
) -> u8
where
    R::File: FileExt,
    ensures ends { EndsOnUsed what readings.now result (O.printing out.old) (O.printing out.new) }
    ensures quiet { result ≡ 0 → Keeps (E.contents err.old) (E.contents err.new) }
{
    if let Some(refusal) = first_refusal(readings) {
        let ending = end_by_refusal(err, refusal);
        let _ = print_folder_faults(rt, err, dir, readings);
        return ending;
    }
    match verify(rt.alloc(), readings) {
        Ok(verdict) => {
            if verdict.clashes.len() == 0 {
                print_export(rt.alloc(), what, readings, out, err)
            } else {
                end_by_clash(err, dir)
            }
        }
        Err(_) => end_by_refusal(err, &Refusal::OutOfMemory),
    }
}

// Ends because two folders decide an instance differently.
fn end_by_clash<E: Write>(err: &mut E, dir: &str) -> u8
    ensures { result ≡ 4 }
{
    let _ = writeln!(
        err,
        "rr: export: the folders in {dir} decide an instance differently: see rr verify {dir}"
    );
    4
}

// The status of an export, by whether a folder that holds facts wasn't used.
fn left_status(is_told: bool, ending: u8) -> u8
    ensures { result ≡ left_status is_told ending }
{
    if is_told { unlike(ending) } else { ending }
}

// Tells people which folders aren't used, a line each, behind a first one.
fn tell_unused<E: Write>(err: &mut E, dir: &str, sifted: &Sifted) -> io::Result<()> {
    writeln!(
        err,
        "rr: export: it is of the other folders in {dir}, as a start would refuse these:"
    )?;
    sifted.print(err, dir)
}

// Ends because folders aren't to be used, and the others are too few.
fn end_by_unused<E: Write>(err: &mut E, dir: &str, sifted: &Sifted) -> u8
    ensures { result ≡ 5 }
{
    let ending = end_by_refusal(err, &Refusal::Device);
    let _ = sifted.print(err, dir);
    ending
}

// Exports what folders have decided that were read, but those that a start would refuse.
#[tactic(auto, using(crate::proofs::FolderLemmas::left_well))]
fn export_sifted<R: Files + AllocGlobal, O: Sink, E: Write>(
    rt: &R,
    dir: &str,
    what: Exported,
    readings: Vec<Reading>,
    sifted: &Sifted,
    out: &mut O,
    err: &mut E,
) -> u8
where
    R::File: FileExt,
    requires read { AreRead readings.items }
    requires few { length readings.items ≤ max_nodes }
    requires sifted { sifted.now.refused ≡ false → MayStartWithout (length readings.items) sifted.now.without }
    ensures ends { EndsOnExport what result (O.printing out.old) (O.printing out.new) }
    ensures quiet { result ≡ 0 → Keeps (E.contents err.old) (E.contents err.new) }
{
    let mut readings = readings;
    let Some(is_told) = use_readings(sifted, readings.as_mut_slice()) else {
        return end_by_unused(err, dir, sifted);
    };
    let ending = export_readings(rt, dir, what, readings.as_slice(), out, err);
    if is_told {
        let _ = tell_unused(err, dir, sifted);
    }
    left_status(is_told, ending)
}

/// Exports what the folders have decided in the folder that the word `dir` names: the registry of the longest decided list
/// as a script, or the list, or one of them as JSON. The status is 4 where two folders decide an instance differently, or where a folder that
/// holds facts isn't used, as a start would refuse it.
pub(crate) fn export_by_word<R: Files + AllocGlobal, O: Sink, E: Write>(
    rt: &R,
    dir: Option<&str>,
    what: Exported,
    out: &mut O,
    err: &mut E,
) -> u8
where
    R::File: FileExt + Lockable,
    ensures ends { EndsOnDir (EndsOnExport what) (option_map (λ s. s.now) dir.entry) result (O.printing out.old) (O.printing out.new) }
    ensures quiet { result ≡ 0 → Keeps (E.contents err.old) (E.contents err.new) }
{
    let Some(dir) = dir else {
        return end_without_dir(err, "export");
    };
    if let Some(ending) = end_without_such(rt, err, dir) {
        return ending;
    }
    match read_sifted(rt, dir) {
        Ok((readings, sifted)) => export_sifted(rt, dir, what, readings, &sifted, out, err),
        Err(closed) => end_by_unlocked(err, &closed),
    }
}

//! What is printed of the folders of a cluster.

ghost use Rattle.std.specs.Prelude.{◌≡◌, ◌++◌, OnOk, IfOk};
ghost use Rattle.std.specs.List.{flat_map};
ghost use Rattle.rr_types.specs.Refusal.{refusal_text};
ghost use Rattle.rr_text.specs.Words.{spaced};
ghost use Rattle.rr_text.specs.ReportTexts.{command_words};
ghost use Rattle.rr_folders.specs.Texts.{command_field, folder_fields, reading_line, reading_lines, clash_fields, clash_line, verdict_line, verdict_text};

use crate::decided::decided_count;
use crate::fields::{Form, push_close, push_number_field, push_open, push_text_field};
use crate::verdict::{Clash, Verdict};
use crate::verify_folder::{Folder, Reading};
use rr_text::text_word::{push_byte, push_bytes, push_number, push_number_word, push_op};
use rr_types::{Command, INSTANCES, Op, Refusal, made_of};
use std::alloc::{AllocError, Global};

// A refusal as a text: its name and its numbers.
fn refusal_text(alloc: Global, refusal: &Refusal) -> Result<Vec<u8>, AllocError>
    ensures ok { IfOk result (λ v. v.items ≡ refusal_text refusal.now) }
{
    let mut text = Vec::new(alloc);
    push_bytes(&mut text, refusal.name().as_bytes())?;
    match refusal {
        Refusal::Damaged { area, offset } => {
            push_number_word(&mut text, u64::from(*area))?;
            push_number_word(&mut text, *offset)?;
        }
        Refusal::Malformed(offset) => push_number_word(&mut text, *offset)?,
        Refusal::BadEvent(line) => push_number_word(&mut text, *line)?,
        Refusal::AuditNo(index) => push_number_word(&mut text, *index)?,
        _ => (),
    }
    Ok(text)
}

// A command as a report has it.
fn command_text(alloc: Global, command: &Command) -> Result<Vec<u8>, AllocError>
    ensures ok { IfOk result (λ v. v.items ≡ spaced (command_words command.now)) }
{
    let mut text = Vec::new(alloc);
    push_number(&mut text, u64::from(command.request.client))?;
    push_byte(&mut text, b'.')?;
    push_number(&mut text, command.request.seq)?;
    push_op(&mut text, &command.op)?;
    Ok(text)
}

// What a folder holds.
fn push_folder(
    out: &mut Vec<u8>,
    form: Form,
    place: usize,
    folder: &Folder,
) -> Result<(), AllocError>
    ensures ok { OnOk result (out.new.items ≡ out.old.items ++ folder_fields form place folder.now) }
{
    let decided = decided_count(folder.promise.entries()) as u64;
    let left = u64::from(INSTANCES).saturating_sub(decided);
    push_number_field(out, form, b"place", place as u64)?;
    push_number_field(out, form, b"node", u64::from(folder.node.index()))?;
    push_number_field(out, form, b"nodes", u64::from(folder.nodes.count()))?;
    push_number_field(out, form, b"facts", folder.facts)?;
    push_number_field(out, form, b"decided", decided)?;
    push_number_field(out, form, b"left", left)?;
    push_number_field(out, form, b"version", u64::from(folder.version.number()))
}

// The line on the folder at a place.
fn push_reading(
    out: &mut Vec<u8>,
    alloc: Global,
    form: Form,
    place: usize,
    reading: &Reading,
) -> Result<(), AllocError>
    ensures ok { OnOk result (out.new.items ≡ out.old.items ++ reading_line form place reading.now) }
{
    match reading {
        Reading::Facts(folder) => {
            push_open(out, form, b"folder")?;
            push_folder(out, form, place, folder)?;
        }
        Reading::Blank => {
            push_open(out, form, b"blank")?;
            push_number_field(out, form, b"place", place as u64)?;
        }
        Reading::Refused(refusal) => {
            let text = refusal_text(alloc, refusal)?;
            push_open(out, form, b"refused")?;
            push_number_field(out, form, b"place", place as u64)?;
            push_text_field(out, form, b"refusal", text.as_slice())?;
        }
    }
    push_close(out, form)
}

// The lines on all folders.
fn push_readings(
    out: &mut Vec<u8>,
    alloc: Global,
    form: Form,
    readings: &[Reading],
) -> Result<(), AllocError>
    ensures ok { OnOk result (out.new.items ≡ out.old.items ++ reading_lines form 0 readings.now) }
{
    for (place, reading) in readings.iter().enumerate() {
        push_reading(out, alloc, form, place, reading)?;
    }
    Ok(())
}

// A field that is a command.
#[tactic(auto, unfolding(crate::specs::Texts::command_field))]
fn push_command_field(
    out: &mut Vec<u8>,
    alloc: Global,
    form: Form,
    name: &[u8],
    command: &Command,
) -> Result<(), AllocError>
    ensures ok { OnOk result (out.new.items ≡ out.old.items ++ command_field form name.now command.now) }
{
    let text = command_text(alloc, command)?;
    push_text_field(out, form, name, text.as_slice())
}

// An instance that two folders decide differently, with both commands.
fn push_difference(
    out: &mut Vec<u8>,
    alloc: Global,
    form: Form,
    clash: &Clash,
) -> Result<(), AllocError>
    ensures ok { OnOk result (out.new.items ≡ out.old.items ++ clash_fields form clash.now) }
{
    made_of!(Command, Op);
    let instance = u64::from(clash.difference.instance.number());
    push_number_field(out, form, b"instance", instance)?;
    push_number_field(out, form, b"place", clash.place as u64)?;
    push_command_field(out, alloc, form, b"command", &clash.difference.one)?;
    push_number_field(out, form, b"other_place", clash.other_place as u64)?;
    push_command_field(out, alloc, form, b"other_command", &clash.difference.other)
}

// The line on it.
fn push_clash(out: &mut Vec<u8>, alloc: Global, form: Form, clash: &Clash) -> Result<(), AllocError>
    ensures ok { OnOk result (out.new.items ≡ out.old.items ++ clash_line form clash.now) }
{
    push_open(out, form, b"differ")?;
    push_difference(out, alloc, form, clash)?;
    push_close(out, form)
}

// The lines on all these instances.
fn push_clashes(
    out: &mut Vec<u8>,
    alloc: Global,
    form: Form,
    clashes: &[Clash],
) -> Result<(), AllocError>
    ensures ok { OnOk result (out.new.items ≡ out.old.items ++ flat_map (λ c. clash_line form c) clashes.now) }
{
    for clash in clashes {
        push_clash(out, alloc, form, clash)?;
    }
    Ok(())
}

// The line on whether the folders agree.
fn push_agreement(out: &mut Vec<u8>, form: Form, agree: bool) -> Result<(), AllocError>
    ensures ok { OnOk result (out.new.items ≡ out.old.items ++ verdict_line form agree) }
{
    if agree {
        push_open(out, form, b"agree")?;
    } else {
        push_open(out, form, b"disagree")?;
    }
    push_close(out, form)
}

/// What is printed of folders that were read and of their verdict: a line for each folder, one for each two that decide
/// an instance differently, and whether they agree.
///
/// # Errors
/// `OutOfMemory`.
pub fn verdict_text(
    alloc: Global,
    form: Form,
    readings: &[Reading],
    verdict: &Verdict,
) -> Result<Vec<u8>, AllocError>
    ensures ok { IfOk result (λ v. v.items ≡ verdict_text form readings.now verdict.now.clashes.items verdict.now.agree) }
{
    let mut out = Vec::new(alloc);
    push_readings(&mut out, alloc, form, readings)?;
    push_clashes(&mut out, alloc, form, verdict.clashes.as_slice())?;
    push_agreement(&mut out, form, verdict.agree)?;
    Ok(out)
}

//! `rr verify`: whether the folders of a cluster agree.

ghost use Rattle.std.specs.Prelude.{◌≡◌, ◌↔◌, true, false, length, option_map, IfOk};
ghost use Rattle.std.specs.Io.KnownBytes.{Keeps};
ghost use Rattle.rr_folders.specs.Judged.{MayStart};
ghost use Rattle.rr_folders.specs.Agreement.{Agree, HaveOneList, clashes_from};
ghost use Rattle.rr_cli.specs.Ends.{EndsOnVerification, EndsOnVerified, EndsOnDir};
ghost use Rattle.rr_cli.specs.Clusters.{AreRead, form_in, unlike};

use crate::folder_faults::{end_by_unlocked, end_without_such};
use crate::folders::{end_without_dir, print_folder_faults, read_judged};
use crate::refusals::end_by_refusal;
use crate::streams::end_by_text;
use rr_folders::{Judged, Lockable, Reading, Verdict, verdict_text, verify};
use rr_stream::Sink;
use rr_types::Refusal;
use rr_words::Form;
use std::alloc::{AllocError, Global};
use std::io;
use std::io::Write;
use std::os::unix::fs::FileExt;
use std::rt::Files;

// How the form of the words is that of the fields.
fn form_in(form: Form) -> rr_folders::Form
    ensures { result ≡ form_in form }
{
    match form {
        Form::Plain => rr_folders::Form::Words,
        Form::Json => rr_folders::Form::Json,
    }
}

/// The status of folders that don't agree, or of which some aren't used, by that of the printing.
pub(crate) fn unlike(printing: u8) -> u8
    ensures { result ≡ unlike printing }
{
    if printing == 0 { 4 } else { printing }
}

// The verdict on folders that were read, over which a start would be refused or not: they agree only if it wouldn't.
fn verdict_of(alloc: Global, readings: &[Reading], judged: &Judged) -> Result<Verdict, AllocError>
    ensures agree { IfOk result (λ v. (v.agree ≡ true) ↔ (Agree readings.now × (judged.now ≡ false))) }
    ensures one_list { IfOk result (λ v. v.agree ≡ true → HaveOneList readings.now) }
    ensures clashes { IfOk result (λ v. v.clashes.items ≡ clashes_from 0 readings.now) }
{
    let Verdict { agree, clashes } = verify(alloc, readings)?;
    let agree = agree && !judged.is_refused();
    Ok(Verdict { agree, clashes })
}

// Tells people why folders were refused, a line each; where all were read, why a start over them would be.
fn print_reasons<R: Files + AllocGlobal, E: Write>(
    rt: &R,
    err: &mut E,
    dir: &str,
    readings: &[Reading],
    judged: &Judged,
) -> io::Result<()> {
    if readings
        .iter()
        .all(|reading| matches!(reading, Reading::Facts(_)))
    {
        judged.print(err, dir)
    } else {
        print_folder_faults(rt, err, dir, readings)
    }
}

// Verifies folders that were read, and prints what came of it.
fn verify_readings<R: Files + AllocGlobal, O: Sink, E: Write>(
    rt: &R,
    dir: &str,
    form: Form,
    readings: &[Reading],
    judged: &Judged,
    out: &mut O,
    err: &mut E,
) -> u8
where
    R::File: FileExt,
    requires read { AreRead readings.now }
    requires judged { judged.now ≡ false → MayStart (length readings.now) }
    ensures ends { EndsOnVerification form judged.now result (O.printing out.old) (O.printing out.new) }
    ensures quiet { result ≡ 0 → Keeps (E.contents err.old) (E.contents err.new) }
{
    let verdict = match verdict_of(rt.alloc(), readings, judged) {
        Ok(verdict) => verdict,
        Err(_) => return end_by_refusal(err, &Refusal::OutOfMemory),
    };
    match verdict_text(rt.alloc(), form_in(form), readings, &verdict) {
        Ok(text) => {
            let printing = end_by_text(out, err, text.as_slice());
            if verdict.agree {
                return printing;
            }
            let _ = print_reasons(rt, err, dir, readings, judged);
            unlike(printing)
        }
        Err(_) => end_by_refusal(err, &Refusal::OutOfMemory),
    }
}

/// Verifies the folders in the folder that the word `dir` names, and prints what they hold and whether they agree. The
/// status is 4 where they don't.
pub(crate) fn verify_by_word<R: Files + AllocGlobal, O: Sink, E: Write>(
    rt: &R,
    dir: Option<&str>,
    form: Form,
    out: &mut O,
    err: &mut E,
) -> u8
where
    R::File: FileExt + Lockable,
    ensures ends { EndsOnDir (EndsOnVerified form) (option_map (λ s. s.now) dir.entry) result (O.printing out.old) (O.printing out.new) }
    ensures quiet { result ≡ 0 → Keeps (E.contents err.old) (E.contents err.new) }
{
    let Some(dir) = dir else {
        return end_without_dir(err, "verify");
    };
    if let Some(ending) = end_without_such(rt, err, dir) {
        return ending;
    }
    match read_judged(rt, dir) {
        Ok((readings, judged)) => {
            verify_readings(rt, dir, form, readings.as_slice(), &judged, out, err)
        }
        Err(closed) => end_by_unlocked(err, &closed),
    }
}

//! What standard error gets of request numbers that were used for other commands.

ghost use Rattle.std.specs.Prelude.{◌≡◌, ◌++◌, true, OnOk};
ghost use Rattle.std.specs.List.{flat_map};
ghost use Rattle.rr_threads.specs.Reusing.{are_reused};
ghost use Rattle.rr_run.specs.Telling.{reused_line, TellsReused};

use crate::fronts::write_front;
use rr_shell::push_used_text;
use rr_text::ScriptLine;
use rr_text::text_word::{push_byte, push_bytes};
use rr_threads::Reused;
use std::alloc::{AllocError, Global};
use std::io::Write;

// Appends a line for each.
fn push_reused(out: &mut Vec<u8>, reused: &[Reused]) -> Result<(), AllocError>
    ensures ok { OnOk result (out.new.items ≡ out.old.items ++ flat_map reused_line reused.now) }
{
    for one in reused {
        push_bytes(out, b"rr: ")?;
        push_used_text(out, &one.command)?;
        push_byte(out, b'\n')?;
    }
    Ok(())
}

/// Tells of request numbers of these lines that were used for other commands, a line each. Where memory or the stream fails,
/// people aren't told.
pub(crate) fn tell_reused<E: Write>(
    alloc: Global,
    err: &mut E,
    lines: &[ScriptLine],
    reused: &[Reused],
)
    ensures { are_reused lines.now reused.now ≡ true → TellsReused lines.now (E.contents err.old) (E.contents err.new) }
{
    let mut text = Vec::new(alloc);
    match push_reused(&mut text, reused) {
        Ok(()) => write_front(err, text.as_slice()),
        Err(_) => {}
    }
}

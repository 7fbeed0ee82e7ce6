//! What standard error gets where a new registry begins.

ghost use Rattle.std.specs.Prelude.{◌≡◌, ◌++◌, true, false, OnOk, option_map};
ghost use Rattle.std.specs.Io.KnownBytes.{Keeps};
ghost use Rattle.rr_run.specs.Fronts.{GrowsByFront};
ghost use Rattle.rr_run.specs.Telling.{folder_of, new_line};

use crate::fronts::write_front;
use rr_text::text_word::{push_byte, push_bytes, push_number};
use rr_types::Nodes;
use std::alloc::{AllocError, Global};
use std::io::Write;

/// The folder of a shell that names none.
pub(crate) const FOLDER: &str = "rr-data";

/// The folder of a shell, by a word.
pub(crate) fn folder_of<'a>(word: Option<&'a str>) -> &'a str
    ensures { result.now ≡ folder_of (option_map (λ s. s.now) word.entry) }
{
    match word {
        Some(dir) => dir,
        None => FOLDER,
    }
}

// Appends the line that a new registry begins.
fn push_new(out: &mut Vec<u8>, dir: &str, nodes: Nodes) -> Result<(), AllocError>
    ensures ok { OnOk result (out.new.items ≡ out.old.items ++ new_line dir.now nodes) }
{
    push_bytes(out, b"rr: ")?;
    push_bytes(out, dir.as_bytes())?;
    push_bytes(out, b": a new registry, with --nodes ")?;
    push_number(out, u64::from(nodes.count()))?;
    push_byte(out, b'\n')
}

/// Tells that a new registry of so many nodes begins in a folder, if one does. Where memory or the stream fails, people aren't told.
pub(crate) fn tell_if_new<E: Write>(
    alloc: Global,
    err: &mut E,
    begins: bool,
    dir: &str,
    nodes: Nodes,
)
    ensures goes_on { begins ≡ false → Keeps (E.contents err.old) (E.contents err.new) }
    ensures new { begins ≡ true → GrowsByFront (E.contents err.old) (E.contents err.new) (new_line dir.now nodes) }
{
    if begins {
        tell_new(alloc, err, dir, nodes);
    }
}

// Tells that a new registry begins.
#[tactic(auto, using(crate::proofs::ToldLemmas::nothing_yet))]
fn tell_new<E: Write>(alloc: Global, err: &mut E, dir: &str, nodes: Nodes)
    ensures { GrowsByFront (E.contents err.old) (E.contents err.new) (new_line dir.now nodes) }
{
    let mut text = Vec::new(alloc);
    match push_new(&mut text, dir, nodes) {
        Ok(()) => write_front(err, text.as_slice()),
        Err(_) => {}
    }
}

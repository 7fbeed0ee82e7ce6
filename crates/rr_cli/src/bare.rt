//! Pictures in which a cut has left no event.

ghost use Rattle.std.specs.Prelude.{◌≡◌};
ghost use Rattle.std.specs.Io.KnownBytes.{Keeps};
ghost use Rattle.rr_cli.specs.Cuts.{has_event, is_whole, shows_nothing};
ghost use Rattle.rr_cli.specs.Ends.{PrintsCut};

use crate::streams::end_by_text;
use rr_draw::Cut;
use rr_stream::Sink;
use rr_text::text_parse::first_line;
use std::io;
use std::io::Write;

// With what the element of an event begins.
const EVENT_MARK: &[u8] = b"<g><title>line ";

// Whether a picture has an event.
fn has_event(text: &[u8]) -> bool
    ensures { result ≡ has_event text.now }
{
    let mut rest = text;
    while let [_, behind @ ..] = rest {
        if rest.starts_with(EVENT_MARK) {
            return true;
        }
        rest = behind;
    }
    false
}

// Whether a cut leaves out no line, no node and no instance.
fn is_whole(cut: &Cut) -> bool
    ensures { result ≡ is_whole cut.now }
{
    cut.from == 1 && cut.to == u64::MAX && cut.node.is_none() && cut.instance.is_none()
}

// Whether a cut that leaves something out has left no event in a picture.
fn shows_nothing(cut: &Cut, text: &[u8]) -> bool
    ensures { result ≡ shows_nothing cut.now text.now }
{
    !is_whole(cut) && !has_event(text)
}

// Tells people what there is none of in the text of a run.
fn print_lack<E: Write>(err: &mut E, cut: &Cut, bytes: &[u8]) -> io::Result<()> {
    let lines = bytes.iter().filter(|byte| **byte == b'\n').count() as u64;
    if cut.from > lines {
        return writeln!(
            err,
            "rr: draw: there is no line {}: the last is {lines}",
            cut.from
        );
    }
    if let (Some(node), Ok((nodes, _))) = (cut.node, first_line(bytes)) {
        let (node, count) = (node.index(), nodes.count());
        if node >= count {
            return writeln!(
                err,
                "rr: draw: there is no node {node}: the number of nodes is {count}"
            );
        }
    }
    match cut.instance {
        Some(instance) => {
            let number = instance.number();
            writeln!(
                err,
                "rr: draw: no event in this part of the run is of instance {number}"
            )
        }
        None => writeln!(err, "rr: draw: there is no event in this part of the run"),
    }
}

/// Prints the picture of these bytes by a cut, or a page with it. Where the cut has left no event in it, it isn't printed, and people
/// are told what there is none of.
pub(crate) fn end_by_cut<O: Sink, E: Write>(
    cut: &Cut,
    bytes: &[u8],
    text: &[u8],
    out: &mut O,
    err: &mut E,
) -> u8
    ensures ends { PrintsCut cut.now text.now result (O.printing out.old) (O.printing out.new) }
    ensures quiet { result ≡ 0 → Keeps (E.contents err.old) (E.contents err.new) }
{
    if shows_nothing(cut, text) {
        let _ = print_lack(err, cut, bytes);
        return 2;
    }
    end_by_text(out, err, text)
}

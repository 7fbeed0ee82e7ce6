//! The arrows of the messages that are heard.

ghost use Rattle.std.specs.Prelude.{◌≡◌, ◌++◌, ◌∷◌, ◌-◌, ◌==◌, if◌then◌else◌, codes, OnOk, IfOk};
ghost use Rattle.rr_draw.specs.Fates.{place, end_text, line_ends, bow_ends, arrow_front, arrow, IsArrow};

use crate::fate::Fate;
use crate::glyphs::class_of;
use crate::lane::x_of;
use rr_text::text_word::{push_byte, push_bytes, push_number};
use rr_types::{MessageKind, NodeId};
use std::alloc::{AllocError, Global};

/// The ends of an arrow: the node that has sent the message and the one that hears it, and how far down.
#[derive(Clone, Copy)]
pub(crate) struct Ends {
    pub(crate) from: NodeId,
    pub(crate) to: NodeId,
    pub(crate) sent_at: u64,
    pub(crate) heard_at: u64,
}

// Appends a place: how far from the left, and how far down.
fn push_place(out: &mut Vec<u8>, x: u64, y: u64) -> Result<(), AllocError>
    ensures { OnOk result (out.new.items ≡ out.old.items ++ place x y) }
{
    push_number(out, x)?;
    push_byte(out, b' ')?;
    push_number(out, y)
}

// Appends an end of a line, with what stands before its two numbers.
fn push_end(out: &mut Vec<u8>, of_x: &[u8], x: u64, of_y: &[u8], y: u64) -> Result<(), AllocError>
    ensures { OnOk result (out.new.items ≡ out.old.items ++ end_text of_x.now x of_y.now y) }
{
    push_bytes(out, of_x)?;
    push_number(out, x)?;
    push_bytes(out, of_y)?;
    push_number(out, y)
}

// Appends the ends of an arrow from one line to another, and its head.
fn push_line_ends(out: &mut Vec<u8>, x1: u64, y1: u64, x2: u64, y2: u64) -> Result<(), AllocError>
    ensures { OnOk result (out.new.items ≡ out.old.items ++ line_ends x1 y1 x2 y2) }
{
    push_end(out, b" marker-end=\"url(#m)\" x1=\"", x1, b"\" y1=\"", y1)?;
    push_end(out, b"\" x2=\"", x2, b"\" y2=\"", y2)?;
    push_bytes(out, b"\"/>")?;
    Ok(())
}

// Appends a corner of a bow, behind these bytes.
fn push_corner(out: &mut Vec<u8>, before: &[u8], x: u64, y: u64) -> Result<(), AllocError>
    ensures { OnOk result (out.new.items ≡ out.old.items ++ (before.now ++ place x y)) }
{
    push_bytes(out, before)?;
    push_place(out, x, y)
}

// Appends the ends of an arrow from a line to itself, which makes a bow to the left, and its head.
fn push_bow_ends(out: &mut Vec<u8>, x: u64, y1: u64, y2: u64) -> Result<(), AllocError>
    ensures { OnOk result (out.new.items ≡ out.old.items ++ bow_ends x y1 y2) }
{
    let bow = x.saturating_sub(22);
    push_corner(out, b" marker-end=\"url(#m)\" d=\"M", x, y1)?;
    push_corner(out, b"C", bow, y1)?;
    push_corner(out, b" ", bow, y2)?;
    push_corner(out, b" ", x, y2)?;
    push_bytes(out, b"\"/>")?;
    Ok(())
}

// Appends how the text of an arrow begins: from a line to itself it is a path, and else a line.
fn push_shape(out: &mut Vec<u8>, to_itself: bool) -> Result<(), AllocError>
    ensures { OnOk result (out.new.items ≡ out.old.items ++ (if to_itself then codes "<path" else codes "<line")) }
{
    if to_itself {
        push_bytes(out, b"<path")
    } else {
        push_bytes(out, b"<line")
    }
}

// Appends what an arrow begins with.
fn push_front(
    out: &mut Vec<u8>,
    to_itself: bool,
    kind: MessageKind,
    fate: Fate,
) -> Result<(), AllocError>
    ensures { OnOk result (out.new.items ≡ out.old.items ++ arrow_front to_itself kind fate) }
{
    push_shape(out, to_itself)?;
    push_bytes(out, b" class=\"")?;
    push_bytes(out, class_of(kind).as_bytes())?;
    push_bytes(out, b" ")?;
    push_bytes(out, fate.class().as_bytes())?;
    push_bytes(out, b"\"")
}

// Appends an arrow with these ends.
fn push_arrow(
    out: &mut Vec<u8>,
    kind: MessageKind,
    fate: Fate,
    ends: &Ends,
) -> Result<(), AllocError>
    ensures { OnOk result (out.new.items ≡ out.old.items ++ arrow ends.now.from ends.now.to kind fate ends.now.sent_at ends.now.heard_at) }
{
    let to_itself = ends.from == ends.to;
    push_front(out, to_itself, kind, fate)?;
    let x = x_of(ends.from);
    if to_itself {
        push_bow_ends(out, x, ends.sent_at, ends.heard_at)
    } else {
        push_line_ends(out, x, ends.sent_at, x_of(ends.to), ends.heard_at)
    }
}

/// The arrow of a message of a kind, with this fate, from its sender's line to its addressee's.
pub(crate) fn arrow_between(
    alloc: Global,
    kind: MessageKind,
    fate: Fate,
    ends: &Ends,
) -> Result<Vec<u8>, AllocError>
    ensures { IfOk result (λ text. IsArrow ends.now.from ends.now.to kind fate text.items) }
{
    let mut text = Vec::new(alloc);
    push_arrow(&mut text, kind, fate, ends)?;
    Ok(text)
}

//! Where two reports differ first.

ghost use Rattle.std.specs.Prelude.{◌≡◌, ◌≢◌, ◌<◌, ◌++◌, [], true, false, length, None, Some, IsSome, IfSome, option_map};
ghost use Rattle.rr_text.specs.Reading.{cut_at};
ghost use Rattle.rr_account.specs.Differences.{first_line, rest_by, DifferIn};

use crate::account::Account;
use rr_explain::print_given;
use rr_text::text_read::cut;
use rr_text::text_schedule::push_event;
use rr_types::Refusal;
use std::io::Write;

/// The first line, from 1, in which two texts differ, as each of them has it. One that has ended has none.
#[derive(Clone, Copy)]
pub struct Difference<'a> {
    pub line: u64,
    pub ours: Option<&'a [u8]>,
    pub theirs: Option<&'a [u8]>,
}

/// Where two texts differ first; none where they are the same.
pub fn difference_of<'a>(ours: &'a [u8], theirs: &'a [u8]) -> Option<Difference<'a>>
    ensures same { result ≡ None → ours.entry.now ≡ theirs.entry.now }
    ensures other { IsSome result → ours.entry.now ≢ theirs.entry.now }
    ensures first { IfSome result (λ d. DifferIn ours.entry.now theirs.entry.now d.line (option_map (λ l. l.now) d.ours) (option_map (λ l. l.now) d.theirs)) }
{
    if ours == theirs {
        None
    } else {
        Some(first_of(ours, theirs))
    }
}

// The first line of a text, with its line feed where it has one, and what stands behind it. A text that has ended has none.
#[tactic(auto, using(rr_text::proofs::CutLemmas::cut_takes))]
fn front<'a>(text: &'a [u8]) -> Option<(&'a [u8], &'a [u8])>
    ensures none { result ≡ None → text.entry.now ≡ [] }
    ensures line { IfSome result (λ x. Some x.0.now ≡ first_line text.entry.now) }
    ensures behind { IfSome result (λ x. x.1.now ≡ rest_by (cut_at 10 text.entry.now)) }
    ensures all { IfSome result (λ x. (text.entry.now ≡ x.0.now ++ x.1.now) × (0 < length x.0.now)) }
{
    if text.is_empty() {
        return None;
    }
    match cut(text, b'\n') {
        Some((line, behind)) => Some((&text[..line.len() + 1], behind)),
        None => Some((text, &text[text.len()..])),
    }
}

// Whether two lines differ.
fn is_other(own: &[u8], other: &[u8]) -> bool
    ensures apart { result ≡ true → own.now ≢ other.now }
    ensures same { result ≡ false → own.now ≡ other.now }
{
    own != other
}

// The first line in which two texts differ.
fn first_of<'a>(ours: &'a [u8], theirs: &'a [u8]) -> Difference<'a>
    requires { ours.now ≢ theirs.now }
    ensures { DifferIn ours.entry.now theirs.entry.now result.line (option_map (λ l. l.now) result.ours) (option_map (λ l. l.now) result.theirs) }
{
    let mut line = 1u64;
    let mut our_rest = ours;
    let mut their_rest = theirs;
    'lines: while let Some((own, own_behind)) = front(our_rest) {
        let Some((other, other_behind)) = front(their_rest) else {
            return Difference {
                line,
                ours: Some(own),
                theirs: None,
            };
        };
        if is_other(own, other) {
            return Difference {
                line,
                ours: Some(own),
                theirs: Some(other),
            };
        }
        our_rest = own_behind;
        their_rest = other_behind;
        line += 1;
    }
    match front(their_rest) {
        Some((other, _)) => Difference {
            line,
            ours: None,
            theirs: Some(other),
        },
        None => Difference {
            line,
            ours: None,
            theirs: None,
        },
    }
}

// Appends bytes that somebody gave. The control bytes among them are shown by their numbers.
fn push_given(text: &mut Vec<u8>, bytes: &[u8]) -> Result<(), Refusal> {
    match print_given(text, bytes) {
        Ok(()) => Ok(()),
        Err(_) => Err(Refusal::OutOfMemory),
    }
}

// Appends a line as one of the texts has it.
fn push_side(text: &mut Vec<u8>, name: &str, side: Option<&[u8]>) -> Result<(), Refusal> {
    text.extend_from_slice(b"  ")?;
    push_given(text, name.as_bytes())?;
    text.extend_from_slice(b": ")?;
    match side {
        None => text.extend_from_slice(b"(the text has ended)\n")?,
        Some(line) => {
            push_given(text, line)?;
            if !line.ends_with(b"\n") {
                text.extend_from_slice(b" (without a line feed)\n")?;
            }
        }
    }
    Ok(())
}

/// Appends in words where the report of an account differs from the text of this name, with the event that the line
/// tells of.
///
/// # Errors
/// `OutOfMemory`.
pub fn push_difference(
    text: &mut Vec<u8>,
    account: &Account,
    name: &str,
    difference: &Difference<'_>,
) -> Result<(), Refusal> {
    let line = difference.line;
    if writeln!(text, "line {line} of the report differs").is_err() {
        return Err(Refusal::OutOfMemory);
    }
    push_side(text, "the run", difference.ours)?;
    push_side(text, name, difference.theirs)?;
    if let Some((at, event)) = account.behind_line(line) {
        if write!(text, "  the event: line {at}: ").is_err() {
            return Err(Refusal::OutOfMemory);
        }
        push_event(text, event)?;
        text.push(b'\n')?;
    }
    Ok(())
}

//! Fields of what is printed, as words of a line or as members of an object of JSON.

ghost use Rattle.std.specs.Prelude.{◌≡◌, ◌++◌, OnOk};
ghost use Rattle.rr_folders.specs.Texts.{opened, closed, named, number_field, text_field};

use rr_json::{push_end, push_number_member, push_words_member};
use rr_text::text_word::{push_byte, push_bytes, push_number};
use std::alloc::AllocError;

/// How something is printed: a line each, of words or as an object of JSON.
#[derive(Clone, Copy, Debug, PartialEq, Eq)]
pub enum Form {
    Words,
    Json,
}

/// Begins a line of this kind.
#[tactic(auto, unfolding(crate::specs::Texts::opened))]
pub(crate) fn push_open(out: &mut Vec<u8>, form: Form, kind: &[u8]) -> Result<(), AllocError>
    ensures ok { OnOk result (out.new.items ≡ out.old.items ++ opened form kind.now) }
{
    match form {
        Form::Words => push_bytes(out, kind),
        Form::Json => rr_json::push_open(out, kind),
    }
}

/// Ends a line.
#[tactic(auto, unfolding(crate::specs::Texts::closed))]
pub(crate) fn push_close(out: &mut Vec<u8>, form: Form) -> Result<(), AllocError>
    ensures ok { OnOk result (out.new.items ≡ out.old.items ++ closed form) }
{
    match form {
        Form::Words => push_byte(out, b'\n'),
        Form::Json => push_end(out),
    }
}

// The name of a field among words.
#[tactic(auto, unfolding(crate::specs::Texts::named))]
fn push_name(out: &mut Vec<u8>, name: &[u8]) -> Result<(), AllocError>
    ensures ok { OnOk result (out.new.items ≡ out.old.items ++ named name.now) }
{
    push_byte(out, b' ')?;
    push_bytes(out, name)?;
    push_byte(out, b' ')
}

/// A field that is a number.
#[tactic(auto, unfolding(crate::specs::Texts::number_field))]
pub(crate) fn push_number_field(
    out: &mut Vec<u8>,
    form: Form,
    name: &[u8],
    number: u64,
) -> Result<(), AllocError>
    ensures ok { OnOk result (out.new.items ≡ out.old.items ++ number_field form name.now number) }
{
    match form {
        Form::Words => {
            push_name(out, name)?;
            push_number(out, number)
        }
        Form::Json => push_number_member(out, name, number),
    }
}

/// A field that is a text.
#[tactic(auto, unfolding(crate::specs::Texts::text_field))]
pub(crate) fn push_text_field(
    out: &mut Vec<u8>,
    form: Form,
    name: &[u8],
    text: &[u8],
) -> Result<(), AllocError>
    ensures ok { OnOk result (out.new.items ≡ out.old.items ++ text_field form name.now text.now) }
{
    match form {
        Form::Words => {
            push_name(out, name)?;
            push_bytes(out, text)
        }
        Form::Json => push_words_member(out, name, text),
    }
}

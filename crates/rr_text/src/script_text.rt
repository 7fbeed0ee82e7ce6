//! Printing scripts.

ghost use Rattle.std.specs.Prelude.{◌≡◌, ◌++◌, OnOk, IfOk};
ghost use Rattle.std.specs.List.{flat_map};
ghost use Rattle.rr_text.specs.Words.{spaced};
ghost use Rattle.rr_text.specs.ScriptTexts.{script_words, script_line, script_text};

use crate::event::Event;
use crate::script::Script;
use crate::script_line::ScriptLine;
use crate::text_schedule::push_event;
use crate::text_word::{push_byte, push_bytes, push_number_word, push_word};
use rr_types::Input;
use std::alloc::{AllocError, Global};

fn push_script_words(out: &mut Vec<u8>, line: &ScriptLine) -> Result<(), AllocError>
    ensures ok { OnOk result (out.new.items ≡ out.old.items ++ spaced (script_words line.now)) }
{
    let line = *line;
    match line {
        ScriptLine::Submit { node, command } => push_event(
            out,
            &Event::told(node, Input::Submit(command)),
        ),
        ScriptLine::Look { node, name } => {
            push_bytes(out, b"look")?;
            push_number_word(out, u64::from(node.index()))?;
            push_word(out, name.as_bytes())
        }
    }
}

fn push_script_line(out: &mut Vec<u8>, line: &ScriptLine) -> Result<(), AllocError>
    ensures ok { OnOk result (out.new.items ≡ out.old.items ++ script_line line.now) }
{
    push_script_words(out, line)?;
    push_byte(out, b'\n')
}

fn push_script_lines(out: &mut Vec<u8>, lines: &[ScriptLine]) -> Result<(), AllocError>
    ensures ok { OnOk result (out.new.items ≡ out.old.items ++ flat_map script_line lines.now) }
{
    for line in lines {
        push_script_line(out, line)?;
    }
    Ok(())
}

impl Script {
    /// The text of the script.
    pub fn text(&self, alloc: Global) -> Result<Vec<u8>, AllocError>
        ensures ok { IfOk result (λ v. v.items ≡ script_text self.now.lines) }
    {
        let mut out = Vec::new(alloc);
        push_script_lines(&mut out, self.lines())?;
        Ok(out)
    }
}

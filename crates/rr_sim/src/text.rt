//! The lines of a sweep as text.

ghost use Rattle.std.specs.Prelude.{◌≡◌, ◌++◌, OnOk};
ghost use Rattle.std.specs.List.{flat_map};
ghost use Rattle.rr_sim.specs.SweepTexts.{sweep_line};

use crate::sweeping::SweepLine;
use rr_text::text_report::push_report_words;
use rr_text::text_word::{push_byte, push_number, push_number_word};
use std::alloc::AllocError;

/// Appends a line of a sweep.
#[tactic(auto, using(crate::proofs::Texts::line_pushed))]
fn push_sweep_line(text: &mut Vec<u8>, line: &SweepLine) -> Result<(), AllocError>
    ensures ok { OnOk result (text.new.items ≡ text.old.items ++ sweep_line line.now) }
{
    push_number(text, line.line)?;
    push_number_word(text, u64::from(line.ending.number()))?;
    push_byte(text, b' ')?;
    push_report_words(text, &line.restart)?;
    push_byte(text, b'\n')
}

/// Appends lines of a sweep: the line of the device call, the number of the ending, and the restart.
pub fn push_sweep_lines(text: &mut Vec<u8>, lines: &[SweepLine]) -> Result<(), AllocError>
    ensures ok { OnOk result (text.new.items ≡ text.old.items ++ flat_map sweep_line lines.now) }
{
    for line in lines {
        push_sweep_line(text, line)?;
    }
    Ok(())
}

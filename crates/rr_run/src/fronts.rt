//! Texts that standard error gets.

ghost use Rattle.std.specs.Prelude.{◌≡◌};
ghost use Rattle.rr_run.specs.Fronts.{GrowsByFront};

use std::io::Write;

/// Writes a text. Where the stream fails it has taken a front of it.
pub(crate) fn write_front<E: Write>(err: &mut E, text: &[u8])
    ensures { GrowsByFront (E.contents err.old) (E.contents err.new) text.now }
{
    let mut rest = text;
    while !rest.is_empty() {
        let Ok(taken) = err.write(rest) else {
            return;
        };
        if taken == 0 {
            return;
        }
        rest = &rest[taken..];
    }
}

//! A law of faulty tapes.

ghost use Rattle.std.specs.Prelude.{◌≡◌, ◌≢◌, ℕ, List};
ghost use Rattle.rr_types.specs.declared.refusal.Refusal.{Refusal};
ghost use Rattle.rr_types.specs.declared.refusal.Refusal.TheVariants.{OutOfMemory};
ghost use Rattle.rr_text.specs.Lines.{IsFault};
ghost use Rattle.rr_text.specs.Taped.{IsTapeEvent};
ghost use Rattle.rr_text.specs.TapeTexts.{tape_line};

/// Memory aside, bytes that are no tape have one fault: the line that reading them names is the only one that
/// it can name.
pub fn one_tape_fault()
    ensures { (bytes : List ℕ) (e f : Refusal) → IsFault IsTapeEvent tape_line bytes e → IsFault IsTapeEvent tape_line bytes f → e ≢ OutOfMemory → f ≢ OutOfMemory → e ≡ f }
{}

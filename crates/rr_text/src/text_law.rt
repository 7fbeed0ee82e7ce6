//! A law of faulty texts.

ghost use Rattle.std.specs.Prelude.{◌≡◌, ◌≢◌, ℕ, List};
ghost use Rattle.rr_types.specs.declared.refusal.Refusal.{Refusal};
ghost use Rattle.rr_types.specs.declared.refusal.Refusal.TheVariants.{OutOfMemory};
ghost use Rattle.rr_text.specs.Lines.{IsFault};
ghost use Rattle.rr_text.specs.Scheduled.{IsEvent};
ghost use Rattle.rr_text.specs.ScheduleTexts.{event_line};

/// Memory aside, bytes have one fault: the line that reading them names is the only one that it can name.
pub fn one_fault()
    ensures { (bytes : List ℕ) (e f : Refusal) → IsFault IsEvent event_line bytes e → IsFault IsEvent event_line bytes f → e ≢ OutOfMemory → f ≢ OutOfMemory → e ≡ f }
{}

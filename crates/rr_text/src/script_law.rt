//! A law of faulty scripts.

ghost use Rattle.std.specs.Prelude.{◌≡◌, ◌≢◌, ◌≤◌, ℕ, List};
ghost use Rattle.rr_types.specs.declared.refusal.Refusal.{Refusal};
ghost use Rattle.rr_types.specs.declared.refusal.Refusal.TheVariants.{OutOfMemory};
ghost use Rattle.rr_text.specs.Faults.{IsScriptFault};

/// Memory aside, bytes that are no script for `n` nodes have only one fault. The line that reading them names is the
/// only one that it can name.
pub fn one_script_fault()
    ensures { (n : ℕ) (bytes : List ℕ) (e f : Refusal) → n ≤ 7 → IsScriptFault n bytes e → IsScriptFault n bytes f → e ≢ OutOfMemory → f ≢ OutOfMemory → e ≡ f }
{}

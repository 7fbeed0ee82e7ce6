//! A node with its disk in the world of the core's theorems.

ghost use Rattle.std.specs.Prelude.{ℕ, ◌≤◌, ◌≢◌, List};
ghost use Rattle.rr_model.specs.Laws.{after_steps};
ghost use Rattle.rr_model.specs.NodeInWorld.{AreStepsAt};
ghost use Rattle.rr_model.specs.World.{World, Step};
ghost use Rattle.rr_node.specs.Runs.{StartsInStep, StepsInStep, FailsInStep, CrashesInStep};
ghost use Rattle.rr_node.specs.Seats.{Seat};
ghost use Rattle.rr_node.specs.Worlds.{EachHoldsSome, InStep};

/// Laws of a node with its disk, of at most 7 nodes. It begins in step with a world in which nothing has happened.
/// Each event, each failing device call and each crash is a run of the world's steps. After it the node is in step
/// again, whether or not memory ran out. What the node sends and tells is what the steps send and tell.
/// At each moment all that a crash may leave of its disk holds the facts that the world keeps of it.
#[tactic(none)]
pub fn laws_of_seats()
    ensures a_new_node_is_in_step { (n p : ℕ) → StartsInStep n p }
    ensures events_are_runs_of_steps { (n p : ℕ) → n ≤ 7 → StepsInStep n p }
    ensures failing_calls_are_runs_of_steps { (n p : ℕ) → FailsInStep n p }
    ensures crashes_are_runs_of_steps { (n p : ℕ) → CrashesInStep n p }
    ensures a_crash_leaves_what_is_kept { (n p : ℕ) (seat : Seat) (w : World) → InStep n p seat w → EachHoldsSome n p w seat.areas }
    ensures steps_elsewhere_keep_it_in_step { (n p q : ℕ) (seat : Seat) (w : World) (steps : List Step) → q ≢ p → AreStepsAt p steps → InStep n q seat w → InStep n q seat (after_steps w steps) }
{}

//! What follows a turn of a flusher or of a publisher.

ghost use Rattle.rr_turn.specs.Asked.{Call, goes_on, rests_aside, fails};
ghost use Rattle.rr_turn.specs.Settles.{settles};

use rr_types::Refusal;

/// What a thread beside a node's loop has of the run: its rest at its bell, and the run's end.
pub trait Course {
    /// That a call may have brought it from one state to another.
    ghost gives: { Self → Call → Self → Type 0 };

    /// A turn has found something to do. So some more turns come before the next rest.
    fn go_on(&mut self)
        ensures { gives self.old goes_on self.new };

    /// Rests until someone rings, or a while; or returns at once.
    fn rest(&mut self)
        ensures { gives self.old rests_aside self.new };

    /// The run ends with this refusal.
    fn fail(&mut self, refusal: Refusal)
        ensures { gives self.old (fails refusal) self.new };
}

/// What follows a turn that has given this: the next, behind a rest where there was nothing to do. A refusal ends the run.
pub fn settle<C: Course>(course: &mut C, turned: Result<bool, Refusal>)
    ensures { C.gives course.old (settles turned) course.new }
{
    match turned {
        Ok(true) => course.go_on(),
        Ok(false) => course.rest(),
        Err(refusal) => course.fail(refusal),
    }
}

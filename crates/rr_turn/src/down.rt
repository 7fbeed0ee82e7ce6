//! A node that is down waits to be started.

ghost use Rattle.rr_turn.specs.Asked.{Call, sees_over, sees_closed, keeps_all, sees_switch, rests_down};
ghost use Rattle.rr_turn.specs.Downs.{StaysDown};

/// What the thread of a node that is down has: of the run, of the node's switch and of its inbox.
pub trait DownEnds {
    /// That a call may have brought them from one state to another.
    ghost gives: { Self → Call → Self → Type 0 };

    /// Whether the run is over.
    fn is_over(&mut self) -> bool
        ensures { gives self.old (sees_over result) self.new };

    /// Whether no node is started any more.
    fn is_closed(&mut self) -> bool
        ensures { gives self.old (sees_closed result) self.new };

    /// Empties the node's inbox. Of what came the last messages are kept that tell how far others are.
    fn keep_all(&mut self)
        ensures { gives self.old keeps_all self.new };

    /// How often the node's switch was moved, where it is on.
    fn moves_if_on(&mut self) -> Option<u64>
        ensures { gives self.old (sees_switch result) self.new };

    /// Rests until a message comes that is worth waking the node, or a while.
    fn rest(&mut self)
        ensures { gives self.old rests_down self.new };
}

/// What comes behind a turn of a node that is down.
#[derive(Clone, Copy, Debug)]
pub enum Next {
    /// The node comes up. Its switch was moved so often.
    Start(u64),
    /// It comes up no more.
    End,
    /// It is down still, and has rested.
    Turn,
}

/// A turn of the thread of a node that is down. It comes up no more where the run is over, or no node is started any more. Else its inbox
/// is emptied, and it comes up if its switch is on, or rests.
pub fn stay_down<E: DownEnds>(ends: &mut E) -> Next
    ensures { StaysDown E.gives result ends.old ends.new }
{
    if ends.is_over() {
        return Next::End;
    }
    if ends.is_closed() {
        return Next::End;
    }
    ends.keep_all();
    match ends.moves_if_on() {
        Some(moves) => Next::Start(moves),
        None => {
            ends.rest();
            Next::Turn
        }
    }
}

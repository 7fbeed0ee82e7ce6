//! Messages owed to many nodes, and the pool's commands by their request numbers.

ghost use Rattle.std.specs.Prelude.{◌≡◌, ◌++◌, [], ◌∷◌, None, not, filter, All, IsTrue, OnOk};
ghost use Rattle.rr_types.specs.Registry.{is_same_request, has_request};
ghost use Rattle.rr_model.specs.NodeParts.{messages_to};
ghost use Rattle.rr_state.specs.Owing.{is_free, IsOwn};
ghost use Rattle.rr_core.specs.Places.{message_to, reached, is_reached};

use rr_state::Owed;
use rr_types::{Body, Command, Message, NodeId, Nodes, RequestNo};
use std::alloc::AllocError;

/// How far a body goes that a node owes.
#[derive(Clone, Copy)]
pub enum Reach {
    /// To every node, itself included.
    Everyone,
    /// To each other node.
    Others,
}

impl Reach {
    /// Whether a body of one node goes to another.
    fn covers(self, from: NodeId, to: NodeId) -> bool
        ensures { result ≡ is_reached self from to }
    {
        match self {
            Reach::Everyone => true,
            Reach::Others => to != from,
        }
    }
}

/// Owes a body to one node.
#[tactic(auto, using(crate::proofs::OweLemmas::own_last))]
pub fn push_to(
    owed: &mut Vec<Owed>,
    from: NodeId,
    to: NodeId,
    body: &Body,
    backing: Option<u128>,
) -> Result<(), AllocError>
    requires before { All (IsOwn from) owed.old.items }
    requires free { backing ≡ None → IsTrue (is_free body.now) }
    ensures ok { OnOk result (owed.new.items ≡ owed.old.items ++ message_to from to body.now backing ∷ []) }
    ensures own { All (IsOwn from) owed.new.items }
{
    let body = *body;
    let message = Message { from, to, body };
    owed.push(Owed { message, backing })?;
    Ok(())
}

/// Owes a body to the nodes that it reaches, ascending.
#[tactic(auto, using(crate::proofs::OweLemmas::reached_none, crate::proofs::OweLemmas::reached_not, crate::proofs::OweLemmas::reached_more))]
pub fn push_to_reached(
    owed: &mut Vec<Owed>,
    nodes: Nodes,
    from: NodeId,
    reach: Reach,
    body: &Body,
    backing: Option<u128>,
) -> Result<(), AllocError>
    requires before { All (IsOwn from) owed.old.items }
    requires free { backing ≡ None → IsTrue (is_free body.now) }
    ensures ok { OnOk result (owed.new.items ≡ owed.old.items ++ messages_to from body.now backing (reached reach from nodes)) }
    ensures own { All (IsOwn from) owed.new.items }
{
    for index in 0..nodes.count() {
        match NodeId::new(nodes, index) {
            Some(to) => {
                if reach.covers(from, to) {
                    push_to(owed, from, to, body, backing)?;
                }
            }
            None => unreachable!(),
        }
    }
    Ok(())
}

/// Whether a command of the pool has this request number.
pub fn has_request(pool: &[Command], request: RequestNo) -> bool
    ensures { result ≡ has_request pool.now request }
{
    for command in pool {
        if command.request.is_same(request) {
            return true;
        }
    }
    false
}

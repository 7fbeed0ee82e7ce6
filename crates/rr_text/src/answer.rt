//! The answers to the lines of a script.

ghost use Rattle.std.specs.Prelude.{◌≡◌};

use rr_types::{Name, NodeId, Reply, RequestNo, Value};
use std::marker::Model;

/// The answer to a line of a script, at the node that was asked.
#[derive(Clone, Copy, Debug)]
pub enum Answer {
    /// The node acknowledged the request with this reply.
    Acknowledged {
        node: NodeId,
        request: RequestNo,
        reply: Reply,
    },
    /// The node refused the request, or its client gave up waiting.
    Unacknowledged {
        node: NodeId,
        request: RequestNo,
    },
    /// No client has the name.
    Free {
        node: NodeId,
        name: Name,
    },
    /// This client has the name, with this value.
    Bound {
        node: NodeId,
        name: Name,
        owner: u32,
        value: Value,
    },
    /// The look got no guard of the window, so it saw nothing.
    Unseen {
        node: NodeId,
        name: Name,
    },
}

/// Answers, in the order of the lines of their script.
#[derive(Debug, Drop)]
pub struct Answers {
    answers: Vec<Answer>,
}

impl Model for Answers {
    ghost use Rattle.std.specs.Prelude.{List};
    ghost use Rattle.rr_text.specs.declared.answer.Answer.{Answer};

    ghost Value = { List Answer };

    ghost view = { λ a. a.answers.items };
}

impl Answers {
    /// These answers. It keeps the vector.
    pub fn new(answers: Vec<Answer>) -> Answers
        ensures { result ≡ answers.items }
    {
        Answers { answers }
    }

    /// The answers, in their order.
    pub fn as_slice(&self) -> &[Answer]
        ensures { result.now ≡ self.now }
    {
        let answers = &self.answers;
        answers
    }
}

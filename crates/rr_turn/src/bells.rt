//! Bells, by which the threads of a run wake one another.
//!
//! No contract says that a thread runs, so none says that a ring wakes one: each `ring` is proved without its `unpark` too. These three lines
//! are read, and `hostile/shells.py` measures how soon a shell answers.

ghost use Rattle.std.specs.Prelude.{◌≡◌, map, vec_len, IfOk};
ghost use Rattle.std.specs.List.{range_with_len};

use rr_types::{NodeId, Refusal};
use std::alloc::Global;
use std::thread::Parker;

/// The bell of a node's loop.
#[derive(Drop)]
pub struct Bell {
    node: NodeId,
    parker: Parker,
}

/// That the bell of a node's loop was rung. Only `Bell::ring` gives this.
#[derive(Clone, Copy, Debug)]
pub struct Rung {
    node: NodeId,
}

impl Bell {
    /// A bell of this node's loop, which nobody has rung.
    pub fn new(node: NodeId) -> Bell
        ensures { result.node ≡ node }
    {
        Bell {
            node,
            parker: Parker::new(),
        }
    }

    /// Wakes the loop, or has it not rest the next time.
    pub fn ring(&self) -> Rung
        ensures { result.node ≡ self.now.node }
    {
        self.parker.unpark();
        Rung { node: self.node }
    }

    /// What the loop rests at.
    pub fn parker(&self) -> &Parker {
        &self.parker
    }
}

/// A bell for the loop of each of the seven nodes that there may be, each at its node's place.
#[derive(Drop)]
pub struct Bells {
    bells: Vec<Bell>,
    ghost count: { vec_len bells ≡ 7 },
    ghost placed: { map (λ b. b.node) bells.items ≡ range_with_len 0 7 },
}

impl Bells {
    /// Bells that nobody has rung.
    ///
    /// # Errors
    /// `OutOfMemory`.
    pub fn new(alloc: Global) -> Result<Bells, Refusal> {
        let bells = row(alloc)?;
        Ok(Bells { bells })
    }

    /// The bell of a node's loop.
    pub fn of(&self, node: NodeId) -> &Bell
        ensures { result.now.node ≡ node }
    {
        &self.bells[usize::from(node.index())]
    }

    /// Rings for all of them.
    pub fn ring_all(&self) {
        for bell in &self.bells {
            bell.ring();
        }
    }
}

// A bell for each node, the lowest first.
fn row(alloc: Global) -> Result<Vec<Bell>, Refusal>
    ensures count { IfOk result (λ bells. vec_len bells ≡ 7) }
    ensures placed { IfOk result (λ bells. map (λ b. b.node) bells.items ≡ range_with_len 0 7) }
{
    let mut bells = Vec::new(alloc);
    for index in 0..7u8 {
        let Some(node) = NodeId::at(index) else {
            unreachable!()
        };
        bells.push(Bell::new(node))?;
    }
    Ok(bells)
}

/// The bell of a node's flusher.
#[derive(Drop)]
pub struct FlusherBell {
    parker: Parker,
}

/// That the bell of a node's flusher was rung. Only `FlusherBell::ring` gives this.
#[derive(Clone, Copy, Debug)]
pub struct FlusherRung {
    bell: (),
}

impl FlusherBell {
    /// A bell that nobody has rung.
    pub fn new() -> FlusherBell {
        FlusherBell {
            parker: Parker::new(),
        }
    }

    /// Wakes the flusher, or has it not rest the next time.
    pub fn ring(&self) -> FlusherRung {
        self.parker.unpark();
        FlusherRung { bell: () }
    }

    /// What the flusher rests at.
    pub fn parker(&self) -> &Parker {
        &self.parker
    }
}

/// The bell of a node's publisher.
#[derive(Drop)]
pub struct PublisherBell {
    parker: Parker,
}

/// That the bell of a node's publisher was rung. Only `PublisherBell::ring` gives this.
#[derive(Clone, Copy, Debug)]
pub struct PublisherRung {
    bell: (),
}

impl PublisherBell {
    /// A bell that nobody has rung.
    pub fn new() -> PublisherBell {
        PublisherBell {
            parker: Parker::new(),
        }
    }

    /// Wakes the publisher, or has it not rest the next time.
    pub fn ring(&self) -> PublisherRung {
        self.parker.unpark();
        PublisherRung { bell: () }
    }

    /// What the publisher rests at.
    pub fn parker(&self) -> &Parker {
        &self.parker
    }
}

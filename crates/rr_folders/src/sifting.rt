//! Which folders of a cluster may be used by somebody who only reads them: those that a start wouldn't refuse.

ghost use Rattle.std.specs.Prelude.{◌≡◌, ◌+◌, ◌≤◌, None, length, true, false, IfOk, IfSome};
ghost use Rattle.rr_types.specs.Limits.{max_nodes};
ghost use Rattle.rr_folders.specs.Judged.{MayStartWithout};
ghost use Rattle.rr_folders.specs.Sifts.{any_holds, set_aside, AreUsed};

use crate::closed::{Closed, print_closed};
use crate::faults::print_fault;
use crate::folder::{Unjudged, judge_without};
use crate::judged::refused_by;
use crate::reading::Shares;
use crate::verify_folder::Reading;
use rr_types::{NodeId, NodeSet, Nodes, Refusal};
use std::alloc::AllocError;
use std::io;
use std::io::Write;
use std::marker::Model;
use std::rt::Files;

/// A folder that isn't to be used, and why. Without a node it is none that could be set aside: a start would be refused all the same.
#[derive(Drop)]
struct Aside {
    node: Option<NodeId>,
    why: Option<Closed>,
}

/// Which folders of a cluster aren't to be used, as a start would refuse them or a call failed in them; and whether a start without them would be
/// refused as well. Only `sift_cluster` gives this. Contracts see whose they are, and whether it would.
#[derive(Drop)]
pub struct Sifted {
    nodes: Nodes,
    without: NodeSet,
    asides: Vec<Aside>,
    is_refused: bool,
}

impl Model for Sifted {
    ghost use Rattle.rr_folders.specs.Sifts.{Sifting};

    ghost Value = { Sifting };

    ghost view = { λ s. record { without = s.without; refused = s.is_refused } };
}

impl Sifted {
    /// Prints why folders in the folder DIR aren't used, a line each.
    ///
    /// # Errors
    /// Those of the writer.
    pub fn print<W: Write>(&self, err: &mut W, dir: &str) -> io::Result<()> {
        for aside in &self.asides {
            match &aside.why {
                Some(Closed::Refused(node, fault)) => {
                    print_fault(err, dir, self.nodes, *node, fault)?;
                }
                Some(closed) => print_closed(err, closed)?,
                None => (),
            }
        }
        Ok(())
    }
}

// The folder that a start would refuse, but for those that are set aside. None: it wouldn't.
fn next_aside<R: Files + AllocGlobal>(
    rt: &R,
    nodes: Nodes,
    dir: &str,
    without: NodeSet,
) -> Result<Option<Aside>, AllocError>
    ensures { IfOk result (λ next. next ≡ None → MayStartWithout nodes without) }
{
    let verdict = match judge_without(rt, nodes, dir, without) {
        Ok(verdict) => verdict,
        Err(unjudged) => return Ok(Some(unseen(unjudged)?)),
    };
    let Some((node, fault)) = refused_by(verdict) else {
        return Ok(None);
    };
    if without.contains(node) {
        // (it is set aside already: the others are too few)
        let (node, why) = (None, None);
        return Ok(Some(Aside { node, why }));
    }
    let why = Some(Closed::Refused(node, fault));
    let node = Some(node);
    Ok(Some(Aside { node, why }))
}

// A folder that can't be looked at.
fn unseen(unjudged: Unjudged) -> Result<Aside, AllocError> {
    let Unjudged { node, why } = unjudged;
    match why {
        Closed::OutOfMemory => Err(AllocError),
        why => {
            let why = Some(why);
            Ok(Aside { node, why })
        }
    }
}

/// Finds out which folders of a cluster of so many nodes in the folder DIR a start would refuse, and whether one without them goes: those that
/// are left have to be a majority then, and the cluster has its file. Nothing is made or written.
///
/// # Errors
/// `OutOfMemory`.
pub fn sift_cluster<R: Files + AllocGlobal>(
    rt: &R,
    _shares: &Shares<R::File>,
    nodes: Nodes,
    dir: &str,
) -> Result<Sifted, AllocError>
    ensures { IfOk result (λ s. s.refused ≡ false → MayStartWithout nodes s.without) }
{
    let mut without = NodeSet::empty();
    let mut asides = Vec::new(rt.alloc());
    for _turn in 0..=nodes.count() {
        let Some(aside) = next_aside(rt, nodes, dir, without)? else {
            let is_refused = false;
            return Ok(Sifted {
                nodes,
                without,
                asides,
                is_refused,
            });
        };
        let node = aside.node;
        asides.push(aside)?;
        match node {
            Some(node) => without = without.with(node),
            None => break,
        }
    }
    let is_refused = true;
    Ok(Sifted {
        nodes,
        without,
        asides,
        is_refused,
    })
}

// Whether one of the folders of some nodes, from a node on, holds facts.
fn any_holds(without: NodeSet, index: u8, readings: &[Reading]) -> bool
    requires { index + length readings.now ≤ max_nodes }
    ensures { result ≡ any_holds without index readings.now }
{
    let [first, rest @ ..] = readings else {
        return false;
    };
    let Some(node) = NodeId::at(index) else {
        unreachable!()
    };
    let is_held = without.contains(node) && matches!(first, Reading::Facts(_));
    is_held || any_holds(without, index + 1, rest)
}

// Sets the folders of some nodes aside, as if they couldn't be read.
#[tactic(auto, using(crate::proofs::SiftLemmas::aside_more, crate::proofs::SiftLemmas::kept_more))]
fn set_aside(without: NodeSet, readings: &mut [Reading])
    requires { length readings.old ≤ max_nodes }
    ensures { readings.new ≡ set_aside without 0 readings.old }
{
    for index in 0..readings.len() {
        let Some(node) = NodeId::at(index as u8) else {
            unreachable!()
        };
        if without.contains(node) {
            readings[index] = Reading::Refused(Refusal::Device);
        }
    }
}

/// Sets aside what was read of folders that aren't to be used, as if they couldn't be read, and tells whether one of them holds facts. None: one
/// does, and a start without them would be refused as well; then nothing was set aside, and nothing is to be used.
pub fn use_readings(sifted: &Sifted, readings: &mut [Reading]) -> Option<bool>
    requires few { length readings.old ≤ max_nodes }
    requires sifted { sifted.now.refused ≡ false → MayStartWithout (length readings.old) sifted.now.without }
    ensures some { IfSome result (λ told. AreUsed readings.old readings.new told) }
    ensures none { result ≡ None → (sifted.now.refused ≡ true) × (any_holds sifted.now.without 0 readings.old ≡ true) }
{
    let is_told = any_holds(sifted.without, 0, readings);
    if is_told && sifted.is_refused {
        return None;
    }
    set_aside(sifted.without, readings);
    Some(is_told)
}

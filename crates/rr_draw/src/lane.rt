//! The lines of nodes.

ghost use Rattle.std.specs.Prelude.{◌≡◌, Some, None, option_map};
ghost use Rattle.rr_draw.specs.Fates.{x_of};
ghost use Rattle.rr_draw.specs.Jobs.{begun, synced, is_idle};

use crate::labels::Labels;
use rr_types::{NodeId, Nodes};
use std::alloc::{AllocError, Global};

/// Between the lines of two nodes.
const APART: u64 = 220;
/// Before the first line: the room for what clients ask.
const BEFORE: u64 = 150;
/// Behind the last line: the room for what clients are told.
const BEHIND: u64 = 130;

/// How far from the left a node's line stands.
pub(crate) fn x_of(node: NodeId) -> u64
    ensures { result ≡ x_of node }
{
    BEFORE + u64::from(node.index()) * APART
}

/// What a node does with its disk: a flush or a switch, since where.
#[derive(Debug, Drop)]
pub(crate) struct Job {
    pub(crate) since: u64,
    pub(crate) is_switch: bool,
    /// The instances that its group decides, of those that are asked for; `None` before the group is synced.
    pub(crate) decides: Option<Vec<u32>>,
}

/// The line of a node, as far as it is drawn.
#[derive(Debug, Drop)]
pub(crate) struct Lane {
    /// How far from the left it stands.
    pub(crate) x: u64,
    /// Since where the node is up, or opens.
    pub(crate) since: Option<u64>,
    /// Whether it is up.
    pub(crate) is_up: bool,
    /// Its job goes as soon as it has ended or is cut short, and with it what its group decides.
    pub(crate) job: Option<Job>,
    /// Its labels, on the left and on the right.
    pub(crate) left: Labels,
    pub(crate) right: Labels,
}

impl Lane {
    /// A job begins, unless one runs.
    pub(crate) fn begin(&mut self, since: u64, is_switch: bool)
        ensures { self.new.job ≡ begun since is_switch self.old.job }
    {
        if self.job.is_none() {
            self.job = Some(Job {
                since,
                is_switch,
                decides: None,
            });
        }
    }

    /// The group of the job that runs is synced, and decides these instances.
    pub(crate) fn sync(&mut self, instances: Vec<u32>)
        ensures { self.new.job ≡ synced instances self.old.job }
    {
        if let Some(job) = self.job.take() {
            let Job {
                since,
                is_switch,
                decides: _,
            } = job;
            self.job = Some(Job {
                since,
                is_switch,
                decides: Some(instances),
            });
        }
    }

    /// The job, which has ended or is cut short.
    pub(crate) fn end(&mut self) -> Option<Job>
        ensures ended { result ≡ self.old.job }
        ensures gone { self.new.job ≡ None }
    {
        self.job.take()
    }

    /// Whether the node has no job, or has synced its group.
    pub(crate) fn is_idle(&self) -> bool
        ensures { result ≡ is_idle self.now.job }
    {
        match &self.job {
            Some(job) => job.decides.is_some(),
            None => true,
        }
    }
}

/// The lines of `nodes` nodes.
pub(crate) fn lanes_of(alloc: Global, nodes: Nodes) -> Result<Vec<Lane>, AllocError> {
    let mut lanes = Vec::new(alloc);
    for index in 0..nodes.count() {
        lanes.push(Lane {
            x: BEFORE + u64::from(index) * APART,
            since: None,
            is_up: false,
            job: None,
            left: Labels::new(alloc),
            right: Labels::new(alloc),
        })?;
    }
    Ok(lanes)
}

/// How wide a picture of `nodes` nodes is.
pub(crate) fn width_of(nodes: Nodes) -> u64 {
    BEFORE + u64::from(nodes.count() - 1) * APART + BEHIND
}

//! What the first page of `rr_folders` shows.

use rr_folders::{Closed, survey_folders};
use rr_types::{NodeSet, Nodes};

/// Whether a cluster of these nodes would begin in a folder, which is made if it is missing. `open_folders` opens it.
pub fn is_fresh(rt: &HostRuntime, nodes: Nodes, dir: &str) -> Result<bool, Closed> {
    let survey = survey_folders(rt, nodes, dir, NodeSet::empty())?;
    Ok(survey.is_fresh())
}

//! Tests of a node's parts: the failure detectors, a round's tallies, the tables and the registry.
#![tactic(auto)]

#[cfg(test)]
mod tests;

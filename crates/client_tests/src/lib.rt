//! Tests of guests of a cluster over folders: a majority that is lost, errors that are told apart, nodes that stop and start, and waits.
//! What is expected follows from what the calls promise. Each waits for a bounded time.
#![tactic(auto)]

#[cfg(test)]
mod tests;

//! Tests of runs of nodes in real threads: openings and flushes that are held up at a turnstile, clients that look until they see
//! something, and disks that fail. Each is bounded in time.
#![tactic(auto)]

#[cfg(test)]
mod tests;

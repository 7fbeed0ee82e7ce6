//! Tests in real threads: windows, inboxes and hand-overs. Each is bounded in time.
#![tactic(auto)]

#[cfg(test)]
mod tests;

//! Tests of what is stored: disks, frames, the flush, the journal, its opening and the switch.
#![tactic(auto)]

#[cfg(test)]
mod tests;

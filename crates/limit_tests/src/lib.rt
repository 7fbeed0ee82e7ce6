//! Refusals at limits that no schedule comes near. A node opens over an area whose bytes are written by hand. What is expected
//! follows from the rules.
#![tactic(auto)]

#[cfg(test)]
mod tests;

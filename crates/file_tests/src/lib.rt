//! Tests of disks of two files: over the files of the system, and over files that note what they are asked.
#![tactic(auto)]

#[cfg(test)]
mod tests;

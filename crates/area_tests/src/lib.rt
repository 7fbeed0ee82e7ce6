//! The end of an area, over a disk that keeps nothing: so 4,294,967,295 bytes are written, and none of them is kept.
#![tactic(auto)]

#[cfg(test)]
mod tests;

//! Folders of version 1: what `rr` tells of them, what it makes of them, and that no crash on the way loses what they hold.
//!
//! A row is a folder and the words that name its node, as `one_command --node 0 --nodes 1`. The files of a folder lie where
//! the program runs, as `one_command.a0` and `one_command.a1`. As they are to be left, they are `one_command.a0.after` and
//! `one_command.a1.after`. All of them were made outside this program.

mod course;
pub mod crash;
pub mod folder;
mod known;
mod seat;
pub mod sweep;

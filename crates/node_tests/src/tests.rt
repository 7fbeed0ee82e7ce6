mod heartbeat;
mod list;
mod registry;
mod suspects;
mod tally;

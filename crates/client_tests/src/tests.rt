mod apart;
mod clusters;
mod lives;
mod majorities;
mod waits;

mod limits;
mod started;
mod told;

mod ends;
mod nowhere;

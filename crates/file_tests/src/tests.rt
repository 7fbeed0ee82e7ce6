mod asked;
mod expected;
mod file_disk;
mod recorded;

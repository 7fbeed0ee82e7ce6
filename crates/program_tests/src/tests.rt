mod disks;
mod files;
mod folders;
mod lively;
mod prompts;
mod refusals;
mod streams;

mod hand_overs;
mod inboxes;
mod many_looks;
mod seats;
mod watches;
mod windows;

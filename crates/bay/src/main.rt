// Drives the bay by scripts, and prints each call's answer, what stands in the slot and the rows that were added.
#![tactic(auto)]

mod answers;
mod channel;
mod desk;
mod edges;
mod given;
mod panel;
mod script;
mod show;

fn main() {
    channel::states();
    channel::failures();
    answers::refused();
    answers::answered();
    edges::limits();
    edges::events();
}

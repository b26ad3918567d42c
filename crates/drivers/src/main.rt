// Runs every driver by itself on good replies, with each of its transfers failing, at the limits of its range and at the
// limits of the room, and prints the answers and the rows.
#![tactic(auto)]

mod answer;
mod cases;
mod edges;
mod entry;
mod lent;
mod room;
mod show;

fn simple_chips() {
    cases::mcp();
    cases::dacs();
    cases::ads();
    room::all();
}

fn ads7924() {
    cases::openings();
    cases::ones();
    cases::fours();
    cases::alarms();
    cases::limits();
}

fn main() {
    simple_chips();
    ads7924();
    edges::rooms();
    edges::statuses();
    room::past();
    edges::highest();
}

// Makes the calls of traces and writes all that comes of each, so that the rack can be compared call by call with
// another implementation: reads lines on standard input and writes a line for each on standard output.
#![tactic(auto)]

mod answer;
mod beside;
mod line;

use line_answers::Broken;
use std::io;

fn main(rt: HostRuntime) {
    let mut log = [0u8; 65536];
    let mut place = answer::begin();
    let made = line_answers::answer_lines(&mut rt.stdin(), &mut io::writer(&rt), |line, out| {
        let told = answer::pass(place, &mut log, line, out);
        place = told.place;
        told.past
    });
    let _told = match made {
        Ok(()) => Ok(()),
        Err(Broken::Input) => eprintln!(rt; "The lines cannot be read."),
        Err(Broken::Answers) => eprintln!(rt; "The answers cannot be written."),
    };
}

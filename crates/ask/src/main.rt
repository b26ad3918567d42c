// Asks the drivers and the transforms one question a line, so that they can be compared with another implementation:
// reads the questions on standard input and writes an answer to each on standard output.
#![tactic(auto)]

mod answer;
mod chips;
mod question;
mod result;
mod words;

use line_answers::Broken;
use std::io;

fn main(rt: HostRuntime) {
    let made = line_answers::answer_lines(&mut rt.stdin(), &mut io::writer(&rt), |line, out| {
        answer::pass(line, out)
    });
    let _told = match made {
        Ok(()) => Ok(()),
        Err(Broken::Input) => eprintln!(rt; "The questions cannot be read."),
        Err(Broken::Answers) => eprintln!(rt; "The answers cannot be written."),
    };
}

// Replays the traces that its words name, one after the other, each under its name.
#![tactic(auto)]

use std::fs::File;
use std::rt::Files;
use std::{env, io};

// A trace that cannot be opened is told of by its name.
fn replay<R: Files<File = File> + Print + Eprint>(rt: &R, path: &str) {
    let _named = print!(rt; "{path}\r\n");
    match File::open(rt, path) {
        Ok(mut trace) => {
            if let Err(broken) = replay_run::run(&mut trace, &mut io::writer(rt)) {
                let _told = eprintln!(rt; "{broken}");
            }
        }
        Err(error) => {
            let _told = eprintln!(rt; "{path}: {error}");
        }
    }
}

fn main(rt: HostRuntime) -> io::Result<()> {
    for path in env::args(&rt)?.skip(1) {
        replay(&rt, path.as_str());
    }
    Ok(())
}

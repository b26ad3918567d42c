// Replays a trace of the bay's calls: reads it on standard input, and writes what each line gives.
#![tactic(auto)]

use std::io;

fn main(rt: HostRuntime) {
    if let Err(broken) = replay_run::run(&mut rt.stdin(), &mut io::writer(&rt)) {
        let _told = eprintln!(rt; "{broken}");
    }
}

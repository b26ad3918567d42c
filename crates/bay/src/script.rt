// Runs a script of calls on the bay, and prints each. A step of a script is a word of seven signs: a call
// (the module `desk` has their letters), its tick in three digits, what it is given, its replies, its settings
// (the module `given` has the last three).
//
// A word that begins with `=` changes what the calls after it work on, by three digits: s the slot, l the
// bytes of log that are lent, r the bytes of replies, n the places for numbers, u the rows used; and m has
// the largest count of rows used, a prints what stands in each slot.
ghost use Rattle.std.specs.Prelude.{◌+◌, ◌≤◌, length};

use super::desk::{Desk, Lent, Step};
use super::{desk, given, panel, show};
use slots::Rack;

// What a digit counts, and 0 for any other sign.
fn digit(sign: u8) -> u32
    ensures { result ≤ 9 }
{
    match sign {
        b'0'..=b'9' => u32::from(sign - b'0'),
        _ => 0,
    }
}

// Three digits of a word.
fn number_at(word: &[u8], from: usize) -> u32
    requires { from + 3 ≤ length word.now }
    ensures { result ≤ 999 }
{
    let hundreds = digit(word[from]);
    let tens = digit(word[from + 1]);
    let ones = digit(word[from + 2]);
    100 * hundreds + 10 * tens + ones
}

// Prints what stands in each slot.
fn survey(rack: Rack) {
    for slot in 0..8u8 {
        show::text(b"  slot");
        show::number(u64::from(slot));
        panel::standing(slots::slot_at(rack, slot));
        show::text(b"\n");
    }
}

// What is lent after a word that begins with `=`.
fn arrange(lent: Lent, sign: u8, n: u32) -> Lent {
    let mut lent = lent;
    match sign {
        b's' => lent.slot = (n % 256) as u8,
        b'l' => lent.log = n as usize,
        b'r' => lent.replies = n as usize,
        b'n' => lent.numbers = n as usize,
        b'u' => lent.used = n as usize,
        b'm' => lent.used = usize::MAX,
        _ => (),
    }
    lent
}

// Takes a word that begins with `=`.
fn change(rack: Rack, lent: Lent, sign: u8, n: u32) -> Lent {
    show::text(b"\n");
    if sign == b'a' {
        survey(rack);
    }
    arrange(lent, sign, n)
}

// The step that a word stands for.
fn step_of(word: &[u8]) -> Step
    requires { 7 ≤ length word.now }
{
    Step {
        call: word[0],
        givens: given::givens(word[4], number_at(word, 1)),
        reply: word[5],
        settings: given::settings(word[6]),
    }
}

// Prints a word and takes its step.
fn take(log: &mut [u8], desk: Desk, word: &[u8]) -> Desk {
    if word.len() < 7 {
        return desk;
    }
    show::text(word);
    let Desk { rack, lent } = desk;
    if word[0] == b'=' {
        let n = number_at(word, 2);
        let lent = change(rack, lent, word[1], n);
        return Desk { rack, lent };
    }
    let step = step_of(word);
    let turn = desk::take(log, rack, lent, step);
    Desk {
        rack: turn.rack,
        lent: Lent {
            used: turn.used,
            ..lent
        },
    }
}

// Runs a script from an empty bay and slot 5; a sign stands after each of its words. A line of dots begins it.
fn run(script: &[u8]) {
    let mut log = [show::FRESH; 4096];
    let lent = Lent {
        slot: 5,
        used: 0,
        log: 4096,
        replies: 135,
        numbers: 8,
    };
    let mut desk = Desk {
        rack: slots::empty(),
        lent,
    };
    show::text(b"..\n");
    for word in script.chunks_exact(8) {
        if let Some((_, word)) = word.split_last() {
            desk = take(&mut log, desk, word);
        }
    }
}

// Runs scripts, each of which is a line.
pub fn each(scripts: &[u8]) {
    for script in scripts.split_inclusive(|b| *b == b'\n') {
        run(script);
    }
}

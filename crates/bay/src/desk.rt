// A call on the bay with what it is lent, printed. Calls: S start, U startup, u update, r reset, b standby,
// n settings, t status.
use super::{given, panel, show};
use rf_call::{Answer, Givens};
use rf_channel::ChannelSettings;
use rf_status::Detectors;
use slots::{Rack, Turn, Verdict};

// What a call is lent: a slot, the rows used, and how much of the log, of the replies and of the numbers.
#[derive(Clone, Copy)]
pub struct Lent {
    pub slot: u8,
    pub used: usize,
    pub log: usize,
    pub replies: usize,
    pub numbers: usize,
}

// The bay, and what its calls are lent.
#[derive(Clone, Copy)]
pub struct Desk {
    pub rack: Rack,
    pub lent: Lent,
}

// A step: the call, what it is given, the sign of its replies, its settings.
#[derive(Clone, Copy)]
pub struct Step {
    pub call: u8,
    pub givens: Givens,
    pub reply: u8,
    pub settings: ChannelSettings,
}

// Prints the answer and what stands in the slot, with the rows that were added.
fn close(log: &[u8], slot: u8, from: usize, turn: Turn) {
    show::answer(slots::number(turn.verdict));
    panel::standing(slots::slot_at(turn.rack, slot));
    if let Verdict::Answered(Answer::Done(report)) = turn.verdict {
        panel::report(report);
    }
    show::end(log, from, turn.used);
}

// The numbers are 7.0 before a status; they are printed with the place past the seventh.
fn measure(log: &mut [u8], replies: &[u8], rack: Rack, lent: Lent, givens: Givens) -> Turn {
    let mut numbers = [7.0; 8];
    let places = lent.numbers.min(8);
    let detectors = Detectors {
        output: 1500,
        reflected: 250,
    };
    let turn = rack::status(
        rack,
        lent.slot,
        detectors,
        givens,
        log,
        lent.used,
        replies,
        &mut numbers[..places],
    );
    panel::numbers(numbers);
    turn
}

// A start has the flag of presence but where the replies' sign is `n`.
fn ask(log: &mut [u8], replies: &[u8], rack: Rack, lent: Lent, step: Step) -> Turn {
    let Lent { slot, used, .. } = lent;
    let Step {
        givens,
        settings,
        ..
    } = step;
    match step.call {
        b'S' => {
            let present = step.reply != b'n';
            rack::start(rack, slot, settings, present, log, used, replies)
        }
        b'n' => rack::settings(rack, slot, settings, givens, log, used, replies),
        b't' => measure(log, replies, rack, lent, givens),
        b'u' => rack::update(rack, slot, givens, log, used, replies),
        b'U' => rack::startup(rack, slot, givens, log, used, replies),
        b'r' => rack::reset(rack, slot, givens, log, used, replies),
        _ => rack::standby(rack, slot, givens, log, used, replies),
    }
}

// Lends what is said, and prints what comes of it.
pub fn take(log: &mut [u8], rack: Rack, lent: Lent, step: Step) -> Turn {
    let replies = given::replies(step.reply);
    let bytes = lent.log.min(log.len());
    let answers = lent.replies.min(replies.len());
    let turn = ask(&mut log[..bytes], &replies[..answers], rack, lent, step);
    close(log, lent.slot, lent.used, turn);
    turn
}

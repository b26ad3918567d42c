// The eight slots of the bay, and what a call on one of them answers.
#![tactic(auto)]

ghost use Rattle.std.specs.Prelude.{◌≡◌};
ghost use Rattle.slots.specs.Slots.{empty_rack, slot_at, put_at, verdict_of, number_of, cause_beside};

use entry::Refusal;
use rf_call::{Answer, Outcome, Slot};
use rf_machine::Cause;

// A slot of the bay. A struct of its own, since it can be lent and changed in place.
#[derive(Clone, Copy)]
pub struct Bay {
    pub slot: Slot,
}

#[derive(Clone, Copy)]
pub struct Rack {
    pub bays: [Bay; 8],
}

// What a call answers: refused, from a channel that stays, no module found, or halted.
#[derive(Clone, Copy)]
pub enum Verdict {
    Refused(Refusal),
    Answered(Answer),
    Absent,
    Halted(Cause),
}

// What a call gives back: the rack, the answer, and how many rows are used.
#[derive(Clone, Copy)]
pub struct Turn {
    pub rack: Rack,
    pub verdict: Verdict,
    pub used: usize,
}

// A bay without a channel.
pub fn empty() -> Rack
    ensures { result ≡ empty_rack }
{
    let bay = Bay { slot: Slot::Empty };
    Rack { bays: [bay; 8] }
}

// What stands in a slot. Above the eighth there is nothing.
pub fn slot_at(rack: Rack, slot: u8) -> Slot
    ensures { result ≡ slot_at rack slot }
{
    if 8 <= slot {
        return Slot::Empty;
    }
    rack.bays[slot as usize].slot
}

// The rack with another thing in one of its slots. Above the eighth nothing changes.
pub fn put_at(rack: Rack, slot: u8, standing: Slot) -> Rack
    ensures { result ≡ put_at rack slot standing }
{
    let mut rack = rack;
    if slot < 8 {
        rack.bays[slot as usize] = Bay { slot: standing };
    }
    rack
}

// The answer of a call that was let in. No `From`: the name says which step this is, and the definition has it.
pub fn verdict_of(outcome: Outcome) -> Verdict
    ensures { result ≡ verdict_of outcome }
{
    match outcome {
        Outcome::Live(_, answer) => Verdict::Answered(answer),
        Outcome::Absent => Verdict::Absent,
        Outcome::Halted(cause) => Verdict::Halted(cause),
    }
}

// The number of an answer.
pub fn number(verdict: Verdict) -> u8
    ensures { result ≡ number_of verdict }
{
    match verdict {
        Verdict::Refused(refusal) => entry::number(refusal),
        Verdict::Answered(Answer::Done(_)) => 0,
        Verdict::Answered(Answer::NoTransition) => 9,
        Verdict::Answered(Answer::GuardFalse) => 10,
        Verdict::Answered(Answer::Range) => 11,
        Verdict::Answered(Answer::Chip) => 12,
        Verdict::Absent => 13,
        Verdict::Halted(_) => 14,
    }
}

// The cause beside a 14, and 0 beside every other answer.
pub fn cause_beside(verdict: Verdict) -> u8
    ensures { result ≡ cause_beside verdict }
{
    match verdict {
        Verdict::Halted(cause) => rf_call::cause_number(cause),
        _ => 0,
    }
}

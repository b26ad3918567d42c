// Any call on what stands in a slot, by value: nothing is asked of the caller. What a rack does to one of its
// slots, and what is done to a bay that is lent, is this step.
#![tactic(auto)]

ghost use Rattle.std.specs.Prelude.{◌≤◌, ◌≡◌, length};
ghost use Rattle.bus.specs.Run.{Runs, HasRoom};
ghost use Rattle.entry.specs.Tests.{places_of, free_rows};
ghost use Rattle.slot_call.specs.Step.{acts, shown_to, stepped, Steps};

use bus::{Bus, Cursor};
use entry::{Admitted, Call};
use rf_call::{Outcome, Slot};
use slots::Verdict;

// The number of the slot, and the rows used.
#[derive(Clone, Copy)]
pub struct Place {
    pub slot: u8,
    pub used: usize,
}

// What then stands in the slot, the answer, and the rows used.
#[derive(Clone, Copy)]
pub struct Stepped {
    pub standing: Slot,
    pub verdict: Verdict,
    pub used: usize,
}

// Does a call that is let in.
fn act(bus: &mut Bus, numbers: &mut [f32], admitted: Admitted) -> Outcome
    requires { HasRoom bus.old 20 15 × (places_of admitted ≤ length numbers.old) }
    ensures lent { bus.new.log.ghost_name ≡ bus.old.log.ghost_name }
    ensures run { Runs (acts admitted) bus.old 20 15 bus.new result }
    ensures shown { numbers.new ≡ shown_to admitted bus.old.replies.now bus.old.at.slot bus.old.at.taken numbers.old }
{
    match admitted {
        Admitted::Start(settings, present) => rf_start::start(bus, settings, present),
        Admitted::Ask(channel, request, givens) => rf_calls::request_at(
            bus, numbers, channel, request, givens,
        ),
    }
}

// Any call on what stands in a slot: the tests in their order, and then what is asked. A refusal leaves
// everything as it was.
pub fn step(
    log: &mut [u8],
    replies: &[u8],
    numbers: &mut [f32],
    place: Place,
    standing: Slot,
    call: Call,
) -> Stepped
    ensures { Steps (stepped place.slot standing call (free_rows place.used (length log.old)) replies.now numbers.old) place.used log.old result log.new numbers.new }
{
    match entry::entry_of(
        place.slot,
        standing,
        call,
        place.used,
        log.len(),
        replies.len(),
        numbers.len(),
    ) {
        Err(refusal) => Stepped {
            standing,
            verdict: Verdict::Refused(refusal),
            used: place.used,
        },
        Ok(admitted) => {
            let at = Cursor {
                slot: place.slot,
                used: place.used,
                taken: 0,
            };
            let mut bus = Bus { log, replies, at };
            let outcome = act(&mut bus, numbers, admitted);
            Stepped {
                standing: rf_call::slot_of(outcome),
                verdict: slots::verdict_of(outcome),
                used: bus.at.used,
            }
        }
    }
}

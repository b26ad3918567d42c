// Any call on a slot of a rack. It takes the rack by value and gives it back: the slot is read, stepped, and
// put back.
#![tactic(auto)]

ghost use Rattle.std.specs.Prelude.{◌≡◌, length};
ghost use Rattle.entry.specs.Tests.{free_rows};
ghost use Rattle.rack_call.specs.Calls.{called, Leaves};

use entry::Call;
use slot_call::Place;
use slots::{Rack, Turn};

// Any call on a slot.
pub fn call(
    rack: Rack,
    slot: u8,
    call: Call,
    log: &mut [u8],
    used: usize,
    replies: &[u8],
    numbers: &mut [f32],
) -> Turn
    ensures { Leaves (called rack slot call (free_rows used (length log.old)) replies.now numbers.old) used log.old result log.new × (numbers.new ≡ (called rack slot call (free_rows used (length log.old)) replies.now numbers.old).numbers) }
{
    let standing = slots::slot_at(rack, slot);
    let place = Place { slot, used };
    let stepped = slot_call::step(log, replies, numbers, place, standing, call);
    let rack = slots::put_at(rack, slot, stepped.standing);
    Turn {
        rack,
        verdict: stepped.verdict,
        used: stepped.used,
    }
}

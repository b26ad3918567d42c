// A bay that is lent: what stands in it is changed where it lies.
#![tactic(auto)]

ghost use Rattle.std.specs.Prelude.{◌≡◌, length};
ghost use Rattle.entry.specs.Tests.{free_rows};
ghost use Rattle.slot_call.specs.Step.{stepped, Steps};

use entry::Call;
use slot_call::{Place, Stepped};
use slots::Bay;

// Any call on a bay that is lent: its value is taken, the step is called by value, and what that gives is
// stored back. So a halt is stored as well.
pub fn call_in_place(
    bay: &mut Bay,
    log: &mut [u8],
    replies: &[u8],
    numbers: &mut [f32],
    place: Place,
    call: Call,
) -> Stepped
    ensures { Steps (stepped place.slot bay.old.slot call (free_rows place.used (length log.old)) replies.now numbers.old) place.used log.old result log.new numbers.new × (bay.new.slot ≡ result.standing) }
{
    let stepped = slot_call::step(log, replies, numbers, place, bay.slot, call);
    bay.slot = stepped.standing;
    stepped
}

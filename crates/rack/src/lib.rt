// The calls that the bay's keeper has. Nothing is asked of the caller: what a call needs is tested, and an
// answer says what was missing. Each is one call of `rack_call::call`, under the name that the keeper calls.
#![tactic(auto)]

ghost use Rattle.std.specs.Prelude.{◌≡◌, [], length};
ghost use Rattle.entry.specs.Tests.{free_rows};
ghost use Rattle.rack_call.specs.Calls.{called, Leaves};

use entry::Call;
use rf_call::Givens;
use rf_calls::Request;
use rf_channel::ChannelSettings;
use rf_status::Detectors;
use slots::{Rack, Turn};

// Starts a channel with these settings.
pub fn start(
    rack: Rack,
    slot: u8,
    settings: ChannelSettings,
    present: bool,
    log: &mut [u8],
    used: usize,
    replies: &[u8],
) -> Turn
    ensures { Leaves (called rack slot (Call.Start settings present) (free_rows used (length log.old)) replies.now []) used log.old result log.new }
{
    let asked = Call::Start(settings, present);
    rack_call::call(rack, slot, asked, log, used, replies, &mut [])
}

// The start of the day.
pub fn startup(
    rack: Rack,
    slot: u8,
    givens: Givens,
    log: &mut [u8],
    used: usize,
    replies: &[u8],
) -> Turn
    ensures { Leaves (called rack slot (Call.Ask Request.Startup givens) (free_rows used (length log.old)) replies.now []) used log.old result log.new }
{
    let asked = Call::Ask(Request::Startup, givens);
    rack_call::call(rack, slot, asked, log, used, replies, &mut [])
}

// The periodic update.
pub fn update(
    rack: Rack,
    slot: u8,
    givens: Givens,
    log: &mut [u8],
    used: usize,
    replies: &[u8],
) -> Turn
    ensures { Leaves (called rack slot (Call.Ask Request.Update givens) (free_rows used (length log.old)) replies.now []) used log.old result log.new }
{
    let asked = Call::Ask(Request::Update, givens);
    rack_call::call(rack, slot, asked, log, used, replies, &mut [])
}

// The reset button.
pub fn reset(
    rack: Rack,
    slot: u8,
    givens: Givens,
    log: &mut [u8],
    used: usize,
    replies: &[u8],
) -> Turn
    ensures { Leaves (called rack slot (Call.Ask Request.Reset givens) (free_rows used (length log.old)) replies.now []) used log.old result log.new }
{
    let asked = Call::Ask(Request::Reset, givens);
    rack_call::call(rack, slot, asked, log, used, replies, &mut [])
}

// The standby button.
pub fn standby(
    rack: Rack,
    slot: u8,
    givens: Givens,
    log: &mut [u8],
    used: usize,
    replies: &[u8],
) -> Turn
    ensures { Leaves (called rack slot (Call.Ask Request.Standby givens) (free_rows used (length log.old)) replies.now []) used log.old result log.new }
{
    let asked = Call::Ask(Request::Standby, givens);
    rack_call::call(rack, slot, asked, log, used, replies, &mut [])
}

// New settings.
pub fn settings(
    rack: Rack,
    slot: u8,
    settings: ChannelSettings,
    givens: Givens,
    log: &mut [u8],
    used: usize,
    replies: &[u8],
) -> Turn
    ensures { Leaves (called rack slot (Call.Ask (Request.Settings settings) givens) (free_rows used (length log.old)) replies.now []) used log.old result log.new }
{
    let asked = Call::Ask(Request::Settings(settings), givens);
    rack_call::call(rack, slot, asked, log, used, replies, &mut [])
}

// The seven measurements, into the first places of the caller's numbers.
pub fn status(
    rack: Rack,
    slot: u8,
    detectors: Detectors,
    givens: Givens,
    log: &mut [u8],
    used: usize,
    replies: &[u8],
    numbers: &mut [f32],
) -> Turn
    ensures { Leaves (called rack slot (Call.Ask (Request.Status detectors) givens) (free_rows used (length log.old)) replies.now numbers.old) used log.old result log.new × (numbers.new ≡ (called rack slot (Call.Ask (Request.Status detectors) givens) (free_rows used (length log.old)) replies.now numbers.old).numbers) }
{
    let asked = Call::Ask(Request::Status(detectors), givens);
    rack_call::call(rack, slot, asked, log, used, replies, numbers)
}

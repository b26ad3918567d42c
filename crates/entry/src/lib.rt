// Whether a call is let in to a slot: the answers 1 to 8, in their order. Only what is let in touches
// anything.
#![tactic(auto)]

ghost use Rattle.std.specs.Prelude.{◌≡◌, []};
ghost use Rattle.std.specs.Float.Ieee.Scale.{finite};
ghost use Rattle.entry.specs.Tests.{free_rows, of_standing, of_room, of_given, temperature_fits, first_of, entry_of, number_of};

use gate::Bar;
use rf_call::{Givens, Slot};
use rf_calls::Request;
use rf_channel::{ChannelSettings, RfChannel};

// A start with its settings and the flag that the module's other chips are present, or a request with
// what is given to it.
#[derive(Clone, Copy)]
pub enum Call {
    Start(ChannelSettings, bool),
    Ask(Request, Givens),
}

// Why a call is not let in.
#[derive(Clone, Copy)]
pub enum Refusal {
    Slot,
    Empty,
    Halted,
    Taken,
    Log,
    Replies,
    Numbers,
    Temperature,
}

// What is let in: a start, or a request with the channel that it is for.
#[derive(Clone, Copy)]
pub enum Admitted {
    Start(ChannelSettings, bool),
    Ask(RfChannel, Request, Givens),
}

// What a call finds in the slot: a start is for a slot without a channel, a request for a channel.
fn of_standing(slot: Slot, call: Call) -> Result<Admitted, Refusal>
    ensures { result ≡ of_standing slot call [] }
{
    match (call, slot) {
        (Call::Start(_, _), Slot::Channel(_)) => Err(Refusal::Taken),
        (Call::Start(settings, present), Slot::Empty | Slot::Halted(_)) => {
            Ok(Admitted::Start(settings, present))
        }
        (Call::Ask(_, _), Slot::Empty) => Err(Refusal::Empty),
        (Call::Ask(_, _), Slot::Halted(_)) => Err(Refusal::Halted),
        (Call::Ask(request, givens), Slot::Channel(channel)) => {
            Ok(Admitted::Ask(channel, request, givens))
        }
    }
}

// Whether the gate of a call to one of the eight slots is open.
fn of_room(slot: u8, used: usize, log: usize, replies: usize) -> Result<(), Refusal>
    ensures { result ≡ first_of (of_room (free_rows used log) replies) (Ok tt) }
{
    match gate::room_of(slot, used, log, replies) {
        Ok(_) => Ok(()),
        Err(Bar::Slot) => Err(Refusal::Slot),
        Err(Bar::Log) => Err(Refusal::Log),
        Err(Bar::Replies) => Err(Refusal::Replies),
    }
}

// A number, between the infinities; a NaN is on no side of them.
fn is_finite(x: f32) -> bool
    ensures { result ≡ finite x }
{
    let infinity = 1.0 / 0.0;
    x < infinity && -infinity < x
}

// A temperature that is given is a number.
fn temperature_fits(temperature: Option<f32>) -> bool
    ensures { result ≡ temperature_fits temperature }
{
    match temperature {
        Some(degrees) => is_finite(degrees),
        None => true,
    }
}

// Whether there are seven places for a status, and whether the temperature that an update or a status is
// given is a number.
fn of_given(call: Call, numbers: usize) -> Result<(), Refusal>
    ensures { result ≡ first_of (of_given call numbers) (Ok tt) }
{
    match call {
        Call::Ask(Request::Status(_), _) if numbers < 7 => Err(Refusal::Numbers),
        Call::Ask(Request::Update | Request::Status(_), givens)
            if !temperature_fits(givens.temperature) => Err(Refusal::Temperature),
        _ => Ok(()),
    }
}

// The first test that applies.
pub fn entry_of(
    slot: u8,
    standing: Slot,
    call: Call,
    used: usize,
    log: usize,
    replies: usize,
    numbers: usize,
) -> Result<Admitted, Refusal>
    ensures { result ≡ entry_of slot standing call (free_rows used log) replies numbers }
{
    if 8 <= slot {
        return Err(Refusal::Slot);
    }
    let admitted = of_standing(standing, call)?;
    of_room(slot, used, log, replies)?;
    of_given(call, numbers)?;
    Ok(admitted)
}

// The number of a refusal.
pub fn number(refusal: Refusal) -> u8
    ensures { result ≡ number_of refusal }
{
    match refusal {
        Refusal::Slot => 1,
        Refusal::Empty => 2,
        Refusal::Halted => 3,
        Refusal::Taken => 4,
        Refusal::Log => 5,
        Refusal::Replies => 6,
        Refusal::Numbers => 7,
        Refusal::Temperature => 8,
    }
}

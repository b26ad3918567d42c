// A call on a channel: what it is given, how it ends, the halt; and the three calls that are one event.
#![tactic(auto)]

ghost use Rattle.std.specs.Prelude.{◌≡◌};
ghost use Rattle.bus.specs.Run.{Runs, HasRoom, HasRows};
ghost use Rattle.rf_call.specs.Outcome.{cause_of, slot_of, reset_answer};
ghost use Rattle.rf_call.specs.Calls.{halting, quietly, interlock_reset, handle_startup, standing};

use bus::{Bus, Note};
use rf_channel::{Events, RfChannel, States};
use rf_machine::{Cause, Told};

// What a caller gives to every call: the clock, the levels of the input pins, whether the watchdog has
// struck, and the temperature in degrees Celsius, which is not there if its chip did not answer.
#[derive(Clone, Copy)]
pub struct Givens {
    pub tick: u32,
    pub alert: bool,
    pub output_overdrive: bool,
    pub reflected_overdrive: bool,
    pub watchdog: bool,
    pub temperature: Option<f32>,
}

// The state for the front panel: its green, yellow and red light.
#[derive(Clone, Copy)]
pub struct PowerStatus {
    pub powered: bool,
    pub rf_disabled: bool,
    pub blocked: bool,
}

// What a status has beside its numbers.
#[derive(Clone, Copy)]
pub struct ChannelStatus {
    pub reflected_overdrive: bool,
    pub output_overdrive: bool,
    pub alert: bool,
    pub state: States,
}

// What a call that is done has to tell.
#[derive(Clone, Copy)]
pub enum Report {
    Plain,
    Power(PowerStatus),
    Status(ChannelStatus),
}

// What a call on a channel that stays answers.
#[derive(Clone, Copy)]
pub enum Answer {
    Done(Report),
    NoTransition,
    GuardFalse,
    Range,
    Chip,
}

// How a call ends: with a channel and an answer, with no module found, or halted.
#[derive(Clone, Copy)]
pub enum Outcome {
    Live(RfChannel, Answer),
    Absent,
    Halted(Cause),
}

// What stands in a slot.
#[derive(Clone, Copy)]
pub enum Slot {
    Empty,
    Halted(Cause),
    Channel(RfChannel),
}

// The number of a cause.
pub fn cause_number(cause: Cause) -> u8
    ensures { result ≡ cause_of cause }
{
    match cause {
        Cause::Bus => 1,
        Cause::Alarm => 2,
        Cause::Temperature => 3,
        Cause::Threshold => 4,
        Cause::Level => 5,
        Cause::Bias => 6,
    }
}

// What stands in the slot after a call.
pub fn slot_of(outcome: Outcome) -> Slot
    ensures { result ≡ slot_of outcome }
{
    match outcome {
        Outcome::Live(channel, _) => Slot::Channel(channel),
        Outcome::Absent => Slot::Empty,
        Outcome::Halted(cause) => Slot::Halted(cause),
    }
}

// Halts: both output pins are set low, whatever they were.
pub fn halt(bus: &mut Bus, cause: Cause) -> Outcome
    requires { HasRows bus.old 2 }
    ensures lent { bus.new.log.ghost_name ≡ bus.old.log.ghost_name }
    ensures run { Runs (halting cause) bus.old 2 0 bus.new result }
{
    bus.note(Note::SignalOn(false));
    bus.note(Note::EnablePower(false));
    Outcome::Halted(cause)
}

// What the reset button answers.
fn reset_answer(told: Told) -> Answer
    ensures { result ≡ reset_answer told }
{
    match told {
        Told::Moved => Answer::Done(Report::Plain),
        Told::NoTransition => Answer::NoTransition,
        Told::GuardFalse => Answer::GuardFalse,
    }
}

// The reset button.
pub fn interlock_reset(bus: &mut Bus, channel: RfChannel, givens: Givens) -> Outcome
    requires { HasRoom bus.old 5 1 }
    ensures lent { bus.new.log.ghost_name ≡ bus.old.log.ghost_name }
    ensures run { Runs (interlock_reset channel givens) bus.old 5 1 bus.new result }
{
    let event = Events::InterlockReset;
    match rf_machine::process_event(bus, channel, event, givens.tick, givens.watchdog) {
        Ok((channel, told)) => Outcome::Live(channel, reset_answer(told)),
        Err(cause) => halt(bus, cause),
    }
}

// An event that is asked for whether or not the table has it.
pub fn send(bus: &mut Bus, channel: RfChannel, event: Events, givens: Givens) -> Outcome
    requires { HasRoom bus.old 5 1 }
    ensures lent { bus.new.log.ghost_name ≡ bus.old.log.ghost_name }
    ensures run { Runs (quietly event channel givens) bus.old 5 1 bus.new result }
{
    match rf_machine::process_event(bus, channel, event, givens.tick, givens.watchdog) {
        Ok((channel, _)) => Outcome::Live(channel, Answer::Done(Report::Plain)),
        Err(cause) => halt(bus, cause),
    }
}

// The start of the day.
#[tactic(auto, unfolding(crate::specs::Calls::handle_startup))]
pub fn handle_startup(bus: &mut Bus, channel: RfChannel, givens: Givens) -> Outcome
    requires { HasRoom bus.old 5 1 }
    ensures lent { bus.new.log.ghost_name ≡ bus.old.log.ghost_name }
    ensures run { Runs (handle_startup channel givens) bus.old 5 1 bus.new result }
{
    send(bus, channel, Events::InterlockReset, givens)
}

// The standby button.
#[tactic(auto, unfolding(crate::specs::Calls::standing))]
pub fn standby(bus: &mut Bus, channel: RfChannel, givens: Givens) -> Outcome
    requires { HasRoom bus.old 5 1 }
    ensures lent { bus.new.log.ghost_name ≡ bus.old.log.ghost_name }
    ensures run { Runs (standing channel givens) bus.old 5 1 bus.new result }
{
    send(bus, channel, Events::Disable, givens)
}

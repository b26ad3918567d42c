// The periodic update of a channel: faults, trips, and then what the clock and the settings allow.
#![tactic(auto)]

ghost use Rattle.std.specs.Prelude.{◌≡◌};
ghost use Rattle.bus.specs.Run.{Runs, HasRoom};
ghost use Rattle.rf_update.specs.Update.{raising, fault_stage, trip_stage, finishing, updating};

use bus::Bus;
use rf_call::{Answer, Givens, Outcome, Report};
use rf_channel::{Events, RfChannel};
use rf_machine::Cause;

// An event within the update. The table has a line for every fault, and for every trip of an enabled channel.
fn raise(
    bus: &mut Bus,
    channel: RfChannel,
    event: Events,
    givens: Givens,
) -> Result<RfChannel, Cause>
    requires { HasRoom bus.old 3 1 }
    ensures lent { bus.new.log.ghost_name ≡ bus.old.log.ghost_name }
    ensures run { Runs (raising channel event givens) bus.old 3 1 bus.new result }
{
    match rf_machine::process_event(bus, channel, event, givens.tick, givens.watchdog) {
        Ok((channel, _)) => Ok(channel),
        Err(cause) => Err(cause),
    }
}

fn fault_stage(bus: &mut Bus, channel: RfChannel, givens: Givens) -> Result<RfChannel, Cause>
    requires { HasRoom bus.old 3 1 }
    ensures lent { bus.new.log.ghost_name ≡ bus.old.log.ghost_name }
    ensures run { Runs (fault_stage channel givens) bus.old 3 1 bus.new result }
{
    match rf_tests::check_faults(givens) {
        Ok(None) => Ok(channel),
        Ok(Some(fault)) => raise(bus, channel, Events::Fault(fault), givens),
        Err(cause) => Err(cause),
    }
}

// A channel that is not enabled is not read: a fault has taken it out of Enabled.
fn trip_stage(bus: &mut Bus, channel: RfChannel, givens: Givens) -> Result<RfChannel, Cause>
    requires { HasRoom bus.old 4 2 }
    ensures lent { bus.new.log.ghost_name ≡ bus.old.log.ghost_name }
    ensures run { Runs (trip_stage channel givens) bus.old 4 2 bus.new result }
{
    let enabled = rf_tests::state_is_enabled(channel.state);
    if enabled {
        let dbm = rf_devices::get_input_power(bus, channel.settings)?;
        match rf_tests::get_overdrive_source(dbm, givens) {
            None => Ok(channel),
            Some(source) => raise(bus, channel, Events::Trip(source), givens),
        }
    } else {
        Ok(channel)
    }
}

// What is left when faults and trips are dealt with: the Update event, and the front panel's lights.
fn finish(bus: &mut Bus, channel: RfChannel, givens: Givens) -> Outcome
    requires { HasRoom bus.old 5 1 }
    ensures lent { bus.new.log.ghost_name ≡ bus.old.log.ghost_name }
    ensures run { Runs (finishing givens channel) bus.old 5 1 bus.new result }
{
    let event = Events::Update;
    match rf_machine::process_event(bus, channel, event, givens.tick, givens.watchdog) {
        Ok((channel, _)) => {
            let status = rf_tests::power_status(channel);
            Outcome::Live(channel, Answer::Done(Report::Power(status)))
        }
        Err(cause) => rf_call::halt(bus, cause),
    }
}

// Updates the channel: the fault test, the trip test, and then the Update event.
pub fn update(bus: &mut Bus, channel: RfChannel, givens: Givens) -> Outcome
    requires { HasRoom bus.old 12 4 }
    ensures lent { bus.new.log.ghost_name ≡ bus.old.log.ghost_name }
    ensures run { Runs (updating channel givens) bus.old 12 4 bus.new result }
{
    match fault_stage(bus, channel, givens) {
        Err(cause) => rf_call::halt(bus, cause),
        Ok(faulted) => match trip_stage(bus, faulted, givens) {
            Err(cause) => rf_call::halt(bus, cause),
            Ok(tripped) => finish(bus, tripped, givens),
        },
    }
}

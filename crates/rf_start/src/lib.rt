// The start of a channel: the pins, the chips of the mainboard, those of the module, and the trip levels.
#![tactic(auto)]

ghost use Rattle.std.specs.Prelude.{◌≡◌};
ghost use Rattle.bus.specs.Run.{Runs, HasRoom};
ghost use Rattle.rf_start.specs.Start.{beginning, quiet, monitor, preparing, module_there, level_set, levels, fresh, settling, starting};

use ads7924::Channel;
use bus::{Bus, Error, Failed, Note};
use rf_call::{Answer, Outcome, Report};
use rf_channel::{ChannelSettings, RfChannel, States};
use rf_machine::Cause;

// A module is there, or it is not. No bool: its two cases say which is which.
#[derive(Clone, Copy)]
pub enum Presence {
    Present,
    Absent,
}

// Both pins low, and the amplifier in pinch-off.
fn begin(bus: &mut Bus) -> Result<(), Cause>
    requires { HasRoom bus.old 3 1 }
    ensures lent { bus.new.log.ghost_name ≡ bus.old.log.ghost_name }
    ensures run { Runs beginning bus.old 3 1 bus.new result }
{
    bus.note(Note::SignalOn(false));
    bus.note(Note::EnablePower(false));
    rf_machine::pinch_off(bus)
}

// No channel of the power monitor may raise an alarm.
fn quiet(alarm: Result<u8, Failed>) -> Result<(), Cause>
    ensures { result ≡ quiet alarm }
{
    match alarm {
        Ok(0) => Ok(()),
        Ok(_) => Err(Cause::Alarm),
        Err(_) => Err(Cause::Bus),
    }
}

// The power monitor answers, and there is no alarm.
fn check_monitor(bus: &mut Bus) -> Result<(), Cause>
    requires { HasRoom bus.old 10 9 }
    ensures lent { bus.new.log.ghost_name ≡ bus.old.log.ghost_name }
    ensures run { Runs monitor bus.old 10 9 bus.new result }
{
    ads7924::default_at(bus)?;
    ads7924::get_voltage_at(bus, Channel::Three)?;
    let alarm = ads7924::clear_alarm_at(bus);
    quiet(alarm)
}

// The module's chips answer. The EEPROM and the temperature chip are told by a flag.
fn find_module(bus: &mut Bus, present: bool) -> Presence
    requires { HasRoom bus.old 3 3 }
    ensures lent { bus.new.log.ghost_name ≡ bus.old.log.ghost_name }
    ensures run { Runs (module_there present) bus.old 3 3 bus.new result }
{
    let Ok(()) = ad5627::default_at(bus) else {
        return Presence::Absent;
    };
    if present {
        let Ok(_) = mcp3221::get_voltage_at(bus, 3.3) else {
            return Presence::Absent;
        };
        Presence::Present
    } else {
        Presence::Absent
    }
}

// What the interlock chip's answer means at the start.
fn level_set(output: Result<f32, Error>) -> Result<(), Cause>
    ensures { result ≡ level_set output }
{
    match output {
        Ok(_) => Ok(()),
        Err(Error::Range) => Err(Cause::Threshold),
        Err(Error::Bus) => Err(Cause::Bus),
    }
}

// Both trip levels.
fn set_levels(bus: &mut Bus, settings: ChannelSettings) -> Result<(), Cause>
    requires { HasRoom bus.old 2 2 }
    ensures lent { bus.new.log.ghost_name ≡ bus.old.log.ghost_name }
    ensures run { Runs (levels settings) bus.old 2 2 bus.new result }
{
    let output = rf_devices::apply_output_interlock_threshold(bus, settings);
    let Ok(_) = output else {
        return level_set(output);
    };
    let power = rf_devices::MAXIMUM_REFLECTED_POWER_DBM;
    let reflected = rf_devices::set_reflected_interlock_threshold(bus, settings, power);
    let Ok(_) = reflected else {
        return level_set(reflected);
    };
    Ok(())
}

// A channel that has just been started.
fn fresh_channel(settings: ChannelSettings) -> RfChannel
    ensures { result ≡ fresh settings }
{
    RfChannel {
        settings,
        state: States::Off,
        signal_on: false,
        enable_power: false,
    }
}

// The mainboard's part of the start.
fn prepare(bus: &mut Bus) -> Result<(), Cause>
    requires { HasRoom bus.old 13 10 }
    ensures lent { bus.new.log.ghost_name ≡ bus.old.log.ghost_name }
    ensures run { Runs preparing bus.old 13 10 bus.new result }
{
    begin(bus)?;
    check_monitor(bus)
}

// The last part: the trip levels, and the channel.
fn settle(bus: &mut Bus, settings: ChannelSettings) -> Outcome
    requires { HasRoom bus.old 4 2 }
    ensures lent { bus.new.log.ghost_name ≡ bus.old.log.ghost_name }
    ensures run { Runs (settling settings) bus.old 4 2 bus.new result }
{
    match set_levels(bus, settings) {
        Ok(()) => Outcome::Live(fresh_channel(settings), Answer::Done(Report::Plain)),
        Err(cause) => rf_call::halt(bus, cause),
    }
}

// Starts a channel with these settings.
pub fn start(bus: &mut Bus, settings: ChannelSettings, present: bool) -> Outcome
    requires { HasRoom bus.old 20 15 }
    ensures lent { bus.new.log.ghost_name ≡ bus.old.log.ghost_name }
    ensures run { Runs (starting settings present) bus.old 20 15 bus.new result }
{
    match prepare(bus) {
        Err(cause) => rf_call::halt(bus, cause),
        Ok(()) => match find_module(bus, present) {
            Presence::Absent => Outcome::Absent,
            Presence::Present => settle(bus, settings),
        },
    }
}

// New settings for a channel. What has not changed is not written again.
#![tactic(auto)]

ghost use Rattle.std.specs.Prelude.{◌≡◌};
ghost use Rattle.bus.specs.Run.{Runs, HasRoom, HasRows};
ghost use Rattle.rf_settings.specs.Settings.{level_applied, bias_applied, write_output, write_reflected, write_bias, write_changes, apply_settings, following, refusing, handle_settings};

use bus::{Bus, Error};
use rf_call::{Answer, Givens, Outcome, Report};
use rf_changes::Changes;
use rf_channel::{ChannelSettings, ChannelState, RfChannel};
use rf_machine::Cause;

// What went wrong: a value out of range, the interlock chip, or the bias chip.
#[derive(Clone, Copy)]
pub enum Wrong {
    Range,
    Chip,
    Bus,
}

// What the interlock chip's answer means for new settings.
fn level_written(output: Result<f32, Error>) -> Result<(), Wrong>
    ensures { result ≡ level_applied output }
{
    match output {
        Ok(_) => Ok(()),
        Err(Error::Range) => Err(Wrong::Range),
        Err(Error::Bus) => Err(Wrong::Chip),
    }
}

// What the bias chip's answer means for new settings.
fn bias_written(output: Result<f32, Error>) -> Result<(), Wrong>
    ensures { result ≡ bias_applied output }
{
    match output {
        Ok(_) => Ok(()),
        Err(Error::Range) => Err(Wrong::Range),
        Err(Error::Bus) => Err(Wrong::Bus),
    }
}

fn write_output(bus: &mut Bus, settings: ChannelSettings, changed: bool) -> Result<(), Wrong>
    requires { HasRoom bus.old 1 1 }
    ensures lent { bus.new.log.ghost_name ≡ bus.old.log.ghost_name }
    ensures run { Runs (write_output changed settings) bus.old 1 1 bus.new result }
{
    if !changed {
        return Ok(());
    }
    let output = rf_devices::apply_output_interlock_threshold(bus, settings);
    let Ok(_) = output else {
        return level_written(output);
    };
    Ok(())
}

fn write_reflected(bus: &mut Bus, settings: ChannelSettings, changed: bool) -> Result<(), Wrong>
    requires { HasRoom bus.old 1 1 }
    ensures lent { bus.new.log.ghost_name ≡ bus.old.log.ghost_name }
    ensures run { Runs (write_reflected changed settings) bus.old 1 1 bus.new result }
{
    if !changed {
        return Ok(());
    }
    let power = rf_devices::MAXIMUM_REFLECTED_POWER_DBM;
    let output = rf_devices::set_reflected_interlock_threshold(bus, settings, power);
    let Ok(_) = output else {
        return level_written(output);
    };
    Ok(())
}

fn write_bias(bus: &mut Bus, settings: ChannelSettings, changed: bool) -> Result<(), Wrong>
    requires { HasRoom bus.old 1 1 }
    ensures lent { bus.new.log.ghost_name ≡ bus.old.log.ghost_name }
    ensures run { Runs (write_bias changed settings) bus.old 1 1 bus.new result }
{
    if !changed {
        return Ok(());
    }
    let output = rf_machine::apply_bias(bus, settings);
    let Ok(_) = output else {
        return bias_written(output);
    };
    Ok(())
}

// Writes what has changed, in this order; the first that goes wrong ends it.
fn write_changes(bus: &mut Bus, settings: ChannelSettings, due: Changes) -> Result<(), Wrong>
    requires { HasRoom bus.old 3 3 }
    ensures lent { bus.new.log.ghost_name ≡ bus.old.log.ghost_name }
    ensures run { Runs (write_changes due settings) bus.old 3 3 bus.new result }
{
    write_output(bus, settings, due.output)?;
    write_reflected(bus, settings, due.reflected)?;
    write_bias(bus, settings, due.bias)
}

// Takes new settings. They are stored before they are written, and stay stored if that fails.
fn apply_settings(
    bus: &mut Bus,
    channel: RfChannel,
    settings: ChannelSettings,
) -> Result<RfChannel, (RfChannel, Wrong)>
    requires { HasRoom bus.old 3 3 }
    ensures lent { bus.new.log.ghost_name ≡ bus.old.log.ghost_name }
    ensures run { Runs (apply_settings channel settings) bus.old 3 3 bus.new result }
{
    let old = channel.settings;
    let equal = rf_changes::same_settings(old, settings);
    if equal {
        return Ok(channel);
    }
    let due = rf_changes::changes_of(old, settings);
    let stored = rf_changes::store(channel, settings);
    match write_changes(bus, settings, due) {
        Ok(()) => Ok(stored),
        Err(wrong) => Err((stored, wrong)),
    }
}

// Raises the event of settings that are in force.
fn follow_up(bus: &mut Bus, channel: RfChannel, wanted: ChannelState, givens: Givens) -> Outcome
    requires { HasRoom bus.old 5 1 }
    ensures lent { bus.new.log.ghost_name ≡ bus.old.log.ghost_name }
    ensures run { Runs (following channel wanted givens) bus.old 5 1 bus.new result }
{
    match rf_changes::event_of(channel.state, wanted) {
        Some(event) => rf_call::send(bus, channel, event, givens),
        None => Outcome::Live(channel, Answer::Done(Report::Plain)),
    }
}

// How settings that were not all written end the call.
fn refuse(bus: &mut Bus, channel: RfChannel, wrong: Wrong) -> Outcome
    requires { HasRows bus.old 2 }
    ensures lent { bus.new.log.ghost_name ≡ bus.old.log.ghost_name }
    ensures run { Runs (refusing channel wrong) bus.old 2 0 bus.new result }
{
    match wrong {
        Wrong::Range => Outcome::Live(channel, Answer::Range),
        Wrong::Chip => Outcome::Live(channel, Answer::Chip),
        Wrong::Bus => rf_call::halt(bus, Cause::Bus),
    }
}

// Takes new settings and raises the event that they ask for.
pub fn handle_settings(
    bus: &mut Bus,
    channel: RfChannel,
    settings: ChannelSettings,
    givens: Givens,
) -> Outcome
    requires { HasRoom bus.old 8 4 }
    ensures lent { bus.new.log.ghost_name ≡ bus.old.log.ghost_name }
    ensures run { Runs (handle_settings channel settings givens) bus.old 8 4 bus.new result }
{
    match apply_settings(bus, channel, settings) {
        Ok(channel) => follow_up(bus, channel, settings.state, givens),
        Err((channel, wrong)) => refuse(bus, channel, wrong),
    }
}

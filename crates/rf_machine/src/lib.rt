// What an event does to a channel: the plan of the table, then the hardware, then the channel itself.
#![tactic(auto)]

ghost use Rattle.std.specs.Prelude.{◌≡◌};
ghost use Rattle.bus.specs.Run.{Runs, HasRoom};
ghost use Rattle.rf_machine.specs.declared.Cause.TheVariants.{Bus as Lost};
ghost use Rattle.rf_machine.specs.Hardware.{pinch_off, apply_bias, enabled, start_powerup, reset_interlocks, enable_output, start_disable, hardware};
ghost use Rattle.rf_machine.specs.Event.{signal_after, power_after, moved, process_event};

use bus::{Bus, Error, Failed, Note};
use rf_channel::{Action, ChannelSettings, Events, Plan, RfChannel, States};

// Why a channel halts. The original panics.
#[derive(Clone, Copy)]
pub enum Cause {
    Bus,
    Alarm,
    Temperature,
    Threshold,
    Level,
    Bias,
}

// A chip that does not answer halts the channel.
impl From<Failed> for Cause {
    ghost from_gives = { λ _ e. e ≡ Lost };

    fn from(_failed: Failed) -> Cause {
        Cause::Bus
    }
}

// What the table says of an event.
#[derive(Clone, Copy)]
pub enum Told {
    Moved,
    NoTransition,
    GuardFalse,
}

// Has the bias chip hold the amplifier in pinch-off. 3.2 V is in the chip's range.
pub fn pinch_off(bus: &mut Bus) -> Result<(), Cause>
    requires { HasRoom bus.old 1 1 }
    ensures lent { bus.new.log.ghost_name ≡ bus.old.log.ghost_name }
    ensures run { Runs pinch_off bus.old 1 1 bus.new result }
{
    let Ok(_) = dac7571::set_voltage_at(bus, 3.2) else {
        return Err(Cause::Bus);
    };
    Ok(())
}

// The bias voltage of the settings is the negative of the chip's output.
#[tactic(auto, unfolding(crate::specs::Hardware::apply_bias))]
pub fn apply_bias(bus: &mut Bus, settings: ChannelSettings) -> Result<f32, Error>
    requires { HasRoom bus.old 1 1 }
    ensures lent { bus.new.log.ghost_name ≡ bus.old.log.ghost_name }
    ensures run { Runs (apply_bias settings) bus.old 1 1 bus.new result }
{
    let voltage = -settings.bias_voltage;
    dac7571::set_voltage_at(bus, voltage)
}

// Begins to power up. The supplies take their time; the table has the deadline.
fn start_powerup(bus: &mut Bus) -> Result<(), Cause>
    requires { HasRoom bus.old 2 1 }
    ensures lent { bus.new.log.ghost_name ≡ bus.old.log.ghost_name }
    ensures run { Runs start_powerup bus.old 2 1 bus.new result }
{
    pinch_off(bus)?;
    bus.note(Note::EnablePower(true));
    Ok(())
}

// A falling edge of signal_on resets the interlocks.
fn reset_interlocks(bus: &mut Bus)
    requires { HasRoom bus.old 3 0 }
    ensures lent { bus.new.log.ghost_name ≡ bus.old.log.ghost_name }
    ensures run { Runs reset_interlocks bus.old 3 0 bus.new (Ok tt) }
{
    bus.note(Note::SignalOn(true));
    bus.note(Note::Wait(1000));
    bus.note(Note::SignalOn(false));
}

// What a bias that was not taken means when the output is switched on.
fn enabled(output: Result<f32, Error>) -> Result<(), Cause>
    ensures { result ≡ enabled output }
{
    match output {
        Ok(_) => Ok(()),
        Err(Error::Range) => Err(Cause::Bias),
        Err(Error::Bus) => Err(Cause::Bus),
    }
}

// Switches the output on. The interlock's level must be above what the detector shows without RF.
fn enable_output(bus: &mut Bus, settings: ChannelSettings) -> Result<(), Cause>
    requires { HasRoom bus.old 2 1 }
    ensures lent { bus.new.log.ghost_name ≡ bus.old.log.ghost_name }
    ensures run { Runs (enable_output settings) bus.old 2 1 bus.new result }
{
    let transform = settings.output_power_transform;
    let lowest = transform.map(0.1);
    if settings.output_interlock_threshold > lowest {
        let biased = apply_bias(bus, settings);
        let Ok(_) = biased else {
            return enabled(biased);
        };
        bus.note(Note::SignalOn(true));
        Ok(())
    } else {
        Err(Cause::Level)
    }
}

// Switches RF off and begins to power down.
fn start_disable(bus: &mut Bus) -> Result<(), Cause>
    requires { HasRoom bus.old 3 1 }
    ensures lent { bus.new.log.ghost_name ≡ bus.old.log.ghost_name }
    ensures run { Runs start_disable bus.old 3 1 bus.new result }
{
    bus.note(Note::SignalOn(false));
    pinch_off(bus)?;
    bus.note(Note::EnablePower(false));
    Ok(())
}

// What an action does to the hardware.
fn act(bus: &mut Bus, action: Action, settings: ChannelSettings) -> Result<(), Cause>
    requires { HasRoom bus.old 3 1 }
    ensures lent { bus.new.log.ghost_name ≡ bus.old.log.ghost_name }
    ensures run { Runs (hardware action settings) bus.old 3 1 bus.new result }
{
    match action {
        Action::Nothing => Ok(()),
        Action::StartPowerup => start_powerup(bus),
        Action::ResetInterlocks => {
            reset_interlocks(bus);
            Ok(())
        }
        Action::EnableOutput => enable_output(bus, settings),
        Action::StartDisable | Action::HandleFault => start_disable(bus),
        Action::HandleTrip | Action::DisableRfSwitch => {
            bus.note(Note::SignalOn(false));
            Ok(())
        }
    }
}

// The level at which an action leaves each pin.

fn signal_after(action: Action, level: bool) -> bool
    ensures { result ≡ signal_after action level }
{
    match action {
        Action::Nothing | Action::StartPowerup => level,
        Action::EnableOutput => true,
        Action::ResetInterlocks
        | Action::StartDisable
        | Action::HandleFault
        | Action::HandleTrip
        | Action::DisableRfSwitch => false,
    }
}

fn power_after(action: Action, level: bool) -> bool
    ensures { result ≡ power_after action level }
{
    match action {
        Action::StartPowerup => true,
        Action::StartDisable | Action::HandleFault => false,
        Action::Nothing
        | Action::ResetInterlocks
        | Action::EnableOutput
        | Action::HandleTrip
        | Action::DisableRfSwitch => level,
    }
}

// The channel in its next state.
fn arrive(channel: RfChannel, action: Action, state: States) -> RfChannel
    ensures { result ≡ moved channel action state }
{
    let signal_on = signal_after(action, channel.signal_on);
    let enable_power = power_after(action, channel.enable_power);
    RfChannel {
        state,
        signal_on,
        enable_power,
        ..channel
    }
}

// Processes an event: the table's plan, the hardware, and the channel in its next state. Where the table has
// nothing to do, the channel stays as it is.
pub fn process_event(
    bus: &mut Bus,
    channel: RfChannel,
    event: Events,
    tick: u32,
    watchdog: bool,
) -> Result<(RfChannel, Told), Cause>
    requires { HasRoom bus.old 3 1 }
    ensures lent { bus.new.log.ghost_name ≡ bus.old.log.ghost_name }
    ensures run { Runs (process_event channel event tick watchdog) bus.old 3 1 bus.new result }
{
    match rf_plan::plan_of(channel, event, tick, watchdog) {
        Plan::NoTransition => Ok((channel, Told::NoTransition)),
        Plan::GuardFalse => Ok((channel, Told::GuardFalse)),
        Plan::Go(action, state) => {
            act(bus, action, channel.settings)?;
            Ok((arrive(channel, action, state), Told::Moved))
        }
    }
}

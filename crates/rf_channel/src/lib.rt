// An RF channel: its settings, its state and its two output pins; the clock and the guards.
#![tactic(auto)]

ghost use Rattle.std.specs.Prelude.{◌≡◌};
ghost use Rattle.rf_channel.specs.Guards.{late_of, powerup_of, enable_of};

use linear_transformation::LinearTransformation;

// What the settings ask of a channel.
#[derive(Clone, Copy, PartialEq, Eq)]
pub enum ChannelState {
    Off,
    Powered,
    Enabled,
}

#[derive(Clone, Copy, PartialEq, Eq)]
pub enum ChannelFault {
    OverTemperature,
    UnderTemperature,
    SupplyAlert,
}

#[derive(Clone, Copy, PartialEq, Eq)]
pub enum Interlock {
    Input,
    Output,
    Reflected,
}

#[derive(Clone, Copy, PartialEq)]
pub struct ChannelSettings {
    pub output_interlock_threshold: f32,
    pub bias_voltage: f32,
    pub state: ChannelState,
    pub input_power_transform: LinearTransformation,
    pub output_power_transform: LinearTransformation,
    pub reflected_power_transform: LinearTransformation,
}

// A deadline is a tick.
#[derive(Clone, Copy, PartialEq, Eq)]
pub enum States {
    Blocked(ChannelFault),
    Off,
    Powerup(u32),
    Powered,
    Enabled,
    Tripped(Interlock),
    Powerdown(u32),
}

#[derive(Clone, Copy, PartialEq, Eq)]
pub enum Events {
    InterlockReset,
    Update,
    Disable,
    DisableRf,
    Trip(Interlock),
    Fault(ChannelFault),
}

#[derive(Clone, Copy, PartialEq)]
pub struct RfChannel {
    pub settings: ChannelSettings,
    pub state: States,
    pub signal_on: bool,
    pub enable_power: bool,
}

// What is done to the hardware on the way from one state to the next.
#[derive(Clone, Copy, PartialEq, Eq)]
pub enum Action {
    Nothing,
    StartPowerup,
    ResetInterlocks,
    EnableOutput,
    StartDisable,
    HandleFault,
    HandleTrip,
    DisableRfSwitch,
}

// What an event does: it is not listed for the state, its guard is false, or this action and this next state.
// No Result: the first two are answers of the table, which a caller is told as such, and no failures.
#[derive(Clone, Copy, PartialEq, Eq)]
pub enum Plan {
    NoTransition,
    GuardFalse,
    Go(Action, States),
}

// The tick is past the deadline, by less than half of the clock's round.
pub fn late(tick: u32, deadline: u32) -> bool
    ensures { result ≡ late_of tick deadline }
{
    matches!(tick.wrapping_sub(deadline), 1..=2147483647)
}

// The settings ask for more than Off.
pub fn guard_powerup(settings: ChannelSettings) -> bool
    ensures { result ≡ powerup_of settings }
{
    settings.state != ChannelState::Off
}

// The output may be switched on. A threshold that is a NaN passes.
pub fn guard_enable(channel: RfChannel, watchdog: bool) -> bool
    ensures { result ≡ enable_of channel watchdog }
{
    let settings = channel.settings;
    let lowest = settings.output_power_transform.map(0.1);
    !watchdog
        && !(settings.output_interlock_threshold < lowest)
        && settings.state == ChannelState::Enabled
        && channel.enable_power
}

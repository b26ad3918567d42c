// The tests of an update, the fault test and the trip test, and the lights of the front panel.
#![tactic(auto)]

ghost use Rattle.std.specs.Prelude.{◌≡◌};
ghost use Rattle.rf_tests.specs.Tests.{check_faults, overdrive_source, is_enabled, power_status};

use rf_call::{Givens, PowerStatus};
use rf_channel::{ChannelFault, Interlock, RfChannel, States};
use rf_machine::Cause;

// The fault test: a temperature that is not known comes before all else, and halts the channel.
pub fn check_faults(givens: Givens) -> Result<Option<ChannelFault>, Cause>
    ensures { result ≡ check_faults givens }
{
    let Some(celsius) = givens.temperature else {
        return Err(Cause::Temperature);
    };
    Ok(if celsius > 60.0 {
        Some(ChannelFault::OverTemperature)
    } else if celsius < 5.0 {
        Some(ChannelFault::UnderTemperature)
    } else if givens.alert {
        None
    } else {
        Some(ChannelFault::SupplyAlert)
    })
}

// The trip test. The schematic allows 25 dBm; 20 dBm leaves a margin.
pub fn get_overdrive_source(power: f32, givens: Givens) -> Option<Interlock>
    ensures { result ≡ overdrive_source power givens }
{
    if power > 20.0 {
        Some(Interlock::Input)
    } else if givens.output_overdrive {
        Some(Interlock::Output)
    } else if givens.reflected_overdrive {
        Some(Interlock::Reflected)
    } else {
        None
    }
}

// The state is Enabled: of the pin there is `is_enabled` of rf_methods.
pub fn state_is_enabled(state: States) -> bool
    ensures { result ≡ is_enabled state }
{
    state == States::Enabled
}

pub fn power_status(channel: RfChannel) -> PowerStatus
    ensures { result ≡ power_status channel }
{
    PowerStatus {
        powered: channel.enable_power,
        rf_disabled: !channel.signal_on,
        blocked: matches!(channel.state, States::Blocked(_)),
    }
}

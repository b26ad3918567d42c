// What a channel is asked without its bus: the original's six methods that read it, by value.
// Functions and no methods: an `impl` of the channel can stand only in its own crate.
#![tactic(auto)]

ghost use Rattle.std.specs.Prelude.{◌≡◌};
ghost use Rattle.rf_methods.specs.Methods.{detected};

use linear_transformation::LinearTransformation;
use rf_channel::{ChannelSettings, RfChannel};

// The RF output is on: the pin signal_on is set high.
pub fn is_enabled(channel: RfChannel) -> bool
    ensures { result ≡ channel.signal_on }
{
    channel.signal_on
}

// The channel is powered: the pin enable_power is set high.
pub fn is_powered(channel: RfChannel) -> bool
    ensures { result ≡ channel.enable_power }
{
    channel.enable_power
}

// The bias of the amplifier, as it stands in the settings.
pub fn get_bias_voltage(channel: RfChannel) -> f32
    ensures { result ≡ channel.settings.bias_voltage }
{
    channel.settings.bias_voltage
}

pub fn settings(channel: RfChannel) -> ChannelSettings
    ensures { result ≡ channel.settings }
{
    channel.settings
}

// The power that a detector's millivolts stand for.
fn detected_power(transform: LinearTransformation, millivolts: u16) -> f32
    ensures { result ≡ detected transform millivolts }
{
    transform.map(millivolts as f32 / 1000.0)
}

// The reflected power in dBm, from what the processor's converter reads of its detector.
pub fn get_reflected_power(channel: RfChannel, millivolts: u16) -> f32
    ensures { result ≡ detected channel.settings.reflected_power_transform millivolts }
{
    detected_power(channel.settings.reflected_power_transform, millivolts)
}

// The output power in dBm, likewise.
pub fn get_output_power(channel: RfChannel, millivolts: u16) -> f32
    ensures { result ≡ detected channel.settings.output_power_transform millivolts }
{
    detected_power(channel.settings.output_power_transform, millivolts)
}

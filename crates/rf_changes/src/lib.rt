// What has changed in new settings, and the event that they raise.
#![tactic(auto)]

ghost use Rattle.std.specs.Prelude.{◌≡◌};
ghost use Rattle.rf_changes.specs.Changes.{same, changes_of, stored, event_of};

use rf_channel::{ChannelSettings, ChannelState, Events, RfChannel, States};

// What has changed: a write is due.
#[derive(Clone, Copy)]
pub struct Changes {
    pub output: bool,
    pub reflected: bool,
    pub bias: bool,
}

// Equality as f32's ==: zeros of either sign are the same, a NaN is never the same.
pub fn same_settings(a: ChannelSettings, b: ChannelSettings) -> bool
    ensures { result ≡ same a b }
{
    a == b
}

// Levels are compared as what the transforms map them to.
pub fn changes_of(old: ChannelSettings, new: ChannelSettings) -> Changes
    ensures { result ≡ changes_of old new }
{
    let old_output = old.output_power_transform;
    let new_output = new.output_power_transform;
    let highest = rf_devices::MAXIMUM_REFLECTED_POWER_DBM;
    Changes {
        output: old_output.map(old.output_interlock_threshold)
            != new_output.map(new.output_interlock_threshold),
        reflected: old.reflected_power_transform.map(highest)
            != new.reflected_power_transform.map(highest),
        bias: new.bias_voltage != old.bias_voltage,
    }
}

// The channel with new settings.
pub fn store(channel: RfChannel, settings: ChannelSettings) -> RfChannel
    ensures { result ≡ stored channel settings }
{
    RfChannel {
        settings,
        ..channel
    }
}

// The event that new settings raise. It is always right to power off. Where RF is or was on and is not
// wanted, it is switched off; a channel that is off is powered up. From Powered to Enabled the periodic
// update leads.
pub fn event_of(state: States, wanted: ChannelState) -> Option<Events>
    ensures { result ≡ event_of state wanted }
{
    match (wanted, state) {
        (ChannelState::Off, _) => Some(Events::Disable),
        (_, States::Off) => Some(Events::InterlockReset),
        (ChannelState::Powered, States::Enabled | States::Tripped(_)) => Some(Events::DisableRf),
        _ => None,
    }
}

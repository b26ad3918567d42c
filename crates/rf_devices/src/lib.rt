// The chips of one channel, as its calls use them: the input power, and the two trip levels.
#![tactic(auto)]

ghost use Rattle.std.specs.Prelude.{◌≡◌};
ghost use Rattle.bus.specs.Run.{Runs, HasRoom};
ghost use Rattle.interlock.specs.Level.{level_code};
ghost use Rattle.ad5627.specs.Voltage.{send_code};
ghost use Rattle.rf_devices.specs.Devices.{get_input_power, apply_output, set_reflected};

use ad5627::Dac;
use bus::{Bus, Error, Failed};
use linear_transformation::LinearTransformation;
use rf_channel::ChannelSettings;

// The level of the reflected power's interlock, in dBm. It protects the hardware and is no setting.
pub const MAXIMUM_REFLECTED_POWER_DBM: f32 = 30.0;

// Measures the input power, in dBm.
pub fn get_input_power(bus: &mut Bus, settings: ChannelSettings) -> Result<f32, Failed>
    requires { HasRoom bus.old 1 1 }
    ensures lent { bus.new.log.ghost_name ≡ bus.old.log.ghost_name }
    ensures run { Runs (get_input_power settings) bus.old 1 1 bus.new result }
{
    let voltage = mcp3221::get_voltage_at(bus, 3.3)?;
    let transform = settings.input_power_transform;
    Ok(transform.map(voltage))
}

// Sends a trip level to an output of the interlock chip. The chip compares a detector's volts with it.
fn send_level(
    bus: &mut Bus,
    transform: LinearTransformation,
    level: f32,
    dac: Dac,
) -> Result<f32, Error>
    requires { HasRoom bus.old 1 1 }
    ensures lent { bus.new.log.ghost_name ≡ bus.old.log.ghost_name }
    ensures run { Runs (send_code dac (level_code transform level)) bus.old 1 1 bus.new result }
{
    let Some(code) = interlock::level_code(transform, level) else {
        return Err(Error::Range);
    };
    ad5627::set_code_at(bus, code, dac)
}

// Sends the output power's trip level to the interlock chip.
#[tactic(auto, unfolding(crate::specs::Devices::apply_output))]
pub fn apply_output_interlock_threshold(
    bus: &mut Bus,
    settings: ChannelSettings,
) -> Result<f32, Error>
    requires { HasRoom bus.old 1 1 }
    ensures lent { bus.new.log.ghost_name ≡ bus.old.log.ghost_name }
    ensures run { Runs (apply_output settings) bus.old 1 1 bus.new result }
{
    let transform = settings.output_power_transform;
    let level = settings.output_interlock_threshold;
    send_level(bus, transform, level, Dac::B)
}

// Sends a trip level of the reflected power to the interlock chip.
#[tactic(auto, unfolding(crate::specs::Devices::set_reflected))]
pub fn set_reflected_interlock_threshold(
    bus: &mut Bus,
    settings: ChannelSettings,
    power: f32,
) -> Result<f32, Error>
    requires { HasRoom bus.old 1 1 }
    ensures lent { bus.new.log.ghost_name ≡ bus.old.log.ghost_name }
    ensures run { Runs (set_reflected settings power) bus.old 1 1 bus.new result }
{
    send_level(bus, settings.reflected_power_transform, power, Dac::A)
}

// The status of a channel: seven numbers for the caller's slice, and flags beside them.
#![tactic(auto)]

ghost use Rattle.std.specs.Prelude.{◌≤◌, ◌≡◌, length};
ghost use Rattle.bus.specs.Run.{Runs, HasRoom};
ghost use Rattle.rf_status.specs.Numbers.{p28v_current_of, p5v_current_of, p5v_voltage_of, filled, shown_of};
ghost use Rattle.rf_status.specs.Status.{numbers_of, measuring, status_of, getting_status};

use ads7924::Four;
use bus::Bus;
use rf_call::{Answer, ChannelStatus, Givens, Outcome, Report};
use rf_channel::RfChannel;
use rf_machine::Cause;

// The millivolts of the two power detectors, as the processor's own converter reads them.
#[derive(Clone, Copy)]
pub struct Detectors {
    pub output: u16,
    pub reflected: u16,
}

// The seven numbers, in the order in which the caller gets them.
#[derive(Clone, Copy)]
pub struct Numbers {
    pub temperature: f32,
    pub p28v_current: f32,
    pub p5v_current: f32,
    pub p5v_voltage: f32,
    pub input_power: f32,
    pub reflected_power: f32,
    pub output_power: f32,
}

// The current of the 28 V rail: 100 Ohm over 100 mOhm over 4.3 kOhm of the sensor.
fn p28v_current(volts: f32) -> f32
    ensures { result ≡ p28v_current_of volts }
{
    volts * (100.0 / 0.1 / 4300.0)
}

// The current of the 5 V rail: its sensor has 6.2 kOhm.
fn p5v_current(volts: f32) -> f32
    ensures { result ≡ p5v_current_of volts }
{
    volts * (100.0 / 0.1 / 6200.0)
}

// The 5 V rail is measured behind a divider of 15 to 10.
fn p5v_voltage(volts: f32) -> f32
    ensures { result ≡ p5v_voltage_of volts }
{
    volts * 2.5
}

fn numbers_of(
    channel: RfChannel,
    detectors: Detectors,
    four: Four,
    temperature: f32,
    input_power: f32,
) -> Numbers
    ensures { result ≡ numbers_of channel.settings detectors four temperature input_power }
{
    Numbers {
        temperature,
        p28v_current: p28v_current(four.v0),
        p5v_current: p5v_current(four.v1),
        p5v_voltage: p5v_voltage(four.v3),
        input_power,
        reflected_power: rf_methods::get_reflected_power(channel, detectors.reflected),
        output_power: rf_methods::get_output_power(channel, detectors.output),
    }
}

// Measures, in this order: the four voltages, the temperature, the input power.
fn measure(
    bus: &mut Bus,
    channel: RfChannel,
    detectors: Detectors,
    temperature: Option<f32>,
) -> Result<Numbers, Cause>
    requires { HasRoom bus.old 5 5 }
    ensures lent { bus.new.log.ghost_name ≡ bus.old.log.ghost_name }
    ensures run { Runs (measuring channel.settings detectors temperature) bus.old 5 5 bus.new result }
{
    let four = ads7924::get_voltages_at(bus)?;
    let Some(celsius) = temperature else {
        return Err(Cause::Temperature);
    };
    let dbm = rf_devices::get_input_power(bus, channel.settings)?;
    Ok(numbers_of(channel, detectors, four, celsius, dbm))
}

// Puts the seven numbers into the caller's slice. What lies behind them stays.
fn fill(numbers: &mut [f32], seven: Numbers)
    requires { 7 ≤ length numbers.old }
    ensures { numbers.new ≡ filled seven numbers.old }
{
    numbers[..7].copy_from_slice(&[
        seven.temperature,
        seven.p28v_current,
        seven.p5v_current,
        seven.p5v_voltage,
        seven.input_power,
        seven.reflected_power,
        seven.output_power,
    ]);
}

// The flags and the state. The alert pin is low when there is an alert.
fn status_of(channel: RfChannel, givens: Givens) -> ChannelStatus
    ensures { result ≡ status_of channel givens }
{
    ChannelStatus {
        reflected_overdrive: givens.reflected_overdrive,
        output_overdrive: givens.output_overdrive,
        alert: !givens.alert,
        state: channel.state,
    }
}

// The status of the channel. Only a whole one is put into the caller's slice.
pub fn get_status(
    bus: &mut Bus,
    numbers: &mut [f32],
    channel: RfChannel,
    detectors: Detectors,
    givens: Givens,
) -> Outcome
    requires { HasRoom bus.old 7 5 × (7 ≤ length numbers.old) }
    ensures lent { bus.new.log.ghost_name ≡ bus.old.log.ghost_name }
    ensures run { Runs (getting_status channel detectors givens) bus.old 7 5 bus.new result }
    ensures shown { numbers.new ≡ shown_of (measuring channel.settings detectors givens.temperature bus.old.replies.now bus.old.at.slot bus.old.at.taken).ans numbers.old }
{
    match measure(bus, channel, detectors, givens.temperature) {
        Ok(seven) => {
            fill(numbers, seven);
            let status = status_of(channel, givens);
            Outcome::Live(channel, Answer::Done(Report::Status(status)))
        }
        Err(cause) => rf_call::halt(bus, cause),
    }
}

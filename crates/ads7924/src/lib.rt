// ads7924: a converter of four inputs that raises an alarm when a limit is passed, over the bus. The
// forms named `_at` are for callers that have made sure of the room; the crate `ads7924_entry` has the others.
#![tactic(auto)]

ghost use Rattle.std.specs.Prelude.{◌+◌, ◌*◌, ◌≤◌, ◌≡◌};
ghost use Rattle.bus.specs.Run.{transfer, Runs, HasRoom};
ghost use Rattle.ads7924.specs.Layout.{number, from, bit, enabling, alarmed};
ghost use Rattle.ads7924.specs.Calls.{write, read, opening, sample, volts, get_voltage, get_voltages, clear_alarm, arm, set_thresholds};

use bus::{Bus, Eight, Error, Failed, Note, Transfer};

const ADDRESS: u8 = 0x49;

// Registers. The words and the limits are two to a channel, and these are channel 0's.
const MODE_CONTROL: u8 = 0x00;

const INTERRUPT_CONTROL: u8 = 0x01;

const WORDS: u8 = 0x02;

const LIMITS: u8 = 0x0A;

const INTERRUPT_CONFIG: u8 = 0x12;

const RESET: u8 = 0x16;

// The bit of a command that goes on to the registers after the first.
const INC: u8 = 0x80;

// What is written to them.
const IDLE: u8 = 0x00;

const AWAKE: u8 = 0x80;

const SCANNING: u8 = 0xEC;

const ALARM_AFTER_ONE: u8 = 0x20;

const RESET_CODE: u8 = 0xAA;

#[derive(Clone, Copy)]
pub enum Channel {
    Zero,
    One,
    Two,
    Three,
}

// The voltages of the four channels.
#[derive(Clone, Copy)]
pub struct Four {
    pub v0: f32,
    pub v1: f32,
    pub v2: f32,
    pub v3: f32,
}

// The command for a channel's two registers, where `first` is channel 0's first.
fn command_of(first: u8, channel: Channel) -> u8
    requires { first ≤ 0x0A }
    ensures { result ≡ from (first + 2 * number channel) }
{
    INC + (first + 2 * (channel as u8))
}

fn write_register(bus: &mut Bus, register: u8, value: u8) -> Result<Eight, Failed>
    requires { HasRoom bus.old 1 1 }
    ensures lent { bus.new.log.ghost_name ≡ bus.old.log.ghost_name }
    ensures run { Runs (transfer (write register value)) bus.old 1 1 bus.new result }
{
    bus.transfer(Transfer::Write2 {
        address: ADDRESS,
        first: register,
        second: value,
    })
}

fn read_registers(bus: &mut Bus, command: u8, count: u8) -> Result<Eight, Failed>
    requires { HasRoom bus.old 1 1 }
    ensures lent { bus.new.log.ghost_name ≡ bus.old.log.ghost_name }
    ensures run { Runs (transfer (read command count)) bus.old 1 1 bus.new result }
{
    bus.transfer(Transfer::WriteRead {
        address: ADDRESS,
        command,
        count,
    })
}

// Resets the chip, and has it scan with an alarm as soon as a limit is passed.
pub fn default_at(bus: &mut Bus) -> Result<(), Failed>
    requires { HasRoom bus.old 5 4 }
    ensures lent { bus.new.log.ghost_name ≡ bus.old.log.ghost_name }
    ensures run { Runs opening bus.old 5 4 bus.new result }
{
    write_register(bus, RESET, RESET_CODE)?;
    // The chip is given the time that a reset takes.
    bus.note(Note::Wait(500));
    write_register(bus, MODE_CONTROL, AWAKE)?;
    write_register(bus, INTERRUPT_CONFIG, ALARM_AFTER_ONE)?;
    write_register(bus, MODE_CONTROL, SCANNING)?;
    Ok(())
}

// Reads some registers while the chip is idle, and has it scan again.
fn sample_at(bus: &mut Bus, command: u8, count: u8) -> Result<Eight, Failed>
    requires { HasRoom bus.old 4 4 }
    ensures lent { bus.new.log.ghost_name ≡ bus.old.log.ghost_name }
    ensures run { Runs (sample command count) bus.old 4 4 bus.new result }
{
    write_register(bus, MODE_CONTROL, IDLE)?;
    let data = read_registers(bus, command, count)?;
    write_register(bus, MODE_CONTROL, AWAKE)?; // out of idle
    write_register(bus, MODE_CONTROL, SCANNING)?; // as the opening left it
    Ok(data)
}

fn volts_of(upper: u8, lower: u8) -> f32
    ensures { result ≡ volts upper lower }
{
    conversions::ads7924_volts(u16::from_be_bytes([upper, lower]) / 16)
}

// One channel's voltage.
pub fn get_voltage_at(bus: &mut Bus, channel: Channel) -> Result<f32, Failed>
    requires { HasRoom bus.old 4 4 }
    ensures lent { bus.new.log.ghost_name ≡ bus.old.log.ghost_name }
    ensures run { Runs (get_voltage channel) bus.old 4 4 bus.new result }
{
    let data = sample_at(bus, command_of(WORDS, channel), 2)?;
    Ok(volts_of(data.b0, data.b1))
}

// All four voltages.
pub fn get_voltages_at(bus: &mut Bus) -> Result<Four, Failed>
    requires { HasRoom bus.old 4 4 }
    ensures lent { bus.new.log.ghost_name ≡ bus.old.log.ghost_name }
    ensures run { Runs get_voltages bus.old 4 4 bus.new result }
{
    let data = sample_at(bus, INC + WORDS, 8)?;
    Ok(Four {
        v0: volts_of(data.b0, data.b1),
        v1: volts_of(data.b2, data.b3),
        v2: volts_of(data.b4, data.b5),
        v3: volts_of(data.b6, data.b7),
    })
}

// The channels that may raise the alarm and have passed a limit.
fn alarmed(byte: u8) -> u8
    ensures { result ≡ alarmed byte }
{
    let enabled = byte % 16;
    let passed = byte / 16;
    enabled & passed
}

// Clears the alarm, which reading its register does. Bit k of the answer is set where channel k raised it.
pub fn clear_alarm_at(bus: &mut Bus) -> Result<u8, Failed>
    requires { HasRoom bus.old 1 1 }
    ensures lent { bus.new.log.ghost_name ≡ bus.old.log.ghost_name }
    ensures run { Runs clear_alarm bus.old 1 1 bus.new result }
{
    let alarm = read_registers(bus, INTERRUPT_CONTROL, 1)?;
    Ok(alarmed(alarm.b0))
}

fn bit_of(channel: Channel) -> u8
    ensures { result ≡ bit channel }
{
    1 << (channel as u8)
}

// The interrupt control byte with a channel's alarm enabled.
#[tactic(auto, using(crate::proofs::Laws::or_enables))]
fn enable(channel: Channel, byte: u8) -> u8
    ensures { result ≡ enabling channel byte }
{
    byte | bit_of(channel)
}

// Sets a channel's limits, and enables its alarm.
fn arm_at(bus: &mut Bus, channel: Channel, upper: u8, lower: u8) -> Result<(), Error>
    requires { HasRoom bus.old 3 3 }
    ensures lent { bus.new.log.ghost_name ≡ bus.old.log.ghost_name }
    ensures run { Runs (arm channel upper lower) bus.old 3 3 bus.new result }
{
    bus.transfer(Transfer::Write3 {
        address: ADDRESS,
        first: command_of(LIMITS, channel),
        second: upper,
        third: lower,
    })?;
    let data = read_registers(bus, INTERRUPT_CONTROL, 1)?;
    write_register(bus, INTERRUPT_CONTROL, enable(channel, data.b0))?;
    Ok(())
}

// Sets a channel's limits in volts. Nothing is sent where one is out of bounds.
#[tactic(auto, unfolding(crate::specs::Calls::set_thresholds))]
pub fn set_thresholds_at(bus: &mut Bus, channel: Channel, low: f32, high: f32) -> Result<(), Error>
    requires { HasRoom bus.old 3 3 }
    ensures lent { bus.new.log.ghost_name ≡ bus.old.log.ghost_name }
    ensures run { Runs (set_thresholds channel low high) bus.old 3 3 bus.new result }
{
    let limits = conversions::ads7924_codes(low, high).ok_or(Error::Range)?;
    let upper = (limits.high / 16) as u8;
    let lower = (limits.low / 16) as u8;
    arm_at(bus, channel, upper, lower)
}

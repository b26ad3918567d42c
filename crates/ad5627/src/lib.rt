// ad5627: a converter of two outputs, written over the bus.
#![tactic(auto)]

ghost use Rattle.std.specs.Prelude.{◌≤◌, ◌≡◌, ◌*◌, ◌/◌, ◌%◌};
ghost use Rattle.bus.specs.Run.{Runs, HasRoom};
ghost use Rattle.gate.specs.Enter.{Enters};
ghost use Rattle.ad5627.specs.Opening.{opening, own_opening};
ghost use Rattle.ad5627.specs.Voltage.{dac_byte, write_code, set_voltage, own_voltage};

use bus::{Bus, Error, Failed, Transfer};
use gate::Told;

// With the address pin not connected.
const ADDRESS: u8 = 0x0E;

// Which output a write is for.
#[derive(Clone, Copy)]
pub enum Dac {
    A,
    B,
    Both,
}

// The first byte of a write: the output's bits, below those of the command, which are 0.
fn dac_byte(dac: Dac) -> u8
    ensures { result ≡ dac_byte dac }
{
    match dac {
        Dac::A => 0,
        Dac::B => 1,
        Dac::Both => 7,
    }
}

// Resets both outputs and powers the internal reference up, for callers that have made sure of the room.
pub fn default_at(bus: &mut Bus) -> Result<(), Failed>
    requires { HasRoom bus.old 2 2 }
    ensures lent { bus.new.log.ghost_name ≡ bus.old.log.ghost_name }
    ensures run { Runs opening bus.old 2 2 bus.new result }
{
    let reset = Transfer::Write3 {
        address: ADDRESS,
        first: 0x2F,
        second: 0x00,
        third: 0x00,
    };
    let reference = Transfer::Write3 {
        address: ADDRESS,
        first: 0x3F,
        second: 0x00,
        third: 0x01,
    };
    bus.transfer(reset)?;
    bus.transfer(reference)?;
    Ok(())
}

// What is written to an output for a code: its twelve bits stand highest in the sixteen, the high byte first.
fn write_of(dac: Dac, code: u16) -> Transfer
    requires { code ≤ 4095 }
    ensures { result ≡ Transfer.Write3 0x0E (dac_byte dac) (16 * code / 256) (16 * code % 256) }
{
    let data = 16 * code;
    let [high, low] = data.to_be_bytes();
    Transfer::Write3 {
        address: ADDRESS,
        first: dac_byte(dac),
        second: high,
        third: low,
    }
}

// Sends a code to an output or both, for callers that have made sure of the room and have a code of
// twelve bits. It answers the volts that the code stands for.
pub fn set_code_at(bus: &mut Bus, code: u16, dac: Dac) -> Result<f32, Error>
    requires { HasRoom bus.old 1 1 × (code ≤ 4095) }
    ensures lent { bus.new.log.ghost_name ≡ bus.old.log.ghost_name }
    ensures run { Runs (write_code dac code) bus.old 1 1 bus.new result }
{
    bus.transfer(write_of(dac, code))?;
    Ok(conversions::volts_of(2.5, code))
}

// Programs an output or both, for callers that have made sure of the room.
pub fn set_voltage_at(bus: &mut Bus, voltage: f32, dac: Dac) -> Result<f32, Error>
    requires { HasRoom bus.old 1 1 }
    ensures lent { bus.new.log.ghost_name ≡ bus.old.log.ghost_name }
    ensures run { Runs (set_voltage voltage dac) bus.old 1 1 bus.new result }
{
    let Some(code) = conversions::ad5627_code(voltage) else {
        return Err(Error::Range);
    };
    set_code_at(bus, code, dac)
}

// The opening in the slot that is named. Nothing is asked of the caller. Both entries have their own match, as in mcp3221.
pub fn default(log: &mut [u8], used: usize, replies: &[u8], slot: u8) -> Told<Result<(), Failed>>
    ensures { Enters Err own_opening slot used log.old replies.now log.new result.used result.answer }
{
    match gate::gate_of(slot, used, log.len(), replies.len()) {
        Ok(at) => {
            let mut bus = Bus { log, replies, at };
            let answer = default_at(&mut bus);
            Told {
                answer: Ok(answer),
                used: bus.at.used,
            }
        }
        Err(bar) => Told {
            answer: Err(bar),
            used,
        },
    }
}

// Programs an output, or both, of the slot that is named. Nothing is asked of the caller.
pub fn set_voltage(
    log: &mut [u8],
    used: usize,
    replies: &[u8],
    slot: u8,
    voltage: f32,
    dac: Dac,
) -> Told<Result<f32, Error>>
    ensures { Enters Err (own_voltage voltage dac) slot used log.old replies.now log.new result.used result.answer }
{
    match gate::gate_of(slot, used, log.len(), replies.len()) {
        Ok(at) => {
            let mut bus = Bus { log, replies, at };
            let programmed = set_voltage_at(&mut bus, voltage, dac);
            Told {
                answer: Ok(programmed),
                used: bus.at.used,
            }
        }
        Err(bar) => Told {
            answer: Err(bar),
            used,
        },
    }
}

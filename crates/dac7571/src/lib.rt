// dac7571: a converter of one output, written over the bus.
#![tactic(auto)]

ghost use Rattle.std.specs.Prelude.{◌≡◌, ◌/◌, ◌%◌};
ghost use Rattle.bus.specs.Run.{Runs, HasRoom};
ghost use Rattle.gate.specs.Enter.{Enters};
ghost use Rattle.dac7571.specs.Voltage.{set_voltage, own_voltage};

use bus::{Bus, Error, Transfer};
use gate::Told;

// What is written for a code: its high byte first.
fn write_of(code: u16) -> Transfer
    ensures { result ≡ Transfer.Write2 0x4C (code / 256) (code % 256) }
{
    let [high, low] = code.to_be_bytes();
    Transfer::Write2 {
        address: 0x4C,
        first: high,
        second: low,
    }
}

// Programs the output, for callers that have made sure of the room. It answers the volts that the code sent stands for.
pub fn set_voltage_at(bus: &mut Bus, voltage: f32) -> Result<f32, Error>
    requires { HasRoom bus.old 1 1 }
    ensures lent { bus.new.log.ghost_name ≡ bus.old.log.ghost_name }
    ensures run { Runs (set_voltage voltage) bus.old 1 1 bus.new result }
{
    let Some(code) = conversions::dac7571_code(voltage) else {
        return Err(Error::Range);
    };
    bus.transfer(write_of(code))?;
    Ok(conversions::volts_of(3.3, code))
}

// Programs the output of the slot that is named. Nothing is asked of the caller. It has its own match, as in mcp3221.
pub fn set_voltage(
    log: &mut [u8],
    used: usize,
    replies: &[u8],
    slot: u8,
    voltage: f32,
) -> Told<Result<f32, Error>>
    ensures { Enters Err (own_voltage voltage) slot used log.old replies.now log.new result.used result.answer }
{
    match gate::gate_of(slot, used, log.len(), replies.len()) {
        Ok(at) => {
            let mut bus = Bus { log, replies, at };
            let answer = set_voltage_at(&mut bus, voltage);
            Told {
                answer: Ok(answer),
                used: bus.at.used,
            }
        }
        Err(bar) => Told {
            answer: Err(bar),
            used,
        },
    }
}

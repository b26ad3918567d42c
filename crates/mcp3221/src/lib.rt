// mcp3221: a converter of one input, read over the bus.
#![tactic(auto)]

ghost use Rattle.std.specs.Prelude.{◌≡◌};
ghost use Rattle.bus.specs.Run.{Runs, HasRoom};
ghost use Rattle.gate.specs.Enter.{Enters};
ghost use Rattle.mcp3221.specs.Voltage.{get_voltage, default_voltage};

use bus::{Bus, Failed, Transfer};
use gate::Told;

// One measurement, for callers that have made sure of the room.
#[tactic(auto, unfolding(crate::specs::Voltage::get_voltage))]
pub fn get_voltage_at(bus: &mut Bus, supply: f32) -> Result<f32, Failed>
    requires { HasRoom bus.old 1 1 }
    ensures lent { bus.new.log.ghost_name ≡ bus.old.log.ghost_name }
    ensures run { Runs (get_voltage supply) bus.old 1 1 bus.new result }
{
    let data = bus.transfer(Transfer::Read {
        address: 0x4D,
        count: 2,
    })?;
    let code = u16::from_be_bytes([data.b0, data.b1]) % 4096;
    Ok(conversions::volts_of(supply, code))
}

// One measurement at the default supply of 3.3 V, of the slot that is named. Nothing is asked of the caller.
// Each driver has its own match here: what is lent to a closure does not come back from it in the logic.
pub fn get_voltage(
    log: &mut [u8],
    used: usize,
    replies: &[u8],
    slot: u8,
) -> Told<Result<f32, Failed>>
    ensures { Enters Err default_voltage slot used log.old replies.now log.new result.used result.answer }
{
    match gate::gate_of(slot, used, log.len(), replies.len()) {
        Ok(at) => {
            let mut bus = Bus { log, replies, at };
            let answer = get_voltage_at(&mut bus, 3.3);
            Told {
                answer: Ok(answer),
                used: bus.at.used,
            }
        }
        Err(bar) => Told {
            answer: Err(bar),
            used,
        },
    }
}

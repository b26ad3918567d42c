// The ads7924's driver called by itself: the slot and the room are tested first, and nothing is asked
// of the caller.
#![tactic(auto)]

ghost use Rattle.std.specs.Prelude.{Ok, Err};
ghost use Rattle.bus.specs.Run.{mapped};
ghost use Rattle.gate.specs.Enter.{Enters};
ghost use Rattle.ads7924.specs.Calls.{opening, get_voltage, get_voltages, clear_alarm, set_thresholds};

use ads7924::{Channel, Four};
use bus::{Bus, Error, Failed};
use gate::Told;

// Each entry has its own match: a generic one needs a trait, and a struct and an impl to each call.

// Opens the chip.
pub fn default(log: &mut [u8], used: usize, replies: &[u8], slot: u8) -> Told<Result<(), Failed>>
    ensures { Enters Err (mapped Ok opening) slot used log.old replies.now log.new result.used result.answer }
{
    match gate::gate_of(slot, used, log.len(), replies.len()) {
        Ok(at) => {
            let mut bus = Bus { log, replies, at };
            let answer = ads7924::default_at(&mut bus);
            Told {
                answer: Ok(answer),
                used: bus.at.used,
            }
        }
        Err(bar) => Told {
            answer: Err(bar),
            used,
        },
    }
}

// One voltage.
pub fn get_voltage(
    log: &mut [u8],
    used: usize,
    replies: &[u8],
    slot: u8,
    channel: Channel,
) -> Told<Result<f32, Failed>>
    ensures { Enters Err (mapped Ok (get_voltage channel)) slot used log.old replies.now log.new result.used result.answer }
{
    match gate::gate_of(slot, used, log.len(), replies.len()) {
        Ok(at) => {
            let mut bus = Bus { log, replies, at };
            let answer = ads7924::get_voltage_at(&mut bus, channel);
            Told {
                answer: Ok(answer),
                used: bus.at.used,
            }
        }
        Err(bar) => Told {
            answer: Err(bar),
            used,
        },
    }
}

// All four voltages.
pub fn get_voltages(
    log: &mut [u8],
    used: usize,
    replies: &[u8],
    slot: u8,
) -> Told<Result<Four, Failed>>
    ensures { Enters Err (mapped Ok get_voltages) slot used log.old replies.now log.new result.used result.answer }
{
    match gate::gate_of(slot, used, log.len(), replies.len()) {
        Ok(at) => {
            let mut bus = Bus { log, replies, at };
            let answer = ads7924::get_voltages_at(&mut bus);
            Told {
                answer: Ok(answer),
                used: bus.at.used,
            }
        }
        Err(bar) => Told {
            answer: Err(bar),
            used,
        },
    }
}

// Clears the alarm. Bit k of the answer is set where channel k raised it.
pub fn clear_alarm(
    log: &mut [u8],
    used: usize,
    replies: &[u8],
    slot: u8,
) -> Told<Result<u8, Failed>>
    ensures { Enters Err (mapped Ok clear_alarm) slot used log.old replies.now log.new result.used result.answer }
{
    match gate::gate_of(slot, used, log.len(), replies.len()) {
        Ok(at) => {
            let mut bus = Bus { log, replies, at };
            let answer = ads7924::clear_alarm_at(&mut bus);
            Told {
                answer: Ok(answer),
                used: bus.at.used,
            }
        }
        Err(bar) => Told {
            answer: Err(bar),
            used,
        },
    }
}

// Sets a channel's limits in volts.
pub fn set_thresholds(
    log: &mut [u8],
    used: usize,
    replies: &[u8],
    slot: u8,
    channel: Channel,
    low: f32,
    high: f32,
) -> Told<Result<(), Error>>
    ensures { Enters Err (mapped Ok (set_thresholds channel low high)) slot used log.old replies.now log.new result.used result.answer }
{
    match gate::gate_of(slot, used, log.len(), replies.len()) {
        Ok(at) => {
            let mut bus = Bus { log, replies, at };
            let answer = ads7924::set_thresholds_at(&mut bus, channel, low, high);
            Told {
                answer: Ok(answer),
                used: bus.at.used,
            }
        }
        Err(bar) => Told {
            answer: Err(bar),
            used,
        },
    }
}

// The chips, each asked by itself in slot 0, with an unused log that the caller lends.
use crate::result::{Data, Outcome, outcome_of};
use ad5627::Dac;
use ads7924::Channel;

pub fn mcp3221(log: &mut [u8], replies: &[u8; 135]) -> Outcome {
    outcome_of(mcp3221::get_voltage(log, 0, replies, 0), |volts| {
        Some(Data::Float(volts))
    })
}

pub fn dac7571(volts: f32, log: &mut [u8], replies: &[u8; 135]) -> Outcome {
    outcome_of(dac7571::set_voltage(log, 0, replies, 0, volts), |volts| {
        Some(Data::Float(volts))
    })
}

pub fn ad5627_open(log: &mut [u8], replies: &[u8; 135]) -> Outcome {
    outcome_of(ad5627::default(log, 0, replies, 0), |_| None)
}

pub fn ad5627(dac: Dac, volts: f32, log: &mut [u8], replies: &[u8; 135]) -> Outcome {
    outcome_of(
        ad5627::set_voltage(log, 0, replies, 0, volts, dac),
        |volts| Some(Data::Float(volts)),
    )
}

pub fn ads7924_open(log: &mut [u8], replies: &[u8; 135]) -> Outcome {
    outcome_of(ads7924_entry::default(log, 0, replies, 0), |_| None)
}

pub fn voltage(channel: Channel, log: &mut [u8], replies: &[u8; 135]) -> Outcome {
    outcome_of(
        ads7924_entry::get_voltage(log, 0, replies, 0, channel),
        |volts| Some(Data::Float(volts)),
    )
}

pub fn voltages(log: &mut [u8], replies: &[u8; 135]) -> Outcome {
    outcome_of(ads7924_entry::get_voltages(log, 0, replies, 0), |volts| {
        Some(Data::Floats(volts))
    })
}

pub fn alarm(log: &mut [u8], replies: &[u8; 135]) -> Outcome {
    outcome_of(ads7924_entry::clear_alarm(log, 0, replies, 0), |mask| {
        Some(Data::Byte(mask))
    })
}

pub fn thresholds(
    channel: Channel,
    low: f32,
    high: f32,
    log: &mut [u8],
    replies: &[u8; 135],
) -> Outcome {
    outcome_of(
        ads7924_entry::set_thresholds(log, 0, replies, 0, channel, low, high),
        |_| None,
    )
}

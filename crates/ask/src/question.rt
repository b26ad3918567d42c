// What a line asks of a driver or of a transform. Its words:
//   map SLOPE OFFSET X, invert SLOPE OFFSET Y
//   mcp3221 voltage
//   dac7571 set VOLTS
//   ad5627 open, ad5627 set OUTPUT VOLTS, where OUTPUT is A, B or AB
//   ads7924 open, ads7924 voltage CHANNEL, ads7924 voltages, ads7924 alarm
//   ads7924 thresholds CHANNEL LOW HIGH, where CHANNEL is 0 to 3
// A number is the eight hex digits of its pattern.
use crate::words::word;
use ad5627::Dac;
use ads7924::Channel;
use linear_transformation::LinearTransformation;

#[derive(Clone, Copy)]
pub enum Question {
    Map(LinearTransformation, f32),
    Invert(LinearTransformation, f32),
    Mcp3221,
    Dac7571(f32),
    Ad5627Open,
    Ad5627(Dac, f32),
    Ads7924Open,
    Voltage(Channel),
    Voltages,
    Alarm,
    Thresholds(Channel, f32, f32),
}

impl Question {
    // How many words the question takes, without its replies.
    pub fn words(self) -> usize {
        match self {
            Question::Mcp3221
            | Question::Ad5627Open
            | Question::Ads7924Open
            | Question::Voltages
            | Question::Alarm => 2,
            Question::Dac7571(_) | Question::Voltage(_) => 3,
            Question::Map(_, _) | Question::Invert(_, _) | Question::Ad5627(_, _) => 4,
            Question::Thresholds(_, _, _) => 5,
        }
    }
}

fn real_at(s: &[u8], k: usize) -> Option<f32> {
    field::float(word(s, k))
}

fn channel_at(s: &[u8], k: usize) -> Option<Channel> {
    match word(s, k) {
        b"0" => Some(Channel::Zero),
        b"1" => Some(Channel::One),
        b"2" => Some(Channel::Two),
        b"3" => Some(Channel::Three),
        _ => None,
    }
}

fn dac_at(s: &[u8], k: usize) -> Option<Dac> {
    match word(s, k) {
        b"A" => Some(Dac::A),
        b"B" => Some(Dac::B),
        b"AB" => Some(Dac::Both),
        _ => None,
    }
}

// The slope and the offset.
fn transform(s: &[u8]) -> Option<LinearTransformation> {
    Some(LinearTransformation {
        slope: real_at(s, 1)?,
        offset: real_at(s, 2)?,
    })
}

// The question of a line, by its first words. That no other words follow is for the caller to see.
pub fn of(s: &[u8]) -> Option<Question> {
    Some(match (word(s, 0), word(s, 1)) {
        (b"map", _) => Question::Map(transform(s)?, real_at(s, 3)?),
        (b"invert", _) => Question::Invert(transform(s)?, real_at(s, 3)?),
        (b"mcp3221", b"voltage") => Question::Mcp3221,
        (b"dac7571", b"set") => Question::Dac7571(real_at(s, 2)?),
        (b"ad5627", b"open") => Question::Ad5627Open,
        (b"ad5627", b"set") => Question::Ad5627(dac_at(s, 2)?, real_at(s, 3)?),
        (b"ads7924", b"open") => Question::Ads7924Open,
        (b"ads7924", b"voltage") => Question::Voltage(channel_at(s, 2)?),
        (b"ads7924", b"voltages") => Question::Voltages,
        (b"ads7924", b"alarm") => Question::Alarm,
        (b"ads7924", b"thresholds") => {
            Question::Thresholds(channel_at(s, 2)?, real_at(s, 3)?, real_at(s, 4)?)
        }
        _ => return None,
    })
}

// The drivers' nine entries, and a call of one with what it is lent.
use super::lent::Lent;
use super::{answer, show};
use ad5627::Dac;
use ads7924::Channel;
use pattern::of_pattern;

// An entry, with the values that it is given, a float as its pattern.
#[derive(Clone, Copy)]
pub enum Entry {
    Mcp,
    Dac(u32),
    AdOpening,
    Ad(u32, Dac),
    Opening,
    One(Channel),
    Four,
    Alarm,
    // The low limit, then the high one.
    Limits(Channel, u32, u32),
}

impl Entry {
    // Prints which entry is called, and with which values.
    fn print(self) {
        match self {
            Entry::Mcp => show::text(b"mcp3221"),
            Entry::Dac(bits) => {
                show::text(b"dac7571");
                show::pattern_of(bits);
            }
            Entry::AdOpening => show::text(b"ad5627 opening"),
            Entry::Ad(bits, _) => {
                show::text(b"ad5627");
                show::pattern_of(bits);
            }
            Entry::Opening => show::text(b"ads7924 opening"),
            Entry::One(_) => show::text(b"ads7924 one"),
            Entry::Four => show::text(b"ads7924 four"),
            Entry::Alarm => show::text(b"ads7924 alarm"),
            Entry::Limits(_, low, high) => {
                show::text(b"ads7924 limits");
                show::pattern_of(low);
                show::pattern_of(high);
            }
        }
    }

    // Calls the entry, prints its answer and gives the count of rows.
    fn call(self, log: &mut [u8], replies: &[u8], slot: u8) -> usize {
        match self {
            Entry::Mcp => answer::print(mcp3221::get_voltage(log, 0, replies, slot)),
            Entry::Dac(bits) => {
                let voltage = of_pattern(bits);
                answer::print(dac7571::set_voltage(log, 0, replies, slot, voltage))
            }
            Entry::AdOpening => answer::print(ad5627::default(log, 0, replies, slot)),
            Entry::Ad(bits, dac) => {
                let voltage = of_pattern(bits);
                answer::print(ad5627::set_voltage(log, 0, replies, slot, voltage, dac))
            }
            Entry::Opening => answer::print(ads7924_entry::default(log, 0, replies, slot)),
            Entry::One(channel) => {
                answer::print(ads7924_entry::get_voltage(log, 0, replies, slot, channel))
            }
            Entry::Four => answer::print(ads7924_entry::get_voltages(log, 0, replies, slot)),
            Entry::Alarm => answer::print(ads7924_entry::clear_alarm(log, 0, replies, slot)),
            Entry::Limits(channel, low, high) => {
                let (low, high) = (of_pattern(low), of_pattern(high));
                answer::print(ads7924_entry::set_thresholds(
                    log, 0, replies, slot, channel, low, high,
                ))
            }
        }
    }

    // Calls the entry with replies of this first data byte, and prints what comes of it.
    pub fn case(self, first: u8, lent: Lent) {
        let mut log = [show::FRESH; 320];
        let replies = lent_replies::replies(first, lent.fault());
        self.print();
        lent.print();
        let room = &mut log[..lent.log()];
        let used = self.call(room, &replies[..lent.replies()], lent.slot());
        show::end(&log, 0, used);
    }
}

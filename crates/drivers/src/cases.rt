// Each entry on good replies, with each of its transfers failing, and at the limits of its range.
use super::entry::Entry;
use super::lent::Lent;
use ad5627::Dac;
use ads7924::Channel;

// With each of so many transfers failing.
fn failing(entry: Entry, first: u8, transfers: usize) {
    for transfer in 0..transfers {
        entry.case(first, Lent::Failing(transfer));
    }
}

pub fn mcp() {
    Entry::Mcp.case(0xF8, Lent::Good);
    failing(Entry::Mcp, 0xF8, 1);
    Entry::Mcp.case(0xFF, Lent::Good);
}

pub fn dacs() {
    for bits in [
        0x404c_cccd,
        0x3fd3_3333,
        0x4053_3332,
        0x4053_3333,
        0x0000_0000,
        0x8000_0000,
        0x8000_0001,
        0x7fc0_0000,
        0x7f80_0000,
        0xff80_0000,
    ] {
        Entry::Dac(bits).case(0, Lent::Good);
    }
    failing(Entry::Dac(0x404c_cccd), 0, 1);
}

pub fn ads() {
    Entry::AdOpening.case(0, Lent::Good);
    failing(Entry::AdOpening, 0, 2);
    Entry::Ad(0x3fa0_0000, Dac::A).case(0, Lent::Good);
    Entry::Ad(0x401f_ffff, Dac::B).case(0, Lent::Good);
    for bits in [
        0x0000_0000,
        0x8000_0000,
        0x4020_0000,
        0x7fc0_0000,
        0x7f80_0000,
        0xff80_0000,
        0x8000_0001,
    ] {
        Entry::Ad(bits, Dac::Both).case(0, Lent::Good);
    }
    failing(Entry::Ad(0x3fa0_0000, Dac::B), 0, 1);
}

pub fn openings() {
    Entry::Opening.case(0, Lent::Good);
    failing(Entry::Opening, 0, 4);
}

pub fn ones() {
    for channel in [Channel::Zero, Channel::One, Channel::Two, Channel::Three] {
        Entry::One(channel).case(0x80, Lent::Good);
    }
    failing(Entry::One(Channel::Zero), 0x80, 4);
}

pub fn fours() {
    Entry::Four.case(0x80, Lent::Good);
    failing(Entry::Four, 0x80, 4);
}

pub fn alarms() {
    for first in [0x35, 0xFF, 0x5A] {
        Entry::Alarm.case(first, Lent::Good);
    }
    failing(Entry::Alarm, 0x35, 1);
}

fn half(channel: Channel) -> Entry {
    Entry::Limits(channel, 0x3f00_0000, 0x3fc0_0000)
}

pub fn limits() {
    half(Channel::Two).case(0x31, Lent::Good);
    half(Channel::Zero).case(0x31, Lent::Good);
    failing(half(Channel::Two), 0x31, 3);
    for (low, high) in [
        (0x3fc0_0000, 0x3f00_0000),
        (0x8000_0001, 0x3f00_0000),
        (0x8000_0000, 0x0000_0000),
        (0x3f00_0000, 0x405b_c6a8),
        (0x3f00_0000, 0x405b_c6a7),
        (0x7fc0_0000, 0x3f00_0000),
        (0x3f00_0000, 0x7f80_0000),
    ] {
        Entry::Limits(Channel::Three, low, high).case(0x31, Lent::Good);
    }
}

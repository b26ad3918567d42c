// Each of the nine entries with what it is lent changed alike.
use super::entry::Entry;
use super::lent::Lent;
use ad5627::Dac;
use ads7924::Channel;

// With values in range.
fn each(lent: Lent) {
    for (entry, first) in [
        (Entry::Mcp, 0xF8),
        (Entry::Dac(0x404c_cccd), 0),
        (Entry::AdOpening, 0),
        (Entry::Ad(0x3fa0_0000, Dac::A), 0),
        (Entry::Opening, 0),
        (Entry::One(Channel::One), 0x80),
        (Entry::Four, 0x80),
        (Entry::Alarm, 0x35),
        (Entry::Limits(Channel::One, 0x3f00_0000, 0x3fc0_0000), 0x31),
    ] {
        entry.case(first, lent);
    }
}

// With values out of range, which is looked at last.
fn out_of_range(lent: Lent) {
    for (entry, first) in [
        (Entry::Dac(0x4053_3333), 0),
        (Entry::Dac(0x8000_0001), 0),
        (Entry::Ad(0x4020_0000, Dac::A), 0),
        (Entry::Ad(0x7fc0_0000, Dac::B), 0),
        (
            Entry::Limits(Channel::Three, 0x3fc0_0000, 0x3f00_0000),
            0x31,
        ),
        (
            Entry::Limits(Channel::Three, 0x3f00_0000, 0x405b_c6a8),
            0x31,
        ),
    ] {
        entry.case(first, lent);
    }
}

// The answers 1, 5 and 6, alone and before those that come after them; then replies enough and to spare.
pub fn rooms() {
    for lent in [
        Lent::NoSlot,
        Lent::ShortLog,
        Lent::FewReplies,
        Lent::Nothing,
        Lent::NoRoom,
        Lent::ManyReplies,
    ] {
        each(lent);
        out_of_range(lent);
    }
}

// A status other than 0 is a failure, whichever it is.
pub fn statuses() {
    for status in [2, 128, 255] {
        each(Lent::Status(status));
    }
}

// Both limits at the highest code, and one step above it.
pub fn highest() {
    for bits in [0x405b_c6a7, 0x405b_c6a8] {
        Entry::Limits(Channel::Zero, bits, bits).case(0x31, Lent::Good);
    }
}

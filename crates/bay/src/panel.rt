// How a slot and what a call tells are printed.
use super::show;
use rf_call::{Report, Slot};
use text::Writer;

fn flag(name: &[u8], level: bool) {
    show::text(name);
    show::text(if level { b"1" } else { b"0" });
}

// What a call that is done has to tell.
pub fn report(r: Report) {
    match r {
        Report::Plain => (),
        Report::Power(p) => {
            flag(b", powered ", p.powered);
            flag(b", rf disabled ", p.rf_disabled);
            flag(b", blocked ", p.blocked);
        }
        Report::Status(s) => {
            flag(b", reflected ", s.reflected_overdrive);
            flag(b", output ", s.output_overdrive);
            flag(b", alert ", s.alert);
        }
    }
}

// The longest name has 25 bytes.
fn name(slot: Slot) {
    let mut name = *b",                          ";
    let mut writer = Writer {
        out: &mut name,
        at: 2,
    };
    state_name::put_slot(&mut writer, slot);
    let end = writer.at;
    if let Some(written) = name.get(..end) {
        show::text(written);
    }
}

// What stands in a slot.
pub fn standing(slot: Slot) {
    name(slot);
    match slot {
        Slot::Empty => (),
        Slot::Halted(cause) => {
            show::text(b", cause");
            show::number(u64::from(rf_call::cause_number(cause)));
        }
        Slot::Channel(c) => {
            flag(b", power ", c.enable_power);
            flag(b", rf ", c.signal_on);
        }
    }
}

// A status's numbers, and the place past them.
pub fn numbers(numbers: [f32; 8]) {
    show::text(b":");
    for x in numbers {
        show::float(x);
    }
}

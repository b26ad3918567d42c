// The columns that a call is compared by, behind those of a replay's line.
use rf_call::{Answer, ChannelStatus, PowerStatus, Report, Slot};
use rf_channel::{ChannelSettings, ChannelState, States};
use slots::Verdict;
use text::Writer;

// The cause of a halt, or nothing.
fn put_cause(writer: &mut Writer, verdict: Verdict) {
    let cause = slots::cause_beside(verdict);
    if cause != 0 {
        pen::decimal(writer, cause as u64);
    }
}

// The tick until which a channel powers up or down.
fn deadline_of(slot: Slot) -> Option<u32> {
    let Slot::Channel(channel) = slot else {
        return None;
    };
    match channel.state {
        States::Powerup(tick) | States::Powerdown(tick) => Some(tick),
        _ => None,
    }
}

fn put_deadline(writer: &mut Writer, slot: Slot) {
    if let Some(tick) = deadline_of(slot) {
        pen::decimal(writer, tick as u64);
    }
}

// The columns of cause and deadline, each behind a comma.
pub fn put_ends(writer: &mut Writer, verdict: Verdict, slot: Slot) {
    pen::byte(writer, b',');
    put_cause(writer, verdict);
    pen::byte(writer, b',');
    put_deadline(writer, slot);
}

fn put_flags(writer: &mut Writer, first: bool, second: bool, third: bool) {
    pen::flag(writer, first);
    pen::flag(writer, second);
    pen::flag(writer, third);
}

// The name of a state, where there is room for the longest.
fn put_state(writer: &mut Writer, state: States) {
    if writer.at.saturating_add(25) <= writer.out.len() {
        state_name::put_state(writer, state);
    }
}

fn put_status(writer: &mut Writer, s: ChannelStatus, numbers: &[f32; 7]) {
    put_state(writer, s.state);
    pen::byte(writer, b',');
    put_flags(writer, s.reflected_overdrive, s.output_overdrive, s.alert);
    pen::byte(writer, b',');
    pen::floats(writer, numbers);
}

fn put_power(writer: &mut Writer, p: PowerStatus) {
    pen::byte(writer, b',');
    put_flags(writer, p.powered, p.rf_disabled, p.blocked);
    pen::byte(writer, b',');
}

// The report of a call. One that is not done reports nothing.
pub fn told(verdict: Verdict) -> Report {
    match verdict {
        Verdict::Answered(Answer::Done(report)) => report,
        _ => Report::Plain,
    }
}

// The three columns of the state told, the flags and the numbers, with the commas between them: an update tells its
// flags, a status all three.
pub fn put_report(writer: &mut Writer, report: Report, numbers: &[f32; 7]) {
    match report {
        Report::Plain => pen::bytes(writer, b",,"),
        Report::Power(p) => put_power(writer, p),
        Report::Status(s) => put_status(writer, s, numbers),
    }
}

fn digit(wanted: ChannelState) -> u8 {
    match wanted {
        ChannelState::Off => b'0',
        ChannelState::Powered => b'1',
        ChannelState::Enabled => b'2',
    }
}

fn put_fields(writer: &mut Writer, s: ChannelSettings) {
    let fields = [
        s.output_interlock_threshold,
        s.bias_voltage,
        s.input_power_transform.slope,
        s.input_power_transform.offset,
        s.output_power_transform.slope,
        s.output_power_transform.offset,
        s.reflected_power_transform.slope,
        s.reflected_power_transform.offset,
    ];
    pen::floats(writer, &fields);
    pen::byte(writer, digit(s.state));
}

// The settings in force, as a trace writes them, or nothing.
pub fn put_settings(writer: &mut Writer, slot: Slot) {
    if let Slot::Channel(channel) = slot {
        put_fields(writer, channel.settings);
    }
}

// A line of the input of `deep`, without its end: what it does to the rack, and the line that says all that came of
// it, put at the start of a buffer that the caller lends. That line is `N,bad`, or `N,answer,state,power,rf,rows` as
// the replay writes it and then `,cause,deadline,state told,flags,numbers,settings,log`, each empty where it does not
// apply. The state told is that in the report of a status, beside what stands in the slot.
use entry::Call;
use rf_call::Slot;
use slots::{Rack, Turn, Verdict};
use text::Writer;

// What goes on from line to line: the rack, the rows used, and the number of the last line.
#[derive(Clone, Copy)]
pub struct Place {
    pub rack: Rack,
    pub used: usize,
    pub line: u64,
}

// The place afterwards, and how many bytes were written.
#[derive(Clone, Copy)]
pub struct Told {
    pub place: Place,
    pub past: usize,
}

// Where a trace begins.
pub fn begin() -> Place {
    Place {
        rack: slots::empty(),
        used: 0,
        line: 0,
    }
}

// The columns of what is told and of the settings, each behind a comma.
fn put_middle(writer: &mut Writer, verdict: Verdict, slot: Slot, numbers: &[f32; 7]) {
    pen::byte(writer, b',');
    crate::beside::put_report(writer, crate::beside::told(verdict), numbers);
    pen::byte(writer, b',');
    crate::beside::put_settings(writer, slot);
}

// The rows of the call, behind a comma, and the line's end.
fn put_log(writer: &mut Writer, log: &[u8], from: usize, used: usize) {
    pen::byte(writer, b',');
    pen::rows(writer, log, from, used);
    pen::bytes(writer, b"\r\n");
}

// The line of a call. `from` is how many rows were used before it. The writer is made here, where the buffer's size
// tells that there is room for the first six columns.
fn put_call(
    out: &mut [u8; 2048],
    line: u64,
    turn: Turn,
    numbers: &[f32; 7],
    log: &[u8],
    from: usize,
) -> usize {
    let verdict = turn.verdict;
    let slot = slots::slot_at(turn.rack, 0);
    let mut writer = Writer { out, at: 0 };
    sheet::put_answer(&mut writer, line, slots::number(verdict), slot, turn.used);
    // The replay's line end, behind the first six columns, is written over.
    writer.at = writer.at.saturating_sub(2);
    crate::beside::put_ends(&mut writer, verdict, slot);
    put_middle(&mut writer, verdict, slot, numbers);
    put_log(&mut writer, log, from, turn.used);
    writer.at
}

// A line that is no call.
fn bad(place: Place, out: &mut [u8; 2048]) -> Told {
    let mut writer = Writer { out, at: 0 };
    sheet::put_bad(&mut writer, place.line);
    Told {
        place,
        past: writer.at,
    }
}

// A line that is a call.
fn made(place: Place, call: Call, log: &mut [u8], s: &[u8], out: &mut [u8; 2048]) -> Told {
    let mut numbers = [0.0; 7];
    let turn = crate::line::turn(place.rack, call, log, place.used, s, &mut numbers);
    let past = put_call(out, place.line, turn, &numbers, log, place.used);
    let place = Place {
        rack: turn.rack,
        used: turn.used,
        line: place.line,
    };
    Told { place, past }
}

// A line of a trace.
fn answer(place: Place, log: &mut [u8], s: &[u8], out: &mut [u8; 2048]) -> Told {
    let line = place.line.wrapping_add(1);
    let place = Place { line, ..place };
    match crate::line::parse(s) {
        Some(call) => made(place, call, log, s, out),
        None => bad(place, out),
    }
}

// A line whose first bytes are `tick` is the header of a new trace.
pub fn pass(place: Place, log: &mut [u8], s: &[u8], out: &mut [u8; 2048]) -> Told {
    if s.starts_with(b"tick") {
        return Told {
            place: begin(),
            past: 0,
        };
    }
    answer(place, log, s, out)
}

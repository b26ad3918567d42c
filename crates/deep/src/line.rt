// A line that is compared call by call: the nine columns of a trace, or these and three more, which give what a
// trace has no column for.
use entry::Call;
use rf_calls::Request;
use rf_status::Detectors;
use slots::{Rack, Turn};

// The three columns more: whether the module is present, and the millivolts of its two detectors.
#[derive(Clone, Copy)]
pub struct More {
    pub present: bool,
    pub detectors: Detectors,
}

// Millivolts.
fn level_of(s: &[u8]) -> Option<u16> {
    u16::try_from(field::decimal(s)?).ok()
}

// Which chips answer that a start looks for: 1 both, 0 neither, E the EEPROM alone, T the temperature chip alone. The
// caller's flag is whether both do.
fn present_of(s: &[u8]) -> Option<bool> {
    match s {
        b"E" | b"T" => Some(false),
        _ => names::flag_of(s),
    }
}

fn more_of(s: &[u8]) -> Option<More> {
    Some(More {
        present: present_of(columns::part(s, 9))?,
        detectors: Detectors {
            output: level_of(columns::part(s, 10))?,
            reflected: level_of(columns::part(s, 11))?,
        },
    })
}

// Only a start asks for presence, and only a status for the detectors.
fn with_more(call: Call, more: More) -> Call {
    match call {
        Call::Start(settings, _) => Call::Start(settings, more.present),
        Call::Ask(Request::Status(_), givens) => Call::Ask(Request::Status(more.detectors), givens),
        _ => call,
    }
}

// A line of twelve columns: the first nine are those of a trace.
fn longer(s: &[u8]) -> Option<Call> {
    let end = columns::column(s, 8).end;
    let call = trace::parse(&s[..end])?;
    Some(with_more(call, more_of(s)?))
}

// The call of a line of at most 512 bytes and of nine or twelve columns that all fit.
pub fn parse(s: &[u8]) -> Option<Call> {
    if 512 < s.len() {
        return None;
    }
    if columns::count(s) == 12 {
        longer(s)
    } else {
        trace::parse(s)
    }
}

// The call on slot 0, with the replies of the line. A line that is parsed has replies that fit.
pub fn turn(
    rack: Rack,
    call: Call,
    log: &mut [u8],
    used: usize,
    s: &[u8],
    numbers: &mut [f32],
) -> Turn {
    let mut replies = [0u8; 135];
    reply_field::fill_if_it_fits(columns::part(s, 7), &mut replies);
    rack_call::call(rack, 0, call, log, used, &replies, numbers)
}

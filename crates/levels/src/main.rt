// Prints which code each of a channel's trip levels becomes, from -12 to 42 dBm, for the transform of
// the bench sheet: 20 dBm a volt, -10 dBm at 0 V. Before that, the bench sheet's volts.
#![tactic(auto)]

use conversions::{ad5627_code, dac7571_code};
use linear_transformation::LinearTransformation;

// The number of the standard output.
const STDOUT: i32 = 1;

fn text(s: &[u8]) {
    io::write_all(STDOUT, s);
}

// The end of a line: the code, or that there is none.
fn print_answer(answer: Option<u16>) {
    match answer {
        Some(code) => {
            text(b",");
            io::print_decimal(STDOUT, u64::from(code));
            text(b"\n");
        }
        None => text(b",refused\n"),
    }
}

// One level, in dBm.
fn print_level(transform: LinearTransformation, level: i16) {
    if level < 0 {
        text(b"-");
    }
    io::print_decimal(STDOUT, u64::from(level.unsigned_abs()));
    print_answer(interlock::level_code(transform, f32::from(level)));
}

// One of the bench sheet's volts.
fn print_volts(name: &[u8], answer: Option<u16>) {
    text(name);
    print_answer(answer);
}

fn main() {
    text(b"bench,code\n");
    print_volts(b"ad5627 1.25", ad5627_code(1.25));
    print_volts(b"ad5627 2.5", ad5627_code(2.5));
    print_volts(b"ad5627 NaN", ad5627_code(f32::NAN));
    print_volts(b"dac7571 3.2", dac7571_code(3.2));
    print_volts(b"dac7571 3.3", dac7571_code(3.3));
    print_volts(b"dac7571 NaN", dac7571_code(f32::NAN));
    text(b"dBm,code\n");
    let transform = LinearTransformation::new(20.0, -10.0);
    for level in -12..=42 {
        print_level(transform, level);
    }
}

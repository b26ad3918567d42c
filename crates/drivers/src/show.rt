// Printing. Hex digits are small. What `drivers` and `bay` print by stands in each: a library's public function
// has a promise, and the kit's `io`, by which they print, promises nothing of what it writes.

// The number of the standard output.
const STDOUT: i32 = 1;

// What each byte of a log is before the calls.
pub const FRESH: u8 = 0xEE;

pub fn text(s: &[u8]) {
    io::write_all(STDOUT, s);
}

// A number in decimal, after a space.
pub fn number(n: u64) {
    text(b" ");
    io::print_decimal(STDOUT, n);
}

// The pattern of a float, after a space.
pub fn pattern_of(bits: u32) {
    text(b" ");
    io::print_hex(STDOUT, u64::from(bits), 8);
}

// A float as its pattern, after a space.
pub fn float(x: f32) {
    pattern_of(pattern::to_pattern(x));
}

fn row(bytes: &[u8]) {
    text(b"  ");
    for b in bytes {
        io::print_hex(STDOUT, u64::from(*b), 2);
    }
    text(b"\n");
}

// The bytes past the rows, which have to be as they were.
fn kept(bytes: &[u8]) {
    for b in bytes {
        if *b != FRESH {
            text(b"  a byte past the rows was changed\n");
        }
    }
}

// The rows from number `from` up to number `used`; and that the log past them is untouched.
fn rows(log: &[u8], from: usize, used: usize) {
    for (number, bytes) in log.chunks(16).enumerate() {
        if used <= number {
            kept(bytes);
        } else if from <= number {
            row(bytes);
        }
    }
}

// The answer's number, before what it carries.
pub fn answer(number: u8) {
    text(b": answer ");
    io::print_decimal(STDOUT, u64::from(number));
}

// The end of an answer: the count, and the rows that were added.
pub fn end(log: &[u8], from: usize, used: usize) {
    text(b", used ");
    io::print_decimal(STDOUT, used as u64);
    text(b"\n");
    rows(log, from, used);
}

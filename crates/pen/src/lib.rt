// Writing into a buffer that the caller lends, one text behind the other. What does not fit is left out, so that
// nothing is asked of the caller: the buffers of the programs that compare have room enough.
// These are functions, since only the crate `text` can give its writer methods.
#![tactic(auto)]

ghost use Rattle.std.specs.Prelude.{◌≡◌, [], ◌∷◌, ◌%◌};
ghost use Rattle.text.specs.Texts.{decimal_text};
ghost use Rattle.pen.specs.Ink.{Inked, each, flag_text, hex_digit, pair_text, hex_text, float_text, rows_text};
ghost use Rattle.pen.specs.Pens.{Inks};

use text::Writer;

// A byte at a place of the buffer, and the place past it. The digits go through it one by one and not through
// `put_bytes`: most of what the programs that compare print is digits, and a copy of two bytes is a call.
fn byte_at(out: &mut [u8], at: usize, b: u8) -> usize
    ensures { Inked out.old at out.new result (b ∷ []) }
{
    if out.len() <= at {
        return at;
    }
    out[at] = b;
    at + 1
}

// A byte.
pub fn byte(writer: &mut Writer, b: u8)
    ensures lent { writer.new.out.ghost_name ≡ writer.old.out.ghost_name }
    ensures text { Inks writer.old writer.new (b ∷ []) }
{
    writer.at = byte_at(writer.out, writer.at, b);
}

// As much of the text as there is room for.
pub fn bytes(writer: &mut Writer, s: &[u8])
    ensures lent { writer.new.out.ghost_name ≡ writer.old.out.ghost_name }
    ensures text { Inks writer.old writer.new s.now }
{
    if writer.out.len() <= writer.at {
        return;
    }
    let room = writer.out.len() - writer.at;
    writer.put_bytes(&s[..room.min(s.len())]);
}

pub fn decimal(writer: &mut Writer, n: u64)
    ensures lent { writer.new.out.ghost_name ≡ writer.old.out.ghost_name }
    ensures text { Inks writer.old writer.new (decimal_text n) }
{
    let mut digits = [0u8; 20];
    let k = io::decimal(n, &mut digits);
    bytes(writer, &digits[..k]);
}

// A flag as 0 or 1.
pub fn flag(writer: &mut Writer, on: bool)
    ensures lent { writer.new.out.ghost_name ≡ writer.old.out.ghost_name }
    ensures text { Inks writer.old writer.new (flag_text on) }
{
    byte(writer, if on { b'1' } else { b'0' });
}

// The hex digit of the number's last four bits.
fn digit(n: u8) -> u8
    ensures { result ≡ hex_digit (n % 16) }
{
    match n % 16 {
        d @ 0..=9 => b'0' + d,
        d => b'A' - 10 + d,
    }
}

fn pair_at(out: &mut [u8], at: usize, b: u8) -> usize
    ensures { Inked out.old at out.new result (pair_text b) }
{
    let high = digit(b / 16);
    let low = digit(b);
    let past = byte_at(out, at, high);
    byte_at(out, past, low)
}

// A byte as two hex digits.
pub fn pair(writer: &mut Writer, b: u8)
    ensures lent { writer.new.out.ghost_name ≡ writer.old.out.ghost_name }
    ensures text { Inks writer.old writer.new (pair_text b) }
{
    writer.at = pair_at(writer.out, writer.at, b);
}

fn hex_at(out: &mut [u8], at: usize, s: &[u8]) -> usize
    ensures { Inked out.old at out.new result (hex_text s.now) }
{
    let mut past = at;
    for b in s {
        past = pair_at(out, past, *b);
    }
    past
}

// Each byte as two hex digits.
pub fn hex(writer: &mut Writer, s: &[u8])
    ensures lent { writer.new.out.ghost_name ≡ writer.old.out.ghost_name }
    ensures text { Inks writer.old writer.new (hex_text s.now) }
{
    writer.at = hex_at(writer.out, writer.at, s);
}

// A float as the eight hex digits of its pattern.
pub fn float(writer: &mut Writer, x: f32)
    ensures lent { writer.new.out.ghost_name ≡ writer.old.out.ghost_name }
    ensures text { Inks writer.old writer.new (float_text x) }
{
    hex(writer, &pattern::to_pattern(x).to_be_bytes());
}

// Each float as its eight hex digits.
pub fn floats(writer: &mut Writer, xs: &[f32])
    ensures lent { writer.new.out.ghost_name ≡ writer.old.out.ghost_name }
    ensures text { Inks writer.old writer.new (each float_text xs.now) }
{
    for x in xs {
        float(writer, *x);
    }
}

// The log's rows from number `from` up to number `used`, as hex digits.
pub fn rows(writer: &mut Writer, log: &[u8], from: usize, used: usize)
    ensures lent { writer.new.out.ghost_name ≡ writer.old.out.ghost_name }
    ensures text { Inks writer.old writer.new (rows_text log.now from used) }
{
    if log.len() / 16 < used || used < from {
        return;
    }
    hex(writer, &log[16 * from..16 * used]);
}

// The numbers in the fields of one line of a replay trace, read from their bytes. What does not fit
// is `None`, so no public function asks anything of its caller.
#![tactic(auto)]

ghost use Rattle.std.specs.Prelude.{◌≡◌, [], ◌∷◌};
ghost use Rattle.field.specs.Field.{digit_of, number_from, decimal_of, word_of, float_of};

// What a hex digit counts. The letters are capitals.
pub fn hex_digit(b: u8) -> Option<u8>
    ensures { result ≡ digit_of b }
{
    match b {
        b'0'..=b'9' => Some(b - b'0'),
        // A counts 10.
        b'A'..=b'F' => Some(b - 55),
        _ => None,
    }
}

// n with one digit more. The sum is made in 64 bits, where it can't wrap, and tested there.
fn and_digit(base: u8, n: u32, b: u8) -> Option<u32>
    ensures { result ≡ number_from base n (b ∷ []) }
{
    let digit = hex_digit(b)?;
    if base <= digit {
        return None;
    }
    let next = base as u64 * n as u64 + digit as u64;
    if next < 0x1_0000_0000 {
        Some(next as u32)
    } else {
        None
    }
}

// The number that these digits write in a base.
fn number(base: u8, s: &[u8]) -> Option<u32>
    ensures { result ≡ number_from base 0 s.now }
{
    let mut n = 0;
    for b in s {
        n = and_digit(base, n, *b)?;
    }
    Some(n)
}

// A tick.
pub fn decimal(s: &[u8]) -> Option<u32>
    ensures { result ≡ decimal_of s.now }
{
    // No digits are no number, though `number` would make 0 of them.
    if s.is_empty() {
        return None;
    }
    number(10, s)
}

// 8 hex digits. Fewer or more are no word, so that each digit has its place.
pub fn word(s: &[u8]) -> Option<u32>
    ensures { result ≡ word_of s.now }
{
    if s.len() != 8 {
        return None;
    }
    number(16, s)
}

// The float whose pattern the word is.
pub fn float(s: &[u8]) -> Option<f32>
    ensures { result ≡ float_of s.now }
{
    Some(pattern::of_pattern(word(s)?))
}

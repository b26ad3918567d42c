// The replies of a trace's line: at most 135 bytes, each as two hex digits in capitals, the high one
// first. Any call asks that 135 bytes are there, so zeros follow those that the line gives.
#![tactic(auto)]

ghost use Rattle.std.specs.Prelude.{◌≡◌, true, ◌*◌, ◌<◌, length, get_or};
ghost use Rattle.reply_field.specs.Replies.{pairs_of, all_hex, fits_of, padded_of, filled_of};

// Two digits for each of 135 bytes.
const MOST_DIGITS: usize = 270;

// Whether every byte is a hex digit.
fn all_hex(s: &[u8]) -> bool
    ensures { result ≡ all_hex s.now }
{
    s.iter().all(|b| field::hex_digit(*b).is_some())
}

// Whether the column is one of replies. Half a byte is none.
#[tactic(auto, using(std::proofs::lemmas::Bool::Decides::nat_tests), unfolding(crate::specs::Replies::fits_of))]
pub fn fits(s: &[u8]) -> bool
    ensures { result ≡ fits_of s.now }
{
    s.len() <= MOST_DIGITS && s.len() % 2 == 0 && all_hex(s)
}

// Byte i of the replies: the pair of digits that stands there.
fn byte_at(s: &[u8], i: usize) -> u8
    requires { (fits_of s.now ≡ true) × (2 * i < length s.now) }
    ensures { result ≡ get_or (pairs_of s.now) i 0 }
{
    // The length is even, so a digit is never alone.
    let high = field::hex_digit(s[2 * i]).unwrap();
    let low = field::hex_digit(s[2 * i + 1]).unwrap();
    16 * high + low
}

// Fills the replies of a column that fits, whatever the array held. Zeros stand behind the column's bytes.
pub fn fill(s: &[u8], out: &mut [u8; 135])
    requires { fits_of s.now ≡ true }
    ensures { out.new ≡ padded_of s.now }
{
    *out = [0; 135];
    for i in 0..s.len() / 2 {
        out[i] = byte_at(s, i);
    }
}

// Fills the replies of a column that is not known to fit, and answers whether it does. One that does not changes
// nothing.
#[tactic(auto, unfolding(crate::specs::Replies::filled_of))]
pub fn fill_if_it_fits(s: &[u8], out: &mut [u8; 135]) -> bool
    ensures { (result ≡ fits_of s.now) × (out.new ≡ filled_of s.now out.old) }
{
    let fit = fits(s);
    if fit {
        fill(s, out);
    }
    fit
}

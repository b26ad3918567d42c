// Where a byte stands first in a part of a text.
#![tactic(auto)]

ghost use Rattle.std.specs.Prelude.{◌≡◌, ◌+◌, ◌≤◌, length};
ghost use Rattle.scan.specs.Scan.{index_of, slice};

// The place of the first `byte` of `s[start..end]`, or `end` where there is none.
pub fn find(s: &[u8], start: usize, end: usize, byte: u8) -> usize
    requires order { start ≤ end }
    requires within { end ≤ length s.now }
    ensures place { result ≡ start + index_of byte (slice start end s.now) }
    ensures bound { result ≤ end }
{
    match s[start..end].iter().position(|b| *b == byte) {
        Some(i) => start + i,
        None => end,
    }
}

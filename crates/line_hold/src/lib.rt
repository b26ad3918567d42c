// The bytes of a line that is being read, held in a buffer of 514 that the caller lends. A line that fits
// has at most 512 bytes: one byte more is for the CR before its end, and one to see that it is too long.
#![tactic(auto)]

ghost use Rattle.std.specs.Prelude.{◌≡◌, length, take};
ghost use Rattle.line_hold.specs.Hold.{held_after, kept_in, held_past, kept_part, without_cr};

const CR: u8 = b'\r';

const ROOM: usize = 514;

// Keeps one byte more, if there is room for it, and answers how many are held. The buffer and what is held of it are
// two arguments, since what is said of a reading names each.
pub fn keep(hold: &mut [u8], held: usize, b: u8) -> usize
    requires { length hold.old ≡ 514 }
    ensures { (result ≡ held_after held) × (hold.new ≡ kept_in hold.old held b) }
{
    if ROOM <= held {
        return held;
    }
    hold[held] = b;
    held + 1
}

// Keeps a part of a line, behind what is held of it, and answers how many bytes are held. The array says its
// length by its type, so nothing is asked of the caller.
pub fn keep_part(hold: &mut [u8; 514], held: usize, part: &[u8]) -> usize
    ensures { (result ≡ held_past held part.now) × (hold.new ≡ kept_part hold.old held part.now) }
{
    let mut held = held;
    for b in part {
        held = keep(hold, held, *b);
    }
    held
}

// The first n bytes, or all where there are no more.
pub fn front(s: &[u8], n: usize) -> &[u8]
    ensures { result.now ≡ take n s.now }
{
    &s[..n.min(s.len())]
}

// The line without the CR that belongs to its line end.
pub fn without_cr(s: &[u8]) -> &[u8]
    ensures { result.now ≡ without_cr s.now }
{
    s.strip_suffix(&[CR]).unwrap_or(s)
}

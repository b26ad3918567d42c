// Rust's `as u16` of an f32, from the bits of the number: a NaN and what is below one give 0, what is
// 65,535 or more gives 65,535, and anything else loses its fraction.
#![tactic(auto)]

ghost use Rattle.std.specs.Prelude.{◌≡◌, ◌≤◌};
ghost use Rattle.std.specs.Float.{binary32};
ghost use Rattle.std.specs.Float.Ieee.{of_bits, to_unsigned};

pub fn cut(x: f32) -> u16
    ensures { result ≡ to_unsigned 16 x }
{
    // Only a NaN differs from itself. It has no pattern of its own, so it is told apart before `to_bits`.
    if x != x {
        return 0;
    }
    let bits = f32::to_bits(x);
    // The highest bit is the sign, and what is below zero has no whole part to keep.
    if bits < 0x8000_0000 {
        whole_part(bits)
    } else {
        0
    }
}

// What `as u16` makes of the f32 with the pattern `bits`: of zero, of a number above it, or of the infinity.
fn whole_part(bits: u32) -> u16
    requires { bits ≤ 0x7f80_0000 }
    ensures { result ≡ to_unsigned 16 (of_bits binary32 bits) }
{
    let exponent = bits / 0x80_0000;
    if exponent < 127 {
        // The number is below one.
        0
    } else if exponent < 143 {
        // The number is `digits` * 2 ^ (exponent - 150), so the lowest 150 - exponent bits are its fraction.
        let digits = 0x80_0000 + bits % 0x80_0000;
        (digits >> (150 - exponent)) as u16
    } else {
        // The number is 2 ^ 16 or more, or the infinity.
        65535
    }
}

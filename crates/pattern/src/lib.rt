// An f32 from the 32 bits that stand for it in a text, and back. A NaN has many patterns: each is read as the one NaN,
// which is written as 7FC00000.
#![tactic(auto)]

ghost use Rattle.std.specs.Prelude.{◌≡◌};
ghost use Rattle.std.specs.Float.{binary32};
ghost use Rattle.std.specs.Float.Ieee.{of_bits, to_bits};

pub fn of_pattern(bits: u32) -> f32
    ensures { result ≡ of_bits binary32 bits }
{
    // Without the sign, what is above the infinity's pattern is a NaN's.
    if 0x7f80_0000 < bits % 0x8000_0000 {
        0.0 / 0.0
    } else {
        f32::from_bits(bits)
    }
}

pub fn to_pattern(x: f32) -> u32
    ensures { result ≡ to_bits binary32 x }
{
    // Only a NaN differs from itself.
    if x != x { 0x7fc0_0000 } else { f32::to_bits(x) }
}

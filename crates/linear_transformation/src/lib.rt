// A linear transformation y = x * slope + offset between two scales, as slope and offset travel in
// the settings: one value of two f32. Every operation rounds once, and none is fused.
#![tactic(auto)]

ghost use Rattle.std.specs.Prelude.{◌≡◌};
ghost use Rattle.linear_transformation.specs.Line.{line, map_of, invert_of};

#[derive(Clone, Copy, PartialEq)]
pub struct LinearTransformation {
    pub slope: f32,
    pub offset: f32,
}

impl LinearTransformation {
    pub fn new(slope: f32, offset: f32) -> Self
        ensures { result ≡ line slope offset }
    {
        LinearTransformation { slope, offset }
    }

    // From y back to x.
    pub fn invert(self, vertical: f32) -> f32
        ensures { result ≡ invert_of self vertical }
    {
        (vertical - self.offset) / self.slope
    }

    // From x to y.
    pub fn map(self, horizontal: f32) -> f32
        ensures { result ≡ map_of self horizontal }
    {
        horizontal * self.slope + self.offset
    }
}

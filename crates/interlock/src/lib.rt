// The code that the interlock chip gets for a trip level. Levels are set in dBm; the transform of the
// output or of the reflected power says how many volts that is.
#![tactic(auto)]

ghost use Rattle.std.specs.Prelude.{◌≡◌};
ghost use Rattle.interlock.specs.Level.{level_code};
ghost use Rattle.interlock.specs.Demand3.{Right};

use linear_transformation::LinearTransformation;

// The first promise fixes the answer. The second is demand 3: how far the code may lie from the exact
// count, and when a level may be refused.
pub fn level_code(transform: LinearTransformation, threshold: f32) -> Option<u16>
    ensures exact { result ≡ level_code transform threshold }
    ensures close { Right transform threshold result }
{
    let voltage = transform.invert(threshold);
    conversions::ad5627_code(voltage)
}

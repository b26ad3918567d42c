// Volts to codes and back, for the chips of a channel, each in its own range. The drivers send and
// read these codes; here nothing is sent yet.
#![tactic(auto)]

ghost use Rattle.std.specs.Prelude.{◌≡◌};
ghost use Rattle.conversions.specs.Codes.{code_of, volts_of, ad5627_code, dac7571_code, limit_of, ads7924_codes, ads7924_volts};

use cut::cut;

// The codes of a pair of alarm limits.
#[derive(Clone, Copy)]
pub struct Limits {
    pub low: u16,
    pub high: u16,
}

// The share of a full scale in steps of 1/4096, cut to a whole number.
pub fn code_of(scale: f32, voltage: f32) -> u16
    ensures { result ≡ code_of scale voltage }
{
    cut(voltage / scale * 4096.0)
}

// The volts that a code stands for.
pub fn volts_of(scale: f32, code: u16) -> f32
    ensures { result ≡ volts_of scale code }
{
    code as f32 / 4096.0 * scale
}

// ad5627: a NaN fails the first test, and 2.5 V itself would need a thirteenth bit.
pub fn ad5627_code(voltage: f32) -> Option<u16>
    ensures { result ≡ ad5627_code voltage }
{
    if 0.0 <= voltage && voltage <= 2.5 {
        let code = code_of(2.5, voltage);
        if code <= 0xFFF {
            return Some(code);
        }
    }
    None
}

// dac7571: a NaN fails neither test, and is sent as 0.
pub fn dac7571_code(voltage: f32) -> Option<u16>
    ensures { result ≡ dac7571_code voltage }
{
    if voltage >= 3.3 || voltage < 0.0 {
        return None;
    }
    // The mask is the Rust's. It changes nothing, as the promise says.
    Some(code_of(3.3, voltage) & 0xFFF)
}

// ads7924: one alarm limit as a code.
fn limit_of(voltage: f32) -> u16
    ensures { result ≡ limit_of voltage }
{
    cut(voltage / (3.434 / 4096.0))
}

// ads7924: a pair of alarm limits.
pub fn ads7924_codes(low: f32, high: f32) -> Option<Limits>
    ensures { result ≡ ads7924_codes low high }
{
    if high < low || low < 0.0 || high < 0.0 {
        return None;
    }
    let low_code = limit_of(low);
    let high_code = limit_of(high);
    if 0x1000 <= low_code || 0x1000 <= high_code {
        return None;
    }
    Some(Limits {
        low: low_code,
        high: high_code,
    })
}

// ads7924: the volts that a code stands for.
pub fn ads7924_volts(code: u16) -> f32
    ensures { result ≡ ads7924_volts code }
{
    code as f32 * (3.434 / 4096.0)
}

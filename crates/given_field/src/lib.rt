// What a line of a trace gives to a call: a temperature, and settings.
#![tactic(auto)]

ghost use Rattle.std.specs.Prelude.{◌≡◌};
ghost use Rattle.given_field.specs.Given.{warmth_of, pair_of, wanted_of, settings_of};

use linear_transformation::LinearTransformation;
use rf_channel::{ChannelSettings, ChannelState};

// A temperature: a float, or `-` where its chip did not answer.
#[tactic(auto, unfolding(crate::specs::Given::warmth_of))]
pub fn warmth_of(s: &[u8]) -> Option<Option<f32>>
    ensures { result ≡ warmth_of s.now }
{
    match s {
        b"-" => Some(None),
        _ => Some(Some(field::float(s)?)),
    }
}

// Sixteen digits: the slope and the offset.
#[tactic(auto, using(std::proofs::lemmas::Bool::Decides::nat_tests), unfolding(crate::specs::Given::pair_of))]
fn pair_of(s: &[u8]) -> Option<LinearTransformation>
    ensures { result ≡ pair_of s.now }
{
    if s.len() != 16 {
        return None;
    }
    let slope = field::float(&s[0..8])?;
    let offset = field::float(&s[8..16])?;
    Some(LinearTransformation { slope, offset })
}

// 0 is Off, 1 Powered, 2 Enabled.
fn wanted_of(b: u8) -> Option<ChannelState>
    ensures { result ≡ wanted_of b }
{
    match b {
        b'0' => Some(ChannelState::Off),
        b'1' => Some(ChannelState::Powered),
        b'2' => Some(ChannelState::Enabled),
        _ => None,
    }
}

// Sixty-five digits: the threshold, the bias, three transforms and the state.
#[tactic(auto, using(std::proofs::lemmas::Bool::Decides::nat_tests), unfolding(crate::specs::Given::settings_of))]
pub fn settings_of(s: &[u8]) -> Option<ChannelSettings>
    ensures { result ≡ settings_of s.now }
{
    if s.len() != 65 {
        return None;
    }
    Some(ChannelSettings {
        output_interlock_threshold: field::float(&s[0..8])?,
        bias_voltage: field::float(&s[8..16])?,
        input_power_transform: pair_of(&s[16..32])?,
        output_power_transform: pair_of(&s[32..48])?,
        reflected_power_transform: pair_of(&s[48..64])?,
        state: wanted_of(s[64])?,
    })
}

// The fields of one line of a replay trace that are one of a few texts, flags and the names of calls.
// Any other text is `None`.
#![tactic(auto)]

ghost use Rattle.std.specs.Prelude.{◌≡◌};
ghost use Rattle.names.specs.Names.{flag_of, name_of};

// The name of a call.
#[derive(Clone, Copy)]
pub enum Name {
    Start,
    Startup,
    Update,
    Reset,
    Standby,
    Settings,
    Status,
}

// A flag is a single byte, 0 or 1.
#[tactic(auto, using(crate::proofs::Laws::same_cases, crate::proofs::Laws::same_bytes))]
pub fn flag_of(s: &[u8]) -> Option<bool>
    ensures { result ≡ flag_of s.now }
{
    match s {
        b"0" => Some(false),
        b"1" => Some(true),
        _ => None,
    }
}

#[tactic(auto, using(crate::proofs::Laws::same_cases, crate::proofs::Laws::same_bytes))]
pub fn name_of(s: &[u8]) -> Option<Name>
    ensures { result ≡ name_of s.now }
{
    match s {
        b"start" => Some(Name::Start),
        b"startup" => Some(Name::Startup),
        b"update" => Some(Name::Update),
        b"reset" => Some(Name::Reset),
        b"standby" => Some(Name::Standby),
        b"settings" => Some(Name::Settings),
        b"status" => Some(Name::Status),
        _ => None,
    }
}

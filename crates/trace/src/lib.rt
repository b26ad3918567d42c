// A line of a trace, without its end: nine columns, of which the first seven and the last make a call. The
// replies, in the eighth, are for the crate `reply_field`.
#![tactic(auto)]

ghost use Rattle.std.specs.Prelude.{◌≡◌};
ghost use Rattle.columns.specs.Columns.{column_of};
ghost use Rattle.names.specs.Names.{flag_of};
ghost use Rattle.trace.specs.Trace.{givens_of, request_of, filled_of, call_of, parsed_of};

use entry::Call;
use names::Name;
use rf_call::Givens;
use rf_calls::Request;
use rf_channel::ChannelSettings;
use rf_status::Detectors;

// The flag in a column.
fn flag_at(s: &[u8], k: usize) -> Option<bool>
    ensures { result ≡ flag_of (column_of k s.now) }
{
    names::flag_of(columns::part(s, k))
}

// The tick, the temperature and the four flags.
#[tactic(auto, unfolding(crate::specs::Trace::givens_of))]
fn givens_of(s: &[u8]) -> Option<Givens>
    ensures { result ≡ givens_of s.now }
{
    Some(Givens {
        tick: field::decimal(columns::part(s, 0))?,
        temperature: given_field::warmth_of(columns::part(s, 2))?,
        alert: flag_at(s, 3)?,
        output_overdrive: flag_at(s, 4)?,
        reflected_overdrive: flag_at(s, 5)?,
        watchdog: flag_at(s, 6)?,
    })
}

// A request that comes without settings. A status has no detectors to show.
fn request_of(name: Name) -> Option<Request>
    ensures { result ≡ request_of name }
{
    match name {
        Name::Start | Name::Settings => None,
        Name::Startup => Some(Request::Startup),
        Name::Update => Some(Request::Update),
        Name::Reset => Some(Request::Reset),
        Name::Standby => Some(Request::Standby),
        Name::Status => Some(Request::Status(Detectors {
            output: 0,
            reflected: 0,
        })),
    }
}

// A call that comes with settings. The module is there.
fn filled_of(name: Name, settings: ChannelSettings, givens: Givens) -> Option<Call>
    ensures { result ≡ filled_of name settings givens }
{
    match name {
        Name::Start => Some(Call::Start(settings, true)),
        Name::Settings => Some(Call::Ask(Request::Settings(settings), givens)),
        _ => None,
    }
}

// A start and settings have to fill the last column, and no other call may.
#[tactic(auto, using(std::proofs::lemmas::Bool::Decides::nat_tests, crate::proofs::Laws::call_empty, crate::proofs::Laws::call_filled))]
fn call_of(name: Name, last: &[u8], givens: Givens) -> Option<Call>
    ensures { result ≡ call_of name last.now givens }
{
    if last.is_empty() {
        return Some(Call::Ask(request_of(name)?, givens));
    }
    filled_of(name, given_field::settings_of(last)?, givens)
}

// A line of at most 512 bytes and of nine columns that all fit.
#[tactic(auto, using(std::proofs::lemmas::Bool::Decides::nat_tests), unfolding(crate::specs::Trace::parsed_of))]
pub fn parse(s: &[u8]) -> Option<Call>
    ensures { result ≡ parsed_of s.now }
{
    if 512 < s.len() || columns::count(s) != 9 || !reply_field::fits(columns::part(s, 7)) {
        return None;
    }
    let givens = givens_of(s)?;
    let name = names::name_of(columns::part(s, 1))?;
    call_of(name, columns::part(s, 8), givens)
}

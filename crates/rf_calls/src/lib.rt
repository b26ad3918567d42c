// What may be asked of a channel that stands in a slot, in one place.
#![tactic(auto)]

ghost use Rattle.std.specs.Prelude.{◌≤◌, ◌≡◌, length};
ghost use Rattle.bus.specs.Run.{Runs, HasRoom};
ghost use Rattle.rf_calls.specs.Requests.{places, requested, shown_by};

use bus::Bus;
use rf_call::{Givens, Outcome};
use rf_channel::{ChannelSettings, RfChannel};
use rf_status::Detectors;

#[derive(Clone, Copy)]
pub enum Request {
    Startup,
    Update,
    Reset,
    Standby,
    Settings(ChannelSettings),
    Status(Detectors),
}

// Does what is asked. Only a status touches the numbers.
#[tactic(auto, unfolding(crate::specs::Requests::shown_by))]
pub fn request_at(
    bus: &mut Bus,
    numbers: &mut [f32],
    channel: RfChannel,
    request: Request,
    givens: Givens,
) -> Outcome
    requires { HasRoom bus.old 12 5 × (places request ≤ length numbers.old) }
    ensures lent { bus.new.log.ghost_name ≡ bus.old.log.ghost_name }
    ensures run { Runs (requested channel request givens) bus.old 12 5 bus.new result }
    ensures shown { numbers.new ≡ shown_by channel request givens bus.old.replies.now bus.old.at.slot bus.old.at.taken numbers.old }
{
    match request {
        Request::Startup => rf_call::handle_startup(bus, channel, givens),
        Request::Update => rf_update::update(bus, channel, givens),
        Request::Reset => rf_call::interlock_reset(bus, channel, givens),
        Request::Standby => rf_call::standby(bus, channel, givens),
        Request::Settings(settings) => rf_settings::handle_settings(bus, channel, settings, givens),
        Request::Status(detectors) => rf_status::get_status(
            bus, numbers, channel, detectors, givens,
        ),
    }
}

// The names of the states, put into a buffer that the caller lends.
#![tactic(auto)]

ghost use Rattle.std.specs.Prelude.{◌≡◌, ◌+◌, ◌≤◌, length};
ghost use Rattle.text.specs.Texts.{bytes_of};
ghost use Rattle.text.specs.Writers.{Writes};
ghost use Rattle.state_name.specs.Names.{state_name, state_text};

use rf_call::Slot;
use rf_channel::{ChannelFault, Interlock, States};
use text::Writer;

// The name of a state. A deadline is not shown.
fn name(state: States) -> &'static [u8]
    ensures { result.now ≡ bytes_of (state_name state) }
{
    match state {
        States::Blocked(ChannelFault::OverTemperature) => b"Blocked(OverTemperature)",
        States::Blocked(ChannelFault::UnderTemperature) => b"Blocked(UnderTemperature)",
        States::Blocked(ChannelFault::SupplyAlert) => b"Blocked(SupplyAlert)",
        States::Off => b"Off",
        States::Powerup(_) => b"Powerup",
        States::Powered => b"Powered",
        States::Enabled => b"Enabled",
        States::Tripped(Interlock::Input) => b"Tripped(Input)",
        States::Tripped(Interlock::Output) => b"Tripped(Output)",
        States::Tripped(Interlock::Reflected) => b"Tripped(Reflected)",
        States::Powerdown(_) => b"Powerdown",
    }
}

// The name of a state. The room that is asked for, 25 bytes, is that of the longest name.
pub fn put_state(writer: &mut Writer, state: States)
    requires { writer.old.at + 25 ≤ length writer.old.out.now }
    ensures lent { writer.new.out.ghost_name ≡ writer.old.out.ghost_name }
    ensures text { Writes writer.old writer.new (bytes_of (state_name state)) }
{
    writer.put_bytes(name(state));
}

// The name of what stands in the slot.
pub fn put_slot(writer: &mut Writer, slot: Slot)
    requires { writer.old.at + 25 ≤ length writer.old.out.now }
    ensures lent { writer.new.out.ghost_name ≡ writer.old.out.ghost_name }
    ensures text { Writes writer.old writer.new (state_text slot) }
{
    match slot {
        Slot::Empty => writer.put_bytes(b"Empty"),
        Slot::Halted(_) => writer.put_bytes(b"Halted"),
        Slot::Channel(channel) => put_state(writer, channel.state),
    }
}

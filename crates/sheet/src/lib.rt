// The lines that the replay writes, put into a buffer that the caller lends.
#![tactic(auto)]

ghost use Rattle.std.specs.Prelude.{◌≡◌, ◌++◌, ◌+◌, ◌≤◌, length};
ghost use Rattle.text.specs.Texts.{bytes_of, decimal_text};
ghost use Rattle.text.specs.Writers.{Writes};
ghost use Rattle.sheet.specs.Lines.{power_of, rf_of, level_text, standing_text, header_text, answer_text, bad_text};

use rf_call::Slot;
use state_name::put_slot;
use text::Writer;

// The level of the pin enable_power. A slot without a channel drives no pin, and shows 0.
fn power_of(slot: Slot) -> bool
    ensures { result ≡ power_of slot }
{
    matches!(slot, Slot::Channel(channel) if channel.enable_power)
}

// The level of the pin signal_on, likewise.
fn rf_of(slot: Slot) -> bool
    ensures { result ≡ rf_of slot }
{
    matches!(slot, Slot::Channel(channel) if channel.signal_on)
}

// A number and the comma behind it.
fn put_number(writer: &mut Writer, n: u64)
    requires { writer.old.at + 21 ≤ length writer.old.out.now }
    ensures lent { writer.new.out.ghost_name ≡ writer.old.out.ghost_name }
    ensures text { Writes writer.old writer.new (decimal_text n ++ bytes_of ",") }
{
    writer.put_decimal(n);
    writer.put_bytes(b",");
}

// A level and the comma behind it.
#[tactic(auto, unfolding(crate::specs::Lines::level_text))]
fn put_level(writer: &mut Writer, on: bool)
    requires { writer.old.at + 2 ≤ length writer.old.out.now }
    ensures lent { writer.new.out.ghost_name ≡ writer.old.out.ghost_name }
    ensures text { Writes writer.old writer.new (level_text on ++ bytes_of ",") }
{
    writer.put_bytes(if on { b"1," } else { b"0," });
}

// What stands in the slot: its state and the two levels, with a comma behind each.
fn put_standing(writer: &mut Writer, slot: Slot)
    requires { writer.old.at + 30 ≤ length writer.old.out.now }
    ensures lent { writer.new.out.ghost_name ≡ writer.old.out.ghost_name }
    ensures text { Writes writer.old writer.new (standing_text slot) }
{
    put_slot(writer, slot);
    writer.put_bytes(b",");
    put_level(writer, power_of(slot));
    put_level(writer, rf_of(slot));
}

// The line for a call. No line is longer than the 96 bytes that a caller keeps free for each.
pub fn put_answer(writer: &mut Writer, line: u64, answer: u8, slot: Slot, used: usize)
    requires { writer.old.at + 96 ≤ length writer.old.out.now }
    ensures lent { writer.new.out.ghost_name ≡ writer.old.out.ghost_name }
    ensures text { Writes writer.old writer.new (answer_text line answer slot used) }
{
    put_number(writer, line);
    put_number(writer, answer as u64);
    put_standing(writer, slot);
    writer.put_decimal(used as u64);
    writer.put_bytes(b"\r\n");
}

// The line for an input line that does not fit.
pub fn put_bad(writer: &mut Writer, line: u64)
    requires { writer.old.at + 96 ≤ length writer.old.out.now }
    ensures lent { writer.new.out.ghost_name ≡ writer.old.out.ghost_name }
    ensures text { Writes writer.old writer.new (bad_text line) }
{
    put_number(writer, line);
    writer.put_bytes(b"bad\r\n");
}

// The first line, with the columns' names.
#[tactic(auto, unfolding(crate::specs::Lines::header_text))]
pub fn put_header(writer: &mut Writer)
    requires { writer.old.at + 96 ≤ length writer.old.out.now }
    ensures lent { writer.new.out.ghost_name ≡ writer.old.out.ghost_name }
    ensures text { Writes writer.old writer.new header_text }
{
    writer.put_bytes(b"line,answer,state,power,rf,rows\r\n");
}

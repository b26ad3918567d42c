// One line of a trace, without its end: the call that it makes on slot 0, and the line that says what came
// of it.
#![tactic(auto)]

ghost use Rattle.std.specs.Prelude.{true, ◌≡◌, ◌+◌, ◌≤◌, length};
ghost use Rattle.reply_field.specs.Replies.{fits_of, padded_of};
ghost use Rattle.rack_call.specs.Calls.{Leaves};
ghost use Rattle.text.specs.Writers.{Writes};
ghost use Rattle.replay_line.specs.Line.{turned, after_line, line_text};

use entry::Call;
use slots::{Rack, Turn};
use text::Writer;

// What a line leaves: the rack, and how many rows are used.
#[derive(Clone, Copy)]
pub struct Told {
    pub rack: Rack,
    pub used: usize,
}

// The call on slot 0. A status has places for its seven numbers, which nobody reads.
fn turn(rack: Rack, call: Call, log: &mut [u8], used: usize, replies: &[u8]) -> Turn
    ensures { Leaves (turned (record { rack = rack; used = used; log = log.old }) call replies.now) used log.old result log.new }
{
    let mut numbers = [0.0; 7];
    rack_call::call(rack, 0, call, log, used, replies, &mut numbers)
}

// The call with the replies of the line's column.
fn replied(rack: Rack, call: Call, log: &mut [u8], used: usize, column: &[u8]) -> Turn
    requires { fits_of column.now ≡ true }
    ensures { Leaves (turned (record { rack = rack; used = used; log = log.old }) call (padded_of column.now)) used log.old result log.new }
{
    let mut replies = [0u8; 135];
    reply_field::fill(column, &mut replies);
    turn(rack, call, log, used, &replies)
}

// Line number `line`: what it asks is done, and what came of it is written. A line that does not fit changes
// nothing but the output.
pub fn answer(
    rack: Rack,
    used: usize,
    log: &mut [u8],
    line: u64,
    s: &[u8],
    writer: &mut Writer,
) -> Told
    requires { writer.old.at + 96 ≤ length writer.old.out.now }
    ensures lent { writer.new.out.ghost_name ≡ writer.old.out.ghost_name }
    ensures line { (record { rack = result.rack; used = result.used; log = log.new } ≡ after_line (record { rack = rack; used = used; log = log.old }) s.now) × Writes writer.old writer.new (line_text (record { rack = rack; used = used; log = log.old }) line s.now) × (writer.new.at ≤ writer.old.at + 96) }
{
    let Some(call) = trace::parse(s) else {
        sheet::put_bad(writer, line);
        return Told { rack, used };
    };
    let column = columns::part(s, 7);
    let turn = replied(rack, call, log, used, column);
    let next = turn.rack;
    let verdict = turn.verdict;
    let number = slots::number(verdict);
    let standing = slots::slot_at(next, 0);
    sheet::put_answer(writer, line, number, standing, turn.used);
    Told {
        rack: next,
        used: turn.used,
    }
}

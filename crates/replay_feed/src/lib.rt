// The replay, chunk by chunk. The input may be cut anywhere: what is known of the line that a chunk ends
// in goes on to the next, its bytes in a buffer that the caller lends.
#![tactic(auto)]

ghost use Rattle.std.specs.Prelude.{◌≡◌, ◌+◌, ◌*◌, ◌≤◌, length, take};
ghost use Rattle.text.specs.Texts.{Wrote};
ghost use Rattle.text.specs.Writers.{Writes};
ghost use Rattle.sheet.specs.Lines.{header_text};
ghost use Rattle.replay_feed.specs.Feed.{fresh, place_of, passed, passed_text, reading, ended, ended_text, step, step_text, ran, ran_text, finished, finished_text};

use slots::Rack;
use text::Writer;

const LF: u8 = b'\n';

// Of what it is lent a call takes at most this much: each byte may be a line, and a line of output has at
// most 96 bytes.
pub const CHUNK: usize = 1024;

// What goes on from chunk to chunk: the rack, the rows used, the number of the line that is being read, where
// the header has 0, and how many of its bytes are held.
#[derive(Clone, Copy)]
pub struct Replay {
    pub rack: Rack,
    pub used: usize,
    pub line: u64,
    pub held: usize,
}

// The replay afterwards, and the place past what was written. The public functions are lent no writer but the buffer,
// whose size says that there is room: so they ask for none.
#[derive(Clone, Copy)]
pub struct Fed {
    pub replay: Replay,
    pub past: usize,
}

// Writes the header of the output. The rack is empty.
pub fn begin(out: &mut [u8; 98304]) -> Fed
    ensures { (result.replay ≡ fresh) × Wrote out.old 0 out.new result.past header_text }
{
    let mut writer = Writer { out, at: 0 };
    sheet::put_header(&mut writer);
    Fed {
        replay: Replay {
            rack: slots::empty(),
            used: 0,
            line: 0,
            held: 0,
        },
        past: writer.at,
    }
}

// The line s has ended. The header has no effect.
fn pass(replay: Replay, log: &mut [u8], s: &[u8], writer: &mut Writer) -> Replay
    requires { writer.old.at + 96 ≤ length writer.old.out.now }
    ensures lent { writer.new.out.ghost_name ≡ writer.old.out.ghost_name }
    ensures line { (place_of result log.new ≡ passed (place_of replay log.old) s.now) × (result.held ≡ 0) × Writes writer.old writer.new (passed_text (place_of replay log.old) s.now) × (writer.new.at ≤ writer.old.at + 96) }
{
    let next = Replay {
        line: replay.line.wrapping_add(1),
        held: 0,
        ..replay
    };
    if replay.line == 0 {
        return next;
    }
    let told = replay_line::answer(replay.rack, replay.used, log, replay.line, s, writer);
    Replay {
        rack: told.rack,
        used: told.used,
        ..next
    }
}

// A line feed: the line that is held has ended.
fn end_line(replay: Replay, log: &mut [u8], hold: &[u8], writer: &mut Writer) -> Replay
    requires { writer.old.at + 96 ≤ length writer.old.out.now }
    ensures lent { writer.new.out.ghost_name ≡ writer.old.out.ghost_name }
    ensures line { (reading result log.new hold.now ≡ ended (reading replay log.old hold.now)) × Writes writer.old writer.new (ended_text (reading replay log.old hold.now)) × (writer.new.at ≤ writer.old.at + 96) }
{
    let held = line_hold::front(hold, replay.held);
    let s = line_hold::without_cr(held);
    pass(replay, log, s, writer)
}

// One byte more: it ends the line, or is kept.
fn feed_byte(replay: Replay, log: &mut [u8], hold: &mut [u8], b: u8, writer: &mut Writer) -> Replay
    requires { (length hold.old ≡ 514) × (writer.old.at + 96 ≤ length writer.old.out.now) }
    ensures lent { writer.new.out.ghost_name ≡ writer.old.out.ghost_name }
    ensures byte { (reading result log.new hold.new ≡ step (reading replay log.old hold.old) b) × Writes writer.old writer.new (step_text (reading replay log.old hold.old) b) × (writer.new.at ≤ writer.old.at + 96) }
{
    if b == LF {
        return end_line(replay, log, hold, writer);
    }
    Replay {
        held: line_hold::keep(hold, replay.held, b),
        ..replay
    }
}

// All bytes of the chunk, one after the other.
fn feed_all(replay: Replay, log: &mut [u8], hold: &mut [u8], chunk: &[u8], out: &mut [u8]) -> Fed
    requires { (length hold.old ≡ 514) × (length chunk.now * 96 ≤ length out.old) }
    ensures { (reading result.replay log.new hold.new ≡ ran (reading replay log.old hold.old) chunk.now) × Wrote out.old 0 out.new result.past (ran_text (reading replay log.old hold.old) chunk.now) }
{
    let mut writer = Writer { out, at: 0 };
    let mut replay = replay;
    for b in chunk {
        replay = feed_byte(replay, log, hold, *b, &mut writer);
    }
    Fed {
        replay,
        past: writer.at,
    }
}

// The next chunk of the input.
pub fn feed(
    replay: Replay,
    log: &mut [u8],
    hold: &mut [u8; 514],
    chunk: &[u8],
    out: &mut [u8; 98304],
) -> Fed
    ensures { (reading result.replay log.new hold.new ≡ ran (reading replay log.old hold.old) (take 1024 chunk.now)) × Wrote out.old 0 out.new result.past (ran_text (reading replay log.old hold.old) (take 1024 chunk.now)) }
{
    let part = line_hold::front(chunk, CHUNK);
    feed_all(replay, log, hold, part, out)
}

// The end of the input. A last line without a line end counts.
pub fn finish(replay: Replay, log: &mut [u8], hold: &[u8; 514], out: &mut [u8; 98304]) -> Fed
    ensures { (reading result.replay log.new hold.now ≡ finished (reading replay log.old hold.now)) × Wrote out.old 0 out.new result.past (finished_text (reading replay log.old hold.now)) }
{
    if replay.held == 0 {
        return Fed { replay, past: 0 };
    }
    let s = line_hold::front(hold, replay.held);
    let mut writer = Writer { out, at: 0 };
    let replay = pass(replay, log, s, &mut writer);
    Fed {
        replay,
        past: writer.at,
    }
}

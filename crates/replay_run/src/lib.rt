// Replays a trace: reads it of any reader, and writes what each line gives to any writer. Where the bytes of both are
// known, as of a reader and a writer over memory, what is written is what document 01 has for the whole trace.
#![tactic(auto)]

ghost use Rattle.std.specs.Prelude.{◌≡◌, ◌<◌, ◌^◌, ℕ, List, [], length, take, OnOk, IsErrOf};
ghost use Rattle.std.specs.Io.KnownBytes.{Appends};
ghost use Rattle.sheet.specs.Lines.{header_text};
ghost use Rattle.replay_feed.specs.Feed.{reading};
ghost use Rattle.replay_theorems.specs.Whole.{whole};
ghost use Rattle.replay_run.specs.Run.{Moves, rest_text, Partly, begun};

use replay_feed::{CHUNK, Replay};
use replay_turn::Moved;
use std::fmt;
use std::fmt::{Display, Formatter};
use std::io::{Read, Write};

// Why a replay stopped before the end of its trace: the trace cannot be read, or the answers cannot be written.
#[derive(Clone, Copy)]
pub enum Broken {
    Trace,
    Answers,
}

impl Display for Broken {
    fn fmt<W: fmt::Write>(&self, f: &mut Formatter<W>) -> fmt::Result {
        match self {
            Broken::Trace => write!(f, "The trace cannot be read."),
            Broken::Answers => write!(f, "The answers cannot be written."),
        }
    }
}

// Writes the first `past` bytes of the buffer.
fn send<W: Write>(answers: &mut W, out: &[u8], past: usize) -> Result<(), Broken>
    ensures written { OnOk result (Appends (W.contents answers.old) (W.contents answers.new) (take past out.now)) }
    ensures broken { IsErrOf result Broken.Trace → ⊥ }
{
    let text = line_hold::front(out, past);
    answers.write_all(text).map_err(|_| Broken::Answers)
}

// One read, and what comes of it.
fn read_on<R: Read>(
    trace: &mut R,
    replay: Replay,
    log: &mut [u8],
    hold: &mut [u8; 514],
    chunk: &mut [u8; CHUNK],
    out: &mut [u8; 98304],
) -> Moved
    ensures { (rest : List ℕ) → R.remaining trace.old ≡ Some rest → Moves rest (R.remaining trace.new) (reading replay log.old hold.old) log.new hold.new out.old out.new result }
{
    let got = trace.read(chunk).ok();
    replay_turn::turn(replay, log, hold, chunk, got, out)
}

// One read after the other, up to the end of the trace.
fn read_all<R: Read, W: Write>(
    trace: &mut R,
    answers: &mut W,
    replay: Replay,
    log: &mut [u8],
    hold: &mut [u8; 514],
    chunk: &mut [u8; CHUNK],
    out: &mut [u8; 98304],
) -> Result<(), Broken>
    ensures all { (rest : List ℕ) → R.remaining trace.old ≡ Some rest → OnOk result (Appends (W.contents answers.old) (W.contents answers.new) (rest_text (reading replay log.old hold.old) rest)) }
    ensures part { (rest : List ℕ) → R.remaining trace.old ≡ Some rest → IsErrOf result Broken.Trace → Partly [] (reading replay log.old hold.old) rest (W.contents answers.old) (W.contents answers.new) }
{
    let mut replay = replay;
    // A proved loop has to end, and nothing says that a trace does: no run uses these reads up.
    'reads: for _ in 0..u64::MAX {
        match read_on(trace, replay, log, hold, chunk, out) {
            Moved::More(fed) => {
                send(answers, out, fed.past)?;
                replay = fed.replay;
            }
            Moved::Ended(fed) => return send(answers, out, fed.past),
            Moved::Failed => return Err(Broken::Trace),
        }
    }
    Err(Broken::Trace)
}

// Replays the trace, and writes the answers. Where the trace cannot be read to its end, what came of it is answered, but
// for a line that has not ended.
pub fn run<R: Read, W: Write>(trace: &mut R, answers: &mut W) -> Result<(), Broken>
    ensures all { (bytes : List ℕ) → R.remaining trace.old ≡ Some bytes → length bytes < 2 ^ 64 → OnOk result (Appends (W.contents answers.old) (W.contents answers.new) (whole bytes)) }
    ensures part { (bytes : List ℕ) → R.remaining trace.old ≡ Some bytes → IsErrOf result Broken.Trace → Partly header_text begun bytes (W.contents answers.old) (W.contents answers.new) }
{
    let mut log = [0u8; 65536];
    let mut hold = [0u8; 514];
    let mut chunk = [0u8; CHUNK];
    let mut out = [0u8; 98304];
    let begun = replay_feed::begin(&mut out);
    send(answers, &out, begun.past)?;
    read_all(
        trace,
        answers,
        begun.replay,
        &mut log,
        &mut hold,
        &mut chunk,
        &mut out,
    )
}

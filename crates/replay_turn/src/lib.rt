// One read of a trace, and what comes of it: what a program that replays one does between its reads and its
// writes.
#![tactic(auto)]

ghost use Rattle.std.specs.Prelude.{◌≡◌};
ghost use Rattle.text.specs.Texts.{Wrote};
ghost use Rattle.replay_feed.specs.Feed.{reading};
ghost use Rattle.replay_turn.specs.Moves.{replay_after, past_of, goes_on, has_failed};
ghost use Rattle.replay_turn.specs.Turn.{turned, turned_text, more_after, failed_of};

use replay_feed::{CHUNK, Fed, Replay};

// What comes of a read: bytes came and there may be more, the trace has ended, or the read failed, and then
// nothing is to be written.
#[derive(Clone, Copy)]
pub enum Moved {
    More(Fed),
    Ended(Fed),
    Failed,
}

// `got` is what `read` gave of the chunk: how many bytes stand in front of it, or none where it failed. A chunk
// is as long as what is fed at a time, so no byte of it is lost.
pub fn turn(
    replay: Replay,
    log: &mut [u8],
    hold: &mut [u8; 514],
    chunk: &[u8; CHUNK],
    got: Option<usize>,
    out: &mut [u8; 98304],
) -> Moved
    ensures { (reading (replay_after replay result) log.new hold.new ≡ turned (reading replay log.old hold.old) got chunk.now) × Wrote out.old 0 out.new (past_of result) (turned_text (reading replay log.old hold.old) got chunk.now) × (goes_on result ≡ more_after got) × (has_failed result ≡ failed_of got) }
{
    match got {
        None => Moved::Failed,
        Some(0) => Moved::Ended(replay_feed::finish(replay, log, hold, out)),
        Some(n) => {
            let came = line_hold::front(chunk, n);
            Moved::More(replay_feed::feed(replay, log, hold, came, out))
        }
    }
}

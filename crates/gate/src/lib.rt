// Whether a call is let in: the slot that it names, the room in the log and the replies. Only what is
// let in touches the log.
#![tactic(auto)]

ghost use Rattle.std.specs.Prelude.{◌≡◌, ℕ};
ghost use Rattle.gate.specs.Gate.{room_of, gate_of, number_of, failed_number, error_number, answer_number};

use bus::{Cursor, Error, Failed};

// The rows that must be free, and the reply bytes that must be there, for any call.
pub const FREE_ROWS: usize = 20;

pub const REPLY_BYTES: usize = 135;

// Why a call is not let in.
#[derive(Clone, Copy)]
pub enum Bar {
    Slot,
    Log,
    Replies,
}

// What a driver that is called by itself gives back: what it answers, or why it is not let in; and the rows used.
#[derive(Clone, Copy)]
pub struct Told<T> {
    pub answer: Result<T, Bar>,
    pub used: usize,
}

// The room of a call: of the log's whole rows that many are free, and the replies are long enough. A
// count past the log's end leaves no row free, however large it is.
pub fn room_of(slot: u8, used: usize, log: usize, replies: usize) -> Result<Cursor, Bar>
    ensures { result ≡ room_of slot used log replies }
{
    let rows = log / 16;
    if rows < FREE_ROWS {
        return Err(Bar::Log);
    }
    if rows - FREE_ROWS < used {
        return Err(Bar::Log);
    }
    if replies < REPLY_BYTES {
        return Err(Bar::Replies);
    }
    Ok(Cursor {
        slot,
        used,
        taken: 0,
    })
}

// The gate of a driver that is called by itself: the slot, then the room.
pub fn gate_of(slot: u8, used: usize, log: usize, replies: usize) -> Result<Cursor, Bar>
    ensures { result ≡ gate_of slot used log replies }
{
    if 8 <= slot {
        return Err(Bar::Slot);
    }
    room_of(slot, used, log, replies)
}

// What has a number in an answer: why something was not done.
pub trait Numbered {
    ghost number_is: { Self → ℕ };

    fn number(self) -> u8
        ensures { result ≡ number_is self };
}

impl Numbered for Bar {
    ghost number_is = { number_of };

    fn number(self) -> u8 {
        match self {
            Bar::Slot => 1,
            Bar::Log => 5,
            Bar::Replies => 6,
        }
    }
}

impl Numbered for Failed {
    ghost number_is = { failed_number };

    fn number(self) -> u8 {
        12
    }
}

impl Numbered for Error {
    ghost number_is = { error_number };

    fn number(self) -> u8 {
        match self {
            Error::Range => 11,
            Error::Bus => 12,
        }
    }
}

// The number of a driver's answer: 0 where all was done.
pub fn number<T: Drop, E: Numbered>(answer: Result<Result<T, E>, Bar>) -> u8
    ensures { result ≡ answer_number E.number_is answer }
{
    match answer {
        Ok(Ok(_)) => 0,
        Ok(Err(error)) => error.number(),
        Err(bar) => bar.number(),
    }
}

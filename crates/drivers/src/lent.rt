// What a call of a driver is lent.
ghost use Rattle.std.specs.Prelude.{◌≤◌};

use super::show;
use lent_replies::Fault;

#[derive(Clone, Copy)]
pub enum Lent {
    // Slot 3, a log of 320 bytes, 135 bytes of replies, which are good.
    Good,
    // The transfer that fails, with a status of 1.
    Failing(usize),
    // The first transfer fails with this status.
    Status(u8),
    // A slot that there is not, a log of 319 bytes, 134 bytes of replies; all three; the last two.
    NoSlot,
    ShortLog,
    FewReplies,
    Nothing,
    NoRoom,
    // More replies than any call takes.
    ManyReplies,
}

impl Lent {
    pub fn slot(self) -> u8 {
        match self {
            Lent::NoSlot | Lent::Nothing => 8,
            _ => 3,
        }
    }

    // The bytes of a log of 320.
    pub fn log(self) -> usize
        ensures { result ≤ 320 }
    {
        match self {
            Lent::ShortLog | Lent::NoRoom | Lent::Nothing => 319,
            _ => 320,
        }
    }

    // The bytes of 111 replies.
    pub fn replies(self) -> usize
        ensures { result ≤ 999 }
    {
        match self {
            Lent::FewReplies | Lent::NoRoom | Lent::Nothing => 134,
            Lent::ManyReplies => 999,
            _ => 135,
        }
    }

    pub fn fault(self) -> Option<Fault> {
        match self {
            Lent::Failing(transfer) => Some(Fault {
                transfer,
                status: 1,
            }),
            Lent::Status(status) => Some(Fault {
                transfer: 0,
                status,
            }),
            _ => None,
        }
    }

    // Prints what is lent but for the usual, and a status that is not 1.
    pub fn print(self) {
        if self.slot() != 3 {
            show::text(b", slot 8");
        }
        if self.log() != 320 {
            show::text(b", log 319");
        }
        if self.replies() != 135 {
            show::text(b", replies");
            show::number(self.replies() as u64);
        }
        if let Lent::Status(status) = self {
            show::text(b", status");
            show::number(u64::from(status));
        }
    }
}

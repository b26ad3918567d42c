// The replies that a call is lent: a status and eight bytes of data to each transfer, more of them than any call takes.
#![tactic(auto)]

ghost use Rattle.std.specs.Prelude.{◌≡◌};
ghost use Rattle.lent_replies.specs.Lent.{status_of, byte_of, replies};

// A transfer that fails, by its place among a call's, and the status that it fails with.
#[derive(Clone, Copy)]
pub struct Fault {
    pub transfer: usize,
    pub status: u8,
}

#[tactic(auto, unfolding(crate::specs::Lent::status_of))]
fn status_of(fault: Option<Fault>, transfer: usize) -> u8
    ensures { result ≡ status_of fault transfer }
{
    match fault {
        Some(fault) if fault.transfer == transfer => fault.status,
        _ => 0,
    }
}

// The byte at a place among those of all the replies.
#[tactic(auto, unfolding(crate::specs::Lent::byte_of))]
fn byte_of(first: u8, fault: Option<Fault>, place: usize) -> u8
    ensures { result ≡ byte_of first fault place }
{
    let status = status_of(fault, place / 9);
    [status, first, 0x00, 0x40, 0x10, 0x20, 0x20, 0x10, 0x30][place % 9]
}

// 111 replies, each with the same data, and all of them good but for the one that fails.
pub fn replies(first: u8, fault: Option<Fault>) -> [u8; 999]
    ensures { result ≡ replies first fault }
{
    std::array::from_fn(|place| byte_of(first, fault, place))
}

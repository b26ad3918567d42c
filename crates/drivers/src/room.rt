// A call at the limits of the log and of the replies.
use super::show;
use show::FRESH;

// A call with so much log and so many replies.
fn case(log: &mut [u8], used: usize, replies: &[u8], slot: u8) {
    show::text(b"room");
    show::number(log.len() as u64);
    show::number(used as u64);
    show::number(replies.len() as u64);
    show::number(u64::from(slot));
    let told = mcp3221::get_voltage(log, used, replies, slot);
    show::answer(gate::number(told.answer));
    show::end(log, used, told.used);
}

fn good() -> [u8; 999] {
    lent_replies::replies(0xF8, None)
}

fn limits() {
    let replies = good();
    case(&mut [FRESH; 319], 0, &replies[0..135], 0);
    case(&mut [FRESH; 320], 0, &replies[0..135], 0);
    case(&mut [FRESH; 320], 0, &replies[0..134], 0);
    case(&mut [FRESH; 335], 1, &replies[0..135], 7);
    case(&mut [FRESH; 336], 1, &replies[0..135], 7);
}

// A slot that there is not, and counts past the log's end.
fn counts() {
    let mut log = [FRESH; 320];
    let replies = good();
    case(&mut log, 0, &replies[0..135], 8);
    case(&mut log, usize::MAX, &replies[0..135], 0);
    case(&mut log, 1 << 60, &replies[0..135], 0);
}

// Where two tests fail, the first answers.
fn order() {
    let mut short = [FRESH; 319];
    let few = [0; 134];
    case(&mut short, 0, &few, 8);
    case(&mut short, 0, &few, 0);
}

pub fn all() {
    limits();
    counts();
    order();
}

// The largest slot number, and one byte of replies more than are needed.
pub fn past() {
    let mut log = [FRESH; 320];
    let replies = good();
    case(&mut log, 0, &replies[0..135], 255);
    case(&mut log, 0, &replies[0..136], 6);
}

// The bus as a caller sees it: a log of rows, sixteen bytes each, and replies, nine bytes each. Every
// driver goes through `Bus::note` and `Bus::transfer`.
#![tactic(auto)]

ghost use Rattle.std.specs.Prelude.{◌≡◌, List, ◌++◌, ℕ, ◌+◌, ◌*◌, ◌≤◌, ◌<◌, length, drop};
ghost use Rattle.bus.specs.Rows.{head, level_of, no_data, status_of, data_of, note_head, transfer_head, laid, put};
ghost use Rattle.bus.specs.Replies.{kept_of, got_at};
ghost use Rattle.bus.specs.declared.Error.TheVariants.{Bus as Unheard};
ghost use Rattle.bus.specs.Run.{note, transfer, Runs, HasRoom, HasRows};

// Where a call stands: the slot that it names, the log rows in use, the replies taken.
#[derive(Clone, Copy)]
pub struct Cursor {
    pub slot: u8,
    pub used: usize,
    pub taken: usize,
}

// The bus as a call has it: the log that it adds rows to, the replies that it takes, and where it stands.
#[derive(Drop)]
pub struct Bus<'a> {
    pub log: &'a mut [u8],
    pub replies: &'a [u8],
    pub at: Cursor,
}

// The eight data bytes of a reply. No array: in the logic that is a list of any length, and a row has sixteen bytes.
#[derive(Clone, Copy)]
pub struct Eight {
    pub b0: u8,
    pub b1: u8,
    pub b2: u8,
    pub b3: u8,
    pub b4: u8,
    pub b5: u8,
    pub b6: u8,
    pub b7: u8,
}

// What is logged and takes no reply: a pin's level, or a wait in microseconds.
#[derive(Clone, Copy)]
pub enum Note {
    SignalOn(bool),
    EnablePower(bool),
    Wait(u16),
}

// What is logged and takes a reply.
#[derive(Clone, Copy)]
pub enum Transfer {
    Write2 {
        address: u8,
        first: u8,
        second: u8,
    },
    Write3 {
        address: u8,
        first: u8,
        second: u8,
        third: u8,
    },
    WriteRead {
        address: u8,
        command: u8,
        count: u8,
    },
    Read {
        address: u8,
        count: u8,
    },
}

// The chip did not answer.
#[derive(Clone, Copy)]
pub struct Failed;

// Why a chip does not do what its driver is asked: the value has no code, or the chip did not answer.
#[derive(Clone, Copy)]
pub enum Error {
    Range,
    Bus,
}

impl From<Failed> for Error {
    ghost from_gives = { λ _ e. e ≡ Unheard };

    fn from(_failed: Failed) -> Error {
        Error::Bus
    }
}

// What came back: the bytes asked for, with 0 for the others, or a failure.
pub type Got = Result<Eight, Failed>;

// A row but for the slot, the status and the bytes in.
#[derive(Clone, Copy)]
pub struct Head {
    pub kind: u8,
    pub address: u8,
    pub outs: u8,
    pub ins: u8,
    pub out0: u8,
    pub out1: u8,
    pub out2: u8,
}

fn row_head(kind: u8, address: u8, outs: u8, ins: u8, out0: u8, out1: u8, out2: u8) -> Head
    ensures { result ≡ head kind address outs ins out0 out1 out2 }
{
    Head {
        kind,
        address,
        outs,
        ins,
        out0,
        out1,
        out2,
    }
}

fn note_head(what: Note) -> Head
    ensures { result ≡ note_head what }
{
    match what {
        Note::SignalOn(on) => row_head(0, 0, 1, 0, u8::from(on), 0, 0),
        Note::EnablePower(on) => row_head(0, 1, 1, 0, u8::from(on), 0, 0),
        Note::Wait(time) => {
            let [high, low] = time.to_be_bytes();
            row_head(4, 0, 2, 0, high, low, 0)
        }
    }
}

fn transfer_head(what: Transfer) -> Head
    ensures { result ≡ transfer_head what }
{
    match what {
        Transfer::Write2 {
            address,
            first,
            second,
        } => row_head(1, address, 2, 0, first, second, 0),
        Transfer::Write3 {
            address,
            first,
            second,
            third,
        } => row_head(1, address, 3, 0, first, second, third),
        Transfer::WriteRead {
            address,
            command,
            count,
        } => row_head(2, address, 1, count, command, 0, 0),
        Transfer::Read { address, count } => row_head(3, address, 0, count, 0, 0, 0),
    }
}

fn no_data() -> Eight
    ensures { result ≡ no_data }
{
    Eight {
        b0: 0,
        b1: 0,
        b2: 0,
        b3: 0,
        b4: 0,
        b5: 0,
        b6: 0,
        b7: 0,
    }
}

fn status_of(got: Got) -> u8
    ensures { result ≡ status_of got }
{
    match got {
        Ok(_) => 0,
        Err(_) => 1,
    }
}

fn data_of(got: Got) -> Eight
    ensures { result ≡ data_of got }
{
    match got {
        Ok(data) => data,
        Err(_) => no_data(),
    }
}

// Data byte number i, or 0 where it was not asked for.
fn kept(count: u8, i: u8, byte: u8) -> u8
    ensures { result ≡ kept_of count i byte }
{
    if i < count { byte } else { 0 }
}

// The reply after `taken` others, of which `count` data bytes were asked for.
#[tactic(auto, unfolding(crate::specs::Replies::got_at, crate::specs::Replies::data_at))]
fn reply_at(replies: &[u8], taken: usize, count: u8) -> Got
    requires { 9 * (taken + 1) ≤ length replies.now }
    ensures { result ≡ got_at replies.now taken count }
{
    let start = 9 * taken;
    let status = replies[start];
    if status != 0 {
        return Err(Failed);
    }
    let data = Eight {
        b0: kept(count, 0, replies[start + 1]),
        b1: kept(count, 1, replies[start + 2]),
        b2: kept(count, 2, replies[start + 3]),
        b3: kept(count, 3, replies[start + 4]),
        b4: kept(count, 4, replies[start + 5]),
        b5: kept(count, 5, replies[start + 6]),
        b6: kept(count, 6, replies[start + 7]),
        b7: kept(count, 7, replies[start + 8]),
    };
    Ok(data)
}

// The sixteen bytes of a row.
#[tactic(auto, unfolding(crate::specs::Rows::laid))]
fn laid(slot: u8, head: Head, got: Got) -> [u8; 16]
    requires { (slot < 8) × (head.kind ≤ 4) }
    ensures { result ≡ laid slot head got }
{
    let data = data_of(got);
    [
        16 * slot + head.kind,
        head.address,
        head.outs,
        head.ins,
        status_of(got),
        head.out0,
        head.out1,
        head.out2,
        data.b0,
        data.b1,
        data.b2,
        data.b3,
        data.b4,
        data.b5,
        data.b6,
        data.b7,
    ]
}

// Writes the row at the front of the log's free tail.
fn write_row(tail: &mut [u8], slot: u8, head: Head, got: Got)
    requires { (slot < 8) × (head.kind ≤ 4) × (16 ≤ length tail.old) }
    ensures { tail.new ≡ laid slot head got ++ drop 16 tail.old }
{
    tail[..16].copy_from_slice(&laid(slot, head, got));
}

// Writes the row behind those in use.
fn add_row(log: &mut [u8], at: Cursor, head: Head, got: Got)
    requires { (at.slot < 8) × (head.kind ≤ 4) × (16 * (at.used + 1) ≤ length log.old) }
    ensures { log.new ≡ put log.old at.used (laid at.slot head got) }
{
    write_row(&mut log[16 * at.used..], at.slot, head, got);
}

impl Bus<'_> {
    // Logs a pin's level or a wait.
    pub fn note(&mut self, what: Note)
        requires { HasRows self.old 1 }
        ensures lent { self.new.log.ghost_name ≡ self.old.log.ghost_name }
        ensures run { Runs (note what) self.old 1 0 self.new tt }
    {
        add_row(self.log, self.at, note_head(what), Ok(no_data()));
        self.at.used += 1;
    }

    // Logs a transfer with what comes back, which is its answer.
    pub fn transfer(&mut self, what: Transfer) -> Result<Eight, Failed>
        requires { HasRoom self.old 1 1 }
        ensures lent { self.new.log.ghost_name ≡ self.old.log.ghost_name }
        ensures run { Runs (transfer what) self.old 1 1 self.new result }
    {
        let head = transfer_head(what);
        let got = reply_at(self.replies, self.at.taken, head.ins);
        add_row(self.log, self.at, head, got);
        self.at.used += 1;
        self.at.taken += 1;
        got
    }
}

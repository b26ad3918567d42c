// What came of a question, and how it is written: `result,data,rows`.
use ads7924::Four;
use gate::{Numbered, Told};
use text::Writer;

// The data that an answer has.
#[derive(Clone, Copy)]
pub enum Data {
    Float(f32),
    Floats(Four),
    Byte(u8),
}

// The number of the answer, its data, and how many rows of the log it used.
#[derive(Clone, Copy)]
pub struct Outcome {
    pub number: u8,
    pub data: Option<Data>,
    pub used: usize,
}

// What comes of a driver that is asked by itself: the data are those of what was done.
pub fn outcome_of<T: Copy, E: Numbered + Copy, F: FnOnce(T) -> Option<Data>>(
    told: Told<Result<T, E>>,
    shown: F,
) -> Outcome
    requires { F.IsAlwaysCallable shown }
{
    Outcome {
        number: gate::number(told.answer),
        data: match told.answer {
            Ok(Ok(done)) => shown(done),
            _ => None,
        },
        used: told.used,
    }
}

// The result of an answer with this number. A driver that is asked by itself refuses nothing here.
fn result_of(number: u8) -> &'static [u8] {
    match number {
        0 => b"done,",
        11 => b"range,",
        12 => b"bus,",
        _ => b"refused,",
    }
}

fn put_four(writer: &mut Writer, volts: Four) {
    pen::floats(writer, &[volts.v0, volts.v1, volts.v2, volts.v3]);
}

fn put_data(writer: &mut Writer, data: Option<Data>) {
    match data {
        Some(Data::Float(x)) => pen::float(writer, x),
        Some(Data::Floats(volts)) => put_four(writer, volts),
        Some(Data::Byte(b)) => pen::pair(writer, b),
        None => (),
    }
}

// The rows, behind the data.
fn put_rows(writer: &mut Writer, log: &[u8], used: usize) {
    pen::byte(writer, b',');
    pen::rows(writer, log, 0, used);
    pen::byte(writer, b'\n');
}

// Writes an outcome.
pub fn put(writer: &mut Writer, outcome: Outcome, log: &[u8]) {
    pen::bytes(writer, result_of(outcome.number));
    put_data(writer, outcome.data);
    put_rows(writer, log, outcome.used);
}

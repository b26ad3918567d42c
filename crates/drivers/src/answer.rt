// What a driver answers, printed.
use super::show;
use ads7924::Four;
use gate::{Numbered, Told};

// What an answer carries, printed behind the answer's number.
pub trait Carried {
    fn print(self);
}

impl Carried for () {
    fn print(self) {}
}

impl Carried for f32 {
    fn print(self) {
        show::float(self);
    }
}

impl Carried for Four {
    fn print(self) {
        for volts in [self.v0, self.v1, self.v2, self.v3] {
            volts.print();
        }
    }
}

impl Carried for u8 {
    fn print(self) {
        show::number(u64::from(self));
    }
}

// Prints an answer, and gives the count of rows.
pub fn print<T: Carried + Copy, E: Numbered + Copy>(told: Told<Result<T, E>>) -> usize {
    show::answer(gate::number(told.answer));
    if let Ok(Ok(value)) = told.answer {
        value.print();
    }
    told.used
}

// A line of the input of `ask`, without its end: the answer to it, put at the start of a buffer that the caller lends.
use crate::question::Question;
use crate::result::{Data, Outcome};
use text::Writer;

// The longest line that can be a question.
const LONGEST: usize = 512;

// A number alone, without a chip.
fn number(x: f32) -> Outcome {
    Outcome {
        number: 0,
        data: Some(Data::Float(x)),
        used: 0,
    }
}

// What came of a question, which finds the log unused.
fn outcome(question: Question, log: &mut [u8], replies: &[u8; 135]) -> Outcome {
    match question {
        Question::Map(transform, x) => number(transform.map(x)),
        Question::Invert(transform, y) => number(transform.invert(y)),
        Question::Mcp3221 => crate::chips::mcp3221(log, replies),
        Question::Dac7571(volts) => crate::chips::dac7571(volts, log, replies),
        Question::Ad5627Open => crate::chips::ad5627_open(log, replies),
        Question::Ad5627(dac, volts) => crate::chips::ad5627(dac, volts, log, replies),
        Question::Ads7924Open => crate::chips::ads7924_open(log, replies),
        Question::Voltage(channel) => crate::chips::voltage(channel, log, replies),
        Question::Voltages => crate::chips::voltages(log, replies),
        Question::Alarm => crate::chips::alarm(log, replies),
        Question::Thresholds(channel, low, high) => crate::chips::thresholds(
            channel, low, high, log, replies,
        ),
    }
}

// Whether the line has so many words, and behind them at most its replies.
fn fits(s: &[u8], words: usize) -> bool {
    let n = crate::words::count(s);
    words <= n && n - words < 2
}

// The question of a line, and its replies.
fn read(s: &[u8], replies: &mut [u8; 135]) -> Option<Question> {
    if LONGEST < s.len() {
        return None;
    }
    let question = crate::question::of(s)?;
    let words = question.words();
    if !fits(s, words) {
        return None;
    }
    // Behind the question's words its replies may stand. Without them the word is empty, and fits.
    let last = crate::words::word(s, words);
    reply_field::fill_if_it_fits(last, replies).then_some(question)
}

// Writes the answer to a line that is given without its end.
fn put(writer: &mut Writer, s: &[u8]) {
    let mut replies = [0u8; 135];
    let Some(question) = read(s, &mut replies) else {
        return pen::bytes(writer, b"bad\n");
    };
    let mut log = [0u8; 320];
    let outcome = outcome(question, &mut log, &replies);
    crate::result::put(writer, outcome, &log);
}

// The answer to a line, without its end, and how many bytes it has, which is what `line_answers` wants of it.
pub fn pass(s: &[u8], out: &mut [u8]) -> usize {
    let mut writer = Writer { out, at: 0 };
    put(&mut writer, s);
    writer.at
}

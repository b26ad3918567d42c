// Reads lines of any reader, and writes the answer to each to any writer.
#![tactic(auto)]

ghost use Rattle.std.specs.Prelude.{OnOk};
ghost use Rattle.std.specs.Io.KnownBytes.{IsAtEnd};

use std::io::{Read, Write};

const LF: u8 = b'\n';

// Why lines were left without an answer: they cannot be read, or the answers cannot be written.
#[derive(Clone, Copy)]
pub enum Broken {
    Input,
    Answers,
}

// Has the line answered, and writes the answer.
fn pass<W: Write, F: FnMut(&[u8], &mut [u8; 2048]) -> usize>(
    line: &[u8],
    answers: &mut W,
    answer: &mut F,
) -> Result<(), Broken>
    requires { F.IsAlwaysCallable answer.old }
    ensures { F.IsAlwaysCallable answer.new }
{
    let mut out = [0u8; 2048];
    let past = answer(line, &mut out);
    answers
        .write_all(line_hold::front(&out, past))
        .map_err(|_| Broken::Answers)
}

// The lines that end in the chunk are answered. Of what is behind the last it tells how many bytes are held.
fn answer_chunk<W: Write, F: FnMut(&[u8], &mut [u8; 2048]) -> usize>(
    chunk: &[u8],
    hold: &mut [u8; 514],
    mut held: usize,
    answers: &mut W,
    answer: &mut F,
) -> Result<usize, Broken>
    requires { F.IsAlwaysCallable answer.old }
    ensures { F.IsAlwaysCallable answer.new }
{
    let mut rest = chunk;
    // No `for` over `split_inclusive`: beside a closure's type its invariant does not check.
    while let Some(end) = rest.iter().position(|b| *b == LF) {
        held = line_hold::keep_part(hold, held, &rest[..end]);
        let line = line_hold::without_cr(line_hold::front(hold, held));
        pass(line, answers, answer)?;
        held = 0;
        rest = &rest[end + 1..];
    }
    Ok(line_hold::keep_part(hold, held, rest))
}

// `answer` is handed each line without its end, in a buffer that holds 514 bytes of it, and puts the answer to it at the
// start of another, and tells how many bytes that has. A last line without a line end counts.
pub fn answer_lines<R: Read, W: Write, F: FnMut(&[u8], &mut [u8; 2048]) -> usize>(
    input: &mut R,
    answers: &mut W,
    mut answer: F,
) -> Result<(), Broken>
    requires { F.IsAlwaysCallable answer }
    ensures { OnOk result (IsAtEnd (R.remaining input.new)) }
{
    let mut hold = [0u8; 514];
    let mut held = 0;
    let mut chunk = [0u8; 65536];
    // A proved loop has to end, and nothing says that the input does: no run uses these reads up.
    'reads: for _ in 0..u64::MAX {
        let n = input.read(&mut chunk).map_err(|_| Broken::Input)?;
        if n == 0 {
            if 0 < held {
                pass(line_hold::front(&hold, held), answers, &mut answer)?;
            }
            return Ok(());
        }
        held = answer_chunk(&chunk[..n], &mut hold, held, answers, &mut answer)?;
    }
    Err(Broken::Input)
}

// The comma-separated columns of one line, with no quotes.
#![tactic(auto)]

ghost use Rattle.std.specs.Prelude.{◌≡◌};
ghost use Rattle.columns.specs.Columns.{count_of, column_of, Spans};

const COMMA: u8 = b',';

// The bytes of a line from `start` up to, not including, `end`.
#[derive(Clone, Copy)]
pub struct Span {
    pub start: usize,
    pub end: usize,
}

// How many columns the line has: one more than it has commas.
pub fn count(s: &[u8]) -> usize
    ensures { result ≡ count_of s.now }
{
    let mut n = 1;
    // No `filter` and `count`: that is a jump at each byte, and this is none.
    for b in s {
        if *b == COMMA {
            n += 1;
        }
    }
    n
}

// Where column k stands, from 0. A column that the line does not have is an empty span at the line's
// end.
pub fn column(s: &[u8], k: usize) -> Span
    ensures { Spans s.now result (column_of k s.now) }
{
    // Column k begins after the line's first k commas.
    let mut start = 0;
    for _ in 0..k {
        let comma = scan::find(s, start, s.len(), COMMA);
        if comma == s.len() {
            return Span {
                start: comma,
                end: comma,
            };
        }
        start = comma + 1;
    }
    let end = scan::find(s, start, s.len(), COMMA);
    Span { start, end }
}

// Column k itself, as a part of the line.
pub fn part(s: &[u8], k: usize) -> &[u8]
    ensures { result.now ≡ column_of k s.now }
{
    let Span { start, end } = column(s, k);
    &s[start..end]
}

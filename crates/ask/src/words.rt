// The words of a line, parted by single spaces.

const SPACE: u8 = b' ';

// How many words the line has: one more than it has spaces.
pub fn count(s: &[u8]) -> usize {
    s.iter().filter(|b| **b == SPACE).count() + 1
}

// Word k, from 0. A word that the line does not have is empty.
pub fn word(s: &[u8], k: usize) -> &[u8] {
    s.split(|b| *b == SPACE).nth(k).unwrap_or(&[])
}

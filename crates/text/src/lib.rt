// Writing bytes and numbers into a buffer that the caller lends, one text behind the other.
#![tactic(auto)]

ghost use Rattle.std.specs.Prelude.{◌≡◌, ◌+◌, ◌≤◌, length};
ghost use Rattle.text.specs.Texts.{decimal_text};
ghost use Rattle.text.specs.Writers.{Writes};

// The buffer that is written to, and the place where the next text begins.
#[derive(Drop)]
pub struct Writer<'a> {
    pub out: &'a mut [u8],
    pub at: usize,
}

impl Writer<'_> {
    // Writes the text, and moves past it.
    pub fn put_bytes(&mut self, text: &[u8])
        requires { self.old.at + length text.now ≤ length self.old.out.now }
        ensures lent { self.new.out.ghost_name ≡ self.old.out.ghost_name }
        ensures text { Writes self.old self.new text.now }
    {
        let past = self.at + text.len();
        self.out[self.at..past].copy_from_slice(text);
        self.at = past;
    }

    // Writes the number in decimal. No number of 64 bits has more than twenty digits.
    pub fn put_decimal(&mut self, n: u64)
        requires { self.old.at + 20 ≤ length self.old.out.now }
        ensures lent { self.new.out.ghost_name ≡ self.old.out.ghost_name }
        ensures text { Writes self.old self.new (decimal_text n) }
    {
        let mut digits = [0u8; 20];
        let k = io::decimal(n, &mut digits);
        self.put_bytes(&digits[..k]);
    }
}

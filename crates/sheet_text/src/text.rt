// A text in a lent slice, written word by word and number by number.
// `as` stands between `usize` and another width, for which there is no `From`, and where a number is proved to fit a narrower one: what `TryFrom`
// answers could only be unwrapped.
ghost use Rattle.std.specs.Prelude.{◌≡◌, ◌+◌, ◌*◌, ◌<◌};
ghost use Rattle.sheet_spec.specs.Text.{digits_within, two_digits, decimal, field, newline};
ghost use Rattle.sheet_text.specs.Text.{Fits, Wrote};

// The slice, and the place in it where the text ends and the next byte goes.
#[derive(Drop)]
pub struct Text<'a> {
    pub out: &'a mut [u8],
    pub at: usize,
}

// A digit's byte.
fn digit(x: u64) -> u8
    requires { x < 10 }
    ensures { result ≡ 48 + x }
{
    (48 + x) as u8
}

impl Text<'_> {
    // Puts the bytes of a word.
    pub fn put_word(&mut self, word: &[u8])
        requires { Fits self.old word.now }
        ensures { Wrote self.old word.now self.new }
    {
        let end = self.at + word.len();
        self.out[self.at..end].copy_from_slice(word);
        self.at = end;
    }

    // Puts the two digits of a number below 100. Digits are put by hand: `write!` would ask for an `impl fmt::Write` of the writer,
    // and answer a `Result` that could only be unwrapped.
    fn put_two(&mut self, x: u64)
        requires { (x < 100) × Fits self.old (two_digits x) }
        ensures { Wrote self.old (two_digits x) self.new }
    {
        self.put_word(&[digit(x / 10), digit(x % 10)]);
    }

    // Puts the digits of a number, two at a time, by recursion on how many pairs of them there may be.
    fn put_pairs(&mut self, x: u64, pairs: u64)
        requires { Fits self.old (digits_within (pairs * 2) x) }
        ensures { Wrote self.old (digits_within (pairs * 2) x) self.new }
    {
        if pairs == 0 {
            return;
        }
        if x < 10 {
            self.put_word(&[digit(x)]);
        } else if x < 100 {
            self.put_two(x);
        } else {
            self.put_pairs(x / 100, pairs - 1);
            self.put_two(x % 100);
        }
    }

    // Puts a number in decimal.
    fn put_number(&mut self, x: u64)
        requires { Fits self.old (decimal x) }
        ensures { Wrote self.old (decimal x) self.new }
    {
        self.put_pairs(x, 10);
    }

    // Puts a space and a number.
    pub fn put_field(&mut self, x: u64)
        requires { Fits self.old (field x) }
        ensures { Wrote self.old (field x) self.new }
    {
        self.put_word(b" ");
        self.put_number(x);
    }

    // Puts the end of a line.
    pub fn put_newline(&mut self)
        requires { Fits self.old newline }
        ensures { Wrote self.old newline self.new }
    {
        self.put_word(b"\n");
    }
}

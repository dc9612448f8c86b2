// Text into lent bytes. What would lie beyond their end is cut off, so that a text can be put anywhere, and one text behind another is the
// two of them joined.
#![tactic(auto)]

ghost use Rattle.std.specs.Prelude.{[], ◌∷◌, ◌%◌, ◌≡◌};
ghost use Rattle.text.specs.Text.{digit, decimal, decimal_of, field, field_of, IsPage, Puts};

use number::Number;

// Lent bytes as a page of text, and the place behind what is put on it.
#[derive(Drop)]
pub struct Page<'a> {
    pub text: &'a mut [u8],
    pub at: usize,
}

// The byte of n's last digit.
fn last_digit(n: u64) -> u8
    ensures { result ≡ digit (n % 10) }
{
    48 + (n % 10) as u8
}

impl<'a> Page<'a> {
    // A page on which nothing is put yet.
    pub fn new(text: &'a mut [u8]) -> Page<'a>
        ensures { IsPage result text.entry }
    {
        Page { text, at: 0 }
    }

    // Puts a byte.
    pub fn byte(&mut self, b: u8)
        ensures { Puts self.old self.new (b ∷ []) }
    {
        if self.at < self.text.len() {
            self.text[self.at] = b;
            self.at += 1;
        } else {
            self.at = self.text.len();
        }
    }

    // Puts bytes as they are.
    pub fn bytes(&mut self, bytes: &[u8])
        ensures { Puts self.old self.new bytes.now }
    {
        if self.text.len() <= self.at {
            self.at = self.text.len();
            return;
        }
        let fitting = bytes.len().min(self.text.len() - self.at);
        let end = self.at + fitting;
        let part = &mut self.text[self.at..end];
        // (A `for`, and no `copy_from_slice`: a wrong program begins with the second byte, which is a change of one number here.)
        for i in 0..fitting {
            part[i] = bytes[i];
        }
        self.at = end;
    }

    // Puts a number in decimal digits.
    pub fn natural(&mut self, n: u64)
        ensures { Puts self.old self.new (decimal n) }
    {
        let last = last_digit(n);
        let single = n < 10;
        if single {
            return self.byte(last);
        }
        self.natural(n / 10);
        self.byte(last);
    }

    // Puts a number with its minus, where it has one.
    pub fn number(&mut self, n: Number)
        ensures { Puts self.old self.new (decimal_of n.v) }
    {
        let size = n.size();
        if n.is_minus() {
            self.byte(b'-');
            return self.natural(size);
        }
        self.natural(size);
    }

    // Puts a number behind a space.
    pub fn field(&mut self, n: u64)
        ensures { Puts self.old self.new (field n) }
    {
        self.byte(b' ');
        self.natural(n);
    }

    // Puts a number with its sign behind a space.
    pub fn signed(&mut self, n: Number)
        ensures { Puts self.old self.new (field_of n.v) }
    {
        self.byte(b' ');
        self.number(n);
    }
}

// A line of text, without its line end: its words, the fields of a word, and the numbers that they say.
#![tactic(auto)]

ghost use Rattle.std.specs.Prelude.{◌≡◌, ◌+◌};
ghost use Rattle.line.specs.Words.{blank, same, words, word_number, field_end};
ghost use Rattle.line.specs.Numeral.{minus, natural, up_to, whole, signed};
ghost use Rattle.line.specs.Next.{Start, WordEnd, NextWord};

// Where a word stands in a line: its first byte, and the place behind its last.
#[derive(Clone, Copy)]
pub struct Place {
    pub from: usize,
    pub to: usize,
}

// ---- words

// Whether a byte parts words.
fn blank(b: u8) -> bool
    ensures { result ≡ blank b }
{
    b == b' ' || b == b'\t' || b == b'\r'
}

// The first byte from a place on that is no blank.
fn word_start(line: &[u8], at: usize) -> Option<usize>
    ensures { Start line.now at result }
{
    for i in at..line.len() {
        if !blank(line[i]) {
            return Some(i);
        }
    }
    None
}

// The first blank from a place on, or the line's end.
fn word_end(line: &[u8], at: usize) -> usize
    ensures { WordEnd line.now at result }
{
    for i in at..line.len() {
        if blank(line[i]) {
            return i;
        }
    }
    at.max(line.len())
}

// The next word from a place on, where there is one.
pub fn next_word(line: &[u8], at: usize) -> Option<Place>
    ensures { NextWord line.now at result }
{
    let from = word_start(line, at)?;
    let to = word_end(line, from + 1);
    Some(Place { from, to })
}

// The word of a line with a number, counted from 0; empty where there is none.
pub fn word(line: &[u8], number: usize) -> &[u8]
    ensures { result.now ≡ word_number number (words line.now) }
{
    let mut at = 0;
    let mut left = number;
    // A `while`, since a word is found behind the one before it: no index counts them.
    while let Some(place) = next_word(line, at) {
        if left == 0 {
            return &line[place.from..place.to];
        }
        left -= 1;
        at = place.to;
    }
    &[]
}

// ---- fields

// Where a field ends that starts at a place: the first colon from there on, or the word's end.
// (It looks like `word_end`: one function over a closure would promise what the closure does, and say it no plainer.)
pub fn field_end(word: &[u8], at: usize) -> usize
    ensures { result ≡ field_end word.now at }
{
    for i in at..word.len() {
        if word[i] == b':' {
            return i;
        }
    }
    at.max(word.len())
}

// Whether two texts are the same. (Two of the lemmas are for a wrong program, which compares the front of a longer text: the same shape with
// the right test is proved by them.)
#[tactic(auto, using(crate::proofs::WordLaws::same_is, crate::proofs::WordLaws::same_taken, crate::proofs::WordLaws::same_apart))]
pub fn same(a: &[u8], b: &[u8]) -> bool
    ensures { result ≡ same a.now b.now }
{
    a == b
}

// ---- numbers

// The number that digits say, where it is no larger than `most`.
fn natural(digits: &[u8], most: u32) -> Option<u64>
    ensures { result ≡ up_to most (natural digits.now) }
{
    if digits.is_empty() {
        return None;
    }
    let mut n: u64 = 0;
    for &b in digits {
        if !b.is_ascii_digit() {
            return None;
        }
        n = 10 * n + (b - b'0') as u64;
        if n > most as u64 {
            return None;
        }
    }
    Some(n)
}

// Whether a text begins with a minus.
fn minus(text: &[u8]) -> bool
    ensures { result ≡ minus text.now }
{
    text.len() > 0 && text[0] == b'-'
}

// The number without a sign that a text says, where it is no larger than `most`.
pub fn whole(text: &[u8], most: u32) -> Option<u64>
    ensures { result ≡ whole most text.now }
{
    if minus(text) {
        return natural(&text[1..], 0);
    }
    natural(text, most)
}

// The number with a sign that a text says, where it has 32 bits: as itself plus 2147483648.
pub fn signed(text: &[u8]) -> Option<u64>
    ensures { result ≡ signed text.now }
{
    if minus(text) {
        let n = natural(&text[1..], 2147483648)?;
        return Some(2147483648 - n);
    }
    let n = natural(text, 2147483647)?;
    Some(2147483648 + n)
}

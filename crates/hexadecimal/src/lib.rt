// Bytes in hex, both directions: two digits a byte.
#![tactic(auto)]

ghost use Rattle.std.specs.Prelude.{◌≡◌, ◌<◌};
ghost use Rattle.text.specs.Text.{Puts};
ghost use Rattle.hexadecimal.specs.Hex.{hex_value, is_hex, Unhexes, digit16, hex};

use text::Page;

// Why a word gives no bytes.
#[derive(Clone, Copy)]
pub enum HexRefusal {
    // it is not an even number of hex digits
    NotHex,
    // the lent buffer is too short for them
    NoRoom,
}

// ---- from text

// What a hex digit of either case stands for, and 16 for any other byte.
#[tactic(auto, unfolding(crate::specs::Hex::hex_value))]
fn hex_value(b: u8) -> u8
    ensures { result ≡ hex_value b }
{
    match b {
        b'0'..=b'9' => b - b'0',
        b'A'..=b'F' => b - b'A' + 10,
        b'a'..=b'f' => b - b'a' + 10,
        _ => 16,
    }
}

// Whether a word is an even number of hex digits.
pub fn is_hex(word: &[u8]) -> bool
    ensures { result ≡ is_hex word.now }
{
    let mut i = 0;
    // A `while`, since a turn takes two digits and may leave one: in chunks of two, each would be asked for its length.
    while i + 1 < word.len() {
        if 15 < hex_value(word[i]) {
            return false;
        }
        if 15 < hex_value(word[i + 1]) {
            return false;
        }
        i += 2;
    }
    i == word.len()
}

// The bytes that a word in hex says, at the start of a lent buffer: how many.
pub fn unhex(word: &[u8], bytes: &mut [u8]) -> Result<usize, HexRefusal>
    ensures { Unhexes word.now bytes.old bytes.new result }
{
    if !is_hex(word) {
        return Err(HexRefusal::NotHex);
    }
    let count = word.len() / 2;
    if bytes.len() < count {
        return Err(HexRefusal::NoRoom);
    }
    for i in 0..count {
        bytes[i] = 16 * hex_value(word[2 * i]) + hex_value(word[2 * i + 1]);
    }
    Ok(count)
}

// ---- to text

// The byte of a digit of sixteen.
fn digit16(d: u8) -> u8
    requires { d < 16 }
    ensures { result ≡ digit16 d }
{
    if d < 10 { 48 + d } else { 87 + d }
}

// Puts the digits of bytes.
pub fn put_hex(page: &mut Page<'_>, bytes: &[u8])
    ensures { Puts page.old page.new (hex bytes.now) }
{
    // a place beyond the end becomes the end, with no bytes too
    page.bytes(b"");
    for b in bytes {
        page.byte(digit16(*b / 16));
        page.byte(digit16(*b % 16));
    }
}

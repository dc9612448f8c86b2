// Numbers as bytes, little endian: the number that bytes hold, the bytes of a number, and signed numbers in two bytes
// and in a word.
#![tactic(auto)]

ghost use Rattle.std.specs.Prelude.{◌≡◌, [], ◌∷◌};
ghost use Rattle.octets.specs.Bytes.{le16, le32, bytes16, bytes32, signed16, unsigned16, signed32, word_of};

use number::{Kept, Number};

// The number in two bytes.
pub fn two(a: u8, b: u8) -> u16
    ensures { result ≡ le16 (a ∷ b ∷ []) 0 }
{
    u16::from_le_bytes([a, b])
}

// The number in four bytes.
pub fn four(a: u8, b: u8, c: u8, d: u8) -> u32
    ensures { result ≡ le32 (a ∷ b ∷ c ∷ d ∷ []) 0 }
{
    u32::from_le_bytes([a, b, c, d])
}

// A number's two bytes.
pub fn in_two(n: u16) -> [u8; 2]
    ensures { result ≡ bytes16 n }
{
    u16::to_le_bytes(n)
}

// A number's four bytes.
pub fn in_four(n: u32) -> [u8; 4]
    ensures { result ≡ bytes32 n }
{
    u32::to_le_bytes(n)
}

// The signed number that two bytes hold.
pub fn signed(n: u16) -> Kept
    ensures { result.v ≡ signed16 n }
{
    Kept {
        v: i32::from(n.cast_signed()),
    }
}

// The two bytes of a signed number, as a number without a sign.
pub fn unsigned(n: Kept) -> u16
    ensures { result ≡ unsigned16 n.v }
{
    // no cast: of a number below -65536, which two bytes do not hold, the promise says another number than a cast gives
    let turn = Number { v: 65536 };
    let size = n.number().plus(turn).size();
    (size % 65536) as u16
}

// The signed number that a word of 32 bits holds.
pub fn signed_word(word: u32) -> Kept
    ensures { result.v ≡ signed32 word }
{
    Kept {
        v: word.cast_signed(),
    }
}

// The word that holds a signed number, from which it comes back.
pub fn word_of(n: Kept) -> u32
    ensures { (result ≡ word_of n.v) × (signed32 result ≡ n.v) }
{
    n.v.cast_unsigned()
}

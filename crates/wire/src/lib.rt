// A message as it comes: 16 bytes in, one of six kinds and its minute out, or the first refusal of 1 to 6 that holds.
#![tactic(auto)]

ghost use Rattle.std.specs.Prelude.{◌≡◌, ◌+◌, ◌≤◌, length, drop, false, MatchOption};
ghost use Rattle.std.specs.Float.{binary32};
ghost use Rattle.std.specs.Float.Ieee.{of_bits};
ghost use Rattle.number.specs.Refusal.{answer};
ghost use Rattle.octets.specs.Bytes.{le32};
ghost use Rattle.wire.specs.Bytes.{stray, no_state};
ghost use Rattle.wire.specs.Finite.{is_finite, Finite};
ghost use Rattle.wire.specs.Kinds.{kind};
ghost use Rattle.wire.specs.Decode.{number_of, wire_tests, sent, decoded, decoded_as};

use quantity::{BulbState, Minute};

// Why a message is refused, in the order in which it is tested.
#[derive(Clone, Copy)]
pub enum MessageRefusal {
    // 1
    NotSixteenBytes,
    // 2
    NoSuchChannel,
    // 3
    ByteNotZero,
    // 4
    NoSuchState,
    // 5
    MinuteTooLate,
    // 6
    NotFinite,
    // 7
    OutsideLimits,
}

// (No `From` of a number: it is the documents' number, and its name says so. So in `settings`, `store` and `station`.)
// Document 01's number of a refusal.
pub fn number(r: MessageRefusal) -> u32
    ensures { result ≡ number_of r }
{
    match r {
        MessageRefusal::NotSixteenBytes => 1,
        MessageRefusal::NoSuchChannel => 2,
        MessageRefusal::ByteNotZero => 3,
        MessageRefusal::NoSuchState => 4,
        MessageRefusal::MinuteTooLate => 5,
        MessageRefusal::NotFinite => 6,
        MessageRefusal::OutsideLimits => 7,
    }
}

// Two values that travel together: a speed and an angle.
#[derive(Clone, Copy)]
pub struct Pair {
    pub speed: f32,
    pub angle: f32,
}

// A decoded message: one of six kinds, each with its own binary32 values, and the wet bulb's with its state.
#[derive(Clone, Copy)]
pub enum Message {
    Barometer(f32),
    Wheelhouse(f32),
    ApparentWind(Pair),
    ShipMotion(Pair),
    DryBulb(f32),
    WetBulb(BulbState, f32),
}

// ---- bytes

// The number in four bytes from a place on.
fn word(bytes: &[u8], at: usize) -> u32
    requires { at + 4 ≤ length bytes.now }
    ensures { result ≡ le32 bytes.now at }
{
    octets::four(bytes[at], bytes[at + 1], bytes[at + 2], bytes[at + 3])
}

// Whether a byte that must be zero is not: one of the pad, the state except on channel 5, the second value except on 2 and 3.
fn has_stray(bytes: &[u8; 16]) -> bool
    ensures { result ≡ stray bytes.now }
{
    let sender = bytes[0];
    bytes[2] != 0
        || bytes[3] != 0
        || (sender != 5 && bytes[1] != 0)
        || (sender != 2 && sender != 3 && word(bytes, 12) != 0)
}

// Whether the wet bulb's state is none.
fn has_no_state(bytes: &[u8; 16]) -> bool
    ensures { result ≡ no_state bytes.now }
{
    bytes[0] == 5 && !BulbState::holds(u32::from(bytes[1]))
}

// ---- floats

// The number of a pattern; none where that is not finite, which is tested before a float is made of it.
#[tactic(auto, using(crate::proofs::Pattern::bits_test, crate::proofs::Pattern::bits_no_nan))]
fn float_of(b: u32) -> Option<f32>
    ensures { MatchOption result (is_finite (of_bits binary32 b) ≡ false) (λ x. (x ≡ of_bits binary32 b) × Finite x) }
{
    if b % 0x8000_0000 / 0x80_0000 == 255 {
        return None;
    }
    Some(f32::from_bits(b))
}

// ---- from bytes to a message

fn kind_of(channel: u8, state: u8, x: f32, y: f32) -> Message
    ensures { result ≡ kind channel state x y }
{
    match channel {
        0 => Message::Barometer(x),
        1 => Message::Wheelhouse(x),
        2 => Message::ApparentWind(Pair { speed: x, angle: y }),
        3 => Message::ShipMotion(Pair { speed: x, angle: y }),
        4 => Message::DryBulb(x),
        _ => Message::WetBulb(BulbState::numbered(u32::from(state)), x),
    }
}

// The tests of sixteen bytes from the fifth on: refusal 5 or 6, or the message and its minute.
#[tactic(auto, unfolding(number::specs::Refusal::answer))]
fn timed(bytes: &[u8; 16]) -> Result<(Minute, Message), MessageRefusal>
    ensures { decoded_as result ≡ answer (drop 4 (wire_tests bytes.now)) (sent bytes.now) }
{
    let minute = word(bytes, 4);
    if !Minute::holds(minute) {
        return Err(MessageRefusal::MinuteTooLate);
    }
    let x = float_of(word(bytes, 8)).ok_or(MessageRefusal::NotFinite)?;
    let y = float_of(word(bytes, 12)).ok_or(MessageRefusal::NotFinite)?;
    Ok((Minute(minute), kind_of(bytes[0], bytes[1], x, y)))
}

// What the bytes say: a message and its minute, or the first of refusals 1 to 6 that holds.
#[tactic(auto, unfolding(number::specs::Refusal::answer, crate::specs::Decode::decoded))]
pub fn decode(bytes: &[u8]) -> Result<(Minute, Message), MessageRefusal>
    ensures { decoded_as result ≡ decoded bytes.now }
{
    let Ok(bytes) = <&[u8; 16]>::try_from(bytes) else {
        return Err(MessageRefusal::NotSixteenBytes);
    };
    let channel = bytes[0];
    if channel > 5 {
        return Err(MessageRefusal::NoSuchChannel);
    }
    if has_stray(bytes) {
        return Err(MessageRefusal::ByteNotZero);
    }
    if has_no_state(bytes) {
        return Err(MessageRefusal::NoSuchState);
    }
    timed(bytes)
}

// A message: 16 bytes in, a reading out, or the first refusal of 1 to 7 that holds.
#![tactic(auto)]

ghost use Rattle.std.specs.Prelude.{◌≡◌, ◌+◌, ◌*◌, ◌-◌, ◌^◌, ◌<◌, ℕ, pos, min, nat_abs, not};
ghost use Rattle.quantity.specs.Limits.{inside, pressure_limits};
ghost use Rattle.quantity.specs.Limits as limits;
ghost use Rattle.wire.specs.Finite.{Finite};
ghost use Rattle.wire.specs.Kinds.{Sound};
ghost use Rattle.message.specs.Value.{to_whole, tenths, degrees};
ghost use Rattle.message.specs.Receive.{compass, entry, entry_of, outside, received, received_as};
ghost use Rattle.message.specs.Work.{digits, most, capped, KeptIf};

use number::Number;
use quantity::{
    BarometerUnit, BulbState, BulbTemperature, Degrees, Hectopascals, Knots, MetresPerSecond,
    Millimetres, Minute, WheelhouseTemperature,
};
use wire::{Message, MessageRefusal};

// What is kept of a message.
#[derive(Clone, Copy)]
pub enum Reading {
    Hectopascals(Hectopascals),
    Millimetres(Millimetres),
    Wheelhouse(WheelhouseTemperature),
    ApparentWind(MetresPerSecond, Degrees),
    ShipMotion(Knots, Degrees),
    DryBulb(BulbTemperature),
    WetBulb(BulbState, BulbTemperature),
}

// ---- floats

// m / 2^k to the nearest whole number, a half to the even neighbour: the one place that knows the rule for a half. Twice the remainder
// is held against 2^k, with one more where the whole part is odd, which decides only on a half.
#[tactic(auto, using(crate::proofs::Rule::goes_down, crate::proofs::Rule::goes_up))]
fn nearest(m: u64, k: u64) -> u64
    requires { (m < 2 ^ 53) × (k < 64) }
    ensures { result ≡ to_whole m (2 ^ k) }
{
    let c = number::power(k);
    let q = m / c;
    let r = m % c * 2;
    if r + q % 2 <= c { q } else { q + 1 }
}

// The size of the f64 with this exponent's field and these digits, to the nearest whole number.
#[tactic(auto, using(crate::proofs::Pattern::small, crate::proofs::Pattern::middle, crate::proofs::Pattern::large))]
fn magnitude(field: u64, frac: u64) -> u64
    requires { frac < 2 ^ 52 }
    ensures { result ≡ min (to_whole (digits field frac * 2 ^ (field - 1)) (2 ^ 1074)) most }
{
    match field {
        0..=1021 => 0,
        1022..=1054 => nearest(0x10_0000_0000_0000 + frac, 1075 - field).min(4294967295),
        _ => 4294967295,
    }
}

// x to the nearest whole number, worked out from its bits.
#[tactic(auto, using(crate::proofs::Pattern::by_fields, crate::proofs::Pattern::finite_no_nan))]
fn rounded(x: f64) -> Number
    requires { Finite x }
    ensures { result.v ≡ capped 1 x }
{
    let b = f64::to_bits(x);
    let size = magnitude(
        b % 0x8000_0000_0000_0000 / 0x10_0000_0000_0000,
        b % 0x10_0000_0000_0000,
    );
    Number::signed(b >= 0x8000_0000_0000_0000, size)
}

// Ten times x, rounded. The product is exact: 24 and 4 binary digits fit the 53 of an f64.
#[tactic(auto, using(crate::proofs::Ten::widens, crate::proofs::Ten::ten_exact, crate::proofs::Ten::ten_finite, crate::proofs::Ten::ten_times))]
fn tenths(x: f32) -> Number
    requires { Finite x }
    ensures { result.v ≡ capped 10 x }
{
    rounded(f64::from(x) * 10.0)
}

#[tactic(auto, using(crate::proofs::Ten::widens))]
fn degrees(x: f32) -> Number
    requires { Finite x }
    ensures { result.v ≡ capped 1 x }
{
    rounded(f64::from(x))
}

// ---- from a message to a reading

// The size of a number that is not negative and not large.
fn natural(n: Number) -> u32
    requires { nat_abs n.v < 2 ^ 32 }
    ensures { result ≡ nat_abs n.v }
{
    n.size() as u32
}

// Each quantity asks for its own limits, so these five look alike; one function for all would be handed the limits, the rounding and the
// type by three closures.
fn wheelhouse(x: f32) -> Option<WheelhouseTemperature>
    requires { Finite x }
    ensures { KeptIf (inside limits.wheelhouse (tenths x)) (λ t. t.0.v ≡ tenths x) result }
{
    let n = tenths(x);
    if WheelhouseTemperature::holds(n) {
        Some(WheelhouseTemperature(n.keep()))
    } else {
        None
    }
}

fn bulb(x: f32) -> Option<BulbTemperature>
    requires { Finite x }
    ensures { KeptIf (inside limits.bulb (tenths x)) (λ t. t.0.v ≡ tenths x) result }
{
    let n = tenths(x);
    if BulbTemperature::holds(n) {
        Some(BulbTemperature(n.keep()))
    } else {
        None
    }
}

fn wind_speed(x: f32) -> Option<MetresPerSecond>
    requires { Finite x }
    ensures { KeptIf (inside limits.metres_per_second (tenths x)) (λ v. pos v.0 ≡ tenths x) result }
{
    let n = tenths(x);
    if MetresPerSecond::holds(n) {
        Some(MetresPerSecond(natural(n)))
    } else {
        None
    }
}

fn ship_speed(x: f32) -> Option<Knots>
    requires { Finite x }
    ensures { KeptIf (inside limits.knots (tenths x)) (λ v. pos v.0 ≡ tenths x) result }
{
    let n = tenths(x);
    if Knots::holds(n) {
        Some(Knots(natural(n)))
    } else {
        None
    }
}

fn direction(x: f32) -> Option<Degrees>
    requires { Finite x }
    ensures { KeptIf (inside limits.degrees (degrees x)) (λ d. pos d.0 ≡ compass (degrees x)) result }
{
    let n = degrees(x);
    if Degrees::holds(n) {
        Some(Degrees::keep(natural(n)))
    } else {
        None
    }
}

fn barometer(x: f32, unit: BarometerUnit) -> Option<Reading>
    requires { Finite x }
    ensures { KeptIf (inside (pressure_limits unit) (tenths x)) (λ r. (t : ℕ) → entry_of t r ≡ entry unit t (Message.Barometer x)) result }
{
    let n = tenths(x);
    if !unit.holds(n) {
        return None;
    }
    match unit {
        BarometerUnit::Hectopascals => Some(Reading::Hectopascals(Hectopascals(n))),
        BarometerUnit::Millimetres => Some(Reading::Millimetres(Millimetres(n.keep()))),
    }
}

// What is kept of a message; nothing of one outside its limits.
fn kept(m: Message, unit: BarometerUnit) -> Option<Reading>
    requires { Sound m }
    ensures { KeptIf (not (outside unit m)) (λ r. (t : ℕ) → entry_of t r ≡ entry unit t m) result }
{
    match m {
        Message::Barometer(x) => barometer(x, unit),
        Message::Wheelhouse(x) => Some(Reading::Wheelhouse(wheelhouse(x)?)),
        Message::ApparentWind(p) => {
            Some(Reading::ApparentWind(wind_speed(p.speed)?, direction(p.angle)?))
        }
        Message::ShipMotion(p) => {
            Some(Reading::ShipMotion(ship_speed(p.speed)?, direction(p.angle)?))
        }
        Message::DryBulb(x) => Some(Reading::DryBulb(bulb(x)?)),
        Message::WetBulb(state, x) => Some(Reading::WetBulb(state, bulb(x)?)),
    }
}

// What a message comes to on a station whose barometer reads in this unit: a reading at its minute, or the first of refusals
// 1 to 7 that holds.
#[tactic(auto, using(crate::proofs::ReceivedLaws::on_refusal, crate::proofs::ReceivedLaws::sound, crate::proofs::ReceivedLaws::outside_refused, crate::proofs::ReceivedLaws::inside_kept))]
pub fn receive(bytes: &[u8], unit: BarometerUnit) -> Result<(Minute, Reading), MessageRefusal>
    ensures { received_as result ≡ received unit bytes.now }
{
    let (minute, m) = wire::decode(bytes)?;
    let reading = kept(m, unit).ok_or(MessageRefusal::OutsideLimits)?;
    Ok((minute, reading))
}

// The true wind from the ship's motion and the apparent wind, by whole numbers only.
// Speeds are in parts of 1/12500 m/s, sines and cosines in millionths.
#![tactic(auto)]

ghost use Rattle.std.specs.Prelude.{◌≡◌, Bool, ℕ, ◌≤◌, ◌<◌};
ghost use Rattle.quantity.specs.Limits.{highest_wind};
ghost use Rattle.wind.specs.Wind.{Nearest, count, between, turned, compass, from};
ghost use Rattle.wind.specs.Work.{most_ship, most_apparent, most_side, too_many, Root, reaches, leans, Asked, Tells, Falls, Parted};
ghost use Rattle.wind.specs.Answer.{within_limits, IsWind};

use number::Number;
use quantity::{Degrees, Knots, MetresPerSecond};

// A true wind: its speed, and where it comes from, 1 to 360, or 0 in a calm.
#[derive(Clone, Copy)]
pub struct Wind {
    pub speed: MetresPerSecond,
    pub direction: Degrees,
}

// How many of the numbers below n pass a test that none passes after one that fails it. By bisection: each turn asks the middle one of
// those that are left between the known to pass and the known to fail.
fn passing<F: Fn(u32) -> bool>(n: u32, passes: F) -> u32
    requires { Asked (F.pre passes) n }
    ensures { (p : ℕ → Bool) → Tells (F.post passes) p n → Falls p n → Parted p n result }
{
    let mut found: u32 = 0;
    let mut left: u32 = n;
    // A `while`, for each turn halves what is left: no `for` counts that.
    while left > 0 {
        let half = left - left / 2;
        if passes(found + half - 1) {
            found += half;
        }
        left -= half;
    }
    found
}

// Whether the root of n squares of 0.05 m/s is i tenths and a half, or more.
#[tactic(auto, unfolding(crate::specs::Work::reaches))]
fn reaches(n: u32, i: u32) -> bool
    requires { i < highest_wind }
    ensures { result ≡ reaches n i }
{
    let e = 2 * i + 1;
    e * e <= n
}

// The nearest tenth of m/s to the root of n squares of 0.05 m/s, up to the highest true wind: ten turns.
fn root(n: u32) -> u32
    requires { n < too_many }
    ensures { Root n result }
{
    passing(MetresPerSecond::TRUE_HIGH, |i| reaches(n, i))
}

// The speed of the true wind in tenths of m/s. A square of 0.05 m/s is 625² square parts, each a million times.
fn speed(s: u64, k: u64, r: u32) -> u32
    requires { (s ≤ most_ship) × (k ≤ most_apparent) × (r < 360) }
    ensures { Nearest s k r result }
{
    let c = sine::cosine(2 * r);
    let twice = 2 * (s * k);
    let plus = 1000000 * (s * s + k * k) + twice * c.down;
    let minus = twice * c.up;
    root(((plus - minus) / 390625000000) as u32)
}

// Whether mark i of a quarter turn counts: a times its cosine is at least b times its sine.
fn leans(a: u64, b: u64, i: u32) -> bool
    requires { (a ≤ most_side) × (b ≤ most_side) × (i < 90) }
    ensures { result ≡ leans a b i }
{
    let m = sine::mark(i);
    b * m.0 <= a * m.1
}

// How many marks of a quarter turn count: seven turns.
fn quarter(a: u64, b: u64) -> u32
    requires { (a ≤ most_side) × (b ≤ most_side) }
    ensures { (result ≡ count (leans a b) 90) × (result ≤ 90) }
{
    passing(90, |i| leans(a, b, i))
}

// The angle between the two winds. Where N > 0 no mark of the second quarter turn counts, else all of the first do.
fn angle(s: u64, k: u64, r: u32) -> u32
    requires { (s ≤ most_ship) × (k ≤ most_apparent) × (r < 360) }
    ensures { (result ≡ between s k r) × (result ≤ 180) }
{
    let c = sine::cosine(2 * r);
    let across = s * sine::size(2 * r);
    let along = s * c.up;
    let ahead = 1000000 * k + s * c.down;
    if along < ahead {
        return quarter(across, ahead - along);
    }
    90 + quarter(along - ahead, across)
}

// r plus the angle on the one side of the ship, minus the angle on the other.
#[tactic(auto, using(crate::proofs::TurnedLaws::turned_added), unfolding(crate::specs::Wind::turned))]
fn turned(r: u32, angle: u32) -> u32
    requires { (r < 360) × (angle ≤ 180) }
    ensures { (result ≡ turned r angle) × (result < 540) }
{
    if r < 180 {
        return r + angle;
    }
    r - angle
}

// A direction brought into 1 to 360.
#[tactic(auto, unfolding(crate::specs::Wind::compass))]
fn compass(d: u32) -> u32
    requires { d < 1000 }
    ensures { result ≡ compass d }
{
    (d + 359) % 360 + 1
}

// Where the wind comes from: 0 in a calm.
#[tactic(auto, unfolding(crate::specs::Wind::from))]
fn from(course: u32, r: u32, angle: u32, v: u32) -> u32
    requires { (course < 360) × (r < 360) × (angle ≤ 180) }
    ensures { result ≡ from course r angle v }
{
    if v == 0 {
        return 0;
    }
    compass(course + turned(r, angle))
}

// Whether all four are within their limits.
#[tactic(auto, unfolding(crate::specs::Answer::within_limits))]
fn within_limits(course: Degrees, ship: Knots, apparent: MetresPerSecond, from_bow: Degrees) -> bool
    ensures { result ≡ within_limits course.0 ship.0 apparent.0 from_bow.0 }
{
    Degrees::holds(Number::whole(course.0))
        && Knots::holds(Number::whole(ship.0))
        && MetresPerSecond::holds(Number::whole(apparent.0))
        && Degrees::holds(Number::whole(from_bow.0))
}

// The true wind on a course, by the ship's speed and the apparent wind's speed and direction from the bow, where all four are within
// their limits.
pub fn true_wind(
    course: Degrees,
    ship: Knots,
    apparent: MetresPerSecond,
    from_bow: Degrees,
) -> Option<Wind>
    ensures { IsWind course.0 ship.0 apparent.0 from_bow.0 result }
{
    if !within_limits(course, ship, apparent, from_bow) {
        return None;
    }
    let c = Degrees::keep(course.0);
    let r = Degrees::keep(from_bow.0);
    let s = ship.parts();
    let k = apparent.parts();
    let v = speed(s.0, k.0, r.0);
    let a = angle(s.0, k.0, r.0);
    let d = from(c.0, r.0, a, v);
    Some(Wind {
        speed: MetresPerSecond(v),
        direction: Degrees(d),
    })
}

// The settings of a store: their limits, and refusals 9, 10 and 25.
#![tactic(auto)]

ghost use Rattle.std.specs.Prelude.{◌≡◌, Bool, true, false, ◌&&◌, ℕ, ◌+◌, ◌-◌, ◌≤◌, ◌<◌, get_or};
ghost use Rattle.number.specs.Refusal.{number_in};
ghost use Rattle.quantity.specs.Limits.{inside};
ghost use Rattle.settings.specs.Settings.{height, difference, coefficient, psychrometer, correction, point_holds, rises, certificate_holds, rate, rate_point_holds, rates_rise, anemometer_holds, others_hold, checked, checked_as};

use number::{Kept, Number};
use quantity::{BarometerUnit, MetresPerSecond};

// The most points that a certificate can have.
pub const POINTS: usize = 16;

// The most points that the certificate of an anemometer can have.
pub const RATES: usize = 20;

// The height of the barometer, in tenths of a metre.
#[repr(C)]
#[derive(Clone, Copy)]
pub struct Height(pub Kept);

// How much the sea lies higher than the ocean, in tenths of a metre: negative when the closed sea lies lower.
#[repr(C)]
#[derive(Clone, Copy)]
pub struct SeaLevelDifference(pub Kept);

// The barometer's temperature coefficient, in thousandths of its unit per °C.
#[repr(C)]
#[derive(Clone, Copy)]
pub struct TemperatureCoefficient(pub Kept);

// The psychrometer's coefficient A, in millionths.
#[repr(C)]
#[derive(Clone, Copy)]
pub struct PsychrometerCoefficient(pub Kept);

// A correction of a certificate, in tenths of the barometer's unit.
#[repr(C)]
#[derive(Clone, Copy)]
pub struct Correction(pub Kept);

// A point of a certificate: a reading in tenths of the barometer's unit, and its correction.
#[repr(C)]
#[derive(Clone, Copy)]
pub struct Point {
    pub reading: Kept,
    pub correction: Correction,
}

// The rate of an anemometer's dial, in divisions a second.
#[repr(C)]
#[derive(Clone, Copy)]
pub struct Rate(pub Kept);

// A point of an anemometer's certificate: a rate, and its speed in tenths of m/s.
#[repr(C)]
#[derive(Clone, Copy)]
pub struct RatePoint {
    pub rate: Rate,
    pub speed: Kept,
}

// (A count stands beside an array here and in `Settings`: C hands them over so, and there is no heap.)
// The hand anemometer: of the points the first `count` are its certificate. With none the store has no anemometer.
#[repr(C)]
#[derive(Clone, Copy)]
pub struct Anemometer {
    pub count: u32,
    pub points: [RatePoint; RATES],
}

// The settings of a store, right or wrong. Of the points the first `count` are the certificate.
#[derive(Clone, Copy)]
pub struct Settings {
    pub unit: BarometerUnit,
    pub height: Height,
    pub difference: SeaLevelDifference,
    pub coefficient: TemperatureCoefficient,
    pub psychrometer: PsychrometerCoefficient,
    pub count: u32,
    pub points: [Point; POINTS],
    pub anemometer: Anemometer,
}

// The first of refusals 9, 10 and 25 that holds of settings.
#[derive(Clone, Copy)]
pub enum SettingsRefusal {
    // 9
    OutsideLimits,
    // 10
    CertificateBroken,
    // 25
    AnemometerBroken,
}

// Document 01's number of what settings come to, or 0 for good ones.
pub fn number(checked: Result<(), SettingsRefusal>) -> u32
    ensures { result ≡ number_in (checked_as checked) }
{
    match checked {
        Ok(()) => 0,
        Err(SettingsRefusal::OutsideLimits) => 9,
        Err(SettingsRefusal::CertificateBroken) => 10,
        Err(SettingsRefusal::AnemometerBroken) => 25,
    }
}

impl Height {
    pub const LOW: Number = Number { v: 0 };

    pub const HIGH: Number = Number { v: 600 };

    // Whether n is a height.
    pub fn holds(n: Number) -> bool
        ensures { result ≡ inside height n.v }
    {
        n.within(Self::LOW, Self::HIGH)
    }
}

impl SeaLevelDifference {
    pub const LOW: Number = Number { v: -300 };

    pub const HIGH: Number = Number { v: 300 };

    // Whether n is a sea level difference.
    pub fn holds(n: Number) -> bool
        ensures { result ≡ inside difference n.v }
    {
        n.within(Self::LOW, Self::HIGH)
    }
}

impl TemperatureCoefficient {
    pub const LOW: Number = Number { v: -50 };

    pub const HIGH: Number = Number { v: 50 };

    // Whether n is a temperature coefficient.
    pub fn holds(n: Number) -> bool
        ensures { result ≡ inside coefficient n.v }
    {
        n.within(Self::LOW, Self::HIGH)
    }
}

impl PsychrometerCoefficient {
    pub const LOW: Number = Number { v: 500 };

    pub const HIGH: Number = Number { v: 1000 };

    // Whether n is a psychrometer's coefficient.
    pub fn holds(n: Number) -> bool
        ensures { result ≡ inside psychrometer n.v }
    {
        n.within(Self::LOW, Self::HIGH)
    }
}

impl Correction {
    pub const LOW: Number = Number { v: -50 };

    pub const HIGH: Number = Number { v: 50 };

    // Whether n is a correction of a certificate.
    pub fn holds(n: Number) -> bool
        ensures { result ≡ inside correction n.v }
    {
        n.within(Self::LOW, Self::HIGH)
    }
}

impl Rate {
    pub const LOW: Number = Number { v: 0 };

    pub const HIGH: Number = Number { v: 9999 };

    // Whether n is a rate of an anemometer's certificate.
    pub fn holds(n: Number) -> bool
        ensures { result ≡ inside rate n.v }
    {
        n.within(Self::LOW, Self::HIGH)
    }
}

// ---- the barometer's certificate

impl Point {
    // What stands behind the last point.
    pub const NOWHERE: Point = Point {
        reading: Kept { v: 0 },
        correction: Correction(Kept { v: 0 }),
    };
}

fn point_holds(unit: BarometerUnit, p: Point) -> bool
    ensures { result ≡ point_holds unit p }
{
    unit.holds(p.reading.number()) && Correction::holds(p.correction.0.number())
}

fn rises(p: Point, q: Point) -> bool
    ensures { result ≡ rises p q }
{
    p.reading < q.reading
}

#[tactic(auto, unfolding(crate::specs::Settings::certificate_holds))]
fn certificate_holds(unit: BarometerUnit, count: u32, points: [Point; POINTS]) -> bool
    ensures { result ≡ certificate_holds unit count points }
{
    let n = count as usize;
    if n < 2 || n > POINTS {
        return false;
    }
    let certificate = &points[..n];
    certificate.iter().all(|p| point_holds(unit, *p))
        && certificate.is_sorted_by(|p, q| rises(*p, *q))
}

// ---- the anemometer's

impl RatePoint {
    // What stands behind the last point.
    pub const NONE: RatePoint = RatePoint {
        rate: Rate(Kept { v: 0 }),
        speed: Kept { v: 0 },
    };
}

fn rate_point_holds(p: RatePoint) -> bool
    ensures { result ≡ rate_point_holds p }
{
    Rate::holds(p.rate.0.number()) && MetresPerSecond::holds(p.speed.number())
}

// Whether both rate and speed rise from one point to the next.
fn rates_rise(p: RatePoint, q: RatePoint) -> bool
    ensures { result ≡ rates_rise p q }
{
    p.rate.0 < q.rate.0 && p.speed < q.speed
}

#[tactic(auto, unfolding(crate::specs::Settings::anemometer_holds))]
fn anemometer_holds(count: u32, points: [RatePoint; RATES]) -> bool
    ensures { result ≡ anemometer_holds count points }
{
    let n = count as usize;
    if n == 0 {
        return true;
    }
    if n < 2 || n > RATES {
        return false;
    }
    let certificate = &points[..n];
    certificate.iter().all(|p| rate_point_holds(*p))
        && certificate.is_sorted_by(|p, q| rates_rise(*p, *q))
}

// ---- the settings

#[tactic(auto, unfolding(crate::specs::Settings::others_hold))]
fn others_hold(h: Kept, d: Kept, k: Kept, a: Kept) -> bool
    ensures { result ≡ others_hold h.v d.v k.v a.v }
{
    Height::holds(h.number())
        && SeaLevelDifference::holds(d.number())
        && TemperatureCoefficient::holds(k.number())
        && PsychrometerCoefficient::holds(a.number())
}

// Whether a store opens with these settings, or the first of refusals 9, 10 and 25 that holds.
#[tactic(auto, unfolding(crate::specs::Settings::checked, number::specs::Refusal::answer))]
pub fn check(settings: Settings) -> Result<(), SettingsRefusal>
    ensures { checked_as result ≡ checked settings }
{
    if !others_hold(
        settings.height.0,
        settings.difference.0,
        settings.coefficient.0,
        settings.psychrometer.0,
    ) {
        return Err(SettingsRefusal::OutsideLimits);
    }
    if !certificate_holds(settings.unit, settings.count, settings.points) {
        return Err(SettingsRefusal::CertificateBroken);
    }
    if !anemometer_holds(settings.anemometer.count, settings.anemometer.points) {
        return Err(SettingsRefusal::AnemometerBroken);
    }
    Ok(())
}

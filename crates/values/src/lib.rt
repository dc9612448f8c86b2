// From the numbers of a line to values: the settings of an `open` line, and the records of a `write` line.
#![tactic(auto)]

ghost use Rattle.std.specs.Prelude.{◌≡◌, ◌+◌, ◌-◌, ◌*◌, ◌<◌, length};
ghost use Rattle.values.specs.Values.{at, kept_of, count_of, unit_of, barometer_points, point_of, rate_point_of, anemometer_of, body_of, record_of, settings_of, records_of};

use number::{Kept, Number};
use quantity::BarometerUnit;
use settings::{
    Anemometer, Correction, Height, Point, PsychrometerCoefficient, Rate, RatePoint,
    SeaLevelDifference, Settings, TemperatureCoefficient,
};
use std::array;
use watchfile::{BLANK, Body, RECORDS, Record};

// What the word `anemometer` of an `open` line is laid as: no number with a sign is.
pub const ANEMOMETER: u64 = 4294967296;

// The number at a place, 0 where there is none.
fn at(numbers: &[u64], i: usize) -> u64
    ensures { result ≡ at numbers.now i }
{
    numbers.get(i).copied().unwrap_or(0)
}

// The number with a sign that was laid as itself plus 2147483648.
fn kept_at(numbers: &[u64], i: usize) -> Kept
    ensures { result ≡ kept_of (at numbers.now i) }
{
    let laid = Number::whole((at(numbers, i) % 4294967296) as u32);
    let number = laid.minus(Number { v: 2147483648 });
    Kept { v: number.v as i32 }
}

// So many points, as a number of 32 bits.
fn count_of(n: usize) -> u32
    ensures { result ≡ count_of n }
{
    u32::try_from(n).unwrap_or(u32::MAX)
}

fn unit_of(n: u64) -> BarometerUnit
    ensures { result ≡ unit_of n }
{
    match n {
        0 => BarometerUnit::Hectopascals,
        _ => BarometerUnit::Millimetres,
    }
}

// How many words of an `open` line behind A stand before `anemometer`, or all. Where the word is there, it stands within the numbers.
fn barometer_points(numbers: &[u64], words: usize) -> usize
    ensures { (result ≡ barometer_points numbers.now words) × (result < words - 5 → 5 + 2 * result < length numbers.now) }
{
    let points = words.saturating_sub(5);
    for i in 0..points.min(numbers.len() / 2) {
        if at(numbers, 5 + 2 * i) == ANEMOMETER {
            return i;
        }
    }
    points
}

// Point i of a certificate of b points.
fn point_of(numbers: &[u64], b: usize, i: usize) -> Point
    requires { i < 16 }
    ensures { result ≡ point_of numbers.now b i }
{
    if i < b {
        return Point {
            reading: kept_at(numbers, 5 + 2 * i),
            correction: Correction(kept_at(numbers, 6 + 2 * i)),
        };
    }
    Point::NOWHERE
}

// Point i of an anemometer's certificate of n points, behind b points of the barometer. (A function of its own, as in crate `block`.)
fn rate_point_of(numbers: &[u64], b: usize, n: usize, i: usize) -> RatePoint
    requires { (i < 20) × (i < n → 5 + 2 * b < length numbers.now) }
    ensures { result ≡ rate_point_of numbers.now b n i }
{
    if i < n {
        return RatePoint {
            rate: Rate(kept_at(numbers, 7 + 2 * (b + i))),
            speed: kept_at(numbers, 8 + 2 * (b + i)),
        };
    }
    RatePoint::NONE
}

// The body whose kind's letter, minute and fields stand from a place on.
fn body_of(numbers: &[u64], k: usize) -> Body
    requires { k < 4294967296 }
    ensures { result ≡ body_of numbers.now k }
{
    match at(numbers, k) {
        // T
        0x54 => Body::Tendency {
            change: kept_at(numbers, k + 2),
            absent: (at(numbers, k + 3) % 256) as u8,
        },
        // W
        0x57 => Body::Wind {
            speed: (at(numbers, k + 2) % 65536) as u16,
            direction: (at(numbers, k + 3) % 65536) as u16,
        },
        // H
        0x48 => Body::Humidity {
            e: (at(numbers, k + 2) % 65536) as u16,
            saturation: (at(numbers, k + 3) % 65536) as u16,
            deficit: (at(numbers, k + 4) % 65536) as u16,
            relative: (at(numbers, k + 5) % 256) as u8,
            dew: kept_at(numbers, k + 6),
        },
        _ => Body::Pressure((at(numbers, k + 2) % 65536) as u16),
    }
}

// Record i of a line with so many words.
fn record_of(numbers: &[u64], words: usize, i: usize) -> Record
    requires { i < 48 }
    ensures { result ≡ record_of numbers.now words i }
{
    if 1 + i < words {
        return Record {
            minute: (at(numbers, 2 + 7 * i) % 4294967296) as u32,
            body: body_of(numbers, 1 + 7 * i),
        };
    }
    BLANK
}

// The anemometer of an `open` line with so many words behind the name, b of them points of the barometer.
fn anemometer_of(numbers: &[u64], words: usize, b: usize) -> Anemometer
    requires { b < words - 5 → 5 + 2 * b < length numbers.now }
    ensures { result ≡ anemometer_of numbers.now words b }
{
    let n = words.saturating_sub(6).saturating_sub(b);
    Anemometer {
        count: count_of(n),
        points: array::from_fn(|i| rate_point_of(numbers, b, n, i)),
    }
}

// (`words` is no length of `numbers`: a line may have more words than there is room for numbers.)
// The settings that the numbers of an `open` line say, which has so many words behind the name.
pub fn settings_of(numbers: &[u64], words: usize) -> Settings
    ensures { result ≡ settings_of numbers.now words }
{
    let b = barometer_points(numbers, words);
    Settings {
        unit: unit_of(at(numbers, 0)),
        height: Height(kept_at(numbers, 1)),
        difference: SeaLevelDifference(kept_at(numbers, 2)),
        coefficient: TemperatureCoefficient(kept_at(numbers, 3)),
        psychrometer: PsychrometerCoefficient(kept_at(numbers, 4)),
        count: count_of(b),
        points: array::from_fn(|i| point_of(numbers, b, i)),
        anemometer: anemometer_of(numbers, words, b),
    }
}

// The records that the numbers of a `write` line say, which has so many words behind the name.
pub fn records_of(numbers: &[u64], words: usize) -> [Record; RECORDS]
    ensures { result ≡ records_of numbers.now words }
{
    array::from_fn(|i| record_of(numbers, words, i))
}

// The settings sheet: the settings of a store as words of 32 bits, as C hands them over and gets them back.
#![tactic(auto)]

ghost use Rattle.std.specs.Prelude.{◌≡◌, ◌<◌};
ghost use Rattle.sheet.specs.Sheet.{WORDS, unit_in, unit_number, number_at, point_in, rate_in, settings_in, paired, sheet_word, sheet_of};

use block::Store;
use number::Kept;
use quantity::BarometerUnit;
use settings::{
    Anemometer, Correction, Height, Point, PsychrometerCoefficient, Rate, RatePoint,
    SeaLevelDifference, Settings, TemperatureCoefficient,
};
use std::array;

// Where the points stand, the number of the anemometer's points, and those.
const POINTS: usize = 6;

const RATES: usize = POINTS + 2 * settings::POINTS;

pub const WORDS: usize = RATES + 1 + 2 * settings::RATES;

pub type Sheet = [u32; WORDS];

// ---- settings that were handed over

fn unit_in(n: u32) -> BarometerUnit
    ensures { result ≡ unit_in n }
{
    match n {
        0 => BarometerUnit::Hectopascals,
        _ => BarometerUnit::Millimetres,
    }
}

// The number with a sign at a place.
fn number_at(sheet: &Sheet, i: usize) -> Kept
    requires { i < WORDS }
    ensures { result.v ≡ number_at sheet.now i }
{
    octets::signed_word(sheet[i])
}

// The point of the barometer's certificate with index k, and of the anemometer's. (Two functions, as in crate `block`.)
fn point_in(sheet: &Sheet, k: usize) -> Point
    requires { k < 16 }
    ensures { result ≡ point_in sheet.now k }
{
    let at = POINTS + 2 * k;
    Point {
        reading: number_at(sheet, at),
        correction: Correction(number_at(sheet, at + 1)),
    }
}

fn rate_in(sheet: &Sheet, k: usize) -> RatePoint
    requires { k < 20 }
    ensures { result ≡ rate_in sheet.now k }
{
    let at = RATES + 1 + 2 * k;
    RatePoint {
        rate: Rate(number_at(sheet, at)),
        speed: number_at(sheet, at + 1),
    }
}

// The settings that a sheet says, right or wrong; of the points those behind the last too.
pub fn settings_in(sheet: &Sheet) -> Settings
    ensures { result ≡ settings_in sheet.now }
{
    Settings {
        unit: unit_in(sheet[0]),
        height: Height(number_at(sheet, 1)),
        difference: SeaLevelDifference(number_at(sheet, 2)),
        coefficient: TemperatureCoefficient(number_at(sheet, 3)),
        psychrometer: PsychrometerCoefficient(number_at(sheet, 4)),
        count: sheet[5],
        points: array::from_fn(|k| point_in(sheet, k)),
        anemometer: Anemometer {
            count: sheet[RATES],
            points: array::from_fn(|k| rate_in(sheet, k)),
        },
    }
}

// ---- the settings of a block, read back

fn unit_number(unit: BarometerUnit) -> u32
    ensures { result ≡ unit_number unit }
{
    match unit {
        BarometerUnit::Hectopascals => 0,
        BarometerUnit::Millimetres => 1,
    }
}

// The word of one of a point's two figures, 0 behind the last point.
fn of_pair(count: u32, i: usize, first: Kept, second: Kept) -> u32
    ensures { result ≡ paired count i first.v second.v }
{
    if i / 2 >= count as usize {
        return 0;
    }
    if i % 2 == 0 {
        octets::word_of(first)
    } else {
        octets::word_of(second)
    }
}

// The word at a place of the sheet.
#[tactic(auto, unfolding(crate::specs::Sheet::sheet_word))]
fn word_at(store: &Store, i: usize) -> u32
    requires { i < WORDS }
    ensures { result ≡ sheet_word store.now i }
{
    match i {
        0 => unit_number(block::unit(store)),
        1 => octets::word_of(block::height(store).0),
        2 => octets::word_of(block::difference(store).0),
        3 => octets::word_of(block::coefficient(store).0),
        4 => octets::word_of(block::psychrometer(store).0),
        5 => block::points(store),
        POINTS..RATES => {
            let k = i - POINTS;
            let p = block::point(store, (k / 2) as u32);
            of_pair(block::points(store), k, p.reading, p.correction.0)
        }
        RATES => block::rates(store),
        _ => {
            let k = i - (RATES + 1);
            let p = block::rate(store, (k / 2) as u32);
            of_pair(block::rates(store), k, p.rate.0, p.speed)
        }
    }
}

// Puts the settings that a block was opened with into the lent sheet: of any block what its words say.
pub fn read(store: &Store, sheet: &mut Sheet)
    ensures { sheet.new ≡ sheet_of store.now }
{
    // (A `for`: made by `array::from_fn` the sheet is laid aside and then copied, and reading it cost a third more.)
    *sheet = [0u32; WORDS];
    for i in 0..WORDS {
        sheet[i] = word_at(store, i);
    }
}

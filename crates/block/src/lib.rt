// The lent block: the mark of a store and its settings, laid into it and read back, and behind them a window for each of six channels,
// side by side.
#![tactic(auto)]

ghost use Rattle.std.specs.Prelude.{◌≡◌, ◌+◌, ◌*◌, ◌<◌, length};
ghost use Rattle.cell.specs.Cells.{biased};
ghost use Rattle.block.specs.Layout.{SETTINGS};
ghost use Rattle.block.specs.Words.{unit_word, up_to, setting_word, opened, is_store, unit_of, setting_of, points_of, point_of, certificate_of, rates_of, rate_of, rate_words_of};

use cell::CHANNELS;
use number::Kept;
use quantity::BarometerUnit;
use settings::{
    Correction, Height, Point, PsychrometerCoefficient, Rate, RatePoint, SeaLevelDifference,
    Settings, TemperatureCoefficient,
};
use window::WINDOW;

// The settings' words: mark and unit, height, difference, two coefficients, number of points; then the points, the number of the
// anemometer's points, and those.
const POINTS: usize = 6;

const RATES: usize = POINTS + settings::POINTS;

pub const SETTINGS: usize = RATES + 1 + settings::RATES;

pub const WORDS: usize = SETTINGS + CHANNELS * WINDOW;

pub type Store = [u64; WORDS];

// The mark of a store, which no memory holds by chance: the letters ZHITOMRC, a byte each, the last of which is this layout's. It is the
// first word of a store whose barometer reads in hPa; with one in mm Hg that word is one more.
const MARK: u64 = 0x5A48_4954_4F4D_5243;

// What a block without the mark answers, none of document 01's numbers: the block is no store.
pub const NO_STORE: u32 = 255;

// ---- laying the settings

fn unit_word(unit: BarometerUnit) -> u64
    ensures { result ≡ unit_word unit }
{
    match unit {
        BarometerUnit::Hectopascals => MARK,
        BarometerUnit::Millimetres => MARK + 1,
    }
}

// The word at place k of a certificate of `count` points, of the two figures of its point there: 0 behind the last.
fn pair_word(count: u32, k: usize, first: Kept, second: Kept) -> u64
    ensures { result ≡ up_to count k (biased first.v + 65536 * biased second.v) }
{
    if k < count as usize {
        return cell::biased(first) + 65536 * cell::biased(second);
    }
    0
}

// The word at a place of the settings.
#[tactic(auto, unfolding(crate::specs::Words::setting_word))]
fn setting_word(g: &Settings, i: usize) -> u64
    requires { i < SETTINGS }
    ensures { result ≡ setting_word g.now i }
{
    match i {
        0 => unit_word(g.unit),
        1 => cell::biased(g.height.0),
        2 => cell::biased(g.difference.0),
        3 => cell::biased(g.coefficient.0),
        4 => cell::biased(g.psychrometer.0),
        5 => g.count as u64,
        POINTS..RATES => {
            let k = i - POINTS;
            let p = g.points[k];
            pair_word(g.count, k, p.reading, p.correction.0)
        }
        RATES => g.anemometer.count as u64,
        _ => {
            let k = i - (RATES + 1);
            let p = g.anemometer.points[k];
            pair_word(g.anemometer.count, k, p.rate.0, p.speed)
        }
    }
}

// Lays the settings into the block. Behind them it is all zeros: nothing is heard yet.
pub fn lay(store: &mut Store, g: Settings)
    ensures { store.new ≡ opened g }
{
    *store = [0u64; WORDS];
    for i in 0..SETTINGS {
        store[i] = setting_word(&g, i);
    }
}

// ---- reading them back

// Whether the block is a store: it bears the mark.
pub fn is_store(store: &Store) -> bool
    ensures { result ≡ is_store store.now }
{
    store[0] == MARK || store[0] == MARK + 1
}

// The unit of the barometer.
pub fn unit(store: &Store) -> BarometerUnit
    ensures { result ≡ unit_of store.now }
{
    match store[0] {
        MARK => BarometerUnit::Hectopascals,
        _ => BarometerUnit::Millimetres,
    }
}

// The settings, as the store was opened with them.
pub fn height(store: &Store) -> Height
    ensures { result.0.v ≡ setting_of store.now 1 }
{
    Height(cell::unbiased(store[1]))
}

pub fn difference(store: &Store) -> SeaLevelDifference
    ensures { result.0.v ≡ setting_of store.now 2 }
{
    SeaLevelDifference(cell::unbiased(store[2]))
}

pub fn coefficient(store: &Store) -> TemperatureCoefficient
    ensures { result.0.v ≡ setting_of store.now 3 }
{
    TemperatureCoefficient(cell::unbiased(store[3]))
}

pub fn psychrometer(store: &Store) -> PsychrometerCoefficient
    ensures { result.0.v ≡ setting_of store.now 4 }
{
    PsychrometerCoefficient(cell::unbiased(store[4]))
}

// The number of points of the certificate.
pub fn points(store: &Store) -> u32
    ensures { result ≡ points_of store.now }
{
    store[5].min(settings::POINTS as u64) as u32
}

// A point of the certificate; past its end a point of zeros.
pub fn point(store: &Store, i: u32) -> Point
    ensures { result ≡ point_of store.now i }
{
    let i = i as usize;
    if i < settings::POINTS {
        let w = store[POINTS + i];
        return Point {
            reading: cell::unbiased(w),
            correction: Correction(cell::unbiased(w / 65536)),
        };
    }
    Point::NOWHERE
}

// The points of the certificate, a word each. All of them are there: a block is long enough.
pub fn certificate(store: &Store) -> &[u64]
    ensures { (result.now ≡ certificate_of store.now) × (length result.now ≡ points_of store.now) }
{
    &store[POINTS..POINTS + points(store) as usize]
}

// The number of points of the anemometer's certificate: with none there is no anemometer.
pub fn rates(store: &Store) -> u32
    ensures { result ≡ rates_of store.now }
{
    store[RATES].min(settings::RATES as u64) as u32
}

// A point of the anemometer's certificate; past its end a point of zeros. (It looks like `point`: one function for both types would need a
// trait, and be longer than the two.)
pub fn rate(store: &Store, i: u32) -> RatePoint
    ensures { result ≡ rate_of store.now i }
{
    let i = i as usize;
    if i < settings::RATES {
        let w = store[RATES + 1 + i];
        return RatePoint {
            rate: Rate(cell::unbiased(w)),
            speed: cell::unbiased(w / 65536),
        };
    }
    RatePoint::NONE
}

// The points of the anemometer's certificate, a word each.
pub fn anemometer(store: &Store) -> &[u64]
    ensures { (result.now ≡ rate_words_of store.now) × (length result.now ≡ rates_of store.now) }
{
    &store[RATES + 1..RATES + 1 + rates(store) as usize]
}

// Saturation of water vapour over water and over ice, the dew point, and what vapour pressure and saturation come to.
#![tactic(auto)]

ghost use Rattle.std.specs.Prelude.{◌≡◌, true, ◌<◌, ◌≤◌};
ghost use Rattle.quantity.specs.Limits.{inside, bulb};
ghost use Rattle.vapour.specs.Vapour.{Near, water, ice, AreSaturations, IsOverIce, lowest_vapour, highest_vapour, recorded_vapour, IsDew, TellsDew, DewPoint, relative_humidity, vapour_deficit};
ghost use Rattle.vapour.specs.Tables.{tenth, IsOverWater, Least, IsRow, Reaches, gone_of};

use number::{Kept, Number};
use quantity::BulbTemperature;
use tables::{ICE_SATURATION, SATURATION};

mod tables;

// A pressure of vapour, in hundredths of hPa.
#[derive(Clone, Copy)]
pub struct VapourPressure(pub u32);

impl VapourPressure {
    pub const LOW: u32 = 19;

    pub const HIGH: u32 = 12345;

    // Whether n lies in the table's range: what a watch file takes for e and for saturation, and what has a dew point.
    pub fn holds(n: u32) -> bool
        ensures { result ≡ recorded_vapour n }
    {
        Self::LOW <= n && n <= Self::HIGH
    }
}

// A dew point, in tenths of °C.
#[derive(Clone, Copy)]
pub struct DewTemperature(pub Kept);

// Saturation over water at both bulbs.
#[derive(Clone, Copy)]
pub struct Saturations {
    pub dry: VapourPressure,
    pub wet: VapourPressure,
}

// The place of t in a table.
fn place(t: Number) -> usize
    requires { inside bulb t.v ≡ true }
    ensures { (result < 901) × (tenth result ≡ t.v) }
{
    let above = t.plus(Number { v: 400 });
    above.size() as usize
}

// The entry at a place of the table over water.
fn entry_over_water(i: usize) -> VapourPressure
    requires { i < 901 }
    ensures { Near water (tenth i) result.0 }
{
    VapourPressure(SATURATION[i] as u32)
}

// Saturation over water at a bulb, where it lies within the table.
fn saturation_over_water(bulb: BulbTemperature) -> Option<VapourPressure>
    ensures { IsOverWater bulb.0.v result }
{
    let t = bulb.0.number();
    if !BulbTemperature::holds(t) {
        return None;
    }
    Some(entry_over_water(place(t)))
}

// Saturation over water at the dry and at the wet bulb, where both lie within the table.
pub fn saturation(dry: BulbTemperature, wet: BulbTemperature) -> Option<Saturations>
    ensures { AreSaturations dry.0.v wet.0.v result }
{
    Some(Saturations {
        dry: saturation_over_water(dry)?,
        wet: saturation_over_water(wet)?,
    })
}

// The entry at a place of the table over ice.
fn entry_over_ice(i: usize) -> VapourPressure
    requires { i < 401 }
    ensures { Near ice (tenth i) result.0 }
{
    VapourPressure(ICE_SATURATION[i] as u32)
}

// Saturation over ice at a bulb, where it lies within the table.
pub fn saturation_over_ice(bulb: BulbTemperature) -> Option<VapourPressure>
    ensures { IsOverIce bulb.0.v result }
{
    let t = bulb.0.number();
    if !BulbTemperature::freezes(t) {
        return None;
    }
    Some(entry_over_ice(place(t)))
}

// A cubic curve over a stretch of length 1: where it starts, its slope, its bend and its twist, in 65536ths.
#[derive(Clone, Copy)]
struct Curve(u32, u32, u32, u32);

// How far a curve has gone from its start, w 65536ths of its stretch on.
fn gone(curve: Curve, w: u64) -> u64
    requires { w < 65536 }
    ensures { result ≡ gone_of curve w }
{
    let turned = w * (curve.3 as u64) / 65536;
    let bent = w * ((curve.2 as u64) + turned) / 65536;
    w * ((curve.1 as u64) + bent) / 65536
}

// The thresholds of the 64 places from 64 n are those of curve n: cut to whole hundredths, it is at each the least that reaches the
// place. So it is for the 960 places from -40.0 to 55.9 °C. The comments say where a curve starts.
const ROWS: [Curve; 15] = [
    Curve(1_292_744, 817_423, 254_142, 45_738), // -40.0 °C
    Curve(2_409_226, 1_501_805, 336_979, 127_212), // -33.6 °C
    Curve(4_374_998, 2_541_770, 680_203, 112_218), // -27.2 °C
    Curve(7_710_210, 4_266_022, 1_002_702, 221_234), // -20.8 °C
    Curve(13_194_609, 6_901_357, 1_598_964, 257_590), // -14.4 °C
    Curve(21_951_759, 10_887_639, 2_394_317, 335_407), // -8.0 °C
    Curve(35_572_172, 16_710_741, 3_493_177, 455_607), // -1.6 °C
    Curve(56_237_165, 25_081_381, 4_944_574, 607_634), // 4.8 °C
    Curve(86_873_960, 36_848_515, 6_824_426, 823_651), // 11.2 °C
    Curve(131_370_655, 53_018_013, 9_282_664, 1_077_282), // 17.6 °C
    Curve(194_748_397, 74_895_956, 12_332_390, 1_441_673), // 24.0 °C
    Curve(283_409_992, 103_853_934, 16_463_350, 1_654_117), // 30.4 °C
    Curve(405_381_108, 141_787_370, 21_415_625, 2_006_087), // 36.8 °C
    Curve(570_588_165, 190_693_438, 27_443_827, 2_410_738), // 43.2 °C
    Curve(791_142_025, 252_847_418, 34_794_211, 2_826_141), // 49.6 °C
];

// The curve of the thresholds of the 64 places from 64 n.
fn row(n: u32) -> Curve
    requires { n < 15 }
    ensures { IsRow n result }
{
    // By reference: a struct of a const array that is read by value is copied with the whole array.
    let rows = &ROWS;
    rows[n as usize]
}

// The threshold of a place: the least pressure that reaches it.
fn threshold(i: u32) -> u64
    requires { i < 960 }
    ensures { Least i result }
{
    let curve = row(i / 64);
    let further = gone(curve, 1024 * ((i % 64) as u64));
    ((curve.0 as u64) + further) / 65536
}

// The curves near which the dew points lie, in places, one for the pressures of each leading bit: a curve starts at twice the pressure
// in its comment, and goes down to that pressure.
const OCTAVES: [Curve; 10] = [
    Curve(3_453_586, 3_346_820, 567_466, 502_911), // 0.16 hPa
    Curve(8_200_087, 3_617_578, 488_175, 640_160), // 0.32 hPa
    Curve(13_289_341, 3_876_530, 539_716, 673_494), // 0.64 hPa
    Curve(18_763_107, 4_169_664, 588_432, 715_040), // 1.28 hPa
    Curve(24_666_304, 4_500_089, 638_342, 763_514), // 2.56 hPa
    Curve(31_051_354, 4_872_853, 691_888, 818_667), // 5.12 hPa
    Curve(37_979_680, 5_294_707, 750_843, 880_848), // 10.24 hPa
    Curve(45_523_656, 5_774_240, 816_754, 950_815), // 20.48 hPa
    Curve(53_769_132, 6_322_239, 891_189, 1_029_655), // 40.96 hPa
    Curve(62_924_544, 7_518_172, 54_623, 1_584_422), // 81.92 hPa
];

// The curve of the pressures with so many leading zeros: 27 of them at the first, 18 at the last.
fn octave(zeros: u32) -> Curve {
    let octaves = &OCTAVES;
    octaves[27u32.saturating_sub(zeros).min(9) as usize]
}

// A guess at the place of the dew point of e, by the curve for its leading bit: of the pressures within the limits 2.7 in 100 lie one
// place beside it, the others at it. Whatever the guess, the search that starts at it ends at the right place.
fn guess(e: u32) -> u32
    ensures { result < 901 }
{
    let zeros = u32::leading_zeros(e);
    let curve = octave(zeros);
    let w = 65535 - (e << (zeros % 32)) / 32768 % 65536;
    let from = curve.0 as u64;
    let down = gone(curve, w as u64);
    (from.saturating_sub(down) / 65536).min(900) as u32
}

// A place that e reaches: the guess, or the next below it that e reaches.
fn start(e: u32) -> u32
    requires { lowest_vapour ≤ e }
    ensures { (result < 901) × Reaches e result }
{
    let mut i = guess(e);
    // No `find` over the places below: it would ask what to do where none is found, and one always is. So in `dew_place`.
    while (e as u64) < threshold(i) {
        i -= 1;
    }
    i
}

// The place of the dew point of e: the last place whose threshold e reaches.
fn dew_place(e: u32) -> u32
    requires { (lowest_vapour ≤ e) × (e ≤ highest_vapour) }
    ensures { (result < 901) × DewPoint e (tenth result) }
{
    let mut i = start(e);
    while threshold(i + 1) <= (e as u64) {
        i += 1;
    }
    i
}

// The dew point of e, where it is within its limits.
pub fn dew_point(e: VapourPressure) -> Option<DewTemperature>
    ensures { IsDew e.0 result }
{
    let pressure = e.0;
    if !VapourPressure::holds(pressure) {
        return None;
    }
    let i = dew_place(pressure);
    let t = Number::whole(i).minus(Number { v: 400 });
    Some(DewTemperature(t.keep()))
}

// Whether t is the dew point of e, where e is within its limits.
pub fn is_dew_point(e: VapourPressure, t: DewTemperature) -> bool
    ensures { TellsDew e.0 t.0.v result }
{
    let pressure = e.0;
    if !VapourPressure::holds(pressure) {
        return false;
    }
    let tenths = t.0.number();
    if !BulbTemperature::holds(tenths) {
        return false;
    }
    let i = place(tenths) as u32;
    threshold(i) <= (pressure as u64) && (pressure as u64) < threshold(i + 1)
}

// The relative humidity of air with e at a saturation, rounded to 1 %; 0 where there is no saturation.
pub fn relative_humidity(e: VapourPressure, saturation: VapourPressure) -> u64
    ensures { result ≡ relative_humidity e.0 saturation.0 }
{
    let whole = saturation.0 as u64;
    if whole == 0 {
        return 0;
    }
    let half = whole;
    (2 * (100 * (e.0 as u64)) + half) / (2 * whole)
}

// The deficit of air with e at a saturation; 0 where e is the larger.
pub fn deficit(e: VapourPressure, saturation: VapourPressure) -> VapourPressure
    ensures { result.0 ≡ vapour_deficit e.0 saturation.0 }
{
    VapourPressure(saturation.0.saturating_sub(e.0))
}

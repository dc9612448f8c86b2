// Works the figures of document 01 ("Figures on both sides"), as document 02 has changed them, in the compiled program: those that are
// proved, in the order of their table, then those that are only run. Pressures in tenths of hPa, and so on, as in the table.
#![tactic(auto)]

use block::Store;
use humidity::HumidityRefusal;
use number::{Kept, Number};
use pressure::{BarometerReading, PressureRefusal};
use quantity::{
    BarometerUnit, BulbState, BulbTemperature, Degrees, Hectopascals, Knots, MetresPerSecond,
    Millimetres, WheelhouseTemperature,
};
use settings::{
    Anemometer, Correction, Height, Point, PsychrometerCoefficient, RatePoint, SeaLevelDifference,
    Settings, TemperatureCoefficient,
};
use station::{QuestionRefusal, Refused};
use std::io;

fn point(reading: i32, correction: i32) -> Point {
    Point {
        reading: Kept { v: reading },
        correction: Correction(Kept { v: correction }),
    }
}

fn no_anemometer() -> Anemometer {
    Anemometer {
        count: 0,
        points: [RatePoint::NONE; settings::RATES],
    }
}

// Certificate 730.0:-0.4, 750.0:-0.8 mm Hg, coefficient 24, H 10.1.
fn settings(difference: i32) -> Settings {
    let first = point(7300, -4);
    let mut points = [first; settings::POINTS];
    points[1] = point(7500, -8);
    Settings {
        unit: BarometerUnit::Millimetres,
        height: Height(Kept { v: 101 }),
        difference: SeaLevelDifference(Kept { v: difference }),
        coefficient: TemperatureCoefficient(Kept { v: 24 }),
        psychrometer: PsychrometerCoefficient(Kept { v: 662 }),
        count: 2,
        points,
        anemometer: no_anemometer(),
    }
}

// Reading 741.9 mm Hg at 12.4 °C.
fn pressure_at_sea_level(rt: &impl Print, difference: i32) -> io::Result<()> {
    let mut store = [0u64; block::WORDS];
    let _ = store::open(&mut store, settings(difference));
    match pressure::sea_level_pressure(
        &store,
        BarometerReading::Millimetres(Millimetres(Kept { v: 7419 })),
        WheelhouseTemperature(Kept { v: 124 }),
    ) {
        Ok(p) => println!(rt; "pressure {}", p.0.v),
        Err(PressureRefusal::OutsideLimits) => println!(rt; "refused 7"),
        Err(PressureRefusal::OutsideCertificate) => println!(rt; "refused 12"),
    }
}

fn true_wind(
    rt: &impl Print,
    course: u32,
    ship: u32,
    apparent: u32,
    from_bow: u32,
) -> io::Result<()> {
    match wind::true_wind(
        Degrees(course),
        Knots(ship),
        MetresPerSecond(apparent),
        Degrees(from_bow),
    ) {
        Some(w) => println!(rt; "wind {} {}", w.speed.0, w.direction.0),
        None => println!(rt; "refused 7"),
    }
}

// At 1000.0 hPa, A 662.
fn humidity_of(rt: &impl Print, state: BulbState, dry: i32, wet: i32) -> io::Result<()> {
    let pressure = Hectopascals(Number { v: 10000 });
    let a = PsychrometerCoefficient(Kept { v: 662 });
    match humidity::humidity(
        state,
        BulbTemperature(Kept { v: dry }),
        BulbTemperature(Kept { v: wet }),
        pressure,
        a,
    ) {
        Ok(h) => println!(rt;
            "humidity {} {} {} {} {}",
            h.e.0, h.saturation.0, h.deficit.0, h.relative, h.dew.0.v
        ),
        Err(HumidityRefusal::WetAboveDry) => println!(rt; "refused 13"),
        Err(HumidityRefusal::TooWarmForIce) => println!(rt; "refused 20"),
        Err(HumidityRefusal::UnknownOutsideRange) => println!(rt; "refused 21"),
        Err(HumidityRefusal::AboveSaturation) => println!(rt; "refused 22"),
        Err(HumidityRefusal::TooDry) => println!(rt; "refused 15"),
        Err(HumidityRefusal::OutsideLimits) => println!(rt; "refused 7"),
    }
}

// A channel's message of one value, little endian: 996.0 hPa as a binary32 is 44 79 00 00, 12.0 °C is 41 40 00 00.
fn hear_both(store: &mut Store, low: u8, high: u8) {
    let barometer: [u8; 16] = [0, 0, 0, 0, low, high, 0, 0, 0, 0, 121, 68, 0, 0, 0, 0];
    let thermometer: [u8; 16] = [1, 0, 0, 0, low, high, 0, 0, 0, 0, 64, 65, 0, 0, 0, 0];
    let _ = station::hear(store, &barometer);
    let _ = station::hear(store, &thermometer);
}

fn say_refusal(rt: &impl Print, r: QuestionRefusal) -> io::Result<()> {
    match station::number(r) {
        Refused::Plain(n) => println!(rt; "refused {n}"),
        Refused::OfMinute(n, m) => println!(rt; "refused {n} {}", m.0),
        Refused::OfReading(n, c, m) => println!(rt; "refused {n} {c} {}", m.0),
    }
}

fn tendency_at(rt: &impl Print, store: &Store, minute: u32) -> io::Result<()> {
    match station::tendency(store, minute) {
        Ok(t) => println!(rt; "tendency {} {}", t.change.0.v, t.absent),
        Err(r) => say_refusal(rt, r),
    }
}

// Barometer and thermometer at 100 and 280 only, then both at 400.
fn watch_with_a_gap(rt: &impl Print) -> io::Result<()> {
    let mut store = [0u64; block::WORDS];
    let first = point(8500, 0);
    let mut points = [first; settings::POINTS];
    points[1] = point(11000, 0);
    let _ = station::open(
        &mut store,
        Settings {
            unit: BarometerUnit::Hectopascals,
            height: Height(Kept { v: 0 }),
            difference: SeaLevelDifference(Kept { v: 0 }),
            coefficient: TemperatureCoefficient(Kept { v: 0 }),
            psychrometer: PsychrometerCoefficient(Kept { v: 662 }),
            count: 2,
            points,
            anemometer: no_anemometer(),
        },
    );
    hear_both(&mut store, 100, 0);
    hear_both(&mut store, 24, 1);
    tendency_at(rt, &store, 280)?;
    hear_both(&mut store, 144, 1);
    tendency_at(rt, &store, 400)
}

fn main(rt: HostRuntime) -> io::Result<()> {
    pressure_at_sea_level(&rt, 0)?;
    pressure_at_sea_level(&rt, -268)?;
    true_wind(&rt, 260, 125, 25, 40)?;
    true_wind(&rt, 30, 100, 0, 0)?;
    true_wind(&rt, 90, 100, 50, 0)?;
    true_wind(&rt, 350, 0, 80, 20)?;
    true_wind(&rt, 0, 0, 100, 0)?;
    true_wind(&rt, 0, 0, 0, 0)?;
    humidity_of(&rt, BulbState::Water, 200, 150)?;
    humidity_of(&rt, BulbState::Water, 0, 0)?;
    humidity_of(&rt, BulbState::Water, -400, -400)?;
    humidity_of(&rt, BulbState::Ice, -100, -100)?;
    humidity_of(&rt, BulbState::Water, 300, 50)?;
    humidity_of(&rt, BulbState::Unknown, -50, -50)?;
    humidity_of(&rt, BulbState::Unknown, -50, -51)?;
    humidity_of(&rt, BulbState::Ice, 0, 1)?;
    humidity_of(&rt, BulbState::Unknown, -100, -100)?;
    humidity_of(&rt, BulbState::Ice, -85, -82)?;
    watch_with_a_gap(&rt)
}

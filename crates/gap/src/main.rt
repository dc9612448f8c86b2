// A watch with a gap: barometer and thermometer at minutes 100 and 280 only, then at 400.
#![tactic(auto)]

ghost use Rattle.std.specs.Prelude.{◌≡◌, true, [], ℕ};
ghost use Rattle.store.specs.Block.{recall_of};
ghost use Rattle.cell.specs.Cells.{recalled_as};
ghost use Rattle.store.specs.History.{Remembers};
ghost use Rattle.gap.specs.Watch.{ship, to_100, to_280, to_400, pressure_in, temperature_in};

use block::Store;
use message::Reading;
use number::Kept;
use quantity::BarometerUnit;
use settings::{
    Anemometer, Correction, Height, Point, PsychrometerCoefficient, RatePoint, SeaLevelDifference,
    Settings, TemperatureCoefficient,
};

// What has to hold, which each caller proves.
fn expect(holds: bool)
    requires { holds ≡ true }
{
    prove!(holds);
}

// The pressure that is kept, in tenths of hPa; 0 where none is.
fn pressure_in(x: Option<Reading>) -> u64
    ensures { (m : ℕ) → result ≡ pressure_in (recalled_as m x) }
{
    match x {
        Some(Reading::Hectopascals(p)) => p.0.size(),
        _ => 0,
    }
}

// The wheelhouse's temperature that is kept, in tenths of °C without its sign; 0 where none is.
fn temperature_in(x: Option<Reading>) -> u64
    ensures { (m : ℕ) → result ≡ temperature_in (recalled_as m x) }
{
    match x {
        Some(Reading::Wheelhouse(t)) => t.0.number().size(),
        _ => 0,
    }
}

// The pressure of a minute, as channel 0 keeps it.
fn pressure_at(store: &Store, minute: u32) -> u64
    ensures { result ≡ pressure_in (recall_of store.now 0 minute) }
{
    pressure_in(store::recall(store, 0, minute))
}

// The wheelhouse's temperature of a minute, as channel 1 keeps it.
fn temperature_at(store: &Store, minute: u32) -> u64
    ensures { result ≡ temperature_in (recall_of store.now 1 minute) }
{
    temperature_in(store::recall(store, 1, minute))
}

// The settings of a station at the sea's height, with a barometer in hPa that needs no correction, and no anemometer.
fn settings() -> Settings
    ensures { result ≡ ship }
{
    let low = Point {
        reading: Kept { v: 8500 },
        correction: Correction(Kept { v: 0 }),
    };
    let high = Point {
        reading: Kept { v: 11000 },
        correction: Correction(Kept { v: 0 }),
    };
    let mut points = [Point::NOWHERE; settings::POINTS];
    points[0] = low;
    points[1] = high;
    Settings {
        unit: BarometerUnit::Hectopascals,
        height: Height(Kept { v: 0 }),
        difference: SeaLevelDifference(Kept { v: 0 }),
        coefficient: TemperatureCoefficient(Kept { v: 0 }),
        psychrometer: PsychrometerCoefficient(Kept { v: 662 }),
        count: 2,
        points,
        anemometer: Anemometer {
            count: 0,
            points: [RatePoint::NONE; settings::RATES],
        },
    }
}

// Opens the store: nothing is heard yet.
fn open(store: &mut Store)
    ensures { Remembers store.new ship [] }
{
    expect(store::open(store, settings()).is_ok());
}

// Hears both instruments at minute 100: 1013.2 hPa and 12.5 °C.
fn hear_at_100(store: &mut Store)
    requires { Remembers store.old ship [] }
    ensures { Remembers store.new ship to_100 }
{
    let barometer: [u8; 16] = [0, 0, 0, 0, 100, 0, 0, 0, 205, 76, 125, 68, 0, 0, 0, 0];
    let thermometer: [u8; 16] = [1, 0, 0, 0, 100, 0, 0, 0, 0, 0, 72, 65, 0, 0, 0, 0];
    expect(store::hear(store, &barometer).is_ok());
    expect(store::hear(store, &thermometer).is_ok());
}

// And at minute 280: 1009.7 hPa and 13.0 °C.
fn hear_at_280(store: &mut Store)
    requires { Remembers store.old ship to_100 }
    ensures { Remembers store.new ship to_280 }
{
    let barometer: [u8; 16] = [0, 0, 0, 0, 24, 1, 0, 0, 205, 108, 124, 68, 0, 0, 0, 0];
    let thermometer: [u8; 16] = [1, 0, 0, 0, 24, 1, 0, 0, 0, 0, 80, 65, 0, 0, 0, 0];
    expect(store::hear(store, &barometer).is_ok());
    expect(store::hear(store, &thermometer).is_ok());
}

// And at minute 400: 1008.4 hPa and 13.5 °C.
fn hear_at_400(store: &mut Store)
    requires { Remembers store.old ship to_280 }
    ensures { Remembers store.new ship to_400 }
{
    let barometer: [u8; 16] = [0, 0, 0, 0, 144, 1, 0, 0, 154, 25, 124, 68, 0, 0, 0, 0];
    let thermometer: [u8; 16] = [1, 0, 0, 0, 144, 1, 0, 0, 0, 0, 88, 65, 0, 0, 0, 0];
    expect(store::hear(store, &barometer).is_ok());
    expect(store::hear(store, &thermometer).is_ok());
}

// At minute 280 both minutes heard are kept, and all 179 between them are absent.
fn ask_at_280(store: &Store)
    requires { Remembers store.now ship to_280 }
{
    expect(store::missing_minutes(store, 0, 280) == 179);
    expect(store::missing_minutes(store, 1, 280) == 179);
    expect(pressure_at(store, 100) == 10132);
    expect(pressure_at(store, 280) == 10097);
    expect(temperature_at(store, 100) == 125);
    expect(temperature_at(store, 280) == 130);
}

// At minute 400 minute 220 is absent, minute 280 is still kept, and minute 100 is gone.
fn ask_at_400(store: &Store)
    requires { Remembers store.now ship to_400 }
{
    expect(store::recall(store, 0, 220).is_none());
    expect(store::recall(store, 1, 220).is_none());
    expect(store::recall(store, 0, 100).is_none());
    expect(store::recall(store, 1, 100).is_none());
    expect(pressure_at(store, 280) == 10097);
    expect(temperature_at(store, 280) == 130);
}

// "Barometer and thermometer at 100 and 280 only: tendency at 280, 179 absent. Then both at 400: minute 220 is absent."
fn main() {
    let mut store = [0u64; block::WORDS];
    open(&mut store);
    hear_at_100(&mut store);
    hear_at_280(&mut store);
    ask_at_280(&store);
    hear_at_400(&mut store);
    ask_at_400(&store);
}

// A cell: a reading as one word of a window, and back.
#![tactic(auto)]

ghost use Rattle.std.specs.Prelude.{◌≡◌, cond, ℕ, ◌+◌, ◌*◌, ◌%◌, ◌^◌, ◌<◌};
ghost use Rattle.message.specs.Receive.{entry_of};
ghost use Rattle.cell.specs.Cells.{biased, unbiased, cell_of, recalled_as, cell_says, read_in};

use message::Reading;
use number::{Kept, Number};
use quantity::{
    BarometerUnit, BulbState, BulbTemperature, Degrees, Hectopascals, Knots, MetresPerSecond,
    Millimetres, WheelhouseTemperature,
};

pub const CHANNELS: usize = 6;

// ---- numbers with a sign

// A number as a word, 32768 higher.
pub fn biased(x: Kept) -> u64
    ensures { (result ≡ biased x.v) × (result < 2 ^ 32) }
{
    x.number().plus(Number { v: 32768 }).size()
}

// The number in a word's low 16 bits.
pub fn unbiased(w: u64) -> Kept
    ensures { result.v ≡ unbiased w }
{
    Number::whole((w % 65536) as u32)
        .minus(Number { v: 32768 })
        .keep()
}

// ---- a reading as a cell

// The cell of two figures, 16 bits of each.
pub fn pair_cell(a: u32, b: u32) -> u64
    ensures { result ≡ a % 65536 + 65536 * (b % 65536) }
{
    (a % 65536) as u64 + 65536 * ((b % 65536) as u64)
}

// The cell of a reading.
pub fn cell_of(r: Reading) -> u64
    ensures { (t : ℕ) → result ≡ cell_of (entry_of t r) }
{
    match r {
        Reading::Hectopascals(p) => p.0.size() % 65536,
        Reading::Millimetres(p) => p.0.number().size() % 65536,
        Reading::Wheelhouse(t) => biased(t.0) % 65536,
        Reading::ApparentWind(v, d) => pair_cell(v.0, d.0),
        Reading::ShipMotion(v, d) => pair_cell(v.0, d.0),
        Reading::DryBulb(t) => biased(t.0) % 65536,
        Reading::WetBulb(s, t) => pair_cell(half(biased(t.0)), s.number()),
    }
}

// ---- a cell read back

fn half(v: u64) -> u32
    ensures { (result ≡ v % 65536) × (result < 65536) }
{
    (v % 65536) as u32
}

fn pressure_in(unit: BarometerUnit, v: u64) -> Option<Reading>
    ensures { (m : ℕ) → recalled_as m result ≡ cell_says unit 0 m v }
{
    let n = Number::whole(half(v));
    match unit {
        BarometerUnit::Hectopascals => {
            Hectopascals::holds(n).then_some(Reading::Hectopascals(Hectopascals(n)))
        }
        BarometerUnit::Millimetres => {
            Millimetres::holds(n).then_some(Reading::Millimetres(Millimetres(n.keep())))
        }
    }
}

// (`dry_bulb_in` looks like it: each asks its own type's limits, and one function for both would be handed two closures.)
fn wheelhouse_in(v: u64) -> Option<Reading>
    ensures { (u : BarometerUnit) (m : ℕ) → recalled_as m result ≡ cell_says u 1 m v }
{
    let t = unbiased(v);
    WheelhouseTemperature::holds(t.number()).then_some(Reading::Wheelhouse(WheelhouseTemperature(
        t,
    )))
}

// A speed and a direction: the ship's, or the apparent wind's.
fn pair_in(ship: bool, v: u64) -> Option<Reading>
    ensures { (u : BarometerUnit) (m : ℕ) → recalled_as m result ≡ cell_says u (cond ship 3 2) m v }
{
    let speed = half(v);
    let angle = half(v / 65536);
    if !Degrees::holds(Number::whole(angle)) {
        return None;
    }
    let n = Number::whole(speed);
    if ship {
        Knots::holds(n).then_some(Reading::ShipMotion(Knots(speed), Degrees(angle)))
    } else {
        MetresPerSecond::holds(n).then_some(Reading::ApparentWind(
            MetresPerSecond(speed),
            Degrees(angle),
        ))
    }
}

fn dry_bulb_in(v: u64) -> Option<Reading>
    ensures { (u : BarometerUnit) (m : ℕ) → recalled_as m result ≡ cell_says u 4 m v }
{
    let t = unbiased(v);
    BulbTemperature::holds(t.number()).then_some(Reading::DryBulb(BulbTemperature(t)))
}

fn wet_bulb_in(v: u64) -> Option<Reading>
    ensures { (u : BarometerUnit) (m : ℕ) → recalled_as m result ≡ cell_says u 5 m v }
{
    let state = half(v / 65536);
    if !BulbState::holds(state) {
        return None;
    }
    let t = unbiased(v);
    let told = Reading::WetBulb(BulbState::numbered(state), BulbTemperature(t));
    BulbTemperature::holds(t.number()).then_some(told)
}

// What a cell of a channel says: nothing where the channel is none of the six, or where that lies outside its limits.
// (A channel is a number here and in the store: C hands it over, and the promise is about every number.)
pub fn reading_in(unit: BarometerUnit, channel: u32, v: u64) -> Option<Reading>
    ensures { (m : ℕ) → recalled_as m result ≡ read_in unit channel m v }
{
    match channel {
        0 => pressure_in(unit, v),
        1 => wheelhouse_in(v),
        2 => pair_in(false, v),
        3 => pair_in(true, v),
        4 => dry_bulb_in(v),
        5 => wet_bulb_in(v),
        _ => None,
    }
}

// The pressure at sea level and the pressure at the station, from a barometer's reading and its corrections.
// A reading comes with its unit. Behind `tenths_in` a number is one of tenths of the unit that the store is set to, but where it is said
// to be one of ten-thousandths.
#![tactic(auto)]

ghost use Rattle.std.specs.Prelude.{◌≡◌, ◌≤◌, ◌<◌, ◌^◌, nat_abs};
ghost use Rattle.number.specs.Whole.{Is};
ghost use Rattle.pressure.specs.Pressure.{barometer_of, in_unit, temperature, height, corrected, to_hectopascals, rounded_once, tenths_in, reading_as, scaled, scaled_as, sea_level_answer, station_answer, pressure_as};

use block::Store;
use number::Number;
use quantity::{BarometerUnit, Hectopascals, Millimetres, WheelhouseTemperature};
use settings::{Height, SeaLevelDifference, TemperatureCoefficient};

// What a barometer shows, in its unit.
#[derive(Clone, Copy)]
pub enum BarometerReading {
    Hectopascals(Hectopascals),
    Millimetres(Millimetres),
}

// Why no pressure is worked from a reading.
#[derive(Clone, Copy)]
pub enum PressureRefusal {
    // 7: the reading is in another unit than the store's, or the temperature is outside its limits
    OutsideLimits,
    // 12
    OutsideCertificate,
}

// Whether a reading is in the barometer's unit.
#[tactic(auto, unfolding(crate::specs::Pressure::in_unit))]
fn in_unit(unit: BarometerUnit, reading: BarometerReading) -> bool
    ensures { result ≡ in_unit unit (reading_as reading) }
{
    match (unit, reading) {
        (BarometerUnit::Hectopascals, BarometerReading::Hectopascals(_)) => true,
        (BarometerUnit::Millimetres, BarometerReading::Millimetres(_)) => true,
        _ => false,
    }
}

// The tenths of a reading in the barometer's unit. Of one in the other unit 0.
#[tactic(auto, unfolding(crate::specs::Pressure::tenths_in))]
fn tenths_in(unit: BarometerUnit, reading: BarometerReading) -> Number
    ensures { result.v ≡ tenths_in unit (reading_as reading) }
{
    match (unit, reading) {
        (BarometerUnit::Hectopascals, BarometerReading::Hectopascals(p)) => p.0,
        (BarometerUnit::Millimetres, BarometerReading::Millimetres(p)) => p.0.number(),
        _ => Number { v: 0 },
    }
}

// The scale correction that the certificate gives; none where the reading lies outside it.
fn scale_correction(store: &Store, reading: Number) -> Option<Number>
    ensures { scaled_as result ≡ scaled (barometer_of store.now) reading.v }
{
    certificate::value_at(block::certificate(store), 1, reading)
}

// The temperature correction, in tenths of the barometer's unit.
fn temperature_correction(k: TemperatureCoefficient, t: WheelhouseTemperature) -> Number
    ensures { result.v ≡ temperature k.0.v t.0.v }
{
    k.0.number().times(t.0.number()).over(1000)
}

// The height correction, exact: in ten-thousandths of the barometer's unit.
fn height_correction(unit: BarometerUnit, h: Height, difference: SeaLevelDifference) -> Number
    ensures { Is result.v (height unit h.0.v difference.0.v) (2 ^ 40) }
{
    let above_sea = h.0.number();
    let above_ocean = difference.0.number();
    let whole = above_sea.plus(above_ocean);
    match unit {
        BarometerUnit::Hectopascals => whole.times(Number { v: 133 }),
        BarometerUnit::Millimetres => whole.times(Number { v: 100 }),
    }
}

// A pressure in hPa, from tenths of a barometer's unit.
fn in_hectopascals(unit: BarometerUnit, tenths: Number) -> Hectopascals
    requires { nat_abs tenths.v < 2 ^ 31 }
    ensures { result.0.v ≡ to_hectopascals unit tenths.v }
{
    match unit {
        BarometerUnit::Hectopascals => Hectopascals(tenths),
        BarometerUnit::Millimetres => Millimetres(tenths.keep()).hectopascals(),
    }
}

// A pressure in hPa, from ten-thousandths of a barometer's unit: rounded here, and nowhere before. What 1000.0 of the unit are in hPa
// is the factor in ten-thousandths.
fn rounded_once(unit: BarometerUnit, parts: Number) -> Hectopascals
    requires { nat_abs parts.v ≤ 2 ^ 41 }
    ensures { result.0.v ≡ rounded_once unit parts.v }
{
    let factor = in_hectopascals(unit, Number { v: 10000 });
    Hectopascals(parts.times(factor.0).over(10000000))
}

// A reading plus its three corrections, of which the scale correction is worked already, in ten-thousandths of the unit.
fn corrected(
    store: &Store,
    reading: Number,
    scale: Number,
    wheelhouse: WheelhouseTemperature,
) -> Number
    requires { (nat_abs reading.v ≤ 32768) × (nat_abs scale.v ≤ 32768) × (nat_abs wheelhouse.0.v ≤ 600) }
    ensures { Is result.v (corrected (barometer_of store.now) reading.v scale.v wheelhouse.0.v) (2 ^ 41) }
{
    let warm = temperature_correction(block::coefficient(store), wheelhouse);
    let high = height_correction(
        block::unit(store),
        block::height(store),
        block::difference(store),
    );
    let tenths = reading.plus(scale).plus(warm);
    tenths.times(Number { v: 1000 }).plus(high)
}

// The pressure at sea level: the reading plus its three corrections, in hPa, rounded once. Or the first of refusals 7 and 12 that holds.
// A reading's limits are tested where it is kept; one within the certificate is small enough for every sum, whatever the block.
// (In line: behind the tests of a question the compiler would make a call of it, with the reading in memory.)
#[inline(always)]
pub fn sea_level_pressure(
    store: &Store,
    reading: BarometerReading,
    wheelhouse: WheelhouseTemperature,
) -> Result<Hectopascals, PressureRefusal>
    ensures { pressure_as result ≡ sea_level_answer (barometer_of store.now) (reading_as reading) wheelhouse.0.v }
{
    let unit = block::unit(store);
    if !in_unit(unit, reading) || !WheelhouseTemperature::holds(wheelhouse.0.number()) {
        return Err(PressureRefusal::OutsideLimits);
    }
    let tenths = tenths_in(unit, reading);
    let scale = scale_correction(store, tenths).ok_or(PressureRefusal::OutsideCertificate)?;
    let all = corrected(store, tenths, scale, wheelhouse);
    Ok(rounded_once(unit, all))
}

// The pressure at the station, for humidity: the reading plus its scale correction, in hPa. Or refusal 7 or 12 likewise.
pub fn station_pressure(
    store: &Store,
    reading: BarometerReading,
) -> Result<Hectopascals, PressureRefusal>
    ensures { pressure_as result ≡ station_answer (barometer_of store.now) (reading_as reading) }
{
    let unit = block::unit(store);
    if !in_unit(unit, reading) {
        return Err(PressureRefusal::OutsideLimits);
    }
    let tenths = tenths_in(unit, reading);
    let scale = scale_correction(store, tenths).ok_or(PressureRefusal::OutsideCertificate)?;
    Ok(in_hectopascals(unit, tenths.plus(scale)))
}

// Humidity by the psychrometer: vapour pressure by what is on the wick, saturation, deficit, relative humidity and dew point; refusals
// 7, 13, 20, 21, 22 and 15.
#![tactic(auto)]

ghost use Rattle.std.specs.Prelude.{◌≡◌, true, ◌&&◌, ◌≤◌, pos, nat_abs};
ghost use Rattle.number.specs.Whole.{Is};
ghost use Rattle.quantity.specs.Limits.{inside, bulb, recorded_pressure};
ghost use Rattle.quantity.specs.declared.BulbState.TheVariants.{Water, Ice, Unknown};
ghost use Rattle.settings.specs.Settings.{psychrometer};
ghost use Rattle.vapour.specs.Vapour.{DewPoint, lowest_vapour, highest_vapour, recorded_vapour};
ghost use Rattle.humidity.specs.Humidity.{water_factor, exact, IsMoisture};
ghost use Rattle.humidity.specs.Parts.{Tabled, Frozen, Sized, largest_factor, largest_exact, FiguresOf, IsByVapour, Decides};

use number::{Kept, Number};
use quantity::{BulbState, BulbTemperature, Hectopascals};
use settings::PsychrometerCoefficient;
use vapour::{DewTemperature, VapourPressure};

// The figures of the air at both bulbs. Relative humidity is in %.
#[derive(Clone, Copy)]
pub struct HumidityFigures {
    pub e: VapourPressure,
    pub saturation: VapourPressure,
    pub deficit: VapourPressure,
    pub relative: u32,
    pub dew: DewTemperature,
}

// Why there are no figures.
#[derive(Clone, Copy)]
pub enum HumidityRefusal {
    // 13
    WetAboveDry,
    // 20
    TooWarmForIce,
    // 21
    UnknownOutsideRange,
    // 22
    AboveSaturation,
    // 15
    TooDry,
    // 7: a figure outside its limits
    OutsideLimits,
}

// What is measured: both bulbs, the station pressure and A.
#[derive(Clone, Copy)]
struct Air {
    dry: BulbTemperature,
    wet: BulbTemperature,
    pressure: Hectopascals,
    a: PsychrometerCoefficient,
}

// Whether the station pressure and A lie within their limits.
fn others_hold(air: Air) -> bool
    ensures { result ≡ (inside recorded_pressure air.pressure.0.v && inside psychrometer air.a.0.v) }
{
    Hectopascals::recorded(air.pressure.0) && PsychrometerCoefficient::holds(air.a.0.number())
}

// ---- vapour pressure

// A hundredth of hPa has so many of the parts in which e is exact.
const PARTS: u64 = 1000000000000;

// The factor over ice, in millionths.
const ICE_FACTOR: Number = Number { v: 882200 };

// The factor over water, in millionths: 1 + 0.00115 wet.
fn water_factor(wet: BulbTemperature) -> Number
    requires { nat_abs wet.0.v ≤ nat_abs bulb.high }
    ensures { Is result.v (water_factor wet.0.v) largest_factor }
{
    let one = Number { v: 1000000 };
    let step = Number { v: 115 };
    one.plus(step.times(wet.0.number()))
}

// e before it is rounded: a table's entry of the wet bulb less A × pressure × (dry - wet) × factor, exactly.
fn exact(table: u32, factor: Number, air: Air) -> Number
    requires { (table ≤ highest_vapour) × (nat_abs factor.v ≤ largest_factor) × Sized air }
    ensures { Is result.v (exact table factor.v air.a.0.v air.pressure.0.v air.dry.0.v air.wet.0.v) largest_exact }
{
    let difference = air.dry.0.number().minus(air.wet.0.number());
    let less = air
        .a
        .0
        .number()
        .times(air.pressure.0)
        .times(difference)
        .times(factor);
    Number::whole(table)
        .times(Number::signed(false, PARTS))
        .minus(less)
}

// ---- what follows from it

// The dew point of an e in the range.
fn dew(e: VapourPressure) -> DewTemperature
    requires { recorded_vapour e.0 ≡ true }
    ensures { DewPoint e.0 result.0.v }
{
    vapour::dew_point(e).unwrap_or(DewTemperature(Kept { v: 0 }))
}

// The figures of e and saturation.
fn figures(e: VapourPressure, saturation: VapourPressure) -> HumidityFigures
    requires { (lowest_vapour ≤ e.0) × (e.0 ≤ saturation.0) × (saturation.0 ≤ highest_vapour) }
    ensures { FiguresOf (pos e.0) saturation.0 result }
{
    let t = dew(e);
    HumidityFigures {
        e,
        saturation,
        deficit: vapour::deficit(e, saturation),
        relative: vapour::relative_humidity(e, saturation) as u32,
        dew: t,
    }
}

// What e and saturation at the dry bulb come to: 22, 15, or the figures.
fn by_vapour(e: Number, saturation: u32) -> Result<HumidityFigures, HumidityRefusal>
    requires { saturation ≤ highest_vapour }
    ensures { IsByVapour e.v saturation result }
{
    if e > Number::whole(saturation) {
        return Err(HumidityRefusal::AboveSaturation);
    }
    if e < Number::whole(VapourPressure::LOW) {
        return Err(HumidityRefusal::TooDry);
    }
    Ok(figures(VapourPressure(e.size() as u32), VapourPressure(saturation)))
}

// ---- e by the state, where refusal 7 does not hold: w is the wet bulb's entry over water, i that over ice

fn on_water(air: Air, w: u32) -> Result<Number, HumidityRefusal>
    requires { Tabled air w }
    ensures { Decides Water air result }
{
    if air.wet.0 > air.dry.0 {
        return Err(HumidityRefusal::WetAboveDry);
    }
    let over_water = exact(w, water_factor(air.wet), air);
    Ok(over_water.over(PARTS))
}

fn on_ice(air: Air, i: u32) -> Result<Number, HumidityRefusal>
    requires { Frozen air i }
    ensures { Decides Ice air result }
{
    let over_ice = exact(i, ICE_FACTOR, air);
    Ok(over_ice.over(PARTS))
}

fn in_doubt(air: Air, w: u32, i: u32) -> Result<Number, HumidityRefusal>
    requires { Tabled air w × Frozen air i }
    ensures { Decides Unknown air result }
{
    if !BulbTemperature::leaves_doubt(air.dry.0.number()) {
        return Err(HumidityRefusal::UnknownOutsideRange);
    }
    let over_ice = exact(i, ICE_FACTOR, air);
    if air.dry.0 <= air.wet.0 {
        return Ok(over_ice.over(PARTS));
    }
    let over_water = exact(w, water_factor(air.wet), air);
    Ok(over_water.plus(over_ice).over(2 * PARTS))
}

fn by_state(state: BulbState, air: Air, w: u32) -> Result<Number, HumidityRefusal>
    requires { Tabled air w }
    ensures { Decides state air result }
{
    match state {
        BulbState::Water => on_water(air, w),
        BulbState::Ice => match vapour::saturation_over_ice(air.wet) {
            Some(i) => on_ice(air, i.0),
            None => Err(HumidityRefusal::TooWarmForIce),
        },
        BulbState::Unknown => match vapour::saturation_over_ice(air.wet) {
            Some(i) => in_doubt(air, w, i.0),
            None => Err(HumidityRefusal::TooWarmForIce),
        },
    }
}

// The humidity of both bulbs at a station pressure, by what is on the wet bulb's wick, or the first of refusals 7, 13, 20, 21, 22 and 15
// that holds.
pub fn humidity(
    state: BulbState,
    dry: BulbTemperature,
    wet: BulbTemperature,
    pressure: Hectopascals,
    a: PsychrometerCoefficient,
) -> Result<HumidityFigures, HumidityRefusal>
    ensures { IsMoisture state dry.0.v wet.0.v pressure.0.v a.0.v result }
{
    let Some(entries) = vapour::saturation(dry, wet) else {
        return Err(HumidityRefusal::OutsideLimits);
    };
    let air = Air {
        dry,
        wet,
        pressure,
        a,
    };
    if !others_hold(air) {
        return Err(HumidityRefusal::OutsideLimits);
    }
    let e = by_state(state, air, entries.wet.0)?;
    by_vapour(e, entries.dry.0)
}

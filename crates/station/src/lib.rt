// What a ship calls: a store is opened, hears messages and entries of the hand anemometer, and is asked for pressure, tendency, true wind and humidity.
// Any block, any bytes, any minute gets an answer, a block that is no store that it is none; asking changes nothing.
#![tactic(auto)]

ghost use Rattle.std.specs.Prelude.{◌≡◌};
ghost use Rattle.message.specs.Receive.{entry_of};
ghost use Rattle.settings.specs.Settings.{checked, checked_as};
ghost use Rattle.cell.specs.Cells.{recalled};
ghost use Rattle.store.specs.Block.{opened_by, recall_of, Hears};
ghost use Rattle.store.specs.Noting.{Notes};
ghost use Rattle.station.specs.Source.{held};
ghost use Rattle.station.specs.Questions.{TellsOf};
ghost use Rattle.station.specs.Questions as asked;
ghost use Rattle.station.specs.Told.{refusal_of, numbered_as};
ghost use Rattle.station.specs.Parts.{Begins, Keeps, barometer_is, wheelhouse_is, felt_is, motion_is, dry_bulb_is, wet_bulb_is, AreReadings, ReadsBoth, WorksSeaLevel, SeaLevelAt, WorksStation, refused_at, moist_as};

use anemometer::Note;
use block::{NO_STORE, Store};
use humidity::{HumidityFigures, HumidityRefusal};
use message::Reading;
use pressure::{BarometerReading, PressureRefusal};
use quantity::{
    BulbState, BulbTemperature, Degrees, Hectopascals, Knots, MetresPerSecond, Minute,
    WheelhouseTemperature,
};
use settings::{Settings, SettingsRefusal};
use store::HearingRefusal;
use wind::Wind;

// Why a question is refused.
#[derive(Clone, Copy)]
pub enum QuestionRefusal {
    // 5
    MinuteTooLate,
    // 7: only of a block that bears a store's mark, but that no opening made
    OutsideLimits,
    // 11: channel, minute
    MissingReading(u32, Minute),
    // 12
    OutsideCertificate(Minute),
    // 13
    WetAboveDry,
    // 14
    NoThreeHours,
    // 15
    TooDry,
    // 20
    TooWarmForIce,
    // 21
    UnknownOutsideRange,
    // 22
    AboveSaturation,
    // none of document 01's: the block is no store
    NoStore,
}

// A refusal's number, with the minute, or the channel and the minute, that it also returns.
#[derive(Clone, Copy)]
pub enum Refused {
    Plain(u32),
    OfMinute(u32, Minute),
    OfReading(u32, u32, Minute),
}

// Its change in three hours, and how many barometer minutes between are absent.
#[derive(Clone, Copy)]
pub struct PressureTendency {
    pub change: Hectopascals,
    pub absent: u64,
}

// What sea level pressure is worked from: what the barometer shows, and the temperature in the wheelhouse.
#[derive(Clone, Copy)]
struct Readings {
    barometer: BarometerReading,
    wheelhouse: WheelhouseTemperature,
}

// ---- opening and hearing

// Opens a store: the block starts empty with these settings, or the first of refusals 9, 10 and 25 that holds leaves it as it was.
pub fn open(store: &mut Store, settings: Settings) -> Result<(), SettingsRefusal>
    ensures { (checked_as result ≡ checked settings) × (store.new ≡ opened_by store.old settings) }
{
    store::open(store, settings)
}

// Hears a message: it is kept, or the first of refusals 1 to 8 and 19 that holds leaves the block as it was. A block that is no store
// hears nothing.
pub fn hear(store: &mut Store, message: &[u8]) -> Result<(), HearingRefusal>
    ensures { Hears store.old store.new message.now result }
{
    store::hear(store, message)
}

// Hears an entry of the hand anemometer: it is kept as a reading of channel 2, or the first of refusals 5, 7, 8, 19, 23, 11 and 24 that
// holds leaves the block as it was. A block that is no store hears nothing.
pub fn note(store: &mut Store, n: Note) -> Result<(), HearingRefusal>
    ensures { Notes store.old store.new n result }
{
    store::note(store, n)
}

// ---- refusals

// Document 01's number of a question's refusal, and what it also returns. A block that is no store has `NO_STORE`.
pub fn number(r: QuestionRefusal) -> Refused
    ensures { numbered_as result ≡ refusal_of r }
{
    match r {
        QuestionRefusal::MinuteTooLate => Refused::Plain(5),
        QuestionRefusal::OutsideLimits => Refused::Plain(7),
        QuestionRefusal::MissingReading(channel, minute) => Refused::OfReading(11, channel, minute),
        QuestionRefusal::OutsideCertificate(minute) => Refused::OfMinute(12, minute),
        QuestionRefusal::WetAboveDry => Refused::Plain(13),
        QuestionRefusal::NoThreeHours => Refused::Plain(14),
        QuestionRefusal::TooDry => Refused::Plain(15),
        QuestionRefusal::TooWarmForIce => Refused::Plain(20),
        QuestionRefusal::UnknownOutsideRange => Refused::Plain(21),
        QuestionRefusal::AboveSaturation => Refused::Plain(22),
        QuestionRefusal::NoStore => Refused::Plain(NO_STORE),
    }
}

// The number of a humidity's refusal is the question's.
impl From<HumidityRefusal> for QuestionRefusal {
    ghost from_gives = { λ r q. q ≡ moist_as r };

    fn from(r: HumidityRefusal) -> QuestionRefusal {
        match r {
            HumidityRefusal::WetAboveDry => QuestionRefusal::WetAboveDry,
            HumidityRefusal::TooWarmForIce => QuestionRefusal::TooWarmForIce,
            HumidityRefusal::UnknownOutsideRange => QuestionRefusal::UnknownOutsideRange,
            HumidityRefusal::AboveSaturation => QuestionRefusal::AboveSaturation,
            HumidityRefusal::TooDry => QuestionRefusal::TooDry,
            HumidityRefusal::OutsideLimits => QuestionRefusal::OutsideLimits,
        }
    }
}

// The tests that every question begins with: the block is a store, and the minute is one.
fn begin(store: &Store, minute: u32) -> Result<(), QuestionRefusal>
    ensures { Begins store.now minute result }
{
    if !block::is_store(store) {
        return Err(QuestionRefusal::NoStore);
    }
    if !Minute::holds(minute) {
        return Err(QuestionRefusal::MinuteTooLate);
    }
    Ok(())
}

// ---- what is kept of a channel's minute

// What the barometer shows at a minute, in its unit.
fn barometer_at(store: &Store, minute: u32) -> Option<BarometerReading>
    ensures { Keeps barometer_is (recall_of store.now 0 minute) minute result }
{
    // (No `?`: what is answered where nothing is kept stands written out, since a wrong program changes it.)
    let Some(kept) = store::recall(store, 0, minute) else {
        return None;
    };
    match kept {
        Reading::Hectopascals(p) => Some(BarometerReading::Hectopascals(p)),
        Reading::Millimetres(p) => Some(BarometerReading::Millimetres(p)),
        _ => None,
    }
}

// The temperature in the wheelhouse.
fn wheelhouse_at(store: &Store, minute: u32) -> Option<WheelhouseTemperature>
    ensures { Keeps wheelhouse_is (recall_of store.now 1 minute) minute result }
{
    match store::recall(store, 1, minute)? {
        Reading::Wheelhouse(t) => Some(t),
        _ => None,
    }
}

// The apparent wind: its speed, and where it comes from, off the bow.
fn felt_at(store: &Store, minute: u32) -> Option<(MetresPerSecond, Degrees)>
    ensures { Keeps felt_is (recall_of store.now 2 minute) minute result }
{
    match store::recall(store, 2, minute)? {
        Reading::ApparentWind(speed, from_bow) => Some((speed, from_bow)),
        _ => None,
    }
}

// The ship's speed and course.
fn motion_at(store: &Store, minute: u32) -> Option<(Knots, Degrees)>
    ensures { Keeps motion_is (recall_of store.now 3 minute) minute result }
{
    match store::recall(store, 3, minute)? {
        Reading::ShipMotion(speed, course) => Some((speed, course)),
        _ => None,
    }
}

// The temperature of the dry bulb.
fn dry_bulb_at(store: &Store, minute: u32) -> Option<BulbTemperature>
    ensures { Keeps dry_bulb_is (recall_of store.now 4 minute) minute result }
{
    match store::recall(store, 4, minute)? {
        Reading::DryBulb(t) => Some(t),
        _ => None,
    }
}

// What is on the wick of the wet bulb, and its temperature.
fn wet_bulb_at(store: &Store, minute: u32) -> Option<(BulbState, BulbTemperature)>
    ensures { Keeps wet_bulb_is (recall_of store.now 5 minute) minute result }
{
    match store::recall(store, 5, minute)? {
        Reading::WetBulb(state, t) => Some((state, t)),
        _ => None,
    }
}

// ---- pressure and tendency

// Both readings that sea level pressure is worked from; or the channel that has none.
fn readings_at(store: &Store, minute: u32) -> Result<Readings, u32>
    ensures { ReadsBoth (held store.now) minute result }
{
    let barometer = barometer_at(store, minute).ok_or(0u32)?;
    let wheelhouse = wheelhouse_at(store, minute).ok_or(1u32)?;
    Ok(Readings {
        barometer,
        wheelhouse,
    })
}

// Why a pressure that was asked at a minute is refused.
fn refused_at(minute: u32, r: PressureRefusal) -> QuestionRefusal
    ensures { result ≡ refused_at minute r }
{
    match r {
        PressureRefusal::OutsideLimits => QuestionRefusal::OutsideLimits,
        PressureRefusal::OutsideCertificate => QuestionRefusal::OutsideCertificate(Minute(minute)),
    }
}

// Sea level pressure of the readings of a minute.
#[inline(always)]
fn sea_level(
    store: &Store,
    minute: u32,
    readings: Readings,
) -> Result<Hectopascals, QuestionRefusal>
    requires { AreReadings (held store.now) minute readings }
    ensures { WorksSeaLevel (held store.now) minute result }
{
    match pressure::sea_level_pressure(store, readings.barometer, readings.wheelhouse) {
        Ok(p) => Ok(p),
        Err(r) => Err(refused_at(minute, r)),
    }
}

// Sea level pressure at a minute, or why there is none although both readings are there; or the channel that has no reading. So a
// tendency can tell first of all that is missing. (In line at its three calls, with its parts: as a call a pressure cost a sixth more.)
#[inline(always)]
fn sea_level_at(store: &Store, minute: u32) -> Result<Result<Hectopascals, QuestionRefusal>, u32>
    ensures { SeaLevelAt (held store.now) minute result }
{
    let readings = readings_at(store, minute)?;
    Ok(sea_level(store, minute, readings))
}

// The pressure at sea level.
pub fn pressure(store: &Store, minute: u32) -> Result<Hectopascals, QuestionRefusal>
    ensures { TellsOf asked.pressure store.now minute result × (store.exit.now ≡ store.entry.now) }
{
    begin(store, minute)?;
    match sea_level_at(store, minute) {
        Ok(worked) => worked,
        Err(c) => Err(QuestionRefusal::MissingReading(c, Minute(minute))),
    }
}

// Its change since three hours before, and how many barometer minutes between are absent.
pub fn tendency(store: &Store, minute: u32) -> Result<PressureTendency, QuestionRefusal>
    ensures { TellsOf asked.tendency store.now minute result × (store.exit.now ≡ store.entry.now) }
{
    begin(store, minute)?;
    if minute < Minute::THREE_HOURS {
        return Err(QuestionRefusal::NoThreeHours);
    }
    let before = minute - Minute::THREE_HOURS;
    let earlier = match sea_level_at(store, before) {
        Ok(worked) => worked,
        Err(c) => return Err(QuestionRefusal::MissingReading(c, Minute(before))),
    };
    let later = match sea_level_at(store, minute) {
        Ok(worked) => worked,
        Err(c) => return Err(QuestionRefusal::MissingReading(c, Minute(minute))),
    };
    let was = earlier?;
    let is = later?;
    Ok(PressureTendency {
        change: Hectopascals(is.0.minus(was.0)),
        absent: store::missing_minutes(store, 0, minute),
    })
}

// ---- wind

// The true wind. (The attribute is for a wrong program, which tells a calm of a block that is no store: the same shape with the right
// answer is proved by it.)
#[tactic(auto, using(crate::proofs::AnswerLaws::no_store_told))]
pub fn wind(store: &Store, minute: u32) -> Result<Wind, QuestionRefusal>
    ensures { TellsOf asked.wind store.now minute result × (store.exit.now ≡ store.entry.now) }
{
    begin(store, minute)?;
    let (apparent, from_bow) = felt_at(store, minute).ok_or(QuestionRefusal::MissingReading(
        2,
        Minute(minute),
    ))?;
    let (ship, course) = motion_at(store, minute).ok_or(QuestionRefusal::MissingReading(
        3,
        Minute(minute),
    ))?;
    wind::true_wind(course, ship, apparent, from_bow).ok_or(QuestionRefusal::OutsideLimits)
}

// ---- humidity

// The pressure at the station of what the barometer shows at a minute.
fn station_pressure(
    store: &Store,
    minute: u32,
    reading: BarometerReading,
) -> Result<Hectopascals, QuestionRefusal>
    requires { recall_of store.now 0 minute ≡ recalled (entry_of minute (barometer_is reading)) }
    ensures { WorksStation (held store.now) minute result }
{
    match pressure::station_pressure(store, reading) {
        Ok(p) => Ok(p),
        Err(r) => Err(refused_at(minute, r)),
    }
}

// Vapour pressure, saturation, deficit, relative humidity and dew point.
pub fn humidity(store: &Store, minute: u32) -> Result<HumidityFigures, QuestionRefusal>
    ensures { TellsOf asked.humidity store.now minute result × (store.exit.now ≡ store.entry.now) }
{
    begin(store, minute)?;
    let reading = barometer_at(store, minute).ok_or(QuestionRefusal::MissingReading(
        0,
        Minute(minute),
    ))?;
    let dry = dry_bulb_at(store, minute).ok_or(QuestionRefusal::MissingReading(4, Minute(minute)))?;
    let (state, wet) = wet_bulb_at(store, minute).ok_or(QuestionRefusal::MissingReading(
        5,
        Minute(minute),
    ))?;
    let p = station_pressure(store, minute, reading)?;
    let figures = humidity::humidity(state, dry, wet, p, block::psychrometer(store))?;
    Ok(figures)
}

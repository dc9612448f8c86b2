// What people read: answers, readings and refusals as text on a page, figures with sign, point and unit. C2 B0 is the degree sign.
#![tactic(auto)]

ghost use Rattle.std.specs.Prelude.{◌++◌};
ghost use Rattle.text.specs.Letters.{letters};
ghost use Rattle.text.specs.Text.{decimal, Puts};
ghost use Rattle.spoken.specs.Figures.{tenths, hundredths, tenths_of, change_of, minutes};
ghost use Rattle.spoken.specs.Sentences.{pressure_text, tendency_text, wind_text, vapour_text, humidity_text, barometer_text, wick_text, reading_text};
ghost use Rattle.spoken.specs.Refusals.{heard_text, other_text, asked_text, channel_text, more_text, refusal_text};

use number::{Kept, Number};
use text::Page;

// Bytes enough for any of them, and a zero behind it.
pub const SENTENCE: usize = 160;

// ---- figures

const ZERO: Number = Number { v: 0 };

fn put_tenths(page: &mut Page<'_>, n: u64)
    ensures { Puts page.old page.new (tenths n) }
{
    page.natural(n / 10);
    page.byte(b'.');
    page.natural(n % 10);
}

fn put_hundredths(page: &mut Page<'_>, n: u64)
    ensures { Puts page.old page.new (hundredths n) }
{
    page.natural(n / 100);
    page.byte(b'.');
    page.natural(n / 10 % 10);
    page.natural(n % 10);
}

fn put_tenths_of(page: &mut Page<'_>, n: Number)
    ensures { Puts page.old page.new (tenths_of n.v) }
{
    let size = n.size();
    let below = n < ZERO;
    if below {
        page.byte(b'-');
        return put_tenths(page, size);
    }
    put_tenths(page, size);
}

fn put_change(page: &mut Page<'_>, n: Number)
    ensures { Puts page.old page.new (change_of n.v) }
{
    if n <= ZERO {
        return put_tenths_of(page, n);
    }
    page.byte(b'+');
    put_tenths_of(page, n);
}

fn put_minutes(page: &mut Page<'_>, n: u64)
    ensures { Puts page.old page.new (minutes n) }
{
    page.natural(n);
    match n {
        1 => page.bytes(b" minute"),
        _ => page.bytes(b" minutes"),
    }
}

// ---- answers

// Puts a pressure at sea level.
pub fn put_pressure(page: &mut Page<'_>, pressure: Number)
    ensures { Puts page.old page.new (pressure_text pressure.v) }
{
    put_tenths_of(page, pressure);
    page.bytes(b" hPa at sea level");
}

// Puts a change of pressure, and how many minutes between have no reading.
pub fn put_tendency(page: &mut Page<'_>, change: Number, absent: u64)
    ensures { Puts page.old page.new (tendency_text change.v absent) }
{
    put_change(page, change);
    page.bytes(b" hPa in three hours, ");
    put_minutes(page, absent);
    page.bytes(b" without a reading");
}

// Puts a wind.
pub fn put_wind(page: &mut Page<'_>, speed: u32, direction: u32)
    ensures { Puts page.old page.new (wind_text speed direction) }
{
    if speed == 0 {
        return page.bytes(b"calm");
    }
    put_tenths(page, speed as u64);
    page.bytes(b" m/s from ");
    page.natural(direction as u64);
    page.bytes(b"\xC2\xB0");
}

// Puts the three pressures of a humidity.
fn put_vapour(page: &mut Page<'_>, e: u32, saturation: u32, deficit: u32)
    ensures { Puts page.old page.new (vapour_text e saturation deficit) }
{
    page.bytes(b"vapour pressure ");
    put_hundredths(page, e as u64);
    page.bytes(b" hPa, saturation ");
    put_hundredths(page, saturation as u64);
    page.bytes(b" hPa, deficit ");
    put_hundredths(page, deficit as u64);
}

// Puts a humidity.
pub fn put_humidity(
    page: &mut Page<'_>,
    e: u32,
    saturation: u32,
    deficit: u32,
    relative: u32,
    dew: Kept,
)
    ensures { Puts page.old page.new (humidity_text e saturation deficit relative dew.v) }
{
    put_vapour(page, e, saturation, deficit);
    page.bytes(b" hPa, relative humidity ");
    page.natural(relative as u64);
    page.bytes(b" %, dew point ");
    put_tenths_of(page, dew.number());
    page.bytes(b" \xC2\xB0C");
}

// ---- readings

fn put_barometer(page: &mut Page<'_>, unit: u32, pressure: Number)
    ensures { Puts page.old page.new (barometer_text unit pressure.v) }
{
    put_tenths_of(page, pressure);
    match unit {
        0 => page.bytes(b" hPa"),
        _ => page.bytes(b" mm Hg"),
    }
}

fn put_wick(page: &mut Page<'_>, state: u32)
    ensures { Puts page.old page.new (wick_text state) }
{
    match state {
        0 => page.bytes(b"water on it"),
        1 => page.bytes(b"ice on it"),
        _ => page.bytes(b"state unknown"),
    }
}

// Puts a reading of a channel; its unit is looked at where the channel is the barometer's.
pub fn put_reading(page: &mut Page<'_>, channel: u32, unit: u32, first: Kept, second: u32)
    ensures { Puts page.old page.new (reading_text channel unit first.v second) }
{
    let figure = first.number();
    match channel {
        0 => put_barometer(page, unit, figure),
        2 => {
            put_tenths_of(page, figure);
            page.bytes(b" m/s, ");
            page.natural(second as u64);
            page.bytes(b"\xC2\xB0 from the bow");
        }
        3 => {
            put_tenths_of(page, figure);
            page.bytes(b" knots, course ");
            page.natural(second as u64);
            page.bytes(b"\xC2\xB0");
        }
        5 => {
            put_tenths_of(page, figure);
            page.bytes(b" \xC2\xB0C, ");
            put_wick(page, second);
        }
        _ => {
            put_tenths_of(page, figure);
            page.bytes(b" \xC2\xB0C");
        }
    }
}

// ---- refusals

fn put_heard(page: &mut Page<'_>, number: u32)
    ensures { Puts page.old page.new (heard_text number) }
{
    match number {
        1 => page.bytes(b"the message is not 16 bytes"),
        2 => page.bytes(b"the channel is above 5"),
        3 => page.bytes(b"a byte of the message that must be zero is not"),
        4 => page.bytes(b"the state of the wet bulb is above 2"),
        5 => page.bytes(b"the minute is above 16777215"),
        6 => page.bytes(b"a value is infinite or not a number"),
        7 => page.bytes(b"a value is outside its limits"),
        _ => page.bytes(b"the minute is that of the channel's newest reading"),
    }
}

fn put_other(page: &mut Page<'_>, number: u32)
    ensures { Puts page.old page.new (other_text number) }
{
    match number {
        9 => page.bytes(b"a setting is outside its limits"),
        10 => page.bytes(b"the barometer's certificate breaks its rules"),
        23 => page.bytes(b"a dial is above 9999, or the seconds are not 1 to 600"),
        24 => page.bytes(b"the rate is outside the anemometer's certificate, or there is none"),
        25 => page.bytes(b"the anemometer's certificate breaks its rules"),
        254 => page.bytes(b"there is no such record"),
        255 => page.bytes(b"the store was never opened"),
        _ => {
            page.bytes(b"no refusal has the number ");
            page.natural(number as u64);
        }
    }
}

fn put_asked(page: &mut Page<'_>, number: u32)
    ensures { Puts page.old page.new (asked_text number) }
{
    match number {
        13 => page.bytes(b"the wet bulb is above the dry bulb, with water on it"),
        14 => page.bytes(b"there are no three hours before the minute"),
        15 => page.bytes(b"the vapour pressure is below 0.19 hPa"),
        20 => page.bytes(b"the wet bulb is above 0.0 \xC2\xB0C, and not with water on it"),
        21 => page.bytes(
            b"the wet bulb's state is unknown, and the dry bulb not within -9.9 to 0.0 \xC2\xB0C",
        ),
        22 => page.bytes(b"the vapour pressure is above saturation over water at the dry bulb"),
        _ => put_other(page, number),
    }
}

fn put_channel(page: &mut Page<'_>, channel: u64)
    ensures { Puts page.old page.new (channel_text channel) }
{
    match channel {
        0 => page.bytes(b"the barometer"),
        1 => page.bytes(b"the wheelhouse thermometer"),
        2 => page.bytes(b"the apparent wind"),
        3 => page.bytes(b"the ship's motion"),
        4 => page.bytes(b"the dry bulb"),
        5 => page.bytes(b"the wet bulb"),
        _ => {
            page.bytes(b"channel ");
            page.natural(channel);
        }
    }
}

// Puts that a channel has no reading at a minute.
fn put_missing(page: &mut Page<'_>, channel: u64, minute: u64)
    ensures { Puts page.old page.new (channel_text channel ++ (letters " has no reading at minute " ++ decimal minute)) }
{
    put_channel(page, channel);
    page.bytes(b" has no reading at minute ");
    page.natural(minute);
}

// Puts by how many minutes a message is late.
fn put_late(page: &mut Page<'_>, late: u64)
    ensures { Puts page.old page.new (letters "the minute is " ++ (minutes late ++ letters " earlier than the channel's newest reading")) }
{
    page.bytes(b"the minute is ");
    put_minutes(page, late);
    page.bytes(b" earlier than the channel's newest reading");
}

// Puts words, a number, and words behind it.
fn put_around(page: &mut Page<'_>, before: &[u8], n: u64, after: &[u8])
    ensures { Puts page.old page.new (before.now ++ (decimal n ++ after.now)) }
{
    page.bytes(before);
    page.natural(n);
    page.bytes(after);
}

fn put_more(page: &mut Page<'_>, number: u32, first: u64, second: u64)
    ensures { Puts page.old page.new (more_text number first second) }
{
    match number {
        11 => put_missing(page, first, second),
        12 => put_around(
            page,
            b"the barometer at minute ",
            first,
            b" is outside its certificate",
        ),
        16 => put_around(
            page,
            b"record ",
            first,
            b", counted from 0, breaks the rules of the file, or is one too many",
        ),
        17 => put_around(
            page,
            b"the buffer is too short: ",
            first,
            b" bytes are needed",
        ),
        18 => {
            page.bytes(b"the file is broken at byte ");
            page.natural(first);
        }
        19 => put_late(page, first),
        _ => put_asked(page, number),
    }
}

// Puts a refusal by its number and what it also returns, in their order; what a number does not return is not looked at.
// (Refusals, channels, units and states are numbers here: C hands them over, and every number has its text.)
pub fn put_refusal(page: &mut Page<'_>, number: u32, first: u64, second: u64)
    ensures { Puts page.old page.new (refusal_text number first second) }
{
    match number {
        0 => page.bytes(b"nothing is refused"),
        1..=8 => put_heard(page, number),
        _ => put_more(page, number, first, second),
    }
}

// Records as they are handed over: a kind, a minute and five figures, seven words of 32 bits each. A kind that is none, and a figure that
// does not fit its bytes, make a record that breaks the file rules.
#![tactic(auto)]

ghost use Rattle.std.specs.Prelude.{◌≡◌, true, ◌≤◌, nat_abs, length};
ghost use Rattle.handed.specs.Handed.{half, octet, pressure_body, tendency_body, wind_body, humidity_body, body_of, record_of};
ghost use Rattle.handed.specs.Words.{AreWords, figures_in, record_at, records_in};

use number::{Kept, Number};
use watchfile::{BLANK, Body, Figures, Record};

// The words of a record.
pub const WORDS: usize = 7;

// ---- a record as it is handed over

// (Tried: `try_from` and Options, put together by a `match`. Writing a file of 48 records then costs twice as much as plain Rust; so it costs
// what plain Rust does.)
// Whether a number fits two bytes, or one.
fn is_half(n: Kept) -> bool
    ensures { result ≡ half n.v }
{
    n.number().within(Number { v: 0 }, Number { v: 65535 })
}

fn is_octet(n: Kept) -> bool
    ensures { result ≡ octet n.v }
{
    n.number().within(Number { v: 0 }, Number { v: 255 })
}

// The two bytes of a number that fits them, or the one.
fn half_of(n: Kept) -> u16
    requires { half n.v ≡ true }
    ensures { result ≡ nat_abs n.v }
{
    n.number().size() as u16
}

fn octet_of(n: Kept) -> u8
    requires { octet n.v ≡ true }
    ensures { result ≡ nat_abs n.v }
{
    n.number().size() as u8
}

// The bodies that a record's figures make, or one of its kind that no file may hold, where they do not fit it.
fn pressure_body(first: Kept) -> Body
    ensures { result ≡ pressure_body first.v }
{
    if is_half(first) {
        return Body::Pressure(half_of(first));
    }
    Body::Pressure(0)
}

fn tendency_body(first: Kept, second: Kept) -> Body
    ensures { result ≡ tendency_body first second.v }
{
    if is_octet(second) {
        return Body::Tendency {
            change: first,
            absent: octet_of(second),
        };
    }
    Body::Tendency {
        change: first,
        absent: 255,
    }
}

fn wind_body(first: Kept, second: Kept) -> Body
    ensures { result ≡ wind_body first.v second.v }
{
    if is_half(first) {
        if is_half(second) {
            return Body::Wind {
                speed: half_of(first),
                direction: half_of(second),
            };
        }
    }
    Body::Wind {
        speed: 0,
        direction: 1,
    }
}

fn humidity_body(first: Kept, second: Kept, third: Kept, fourth: Kept, fifth: Kept) -> Body
    ensures { result ≡ humidity_body first.v second.v third.v fourth.v fifth }
{
    if !is_half(first) {
        return Body::Humidity {
            e: 0,
            saturation: 0,
            deficit: 0,
            relative: 0,
            dew: fifth,
        };
    }
    if !is_half(second) {
        return Body::Humidity {
            e: 0,
            saturation: 0,
            deficit: 0,
            relative: 0,
            dew: fifth,
        };
    }
    if !is_half(third) {
        return Body::Humidity {
            e: 0,
            saturation: 0,
            deficit: 0,
            relative: 0,
            dew: fifth,
        };
    }
    if !is_octet(fourth) {
        return Body::Humidity {
            e: 0,
            saturation: 0,
            deficit: 0,
            relative: 0,
            dew: fifth,
        };
    }
    Body::Humidity {
        e: half_of(first),
        saturation: half_of(second),
        deficit: half_of(third),
        relative: octet_of(fourth),
        dew: fifth,
    }
}

// The body of a record, by its kind.
fn body_of(r: Figures) -> Body
    ensures { result ≡ body_of r }
{
    let first = r.first;
    let second = r.second;
    if r.kind == 1 {
        return pressure_body(first);
    }
    if r.kind == 2 {
        return tendency_body(first, second);
    }
    if r.kind == 3 {
        return wind_body(first, second);
    }
    if r.kind == 4 {
        let third = r.third;
        let fourth = r.fourth;
        let fifth = r.fifth;
        return humidity_body(first, second, third, fourth, fifth);
    }
    Body::Pressure(0)
}

// The record that figures make.
pub fn record_of(r: Figures) -> Record
    ensures { result ≡ record_of r }
{
    let body = body_of(r);
    Record {
        minute: r.minute,
        body,
    }
}

// ---- words

// The figures at the start of words.
fn figures_in(row: &[u32]) -> Figures
    requires { 7 ≤ length row.now }
    ensures { result ≡ figures_in row.now }
{
    Figures {
        kind: row[0],
        minute: row[1],
        first: octets::signed_word(row[2]),
        second: octets::signed_word(row[3]),
        third: octets::signed_word(row[4]),
        fourth: octets::signed_word(row[5]),
        fifth: octets::signed_word(row[6]),
    }
}

// ---- a record as words

fn pressure_words(minute: u32, pressure: u16) -> [u32; WORDS]
    ensures { AreWords (Body.Pressure pressure) minute result }
{
    [1, minute, pressure as u32, 0, 0, 0, 0]
}

fn tendency_words(minute: u32, change: Kept, absent: u8) -> [u32; WORDS]
    ensures { AreWords (Body.Tendency change absent) minute result }
{
    let first = octets::word_of(change);
    [2, minute, first, absent as u32, 0, 0, 0]
}

fn wind_words(minute: u32, speed: u16, direction: u16) -> [u32; WORDS]
    ensures { AreWords (Body.Wind speed direction) minute result }
{
    [3, minute, speed as u32, direction as u32, 0, 0, 0]
}

fn humidity_words(
    minute: u32,
    e: u16,
    saturation: u16,
    deficit: u16,
    relative: u8,
    dew: Kept,
) -> [u32; WORDS]
    ensures { AreWords (Body.Humidity e saturation deficit relative dew) minute result }
{
    let fifth = octets::word_of(dew);
    [
        4,
        minute,
        e as u32,
        saturation as u32,
        deficit as u32,
        relative as u32,
        fifth,
    ]
}

// The words of a record, from which it comes back.
pub fn words(r: Record) -> [u32; WORDS]
    ensures { AreWords r.body r.minute result }
{
    let body = r.body;
    match body {
        Body::Pressure(pressure) => pressure_words(r.minute, pressure),
        Body::Tendency { change, absent } => tendency_words(r.minute, change, absent),
        Body::Wind { speed, direction } => wind_words(r.minute, speed, direction),
        Body::Humidity {
            e,
            saturation,
            deficit,
            relative,
            dew,
        } => humidity_words(r.minute, e, saturation, deficit, relative, dew),
    }
}

// ---- words as records

// How many records words hold; of what is left behind the last, none is made.
pub fn count(words: &[u32]) -> usize
    ensures { result ≡ length (records_in words.now) }
{
    words.len() / WORDS
}

// The record at a place of the words that C hands over; a blank one where there are not so many.
pub fn record_at(words: &[u32], i: usize) -> Record
    ensures { result ≡ record_at words.now i }
{
    if count(words) <= i {
        return BLANK;
    }
    let at = WORDS * i;
    record_of(figures_in(&words[at..]))
}

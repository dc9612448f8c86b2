// Lists watch files, whole and damaged, each behind a line that says in words what it is.
#![tactic(auto)]

ghost use Rattle.std.specs.Prelude.{◌<◌};

use std::io;
use text::Page;

// The file of document 01.
const EXAMPLE: [u8; 15] = [
    0x57, 0x54, 1, 1, 2, 0, 12, 0, 0x18, 1, 0, 0, 0xEE, 0xFF, 179,
];

// A file of all four kinds: pressure 1013.3 at 100, tendency -1.8 with 179 absent at 280, wind 4.8 from 60 at 280, humidity at 281.
const FOUR: [u8; 54] = [
    0x57, 0x54, 1, 4, 1, 0, 36, 0, 100, 0, 0, 0, 2, 0, 38, 0, 0x18, 1, 0, 0, 3, 0, 41, 0, 0x18, 1,
    0, 0, 4, 0, 45, 0, 0x19, 1, 0, 0, 0x95, 0x27, 0xEE, 0xFF, 179, 48, 0, 60, 0, 0x56, 5, 0x1F, 9,
    0xC9, 3, 59, 116, 0,
];

// The eight bytes of each of its records, and in them the zero byte, the offset and the minute.
const FIRST: usize = 4;

const SECOND: usize = 12;

const THIRD: usize = 20;

const FOURTH: usize = 28;

const ZERO: usize = 1;

const OFFSET: usize = 2;

const MINUTE: usize = 4;

// The fields of its bodies.
const PRESSURE: usize = 36;

const CHANGE: usize = 38;

const ABSENT: usize = 40;

const SPEED: usize = 41;

const DIRECTION: usize = 43;

const E: usize = 45;

const SATURATION: usize = 47;

const DEFICIT: usize = 49;

const RELATIVE: usize = 51;

const DEW: usize = 52;

// The bytes of the longest file.
const LONGEST: usize = 820;

fn say(rt: &impl Print, text: &[u8]) -> io::Result<()> {
    rt.write_all(text)
}

// Says the first n bytes of a text.
fn say_first(rt: &impl Print, text: &[u8], n: usize) -> io::Result<()> {
    if n <= text.len() {
        say(rt, &text[..n])?;
    }
    Ok(())
}

// Says the listing of a file.
fn list(rt: &impl Print, file: &[u8]) -> io::Result<()> {
    let mut text = [0u8; listing::TEXT];
    match listing::list(file, &mut text) {
        Ok(n) => say_first(rt, &text, n),
        Err(_) => say(rt, b"no room\n"),
    }
}

// Says what a file is, and its listing.
fn show(rt: &impl Print, words: &[u8], file: &[u8]) -> io::Result<()> {
    say(rt, words)?;
    say(rt, b"\n")?;
    list(rt, file)
}

// The same of the first n bytes of a file.
fn show_first(rt: &impl Print, words: &[u8], file: &[u8], n: usize) -> io::Result<()> {
    if n <= file.len() {
        show(rt, words, &file[..n])?;
    }
    Ok(())
}

// Stores a byte, where the file reaches.
fn store(file: &mut [u8], at: usize, byte: u8) {
    if at < file.len() {
        file[at] = byte;
    }
}

// Puts bytes at a place of a file, as far as they have room.
fn put(file: &mut [u8], at: usize, bytes: &[u8]) {
    let mut page = Page { text: file, at };
    page.bytes(bytes);
}

// Shows the file of four kinds with another byte, and with another number in two bytes.
fn byte(rt: &impl Print, words: &[u8], at: usize, to: u8) -> io::Result<()> {
    let mut file = FOUR;
    store(&mut file, at, to);
    show(rt, words, &file)
}

fn number(rt: &impl Print, words: &[u8], at: usize, to: u16) -> io::Result<()> {
    let mut file = FOUR;
    let two = octets::in_two(to);
    put(&mut file, at, &two);
    show(rt, words, &file)
}

fn whole_files(rt: &impl Print) -> io::Result<()> {
    show(rt, b"the file of document 01", &EXAMPLE)?;
    show(rt, b"all four kinds, two of them at one minute", &FOUR)?;
    show(rt, b"no records", &[0x57, 0x54, 1, 0])
}

fn first_fields(rt: &impl Print) -> io::Result<()> {
    show(rt, b"the empty file", b"")?;
    show(rt, b"one byte", &[0x57])?;
    show(rt, b"two bytes, not the label", &[0x57, 0x55])?;
    byte(rt, b"the first byte of the label", 0, 0x56)?;
    byte(rt, b"the second byte of the label", 1, 0x55)?;
    byte(rt, b"version 2", 2, 2)?;
    byte(rt, b"a count of 49", 3, 49)?;
    byte(
        rt,
        b"a count one less, so that the first body would start earlier",
        3,
        3,
    )?;
    byte(
        rt,
        b"a count one more, so that the first body would start later",
        3,
        5,
    )
}

fn contents(rt: &impl Print) -> io::Result<()> {
    byte(rt, b"kind 0", FIRST, 0)?;
    byte(rt, b"kind 5", FIRST, 5)?;
    byte(rt, b"the byte that must be zero", FIRST + ZERO, 1)?;
    byte(rt, b"the first offset one more", FIRST + OFFSET, 37)?;
    byte(rt, b"the second offset one less", SECOND + OFFSET, 37)?;
    byte(rt, b"the fourth offset 256 more", FOURTH + OFFSET + 1, 1)?;
    number(rt, b"a tendency at minute 180", SECOND + MINUTE, 180)?;
    number(rt, b"a tendency at minute 179", SECOND + MINUTE, 179)?;
    byte(
        rt,
        b"a minute of 16777497, the last byte not zero",
        FOURTH + MINUTE + 3,
        1,
    )?;
    byte(
        rt,
        b"a minute of 16711961, the third byte 255",
        FOURTH + MINUTE + 2,
        255,
    )?;
    number(rt, b"a wind before the tendency", THIRD + MINUTE, 279)?;
    byte(rt, b"a second tendency at one minute", THIRD, 2)
}

// The tendency behind the wind of the same minute, and a minute of 16,777,215.
fn orders(rt: &impl Print) -> io::Result<()> {
    let mut file = FOUR;
    store(&mut file, SECOND, 3);
    store(&mut file, THIRD, 2);
    store(&mut file, THIRD + OFFSET, 42);
    show(rt, b"two records of one minute, the kinds falling", &file)?;
    let mut late = FOUR;
    store(&mut late, FOURTH + MINUTE, 255);
    store(&mut late, FOURTH + MINUTE + 1, 255);
    store(&mut late, FOURTH + MINUTE + 2, 255);
    show(rt, b"a minute of 16777215", &late)
}

fn pressures(rt: &impl Print) -> io::Result<()> {
    number(rt, b"a pressure of 799.9", PRESSURE, 7999)?;
    number(rt, b"a pressure of 800.0", PRESSURE, 8000)?;
    number(rt, b"a pressure of 1150.0", PRESSURE, 11500)?;
    number(rt, b"a pressure of 1150.1", PRESSURE, 11501)
}

// Below zero a change is 65536 less than its two bytes say.
fn tendencies(rt: &impl Print) -> io::Result<()> {
    number(rt, b"a change of -300.1", CHANGE, 65535 - 3000)?;
    number(rt, b"a change of -300.0", CHANGE, 65535 - 2999)?;
    number(rt, b"a change of 300.0", CHANGE, 3000)?;
    number(rt, b"a change of 300.1", CHANGE, 3001)?;
    byte(rt, b"0 minutes absent", ABSENT, 0)?;
    byte(rt, b"180 minutes absent", ABSENT, 180)
}

fn winds(rt: &impl Print) -> io::Result<()> {
    number(rt, b"a speed of 95.6", SPEED, 956)?;
    number(rt, b"a speed of 95.7", SPEED, 957)?;
    number(rt, b"a direction of 360", DIRECTION, 360)?;
    number(rt, b"a direction of 361", DIRECTION, 361)?;
    number(rt, b"a direction of 0 with a speed", DIRECTION, 0)?;
    number(rt, b"a direction in a calm", SPEED, 0)?;
    let mut file = FOUR;
    store(&mut file, SPEED, 0);
    store(&mut file, DIRECTION, 0);
    show(rt, b"a calm", &file)
}

fn humidities(rt: &impl Print) -> io::Result<()> {
    number(rt, b"e of 0.18", E, 18)?;
    number(rt, b"e above saturation", E, 2336)?;
    number(rt, b"saturation below e, wrong at e", SATURATION, 18)?;
    number(rt, b"saturation of 123.46", SATURATION, 12346)?;
    number(rt, b"the deficit one more", DEFICIT, 970)?;
    number(rt, b"the deficit one less", DEFICIT, 968)?;
    byte(rt, b"the relative humidity one more", RELATIVE, 60)?;
    byte(rt, b"the relative humidity one less", RELATIVE, 58)?;
    byte(rt, b"the dew point one more", DEW, 117)?;
    byte(rt, b"the dew point one less", DEW, 115)?;
    let mut file = FOUR;
    let two = octets::in_two(13000);
    put(&mut file, E, &two);
    put(&mut file, SATURATION, &two);
    show(
        rt,
        b"e and saturation of 130.00, wrong at saturation",
        &file,
    )
}

// Which fault comes first.
fn two_faults(rt: &impl Print) -> io::Result<()> {
    let mut cut = FOUR;
    store(&mut cut, E, 18);
    store(&mut cut, E + 1, 0);
    show_first(rt, b"e of 0.18, cut before saturation is whole", &cut, 48)?;
    show_first(rt, b"e of 0.18, cut when saturation is whole", &cut, 49)?;
    let mut file = FOUR;
    store(&mut file, PRESSURE, 0);
    store(&mut file, FOURTH + OFFSET, 46);
    show(rt, b"the first body and the fourth offset", &file)?;
    store(&mut file, 2, 2);
    show_first(rt, b"version 2, cut to 10 bytes", &file, 10)
}

// The file of four kinds cut to n bytes.
fn cut(rt: &impl Print, n: usize) -> io::Result<()> {
    let file = FOUR;
    print!(rt; "cut to {n}")?;
    show_first(rt, b" bytes", &file, n)
}

fn cuts(rt: &impl Print) -> io::Result<()> {
    for n in 0..54 {
        cut(rt, n)?;
    }
    Ok(())
}

fn one_byte_more(rt: &impl Print) -> io::Result<()> {
    let mut file = [0u8; 55];
    let four = FOUR;
    put(&mut file, 0, &four);
    show(rt, b"one byte more", &file)
}

// Stores the contents and the body of a humidity at minute 1000 + i as record i of 48.
fn store_humidity(file: &mut [u8], i: u16)
    requires { i < 48 }
{
    let at = 388 + 9 * i;
    let offset = octets::in_two(at);
    let minute = octets::in_two(1000 + i);
    put(
        file,
        4 + 8 * i as usize,
        &[4, 0, offset[0], offset[1], minute[0], minute[1], 0, 0],
    );
    put(file, at as usize, &[0x56, 5, 0x1F, 9, 0xC9, 3, 59, 116, 0]);
}

// Stores 48 humidities.
fn store_humidities(file: &mut [u8]) {
    for i in 0..48 {
        store_humidity(file, i);
    }
}

// The longest file, 48 humidities, and a byte behind it.
fn longest(rt: &impl Print) -> io::Result<()> {
    let mut file = [0u8; LONGEST + 1];
    put(&mut file, 0, &[0x57, 0x54, 1, 48]);
    store_humidities(&mut file);
    show_first(rt, b"48 records", &file, LONGEST)?;
    show(rt, b"48 records and a byte", &file)
}

fn main(rt: HostRuntime) -> io::Result<()> {
    whole_files(&rt)?;
    first_fields(&rt)?;
    contents(&rt)?;
    orders(&rt)?;
    pressures(&rt)?;
    tendencies(&rt)?;
    winds(&rt)?;
    humidities(&rt)?;
    two_faults(&rt)?;
    cuts(&rt)?;
    one_byte_more(&rt)?;
    longest(&rt)
}

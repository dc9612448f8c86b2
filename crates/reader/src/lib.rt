// The reader of a watch file: contents first, then each body from its own offset.
#![tactic(auto, using(crate::proofs::TestedLaws::tested))]

ghost use Rattle.std.specs.Prelude.{◌≡◌, true, false, ℕ, ◌+◌, ◌^◌, ◌<◌, ◌≤◌, ℤ, pos, length, get_or, MatchResult};
ghost use Rattle.number.specs.Refusal.{given};
ghost use Rattle.octets.specs.Bytes.{le16, le32};
ghost use Rattle.watchfile.specs.Rules.{kind_right, size_of};
ghost use Rattle.watchfile.specs.Format.{DewRule, kept, pressure_fields, tendency_fields, wind_fields, humidity_fields, body_fields, body_of, body_figures, start_of, reading};
ghost use Rattle.reader.specs.Read.{verdict_as, counted, record_at};
ghost use Rattle.reader.specs.Work.{BodyHas, RowFound, found_as, contents_of, bodies_of, place_of, first_of, second_of, third_of, fourth_of, fifth_of};

use number::Kept;
use watchfile::{Figures, NOTHING, RECORDS};

// 18: the place of the first wrong field, in the file or in the part of it that is read.
#[derive(Clone, Copy)]
pub struct Broken(pub usize);

// A row of the contents.
#[derive(Clone, Copy)]
struct Row {
    kind: u8,
    minute: u32,
}

// Where a record stands: its row, and the offset of its body.
#[derive(Clone, Copy)]
struct Place {
    row: Row,
    at: usize,
}

// The places of the head's fields.
const LABEL: usize = 0;

const VERSION: usize = 2;

const COUNT: usize = 3;

// The places of a row's fields, from its first byte.
const KIND: usize = 0;

const ZERO: usize = 1;

const OFFSET: usize = 2;

const MINUTE: usize = 4;

// The places of a body's fields, from its first byte: of any, of a pressure, a tendency, a wind and a humidity.
const FIRST: usize = 0;

const PRESSURE: usize = 0;

const CHANGE: usize = 0;

const ABSENT: usize = 2;

const SPEED: usize = 0;

const DIRECTION: usize = 2;

const E: usize = 0;

const SATURATION: usize = 2;

const DEFICIT: usize = 4;

const RELATIVE: usize = 6;

const DEW: usize = 7;

// The number in two bytes of s from place k on.
fn get16(s: &[u8], k: usize) -> u16
    requires { k + 2 ≤ length s.now }
    ensures { result ≡ le16 s.now k }
{
    octets::two(s[k], s[k + 1])
}

// The number in four bytes of s from place k on.
fn get32(s: &[u8], k: usize) -> u32
    requires { k + 4 ≤ length s.now }
    ensures { result ≡ le32 s.now k }
{
    octets::four(s[k], s[k + 1], s[k + 2], s[k + 3])
}

// Whether a part has its first n bytes: broken where it ends, if it has not.
fn whole(s: &[u8], n: usize) -> Result<(), Broken>
    ensures { MatchResult result (λ _. n ≤ length s.now) (λ b. (length s.now < n) × (b.0 ≡ length s.now)) }
{
    if s.len() < n {
        return Err(Broken(s.len()));
    }
    Ok(())
}

// Whether a field is right: broken at its first byte, if it is not.
fn right(is: bool, at: usize) -> Result<(), Broken>
    ensures { MatchResult result (λ _. is ≡ true) (λ b. (is ≡ false) × (b.0 ≡ at)) }
{
    if !is {
        return Err(Broken(at));
    }
    Ok(())
}

// A field of one byte, of two, or of four: the number in it, where the part has it whole.
fn one_at(s: &[u8], k: usize) -> Result<u8, Broken>
    requires { k + 1 < 2 ^ 64 }
    ensures { MatchResult result (λ n. (k + 1 ≤ length s.now) × (n ≡ get_or s.now k 0)) (λ b. (length s.now < k + 1) × (b.0 ≡ length s.now)) }
{
    whole(s, k + 1)?;
    Ok(s[k])
}

fn two_at(s: &[u8], k: usize) -> Result<u16, Broken>
    requires { k + 2 < 2 ^ 64 }
    ensures { MatchResult result (λ n. (k + 2 ≤ length s.now) × (n ≡ le16 s.now k)) (λ b. (length s.now < k + 2) × (b.0 ≡ length s.now)) }
{
    whole(s, k + 2)?;
    Ok(get16(s, k))
}

fn four_at(s: &[u8], k: usize) -> Result<u32, Broken>
    requires { k + 4 < 2 ^ 64 }
    ensures { MatchResult result (λ n. (k + 4 ≤ length s.now) × (n ≡ le32 s.now k)) (λ b. (length s.now < k + 4) × (b.0 ≡ length s.now)) }
{
    whole(s, k + 4)?;
    Ok(get32(s, k))
}

// Whether the fields of a pressure, at the start of s, are right: or the place of the first that is wrong.
fn test_pressure(s: &[u8]) -> Result<(), Broken>
    ensures { BodyHas (pressure_fields s.now) s.now result }
{
    let pressure = two_at(s, PRESSURE)?;
    right(watchfile::pressure_right(pressure), PRESSURE)
}

// The same of a tendency.
fn test_tendency(s: &[u8]) -> Result<(), Broken>
    ensures { BodyHas (tendency_fields s.now) s.now result }
{
    let change = octets::signed(two_at(s, CHANGE)?);
    right(watchfile::change_right(change), CHANGE)?;
    let absent = one_at(s, ABSENT)?;
    right(watchfile::absent_right(absent), ABSENT)
}

// The same of a wind.
fn test_wind(s: &[u8]) -> Result<(), Broken>
    ensures { BodyHas (wind_fields s.now) s.now result }
{
    let speed = two_at(s, SPEED)?;
    right(watchfile::speed_right(speed), SPEED)?;
    let direction = two_at(s, DIRECTION)?;
    right(watchfile::direction_right(speed, direction), DIRECTION)
}

// The same of a humidity: e is tested once saturation is whole, and before it.
fn test_humidity(s: &[u8]) -> Result<(), Broken>
    ensures { (rule : ℕ → ℤ) → DewRule rule → BodyHas (humidity_fields rule s.now) s.now result }
{
    let e = two_at(s, E)?;
    let saturation = two_at(s, SATURATION)?;
    right(watchfile::e_right(saturation, e), E)?;
    right(watchfile::saturation_right(saturation), SATURATION)?;
    let deficit = two_at(s, DEFICIT)?;
    right(watchfile::deficit_right(e, saturation, deficit), DEFICIT)?;
    let relative = one_at(s, RELATIVE)?;
    right(watchfile::relative_right(e, saturation, relative), RELATIVE)?;
    let dew = octets::signed(two_at(s, DEW)?);
    right(watchfile::dew_right(e, dew), DEW)
}

// The same of a body of a kind.
fn test_body(s: &[u8], kind: u8) -> Result<(), Broken>
    ensures { (rule : ℕ → ℤ) → DewRule rule → BodyHas (body_fields rule kind s.now) s.now result }
{
    match kind {
        1 => test_pressure(s),
        2 => test_tendency(s),
        3 => test_wind(s),
        _ => test_humidity(s),
    }
}

// The row at the start of s, of a record whose body has to start at `next`, behind a record of rank `before`.
fn read_row(s: &[u8], next: usize, before: u64) -> Result<Row, Broken>
    ensures { RowFound next before s.now result }
{
    let kind = one_at(s, KIND)?;
    right(watchfile::kind_right(kind), KIND)?;
    let zero = one_at(s, ZERO)?;
    right(zero == 0, ZERO)?;
    let offset = two_at(s, OFFSET)? as usize;
    right(offset == next, OFFSET)?;
    let minute = four_at(s, MINUTE)?;
    right(watchfile::minute_right(before, kind, minute), MINUTE)?;
    Ok(Row { kind, minute })
}

// Whether the contents are right: so many records, or the place of the first wrong field.
fn contents(file: &[u8], count: usize) -> Result<usize, Broken>
    requires { (4 ≤ length file.now) × (count ≤ 48) }
    ensures { found_as result ≡ contents_of file.now count }
{
    let mut next: usize = 4 + 8 * count;
    let mut before: u64 = 0;
    for i in 0..count {
        let start = 4 + 8 * i;
        match read_row(&file[start..], next, before) {
            Ok(row) => {
                next += watchfile::size_of(row.kind);
                before = watchfile::rank(row.minute, row.kind);
            }
            Err(Broken(k)) => return Err(Broken(start + k)),
        }
    }
    Ok(count)
}

// Whether the bodies are right, each at its own offset, where the contents are: so many records, or the place of the first wrong field.
fn bodies(file: &[u8], count: usize) -> Result<usize, Broken>
    requires { (count ≤ 48) × (contents_of file.now count ≡ given count) × (start_of count ≤ length file.now) }
    ensures { (rule : ℕ → ℤ) → DewRule rule → verdict_as result ≡ counted (bodies_of rule file.now count) }
{
    let mut end: usize = 4 + 8 * count;
    for i in 0..count {
        let row = &file[4 + 8 * i..];
        let kind = row[KIND];
        let at = get16(row, OFFSET) as usize;
        match test_body(&file[at..], kind) {
            Ok(()) => end = at + watchfile::size_of(kind),
            Err(Broken(k)) => return Err(Broken(at + k)),
        }
    }
    if end < file.len() {
        return Err(Broken(end));
    }
    Ok(count)
}

// Whether a file is good: how many records it has, or 18 with the place where it is broken.
#[tactic(auto, using(crate::proofs::ReadLaws::parts), unfolding(watchfile::specs::Format::reading))]
pub fn read(file: &[u8]) -> Result<usize, Broken>
    ensures { (rule : ℕ → ℤ) → DewRule rule → verdict_as result ≡ counted (reading rule file.now) }
{
    whole(file, 2)?;
    right(file[0] == 0x57 && file[1] == 0x54, LABEL)?;
    let version = one_at(file, VERSION)?;
    right(version == 1, VERSION)?;
    let count = one_at(file, COUNT)? as usize;
    right(count <= RECORDS, COUNT)?;
    contents(file, count)?;
    bodies(file, count)
}

// Where the record with an index stands: its row of the contents, and the body of its kind at the offset that the row names.
fn find(file: &[u8], i: usize) -> Option<Place>
    ensures { result ≡ place_of file.now i }
{
    if file.len() < 4 || i >= (file[COUNT] as usize) {
        return None;
    }
    let row = 4 + 8 * i;
    if file.len() < row + 8 {
        return None;
    }
    let head = &file[row..];
    let kind = head[KIND];
    if !watchfile::kind_right(kind) {
        return None;
    }
    let at = get16(head, OFFSET) as usize;
    if file.len() < at + watchfile::size_of(kind) {
        return None;
    }
    let minute = get32(head, MINUTE);
    Some(Place {
        row: Row { kind, minute },
        at,
    })
}

// ---- a record by its figures: a body at the start of s, and its minute

// A field without a sign, as a figure.
fn figure(n: u16) -> Kept
    ensures { result ≡ kept (pos n) }
{
    Kept { v: i32::from(n) }
}

// What stands for a field that a kind has not.
const NONE: Kept = Kept { v: 0 };

// The fields of a body by its kind, 0 where it has fewer. Of the first a change of pressure alone has a sign.
fn first_at(s: &[u8], kind: u8) -> Kept
    requires { 2 ≤ length s.now }
    ensures { result ≡ kept (first_of kind s.now) }
{
    let field = get16(s, FIRST);
    if kind == 2 {
        octets::signed(field)
    } else {
        figure(field)
    }
}

fn second_at(s: &[u8], kind: u8) -> Kept
    requires { size_of kind ≤ length s.now }
    ensures { result ≡ kept (second_of kind s.now) }
{
    match kind {
        0 | 1 => NONE,
        2 => figure(u16::from(s[ABSENT])),
        _ => figure(get16(s, DIRECTION)),
    }
}

fn third_at(s: &[u8], kind: u8) -> Kept
    requires { size_of kind ≤ length s.now }
    ensures { result ≡ kept (third_of kind s.now) }
{
    if kind == 4 {
        figure(get16(s, DEFICIT))
    } else {
        NONE
    }
}

fn fourth_at(s: &[u8], kind: u8) -> Kept
    requires { size_of kind ≤ length s.now }
    ensures { result ≡ kept (fourth_of kind s.now) }
{
    if kind == 4 {
        figure(u16::from(s[RELATIVE]))
    } else {
        NONE
    }
}

fn fifth_at(s: &[u8], kind: u8) -> Kept
    requires { size_of kind ≤ length s.now }
    ensures { result ≡ kept (fifth_of kind s.now) }
{
    if kind == 4 {
        octets::signed(get16(s, DEW))
    } else {
        NONE
    }
}

// A body of a kind by its figures.
fn figures_at(s: &[u8], kind: u8, minute: u32) -> Figures
    requires { (kind_right kind ≡ true) × (size_of kind ≤ length s.now) }
    ensures { result ≡ body_figures minute (body_of kind s.now) }
{
    Figures {
        kind: u32::from(kind),
        minute,
        first: first_at(s, kind),
        second: second_at(s, kind),
        third: third_at(s, kind),
        fourth: fourth_at(s, kind),
        fifth: fifth_at(s, kind),
    }
}

// The record with an index, counted from 0: of a good file its i-th, of any bytes what stands there. All is 0 where nothing does.
pub fn record_at(file: &[u8], i: usize) -> Figures
    ensures { result ≡ record_at file.now i }
{
    match find(file, i) {
        None => NOTHING,
        Some(p) => figures_at(&file[p.at..], p.row.kind, p.row.minute),
    }
}

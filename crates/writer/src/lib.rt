// The writer of watch files.
#![tactic(auto)]

ghost use Rattle.std.specs.Prelude.{◌≡◌, [], ◌∷◌, ◌++◌, ℕ, ◌+◌, ◌*◌, ◌≤◌, ℤ, length, take};
ghost use Rattle.std.proofs.lemmas.List.Edits.{sets};
ghost use Rattle.octets.specs.Bytes.{bytes16, bytes32};
ghost use Rattle.watchfile.specs.Rules.{size_of};
ghost use Rattle.watchfile.specs.Format.{DewRule, kind_of, body_bytes, rows_bytes, bodies_bytes, start_of};
ghost use Rattle.handed.specs.Words.{records_in};
ghost use Rattle.writer.specs.Write.{offered, WroteWords, Checks};

use number::Kept;
use watchfile::{Body, RECORDS};

// Why a write is refused.
#[derive(Clone, Copy)]
pub enum WriteRefusal {
    // 16: the index of the first record that breaks the rules, or of the 49th
    BreaksRules(usize),
    // 17: the bytes needed
    TooShort(usize),
}

// Puts the two bytes of n at a place.
fn put16(part: &mut [u8], at: usize, n: u16)
    requires { at + 2 ≤ length part.old }
    ensures { part.new ≡ sets part.old at (bytes16 n) }
{
    part[at..at + 2].copy_from_slice(&octets::in_two(n));
}

// Puts the four bytes of n at a place.
fn put32(part: &mut [u8], at: usize, n: u32)
    requires { at + 4 ≤ length part.old }
    ensures { part.new ≡ sets part.old at (bytes32 n) }
{
    part[at..at + 4].copy_from_slice(&octets::in_four(n));
}

// Writes a pressure.
fn write_pressure(part: &mut [u8], pressure: u16)
    requires { 2 ≤ length part.old }
    ensures { part.new ≡ sets part.old 0 (body_bytes (Body.Pressure pressure)) }
{
    put16(part, 0, pressure);
}

// Writes a tendency.
fn write_tendency(part: &mut [u8], change: Kept, absent: u8)
    requires { 3 ≤ length part.old }
    ensures { part.new ≡ sets part.old 0 (body_bytes (Body.Tendency change absent)) }
{
    put16(part, 0, octets::unsigned(change));
    part[2] = absent;
}

// Writes a wind.
fn write_wind(part: &mut [u8], speed: u16, direction: u16)
    requires { 4 ≤ length part.old }
    ensures { part.new ≡ sets part.old 0 (body_bytes (Body.Wind speed direction)) }
{
    put16(part, 0, speed);
    put16(part, 2, direction);
}

// Writes a humidity.
fn write_humidity(part: &mut [u8], e: u16, saturation: u16, deficit: u16, relative: u8, dew: Kept)
    requires { 9 ≤ length part.old }
    ensures { part.new ≡ sets part.old 0 (body_bytes (Body.Humidity e saturation deficit relative dew)) }
{
    put16(part, 0, e);
    put16(part, 2, saturation);
    put16(part, 4, deficit);
    part[6] = relative;
    put16(part, 7, octets::unsigned(dew));
}

// Writes a body at the start of the part of the buffer that is lent from its offset on.
fn write_body(part: &mut [u8], body: Body)
    requires { size_of (kind_of body) ≤ length part.old }
    ensures { part.new ≡ sets part.old 0 (body_bytes body) }
{
    match body {
        Body::Pressure(pressure) => write_pressure(part, pressure),
        Body::Tendency { change, absent } => write_tendency(part, change, absent),
        Body::Wind { speed, direction } => write_wind(part, speed, direction),
        Body::Humidity {
            e,
            saturation,
            deficit,
            relative,
            dew,
        } => write_humidity(part, e, saturation, deficit, relative, dew),
    }
}

// Writes a record's eight bytes of the contents: kind, zero, the offset of its body, minute.
fn write_row(part: &mut [u8], kind: u8, offset: u16, minute: u32)
    requires { 8 ≤ length part.old }
    ensures { part.new ≡ sets part.old 0 (kind ∷ 0 ∷ (bytes16 offset ++ bytes32 minute)) }
{
    part[0] = kind;
    part[1] = 0;
    put16(part, 2, offset);
    put32(part, 4, minute);
}

// Writes the label, the version and the count.
fn write_head(buffer: &mut [u8], count: usize)
    requires { (4 ≤ length buffer.old) × (count ≤ 48) }
    ensures { buffer.new ≡ sets buffer.old 0 (0x57 ∷ 0x54 ∷ 1 ∷ count ∷ []) }
{
    buffer[0] = 0x57;
    buffer[1] = 0x54;
    buffer[2] = 1;
    buffer[3] = count as u8;
}

// Writes each record: its row of the contents, and its body straight into the buffer behind the contents.
fn write_records(buffer: &mut [u8], records: &[u32], count: usize)
    requires { (length (records_in records.now) ≡ count) × (start_of count + length (bodies_bytes (take count (offered records.now))) ≤ length buffer.old) × (count ≤ 48) }
    ensures { buffer.new ≡ sets (sets buffer.old 4 (rows_bytes (take count (offered records.now)) (start_of count))) (start_of count) (bodies_bytes (take count (offered records.now))) }
{
    let mut at: usize = 4 + 8 * count;
    for i in 0..count {
        let r = handed::record_at(records, i);
        let body = r.body;
        let kind = body.kind();
        write_row(&mut buffer[4 + 8 * i..], kind, at as u16, r.minute);
        write_body(&mut buffer[at..], body);
        at += watchfile::size_of(kind);
    }
}

// The bytes that the file of the records needs, or 16: the first record that may not be written.
fn check(records: &[u32], count: usize) -> Result<usize, WriteRefusal>
    requires { length (records_in records.now) ≡ count }
    ensures { Checks (offered records.now) count result }
{
    let mut before: u64 = 0;
    let mut size: usize = 4;
    for i in 0..count {
        if RECORDS <= i {
            return Err(WriteRefusal::BreaksRules(RECORDS));
        }
        let r = handed::record_at(records, i);
        if !watchfile::record_right(before, r) {
            return Err(WriteRefusal::BreaksRules(i));
        }
        let body = r.body;
        let kind = body.kind();
        before = watchfile::rank(r.minute, kind);
        size += 8 + watchfile::size_of(kind);
    }
    Ok(size)
}

// Writes the records that words hold as a watch file into the lent buffer, or gives refusal 16 or 17 and leaves every byte.
pub fn write(buffer: &mut [u8], records: &[u32]) -> Result<usize, WriteRefusal>
    ensures { (rule : ℕ → ℤ) → DewRule rule → WroteWords rule records.now buffer.old buffer.new result }
{
    let count = handed::count(records);
    let bytes = check(records, count)?;
    if buffer.len() < bytes {
        return Err(WriteRefusal::TooShort(bytes));
    }
    write_head(buffer, count);
    write_records(buffer, records, count);
    Ok(bytes)
}

// The station's answers as lines of text. Each public function puts one line on a page.
#![tactic(auto)]

ghost use Rattle.std.specs.Prelude.{[], ◌∷◌, ◌++◌, ◌≤◌, length, Ok};
ghost use Rattle.station.specs.Told.{refusal_of};
ghost use Rattle.text.specs.Letters.{letters};
ghost use Rattle.text.specs.Text.{field, end, Puts};
ghost use Rattle.answer.specs.Answer.{fields, refused_line, number_line, opening_line, heard_line, hearing_line, noting_line, pressure_line, tendency_line, wind_line, humidity_fields, humidity_line, file_line, written_line};

use humidity::HumidityFigures;
use quantity::Hectopascals;
use settings::SettingsRefusal;
use station::{PressureTendency, QuestionRefusal, Refused};
use store::HearingRefusal;
use text::Page;
use wind::Wind;
use writer::WriteRefusal;

// ---- refusals

// Puts numbers, each behind a space.
fn put_fields(page: &mut Page<'_>, numbers: &[u64])
    requires { page.old.at ≤ length page.old.text.now }
    ensures { Puts page.old page.new (fields numbers.now) }
{
    for n in numbers {
        page.field(*n);
    }
}

// Puts the line of a refusal: its number, and behind it what it also returns.
fn put_refusal(page: &mut Page<'_>, numbers: &[u64])
    ensures { Puts page.old page.new (letters "refused" ++ (fields numbers.now ++ end)) }
{
    page.bytes(b"refused");
    put_fields(page, numbers);
    page.byte(b'\n');
}

// Puts the line of a question's refusal.
fn put_question_refusal(page: &mut Page<'_>, why: QuestionRefusal)
    ensures { Puts page.old page.new (refused_line (refusal_of why)) }
{
    match station::number(why) {
        Refused::Plain(n) => put_refusal(page, &[n as u64]),
        Refused::OfMinute(n, minute) => put_refusal(page, &[n as u64, minute.0 as u64]),
        Refused::OfReading(n, channel, minute) => {
            put_refusal(page, &[n as u64, channel as u64, minute.0 as u64])
        }
    }
}

// ---- opening and hearing

// Puts a word where nothing is refused, number 0, or the refusal of this number.
fn put_word(page: &mut Page<'_>, word: &[u8], number: u32)
    ensures { Puts page.old page.new (number_line word.now number) }
{
    if number == 0 {
        page.bytes(word);
        return page.byte(b'\n');
    }
    put_refusal(page, &[number as u64]);
}

// Puts `open`, or the refusal.
pub fn put_opening(page: &mut Page<'_>, r: Result<(), SettingsRefusal>)
    ensures { Puts page.old page.new (opening_line r) }
{
    put_word(page, b"open", settings::number(r));
}

// Puts a word where it was heard, or the refusal. Behind 19 stands how many minutes late it was, behind 11 the channel of the course and
// the minute.
fn put_heard(page: &mut Page<'_>, word: &[u8], r: Result<(), HearingRefusal>)
    ensures { Puts page.old page.new (heard_line word.now r) }
{
    let n = store::number(r);
    match r {
        Err(HearingRefusal::Late(minutes)) => put_refusal(page, &[n as u64, minutes]),
        Err(HearingRefusal::NoCourse(minute)) => put_refusal(page, &[n as u64, 3, minute.0 as u64]),
        _ => put_word(page, word, n),
    }
}

// Puts `heard`, or why the message is refused.
pub fn put_hearing(page: &mut Page<'_>, r: Result<(), HearingRefusal>)
    ensures { Puts page.old page.new (hearing_line r) }
{
    put_heard(page, b"heard", r);
}

// Puts `noted`, or why the entry is refused.
pub fn put_noting(page: &mut Page<'_>, r: Result<(), HearingRefusal>)
    ensures { Puts page.old page.new (noting_line r) }
{
    put_heard(page, b"noted", r);
}

// ---- the four questions

// Puts the letter of an answer, and the minute.
fn put_head(page: &mut Page<'_>, letter: u8, minute: u32)
    ensures { Puts page.old page.new ((letter ∷ []) ++ field minute) }
{
    page.byte(letter);
    page.field(minute as u64);
}

// Puts the line of a pressure.
fn put_sea_level(page: &mut Page<'_>, minute: u32, p: Hectopascals)
    ensures { Puts page.old page.new (pressure_line minute (Ok p)) }
{
    put_head(page, b'P', minute);
    page.signed(p.0);
    page.byte(b'\n');
}

// Puts the pressure at sea level, or the refusal.
pub fn put_pressure(page: &mut Page<'_>, minute: u32, r: Result<Hectopascals, QuestionRefusal>)
    ensures { Puts page.old page.new (pressure_line minute r) }
{
    match r {
        Ok(p) => put_sea_level(page, minute, p),
        Err(why) => put_question_refusal(page, why),
    }
}

// Puts the line of a change of pressure.
fn put_change(page: &mut Page<'_>, minute: u32, t: PressureTendency)
    ensures { Puts page.old page.new (tendency_line minute (Ok t)) }
{
    put_head(page, b'T', minute);
    page.signed(t.change.0);
    page.field(t.absent);
    page.byte(b'\n');
}

// Puts the tendency, or the refusal.
pub fn put_tendency(page: &mut Page<'_>, minute: u32, r: Result<PressureTendency, QuestionRefusal>)
    ensures { Puts page.old page.new (tendency_line minute r) }
{
    match r {
        Ok(t) => put_change(page, minute, t),
        Err(why) => put_question_refusal(page, why),
    }
}

// Puts the line of a true wind.
fn put_true_wind(page: &mut Page<'_>, minute: u32, w: Wind)
    ensures { Puts page.old page.new (wind_line minute (Ok w)) }
{
    put_head(page, b'W', minute);
    page.field(w.speed.0 as u64);
    page.field(w.direction.0 as u64);
    page.byte(b'\n');
}

// Puts the true wind, or the refusal.
pub fn put_wind(page: &mut Page<'_>, minute: u32, r: Result<Wind, QuestionRefusal>)
    ensures { Puts page.old page.new (wind_line minute r) }
{
    match r {
        Ok(w) => put_true_wind(page, minute, w),
        Err(why) => put_question_refusal(page, why),
    }
}

// Puts the figures of a humidity, and the end of the line.
fn put_moisture(page: &mut Page<'_>, h: HumidityFigures)
    ensures { Puts page.old page.new (humidity_fields h) }
{
    page.field(h.e.0 as u64);
    page.field(h.saturation.0 as u64);
    page.field(h.deficit.0 as u64);
    page.field(h.relative as u64);
    page.signed(h.dew.0.number());
    page.byte(b'\n');
}

// Puts the line of a humidity.
fn put_figures(page: &mut Page<'_>, minute: u32, h: HumidityFigures)
    ensures { Puts page.old page.new (humidity_line minute (Ok h)) }
{
    put_head(page, b'H', minute);
    put_moisture(page, h);
}

// Puts the humidity, or the refusal.
pub fn put_humidity(page: &mut Page<'_>, minute: u32, r: Result<HumidityFigures, QuestionRefusal>)
    ensures { Puts page.old page.new (humidity_line minute r) }
{
    match r {
        Ok(h) => put_figures(page, minute, h),
        Err(why) => put_question_refusal(page, why),
    }
}

// ---- files

// Puts the line of a file.
fn put_file(page: &mut Page<'_>, file: &[u8])
    ensures { Puts page.old page.new (file_line file.now) }
{
    page.bytes(b"file ");
    hexadecimal::put_hex(page, file);
    page.byte(b'\n');
}

// Puts the bytes of a file where it was written, or the refusal. `file` is what was written.
pub fn put_written(page: &mut Page<'_>, r: Result<usize, WriteRefusal>, file: &[u8])
    ensures { Puts page.old page.new (written_line file.now r) }
{
    match r {
        Ok(_) => put_file(page, file),
        Err(WriteRefusal::BreaksRules(index)) => put_refusal(page, &[16, index as u64]),
        Err(WriteRefusal::TooShort(needed)) => put_refusal(page, &[17, needed as u64]),
    }
}

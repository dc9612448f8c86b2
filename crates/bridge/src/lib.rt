// What ships' software calls besides: settings read back, messages by the many, what is kept, answers as records, records in a file, and
// sentences. `bridge_c` exports it as a second object of the static library, so that `zhitomrak_c` beside it is compiled as if it were
// alone.
// Any block, bytes, numbers and room get an answer. Two numbers are none of the documents': 255, the block was never opened; 254, there is
// no such record to take out.
#![tactic(auto)]

ghost use Rattle.std.specs.Prelude.{◌≡◌, ℕ, ℤ};
ghost use Rattle.spoken.specs.Refusals.{refusal_text};
ghost use Rattle.desk.specs.Counting.{messages, HearsAll};
ghost use Rattle.watchfile.specs.Format.{DewRule};
ghost use Rattle.kept.specs.Kept.{newest_in, newest_of, reading_in, reading_of, Marks};
ghost use Rattle.entered.specs.Entered.{RecordedBy};
ghost use Rattle.bridge.specs.Calls.{SettingsAs, PlacedAs, TakenAs};
ghost use Rattle.bridge.specs.Sentences.{refused_text, pressure_said, tendency_said, wind_said, humidity_said, reading_said, Says};

use block::{NO_STORE, Store};
use desk::{Counts, NUMBERS};
use entered::Words;
use filed::PlaceTold;
use kept::{NewestTold, ReadingTold};
use sheet::Sheet;
use spoken::SENTENCE;
use text::Page;
use told::{HumidityTold, PressureTold, Refusal, TendencyTold, WindTold};

// ---- settings and messages

// Puts the settings that a store was opened with into the lent sheet: 0; or 255, and the sheet stays as it was.
pub fn zhitomrak_settings_of(store: &Store, settings: &mut Sheet) -> u32
    ensures { SettingsAs store.entry.now store.exit.now settings.old settings.new result }
{
    if !block::is_store(store) {
        return NO_STORE;
    }
    sheet::read(store, settings);
    0
}

// Cuts the bytes into messages of 16 and hears each, in order, and adds what each came to to the count of its number; the largest count
// stays. What is left of a message at the end is heard too, and refused 1.
pub fn zhitomrak_hear_all(store: &mut Store, bytes: &[u8], counts: &mut [u64; NUMBERS])
    ensures { HearsAll store.old store.new (messages bytes.now) counts.old counts.new }
{
    let told = desk::hear_all(store, bytes, Counts { of: *counts });
    let after = told.of;
    *counts = after;
}

// ---- what is kept

// The newest minute of a channel; or 2, or 11 where nothing is heard of it yet.
pub fn zhitomrak_newest(store: &Store, channel: u32) -> NewestTold
    ensures { (result ≡ newest_in (newest_of store.now channel)) × (store.exit.now ≡ store.entry.now) }
{
    kept::newest(store, channel)
}

// The reading that is kept of a channel's minute; or 2, 5 or 11.
pub fn zhitomrak_reading(store: &Store, channel: u32, minute: u32) -> ReadingTold
    ensures { (result ≡ reading_in (reading_of store.now channel minute)) × (store.exit.now ≡ store.entry.now) }
{
    kept::reading(store, channel, minute)
}

// Which minutes of a stretch have a reading: 1, else 0, in a byte for each from the first on. Or 2, and every byte stays.
pub fn zhitomrak_stretch(store: &Store, channel: u32, first: u32, minutes: &mut [u8]) -> u32
    ensures { Marks store.now channel first minutes.old minutes.new result × (store.exit.now ≡ store.entry.now) }
{
    kept::stretch(store, channel, first, minutes)
}

// ---- watch files

// Asks the question of a kind, and puts its answer's record into the lent words; or the question's refusal, or 16, and the words stay.
pub fn zhitomrak_record_of(store: &Store, kind: u32, minute: u32, words: &mut Words) -> Refusal
    ensures { RecordedBy kind store.now minute words.old words.new result × (store.exit.now ≡ store.entry.now) }
{
    entered::record(store, kind, minute, words)
}

// Puts a record in its place in the watch file that the first `size` bytes of the lent buffer are; one of the same minute and kind is
// replaced. Or 18 with the place where that file is broken, 16 with the index of the record in the new one, or of the 49th, or 17 with
// the bytes needed, and every byte stays.
pub fn zhitomrak_place(buffer: &mut [u8], size: usize, words: &Words) -> PlaceTold
    ensures { (rule : ℕ → ℤ) → DewRule rule → PlacedAs rule size words.now buffer.old buffer.new result }
{
    filed::place_told(watchlog::place(buffer, size, handed::record_at(words, 0)))
}

// Takes the record of a minute and a kind out of that file. Or 18 with the place, or 254 where there is no such record, and every byte
// stays.
pub fn zhitomrak_take_out(buffer: &mut [u8], size: usize, kind: u32, minute: u32) -> PlaceTold
    ensures { (rule : ℕ → ℤ) → DewRule rule → TakenAs rule size kind minute buffer.old buffer.new result }
{
    filed::place_told(watchlog::take_out(buffer, size, minute, kind))
}

// ---- what people read: a sentence in the lent bytes, with zeros behind it; its length

// A refusal, by its number and what it also returns, in their order. (Every refusal is said here, on a page that is made here: one that came
// from elsewhere would be looked up in memory for each byte.)
pub fn zhitomrak_say_refusal(
    number: u32,
    first: u64,
    second: u64,
    text: &mut [u8; SENTENCE],
) -> usize
    ensures { Says (refusal_text number first second) text.new result }
{
    *text = [0u8; SENTENCE];
    let mut page = Page::new(text);
    spoken::put_refusal(&mut page, number, first, second);
    page.at
}

// Says why a question is refused.
#[tactic(auto, unfolding(crate::specs::Sentences::refused_text))]
fn say_refused(refusal: Refusal, text: &mut [u8; SENTENCE]) -> usize
    ensures { Says (refused_text refusal) text.new result }
{
    let number = refusal.number;
    let minute = refusal.minute as u64;
    if number == 11 {
        zhitomrak_say_refusal(number, refusal.channel as u64, minute, text)
    } else {
        zhitomrak_say_refusal(number, minute, 0, text)
    }
}

// A pressure, or why there is none.
pub fn zhitomrak_say_pressure(told: PressureTold, text: &mut [u8; SENTENCE]) -> usize
    ensures { Says (pressure_said told) text.new result }
{
    if told.refusal.number != 0 {
        return say_refused(told.refusal, text);
    }
    *text = [0u8; SENTENCE];
    let mut page = Page::new(text);
    spoken::put_pressure(&mut page, told.pressure);
    page.at
}

// A tendency, or why there is none.
pub fn zhitomrak_say_tendency(told: TendencyTold, text: &mut [u8; SENTENCE]) -> usize
    ensures { Says (tendency_said told) text.new result }
{
    if told.refusal.number != 0 {
        return say_refused(told.refusal, text);
    }
    *text = [0u8; SENTENCE];
    let mut page = Page::new(text);
    spoken::put_tendency(&mut page, told.change, told.absent);
    page.at
}

// A wind, or why there is none.
pub fn zhitomrak_say_wind(told: WindTold, text: &mut [u8; SENTENCE]) -> usize
    ensures { Says (wind_said told) text.new result }
{
    if told.refusal.number != 0 {
        return say_refused(told.refusal, text);
    }
    *text = [0u8; SENTENCE];
    let mut page = Page::new(text);
    spoken::put_wind(&mut page, told.speed, told.direction);
    page.at
}

// A humidity, or why there is none.
pub fn zhitomrak_say_humidity(told: HumidityTold, text: &mut [u8; SENTENCE]) -> usize
    ensures { Says (humidity_said told) text.new result }
{
    if told.refusal.number != 0 {
        return say_refused(told.refusal, text);
    }
    *text = [0u8; SENTENCE];
    let mut page = Page::new(text);
    spoken::put_humidity(
        &mut page,
        told.e,
        told.saturation,
        told.deficit,
        told.relative,
        told.dew,
    );
    page.at
}

// A reading, or why there is none.
pub fn zhitomrak_say_reading(told: ReadingTold, text: &mut [u8; SENTENCE]) -> usize
    ensures { Says (reading_said told) text.new result }
{
    if told.refusal.number != 0 {
        return say_refused(told.refusal, text);
    }
    *text = [0u8; SENTENCE];
    let mut page = Page::new(text);
    spoken::put_reading(&mut page, told.channel, told.unit, told.first, told.second);
    page.at
}

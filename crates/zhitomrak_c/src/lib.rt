// The first object of the static library for C: each function of `zhitomrak`, under its own name and with its own clauses.
#![tactic(auto)]

ghost use Rattle.std.specs.Prelude.{◌≡◌, ℕ, ℤ};
ghost use Rattle.station.specs.Questions as asked;
ghost use Rattle.watchfile.specs.Format.{DewRule, reading};
ghost use Rattle.reader.specs.Read.{counted, record_at};
ghost use Rattle.listing.specs.Listing.{listing_of};
ghost use Rattle.filed.specs.Files.{file_in};
ghost use Rattle.zhitomrak.specs.Calls.{OpenedAs, HeardAs, NotedAs, AnsweredAs, WroteAs, ListedAs};

use anemometer::Note;
use block::Store;
use filed::{FileTold, ListTold, WriteTold};
use sheet::Sheet;
use told::{HearTold, HumidityTold, NoteTold, PressureTold, TendencyTold, WindTold};
use watchfile::Figures;

// The version that this library is.
#[unsafe(no_mangle)]
pub extern "C" fn zhitomrak_version() -> u32
    ensures { result ≡ 100 }
{
    zhitomrak::zhitomrak_version()
}

// ---- opening and hearing

// Opens a store in the block with the settings of a sheet: 0, and nothing is heard yet; or 9, 10 or 25, and the block stays as it was,
// opened before or not. A unit that is neither 0 nor 1 is 9.
#[unsafe(no_mangle)]
pub extern "C" fn zhitomrak_open(store: &mut Store, settings: &Sheet) -> u32
    ensures { OpenedAs store.old store.new settings.now result }
{
    zhitomrak::zhitomrak_open(store, settings)
}

// Hears a message: 0, and it is kept; or 1 to 8, or 19 with the minutes that it is late, and the block stays as it was. So does one
// that was never opened: 255.
#[unsafe(no_mangle)]
pub extern "C" fn zhitomrak_hear(store: &mut Store, message: &[u8]) -> HearTold
    ensures { HeardAs store.old store.new message.now result }
{
    zhitomrak::zhitomrak_hear(store, message)
}

// Hears an entry of the hand anemometer: 0, and it is kept; or 5, 7, 8, 19 with the minutes that it is late, 23, 11 with channel and
// minute of the missing course, or 24, and the block stays as it was. So does one that was never opened: 255.
#[unsafe(no_mangle)]
pub extern "C" fn zhitomrak_note(store: &mut Store, note: Note) -> NoteTold
    ensures { NotedAs store.old store.new note result }
{
    zhitomrak::zhitomrak_note(store, note)
}

// ---- questions: of a block that was never opened the answer is 255

// The pressure at sea level at a minute, in tenths of hPa; refusals 5, 11 and 12.
#[unsafe(no_mangle)]
pub extern "C" fn zhitomrak_pressure(store: &Store, minute: u32) -> PressureTold
    ensures { AnsweredAs asked.pressure store.entry.now store.exit.now minute result }
{
    zhitomrak::zhitomrak_pressure(store, minute)
}

// The change of that pressure in three hours, in tenths of hPa, and how many of the 179 barometer minutes between are absent;
// refusals 5, 14, 11 and 12.
#[unsafe(no_mangle)]
pub extern "C" fn zhitomrak_tendency(store: &Store, minute: u32) -> TendencyTold
    ensures { AnsweredAs asked.tendency store.entry.now store.exit.now minute result }
{
    zhitomrak::zhitomrak_tendency(store, minute)
}

// The true wind at a minute: speed in tenths of m/s, and the direction it comes from, 1 to 360 or 0 in a calm; refusals 5 and 11.
#[unsafe(no_mangle)]
pub extern "C" fn zhitomrak_wind(store: &Store, minute: u32) -> WindTold
    ensures { AnsweredAs asked.wind store.entry.now store.exit.now minute result }
{
    zhitomrak::zhitomrak_wind(store, minute)
}

// Humidity at a minute: vapour pressure, saturation and deficit in hundredths of hPa, relative humidity in percent, dew point in
// tenths of °C; refusals 5, 11, 12, 13, 20, 21, 22 and 15. (7 only of a block that has a store's mark and that no opening made.)
#[unsafe(no_mangle)]
pub extern "C" fn zhitomrak_humidity(store: &Store, minute: u32) -> HumidityTold
    ensures { AnsweredAs asked.humidity store.entry.now store.exit.now minute result }
{
    zhitomrak::zhitomrak_humidity(store, minute)
}

// ---- watch files

// Reads a watch file: how many records it has, or 18 with the place where it is broken.
#[unsafe(no_mangle)]
pub extern "C" fn zhitomrak_read(file: &[u8]) -> FileTold
    ensures { (rule : ℕ → ℤ) → DewRule rule → result ≡ file_in (counted (reading rule file.now)) }
{
    zhitomrak::zhitomrak_read(file)
}

// The record of a good file with this index, counted from 0; of any bytes what stands there. Where there is none it is all zeros.
#[unsafe(no_mangle)]
pub extern "C" fn zhitomrak_record_at(file: &[u8], index: usize) -> Figures
    ensures { result ≡ record_at file.now index }
{
    zhitomrak::zhitomrak_record_at(file, index)
}

// Writes records, lent as words, as a watch file into the lent buffer; or 16 with the index of the first that breaks the rules (or of
// the 49th), or 17 with the bytes needed, and every byte stays. A kind that is none, and a field that does not fit its bytes, break the
// rules.
#[unsafe(no_mangle)]
pub extern "C" fn zhitomrak_write_words(buffer: &mut [u8], records: &[u32]) -> WriteTold
    ensures { (rule : ℕ → ℤ) → DewRule rule → WroteAs rule records.now buffer.old buffer.new result }
{
    zhitomrak::zhitomrak_write_words(buffer, records)
}

// Puts the listing of a watch file at the start of the lent bytes, and says how long it is; or 17 with the bytes needed, and every
// byte stays. A broken file is listed too, as document 01 says.
#[unsafe(no_mangle)]
pub extern "C" fn zhitomrak_list(file: &[u8], text: &mut [u8]) -> ListTold
    ensures { (rule : ℕ → ℤ) → DewRule rule → ListedAs (listing_of (reading rule file.now)) text.old text.new result }
{
    zhitomrak::zhitomrak_list(file, text)
}

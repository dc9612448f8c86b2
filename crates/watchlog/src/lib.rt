// The logbook: a watch file in a lent buffer, into which records are written, put in their place and taken out.
#![tactic(auto)]

ghost use Rattle.std.specs.Prelude.{◌≡◌, ℕ, ◌+◌, ◌≤◌, ℤ, length, take};
ghost use Rattle.number.specs.Refusal.{given};
ghost use Rattle.std.proofs.lemmas.List.Edits.{sets};
ghost use Rattle.watchfile.specs.Format.{DewRule, rank_of, figures_of};
ghost use Rattle.handed.specs.Handed.{record_of};
ghost use Rattle.handed.specs.Words.{figures_in, words_of};
ghost use Rattle.writer.specs.Write.{written_as, Wrote};
ghost use Rattle.watchlog.specs.Placing.{inserted, placed_as, writing_all, placing, taken_in, taking, Leaves, place_of, pushed, pulled};
ghost use Rattle.watchlog.specs.Places.{Laid, ReadIn};
ghost use Rattle.watchlog.specs.declared.PlaceRefusal.TheVariants.{Write, Broken};

use reader::Broken;
use watchfile::{BLANK, RECORDS, Record};
use writer::WriteRefusal;

// ---- records written

// Words enough for the records that a file can have, and one more.
const ROOM: usize = 7 * (RECORDS + 1);

// Lays the seven words of a record at a place.
fn lay(words: &mut [u32], at: usize, r: Record)
    requires { at + 7 ≤ length words.old }
    ensures { (words.new ≡ sets words.old at (words_of (figures_of r))) × (record_of (figures_in (words_of (figures_of r))) ≡ r) }
{
    // (A `for`: with `copy_from_slice` a record taken out of a small file cost a quarter more instructions.)
    let seven = handed::words(r);
    for i in 0..7 {
        words[at + i] = seven[i];
    }
}

// The words of 48 records, and of one behind them that is none.
fn words_of(records: [Record; RECORDS]) -> [u32; ROOM]
    ensures { Laid records 48 result }
{
    let mut words = [0u32; ROOM];
    for i in 0..RECORDS {
        lay(&mut words, 7 * i, records[i]);
    }
    words
}

// (The records are a whole array and a count, right or too large: the promise is about every count.)
// Writes the first `count` records as a watch file into the lent buffer, or gives refusal 16 or 17 and leaves every byte.
pub fn write(
    file: &mut [u8],
    records: [Record; RECORDS],
    count: usize,
) -> Result<usize, WriteRefusal>
    ensures { (rule : ℕ → ℤ) → DewRule rule → Wrote rule records count file.old file.new result }
{
    let words = words_of(records);
    let end = 7 * count.min(RECORDS + 1);
    writer::write(file, &words[..end])
}

// ---- a record put in its place

// Why a record is not put in its place, or not taken out.
#[derive(Clone, Copy)]
pub enum PlaceRefusal {
    // 16 or 17, of the new file
    Write(WriteRefusal),
    // 18, of the old file
    Broken(Broken),
    // none of the documents': there is no such record to take out
    NoRecord,
}

impl From<WriteRefusal> for PlaceRefusal {
    ghost from_gives = { λ r p. p ≡ Write r };

    fn from(r: WriteRefusal) -> PlaceRefusal {
        PlaceRefusal::Write(r)
    }
}

impl From<Broken> for PlaceRefusal {
    ghost from_gives = { λ b p. p ≡ Broken b };

    fn from(b: Broken) -> PlaceRefusal {
        PlaceRefusal::Broken(b)
    }
}

// What taking out a record that is not there answers, none of the documents' numbers.
pub const NO_RECORD: u32 = 254;

// A record's rank: by minute, then kind.
fn rank_of(r: Record) -> u64
    ensures { result ≡ rank_of r }
{
    watchfile::rank(r.minute, r.body.kind())
}

// (Tried: `position` over the part of the array. What its closure promises, by a call of `rank_of`, the check did not find.)
// How many of the first `count` records stand before one of this rank.
fn place_of(records: [Record; RECORDS], count: usize, rank: u64) -> usize
    requires { count ≤ 48 }
    ensures { result ≡ place_of rank (take count records) }
{
    for i in 0..count {
        if rank <= rank_of(records[i]) {
            return i;
        }
    }
    count
}

// The records with one more at a place. What is pushed over the end falls off.
fn pushed(records: [Record; RECORDS], at: usize, r: Record) -> [Record; RECORDS]
    ensures { result ≡ take 48 (pushed at r records) }
{
    let mut all = records;
    let mut carried = r;
    // (A `for`, here and in `pulled`: the library's turning of a part of an array is a call of memmove, which the archive for C had no
    // need of.)
    for i in at..RECORDS {
        let here = all[i];
        all[i] = carried;
        carried = here;
    }
    all
}

// What a write came to, as placing and taking out tell it.
fn written(w: Result<usize, WriteRefusal>) -> Result<usize, PlaceRefusal>
    ensures { placed_as result ≡ written_as w }
{
    match w {
        Ok(n) => Ok(n),
        Err(r) => Err(PlaceRefusal::from(r)),
    }
}

// Writes the file of the first `count` records and one more, which replaces one of the same minute and kind.
fn write_with(
    file: &mut [u8],
    records: [Record; RECORDS],
    count: usize,
    r: Record,
) -> Result<usize, PlaceRefusal>
    requires { count ≤ 48 }
    ensures { (rule : ℕ → ℤ) → DewRule rule → Leaves (writing_all rule (length file.old) (inserted r (take count records))) file.old file.new result }
{
    let rank = rank_of(r);
    let at = place_of(records, count, rank);
    if at < count && rank_of(records[at]) == rank {
        let mut all = records;
        all[at] = r;
        return written(write(file, all, count));
    }
    written(write(file, pushed(records, at, r), count + 1))
}

// The records of a file, each in its place; behind the last what stands for none.
fn records_in(file: &[u8]) -> [Record; RECORDS]
    ensures { ReadIn file.now 48 result }
{
    let mut records = [BLANK; RECORDS];
    for i in 0..RECORDS {
        records[i] = handed::record_of(reader::record_at(file, i));
    }
    records
}

// Puts a record in its place in the watch file that the first `size` bytes of the buffer are (all of them, where there are fewer);
// one of the same minute and kind is replaced. Refused, no byte changes.
pub fn place(file: &mut [u8], size: usize, r: Record) -> Result<usize, PlaceRefusal>
    ensures { (rule : ℕ → ℤ) → DewRule rule → Leaves (placing rule r size file.old) file.old file.new result }
{
    let end = size.min(file.len());
    let count = reader::read(&file[..end])?;
    let records = records_in(&file[..end]);
    write_with(file, records, count, r)
}

// ---- a record taken out

// The records without the one at a place. What stands in the last place then is not looked at.
fn pulled(records: [Record; RECORDS], at: usize) -> [Record; RECORDS]
    ensures { take 47 result ≡ take 47 (pulled at records) }
{
    let mut all = records;
    for i in at..RECORDS - 1 {
        all[i] = all[i + 1];
    }
    all
}

// Writes the file of the first `count` records without the one of this minute and kind.
fn write_without(
    file: &mut [u8],
    records: [Record; RECORDS],
    count: usize,
    minute: u32,
    kind: u32,
) -> Result<usize, PlaceRefusal>
    requires { count ≤ 48 }
    ensures { (rule : ℕ → ℤ) → DewRule rule → Leaves (taken_in rule minute kind (length file.old) (given (take count records))) file.old file.new result }
{
    let Ok(number) = u8::try_from(kind) else {
        return Err(PlaceRefusal::NoRecord);
    };
    if !watchfile::kind_right(number) {
        return Err(PlaceRefusal::NoRecord);
    }
    let wanted = watchfile::rank(minute, number);
    let at = place_of(records, count, wanted);
    if at < count && rank_of(records[at]) == wanted {
        return written(write(file, pulled(records, at), count - 1));
    }
    Err(PlaceRefusal::NoRecord)
}

// Takes the record of this minute and kind out of the watch file that the first `size` bytes of the buffer are (all of them, where there
// are fewer). Where there is none, or the file is broken, no byte changes.
pub fn take_out(file: &mut [u8], size: usize, minute: u32, kind: u32) -> Result<usize, PlaceRefusal>
    ensures { (rule : ℕ → ℤ) → DewRule rule → Leaves (taking rule minute kind size file.old) file.old file.new result }
{
    let end = size.min(file.len());
    let count = reader::read(&file[..end])?;
    let records = records_in(&file[..end]);
    write_without(file, records, count, minute, kind)
}

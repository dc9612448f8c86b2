// The store: a block that the caller lends is opened with settings, hears messages and entries of the hand anemometer, and is asked what
// it keeps.
#![tactic(auto)]

ghost use Rattle.std.specs.Prelude.{◌≡◌, ℕ, ◌≤◌, ◌<◌, length};
ghost use Rattle.number.specs.Refusal.{answer, numbered_in};
ghost use Rattle.settings.specs.Settings.{checked, checked_as};
ghost use Rattle.message.specs.Receive.{Entry, entry_of};
ghost use Rattle.cell.specs.Cells.{CHANNELS, recalled_as};
ghost use Rattle.block.specs.Layout.{WORDS};
ghost use Rattle.window.specs.Window.{accepted};
ghost use Rattle.block.specs.Words.{window_of, replaced};
ghost use Rattle.store.specs.declared.HearingRefusal.TheVariants.{Message};
ghost use Rattle.store.specs.Noting.{IsCourse, worked_as, worked, Notes};
ghost use Rattle.store.specs.Block.{opened_by, heard_as, newest_tests, next_in, outcome, recall_of, following_of, absent_of, Keeps, Hears};

use anemometer::{DialRefusal, Note};
use block::{NO_STORE, SETTINGS, Store};
use cell::CHANNELS;
use message::Reading;
use number::Number;
use quantity::{Degrees, MetresPerSecond, Minute};
use settings::{Settings, SettingsRefusal};
use window::WINDOW;
use wire::MessageRefusal;

// Why a message or an entry is not heard.
#[derive(Clone, Copy)]
pub enum HearingRefusal {
    // 1 to 7; of an entry 5 and 7
    Message(MessageRefusal),
    // 8: the minute is that of the channel's newest
    Repeated,
    // 19: it is earlier, by so many minutes
    Late(u64),
    // 23: seconds or dial of an entry are outside their limits
    OutsideDial,
    // 11: there is no course at an entry's minute
    NoCourse(Minute),
    // 24: an entry's rate is outside the anemometer's certificate, or there is none
    OutsideAnemometer,
    // none of the documents': the block is no store
    NoStore,
}

impl From<MessageRefusal> for HearingRefusal {
    ghost from_gives = { λ r h. h ≡ Message r };

    fn from(r: MessageRefusal) -> HearingRefusal {
        HearingRefusal::Message(r)
    }
}

// The documents' number of what hearing comes to: 0 for what is heard, and `NO_STORE` from a block that is no store.
pub fn number(heard: Result<(), HearingRefusal>) -> u32
    ensures { result ≡ numbered_in (heard_as heard) }
{
    match heard {
        Ok(()) => 0,
        Err(HearingRefusal::Message(r)) => wire::number(r),
        Err(HearingRefusal::Repeated) => 8,
        Err(HearingRefusal::Late(_)) => 19,
        Err(HearingRefusal::OutsideDial) => 23,
        Err(HearingRefusal::NoCourse(_)) => 11,
        Err(HearingRefusal::OutsideAnemometer) => 24,
        Err(HearingRefusal::NoStore) => NO_STORE,
    }
}

// ---- opening

// Opens the block with these settings: nothing is heard yet. Or the first of refusals 9, 10 and 25 that holds, and the block as it
// was.
#[tactic(auto, unfolding(crate::specs::Block::opened_by))]
pub fn open(store: &mut Store, settings: Settings) -> Result<(), SettingsRefusal>
    ensures { (checked_as result ≡ checked settings) × (store.new ≡ opened_by store.old settings) }
{
    settings::check(settings)?;
    block::lay(store, settings);
    Ok(())
}

// ---- hearing

// A channel's window.
fn window_of(store: &Store, c: usize) -> &[u64]
    requires { c < CHANNELS }
    ensures { result.now ≡ window_of c store.now }
{
    let s = &store[..];
    let from = SETTINGS + c * WINDOW;
    let to = from + WINDOW;
    &s[from..to]
}

fn channel_of(r: Reading) -> usize
    ensures { ((t : ℕ) → result ≡ (entry_of t r).channel) × (result < CHANNELS) }
{
    match r {
        Reading::Hectopascals(_) | Reading::Millimetres(_) => 0,
        Reading::Wheelhouse(_) => 1,
        Reading::ApparentWind(_, _) => 2,
        Reading::ShipMotion(_, _) => 3,
        Reading::DryBulb(_) => 4,
        Reading::WetBulb(_, _) => 5,
    }
}

// Why a minute that is not later than the newest is refused. `next` is the minute after the newest.
fn why(next: u64, minute: u32) -> HearingRefusal
    requires { minute < next }
    ensures { (e : Entry) → heard_as (Err result) ≡ outcome (answer (newest_tests next minute) e) }
{
    let after = minute as u64 + 1;
    if after == next {
        return HearingRefusal::Repeated;
    }
    let late = next - after;
    HearingRefusal::Late(late)
}

// Keeps the cell of a minute that is later than the newest in its channel's part of the block.
fn keep(store: &mut [u64], c: usize, minute: u32, v: u64)
    requires { (length store.old ≡ WORDS) × (c < CHANNELS) × (next_in store.old c ≤ minute) }
    ensures { store.new ≡ replaced store.old c (accepted (window_of c store.old) minute v) }
{
    let a = SETTINGS + c * WINDOW;
    let e = a + WINDOW;
    window::accept(&mut store[a..e], minute, v);
}

// Keeps a reading, if it is later than its channel's newest.
fn offer(store: &mut Store, minute: u32, r: Reading) -> Result<(), HearingRefusal>
    ensures { Keeps store.old store.new (entry_of minute r) result }
{
    let c = channel_of(r);
    let v = cell::cell_of(r);
    let next = window::next(window_of(store, c));
    if (minute as u64) < next {
        return Err(why(next, minute));
    }
    keep(store, c, minute, v);
    Ok(())
}

// Hears a message: it is kept, or the first of refusals 1 to 8 and 19 that holds is given and the block stays as it was. So does a
// block that is no store, which hears nothing.
pub fn hear(store: &mut Store, bytes: &[u8]) -> Result<(), HearingRefusal>
    ensures { Hears store.old store.new bytes.now result }
{
    if !block::is_store(store) {
        return Err(HearingRefusal::NoStore);
    }
    let unit = block::unit(store);
    let (minute, r) = message::receive(bytes, unit)?;
    offer(store, minute.0, r)
}

// ---- asking

// What is kept of a channel's minute.
#[tactic(auto, unfolding(crate::specs::Block::recall_of))]
pub fn recall(store: &Store, channel: u32, minute: u32) -> Option<Reading>
    ensures { recalled_as minute result ≡ recall_of store.now channel minute }
{
    let c = channel as usize;
    if c >= CHANNELS {
        return None;
    }
    let v = window::find(window_of(store, c), minute)?;
    cell::reading_in(block::unit(store), channel, v)
}

// The minute after a channel's newest; 0 where nothing is heard of it, or it is none.
pub fn next(store: &Store, channel: u32) -> u64
    ensures { result ≡ following_of store.now channel }
{
    let c = channel as usize;
    if c >= CHANNELS {
        return 0;
    }
    window::next(window_of(store, c))
}

// How many of a channel's minutes strictly between minute - 180 and minute are absent.
#[tactic(auto, unfolding(crate::specs::Block::absent_of))]
pub fn missing_minutes(store: &Store, channel: u32, minute: u32) -> u64
    ensures { result ≡ absent_of store.now channel minute }
{
    let c = channel as usize;
    if c >= CHANNELS {
        return Minute::BETWEEN as u64;
    }
    window::missed(window_of(store, c), minute, Minute::BETWEEN)
}

// ---- entries of the hand anemometer

// The course that is kept at a minute.
fn course_at(store: &Store, minute: u32) -> Option<Degrees>
    ensures { IsCourse (recall_of store.now 3 minute) result }
{
    match recall(store, 3, minute)? {
        Reading::ShipMotion(_, course) => Some(course),
        _ => None,
    }
}

// Works an entry into the speed and direction of an apparent wind: speed by the dial, direction less the course that is kept at its
// minute. Or the first of refusals 23, 11 and 24 that holds.
fn work(store: &Store, n: Note) -> Result<(MetresPerSecond, Degrees), HearingRefusal>
    ensures { worked_as n.minute result ≡ worked store.now n }
{
    let told = anemometer::measure(store, n);
    let course = course_at(store, n.minute).ok_or(HearingRefusal::NoCourse(Minute(n.minute)));
    match told {
        Err(DialRefusal::OutsideDial) => Err(HearingRefusal::OutsideDial),
        Err(DialRefusal::OutsideCertificate) => {
            course?;
            Err(HearingRefusal::OutsideAnemometer)
        }
        Ok(v) => Ok((v, anemometer::from_bow(n.direction, course?))),
    }
}

// Hears an entry: it is kept as a reading of channel 2, or the first of refusals 5, 7, 8, 19, 23, 11 and 24 that holds is given and the
// block stays as it was. So does a block that is no store.
pub fn note(store: &mut Store, n: Note) -> Result<(), HearingRefusal>
    ensures { Notes store.old store.new n result }
{
    if !block::is_store(store) {
        return Err(HearingRefusal::NoStore);
    }
    if !Minute::holds(n.minute) {
        return Err(HearingRefusal::Message(MessageRefusal::MinuteTooLate));
    }
    if !Degrees::holds(Number::whole(n.direction)) {
        return Err(HearingRefusal::Message(MessageRefusal::OutsideLimits));
    }
    let next = window::next(window_of(store, 2));
    if (n.minute as u64) < next {
        return Err(why(next, n.minute));
    }
    let (v, d) = work(store, n)?;
    keep(store, 2, n.minute, cell::pair_cell(v.0, d.0));
    Ok(())
}

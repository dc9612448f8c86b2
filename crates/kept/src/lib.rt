// What a store keeps, asked by channel: its newest minute, the reading of a minute, and which minutes of a stretch are there. Asking
// changes nothing.
#![tactic(auto)]

ghost use Rattle.std.specs.Prelude.{◌≡◌, ℕ, ◌^◌, ◌<◌, nat_abs};
ghost use Rattle.message.specs.Receive.{entry_of};
ghost use Rattle.cell.specs.Cells.{recalled};
ghost use Rattle.told.specs.Told.{none};
ghost use Rattle.kept.specs.Kept.{newest_in, newest_of, value_of, refused_with, figures_in, reading_in, reading_of, marked, Marks};

use block::{NO_STORE, Store};
use message::Reading;
use number::{Kept, Number};
use quantity::Minute;
use told::Refusal;

// The newest minute of a channel, or the number of the refusal.
#[repr(C)]
#[derive(Clone, Copy)]
pub struct NewestTold {
    pub number: u32,
    pub minute: u64,
}

// A reading as it is kept: the number of its unit (0 hPa, 1 mm Hg, 2 °C, 3 m/s, 4 knots), tenths of that, and beside them whole degrees
// or the state of the wick. All is 0 beside a refusal.
#[repr(C)]
#[derive(Clone, Copy)]
pub struct ReadingTold {
    pub refusal: Refusal,
    pub channel: u32,
    pub unit: u32,
    pub first: Kept,
    pub second: u32,
}

// The newest minute of a channel; refusals 2, and 11 where nothing is heard of it yet.
#[tactic(auto, unfolding(crate::specs::Kept::newest_of, number::specs::Refusal::answer))]
pub fn newest(store: &Store, channel: u32) -> NewestTold
    ensures { (result ≡ newest_in (newest_of store.now channel)) × (store.exit.now ≡ store.entry.now) }
{
    if !block::is_store(store) {
        return NewestTold {
            number: NO_STORE,
            minute: 0,
        };
    }
    if channel >= 6 {
        return NewestTold {
            number: 2,
            minute: 0,
        };
    }
    let next = store::next(store, channel);
    if next == 0 {
        return NewestTold {
            number: 11,
            minute: 0,
        };
    }
    NewestTold {
        number: 0,
        minute: next - 1,
    }
}

// A refusal: the number, and the channel and the minute that it returns.
fn refused(number: u32, channel: u32, minute: u32) -> ReadingTold
    ensures { result ≡ refused_with (record { number = number; channel = channel; minute = minute }) }
{
    ReadingTold {
        refusal: Refusal {
            number,
            channel,
            minute,
        },
        channel: 0,
        unit: 0,
        first: Kept { v: 0 },
        second: 0,
    }
}

// The figures of a reading; its first is small enough to be kept.
fn figures(channel: u32, unit: u32, first: Number, second: u32) -> ReadingTold
    requires { nat_abs first.v < 2 ^ 31 }
    ensures { result ≡ record { refusal = none; channel = channel; unit = unit; first = record { v = first.v }; second = second } }
{
    ReadingTold {
        refusal: told::NONE,
        channel,
        unit,
        first: first.keep(),
        second,
    }
}

// By its kind.
fn figures_of(r: Reading) -> ReadingTold
    requires { nat_abs (value_of (entry_of 0 r).first) < 2 ^ 31 }
    ensures { (t : ℕ) → result ≡ figures_in (recalled (entry_of t r)) }
{
    match r {
        Reading::Hectopascals(p) => figures(0, 0, p.0, 0),
        Reading::Millimetres(p) => {
            let n = p.0;
            figures(0, 1, n.number(), 0)
        }
        Reading::Wheelhouse(t) => {
            let n = t.0;
            figures(1, 2, n.number(), 0)
        }
        Reading::ApparentWind(v, d) => figures(2, 3, Number::whole(v.0), d.0),
        Reading::ShipMotion(v, d) => figures(3, 4, Number::whole(v.0), d.0),
        Reading::DryBulb(t) => {
            let n = t.0;
            figures(4, 2, n.number(), 0)
        }
        Reading::WetBulb(s, t) => {
            let n = t.0;
            figures(5, 2, n.number(), s.number())
        }
    }
}

// What is kept of a channel's minute; refusals 2, 5 and 11.
#[tactic(auto, unfolding(crate::specs::Kept::reading_of, number::specs::Refusal::answer))]
pub fn reading(store: &Store, channel: u32, minute: u32) -> ReadingTold
    ensures { (result ≡ reading_in (reading_of store.now channel minute)) × (store.exit.now ≡ store.entry.now) }
{
    if !block::is_store(store) {
        return refused(NO_STORE, 0, 0);
    }
    if channel >= 6 {
        return refused(2, 0, 0);
    }
    if !Minute::holds(minute) {
        return refused(5, 0, 0);
    }
    match store::recall(store, channel, minute) {
        None => refused(11, channel, minute),
        Some(r) => figures_of(r),
    }
}

// 1 for a minute that has a reading, 0 for one that has none.
fn mark(store: &Store, channel: u32, minute: u64) -> u8
    ensures { result ≡ marked store.now channel minute }
{
    if minute > Minute::LAST as u64 {
        return 0;
    }
    match store::recall(store, channel, minute as u32) {
        None => 0,
        Some(_) => 1,
    }
}

// Says of as many minutes as bytes are lent, from the first on, which have a reading: 1, else 0. Or refusal 2, and every byte stays.
#[tactic(auto, unfolding(crate::specs::Kept::stretch_of, number::specs::Refusal::answer))]
pub fn stretch(store: &Store, channel: u32, first: u32, minutes: &mut [u8]) -> u32
    ensures { Marks store.now channel first minutes.old minutes.new result × (store.exit.now ≡ store.entry.now) }
{
    if !block::is_store(store) {
        return NO_STORE;
    }
    if channel >= 6 {
        return 2;
    }
    for (i, m) in minutes.iter_mut().enumerate() {
        *m = mark(store, channel, first as u64 + i as u64);
    }
    0
}

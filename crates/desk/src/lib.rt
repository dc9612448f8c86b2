// The watch officer's desk: messages heard and counted, and answers as records.
#![tactic(auto)]

ghost use Rattle.std.specs.Prelude.{◌≡◌, ◌+◌, ◌-◌, ◌^◌, min};
ghost use Rattle.desk.specs.Entries.{pressure_entry, tendency_entry, wind_entry, humidity_entry};
ghost use Rattle.desk.specs.Counting.{messages, HearsAll};

use block::Store;
use humidity::HumidityFigures;
use number::Number;
use quantity::Hectopascals;
use station::{PressureTendency, QuestionRefusal};
use watchfile::{Body, Record};
use wind::Wind;

// ---- messages, heard and counted

// A place for every number of one byte: 0 for what was heard, then refusals, up to that of a block that is no store.
pub const NUMBERS: usize = 256;

// The bytes of a message.
const MESSAGE: usize = 16;

// How many messages were heard, in place 0, and how many were refused by each number.
#[derive(Clone, Copy)]
pub struct Counts {
    pub of: [u64; NUMBERS],
}

// A count and one more; the largest stays.
fn one_more(count: u64) -> u64
    ensures { result ≡ min (count + 1) (2 ^ 64 - 1) }
{
    count.saturating_add(1)
}

// Cuts the bytes into messages of 16 and hears each, in order. The counts with these added. What is left of a message at the end is
// heard too, and refused as too short.
pub fn hear_all(store: &mut Store, bytes: &[u8], before: Counts) -> Counts
    ensures { HearsAll store.old store.new (messages bytes.now) before.of result.of }
{
    let mut counts = before.of;
    for message in bytes.chunks(MESSAGE) {
        let n = store::number(store::hear(store, message)) as usize;
        counts[n] = one_more(counts[n]);
    }
    Counts { of: counts }
}

// ---- answers as records

// What a field of two bytes with a sign holds.
const SIGNED_LOW: Number = Number { v: -32768 };

const SIGNED_HIGH: Number = Number { v: 32767 };

// A pressure's record: the field has no sign, so none is made of a number below 0.
pub fn pressure_record(minute: u32, r: Result<Hectopascals, QuestionRefusal>) -> Option<Record>
    ensures { result ≡ pressure_entry minute r }
{
    let n = r.ok()?.0;
    Some(Record {
        minute,
        body: Body::Pressure(u16::try_from(n.v).ok()?),
    })
}

// A tendency's record: the change, and how many minutes are absent.
pub fn tendency_record(minute: u32, r: Result<PressureTendency, QuestionRefusal>) -> Option<Record>
    ensures { result ≡ tendency_entry minute r }
{
    let t = r.ok()?;
    let n = t.change.0;
    if !n.within(SIGNED_LOW, SIGNED_HIGH) {
        return None;
    }
    Some(Record {
        minute,
        body: Body::Tendency {
            change: n.keep(),
            absent: u8::try_from(t.absent).ok()?,
        },
    })
}

// A wind's record: speed and direction.
pub fn wind_record(minute: u32, r: Result<Wind, QuestionRefusal>) -> Option<Record>
    ensures { result ≡ wind_entry minute r }
{
    let w = r.ok()?;
    Some(Record {
        minute,
        body: Body::Wind {
            speed: u16::try_from(w.speed.0).ok()?,
            direction: u16::try_from(w.direction.0).ok()?,
        },
    })
}

// A humidity's record: its five figures.
pub fn humidity_record(minute: u32, r: Result<HumidityFigures, QuestionRefusal>) -> Option<Record>
    ensures { result ≡ humidity_entry minute r }
{
    let h = r.ok()?;
    let dew = h.dew.0;
    if !dew.number().within(SIGNED_LOW, SIGNED_HIGH) {
        return None;
    }
    Some(Record {
        minute,
        body: Body::Humidity {
            e: u16::try_from(h.e.0).ok()?,
            saturation: u16::try_from(h.saturation.0).ok()?,
            deficit: u16::try_from(h.deficit.0).ok()?,
            relative: u8::try_from(h.relative).ok()?,
            dew,
        },
    })
}

// Watch files as C sees them: what reading, writing and listing one come to.
#![tactic(auto)]

ghost use Rattle.std.specs.Prelude.{◌≡◌};
ghost use Rattle.reader.specs.Read.{verdict_as};
ghost use Rattle.writer.specs.Write.{written_as};
ghost use Rattle.listing.specs.Listing.{listed_as};
ghost use Rattle.watchlog.specs.Placing.{placed_as};
ghost use Rattle.filed.specs.Files.{file_in, write_in, place_in, list_in};

use listing::TooShort;
use reader::Broken;
use watchlog::{NO_RECORD, PlaceRefusal};
use writer::WriteRefusal;

// A file that was read: 0 and how many records, or 18 and the place.
#[repr(C)]
#[derive(Clone, Copy)]
pub struct FileTold {
    pub number: u32,
    pub place: usize,
    pub count: usize,
}

// A write: 0 and the bytes of the file, 16 and the index, or 17 and the bytes needed.
#[repr(C)]
#[derive(Clone, Copy)]
pub struct WriteTold {
    pub number: u32,
    pub index: usize,
    pub bytes: usize,
}

// A record put in its place, or taken out: 0 and the bytes of the new file, 16 and the index, 17 and the bytes needed, 18 and the place
// where the old file is broken, or that there is no such record.
#[repr(C)]
#[derive(Clone, Copy)]
pub struct PlaceTold {
    pub number: u32,
    pub index: usize,
    pub place: usize,
    pub bytes: usize,
}

// A listing: 0 and the bytes of the text, or 17 and the bytes needed.
#[repr(C)]
#[derive(Clone, Copy)]
pub struct ListTold {
    pub number: u32,
    pub bytes: usize,
}

// Document 01's numbers of files and lent buffers.
const BREAKS_RULES: u32 = 16;

const TOO_SHORT: u32 = 17;

const BROKEN: u32 = 18;

// ---- reading

// A file that was read: how many records it has, or 18 with the place where it is broken.
pub fn file_told(verdict: Result<usize, Broken>) -> FileTold
    ensures { result ≡ file_in (verdict_as verdict) }
{
    match verdict {
        Ok(count) => FileTold {
            number: 0,
            place: 0,
            count,
        },
        Err(Broken(place)) => FileTold {
            number: BROKEN,
            place,
            count: 0,
        },
    }
}

// ---- writing and listing

// What a write came to, as a number with the index or the bytes.
pub fn write_told(w: Result<usize, WriteRefusal>) -> WriteTold
    ensures { result ≡ write_in (written_as w) }
{
    match w {
        Ok(bytes) => WriteTold {
            number: 0,
            index: 0,
            bytes,
        },
        Err(WriteRefusal::BreaksRules(index)) => WriteTold {
            number: BREAKS_RULES,
            index,
            bytes: 0,
        },
        Err(WriteRefusal::TooShort(bytes)) => WriteTold {
            number: TOO_SHORT,
            index: 0,
            bytes,
        },
    }
}

// What placing a record, or taking one out, came to, as a number with the index, the place or the bytes.
pub fn place_told(p: Result<usize, PlaceRefusal>) -> PlaceTold
    ensures { result ≡ place_in (placed_as p) }
{
    match p {
        Ok(bytes) => PlaceTold {
            number: 0,
            index: 0,
            place: 0,
            bytes,
        },
        Err(PlaceRefusal::Write(WriteRefusal::BreaksRules(index))) => PlaceTold {
            number: BREAKS_RULES,
            index,
            place: 0,
            bytes: 0,
        },
        Err(PlaceRefusal::Write(WriteRefusal::TooShort(bytes))) => PlaceTold {
            number: TOO_SHORT,
            index: 0,
            place: 0,
            bytes,
        },
        Err(PlaceRefusal::Broken(Broken(place))) => PlaceTold {
            number: BROKEN,
            index: 0,
            place,
            bytes: 0,
        },
        Err(PlaceRefusal::NoRecord) => PlaceTold {
            number: NO_RECORD,
            index: 0,
            place: 0,
            bytes: 0,
        },
    }
}

// What listing came to, as a number with the bytes.
pub fn listed_told(l: Result<usize, TooShort>) -> ListTold
    ensures { result ≡ list_in (listed_as l) }
{
    match l {
        Ok(bytes) => ListTold { number: 0, bytes },
        Err(TooShort(bytes)) => ListTold {
            number: TOO_SHORT,
            bytes,
        },
    }
}

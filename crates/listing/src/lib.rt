// The listing of a watch file: its text in a lent buffer.
#![tactic(auto)]

ghost use Rattle.std.specs.Prelude.{◌≡◌, [], ◌∷◌, ◌++◌, ℕ, ◌≤◌, ℤ, length};
ghost use Rattle.text.specs.Text.{field, field_of, end, Put, Puts};
ghost use Rattle.listing.specs.Listing.{head_line, listing_of, Lists};
ghost use Rattle.listing.specs.Lines.{letter_of, humidity_text, figures_text, figures_line, lines_from};
ghost use Rattle.watchfile.specs.Format.{DewRule, reading};

use number::Kept;
use reader::Broken;
use text::Page;
use watchfile::{Figures, RECORDS};

// 17: the bytes that the text needs.
#[derive(Clone, Copy)]
pub struct TooShort(pub usize);

// The longest line: a letter, a minute of 10 digits, numbers of 5, 5, 5 and 3, one of 10 with its minus, spaces, and the end.
const LINE: usize = 1 + 11 + 3 * 6 + 4 + 12 + 1;

// Room for every listing: `WT 1 48` with its end, and 48 lines.
pub const TEXT: usize = 8 + RECORDS * LINE;

// Puts two fields.
fn put_pair(page: &mut Page<'_>, first: Kept, second: Kept)
    ensures { Puts page.old page.new (field_of first.v ++ field_of second.v) }
{
    page.signed(first.number());
    page.signed(second.number());
}

// Puts the fields of a humidity.
fn put_humidity(page: &mut Page<'_>, r: Figures)
    ensures { Puts page.old page.new (humidity_text r) }
{
    put_pair(page, r.first, r.second);
    put_pair(page, r.third, r.fourth);
    page.signed(r.fifth.number());
}

// The letter of a kind.
fn letter(kind: u32) -> u8
    ensures { result ∷ [] ≡ letter_of kind }
{
    match kind {
        1 => b'P',
        2 => b'T',
        3 => b'W',
        _ => b'H',
    }
}

// Puts the fields of a body.
fn put_body(page: &mut Page<'_>, r: Figures)
    ensures { Puts page.old page.new (figures_text r) }
{
    match r.kind {
        1 => page.signed(r.first.number()),
        4 => put_humidity(page, r),
        _ => put_pair(page, r.first, r.second),
    }
}

// Puts the line of a record; nothing where there is none.
fn put_record(page: &mut Page<'_>, r: Figures)
    ensures { Puts page.old page.new (figures_line r) }
{
    if r.kind == 0 {
        return page.bytes(b"");
    }
    page.byte(letter(r.kind));
    page.field(r.minute as u64);
    put_body(page, r);
    page.byte(b'\n');
}

// Puts the lines of the first `count` records of a file.
fn put_records(page: &mut Page<'_>, count: usize, file: &[u8])
    requires { page.old.at ≤ length page.old.text.now }
    ensures { Puts page.old page.new (lines_from file.now 0 count) }
{
    for i in 0..count {
        put_record(page, reader::record_at(file, i));
    }
}

// Puts a line of words and a number.
fn put_line(page: &mut Page<'_>, words: &[u8], n: usize)
    ensures { Puts page.old page.new (words.now ++ (field n ++ end)) }
{
    page.bytes(words);
    page.field(n as u64);
    page.bytes(b"\n");
}

// Puts the listing of a good file.
fn put_listing(page: &mut Page<'_>, count: usize, file: &[u8])
    ensures { Puts page.old page.new (head_line count ++ lines_from file.now 0 count) }
{
    put_line(page, b"WT 1", count);
    put_records(page, count, file);
}

// Puts the listing of a watch file: a line for the file and one for each record, or one that says where it is broken.
fn put_file(page: &mut Page<'_>, file: &[u8])
    ensures { (rule : ℕ → ℤ) → DewRule rule → Puts page.old page.new (listing_of (reading rule file.now)) }
{
    match reader::read(file) {
        Ok(count) => put_listing(page, count, file),
        Err(Broken(place)) => put_line(page, b"refused 18 at", place),
    }
}

// The same at the start of lent bytes. The place behind it. (The page is made here, for both callers: a page that came from elsewhere is
// looked up in memory for each byte.)
fn put_whole(text: &mut [u8], file: &[u8]) -> usize
    ensures { (rule : ℕ → ℤ) → DewRule rule → Put text.old text.new 0 (listing_of (reading rule file.now)) result }
{
    let mut page = Page::new(text);
    put_file(&mut page, file);
    page.at
}

// The same into room that may be too short for it: it is put elsewhere first.
fn list_short(file: &[u8], text: &mut [u8]) -> Result<usize, TooShort>
    ensures { (rule : ℕ → ℤ) → DewRule rule → Lists (listing_of (reading rule file.now)) text.old text.new result }
{
    let mut whole = [0u8; TEXT];
    let n = put_whole(&mut whole, file);
    let short = text.len() < n;
    if short {
        return Err(TooShort(n));
    }
    Page::new(text).bytes(&whole[..n]);
    Ok(n)
}

// Puts the listing of a watch file at the start of the lent bytes and says how long it is, or gives refusal 17 and leaves every byte.
pub fn list(file: &[u8], text: &mut [u8]) -> Result<usize, TooShort>
    ensures { (rule : ℕ → ℤ) → DewRule rule → Lists (listing_of (reading rule file.now)) text.old text.new result }
{
    if text.len() < TEXT {
        return list_short(file, text);
    }
    Ok(put_whole(text, file))
}

// The station at a prompt: one command a line from standard input, one answer a line to standard output. Text becomes a command in
// `command` and an answer text in `answer`; here is what reads, calls and writes.
#![tactic(auto)]

use anemometer::Note;
use block::Store;
use command::Verb;
use std::io;
use std::io::Read;
use text::Page;

// The longest line. The most bytes that it says in hex, so `unhex` finds room; more than any answer and any watch file.
const LINE: usize = 8192;

const BYTES: usize = 4096;

// A number of a line, which has 32 bits.
fn short(n: u64) -> u32 {
    (n % 4294967296) as u32
}

// The first n bytes, or all.
fn first(bytes: &[u8], n: usize) -> &[u8] {
    &bytes[..n.min(bytes.len())]
}

fn tell(rt: &impl Print, page: &Page<'_>) -> io::Result<()> {
    rt.write_all(first(page.text, page.at))
}

// A refused opening leaves the store that was open.
fn open(rt: &impl Print, store: &mut Store, numbers: &[u64], words: usize) -> io::Result<()> {
    let mut text = [0u8; BYTES];
    let mut page = Page::new(&mut text);
    answer::put_opening(
        &mut page,
        station::open(store, values::settings_of(numbers, words)),
    );
    tell(rt, &page)
}

fn hear(rt: &impl Print, store: &mut Store, word: &[u8]) -> io::Result<()> {
    let mut bytes = [0u8; BYTES];
    let Ok(n) = hexadecimal::unhex(word, &mut bytes) else {
        return Ok(());
    };
    let heard = station::hear(store, first(&bytes, n));
    let mut page = Page::new(&mut bytes);
    answer::put_hearing(&mut page, heard);
    tell(rt, &page)
}

// Hears the entry that the first five numbers say.
fn note(rt: &impl Print, store: &mut Store, numbers: &[u64; command::NUMBERS]) -> io::Result<()> {
    let mut text = [0u8; BYTES];
    let mut page = Page::new(&mut text);
    let n = Note {
        minute: short(numbers[0]),
        direction: short(numbers[1]),
        first: short(numbers[2]),
        second: short(numbers[3]),
        seconds: short(numbers[4]),
    };
    answer::put_noting(&mut page, station::note(store, n));
    tell(rt, &page)
}

// Asks the question of a verb.
fn ask(rt: &impl Print, store: &Store, verb: Verb, m: u32) -> io::Result<()> {
    let mut text = [0u8; BYTES];
    let mut page = Page::new(&mut text);
    match verb {
        Verb::Pressure => answer::put_pressure(&mut page, m, station::pressure(store, m)),
        Verb::Tendency => answer::put_tendency(&mut page, m, station::tendency(store, m)),
        Verb::Wind => answer::put_wind(&mut page, m, station::wind(store, m)),
        _ => answer::put_humidity(&mut page, m, station::humidity(store, m)),
    }
    tell(rt, &page)
}

// Lists the watch file that a word in hex says.
fn read(rt: &impl Print, word: &[u8]) -> io::Result<()> {
    let mut file = [0u8; BYTES];
    let mut text = [0u8; BYTES];
    if let Ok(size) = hexadecimal::unhex(word, &mut file) {
        if let Ok(n) = listing::list(first(&file, size), &mut text) {
            rt.write_all(first(&text, n))?;
        }
    }
    Ok(())
}

// Writes records into lent bytes of that room; more than the longest file needs makes no difference.
fn write(
    rt: &impl Print,
    numbers: &[u64],
    words: usize,
    room: usize,
    file: &mut [u8],
) -> io::Result<()> {
    let mut text = [0u8; BYTES];
    let mut page = Page::new(&mut text);
    let records = values::records_of(numbers, words);
    let count = words.saturating_sub(1);
    let most = room.min(file.len());
    let written = watchlog::write(&mut file[..most], records, count);
    answer::put_written(&mut page, written, first(file, written.unwrap_or(0)));
    tell(rt, &page)
}

// (n is one more than the longest where the line was longer; then its bytes are not looked at.)
// Does what a line of n bytes says. To hear and to ask there has to be a store, which a good opening makes.
fn answer_line(rt: &impl Print, bytes: &[u8], n: usize, store: &mut Store) -> io::Result<()> {
    if n > LINE {
        return println!(rt; "the line is too long: 8192 bytes at most");
    }
    let mut numbers = [0u64; command::NUMBERS];
    let mut text = [0u8; BYTES];
    let line = first(bytes, n);
    let word = line::word(line, 1);
    let command = command::parse(line, &mut numbers);
    let m = short(numbers[0]);
    let deed = match command {
        Ok(Some(deed)) => deed,
        Ok(None) => return Ok(()),
        Err(fault) => {
            let mut page = Page::new(&mut text);
            notice::put_fault(&mut page, fault);
            return tell(rt, &page);
        }
    };
    match deed.verb {
        Verb::Open => open(rt, store, &numbers, deed.words),
        Verb::Read => read(rt, word),
        Verb::Write => write(rt, &numbers, deed.words, m as usize, &mut text),
        _ if !block::is_store(store) => println!(rt; "no store is open"),
        Verb::Hear => hear(rt, store, word),
        Verb::Note => note(rt, store, &numbers),
        verb => ask(rt, store, verb, m),
    }
}

fn main(rt: HostRuntime) -> io::Result<()> {
    let mut store = [0u64; block::WORDS];
    let mut input = [0u8; BYTES];
    let mut line = [0u8; LINE];
    let mut filled: usize = 0;
    for _ in 0..u64::MAX {
        let n = rt.stdin().read(&mut input)?;
        if n == 0 {
            break;
        }
        for b in &input[..n] {
            if *b == b'\n' {
                answer_line(&rt, &line, filled, &mut store)?;
                filled = 0;
                continue;
            }
            if filled < LINE {
                line[filled] = *b;
                filled += 1;
                continue;
            }
            filled = LINE + 1;
        }
    }
    if filled > 0 {
        answer_line(&rt, &line, filled, &mut store)?;
    }
    Ok(())
}

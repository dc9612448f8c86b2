// The commands of the console: from a line of text, without its line end, to a verb and numbers. What the words behind a verb's name
// are is told by a form, and one interpreter reads all forms. Nothing here asks the station.
#![tactic(auto)]

ghost use Rattle.std.specs.Prelude.{◌≡◌, [], ◌∷◌, ◌≤◌, ◌<◌, length};
ghost use Rattle.text.specs.Text.{Put};
ghost use Rattle.line.specs.Words.{words, word_at, words_at, field, fields, fields_at};
ghost use Rattle.command.specs.Forms.{only, told, picks, fits, fields_told, list_told, word_told, may_end, fault_of, line_told};
ghost use Rattle.command.specs.Commands.{verb_at, rows_of, by_table, command_of};
ghost use Rattle.command.specs.Laid.{Lays, Parses};

use hexadecimal::is_hex;
use line::{Place, field_end, next_word, same, signed, whole};
use values::ANEMOMETER;

// The letter of a form for a word in hex, which may be left out.
const HEX: u8 = b'x';

// What a command does.
#[derive(Clone, Copy)]
pub enum Verb {
    Open,
    Hear,
    Note,
    Pressure,
    Tendency,
    Wind,
    Humidity,
    Read,
    Write,
}

// What is wrong with a line: the first fault from the left.
#[derive(Clone, Copy)]
pub enum Fault {
    // the first word is no command
    NotACommand(Place),
    // a word is missing, or left over
    WordCount,
    // a word, or a field of it, is not what a letter of the form asks for: the letter
    NotSuch(u8, Place),
    // a word of a list has not the fields of its form, or the letter of no form
    Misshapen(Place),
}

// A verb, and how many words stand behind its name.
#[derive(Clone, Copy)]
pub struct Deed {
    pub verb: Verb,
    pub words: usize,
}

// The places that the numbers of the longest command take: a room and 48 records.
pub const NUMBERS: usize = 337;

// What is wrong within a word.
#[derive(Clone, Copy)]
enum Flaw {
    NotSuch(u8),
    Misshapen,
    LeftOver,
}

// Puts a number at a place. The place behind it.
fn put(numbers: &mut [u64], at: usize, n: u64) -> usize
    ensures { Put numbers.old numbers.new at (n ∷ []) result }
{
    if at < numbers.len() {
        numbers[at] = n;
        return at + 1;
    }
    numbers.len()
}

// A number, where a text is what it should be.
fn only(right: bool, n: u64) -> Option<u64>
    ensures { result ≡ only right n }
{
    if right { Some(n) } else { None }
}

// What a text says by a letter of a form.
fn told(letter: u8, text: &[u8]) -> Option<u64>
    ensures { result ≡ told letter text.now }
{
    match letter {
        b'n' => whole(text, 4294967295),
        b'h' => whole(text, 65535),
        b'o' => whole(text, 255),
        b'z' => signed(text),
        b'u' => {
            if same(text, b"hPa") {
                return Some(0);
            }
            only(same(text, b"mmHg"), 1)
        }
        b'x' => only(is_hex(text), 0),
        b'a' => only(same(text, b"anemometer"), ANEMOMETER),
        _ => only(same(text, &[letter]), letter as u64),
    }
}

// Whether a letter at a form's start says for which words the form is.
fn picks(letter: u8) -> bool
    ensures { result ≡ picks letter }
{
    letter == b'a' || b'A' <= letter && letter <= b'Z'
}

// Whether a form is one for a word: a capital or `a` at its start has to be what the word's first field says.
fn fits(form: &[u8], word: &[u8]) -> bool
    ensures { result ≡ fits form.now word.now }
{
    if form.is_empty() || !picks(form[0]) {
        return true;
    }
    let to = field_end(word, 0);
    told(form[0], &word[..to]).is_some()
}

// Puts what the fields of a word say by the letters of a form. A point stands for 0, and for no field. The place behind them.
fn lay_fields(form: &[u8], word: &[u8], numbers: &mut [u64], at: usize) -> Result<usize, Flaw>
    requires { at ≤ length numbers.old }
    ensures { Lays numbers.old numbers.new at (fields_told form.now (fields word.now)) result }
{
    let mut place = at;
    let mut from = 0;
    for &letter in form {
        if letter == b'.' {
            place = put(numbers, place, 0);
            continue;
        }
        if word.len() < from {
            return Err(Flaw::Misshapen);
        }
        let to = field_end(word, from);
        let Some(n) = told(letter, &word[from..to]) else {
            return Err(Flaw::NotSuch(letter));
        };
        place = put(numbers, place, n);
        from = to + 1;
    }
    if from <= word.len() {
        return Err(Flaw::Misshapen);
    }
    Ok(place)
}

// Puts what a word of a list says, by the first of the forms from a place on that is one for it. The place behind it.
fn lay_listed(
    forms: &[u8],
    at: usize,
    word: &[u8],
    numbers: &mut [u64],
    place: usize,
) -> Result<usize, Flaw>
    requires { place ≤ length numbers.old }
    ensures { Lays numbers.old numbers.new place (list_told (fields_at forms.now at) word.now) result }
{
    let mut from = at;
    // A `while`, since forms differ in length: a turn goes on behind the form that it looked at.
    while from <= forms.len() {
        let to = field_end(forms, from);
        let form = &forms[from..to];
        if fits(form, word) {
            return lay_fields(form, word, numbers, place);
        }
        from = to + 1;
    }
    Err(Flaw::Misshapen)
}

// Puts what a word says that has a number behind the name, by the letters of a form, of which the first `fixed` stand for a word each.
// The place behind it.
fn lay_word(
    form: &[u8],
    fixed: usize,
    number: usize,
    word: &[u8],
    numbers: &mut [u64],
    place: usize,
) -> Result<usize, Flaw>
    requires { (fixed ≡ length (field form.now)) × (place ≤ length numbers.old) }
    ensures { Lays numbers.old numbers.new place (word_told form.now number word.now) result }
{
    if number < fixed {
        let letter = form[number];
        let Some(n) = told(letter, word) else {
            return Err(Flaw::NotSuch(letter));
        };
        return Ok(put(numbers, place, n));
    }
    if fixed == form.len() {
        return Err(Flaw::LeftOver);
    }
    lay_listed(form, fixed + 1, word, numbers, place)
}

// Whether a line may end before the word with a number; the first `fixed` letters of the form stand for a word each.
fn may_end(form: &[u8], fixed: usize, number: usize) -> bool
    requires { fixed ≡ length (field form.now) }
    ensures { result ≡ may_end form.now number }
{
    fixed <= number || form[number] == HEX
}

// What a flaw of a word is in its line.
fn fault_of(flaw: Flaw, word: Place) -> Fault
    ensures { result ≡ fault_of flaw word }
{
    match flaw {
        Flaw::NotSuch(letter) => Fault::NotSuch(letter, word),
        Flaw::Misshapen => Fault::Misshapen(word),
        Flaw::LeftOver => Fault::WordCount,
    }
}

// Puts what the words from a place on say by a form, up to the first fault.
fn lay_line(
    verb: Verb,
    form: &[u8],
    line: &[u8],
    at: usize,
    numbers: &mut [u64],
) -> Result<Option<Deed>, Fault>
    ensures { Parses numbers.old numbers.new (line_told verb form.now 0 (words_at line.now at)) result }
{
    let fixed = field_end(form, 0);
    let mut here = at;
    let mut count: usize = 0;
    let mut place = 0;
    // A `while`, since a word is found behind the one before it: no index counts them. So in `by_table`.
    while let Some(word) = next_word(line, here) {
        match lay_word(
            form,
            fixed,
            count,
            &line[word.from..word.to],
            numbers,
            place,
        ) {
            Ok(behind) => place = behind,
            Err(flaw) => return Err(fault_of(flaw, word)),
        }
        count += 1;
        here = word.to;
    }
    if !may_end(form, fixed, count) {
        return Err(Fault::WordCount);
    }
    Ok(Some(Deed { verb, words: count }))
}

// The verbs of the rows of the table, up to the last row.
const VERBS: [Verb; 8] = [
    Verb::Open,
    Verb::Hear,
    Verb::Note,
    Verb::Pressure,
    Verb::Tendency,
    Verb::Wind,
    Verb::Humidity,
    Verb::Read,
];

// The verb of a row of the table.
fn verb_at(row: usize) -> Verb
    ensures { result ≡ verb_at row }
{
    if row < 8 {
        return VERBS[row];
    }
    Verb::Write
}

// The command of the row whose name the first word is.
fn by_table(
    table: &[u8],
    line: &[u8],
    word: Place,
    numbers: &mut [u64],
) -> Result<Option<Deed>, Fault>
    requires { (word.from < word.to) × (word.to ≤ length line.now) }
    ensures { Parses numbers.old numbers.new (by_table (rows_of 0 (words table.now)) (word_at line.now word.from word.to) (words_at line.now word.to)) result }
{
    let mut at = 0;
    let mut row: usize = 0;
    while let Some(name) = next_word(table, at) {
        let Some(form) = next_word(table, name.to) else {
            break;
        };
        if same(&line[word.from..word.to], &table[name.from..name.to]) {
            let letters = form.from + 1;
            return lay_line(
                verb_at(row),
                &table[letters..form.to],
                line,
                word.to,
                numbers,
            );
        }
        row += 1;
        at = form.to;
    }
    Err(Fault::NotACommand(word))
}

// The command of a line, none where it has no words or is a remark, or its first fault from the left. `numbers` has at its start what
// the words and fields say that stand before the fault, as far as there is room: a number a word, and for a word of a list as many as
// its form has letters.
pub fn parse(line: &[u8], numbers: &mut [u64]) -> Result<Option<Deed>, Fault>
    ensures { Parses numbers.old numbers.new (command_of line.now) result }
{
    let Some(word) = next_word(line, 0) else {
        return Ok(None);
    };
    if line[word.from] == b'#' {
        return Ok(None);
    }
    by_table(
        b"open =uzzzz:a.:zz \
        hear =x \
        note =nnnnn \
        pressure =n \
        tendency =n \
        wind =n \
        humidity =n \
        read =x \
        write =n:Pnh....:Tnzo...:Wnhh...:Hnhhhoz ",
        line,
        word,
        numbers,
    )
}

// What the console says of a line that is no command: one line on a page.
#![tactic(auto)]

ghost use Rattle.text.specs.Text.{Puts};
ghost use Rattle.notice.specs.Notice.{wrong_line, not_such, fault_line};

use command::Fault;
use line::Place;
use text::Page;

// Puts what is wrong, and the place in the line.
fn put_wrong(page: &mut Page<'_>, words: &[u8], p: Place)
    ensures { Puts page.old page.new (wrong_line words.now p) }
{
    page.bytes(words);
    page.bytes(b", at");
    page.field(p.from as u64);
    page.byte(b'\n');
}

// Puts what a letter of a command's form asks for, and the place of the word that is no such.
fn put_not_such(page: &mut Page<'_>, letter: u8, p: Place)
    ensures { Puts page.old page.new (wrong_line (not_such letter) p) }
{
    match letter {
        b'u' => put_wrong(page, b"not a unit, hPa or mmHg", p),
        b'x' => put_wrong(page, b"not bytes in hex", p),
        _ => put_wrong(page, b"not a number that fits", p),
    }
}

// Puts one clear line for what is no command.
pub fn put_fault(page: &mut Page<'_>, fault: Fault)
    ensures { Puts page.old page.new (fault_line fault) }
{
    match fault {
        Fault::NotACommand(p) => put_wrong(page, b"not a command", p),
        Fault::WordCount => page.bytes(b"a word is missing or left over\n"),
        Fault::NotSuch(letter, p) => put_not_such(page, letter, p),
        Fault::Misshapen(p) => put_wrong(page, b"not of the form that is wanted", p),
    }
}

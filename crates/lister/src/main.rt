// Lists one watch file from standard input: a line for the file and one for each record, or the place where it is broken.
#![tactic(auto)]

ghost use Rattle.std.specs.Prelude.{◌≤◌, length, IfOk};

use std::io;
use std::io::Read;

// The most bytes that are read. The longest good file has 820, so one that has more is broken at that place at the latest.
const MOST: usize = 821;

// Reads until the bytes are full or the input ends. Returns how many there are.
fn read_full(input: &mut impl Read, bytes: &mut [u8]) -> io::Result<usize>
    ensures { IfOk result (λ n. n ≤ length bytes.new) }
{
    let mut done = 0;
    // A `while`, since a read may give fewer bytes than there is room for.
    while done < bytes.len() {
        let n = input.read(&mut bytes[done..])?;
        if n == 0 {
            break;
        }
        done += n;
    }
    Ok(done)
}

// Writes the first n bytes of a text.
fn say(rt: &impl Print, text: &[u8], n: usize) -> io::Result<()> {
    if n <= text.len() {
        rt.write_all(&text[..n])?;
    }
    Ok(())
}

fn main(rt: HostRuntime) -> io::Result<()> {
    let mut file = [0u8; MOST];
    let n = read_full(&mut rt.stdin(), &mut file)?;
    let mut text = [0u8; listing::TEXT];
    if let Ok(k) = listing::list(&file[..n], &mut text) {
        say(&rt, &text, k)?;
    }
    Ok(())
}

// Reads messages from standard input, 16 bytes each, and writes a line for each: channel, minute, values in tenths or whole degrees
// and the wet bulb's state, or the refusal. The unit of the barometer is the first argument, hPa or mmHg.
#![tactic(auto)]

ghost use Rattle.std.specs.Prelude.{◌≤◌, length, IfOk};

use message::Reading;
use quantity::BarometerUnit;
use std::env::Env;
use std::io;
use std::io::Read;
use wire::MessageRefusal;

fn say_refusal(rt: &impl Print, r: MessageRefusal) -> io::Result<()> {
    println!(rt; "refused {}", wire::number(r))
}

fn say_reading(rt: &impl Print, minute: u32, r: Reading) -> io::Result<()> {
    match r {
        Reading::Hectopascals(p) => println!(rt; "0 {minute} {}", p.0.v),
        Reading::Millimetres(p) => println!(rt; "0 {minute} {}", p.0.v),
        Reading::Wheelhouse(t) => println!(rt; "1 {minute} {}", t.0.v),
        Reading::ApparentWind(v, d) => println!(rt; "2 {minute} {} {}", v.0, d.0),
        Reading::ShipMotion(v, d) => println!(rt; "3 {minute} {} {}", v.0, d.0),
        Reading::DryBulb(t) => println!(rt; "4 {minute} {}", t.0.v),
        Reading::WetBulb(state, t) => println!(rt; "5 {minute} {} {}", t.0.v, state.number()),
    }
}

// (`lister` has the same: a crate below both for one function of a program would be no plainer.)
// Reads until the bytes are full or the input ends. Returns how many there are.
fn read_full(input: &mut impl Read, bytes: &mut [u8]) -> io::Result<usize>
    ensures { IfOk result (λ n. n ≤ length bytes.new) }
{
    let mut done = 0;
    // A `while`, since a read may give fewer bytes than there is room for.
    while done < bytes.len() {
        let n = input.read(&mut bytes[done..])?;
        if n == 0 {
            break;
        }
        done += n;
    }
    Ok(done)
}

// Reads one message and says what it comes to. Whether there was one.
fn take_one(rt: &impl Print, input: &mut impl Read, unit: BarometerUnit) -> io::Result<bool> {
    let mut bytes = [0u8; 16];
    let n = read_full(input, &mut bytes)?;
    if n == 0 {
        return Ok(false);
    }
    match message::receive(&bytes[..n], unit) {
        Ok((minute, r)) => say_reading(rt, minute.0, r)?,
        Err(r) => say_refusal(rt, r)?,
    }
    Ok(true)
}

fn take_all(rt: &impl Print, input: &mut impl Read, unit: BarometerUnit) -> io::Result<()> {
    for _ in 0..1_000_000_000u64 {
        if !take_one(rt, input, unit)? {
            break;
        }
    }
    Ok(())
}

// The unit that the first argument names.
fn named_unit(rt: &impl Env) -> Option<BarometerUnit> {
    let mut word = [0u8; 8];
    let n = rt.arg(1, &mut word).unwrap_or(0);
    match &word[..n] {
        b"hPa" => Some(BarometerUnit::Hectopascals),
        b"mmHg" => Some(BarometerUnit::Millimetres),
        _ => None,
    }
}

fn main(rt: HostRuntime) -> io::Result<()> {
    match named_unit(&rt) {
        Some(unit) => take_all(&rt, &mut rt.stdin(), unit),
        None => println!(rt; "intake: name the barometer's unit, hPa or mmHg"),
    }
}

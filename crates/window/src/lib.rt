// A channel's window: its part of the lent block. One word for the minute after the newest, one presence bit a minute, one cell
// a minute. A slice of another length is no window: nothing is kept in it, and it takes nothing.
#![tactic(auto)]

ghost use Rattle.std.specs.Prelude.{◌≡◌, ℕ, ◌+◌, ◌-◌, ◌*◌, ◌/◌, ◌%◌, ◌^◌, ◌≤◌, ◌<◌, min, max, length, get_or};
ghost use Rattle.window.specs.Layout.{MINUTES, WINDOW, word_of, cell_of};
ghost use Rattle.window.specs.Bits.{bit, total};
ghost use Rattle.window.specs.Window.{next, bit_of, present, kept, mark, wiped, accepted, Taken, absents};

// Minutes kept for a channel: the newest and those before it.
pub const MINUTES: u64 = 256;

// The parts of a window.
const NEXT: usize = 0;

const HEARD: usize = 1;

const CELLS: usize = HEARD + MINUTES as usize / 64;

pub const WINDOW: usize = CELLS + MINUTES as usize;

// The word of a window that has a minute's presence bit.
fn word_of(m: u64) -> usize
    ensures { result ≡ word_of m }
{
    HEARD + (m % MINUTES / 64) as usize
}

// The word of a window that is a minute's cell.
fn cell_of(m: u64) -> usize
    ensures { result ≡ cell_of m }
{
    CELLS + (m % MINUTES) as usize
}

// The bit k of w: 0 or 1.
#[tactic(auto, using(crate::proofs::BitLaws::bit_by))]
fn bit(w: u64, k: u64) -> u64
    requires { k < 64 }
    ensures { result ≡ bit w k }
{
    w / number::power(k) % 2
}

// How many of the n bits of w from o on are set.
fn ones_in(w: u64, o: u64, n: u64) -> u64
    requires { (0 < n) × (o + n ≤ 64) }
    ensures { (result ≡ total (bit w) o n) × (result ≤ n) }
{
    u64::count_ones((w >> o) & (0xffff_ffff_ffff_ffff >> (64 - n))) as u64
}

// (What follows takes slices and asks for their length: std makes an array's reference of a `&mut` slice, but promises nothing of what is
// written through it.)
// How many of the n minutes from `from` on have their bit set: the words that end among them, and then the part of one that is left,
// each masked to those minutes.
fn heard_among(window: &[u64], from: u64, n: u64) -> u64
    requires { (length window.now ≡ WINDOW) × (from + n + 64 < 2 ^ 64) }
    ensures { (result ≡ total (bit_of window.now) from n) × (result ≤ n) }
{
    let to = from + n;
    let mut at = from;
    let mut sum: u64 = 0;
    for k in from / 64..to / 64 {
        let o = at % 64;
        sum += ones_in(window[word_of(k * 64)], o, 64 - o);
        at = k * 64 + 64;
    }
    if at == to {
        return sum;
    }
    sum + ones_in(window[word_of(at)], at % 64, to - at)
}

// Marks a minute as heard, and those from `from` up to it, which share its word, as absent.
fn mark_after(window: &mut [u64], from: u64, m: u64)
    requires { (length window.old ≡ WINDOW) × (from ≤ m) × (from / 64 ≡ m / 64) }
    ensures { window.new ≡ mark (wiped window.old from (m - from)) m }
{
    let i = word_of(m);
    let w = window[i];
    let p = number::power(m % 64);
    window[i] = (w / p / 2 * 2 + 1) * p + w % number::power(from % 64);
}

// Marks the minutes from `from` up to `to`, the first of a word, as absent: the first word from its minute on, the others whole. There may
// be none.
fn wipe(window: &mut [u64], from: u64, to: u64)
    requires { (length window.old ≡ WINDOW) × (to % 64 ≡ 0) }
    ensures { window.new ≡ wiped window.old from (to - from) }
{
    if to <= from {
        return;
    }
    let i = word_of(from);
    window[i] = window[i] % number::power(from % 64);
    for k in from / 64 + 1..to / 64 {
        window[word_of(k * 64)] = 0;
    }
}

// Marks the minutes from t up to the word of m as absent, or all of them where none that was heard is within reach of m. Tells from which
// minute on those in that word are left.
fn clear_before(window: &mut [u64], t: u64, m: u64) -> u64
    requires { (length window.old ≡ WINDOW) × (t ≤ m) }
    ensures { (result ≤ m) × (result / 64 ≡ m / 64) × (mark (wiped window.new result (m - result)) m ≡ mark (wiped window.old (m - min (m - t) MINUTES) (min (m - t) MINUTES)) m) }
{
    if m - t >= MINUTES - 1 {
        wipe(window, 0, MINUTES);
        return m;
    }
    let start = m - m % 64;
    wipe(window, t, start);
    t.max(start)
}

// Keeps a value for a minute that is later than the newest; the minutes jumped over become absent.
#[tactic(auto, using(crate::proofs::AcceptLaws::accepted_is))]
fn keep(window: &mut [u64], m: u64, value: u64)
    requires { (length window.old ≡ WINDOW) × (get_or window.old 0 0 ≤ m) × (m + 1 < 2 ^ 64) }
    ensures { window.new ≡ accepted window.old m value }
{
    let t = window[NEXT];
    let from = clear_before(window, t, m);
    mark_after(window, from, m);
    let k = cell_of(m);
    window[k] = value;
    window[NEXT] = m + 1;
}

// The minute after the newest; 0 where nothing was heard.
pub fn next(window: &[u64]) -> u64
    ensures { result ≡ next window.now }
{
    window.get(NEXT).copied().unwrap_or(0)
}

// Takes a value for a minute, if it is later than the newest: true, and the value is kept; else false, and nothing changes.
#[tactic(auto, using(crate::proofs::TakenLaws::else_answer, crate::proofs::TakenLaws::else_words, crate::proofs::TakenLaws::late_answer, crate::proofs::TakenLaws::late_words, crate::proofs::TakenLaws::kept_answer, crate::proofs::TakenLaws::kept_words))]
pub fn accept(window: &mut [u64], minute: u32, value: u64) -> bool
    ensures { Taken window.old window.new minute value result }
{
    let m = minute as u64;
    if window.len() != WINDOW || m < window[NEXT] {
        return false;
    }
    keep(window, m, value);
    true
}

// What is kept of a minute.
#[tactic(auto, using(crate::proofs::FindLaws::find_else, crate::proofs::FindLaws::find_late, crate::proofs::FindLaws::find_gone, crate::proofs::FindLaws::find_unset, crate::proofs::FindLaws::find_set))]
pub fn find(window: &[u64], minute: u32) -> Option<u64>
    ensures { result ≡ kept window.now minute }
{
    let m = minute as u64;
    if window.len() != WINDOW {
        return None;
    }
    let t = window[NEXT];
    if m >= t || t - m > MINUTES || bit(window[word_of(m)], m % 64) == 0 {
        return None;
    }
    Some(window[cell_of(m)])
}

// How many of the n minutes before a minute are absent.
#[tactic(auto, using(crate::proofs::AbsentLaws::missed_else, crate::proofs::AbsentLaws::missed_apart, crate::proofs::AbsentLaws::missed_some))]
pub fn missed(window: &[u64], minute: u32, n: u32) -> u64
    ensures { result ≡ absents (present window.now) minute n }
{
    let m = minute as u64;
    let all = n as u64;
    if window.len() != WINDOW {
        return all;
    }
    let t = window[NEXT];
    let lo = m.saturating_sub(all).max(t.saturating_sub(MINUTES));
    let hi = m.min(t);
    if lo < hi {
        return all - heard_among(window, lo, hi - lo);
    }
    all
}

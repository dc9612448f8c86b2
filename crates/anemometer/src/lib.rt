// The hand anemometer: from two readings of its dial and the seconds between them to a speed, and from a compass direction to one from
// the bow.
#![tactic(auto)]

ghost use Rattle.std.specs.Prelude.{◌≡◌, ◌≤◌};
ghost use Rattle.anemometer.specs.Anemometer.{turns, dial_holds, from_bow, certificate_held, measured, measured_as};

use block::Store;
use number::Number;
use quantity::{Degrees, MetresPerSecond};

// What the mate notes: the minute, the compass direction of the wind in whole degrees, two readings of the dial and the seconds between
// them. Right or wrong.
#[repr(C)]
#[derive(Clone, Copy)]
pub struct Note {
    pub minute: u32,
    pub direction: u32,
    pub first: u32,
    pub second: u32,
    pub seconds: u32,
}

// Why the dial tells no speed.
#[derive(Clone, Copy)]
pub enum DialRefusal {
    // 23: the seconds, or a reading of the dial, lie outside their limits
    OutsideDial,
    // 24: the rate lies outside the certificate, or there is none
    OutsideCertificate,
}

impl Note {
    pub const LAST_DIVISION: u32 = 9999;

    pub const LONGEST: u32 = 600;

    // Whether seconds and dial lie within their limits.
    #[tactic(auto, unfolding(crate::specs::Anemometer::dial_holds))]
    pub fn holds(self) -> bool
        ensures { result ≡ dial_holds self }
    {
        self.first <= Self::LAST_DIVISION
            && self.second <= Self::LAST_DIVISION
            && self.seconds != 0
            && self.seconds <= Self::LONGEST
    }
}

// How many divisions the dial has turned.
fn turns(first: u32, second: u32) -> u32
    requires { (first ≤ 9999) × (second ≤ 9999) }
    ensures { (result ≡ turns first second) × (result ≤ 9999) }
{
    if second < first {
        return second + 10000 - first;
    }
    second - first
}

// The speed of the apparent wind: the straight line between the neighbouring points of the store's certificate at the exact rate, rounded.
// Or the first of refusals 23 and 24 that holds.
pub fn measure(store: &Store, n: Note) -> Result<MetresPerSecond, DialRefusal>
    ensures { measured_as result ≡ measured (certificate_held store.now) n }
{
    if !n.holds() {
        return Err(DialRefusal::OutsideDial);
    }
    let turned = Number::whole(turns(n.first, n.second));
    match certificate::value_at(block::anemometer(store), n.seconds as u16, turned) {
        Some(v) if MetresPerSecond::holds(v) => Ok(MetresPerSecond(v.size() as u32)),
        _ => Err(DialRefusal::OutsideCertificate),
    }
}

// A compass direction as one from the bow: less the course, 360 added when negative; 360 is kept as 0.
pub fn from_bow(direction: u32, course: Degrees) -> Degrees
    ensures { result.0 ≡ from_bow direction course.0 }
{
    let compass = direction as u64;
    let ahead = course.0 as u64;
    if ahead <= compass {
        return Degrees::keep((compass - ahead) as u32);
    }
    if ahead <= compass + 360 {
        return Degrees::keep((compass + 360 - ahead) as u32);
    }
    Degrees::keep(0)
}

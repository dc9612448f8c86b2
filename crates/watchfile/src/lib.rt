// The records of a watch file, and the rules of its fields: what the reader and the writer test alike.
#![tactic(auto)]

ghost use Rattle.std.specs.Prelude.{◌≡◌, ℕ, ℤ};
ghost use Rattle.watchfile.specs.Rules.{kind_right, size_of, rank, minute_right, pressure_right, change_right, absent_right, speed_right, direction_right, e_right, saturation_right, deficit_right, relative_right, dew_right};
ghost use Rattle.watchfile.specs.Format.{DewRule, kind_of, body_right, record_right};

use number::{Kept, Number};
use quantity::{Degrees, Hectopascals, MetresPerSecond, Minute};
use vapour::{DewTemperature, VapourPressure};

// What a record holds, by its kind: the fields as the file stores them.
#[derive(Clone, Copy)]
pub enum Body {
    // tenths of hPa
    Pressure(u16),
    // tenths of hPa, and minutes
    Tendency {
        change: Kept,
        absent: u8,
    },
    // tenths of m/s, and degrees
    Wind {
        speed: u16,
        direction: u16,
    },
    // hundredths of hPa, percent, and tenths of °C
    Humidity {
        e: u16,
        saturation: u16,
        deficit: u16,
        relative: u8,
        dew: Kept,
    },
}

// A record of a watch file.
#[derive(Clone, Copy)]
pub struct Record {
    pub minute: u32,
    pub body: Body,
}

// A record by its figures: its kind, 1 to 4, its minute, and its body's fields in their order.
#[repr(C)]
#[derive(Clone, Copy)]
pub struct Figures {
    pub kind: u32,
    pub minute: u32,
    pub first: Kept,
    pub second: Kept,
    pub third: Kept,
    pub fourth: Kept,
    pub fifth: Kept,
}

// The figures of no record.
pub const NOTHING: Figures = Figures {
    kind: 0,
    minute: 0,
    first: Kept { v: 0 },
    second: Kept { v: 0 },
    third: Kept { v: 0 },
    fourth: Kept { v: 0 },
    fifth: Kept { v: 0 },
};

// The most records that a file can have.
pub const RECORDS: usize = 48;

// What stands at a place without a record. No file may hold it.
pub const BLANK: Record = Record {
    minute: 0,
    body: Body::Pressure(0),
};

impl Body {
    // The number of the body's kind.
    pub fn kind(self) -> u8
        ensures { result ≡ kind_of self }
    {
        match self {
            Body::Pressure(_) => 1,
            Body::Tendency { .. } => 2,
            Body::Wind { .. } => 3,
            Body::Humidity { .. } => 4,
        }
    }
}

// The bytes of a body of a kind.
// Kinds stay numbers here: what is said of a number that is no kind may not change, and an enum would leave those out.
pub fn size_of(kind: u8) -> usize
    ensures { result ≡ size_of kind }
{
    match kind {
        1 => 2,
        2 => 3,
        3 => 4,
        _ => 9,
    }
}

// The rank by which records rise: by minute, then kind.
pub fn rank(minute: u32, kind: u8) -> u64
    ensures { result ≡ rank minute kind }
{
    8 * (minute as u64) + (kind as u64)
}

// Whether a number is that of a kind.
#[tactic(auto, unfolding(crate::specs::Rules::kind_right))]
pub fn kind_right(kind: u8) -> bool
    ensures { result ≡ kind_right kind }
{
    1 <= kind && kind <= 4
}

// Whether a record of a kind may stand at a minute behind one of rank `before` (0: it is the first).
#[tactic(auto, unfolding(crate::specs::Rules::minute_right))]
pub fn minute_right(before: u64, kind: u8, minute: u32) -> bool
    ensures { result ≡ minute_right before kind minute }
{
    Minute::holds(minute)
        && before < rank(minute, kind)
        && (kind != 2 || Minute::THREE_HOURS <= minute)
}

// Whether a pressure may stand in a file.
#[tactic(auto, unfolding(crate::specs::Rules::pressure_right))]
pub fn pressure_right(pressure: u16) -> bool
    ensures { result ≡ pressure_right pressure }
{
    Hectopascals::recorded(Number::whole(pressure as u32))
}

// Whether a change may stand in a file.
#[tactic(auto, unfolding(crate::specs::Rules::change_right))]
pub fn change_right(change: Kept) -> bool
    ensures { result ≡ change_right change.v }
{
    Hectopascals::changes(change.number())
}

// Whether a number of absent minutes may stand in a file.
#[tactic(auto, unfolding(crate::specs::Rules::absent_right))]
pub fn absent_right(absent: u8) -> bool
    ensures { result ≡ absent_right absent }
{
    (absent as u32) <= Minute::BETWEEN
}

// Whether a speed may stand in a file.
#[tactic(auto, unfolding(crate::specs::Rules::speed_right))]
pub fn speed_right(speed: u16) -> bool
    ensures { result ≡ speed_right speed }
{
    MetresPerSecond::blows(speed as u32)
}

// Whether a direction may stand beside a speed.
#[tactic(auto, unfolding(crate::specs::Rules::direction_right))]
pub fn direction_right(speed: u16, direction: u16) -> bool
    ensures { result ≡ direction_right speed direction }
{
    if speed == 0 {
        direction == 0
    } else {
        1 <= direction && Degrees::holds(Number::whole(direction as u32))
    }
}

// Whether e may stand beside a saturation.
#[tactic(auto, unfolding(crate::specs::Rules::e_right))]
pub fn e_right(saturation: u16, e: u16) -> bool
    ensures { result ≡ e_right saturation e }
{
    VapourPressure::LOW <= (e as u32) && e <= saturation
}

// Whether a saturation may stand in a file.
#[tactic(auto, unfolding(crate::specs::Rules::saturation_right))]
pub fn saturation_right(saturation: u16) -> bool
    ensures { result ≡ saturation_right saturation }
{
    VapourPressure::holds(saturation as u32)
}

// Whether a deficit is that of e at a saturation.
#[tactic(auto, unfolding(crate::specs::Rules::deficit_right))]
pub fn deficit_right(e: u16, saturation: u16, deficit: u16) -> bool
    ensures { result ≡ deficit_right e saturation deficit }
{
    let rule = vapour::deficit(VapourPressure(e as u32), VapourPressure(saturation as u32));
    (deficit as u32) == rule.0
}

// Whether a relative humidity is that of e at a saturation.
#[tactic(auto, unfolding(crate::specs::Rules::relative_right))]
pub fn relative_right(e: u16, saturation: u16, relative: u8) -> bool
    ensures { result ≡ relative_right e saturation relative }
{
    let rule = vapour::relative_humidity(
        VapourPressure(e as u32),
        VapourPressure(saturation as u32),
    );
    (relative as u64) == rule
}

// Whether a dew point is that of e.
pub fn dew_right(e: u16, dew: Kept) -> bool
    ensures { (rule : ℕ → ℤ) → DewRule rule → result ≡ dew_right rule e dew.v }
{
    vapour::is_dew_point(VapourPressure(e as u32), DewTemperature(dew))
}

// Whether a body may stand in a file.
pub fn body_right(body: Body) -> bool
    ensures { (rule : ℕ → ℤ) → DewRule rule → result ≡ body_right rule body }
{
    match body {
        Body::Pressure(pressure) => pressure_right(pressure),
        Body::Tendency { change, absent } => change_right(change) && absent_right(absent),
        Body::Wind { speed, direction } => speed_right(speed) && direction_right(speed, direction),
        Body::Humidity {
            e,
            saturation,
            deficit,
            relative,
            dew,
        } => {
            e_right(saturation, e)
                && saturation_right(saturation)
                && deficit_right(e, saturation, deficit)
                && relative_right(e, saturation, relative)
                && dew_right(e, dew)
        }
    }
}

// Whether a record may stand behind one of rank `before` (0: it is the first).
pub fn record_right(before: u64, r: Record) -> bool
    ensures { (rule : ℕ → ℤ) → DewRule rule → result ≡ record_right rule before r }
{
    minute_right(before, r.body.kind(), r.minute) && body_right(r.body)
}

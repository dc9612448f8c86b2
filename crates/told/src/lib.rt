// Answers as C sees them: the documents' number, what a refusal also returns, and figures. A number of 0 says that
// nothing was refused.
#![tactic(auto)]

ghost use Rattle.std.specs.Prelude.{◌≡◌};
ghost use Rattle.store.specs.Block.{heard_as};
ghost use Rattle.station.specs.Told.{refusal_of, pressure_as, tendency_as, wind_as, humidity_as};
ghost use Rattle.told.specs.Told.{heard_in, noted_in, refusal_in, pressure_in, tendency_in, wind_in, humidity_in};

use humidity::HumidityFigures;
use number::{Kept, Number};
use quantity::Hectopascals;
use station::{PressureTendency, QuestionRefusal, Refused};
use store::HearingRefusal;
use wind::Wind;

// What hearing a message came to: the number, and the minutes where it was late, 19.
#[repr(C)]
#[derive(Clone, Copy)]
pub struct HearTold {
    pub number: u32,
    pub late: u64,
}

// What hearing an entry came to: the number, and the channel and the minute where there is no course, 11, or the minutes where it was
// late, 19.
#[repr(C)]
#[derive(Clone, Copy)]
pub struct NoteTold {
    pub number: u32,
    pub channel: u32,
    pub minute: u32,
    pub late: u64,
}

// Why a question is refused: the number, and the channel and the minute where it returns them.
#[repr(C)]
#[derive(Clone, Copy)]
pub struct Refusal {
    pub number: u32,
    pub channel: u32,
    pub minute: u32,
}

// Nothing is refused.
pub const NONE: Refusal = Refusal {
    number: 0,
    channel: 0,
    minute: 0,
};

// Figures are 0 where the question is refused.
#[repr(C)]
#[derive(Clone, Copy)]
pub struct PressureTold {
    pub refusal: Refusal,
    pub pressure: Number,
}

#[repr(C)]
#[derive(Clone, Copy)]
pub struct TendencyTold {
    pub refusal: Refusal,
    pub change: Number,
    pub absent: u64,
}

#[repr(C)]
#[derive(Clone, Copy)]
pub struct WindTold {
    pub refusal: Refusal,
    pub speed: u32,
    pub direction: u32,
}

#[repr(C)]
#[derive(Clone, Copy)]
pub struct HumidityTold {
    pub refusal: Refusal,
    pub e: u32,
    pub saturation: u32,
    pub deficit: u32,
    pub relative: u32,
    pub dew: Kept,
}

// ---- hearing

// What hearing an entry came to, as a number with what it also returns.
pub fn noting_told(h: Result<(), HearingRefusal>) -> NoteTold
    ensures { result ≡ noted_in (heard_as h) }
{
    let number = store::number(h);
    match h {
        Err(HearingRefusal::Late(late)) => NoteTold {
            number,
            channel: 0,
            minute: 0,
            late,
        },
        Err(HearingRefusal::NoCourse(m)) => NoteTold {
            number,
            channel: 3,
            minute: m.0,
            late: 0,
        },
        _ => NoteTold {
            number,
            channel: 0,
            minute: 0,
            late: 0,
        },
    }
}

// What hearing a message came to, as a number with the minutes that it was late.
pub fn hearing_told(h: Result<(), HearingRefusal>) -> HearTold
    ensures { result ≡ heard_in (heard_as h) }
{
    let told = noting_told(h);
    HearTold {
        number: told.number,
        late: told.late,
    }
}

// ---- questions

// Why a question is refused, as a number with channel and minute.
fn refusal_of(r: QuestionRefusal) -> Refusal
    ensures { result ≡ refusal_in (refusal_of r) }
{
    match station::number(r) {
        Refused::Plain(number) => Refusal {
            number,
            channel: 0,
            minute: 0,
        },
        Refused::OfMinute(number, m) => Refusal {
            number,
            channel: 0,
            minute: m.0,
        },
        Refused::OfReading(number, channel, m) => Refusal {
            number,
            channel,
            minute: m.0,
        },
    }
}

// The pressure of an answer, or why there is none.
pub fn pressure_told(a: Result<Hectopascals, QuestionRefusal>) -> PressureTold
    ensures { result ≡ pressure_in (pressure_as a) }
{
    match a {
        Ok(p) => PressureTold {
            refusal: NONE,
            pressure: p.0,
        },
        Err(r) => PressureTold {
            refusal: refusal_of(r),
            pressure: Number { v: 0 },
        },
    }
}

// The change of pressure and the absent minutes, or why there are none.
pub fn tendency_told(a: Result<PressureTendency, QuestionRefusal>) -> TendencyTold
    ensures { result ≡ tendency_in (tendency_as a) }
{
    match a {
        Ok(t) => TendencyTold {
            refusal: NONE,
            change: t.change.0,
            absent: t.absent,
        },
        Err(r) => TendencyTold {
            refusal: refusal_of(r),
            change: Number { v: 0 },
            absent: 0,
        },
    }
}

// Speed and direction of the wind, or why there are none.
pub fn wind_told(a: Result<Wind, QuestionRefusal>) -> WindTold
    ensures { result ≡ wind_in (wind_as a) }
{
    match a {
        Ok(w) => WindTold {
            refusal: NONE,
            speed: w.speed.0,
            direction: w.direction.0,
        },
        Err(r) => WindTold {
            refusal: refusal_of(r),
            speed: 0,
            direction: 0,
        },
    }
}

// The figures of humidity, or why there are none.
pub fn humidity_told(a: Result<HumidityFigures, QuestionRefusal>) -> HumidityTold
    ensures { result ≡ humidity_in (humidity_as a) }
{
    match a {
        Ok(h) => HumidityTold {
            refusal: NONE,
            e: h.e.0,
            saturation: h.saturation.0,
            deficit: h.deficit.0,
            relative: h.relative,
            dew: h.dew.0,
        },
        Err(r) => HumidityTold {
            refusal: refusal_of(r),
            e: 0,
            saturation: 0,
            deficit: 0,
            relative: 0,
            dew: Kept { v: 0 },
        },
    }
}

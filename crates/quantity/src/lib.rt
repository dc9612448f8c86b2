// The quantities of a ship's weather, each with its limits. All are whole numbers of the last place that document 01 shows.
// A quantity of another unit is another type, and the one conversion of each pair that a formula joins stands here.
#![tactic(auto)]

ghost use Rattle.std.specs.Prelude.{◌≡◌, ℕ, ◌*◌, ◌%◌, leb, pos};
ghost use Rattle.quantity.specs.Limits.{inside, hectopascals, recorded_pressure, pressure_change, millimetres, pressure_limits, wheelhouse, bulb, frost, doubtful, metres_per_second, true_wind, knots, degrees, last_minute};
ghost use Rattle.quantity.specs.States.{state_number, is_state, state_of};
ghost use Rattle.quantity.specs.Convert.{in_hectopascals, kept_direction, parts_of_knots, parts_of_metres};

use number::{Kept, Number};

// The unit of a barometer.
#[derive(Clone, Copy)]
pub enum BarometerUnit {
    Hectopascals,
    Millimetres,
}

// A pressure in tenths of hPa. One size up from mm Hg, so that every number of mm Hg has its hPa.
#[derive(Clone, Copy)]
pub struct Hectopascals(pub Number);

// A pressure in tenths of mm Hg.
#[derive(Clone, Copy)]
pub struct Millimetres(pub Kept);

// The temperature in the wheelhouse, in tenths of °C.
#[derive(Clone, Copy)]
pub struct WheelhouseTemperature(pub Kept);

// The temperature of the dry or the wet bulb, in tenths of °C.
#[derive(Clone, Copy)]
pub struct BulbTemperature(pub Kept);

// What is on the wick of the wet bulb.
#[derive(Clone, Copy)]
pub enum BulbState {
    Water,
    Ice,
    // nobody looked
    Unknown,
}

// A speed in tenths of m/s.
#[derive(Clone, Copy)]
pub struct MetresPerSecond(pub u32);

// A speed in tenths of a knot.
#[derive(Clone, Copy)]
pub struct Knots(pub u32);

// A speed in parts of 1/12500 m/s: in these a tenth of a m/s and 0.5144 times a tenth of a knot are both whole.
#[derive(Clone, Copy)]
pub struct SpeedParts(pub u64);

// A direction in whole degrees, clockwise.
#[derive(Clone, Copy)]
pub struct Degrees(pub u32);

// A minute of the station's count.
#[derive(Clone, Copy)]
pub struct Minute(pub u32);

// Each quantity has a `holds` of its own: a trait of quantities is no plainer, since its impl says each limit three times.
impl BarometerUnit {
    // Whether n is a barometer's reading in tenths of this unit.
    pub fn holds(self, n: Number) -> bool
        ensures { result ≡ inside (pressure_limits self) n.v }
    {
        match self {
            BarometerUnit::Hectopascals => Hectopascals::holds(n),
            BarometerUnit::Millimetres => Millimetres::holds(n),
        }
    }
}

impl Hectopascals {
    pub const LOW: Number = Number { v: 8500 };

    pub const HIGH: Number = Number { v: 11000 };

    // Whether n is a barometer's reading in tenths of hPa.
    pub fn holds(n: Number) -> bool
        ensures { result ≡ inside hectopascals n.v }
    {
        n.within(Self::LOW, Self::HIGH)
    }

    pub const RECORDED_LOW: Number = Number { v: 8000 };

    pub const RECORDED_HIGH: Number = Number { v: 11500 };

    // Whether n is a pressure as a watch file records it, in tenths of hPa: worked from a reading, and so wider than one.
    pub fn recorded(n: Number) -> bool
        ensures { result ≡ inside recorded_pressure n.v }
    {
        n.within(Self::RECORDED_LOW, Self::RECORDED_HIGH)
    }

    pub const CHANGE_LOW: Number = Number { v: -3000 };

    pub const CHANGE_HIGH: Number = Number { v: 3000 };

    // Whether n is a change of pressure in three hours, in tenths of hPa.
    pub fn changes(n: Number) -> bool
        ensures { result ≡ inside pressure_change n.v }
    {
        n.within(Self::CHANGE_LOW, Self::CHANGE_HIGH)
    }
}

impl Millimetres {
    pub const LOW: Number = Number { v: 6400 };

    pub const HIGH: Number = Number { v: 8250 };

    // Whether n is a barometer's reading in tenths of mm Hg.
    pub fn holds(n: Number) -> bool
        ensures { result ≡ inside millimetres n.v }
    {
        n.within(Self::LOW, Self::HIGH)
    }

    // The same pressure in hPa: times 1.3332, rounded to 0.1.
    pub fn hectopascals(self) -> Hectopascals
        ensures { result.0.v ≡ in_hectopascals self.0.v }
    {
        let n = self.0;
        let factor = Number { v: 13332 };
        Hectopascals(n.number().times(factor).over(10000))
    }
}

impl WheelhouseTemperature {
    pub const LOW: Number = Number { v: -400 };

    pub const HIGH: Number = Number { v: 600 };

    // Whether n is a temperature in the wheelhouse.
    pub fn holds(n: Number) -> bool
        ensures { result ≡ inside wheelhouse n.v }
    {
        n.within(Self::LOW, Self::HIGH)
    }
}

impl BulbTemperature {
    pub const LOW: Number = Number { v: -400 };

    pub const HIGH: Number = Number { v: 500 };

    // Whether n is a temperature of the dry or the wet bulb.
    pub fn holds(n: Number) -> bool
        ensures { result ≡ inside bulb n.v }
    {
        n.within(Self::LOW, Self::HIGH)
    }

    pub const FROST_HIGH: Number = Number { v: 0 };

    // Whether n is a temperature of a wet bulb under ice.
    pub fn freezes(n: Number) -> bool
        ensures { result ≡ inside frost n.v }
    {
        n.within(Self::LOW, Self::FROST_HIGH)
    }

    pub const DOUBTFUL_LOW: Number = Number { v: -99 };

    pub const DOUBTFUL_HIGH: Number = Number { v: 0 };

    // Whether n is a temperature of the air in which the wet bulb's state may be unknown.
    pub fn leaves_doubt(n: Number) -> bool
        ensures { result ≡ inside doubtful n.v }
    {
        n.within(Self::DOUBTFUL_LOW, Self::DOUBTFUL_HIGH)
    }
}

impl BulbState {
    pub const HIGH: u32 = 2;

    // Whether n is the number of a state.
    pub fn holds(n: u32) -> bool
        ensures { result ≡ is_state n }
    {
        n <= Self::HIGH
    }

    // (No `TryFrom`: every number has a state, so none is refused.)
    // The state of a number; unknown where that is none.
    pub fn numbered(n: u32) -> BulbState
        ensures { result ≡ state_of n }
    {
        match n {
            0 => BulbState::Water,
            1 => BulbState::Ice,
            _ => BulbState::Unknown,
        }
    }

    // Its number.
    pub fn number(self) -> u32
        ensures { result ≡ state_number self }
    {
        match self {
            BulbState::Water => 0,
            BulbState::Ice => 1,
            BulbState::Unknown => 2,
        }
    }
}

impl MetresPerSecond {
    pub const LOW: Number = Number { v: 0 };

    pub const HIGH: Number = Number { v: 750 };

    // Whether n is a speed of the apparent wind.
    pub fn holds(n: Number) -> bool
        ensures { result ≡ inside metres_per_second n.v }
    {
        n.within(Self::LOW, Self::HIGH)
    }

    pub const TRUE_HIGH: u32 = 956;

    // Whether n is a speed of the true wind: worked from the ship's and the apparent wind's, and so wider than the latter.
    pub fn blows(n: u32) -> bool
        ensures { result ≡ inside true_wind (pos n) }
    {
        n <= Self::TRUE_HIGH
    }

    // The same speed in parts of 1/12500 m/s, exactly.
    pub fn parts(self) -> SpeedParts
        ensures { result.0 ≡ parts_of_metres self.0 }
    {
        SpeedParts(1250 * u64::from(self.0))
    }
}

impl Knots {
    pub const LOW: Number = Number { v: 0 };

    pub const HIGH: Number = Number { v: 400 };

    // Whether n is a speed of the ship.
    pub fn holds(n: Number) -> bool
        ensures { result ≡ inside knots n.v }
    {
        n.within(Self::LOW, Self::HIGH)
    }

    // The same speed in parts of 1/12500 m/s: times 0.5144, exactly.
    pub fn parts(self) -> SpeedParts
        ensures { result.0 ≡ parts_of_knots self.0 }
    {
        SpeedParts(643 * u64::from(self.0))
    }
}

impl Degrees {
    pub const LOW: Number = Number { v: 0 };

    pub const HIGH: Number = Number { v: 360 };

    // Whether n is a direction or a course.
    pub fn holds(n: Number) -> bool
        ensures { result ≡ inside degrees n.v }
    {
        n.within(Self::LOW, Self::HIGH)
    }

    // The direction n as it is kept: 360 as 0.
    pub fn keep(n: u32) -> Degrees
        ensures { result.0 ≡ kept_direction n }
    {
        Degrees(n % 360)
    }
}

impl Minute {
    pub const LAST: u32 = 16777215;

    // A tendency is the change in so many minutes.
    pub const THREE_HOURS: u32 = 180;

    // And so many lie strictly between their ends.
    pub const BETWEEN: u32 = Self::THREE_HOURS - 1;

    // Whether n is a minute.
    pub fn holds(n: u32) -> bool
        ensures { result ≡ leb n last_minute }
    {
        n <= Self::LAST
    }
}

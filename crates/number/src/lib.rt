// Whole numbers with a sign, and the rounding rule. (Only a message's value goes another way, on an exact half: crate `message`.)
// A signed number stands in a struct, so that a contract speaks of the number and not of its bits.
#![tactic(auto)]

ghost use Rattle.std.specs.Prelude.{◌≡◌, ℕ, ◌+◌, ◌*◌, ◌<◌, ◌^◌, ℤ, pos, nat_abs, ◌+ℤ◌, ◌-ℤ◌, ◌*ℤ◌};
ghost use Rattle.std.specs.Int.Signed.{lt_z};
ghost use Rattle.number.specs.Round.{rounded};
ghost use Rattle.number.specs.Whole.{signed, within, Is};

// A number to compute with.
#[repr(C)]
#[derive(Clone, Copy, PartialEq, Eq, PartialOrd, Ord)]
pub struct Number {
    pub v: i64,
}

// A number as it is kept.
#[repr(C)]
#[derive(Clone, Copy, PartialEq, Eq, PartialOrd, Ord)]
pub struct Kept {
    pub v: i32,
}

impl Kept {
    // The same number, to compute with.
    pub fn number(self) -> Number
        ensures { Is result.v self.v (2 ^ 31) }
    {
        Number {
            v: i64::from(self.v),
        }
    }
}

impl Number {
    // (No `From` here: the contracts of these give a size beside the number, which the callers' sums need.)
    // The number x.
    pub fn whole(x: u32) -> Number
        ensures { Is result.v (pos x) 4294967295 }
    {
        Number { v: i64::from(x) }
    }

    // The number of this size, with a minus or without.
    pub fn signed(minus: bool, size: u64) -> Number
        requires { size < 2 ^ 63 }
        ensures { Is result.v (signed minus size) size }
    {
        let n = size as i64;
        Number {
            v: if minus { -n } else { n },
        }
    }

    // The same number, to be kept.
    pub fn keep(self) -> Kept
        requires { nat_abs self.v < 2 ^ 31 }
        ensures { result.v ≡ self.v }
    {
        Kept { v: self.v as i32 }
    }

    pub fn plus(self, b: Number) -> Number
        requires { nat_abs self.v + nat_abs b.v < 2 ^ 63 }
        ensures { Is result.v (self.v +ℤ b.v) (nat_abs self.v + nat_abs b.v) }
    {
        Number { v: self.v + b.v }
    }

    pub fn minus(self, b: Number) -> Number
        requires { nat_abs self.v + nat_abs b.v < 2 ^ 63 }
        ensures { Is result.v (self.v -ℤ b.v) (nat_abs self.v + nat_abs b.v) }
    {
        Number { v: self.v - b.v }
    }

    pub fn times(self, b: Number) -> Number
        requires { nat_abs self.v * nat_abs b.v < 2 ^ 63 }
        ensures { Is result.v (self.v *ℤ b.v) (nat_abs self.v * nat_abs b.v) }
    {
        Number { v: self.v * b.v }
    }

    pub fn is_minus(self) -> bool
        ensures { result ≡ lt_z self.v (pos 0) }
    {
        self.v < 0
    }

    // The number without its sign. The smallest i64 has a size too.
    pub fn size(self) -> u64
        ensures { result ≡ nat_abs self.v }
    {
        self.v.unsigned_abs()
    }

    // This number divided by den and rounded: to the nearest, halves away from zero.
    pub fn over(self, den: u64) -> Number
        requires { (0 < den) × (nat_abs self.v + den < 2 ^ 63) }
        ensures { Is result.v (rounded self.v den) (nat_abs self.v) }
    {
        let n = self.size();
        let q = (2 * n + den) / (2 * den);
        Number::signed(self.is_minus(), q)
    }

    // Whether low ≤ this number ≤ high.
    pub fn within(self, low: Number, high: Number) -> bool
        ensures { result ≡ within low.v high.v self.v }
    {
        low <= self && self <= high
    }
}

// 2 to the power k.
pub fn power(k: u64) -> u64
    requires { k < 64 }
    ensures { result ≡ 2 ^ k }
{
    1u64 << k
}

// A certificate's points, and the straight line between two that stand side by side.
#![tactic(auto)]

ghost use Rattle.std.specs.Prelude.{◌≡◌, true, ◌≤◌, ◌^◌, nat_abs, ◌*ℤ◌, length};
ghost use Rattle.std.specs.Int.Signed.{le_z};
ghost use Rattle.number.specs.Whole.{Is};
ghost use Rattle.certificate.specs.Line.{stands, line, between, corner_in, corner_at, valued, valued_as};
ghost use Rattle.certificate.specs.Stored.{Stored};

use number::Number;

// A point of a certificate as a corner of its line: what the instrument reads there, and what that gives.
#[derive(Clone, Copy)]
pub struct Corner {
    pub reads: Number,
    pub gives: Number,
}

// The corner of a point, which is a word as a block holds it.
fn corner_in(w: u64, scale: u16) -> Corner
    ensures { result ≡ corner_in scale w }
{
    let low = cell::unbiased(w);
    let high = cell::unbiased(w / 65536);
    Corner {
        reads: low.number().times(Number::whole(scale as u32)),
        gives: high.number(),
    }
}

// Whether two neighbouring corners stand round x.
fn around(p: Corner, q: Corner, x: Number) -> bool
    ensures { result ≡ stands p q x.v }
{
    p.reads < q.reads && p.reads <= x && x <= q.reads
}

// Whether x is at most what is read at a corner.
fn up_to(p: Corner, x: Number) -> bool
    ensures { result ≡ le_z x.v p.reads.v }
{
    x <= p.reads
}

// What a corner gives, times a distance.
fn weighed(by: Number, distance: Number) -> Number
    requires { (nat_abs by.v ≤ 2 ^ 15) × (nat_abs distance.v ≤ 2 ^ 32) }
    ensures { Is result.v (by.v *ℤ distance.v) (2 ^ 47) }
{
    by.times(distance)
}

// The straight line between two corners, at an x between theirs, times their distance.
fn line(p: Corner, q: Corner, x: Number) -> Number
    requires { Stored p × Stored q × (nat_abs x.v ≤ 2 ^ 31) }
    ensures { Is result.v (line p q x.v) (2 ^ 48) }
{
    let low = p.reads;
    let high = q.reads;
    let to_high = high.minus(x);
    let from_low = x.minus(low);
    let a = p.gives;
    let b = q.gives;
    weighed(a, to_high).plus(weighed(b, from_low))
}

// What this line gives, rounded as a whole.
fn between(p: Corner, q: Corner, x: Number) -> Number
    requires { Stored p × Stored q × (stands p q x.v ≡ true) }
    ensures { result.v ≡ between p q x.v }
{
    let low = p.reads;
    let high = q.reads;
    let distance = high.minus(low).size();
    line(p, q, x).over(distance)
}

// What a certificate gives at x: the straight line between the first two neighbouring points that stand round it, rounded; none where no
// two do. The points are words as a block holds them; what they read is taken times `scale`.
// No pair stands round an x above its higher point, so that is tested first, and the lower point read after it.
pub fn value_at(points: &[u64], scale: u16, x: Number) -> Option<Number>
    ensures { valued_as result ≡ valued (corner_at scale points.now) (length points.now) x.v }
{
    for i in 1..points.len() {
        let q = corner_in(points[i], scale);
        if up_to(q, x) {
            let p = corner_in(points[i - 1], scale);
            if around(p, q, x) {
                return Some(between(p, q, x));
            }
        }
    }
    None
}

//! Sines and cosines, by turns whose tangents are powers of 1/2.

ghost use Rattle.std.specs.Prelude.{◌≡◌, ◌≤◌, ◌<◌, ◌+◌, ◌*◌, ◌/◌, ◌%◌, max, pos, ◌*ℤ◌, ◌≤ℤ◌, ◌<ℤ◌, unsigned_abs};
ghost use Rattle.mp_scaled.specs.Round.{round};
ghost use Rattle.mp_scaled.specs.declared.units.TheConstants.{FRACTION_ONE};
ghost use Rattle.mp_trig.specs.Roots.{nearest_root, square};
ghost use Rattle.mp_trig.specs.Sines.{Turned, sine_turn, turned_by, octant_point, in_octant, in_one_turn, from_middle, first_point, direction, radius, sine_of, cosine_of, IsBoundedAfter};
ghost use Rattle.mp_trig.specs.declared.sines.TheConstants.{TURN, OCTANT};

use crate::quotient::over_power;
use crate::roots::nearest;
use crate::table::angle_entry;
use mp_scaled::make_fraction;

/// 360 degrees.
const TURN: i32 = 360 << 20;

/// 45 degrees.
const OCTANT: u32 = 45 << 20;

/// The sine and the cosine of an angle in units of 2^-20 degree, as fractions from -1 to 1.
pub fn sin_cos(z: i32) -> (i32, i32)
    ensures sine { result.0 ≡ sine_of z }
    ensures cosine { result.1 ≡ cosine_of z }
    ensures small_sine { unsigned_abs result.0 ≤ FRACTION_ONE }
    ensures small_cosine { unsigned_abs result.1 ≤ FRACTION_ONE }
{
    let angle = within_turn(z);
    let (x, y) = octant_point(from_middle(angle));
    let radius = radius(x, y);
    let (x, y) = in_octant(angle / OCTANT, x, y);
    (fraction(y, radius), fraction(x, radius))
}

/// An angle brought into one turn of 360 degrees.
fn within_turn(z: i32) -> u32
    ensures exact { result ≡ in_one_turn z }
    ensures small { result < unsigned_abs TURN }
{
    z.rem_euclid(TURN) as u32
}

/// The angle between 45 degrees and the one that stands in the first octant for an angle.
fn from_middle(angle: u32) -> u32
    ensures exact { result ≡ from_middle angle }
    ensures small { result ≤ OCTANT }
{
    let rest = angle % OCTANT;
    if angle / OCTANT % 2 == 0 {
        OCTANT - rest
    } else {
        rest
    }
}

/// A point of the first octant, from the angle between 45 degrees and it.
#[tactic(auto, using(crate::proofs::SineLemmas::bounding))]
fn octant_point(angle: u32) -> (i64, i64)
    ensures exact { record { x = result.0; y = result.1 } ≡ octant_point angle }
    ensures positive { pos 0 <ℤ result.0 }
    ensures near_x { result.0 ≤ℤ pos 715827882 }
    ensures not_below { pos 0 ≤ℤ result.1 }
    ensures near_y { result.1 ≤ℤ pos 715827882 }
{
    let mut x = 1 << 28;
    let mut y = 1 << 28;
    let mut left = angle;
    for n in 0..26 {
        (x, y, left) = sine_turn(n, x, y, left);
    }
    (x, y.max(0))
}

/// A turn with tangent `2^-(n + 1)`, where the angle left is not smaller.
#[tactic(auto, using(crate::proofs::SineLemmas::bounding))]
fn sine_turn(n: u32, x: i64, y: i64, left: u32) -> (i64, i64, u32)
    requires place { n < 26 }
    requires near { IsBoundedAfter n x y }
    ensures exact { record { x = result.0; y = result.1; left = result.2 } ≡
        sine_turn n (record { x = x; y = y; left = left }) }
    ensures still_near { IsBoundedAfter (n + 1) result.0 result.1 }
{
    let entry = angle_entry(n + 1);
    if left >= entry {
        (
            x + over_power(y, n + 1),
            y - over_power(x, n + 1),
            left - entry,
        )
    } else {
        (x, y, left)
    }
}

/// How far a point is from the origin.
fn radius(x: i64, y: i64) -> i64
    requires positive { pos 0 <ℤ x }
    requires near_x { x ≤ℤ pos 715827882 }
    requires not_below { pos 0 ≤ℤ y }
    requires near_y { y ≤ℤ pos 715827882 }
    ensures exact { result ≡ pos (nearest_root (square x + square y)) }
    ensures at_least_x { x ≤ℤ result }
    ensures at_least_y { y ≤ℤ result }
    ensures small { result <ℤ pos 2147483648 }
{
    hypotenuse(x.unsigned_abs(), y.unsigned_abs()) as i64
}

#[tactic(auto, using(crate::proofs::RootLemmas::hypotenuse_bounds))]
fn hypotenuse(x: u64, y: u64) -> u64
    requires near_x { x ≤ 715827882 }
    requires near_y { y ≤ 715827882 }
    ensures exact { result ≡ nearest_root (x * x + y * y) }
    ensures at_least_x { x ≤ result }
    ensures at_least_y { y ≤ result }
    ensures small { result ≤ 1073741824 }
{
    nearest(x * x + y * y)
}

/// The point that stands in an octant of the turn for one of the first octant.
fn in_octant(octant: u32, x: i64, y: i64) -> (i64, i64)
    requires place { octant < 8 }
    requires positive { pos 0 <ℤ x }
    requires near_x { x ≤ℤ pos 715827882 }
    requires not_below { pos 0 ≤ℤ y }
    requires near_y { y ≤ℤ pos 715827882 }
    ensures exact { record { x = result.0; y = result.1 } ≡ in_octant octant (record { x = x; y = y }) }
    ensures within_x { unsigned_abs result.0 ≤ max (unsigned_abs x) (unsigned_abs y) }
    ensures within_y { unsigned_abs result.1 ≤ max (unsigned_abs x) (unsigned_abs y) }
{
    match octant {
        0 => (x, y),
        1 => (y, x),
        2 => (-y, x),
        3 => (-x, y),
        4 => (-x, -y),
        5 => (-y, -x),
        6 => (y, -x),
        _ => (x, -y),
    }
}

/// A part of the radius, as a fraction.
fn fraction(part: i64, radius: i64) -> i32
    requires positive { pos 0 <ℤ radius }
    requires small { radius <ℤ pos 2147483648 }
    requires within { unsigned_abs part ≤ unsigned_abs radius }
    ensures exact { result ≡ round (part *ℤ pos FRACTION_ONE) radius }
    ensures within { unsigned_abs result ≤ FRACTION_ONE }
{
    match make_fraction(part, radius) {
        Ok(fraction) => fraction,
        Err(_) => unreachable!(),
    }
}

//! The angle of a direction, by turns whose tangents are powers of 1/2.

ghost use Rattle.std.specs.Prelude.{◌≡◌, ◌≢◌, ◌↔◌, ◌≤◌, ◌<◌, ◌+◌, ◌*◌, ◌^◌, pos, unsigned_abs, IsErrOf};
ghost use Rattle.mp_trig.specs.Directions.{legs_of, shrunk, grown, gain, angle_turn, angle_after, angle_sum, slope_angle, octant_angle, direction_angle};

use crate::TrigFault;
use crate::table::angle_entry;

/// 90 degrees.
const QUARTER: i32 = 90 << 20;

/// 180 degrees.
const HALF: i32 = 180 << 20;

/// The angle from the first axis to a direction, in units of 2^-20 degree, negative below the axis;
/// `OutOfDomain` for `(0, 0)` alone. Both coordinates are in one unit, whichever it is.
pub fn angle_of(x: i64, y: i64) -> Result<i32, TrigFault>
    requires small_x { unsigned_abs x < 2 ^ 62 }
    requires small_y { unsigned_abs y < 2 ^ 62 }
    ensures exact { result ≡ direction_angle x y }
    ensures domain { IsErrOf result TrigFault.OutOfDomain ↔ ((x ≡ pos 0) × (y ≡ pos 0)) }
    ensures no_overflow { result ≢ Err TrigFault.Overflow }
{
    let width = x.unsigned_abs();
    let height = y.unsigned_abs();
    if width == 0 && height == 0 {
        return Err(TrigFault::OutOfDomain);
    }
    let angle = leg_angle(width, height);
    Ok(octant_angle(x < 0, y < 0, width < height, angle))
}

/// The angle of a direction in its own octant.
fn octant_angle(left: bool, down: bool, steep: bool, angle: u32) -> i32
    requires { angle ≤ 872415232 }
    ensures { result ≡ octant_angle left down steep angle }
{
    let angle = angle as i32;
    match (left, down, steep) {
        (false, false, false) => angle,
        (false, false, true) => QUARTER - angle,
        (true, false, true) => QUARTER + angle,
        (true, false, false) => HALF - angle,
        (true, true, false) => angle - HALF,
        (true, true, true) => -(QUARTER + angle),
        (false, true, true) => angle - QUARTER,
        (false, true, false) => -angle,
    }
}

/// The angle between the hypotenuse and the longer of two legs.
fn leg_angle(width: u64, height: u64) -> u32
    requires positive { 0 < width + height }
    requires small_width { width < 2 ^ 62 }
    requires small_height { height < 2 ^ 62 }
    ensures exact { result ≡ slope_angle (legs_of width height) }
    ensures small { result ≤ 872415232 }
{
    if width < height {
        slope_angle(height, width)
    } else {
        slope_angle(width, height)
    }
}

/// The angle between the hypotenuse and a leg that is not shorter than the other.
fn slope_angle(long: u64, short: u64) -> u32
    requires order { short ≤ long }
    requires positive { 0 < long }
    requires small { long < 2 ^ 62 }
    ensures exact { result ≡ slope_angle (record { long = long; short = short }) }
    ensures small { result ≤ 872415232 }
{
    if short == 0 {
        return 0;
    }
    let (long, short) = shrunk(long, short);
    let (long, short) = grown(long, short);
    angle_sum(long, short)
}

/// The legs, halved until the longer one is below 2^29.
#[tactic(auto, using(crate::proofs::DirectionLemmas::shrinking))]
fn shrunk(long: u64, short: u64) -> (u64, u64)
    requires order { short ≤ long }
    requires positive { 0 < long }
    ensures exact { record { long = result.0; short = result.1 } ≡ shrunk (record { long = long; short = short }) }
    ensures order { result.1 ≤ result.0 }
    ensures positive { 0 < result.0 }
    ensures small { result.0 < 2 ^ 29 }
{
    let mut greater = long;
    let mut lesser = short;
    while greater >= 1 << 29 {
        greater /= 2;
        lesser /= 2;
    }
    (greater, lesser)
}

/// The legs, doubled until the longer one is 2^28 or more.
#[tactic(auto, using(crate::proofs::DirectionLemmas::growing))]
fn grown(long: u64, short: u64) -> (u64, u64)
    requires order { short ≤ long }
    requires positive { 0 < long }
    requires small { long < 2 ^ 29 }
    ensures exact { record { long = result.0; short = result.1 } ≡ grown (record { long = long; short = short }) }
    ensures order { result.1 ≤ result.0 }
    ensures small { result.0 < 2 ^ 29 }
{
    let mut greater = long;
    let mut lesser = short;
    while greater < 1 << 28 {
        greater *= 2;
        lesser *= 2;
    }
    (greater, lesser)
}

/// The sum of the angles by which the legs are turned.
fn angle_sum(long: u64, short: u64) -> u32
    requires order { short ≤ long }
    requires small { long < 2 ^ 29 }
    ensures exact { result ≡ angle_sum (record { long = long; short = short }) }
    ensures small { result ≤ 872415232 }
{
    let mut greater = long;
    let mut lesser = short;
    let mut angle = 0;
    for n in 0..26 {
        (greater, lesser, angle) = angle_turn(n, greater, lesser, angle);
    }
    angle
}

/// A turn with tangent `2^-(n + 1)`, where the doubled shorter leg is the greater one.
#[tactic(auto, using(crate::proofs::DirectionLemmas::turning))]
fn angle_turn(n: u32, long: u64, short: u64, angle: u32) -> (u64, u64, u32)
    requires place { n < 26 }
    requires order { short ≤ long }
    requires near { long < 536870912 * 2 ^ n }
    requires small { angle ≤ 33554432 * n }
    ensures exact { record { long = result.0; short = result.1; angle = result.2 } ≡
        angle_turn n (record { long = long; short = short; angle = angle }) }
    ensures order { result.1 ≤ result.0 }
    ensures near { result.0 < 536870912 * 2 ^ (n + 1) }
    ensures small { result.2 ≤ 33554432 * (n + 1) }
{
    let doubled = 2 * short;
    if doubled > long {
        (
            long + gain(n, doubled),
            doubled - long,
            angle + angle_entry(n + 1),
        )
    } else {
        (long, doubled, angle)
    }
}

/// What the longer leg gains by a turn.
#[tactic(auto, using(crate::proofs::DirectionLemmas::shifted_half))]
fn gain(n: u32, short: u64) -> u64
    requires { n < 26 }
    ensures exact { result ≡ gain n short }
    ensures small { 2 * result ≤ short }
{
    if n < 15 { short >> (2 * (n + 1)) } else { 0 }
}

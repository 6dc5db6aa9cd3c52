//! Logarithms and exponentials, by products with numbers 1 - 2^-k.

ghost use Rattle.std.specs.Prelude.{◌≡◌, ◌≢◌, ◌↔◌, ◌⊎◌, ℕ, suc, ◌≤◌, ◌<◌, ◌+◌, ◌-◌, ◌*◌, ◌/◌, ◌%◌, ◌^◌, pos, neg_ℤ, ◌+ℤ◌, ◌-ℤ◌, ◌<ℤ◌, ◌≤ℤ◌, int_div, unsigned_abs, IsErrOf};
ghost use Rattle.mp_trig.specs.Logs.{log_entry, doublings, log_start, part, fitting, log_sum, mlog_of, lessened, lessened_times, Exponential, exp_turn, exp_after, exp_start, exponential, mexp_of};
ghost use Rattle.mp_trig.specs.declared.logs.TheConstants.{SMALLEST, LARGEST};

use crate::TrigFault;
use crate::quotient::{over_power, power};

/// The logarithms of 1 / (1 - 2^-k), for k from 1 on, in units of 2^-27.
const LOGARITHMS: [u32; 28] = [
    93032640, 38612034, 17922280, 8662214, 4261238, 2113709, 1052693, 525315, 262400, 131136,
    65552, 32772, 16385, 8192, 4096, 2048, 1024, 512, 256, 128, 64, 32, 16, 8, 4, 2, 1, 1,
];

/// 2^30, which a number is brought to before its logarithm is taken.
const FOUR: u32 = 1 << 30;

/// 256 times the natural logarithm of a scaled number, as a scaled number; `OutOfDomain` where the
/// number is not above 0.
pub fn mlog(x: i32) -> Result<i32, TrigFault>
    ensures exact { result ≡ mlog_of x }
    ensures domain { IsErrOf result TrigFault.OutOfDomain ↔ x ≤ℤ pos 0 }
    ensures no_overflow { result ≢ Err TrigFault.Overflow }
{
    if x <= 0 {
        return Err(TrigFault::OutOfDomain);
    }
    let turns = doublings(x as u32);
    let sum = log_sum((x as u32) << turns, log_start(turns));
    Ok(over_power(sum, 3) as i32)
}

/// How often `x` is doubled until it is 2^30 or more.
#[tactic(auto, using(crate::proofs::LogLemmas::doubling))]
fn doublings(x: u32) -> u32
    requires positive { 0 < x }
    requires small { x < 2 ^ 31 }
    ensures exact { result ≡ doublings x }
    ensures few { result ≤ 30 }
    ensures reached { 2 ^ 30 ≤ x * 2 ^ result }
    ensures not_passed { x * 2 ^ result < 2 ^ 31 }
{
    let mut raised = x;
    let mut turns = 0;
    while raised < FOUR {
        raised *= 2;
        turns += 1;
    }
    turns
}

/// The logarithm that a number from 2^30 on begins with.
fn log_start(turns: u32) -> i64
    requires { turns ≤ 30 }
    ensures exact { result ≡ log_start turns }
    ensures low { neg_ℤ (pos 1488522310) ≤ℤ result }
    ensures high { result ≤ℤ pos 1302456960 }
{
    let correction = (6581195 - 48782 * turns) / 65536;
    1302456860 - 93032639 * i64::from(turns) + i64::from(correction)
}

fn log_entry(k: u32) -> u32
    requires first { 1 ≤ k }
    requires last { k ≤ 28 }
    ensures exact { result ≡ log_entry k }
    ensures positive { 0 < result }
    ensures below_part { 4 * result ≤ 2 ^ 30 / 2 ^ k }
{
    LOGARITHMS[k as usize - 1]
}

/// `x / 2^k`, rounded upward.
fn part(x: u32, k: u32) -> u32
    requires positive { 0 < x }
    requires small { k ≤ 28 }
    requires last { 1 ≤ k }
    ensures exact { result ≡ part x k }
    ensures positive { 0 < result }
    ensures small { result ≤ x }
{
    ((x - 1) >> k) + 1
}

/// The first power from `k` on whose part of `x` can be taken.
#[tactic(auto, using(crate::proofs::LogLemmas::fits))]
fn fitting(x: u32, k: u32) -> u32
    requires above { 2 ^ 30 + 4 < x }
    requires below { x < 2 ^ 31 }
    requires first { 1 ≤ k }
    requires last { k ≤ 28 }
    ensures exact { result ≡ fitting x k }
    ensures first { 1 ≤ result }
    ensures last { result ≤ 28 }
    ensures fits { 2 ^ 30 + part x result ≤ x }
{
    let mut power = k;
    while x < FOUR + part(x, power) {
        power += 1;
    }
    power
}

/// What a number from 2^30 on adds to its logarithm.
fn log_sum(x: u32, start: i64) -> i64
    requires reached { 2 ^ 30 ≤ x }
    requires not_passed { x < 2 ^ 31 }
    requires low { neg_ℤ (pos 1488522310) ≤ℤ start }
    requires high { start ≤ℤ pos 1302456960 }
    ensures exact { result ≡ log_sum x start }
    ensures small { unsigned_abs result < 2 ^ 33 }
{
    let mut left = x;
    let mut sum = start;
    let mut power = 2;
    while left > FOUR + 4 {
        power = fitting(left, power);
        sum += i64::from(log_entry(power));
        left -= part(left, power);
    }
    sum
}

/// Below this an exponential is less than half a unit.
const SMALLEST: i32 = -197694359;

/// Above this an exponential is out of range.
const LARGEST: i32 = 174436200;

/// Up to here an exponential is found with four binary digits more than it is answered with.
const LARGEST_FINE: i32 = 127919879;

/// The exponential of a 256th of a scaled number, as a scaled number: 0 below -197694359 units, and
/// `Overflow` above 174436200 units.
pub fn mexp(x: i32) -> Result<i32, TrigFault>
    ensures exact { result ≡ mexp_of x }
    ensures overflow { IsErrOf result TrigFault.Overflow ↔ LARGEST <ℤ x }
    ensures no_domain { result ≢ Err TrigFault.OutOfDomain }
{
    if x > LARGEST {
        return Err(TrigFault::Overflow);
    }
    if x < SMALLEST {
        return Ok(0);
    }
    Ok(exponential(x) as i32)
}

fn exponential(x: i32) -> i64
    requires low { SMALLEST ≤ℤ x }
    requires high { x ≤ℤ LARGEST }
    ensures exact { result ≡ exponential x }
    ensures low { neg_ℤ (pos (2 ^ 31)) ≤ℤ result }
    ensures high { result <ℤ pos (2 ^ 31) }
{
    let (left, start) = exp_start(x);
    let value = exp_value(left, start);
    if x <= LARGEST_FINE {
        sixteenth(value)
    } else {
        value
    }
}

/// The whole number nearest to a 16th of a positive value.
fn sixteenth(value: i64) -> i64
    requires low { neg_ℤ (pos (2 ^ 31)) ≤ℤ value }
    requires high { value <ℤ pos (2 ^ 31) }
    ensures exact { result ≡ int_div (value +ℤ pos 8) (pos 16) }
    ensures small { unsigned_abs result < 2 ^ 28 }
{
    over_power(value + 8, 4)
}

/// How far `x` is below 0 or below the logarithm of a great number, and that number.
fn exp_start(x: i32) -> (u32, i64)
    requires low { SMALLEST ≤ℤ x }
    requires high { x ≤ℤ LARGEST }
    ensures exact { record { left = result.0; value = result.1 } ≡ exp_start x }
    ensures small { result.0 < 2 ^ 31 }
    ensures positive { pos 0 ≤ℤ result.1 }
    ensures not_passed { result.1 <ℤ pos (2 ^ 31) }
{
    let magnitude = x.unsigned_abs();
    if x <= 0 {
        (8 * magnitude, 1 << 20)
    } else if x <= LARGEST_FINE {
        (1023359037 - 8 * magnitude, 2147483647)
    } else {
        (8 * (LARGEST.unsigned_abs() - magnitude), 2147483647)
    }
}

/// `start` less all parts whose logarithms make up `left`.
fn exp_value(left: u32, start: i64) -> i64
    requires small { left < 2 ^ 31 }
    requires positive { pos 0 ≤ℤ start }
    requires not_passed { start <ℤ pos (2 ^ 31) }
    ensures exact { result ≡ (exp_after 28 (record { left = left; value = start })).value }
    ensures low { neg_ℤ (pos (2 ^ 31)) ≤ℤ result }
    ensures high { result <ℤ pos (2 ^ 31) }
{
    let mut left = left;
    let mut value = start;
    for n in 0..28 {
        (left, value) = exp_turn(n, left, value);
    }
    value
}

/// Takes an entry of the table from `left` as often as it goes, and its part from `value`.
#[tactic(auto, using(crate::proofs::ExpLemmas::turning))]
fn exp_turn(n: u32, left: u32, value: i64) -> (u32, i64)
    requires place { n < 28 }
    requires small { left < 2 ^ 31 }
    requires low { pos left ≤ℤ (value +ℤ pos (2 ^ 31)) }
    requires high { value <ℤ pos (2 ^ 31) }
    ensures rest { result.0 ≡ left % log_entry (n + 1) }
    ensures value { result.1 ≡ lessened_times (left / log_entry (n + 1)) n value }
    ensures small { result.0 < 2 ^ 31 }
    ensures low { pos result.0 ≤ℤ (result.1 +ℤ pos (2 ^ 31)) }
    ensures high { result.1 <ℤ pos (2 ^ 31) }
{
    let entry = log_entry(n + 1);
    let mut rest = left;
    let mut lessening = value;
    while rest >= entry {
        rest -= entry;
        lessening = lessened(n, lessening);
    }
    (rest, lessening)
}

/// `value` less its part `value / 2^(n + 1)`, rounded.
fn lessened(n: u32, value: i64) -> i64
    requires place { n < 28 }
    requires low { neg_ℤ (pos (2 ^ 31)) ≤ℤ value }
    requires high { value <ℤ pos (2 ^ 31) }
    ensures exact { result ≡ lessened n value }
    ensures low { (pos 0 ≤ℤ result) ⊎ ((value -ℤ pos 1) ≤ℤ result) }
    ensures high { result <ℤ pos (2 ^ 31) }
{
    let above = value - power(n);
    value - 1 - over_power(above, n + 1)
}

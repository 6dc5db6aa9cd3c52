//! Quotients by powers of 2, cut toward zero.

ghost use Rattle.std.specs.Prelude.{◌≡◌, ◌<◌, ◌≤◌, ◌≤ℤ◌, ◌/◌, ◌^◌, pos, int_div, unsigned_abs};

/// `value / 2^power`, cut toward zero.
pub(crate) fn over_power(value: i64, power: u32) -> i64
    requires small_value { unsigned_abs value < 2 ^ 62 }
    requires small_power { power < 62 }
    ensures exact { result ≡ int_div value (pos (2 ^ power)) }
    ensures magnitude { unsigned_abs result ≡ unsigned_abs value / 2 ^ power }
{
    let magnitude = (value.unsigned_abs() >> power) as i64;
    if value < 0 { -magnitude } else { magnitude }
}

pub(crate) fn power(n: u32) -> i64
    requires { n ≤ 30 }
    ensures exact { result ≡ pos (2 ^ n) }
    ensures positive { pos 1 ≤ℤ result }
    ensures small { result ≤ℤ pos 1073741824 }
{
    i64::from(1u32 << n)
}

//! Rows of the public calls.

ghost use Rattle.std.specs.Prelude.{All, IsTrue};
ghost use Rattle.std.specs.Char.{IsAsciiDigit};
ghost use Rattle.mp_scaled.specs.Decimal.{whole_digits, fraction_digits};

use crate::decimal::split_at_point;
use crate::{
    Arith, Bytes, Listing, NoMemory, TooLarge, make_fraction, make_scaled, print_scaled,
    read_decimal, take_fraction, take_scaled,
};

#[test]
fn calls_answer_as_their_rows_say(rt: HostRuntime) {
    for table in [QUOTIENTS, PRODUCTS, READ, PRINTED] {
        for row in table.lines() {
            assert_eq!(rt; holds(row), Some(true), "{row}");
        }
    }
}

#[test]
fn memory_is_had(rt: HostRuntime) -> Result<(), NoMemory> {
    let mut bytes = Bytes::copy_of(rt.alloc(), b"ab")?;
    bytes.push(b'c')?;
    bytes.append(b"de")?;
    assert_eq!(rt; bytes.clone()?.as_slice(), b"abcde".as_slice());
    let mut list = Listing::new(rt.alloc());
    list.push(bytes)?;
    assert_eq!(rt; list.as_slice().len(), 1);
    Ok(())
}

/// Whether the call before a row's `=` answers what stands behind it; nothing for a row that cannot be read.
fn holds(row: &str) -> Option<bool> {
    let (call, want) = row.split_once(" = ")?;
    let (name, arguments) = call.split_once(' ')?;
    match name {
        "read_decimal" => is_read_as(arguments.as_bytes(), want),
        "print_scaled" => is_printed_as(arguments.parse().ok()?, want),
        _ => Some(is_answer(answer(name, arguments.split_once(' ')?)?, want)),
    }
}

fn answer(name: &str, (first, second): (&str, &str)) -> Option<Result<i32, Arith>> {
    answer_of_numbers(name, number(first)?, number(second)?)
}

fn answer_of_numbers(name: &str, first: i32, second: i32) -> Option<Result<i32, Arith>> {
    let (first, second) = (i64::from(first), i64::from(second));
    match name {
        "make_scaled" => Some(make_scaled(first, second)),
        "make_fraction" => Some(make_fraction(first, second)),
        "take_scaled" => Some(take_scaled(first, second)),
        "take_fraction" => Some(take_fraction(first, second)),
        _ => None,
    }
}

fn is_answer(answer: Result<i32, Arith>, want: &str) -> bool {
    match answer {
        Ok(value) => number(want) == Some(value),
        Err(Arith::DivisionByZero) => want == "DivisionByZero",
        Err(Arith::Overflow) => want == "Overflow",
    }
}

fn number(text: &str) -> Option<i32> {
    text.parse().ok()
}

/// What is read of a text; nothing where it is no decimal, as the call requires.
fn is_read_as(text: &[u8], want: &str) -> Option<bool> {
    if !is_decimal(text) {
        return None;
    }
    match read_decimal(text) {
        Ok(value) => Some(number(want) == Some(value)),
        Err(TooLarge) => Some(want == "TooLarge"),
    }
}

fn is_decimal(text: &[u8]) -> bool
    ensures whole { IsTrue result → All IsAsciiDigit (whole_digits text.now) }
    ensures fraction { IsTrue result → All IsAsciiDigit (fraction_digits text.now) }
{
    let (whole, fraction) = split_at_point(text);
    is_digits(whole) && is_digits(fraction)
}

fn is_digits(text: &[u8]) -> bool
    ensures { IsTrue result → All IsAsciiDigit text.now }
{
    text.iter().all(|c| c.is_ascii_digit())
}

/// What is printed of a value; nothing where it is larger than the call allows.
fn is_printed_as(value: i64, want: &str) -> Option<bool> {
    if value.unsigned_abs() > 1 << 32 {
        return None;
    }
    let mut text = [0; 16];
    let length = print_scaled(value, &mut text);
    Some(&text[..length] == want.as_bytes())
}

/// A half is rounded away from zero.
const QUOTIENTS: &str = "\
make_scaled 1 3 = 21845
make_scaled -1 3 = -21845
make_scaled 1 -3 = -21845
make_scaled -2 -3 = 43691
make_scaled 1 131072 = 1
make_scaled -1 131072 = -1
make_scaled 3 131072 = 2
make_scaled -3 131072 = -2
make_scaled 1 131073 = 0
make_scaled 32767 1 = 2147418112
make_scaled -32768 1 = Overflow
make_scaled 2147483647 65536 = 2147483647
make_scaled 0 -5 = 0
make_scaled 0 0 = DivisionByZero
make_fraction 1 3 = 89478485
make_fraction -2 3 = -178956971
make_fraction 1 536870912 = 1
make_fraction 8 1 = Overflow
make_fraction 1 0 = DivisionByZero
";

/// A half is rounded away from zero.
const PRODUCTS: &str = "\
take_scaled 1 32768 = 1
take_scaled -1 32768 = -1
take_scaled 1 32767 = 0
take_scaled 2147483647 65536 = 2147483647
take_scaled 2147483647 -65537 = Overflow
take_fraction 268435456 -5 = -5
take_fraction 1 134217728 = 1
take_fraction -1 134217728 = -1
take_fraction -7 0 = 0
take_fraction 2147483647 268435457 = Overflow
";

/// The first row is the empty text.
const READ: &str = "\
read_decimal  = 0
read_decimal 007 = 458752
read_decimal 5. = 327680
read_decimal .5 = 32768
read_decimal 12.3456 = 809081
read_decimal .33333333333333333999 = 21845
read_decimal 0.00000762939453125 = 1
read_decimal 0.0000076293945312499999 = 0
read_decimal 0.99999999 = 65536
read_decimal 32767.99999 = 2147483647
read_decimal 32767.999993 = TooLarge
read_decimal 32768 = TooLarge
read_decimal 99999999999999999999 = TooLarge
";

const PRINTED: &str = "\
print_scaled 0 = 0
print_scaled 1 = 0.00002
print_scaled -1 = -0.00002
print_scaled 6554 = 0.1
print_scaled 32768 = 0.5
print_scaled 65535 = 0.99998
print_scaled 65536 = 1
print_scaled 152917 = 2.33333
print_scaled 2147483647 = 32767.99998
print_scaled 4294967296 = 65536
print_scaled -4294967295 = -65535.99998
";

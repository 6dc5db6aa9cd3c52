use mp_forms::{Form, FormFault};
use std::alloc::{AllocError, Global};
use std::test::Fail;

#[test]
fn calls_answer_as_their_rows_say(rt: HostRuntime) -> Result<(), Fail> {
    let alloc = rt.alloc();
    for table in [
        ROUNDED_SUMS,
        SMALL_SUMS,
        LARGE_SUMS,
        FIRST_TERMS,
        PRODUCTS,
        QUOTIENTS,
    ] {
        for row in table.lines() {
            let (call, want) = row.split_once(" = ").ok_or(UNREADABLE)?;
            let answer = answer(alloc, call)?;
            assert!(rt; is_answer(alloc, &answer, want)?, "{row}");
        }
    }
    Ok(())
}

const UNREADABLE: &str = "a row that cannot be read";

/// What a row's call answers: `FORM + F * FORM`, `FORM * S` or `FORM / S`.
fn answer(alloc: Global, call: &str) -> Result<Result<Form, FormFault>, Fail> {
    if let Some((left, product)) = call.split_once(" + ") {
        sum(alloc, &form(alloc, left)?, product)
    } else if let Some((left, s)) = call.split_once(" * ") {
        Ok(form(alloc, left)?.scale_by(alloc, number(s).ok_or(UNREADABLE)?)?)
    } else if let Some((left, s)) = call.split_once(" / ") {
        Ok(form(alloc, left)?.divide_by(alloc, number(s).ok_or(UNREADABLE)?)?)
    } else {
        Err(Fail::new(UNREADABLE))
    }
}

fn sum(alloc: Global, left: &Form, product: &str) -> Result<Result<Form, FormFault>, Fail> {
    let (f, right) = product.split_once(" * ").ok_or(UNREADABLE)?;
    let f = factor(f).ok_or(UNREADABLE)?;
    add_times(alloc, left, f, &form(alloc, right)?)
}

fn add_times(
    alloc: Global,
    left: &Form,
    f: i64,
    right: &Form,
) -> Result<Result<Form, FormFault>, Fail> {
    if f.unsigned_abs() < 1 << 44 {
        Ok(left.add_times(alloc, f, right)?)
    } else {
        Err(Fail::new("a factor that is too large"))
    }
}

#[test]
fn a_sum_whose_left_side_is_given_up_is_the_same(rt: HostRuntime) -> Result<(), Fail> {
    let alloc = rt.alloc();
    for table in [ROUNDED_SUMS, SMALL_SUMS, LARGE_SUMS, FIRST_TERMS] {
        for row in table.lines() {
            let (call, want) = row.split_once(" = ").ok_or(UNREADABLE)?;
            let (left, product) = call.split_once(" + ").ok_or(UNREADABLE)?;
            let (f, right) = product.split_once(" * ").ok_or(UNREADABLE)?;
            let f = factor(f).ok_or(UNREADABLE)?;
            let answer = into_sum(form(alloc, left)?, f, &form(alloc, right)?)?;
            assert!(rt; is_answer(alloc, &answer, want)?, "{row}");
        }
    }
    Ok(())
}

fn into_sum(left: Form, f: i64, right: &Form) -> Result<Result<Form, FormFault>, Fail> {
    if f.unsigned_abs() < 1 << 44 {
        Ok(left.into_sum(f, right)?)
    } else {
        Err(Fail::new("a factor that is too large"))
    }
}

/// The form with a constant and terms, each a serial and its coefficient, made by the calls themselves.
fn form(alloc: Global, text: &str) -> Result<Form, Fail> {
    let mut words = text.split_whitespace();
    let constant = words.next().ok_or(UNREADABLE)?;
    let mut form = Form::constant_of(alloc, number(constant).ok_or(UNREADABLE)?);
    for word in words {
        form = with_term(alloc, &form, word)?;
    }
    Ok(form)
}

fn with_term(alloc: Global, form: &Form, word: &str) -> Result<Form, Fail> {
    let (serial, coefficient) = term(word).ok_or(UNREADABLE)?;
    let unknown = Form::unknown(alloc, serial)?;
    Ok(form.add_times(alloc, i64::from(coefficient), &unknown)??)
}

fn term(word: &str) -> Option<(u32, i32)> {
    let (serial, coefficient) = word.split_once(':')?;
    let serial = u32::try_from(factor(serial)?).ok()?;
    Some((serial, number(coefficient)?))
}

fn number(text: &str) -> Option<i32> {
    i32::try_from(factor(text)?).ok()
}

fn factor(text: &str) -> Option<i64> {
    text.parse().ok()
}

fn is_answer(
    alloc: Global,
    answer: &Result<Form, FormFault>,
    want: &str,
) -> Result<bool, AllocError> {
    match answer {
        Ok(form) => Ok(text_of(alloc, form)?.as_str() == want),
        Err(FormFault::CoefficientTooLarge) => Ok(want == "CoefficientTooLarge"),
        Err(FormFault::Overflow) => Ok(want == "Overflow"),
        Err(FormFault::DivisionByZero) => Ok(want == "DivisionByZero"),
    }
}

/// A form as the rows write it.
fn text_of(alloc: Global, form: &Form) -> Result<String, AllocError> {
    let mut text = format!(in alloc; "{}", form.constant())?;
    for term in form.terms() {
        text = format!(in alloc; "{text} {}:{}", term.serial, term.coefficient)?;
    }
    Ok(text)
}

#[test]
fn a_constant_and_an_unknown(rt: HostRuntime) -> Result<(), Fail> {
    let alloc = rt.alloc();
    assert_eq!(rt;
        text_of(alloc, &Form::constant_of(alloc, -3))?.as_str(),
        "-3"
    );
    assert_eq!(rt;
        text_of(alloc, &Form::unknown(alloc, 7)?)?.as_str(),
        "0 7:268435456"
    );
    Ok(())
}

/// Half of an odd number is rounded away from zero. The factor of a sum, as a coefficient, is in units of
/// 2^-28, so that 268435456 is 1.
const ROUNDED_SUMS: &str = "\
5 9:2000 5:268435456 1:1343 + 268435456 * 3 8:268435456 5:268435456 2:-4000 = 8 9:2000 8:268435456 5:536870912 2:-4000 1:1343
0 + 134217728 * 3 1:3001 = 2 1:1501
0 + 134217728 * -3 1:-3001 = -2 1:-1501
";

/// A sum of two coefficients stays from 2685 on, a new coefficient from 1343 on.
const SMALL_SUMS: &str = "\
0 1:5000 + -2315 * 0 1:268435456 = 0 1:2685
0 1:5000 + -2316 * 0 1:268435456 = 0
0 1:5000 + -7685 * 0 1:268435456 = 0 1:-2685
0 1:268435456 + 1343 * 0 2:268435456 = 0 2:1343 1:268435456
0 1:268435456 + 1342 * 0 2:268435456 = 0 1:268435456
0 + -1342 * 0 2:268435456 = 0
";

/// The limits of a coefficient and of the constant.
const LARGE_SUMS: &str = "\
0 + 8796093022208 * 0 1:268435456 0:-268435456 = 0 1:8796093022208 0:-8796093022208
0 + 8796093022208 * 0 1:536870910 = 0 1:17592185978880
0 + 8796093022208 * 0 1:-536870912 = CoefficientTooLarge
0 + 8796093022208 * 268435456 1:536870912 = CoefficientTooLarge
2147483646 + 268435456 * 1 1:268435456 = 2147483647 1:268435456
2147483647 + 268435456 * 1 1:268435456 = Overflow
";

/// A term that stands before all others.
const FIRST_TERMS: &str = "\
0 1:268435456 + 1343 * 7 2:268435456 = 0 2:1343 1:268435456
0 1:268435456 + 1342 * 7 2:268435456 = 0 1:268435456
3 + 268435456 * 2 5:-268435456 = 5 5:-268435456
0 1:5000 + 8796093022208 * 0 2:536870910 = 0 2:17592185978880 1:5000
0 1:5000 + 8796093022208 * 268435456 2:536870912 = CoefficientTooLarge
2147483647 1:5000 + 268435456 * 1 2:268435456 = Overflow
";

/// The number that a form is multiplied by is in units of 2^-16.
const PRODUCTS: &str = "\
3 2:268435456 1:1343 * -65536 = -3 2:-268435456 1:-1343
3 2:268435456 * 0 = 0
3 2:2685 1:2684 * 32768 = 2 2:1343
-3 2:-2685 1:-2684 * 32768 = -2 2:-1343
0 1:268435456 * 1073741824 = 0 1:4398046511104
0 1:-1073741824 * 1073741824 = CoefficientTooLarge
1073741824 1:1073741824 * 1073741824 = CoefficientTooLarge
1073741823 * 131072 = 2147483646
1073741824 * 131072 = Overflow
";

/// The number that a form is divided by is in units of 2^-16.
const QUOTIENTS: &str = "\
3 2:268435456 1:1343 / -65536 = -3 2:-268435456 1:-1343
3 2:2685 1:2684 / 131072 = 2 2:1343
1 / -3 = -21845
1 1:268435455 / 1 = 65536 1:17592185978880
32768 1:268435456 / 1 = CoefficientTooLarge
0 1:268435456 / -1 = CoefficientTooLarge
32768 1:268435455 / 1 = Overflow
0 / 0 = DivisionByZero
2147483647 1:2147483647 / 0 = DivisionByZero
";

//! Rows of `mp_report`: the line of each error.

use mp_report::{Cap, SourceError, write_error};
use mp_scaled::{Bytes, NoMemory};
use std::alloc::Global;
use std::test::Fail;

/// An error, if there was memory for what it carries, and its line from its number on.
type Row = (Result<SourceError, NoMemory>, &'static str);

/// A source's name, a line of it, and what an error there prints before its number.
type Where = (&'static str, u32, &'static str);

const IN_A_FILE: Where = ("a.mp", 1, "a.mp:1: error ");

const BEFORE_ANY_LINE: Where = ("mpost", 0, "mpost:0: error ");

fn rows_of_errors_alone() -> [Row; 15] {
    [
        (Ok(SourceError::UnfinishedString), "2 UnfinishedString"),
        (Ok(SourceError::EnormousNumber), "3 EnormousNumber"),
        (Ok(SourceError::FileEndedInText), "6 FileEndedInText"),
        (Ok(SourceError::Overflow), "10 Overflow"),
        (Ok(SourceError::DivisionByZero), "11 DivisionByZero"),
        (
            Ok(SourceError::CoefficientTooLarge),
            "14 CoefficientTooLarge",
        ),
        (Ok(SourceError::BadArguments), "15 BadArguments"),
        (Ok(SourceError::LoneConditionWord), "16 LoneConditionWord"),
        (Ok(SourceError::NoLoop), "17 NoLoop"),
        (Ok(SourceError::LoneEndgroup), "18 LoneEndgroup"),
        (Ok(SourceError::BadSubscript), "19 BadSubscript"),
        (Ok(SourceError::BadDeclaration), "20 BadDeclaration"),
        (Ok(SourceError::PolygonalPen), "22 PolygonalPen"),
        (Ok(SourceError::TeXBlock), "23 TeXBlock"),
        (Ok(SourceError::BadDash), "26 BadDash"),
    ]
}

fn rows_with_numbers() -> [Row; 3] {
    [
        (Ok(SourceError::BadCharacter(163)), "1 BadCharacter 163"),
        (
            Ok(SourceError::Inconsistent(-65)),
            "13 Inconsistent -0.00099",
        ),
        (
            Ok(SourceError::Limit(Cap::Nesting, 100)),
            "28 Limit Nesting 100",
        ),
    ]
}

fn bytes(alloc: Global, text: &str) -> Result<Bytes, NoMemory> {
    Bytes::copy_of(alloc, text.as_bytes())
}

fn rows_with_a_text(alloc: Global) -> [Row; 2] {
    [
        (
            bytes(alloc, "b.mp").map(SourceError::FileTooLong),
            "5 FileTooLong \"b.mp\"",
        ),
        (
            bytes(alloc, "no such path").map(SourceError::UserError),
            "27 UserError \"no such path\"",
        ),
    ]
}

fn rows_with_a_word(alloc: Global) -> [Row; 5] {
    [
        (
            bytes(alloc, "scaled").map(SourceError::WrongType),
            "8 WrongType scaled",
        ),
        (bytes(alloc, "*").map(SourceError::NotKnown), "9 NotKnown *"),
        (
            bytes(alloc, "sqrt").map(SourceError::OutOfDomain),
            "12 OutOfDomain sqrt",
        ),
        (
            bytes(alloc, "Curl").map(SourceError::BadPath),
            "21 BadPath Curl",
        ),
        (
            bytes(alloc, "outer").map(SourceError::NotBuilt),
            "29 NotBuilt outer",
        ),
    ]
}

fn unexpected(alloc: Global, wanted: &str, stood: &str) -> Result<SourceError, NoMemory> {
    Ok(SourceError::Unexpected(bytes(alloc, wanted)?, bytes(alloc, stood)?))
}

fn bad_font(alloc: Global, font: &str, why: &str) -> Result<SourceError, NoMemory> {
    Ok(SourceError::BadFont(bytes(alloc, font)?, bytes(alloc, why)?))
}

fn missing_character(alloc: Global, font: &str, code: u32) -> Result<SourceError, NoMemory> {
    Ok(SourceError::MissingCharacter(bytes(alloc, font)?, code))
}

fn rows_with_two_details(alloc: Global) -> [Row; 3] {
    [
        (
            unexpected(alloc, ";", "number"),
            "7 Unexpected \";\" \"number\"",
        ),
        (
            bad_font(alloc, "cmr10", "Short"),
            "24 BadFont \"cmr10\" Short",
        ),
        (
            missing_character(alloc, "cmr10", 120),
            "25 MissingCharacter \"cmr10\" 120",
        ),
    ]
}

fn row_before_any_line(alloc: Global) -> Row {
    (
        bytes(alloc, "none.mp").map(SourceError::NoSuchFile),
        "4 NoSuchFile \"none.mp\"",
    )
}

/// Whether an error there prints that line.
fn prints(alloc: Global, error: &SourceError, place: Where, line: &str) -> Result<bool, NoMemory> {
    let (name, number, head) = place;
    let mut printed = Bytes::new(alloc);
    write_error(alloc, error, name.as_bytes(), number, &mut printed)?;
    let mut wanted = bytes(alloc, head)?;
    wanted.append(line.as_bytes())?;
    wanted.push(b'\n')?;
    Ok(printed.as_slice() == wanted.as_slice())
}

/// Fails with the first line that its error, at that place, does not print.
fn all_print(alloc: Global, rows: &[Row], place: Where) -> Result<(), Fail> {
    for (error, line) in rows {
        match error {
            Ok(error) if prints(alloc, error, place, line) == Ok(true) => {}
            _ => return Err(Fail::new(*line)),
        }
    }
    Ok(())
}

#[test]
fn errors_alone(rt: HostRuntime) -> Result<(), Fail> {
    all_print(rt.alloc(), &rows_of_errors_alone(), IN_A_FILE)
}

#[test]
fn errors_with_details(rt: HostRuntime) -> Result<(), Fail> {
    let alloc = rt.alloc();
    all_print(alloc, &rows_with_numbers(), IN_A_FILE)?;
    all_print(alloc, &rows_with_a_text(alloc), IN_A_FILE)?;
    all_print(alloc, &rows_with_a_word(alloc), IN_A_FILE)?;
    all_print(alloc, &rows_with_two_details(alloc), IN_A_FILE)
}

#[test]
fn an_error_before_any_line(rt: HostRuntime) -> Result<(), Fail> {
    let alloc = rt.alloc();
    all_print(alloc, &[row_before_any_line(alloc)], BEFORE_ANY_LINE)
}

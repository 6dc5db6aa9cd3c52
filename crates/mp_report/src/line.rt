//! The line of an error.

ghost use Rattle.std.specs.Prelude.{◌≡◌, ◌++◌, OnOk, OnErr, IfOk, decimal};
ghost use Rattle.mp_report.specs.Line.{word, text, number, residual, cap_name, number_of, variant_name, details_of, detail_text, details_text, error_line};

use crate::{Cap, SourceError};
use itoa::Buffer;
use mp_scaled::{Bytes, NoMemory, print_scaled};
use std::alloc::Global;

/// Appends the line that an error at that line of the source of that name prints. Where memory runs out,
/// nothing is appended.
pub fn write_error(
    alloc: Global,
    error: &SourceError,
    name: &[u8],
    line: u32,
    to: &mut Bytes,
) -> Result<(), NoMemory>
    ensures ok { OnOk result (to.new ≡ to.old ++ error_line error.now name.now line) }
    ensures err { OnErr result (to.new ≡ to.old) }
{
    let whole = line_of(alloc, error, name, line)?;
    to.append(whole.as_slice())
}

// The whole line is made first, so that want of memory leaves nothing half written.
fn line_of(alloc: Global, error: &SourceError, name: &[u8], line: u32) -> Result<Bytes, NoMemory>
    ensures { IfOk result (λ made. made ≡ error_line error.now name.now line) }
{
    let mut to = Bytes::copy_of(alloc, name)?;
    to.append(b":")?;
    write_decimal(line, &mut to)?;
    to.append(b": error ")?;
    write_decimal(number(error), &mut to)?;
    to.append(b" ")?;
    to.append(variant(error))?;
    write_details(error, &mut to)?;
    to.append(b"\n")?;
    Ok(to)
}

fn write_details(error: &SourceError, to: &mut Bytes) -> Result<(), NoMemory>
    ensures { OnOk result (to.new ≡ to.old ++ details_text (details_of error.now)) }
{
    match error {
        SourceError::NoSuchFile(name)
        | SourceError::FileTooLong(name)
        | SourceError::UserError(name) => write_text(name.as_slice(), to),
        SourceError::WrongType(word)
        | SourceError::NotKnown(word)
        | SourceError::OutOfDomain(word)
        | SourceError::BadPath(word)
        | SourceError::NotBuilt(word) => write_word(word.as_slice(), to),
        SourceError::Unexpected(wanted, stood) => {
            write_text(wanted.as_slice(), to)?;
            write_text(stood.as_slice(), to)
        }
        SourceError::BadFont(font, why) => {
            write_text(font.as_slice(), to)?;
            write_word(why.as_slice(), to)
        }
        SourceError::MissingCharacter(font, code) => {
            write_text(font.as_slice(), to)?;
            write_number(*code, to)
        }
        SourceError::BadCharacter(byte) => write_number(*byte, to),
        SourceError::Limit(cap, most) => {
            write_word(cap_word(*cap), to)?;
            write_number(*most, to)
        }
        SourceError::Inconsistent(units) => write_residual(*units, to),
        _ => Ok(()),
    }
}

fn write_word(value: &[u8], to: &mut Bytes) -> Result<(), NoMemory>
    ensures { OnOk result (to.new ≡ to.old ++ detail_text (word value.now)) }
{
    to.append(b" ")?;
    to.append(value)
}

fn write_text(value: &[u8], to: &mut Bytes) -> Result<(), NoMemory>
    ensures { OnOk result (to.new ≡ to.old ++ detail_text (text value.now)) }
{
    to.append(b" \"")?;
    to.append(value)?;
    to.append(b"\"")
}

fn write_number(value: u32, to: &mut Bytes) -> Result<(), NoMemory>
    ensures { OnOk result (to.new ≡ to.old ++ detail_text (number value)) }
{
    to.append(b" ")?;
    write_decimal(value, to)
}

fn write_residual(value: i32, to: &mut Bytes) -> Result<(), NoMemory>
    ensures { OnOk result (to.new ≡ to.old ++ detail_text (residual value)) }
{
    let mut digits = [0; 16];
    let end = print_scaled(i64::from(value), &mut digits);
    to.append(b" ")?;
    to.append(&digits[..end])
}

fn write_decimal(value: u32, to: &mut Bytes) -> Result<(), NoMemory>
    ensures { OnOk result (to.new ≡ to.old ++ decimal value) }
{
    let mut buffer = Buffer::new();
    to.append(buffer.format(value).as_bytes())
}

fn number(error: &SourceError) -> u32
    ensures { result ≡ number_of error.now }
{
    match error {
        SourceError::BadCharacter(_) => 1,
        SourceError::UnfinishedString => 2,
        SourceError::EnormousNumber => 3,
        SourceError::NoSuchFile(_) => 4,
        SourceError::FileTooLong(_) => 5,
        SourceError::FileEndedInText => 6,
        SourceError::Unexpected(_, _) => 7,
        SourceError::WrongType(_) => 8,
        SourceError::NotKnown(_) => 9,
        SourceError::Overflow => 10,
        SourceError::DivisionByZero => 11,
        SourceError::OutOfDomain(_) => 12,
        SourceError::Inconsistent(_) => 13,
        SourceError::CoefficientTooLarge => 14,
        SourceError::BadArguments => 15,
        SourceError::LoneConditionWord => 16,
        SourceError::NoLoop => 17,
        SourceError::LoneEndgroup => 18,
        SourceError::BadSubscript => 19,
        SourceError::BadDeclaration => 20,
        SourceError::BadPath(_) => 21,
        SourceError::PolygonalPen => 22,
        SourceError::TeXBlock => 23,
        SourceError::BadFont(_, _) => 24,
        SourceError::MissingCharacter(_, _) => 25,
        SourceError::BadDash => 26,
        SourceError::UserError(_) => 27,
        SourceError::Limit(_, _) => 28,
        SourceError::NotBuilt(_) => 29,
    }
}

fn variant(error: &SourceError) -> &'static [u8]
    ensures { result.now ≡ variant_name error.now }
{
    match error {
        SourceError::BadCharacter(_) => b"BadCharacter",
        SourceError::UnfinishedString => b"UnfinishedString",
        SourceError::EnormousNumber => b"EnormousNumber",
        SourceError::NoSuchFile(_) => b"NoSuchFile",
        SourceError::FileTooLong(_) => b"FileTooLong",
        SourceError::FileEndedInText => b"FileEndedInText",
        SourceError::Unexpected(_, _) => b"Unexpected",
        SourceError::WrongType(_) => b"WrongType",
        SourceError::NotKnown(_) => b"NotKnown",
        SourceError::Overflow => b"Overflow",
        SourceError::DivisionByZero => b"DivisionByZero",
        SourceError::OutOfDomain(_) => b"OutOfDomain",
        SourceError::Inconsistent(_) => b"Inconsistent",
        SourceError::CoefficientTooLarge => b"CoefficientTooLarge",
        SourceError::BadArguments => b"BadArguments",
        SourceError::LoneConditionWord => b"LoneConditionWord",
        SourceError::NoLoop => b"NoLoop",
        SourceError::LoneEndgroup => b"LoneEndgroup",
        SourceError::BadSubscript => b"BadSubscript",
        SourceError::BadDeclaration => b"BadDeclaration",
        SourceError::BadPath(_) => b"BadPath",
        SourceError::PolygonalPen => b"PolygonalPen",
        SourceError::TeXBlock => b"TeXBlock",
        SourceError::BadFont(_, _) => b"BadFont",
        SourceError::MissingCharacter(_, _) => b"MissingCharacter",
        SourceError::BadDash => b"BadDash",
        SourceError::UserError(_) => b"UserError",
        SourceError::Limit(_, _) => b"Limit",
        SourceError::NotBuilt(_) => b"NotBuilt",
    }
}

fn cap_word(cap: Cap) -> &'static [u8]
    ensures { result.now ≡ cap_name cap }
{
    match cap {
        Cap::Nesting => b"Nesting",
        Cap::Sources => b"Sources",
        Cap::SourceBytes => b"SourceBytes",
        Cap::Text => b"Text",
        Cap::Knots => b"Knots",
        Cap::Items => b"Items",
        Cap::PictureKnots => b"PictureKnots",
        Cap::Suffix => b"Suffix",
        Cap::Params => b"Params",
        Cap::Unknowns => b"Unknowns",
        Cap::Terms => b"Terms",
        Cap::Figures => b"Figures",
        Cap::FigureBytes => b"FigureBytes",
        Cap::Lines => b"Lines",
    }
}

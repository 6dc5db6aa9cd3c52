//! The parts of names: how they are written, and what a subscript is.

ghost use Rattle.std.specs.Prelude.{◌≡◌, ◌<◌, ◌++◌, OnOk, IfOk};
ghost use Rattle.mp_scaled.specs.Print.{printed};
ghost use Rattle.mp_values.specs.Outcome.{Gives};
ghost use Rattle.mp_acts.specs.Counts.{IsWithin, greatest};
ghost use Rattle.mp_acts.specs.State.{counts, symbol_count};
ghost use Rattle.mp_acts.specs.Reach.{reach, reach_of_part};
ghost use Rattle.mp_acts.specs.Suffixes as suffixes;

use crate::State;
use crate::texts::push_scaled;
use mp_ops::TEXT_LIMIT;
use mp_report::{Cap, SourceError};
use mp_scaled::{Bytes, NoMemory, SharedSlice};
use mp_values::{Fault, Value};
use mp_vartree::Part;

impl State {
    /// A string of these bytes: `Limit` where they are more than 65536.
    #[tactic(auto, unfolding(crate::specs::Suffixes::string_token))]
    pub fn string_token(&self, bytes: SharedSlice<u8>) -> Result<Value, Fault>
        ensures exact { Gives result self.now (suffixes.string_token bytes self.now) }
        ensures within { IfOk result (λ v. IsWithin (reach v) (counts self.now)) }
    {
        if bytes.as_slice().len() > TEXT_LIMIT as usize {
            return Err(Fault::Refused(SourceError::Limit(Cap::Text, TEXT_LIMIT)));
        }
        Ok(Value::Text(bytes))
    }

    /// The text of a suffix as a string: `Limit` where it has more than 65536 bytes.
    #[tactic(auto, unfolding(crate::specs::Suffixes::suffix_string))]
    pub fn suffix_string(&self, suffix: &[Part]) -> Result<Value, Fault>
        requires { IsWithin (greatest reach_of_part suffix.now) (counts self.now) }
        ensures exact { Gives result self.now (suffixes.suffix_string suffix.now self.now) }
        ensures within { IfOk result (λ v. IsWithin (reach v) (counts self.now)) }
    {
        let text = self.suffix_text(suffix)?;
        self.string_token(SharedSlice::from_vec(text.into_vec())?)
    }

    fn suffix_text(&self, suffix: &[Part]) -> Result<Bytes, NoMemory>
        requires { IsWithin (greatest reach_of_part suffix.now) (counts self.now) }
        ensures { IfOk result (λ text. text ≡ suffixes.suffix_text self.now suffix.now) }
    {
        let mut text = Bytes::new(self.alloc);
        self.push_parts(&mut text, None, suffix)?;
        Ok(text)
    }

    /// The name of a variable: its tag, and the parts behind it.
    #[tactic(auto, unfolding(crate::specs::Suffixes::parts_text))]
    pub(crate) fn variable_name(&self, symbol: u32, suffix: &[Part]) -> Result<Bytes, NoMemory>
        requires symbol { symbol < symbol_count self.now }
        requires suffix { IsWithin (greatest reach_of_part suffix.now) (counts self.now) }
        ensures { IfOk result (λ text. text ≡ suffixes.variable_name self.now symbol suffix.now) }
    {
        let tag = Part::Sym(symbol);
        let mut text = Bytes::new(self.alloc);
        self.push_part(&mut text, None, tag)?;
        self.push_parts(&mut text, Some(tag), suffix)?;
        Ok(text)
    }

    /// Adds parts, behind that one if there is one.
    fn push_parts(
        &self,
        text: &mut Bytes,
        before: Option<Part>,
        parts: &[Part],
    ) -> Result<(), NoMemory>
        requires { IsWithin (greatest reach_of_part parts.now) (counts self.now) }
        ensures { OnOk result (text.new ≡ text.old ++ suffixes.parts_text self.now before parts.now) }
    {
        let mut last = before;
        'parts: for part in parts {
            self.push_part(text, last, *part)?;
            last = Some(*part);
        }
        Ok(())
    }

    /// Adds a part, behind that one if there is one.
    fn push_part(&self, text: &mut Bytes, before: Option<Part>, part: Part) -> Result<(), NoMemory>
        requires { IsWithin (reach_of_part part) (counts self.now) }
        ensures { OnOk result (text.new ≡ text.old ++ suffixes.part_text self.now before part) }
    {
        match part {
            Part::Sym(symbol) => {
                text.append(point_behind(before))?;
                text.append(self.symbol_name(symbol))
            }
            Part::Sub(units) => push_subscript(text, is_bracketed(before, units), units),
        }
    }

    /// The units of a subscript, which must be a known number: `BadSubscript`.
    #[tactic(auto, unfolding(crate::specs::Suffixes::subscript))]
    pub fn subscript(&self, value: &Value) -> Result<i32, Fault>
        requires { IsWithin (reach value.now) (counts self.now) }
        ensures { Gives result self.now (suffixes.subscript value.now self.now) }
    {
        match value {
            Value::Numeric(form) => {
                let form = self.up_to_date(form)?;
                if form.terms().is_empty() {
                    Ok(form.constant())
                } else {
                    Err(Fault::Refused(SourceError::BadSubscript))
                }
            }
            _ => Err(Fault::Refused(SourceError::BadSubscript)),
        }
    }
}

/// The point of a symbol behind a symbol.
fn point_behind(before: Option<Part>) -> &'static [u8]
    ensures { result.now ≡ suffixes.point_behind before }
{
    match before {
        Some(Part::Sym(_)) => b".",
        _ => b"",
    }
}

/// Whether a subscript stands in brackets.
fn is_bracketed(before: Option<Part>, units: i32) -> bool
    ensures { result ≡ suffixes.is_bracketed before units }
{
    match before {
        Some(Part::Sub(_)) => true,
        _ => units < 0,
    }
}

/// Adds a subscript.
fn push_subscript(text: &mut Bytes, bracketed: bool, units: i32) -> Result<(), NoMemory>
    ensures { OnOk result (text.new ≡ text.old ++ suffixes.subscript_text bracketed
        (printed units)) }
{
    if bracketed {
        text.push(b'[')?;
        push_scaled(text, units)?;
        text.push(b']')
    } else {
        push_scaled(text, units)
    }
}

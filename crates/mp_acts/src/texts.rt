//! What is shown of a value.

ghost use Rattle.std.specs.Prelude.{◌≡◌, ◌≤◌, ◌^◌, ◌∷◌, ◌++◌, codes, decimal, unsigned_abs, All, OnOk, IfOk};
ghost use Rattle.mp_scaled.specs.Print.{printed};
ghost use Rattle.mp_pool.specs.Terms.{IsCoefficient};
ghost use Rattle.mp_values.specs.Outcome.{Gives};
ghost use Rattle.mp_ops.specs.Store.{reach_of_form, reach_of_terms, reach_of_serial};
ghost use Rattle.mp_acts.specs.Counts.{IsWithin, nothing};
ghost use Rattle.mp_acts.specs.State.{unknown_count, counts};
ghost use Rattle.mp_acts.specs.Reach.{reach};
ghost use Rattle.mp_acts.specs.Texts as texts;

use crate::State;
use itoa::Buffer;
use mp_forms::Form;
use mp_pool::Term;
use mp_scaled::{Bytes, NoMemory, print_scaled};
use mp_values::{Fault, Kind, Value};

/// 1 as a multiple of 2^-16.
const UNITY: u64 = 65536;

impl State {
    /// What is shown of a value.
    #[tactic(auto, unfolding(crate::specs::Texts::value_text))]
    pub(crate) fn value_text(&self, value: &Value) -> Result<Bytes, Fault>
        requires { IsWithin (reach value.now) (counts self.now) }
        ensures { Gives result self.now (texts.value_text value.now self.now) }
    {
        let store = self.store();
        self.settled_text(store.settled(value))
    }

    /// What is shown of a value that is no filled slot.
    fn settled_text(&self, value: &Value) -> Result<Bytes, Fault>
        requires { IsWithin (reach value.now) (counts self.now) }
        ensures { Gives result self.now (texts.settled_text value.now self.now) }
    {
        match value {
            Value::Numeric(form) => {
                let form = self.up_to_date(form)?;
                Ok(self.form_text(&form)?)
            }
            Value::Text(bytes) => Ok(self.quoted(bytes.as_slice())?),
            Value::Boolean(truth) => Ok(Bytes::copy_of(self.alloc, truth_text(*truth))?),
            Value::Unset(kind, _) => Ok(self.unset_text(*kind)?),
            Value::Vacuous => Ok(Bytes::copy_of(self.alloc, b"vacuous")?),
        }
    }

    /// A string between quotation marks.
    fn quoted(&self, bytes: &[u8]) -> Result<Bytes, NoMemory>
        ensures { IfOk result (λ text. text ≡ texts.quoted bytes.now) }
    {
        let mut text = Bytes::copy_of(self.alloc, b"\"")?;
        text.append(bytes)?;
        text.push(b'"')?;
        Ok(text)
    }

    fn unset_text(&self, kind: Kind) -> Result<Bytes, NoMemory>
        ensures { IfOk result (λ text. text ≡ texts.unset_text kind) }
    {
        let mut text = Bytes::copy_of(self.alloc, b"unknown ")?;
        text.append(kind.name())?;
        Ok(text)
    }

    /// What is shown of a form that is up to date.
    #[tactic(auto, unfolding(crate::specs::Texts::form_text))]
    fn form_text(&self, form: &Form) -> Result<Bytes, NoMemory>
        requires { reach_of_form form.now ≤ unknown_count self.now }
        ensures { IfOk result (λ text. text ≡ texts.form_text self.now.unknowns form.now) }
    {
        let mut text = Bytes::new(self.alloc);
        match form.terms().split_first() {
            Some((first, more)) => self.push_sum(&mut text, first, more, form.constant())?,
            None => push_scaled(&mut text, form.constant())?,
        }
        Ok(text)
    }

    /// Adds terms, of which there is a first, and the constant behind them.
    #[tactic(auto, unfolding(mp_ops::specs::Store::reach_of_terms))]
    fn push_sum(
        &self,
        text: &mut Bytes,
        first: &Term,
        more: &[Term],
        constant: i32,
    ) -> Result<(), NoMemory>
        requires over { reach_of_terms (first.now ∷ more.now) ≤ unknown_count self.now }
        requires coefficients { All (λ t. IsCoefficient t.coefficient) (first.now ∷ more.now) }
        ensures { OnOk result (text.new ≡ text.old ++ texts.form_text_by self.now.unknowns constant
            (first.now ∷ more.now)) }
    {
        self.push_term(text, first_sign(first.coefficient), first)?;
        self.push_terms(text, more)?;
        push_last(text, constant)?;
        Ok(())
    }

    /// Adds the terms behind the first.
    fn push_terms(&self, text: &mut Bytes, terms: &[Term]) -> Result<(), NoMemory>
        requires over { reach_of_terms terms.now ≤ unknown_count self.now }
        requires coefficients { All (λ t. IsCoefficient t.coefficient) terms.now }
        ensures { OnOk result (text.new ≡ text.old ++ texts.more_terms self.now.unknowns terms.now) }
    {
        'terms: for term in terms {
            self.push_term(text, sign(term.coefficient), term)?;
        }
        Ok(())
    }

    /// Adds a term behind that sign.
    fn push_term(&self, text: &mut Bytes, sign: &[u8], term: &Term) -> Result<(), NoMemory>
        requires over { reach_of_serial term.now.serial ≤ unknown_count self.now }
        requires coefficient { IsCoefficient term.now.coefficient }
        ensures { OnOk result (text.new ≡ text.old
            ++ (sign.now ++ texts.unsigned_term self.now.unknowns term.now)) }
    {
        text.append(sign)?;
        push_multiple(text, coefficient_units(term.coefficient))?;
        self.push_unknown(text, term.serial)
    }

    /// Adds the name of an unknown.
    fn push_unknown(&self, text: &mut Bytes, serial: u32) -> Result<(), NoMemory>
        requires { reach_of_serial serial ≤ unknown_count self.now }
        ensures { OnOk result (text.new ≡ text.old ++ texts.unknown_name self.now.unknowns serial) }
    {
        match self.system.name(serial) {
            Some(name) => text.append(name),
            None => push_serial(text, serial),
        }
    }
}

/// Adds ? and a serial.
fn push_serial(text: &mut Bytes, serial: u32) -> Result<(), NoMemory>
    ensures { OnOk result (text.new ≡ text.old ++ (codes "?" ++ decimal serial)) }
{
    let mut buffer = Buffer::new();
    text.push(b'?')?;
    text.append(buffer.format(serial).as_bytes())
}

/// Adds a multiple of 2^-16, but nothing where it is 1.
fn push_multiple(text: &mut Bytes, units: u64) -> Result<(), NoMemory>
    requires { units ≤ 2 ^ 32 }
    ensures { OnOk result (text.new ≡ text.old ++ texts.multiple units) }
{
    if units == UNITY {
        return Ok(());
    }
    push_printed(text, units as i64)
}

/// Adds a number in decimal.
pub(crate) fn push_scaled(text: &mut Bytes, units: i32) -> Result<(), NoMemory>
    ensures { OnOk result (text.new ≡ text.old ++ printed units) }
{
    push_printed(text, i64::from(units))
}

fn push_printed(text: &mut Bytes, units: i64) -> Result<(), NoMemory>
    requires { unsigned_abs units ≤ 2 ^ 32 }
    ensures { OnOk result (text.new ≡ text.old ++ printed units) }
{
    let mut buffer = [0; 16];
    let length = print_scaled(units, &mut buffer);
    text.append(&buffer[..length])
}

/// Adds the constant behind terms, but nothing where it is 0.
fn push_last(text: &mut Bytes, constant: i32) -> Result<(), NoMemory>
    ensures { OnOk result (text.new ≡ text.old ++ texts.last_constant constant) }
{
    if constant == 0 {
        return Ok(());
    }
    if constant > 0 {
        text.push(b'+')?;
    }
    push_scaled(text, constant)
}

/// The magnitude of a coefficient in units of 2^-16.
fn coefficient_units(coefficient: i64) -> u64
    requires { IsCoefficient coefficient }
    ensures exact { result ≡ texts.coefficient_units coefficient }
    ensures small { result ≤ 2 ^ 32 }
{
    (2 * coefficient.unsigned_abs() + 4096) / 8192
}

/// + or -, by the sign of a number.
fn sign(number: i64) -> &'static [u8]
    ensures { result.now ≡ texts.sign number }
{
    if number < 0 { b"-" } else { b"+" }
}

/// No plus before a first term.
fn first_sign(number: i64) -> &'static [u8]
    ensures { result.now ≡ texts.first_sign number }
{
    if number < 0 { b"-" } else { b"" }
}

fn truth_text(truth: bool) -> &'static [u8]
    ensures { result.now ≡ texts.truth_text truth }
{
    if truth { b"true" } else { b"false" }
}

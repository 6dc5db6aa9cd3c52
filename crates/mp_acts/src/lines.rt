//! The lines that a run writes.

ghost use Rattle.std.specs.Prelude.{◌≤◌};
ghost use Rattle.mp_values.specs.Outcome.{Gives, IsWhole};
ghost use Rattle.mp_acts.specs.Counts.{IsWithin};
ghost use Rattle.mp_acts.specs.State.{counts};
ghost use Rattle.mp_acts.specs.Reach.{reach};
ghost use Rattle.mp_acts.specs.Lines as lines;

use crate::State;
use crate::limits::LINES_LIMIT;
use mp_report::{Cap, SourceError};
use mp_scaled::Bytes;
use mp_values::{Fault, Speech, Value};

impl State {
    /// Adds a line, given without its end: `Limit` where all lines together would have more than 16,777,216 bytes.
    pub fn do_line(&mut self, text: &[u8]) -> Result<(), Fault>
        ensures exact { Gives result self.new (lines.line text.now self.old) }
        ensures whole { IsWhole result self.old self.new }
        ensures counts { IsWithin (counts self.old) (counts self.new) }
    {
        let line = Bytes::copy_of(self.alloc, text)?;
        self.add_line(line)
    }

    /// Shows a value, a number brought up to date, on a line of its own that begins with `>> `.
    #[tactic(auto, unfolding(crate::specs::Lines::show))]
    pub fn do_show(&mut self, value: &Value) -> Result<(), Fault>
        requires { IsWithin (reach value.now) (counts self.old) }
        ensures exact { Gives result self.new (lines.show value.now self.old) }
        ensures whole { IsWhole result self.old self.new }
        ensures counts { IsWithin (counts self.old) (counts self.new) }
    {
        let mut line = Bytes::copy_of(self.alloc, b">> ")?;
        let text = self.value_text(value)?;
        line.append(text.as_slice())?;
        self.add_line(line)
    }

    /// Says a string: as a line, as the error that ends the run (`UserError`), or as help, which has no effect.
    /// `WrongType` for a value that is no string, `NotKnown` for one without a value.
    #[tactic(auto, unfolding(crate::specs::Lines::speak))]
    pub fn do_speak(&mut self, speech: Speech, value: &Value) -> Result<(), Fault>
        requires { IsWithin (reach value.now) (counts self.old) }
        ensures exact { Gives result self.new (lines.speak speech value.now self.old) }
        ensures whole { IsWhole result self.old self.new }
        ensures counts { IsWithin (counts self.old) (counts self.new) }
    {
        match speech {
            Speech::Message => self.message(value),
            Speech::Errmessage => self.errmessage(value),
            Speech::Errhelp => self.errhelp(value),
        }
    }

    #[tactic(auto, unfolding(crate::specs::Lines::message))]
    fn message(&mut self, value: &Value) -> Result<(), Fault>
        requires { IsWithin (reach value.now) (counts self.old) }
        ensures exact { Gives result self.new (lines.message value.now self.old) }
        ensures whole { IsWhole result self.old self.new }
        ensures counts { IsWithin (counts self.old) (counts self.new) }
    {
        let text = self.store().text(b"message", value)?;
        self.do_line(text.as_slice())
    }

    #[tactic(auto, unfolding(crate::specs::Lines::errmessage))]
    fn errmessage(&self, value: &Value) -> Result<(), Fault>
        requires { IsWithin (reach value.now) (counts self.now) }
        ensures { Gives result self.now (lines.errmessage value.now self.now) }
    {
        let text = self.store().text(b"errmessage", value)?;
        let text = Bytes::copy_of(self.alloc, text.as_slice())?;
        Err(Fault::Refused(SourceError::UserError(text)))
    }

    #[tactic(auto, unfolding(crate::specs::Lines::errhelp))]
    fn errhelp(&self, value: &Value) -> Result<(), Fault>
        requires { IsWithin (reach value.now) (counts self.now) }
        ensures { Gives result self.now (lines.errhelp value.now self.now) }
    {
        self.store().text(b"errhelp", value)?;
        Ok(())
    }

    /// Adds a line, given without its end. It is made whole first, so that none is left half.
    #[tactic(auto, unfolding(crate::specs::Lines::line))]
    pub(crate) fn add_line(&mut self, mut line: Bytes) -> Result<(), Fault>
        ensures exact { Gives result self.new (lines.line line self.old) }
        ensures whole { IsWhole result self.old self.new }
        ensures counts { IsWithin (counts self.old) (counts self.new) }
    {
        let limit = LINES_LIMIT as usize;
        let length = line.as_slice().len();
        if length >= limit || self.lines.as_slice().len() > limit - 1 - length {
            return Err(Fault::Refused(SourceError::Limit(Cap::Lines, LINES_LIMIT)));
        }
        line.push(b'\n')?;
        self.lines.append(line.as_slice())?;
        Ok(())
    }
}

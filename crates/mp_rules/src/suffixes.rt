//! The parts of names behind a tag: of a variable's name, and of a declared one.

ghost use Rattle.std.specs.Prelude.{◌≡◌, ◌<◌, ◌+◌, [], Err, IfOk, OnErr};
ghost use Rattle.mp_acts.specs.Counts.{IsWithin, greatest};
ghost use Rattle.mp_acts.specs.Reach.{reach, reach_of_item, reach_of_macro, reach_of_part};
ghost use Rattle.mp_acts.specs.State.{symbol_count};
ghost use Rattle.mp_rules.specs.Machine.{things};
ghost use Rattle.mp_rules.specs.Promises.{Means, Acts, Uses, ActsPart, UsesName};
ghost use Rattle.mp_rules.specs.Meaning.{the};
ghost use Rattle.mp_rules.specs.Rules as rules;

use crate::evaluator::Evaluator;
use crate::named::Named;
use crate::names::call_arguments;
use mp_expand::{Front, Step};
use mp_report::{Cap, SourceError};
use mp_scaled::{Listing, Shared};
use mp_values::{Arguments, Level, Macro, Stop, Value, Word};
use mp_vartree::{PART_LIMIT, Part, Pattern, Shape, Suffix};

impl Evaluator {
    /// Refuses one more part, behind so many, where that would be too many.
    fn room_for_part(&self, count: usize) -> Result<(), Stop>
        ensures { Acts (rules.room_for_part count) result self.now self.now }
    {
        if count < PART_LIMIT as usize {
            Ok(())
        } else {
            Err(Stop::Refused(SourceError::Limit(Cap::Suffix, PART_LIMIT)))
        }
    }

    /// The same behind so many of a name, and so many that go on behind it.
    fn room_behind(&self, count: usize, more: usize) -> Result<(), Stop>
        ensures { Acts (rules.room_for_part (count + more)) result self.now self.now }
    {
        let limit = PART_LIMIT as usize;
        if count < limit && more < limit - count {
            Ok(())
        } else {
            Err(Stop::Refused(SourceError::Limit(Cap::Suffix, PART_LIMIT)))
        }
    }

    fn bracket_end(&self) -> Result<(), Stop>
        ensures { Acts rules.bracket_end result self.now self.now }
    {
        match self.sign() {
            Front::Word(_, Word::RightBracket) => Ok(()),
            _ => Err(self.unexpected(b"]")),
        }
    }

    /// The units of a subscript in brackets, behind the left one.
    #[cycle(eval)]
    fn bracketed(&mut self) -> Result<i32, Stop>
        ensures { Uses (rules.bracketed the) result self.old self.new }
    {
        let value = self.next_expression()?;
        self.bracket_end()?;
        self.subscript(value)
    }

    /// A part of a name, whose front is then used up: a symbol, a number, or a subscript in brackets.
    #[cycle(eval)]
    fn part_here(&mut self) -> Result<Option<Part>, Stop>
        ensures { ActsPart (rules.part_here the) result self.old self.new }
    {
        let sign = self.sign();
        let part = match &sign {
            Front::Tag(symbol) | Front::Internal(symbol, _) => Part::Sym(*symbol),
            Front::Number(value) => Part::Sub(value.units()),
            Front::Word(_, Word::LeftBracket) => Part::Sub(self.bracketed()?),
            _ => return Ok(None),
        };
        self.see(Front::EndOfText);
        Ok(Some(part))
    }

    /// The parts of a name from the front in hand on.
    #[cycle(eval)]
    #[tactic(auto, using(crate::proofs::Cases::suffix_is, crate::proofs::Units::passed_on, crate::proofs::ReachLemmas::greatest_none, crate::proofs::ReachLemmas::greatest_push))]
    pub(crate) fn suffix(&mut self) -> Result<Suffix, Stop>
        ensures { Means (rules.Suffix []) result self.old self.new }
    {
        let mut parts = Listing::new(self.alloc);
        'parts: while let Some(part) = self.part_here()? {
            self.room_for_part(parts.as_slice().len())?;
            parts.push(part)?;
            self.next_front()?;
        }
        Ok(parts)
    }

    /// A variable's name: the root of a tag, and the parts behind it. A name that is that of a macro calls it at once.
    #[cycle(eval)]
    #[tactic(auto, using(crate::proofs::Cases::variable_name_is, crate::proofs::Cases::name_from_is, crate::proofs::Units::passed_on, crate::proofs::ReachLemmas::greatest_none, crate::proofs::ReachLemmas::greatest_push))]
    pub(crate) fn variable_name(&mut self, symbol: u32) -> Result<Named, Stop>
        requires { symbol < symbol_count self.old.acts }
        ensures { Means (rules.VariableName symbol) result self.old self.new }
    {
        let root = self.root_of(symbol)?;
        let mut parts = Listing::new(self.alloc);
        'parts: loop {
            if let Some(called) = self.macro_named(root, &parts)? {
                return self.call_named(symbol, &parts, called);
            }
            self.next_front()?;
            let Some(part) = self.part_here()? else {
                return Ok(Named::Variable(root, parts));
            };
            self.room_for_part(parts.as_slice().len())?;
            parts.push(part)?;
        }
    }

    /// Calls the macro whose name was read. With `@#` at the end of its name the rest of the suffix is read first.
    #[cycle(eval)]
    #[tactic(auto, using(crate::proofs::ReachLemmas::greatest_none))]
    fn call_named(
        &mut self,
        symbol: u32,
        parts: &Suffix,
        called: Shared<Macro>,
    ) -> Result<Named, Stop>
        requires symbol { symbol < symbol_count self.old.acts }
        requires parts { IsWithin (greatest reach_of_part parts.now) (things self.old) }
        requires body { IsWithin (reach_of_macro called) (things self.old) }
        ensures { UsesName (rules.called_by the symbol parts.now called called.level) result self.old self.new }
    {
        match called.get().level {
            Level::Suffixed => {
                self.next_front()?;
                let behind = self.suffix_behind(parts.as_slice().len())?;
                self.call_with(symbol, parts, &behind, called)
            }
            _ => {
                let nothing = Listing::new(self.alloc);
                self.call_with(symbol, parts, &nothing, called)
            }
        }
    }

    /// Calls the macro whose name was read, with the suffix that goes on behind it.
    #[cycle(eval)]
    fn call_with(
        &mut self,
        symbol: u32,
        parts: &Suffix,
        behind: &Suffix,
        called: Shared<Macro>,
    ) -> Result<Named, Stop>
        requires symbol { symbol < symbol_count self.old.acts }
        requires parts { IsWithin (greatest reach_of_part parts.now) (things self.old) }
        requires behind { IsWithin (greatest reach_of_part behind.now) (things self.old) }
        requires body { IsWithin (reach_of_macro called) (things self.old) }
        ensures { UsesName (rules.called_named the symbol parts.now behind.now called) result self.old self.new }
    {
        let arguments = self.called_with(symbol, parts, behind)?;
        self.call_on(called, arguments)?;
        Ok(Named::Called)
    }

    /// What the macro of a variable is told of its name, and of what goes on behind it.
    fn called_with(&self, symbol: u32, parts: &Suffix, behind: &Suffix) -> Result<Arguments, Stop>
        requires symbol { symbol < symbol_count self.now.acts }
        requires parts { IsWithin (greatest reach_of_part parts.now) (things self.now) }
        requires behind { IsWithin (greatest reach_of_part behind.now) (things self.now) }
        ensures exact { IfOk result (λ arguments. arguments ≡ rules.called_with symbol parts.now behind.now) }
        ensures within { IfOk result (λ arguments. IsWithin (greatest (greatest reach_of_item) arguments) (things self.now)) }
        ensures starved { OnErr result (result ≡ Err Stop.NoMemory) }
    {
        Ok(call_arguments(self.alloc, symbol, parts.as_slice(), behind.as_slice())?)
    }

    /// Calls a macro, and answers what it asks for; the front behind that comes to hand.
    #[cycle(eval)]
    pub(crate) fn call_on(
        &mut self,
        called: Shared<Macro>,
        arguments: Arguments,
    ) -> Result<(), Stop>
        requires body { IsWithin (reach_of_macro called) (things self.old) }
        requires arguments { IsWithin (greatest (greatest reach_of_item) arguments) (things self.old) }
        ensures { Uses (rules.call_on the called arguments) result self.old self.new }
    {
        if let Step::Want(want) = self.call(called, arguments)? {
            self.asked(want)?;
        }
        self.next_front()
    }

    /// A part of the suffix that stands behind the name of a macro. What stands behind that suffix is put back.
    #[cycle(eval)]
    fn part_behind(&mut self) -> Result<Option<Part>, Stop>
        ensures { ActsPart (rules.part_behind the) result self.old self.new }
    {
        let sign = self.sign();
        let part = match &sign {
            Front::Tag(symbol) | Front::Internal(symbol, _) => Part::Sym(*symbol),
            Front::Number(value) => Part::Sub(value.units()),
            Front::Word(bracket, Word::LeftBracket) => {
                let value = self.next_expression()?;
                return self.bracket_behind(*bracket, value);
            }
            _ => {
                self.put_hand_back()?;
                return Ok(None);
            }
        };
        self.see(Front::EndOfText);
        Ok(Some(part))
    }

    /// What an expression in brackets is there: a subscript, or no part of the suffix, where a comma is behind it.
    fn bracket_behind(&mut self, bracket: u32, value: Value) -> Result<Option<Part>, Stop>
        requires bracket { bracket < symbol_count self.old.acts }
        requires value { IsWithin (reach value) (things self.old) }
        ensures { ActsPart (rules.bracket_behind bracket value) result self.old self.new }
    {
        if let Front::Word(_, Word::Comma) = self.sign() {
            self.put_bracket_back(bracket, value)?;
            return Ok(None);
        }
        self.bracket_end()?;
        let units = self.subscript(value)?;
        self.see(Front::EndOfText);
        Ok(Some(Part::Sub(units)))
    }

    /// The suffix that stands behind the name of a macro, which has so many parts.
    #[cycle(eval)]
    #[tactic(auto, using(crate::proofs::Cases::suffix_behind_is, crate::proofs::Units::passed_on, crate::proofs::ReachLemmas::greatest_none, crate::proofs::ReachLemmas::greatest_push))]
    fn suffix_behind(&mut self, count: usize) -> Result<Suffix, Stop>
        ensures { Means (rules.SuffixBehind count []) result self.old self.new }
    {
        let mut parts = Listing::new(self.alloc);
        'parts: while let Some(part) = self.part_behind()? {
            self.room_behind(count, parts.as_slice().len())?;
            parts.push(part)?;
            self.next_front()?;
        }
        Ok(parts)
    }

    fn empty_bracket(&self) -> Result<(), Stop>
        ensures { Acts rules.empty_bracket result self.now self.now }
    {
        match self.sign() {
            Front::Word(_, Word::RightBracket) => Ok(()),
            _ => Err(Stop::Refused(SourceError::BadDeclaration)),
        }
    }

    /// The parts of a declared name behind its tag: symbols, and `[]` for any subscript.
    #[cycle(eval)]
    #[tactic(auto, using(crate::proofs::Cases::declared_name_is))]
    pub(crate) fn declared_name(&mut self) -> Result<Pattern, Stop>
        ensures { Means (rules.DeclaredName []) result self.old self.new }
    {
        let mut parts = Listing::new(self.alloc);
        'parts: loop {
            let part = match self.sign() {
                Front::Tag(symbol) | Front::Internal(symbol, _) => Shape::Sym(symbol),
                Front::Number(_) => return Err(Stop::Refused(SourceError::BadDeclaration)),
                Front::Word(_, Word::LeftBracket) => {
                    self.next_front()?;
                    self.empty_bracket()?;
                    Shape::Any
                }
                _ => return Ok(parts),
            };
            self.room_for_part(parts.as_slice().len())?;
            parts.push(part)?;
            self.next_front()?;
        }
    }
}

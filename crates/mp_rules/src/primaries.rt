//! Primaries.

ghost use Rattle.std.specs.Prelude.{◌≡◌, ◌<◌};
ghost use Rattle.mp_acts.specs.Counts.{IsWithin, greatest};
ghost use Rattle.mp_acts.specs.Reach.{reach, reach_of_part, reach_of_pair};
ghost use Rattle.mp_acts.specs.State.{symbol_count, internal_count};
ghost use Rattle.mp_rules.specs.Machine.{things};
ghost use Rattle.mp_rules.specs.Rules.{NumberThen, Factor, Group, PrimaryInside, Primary, LeadingInside, Leading};
ghost use Rattle.mp_rules.specs.Promises.{Means, Acts, ActsValue, ActsSide, UsesValue, UsesVariable};
ghost use Rattle.mp_rules.specs.Meaning.{the};
ghost use Rattle.mp_rules.specs.Rules as rules;

use crate::chain_side::ChainSide;
use crate::evaluator::Evaluator;
use crate::named::Named;
use mp_acts::Target;
use mp_expand::Front;
use mp_values::{Delimiters, Nullary, Scaled, Secondary, Stop, Unary, Value, Word};
use mp_vartree::Suffix;

impl Evaluator {
    /// The front that is got next, and the primary that it begins.
    #[cycle(eval)]
    pub(crate) fn next_primary(&mut self) -> Result<Value, Stop>
        ensures { UsesValue (rules.next_primary the) result self.old self.new }
    {
        self.next_front()?;
        self.primary()
    }

    /// The front that is got next, and the expression that it begins.
    #[cycle(eval)]
    pub(crate) fn next_expression(&mut self) -> Result<Value, Stop>
        ensures { UsesValue (rules.next_expression the) result self.old self.new }
    {
        self.next_front()?;
        self.expression()
    }

    /// A number, or a fraction of two, and its product with what is directly behind it.
    #[cycle(eval)]
    fn number(&mut self, value: Scaled) -> Result<Value, Stop>
        ensures { UsesValue (rules.number the value) result self.old self.new }
    {
        self.next_front()?;
        self.number_then(value)
    }

    /// What is behind a number: a slash and the number below, or what it multiplies. A front behind a slash that is no
    /// number is held.
    #[cycle(eval)]
    #[tactic(auto, using(crate::proofs::Cases::number_then_is))]
    fn number_then(&mut self, value: Scaled) -> Result<Value, Stop>
        ensures { Means (NumberThen value) result self.old self.new }
    {
        match self.sign() {
            Front::Word(slash, Word::Secondary(Secondary::Over)) => {
                self.next_front()?;
                match self.sign() {
                    Front::Number(under) => {
                        self.next_front()?;
                        let quotient = self.fraction(value, under)?;
                        self.factor(quotient)
                    }
                    _ => {
                        self.hold(slash);
                        Ok(self.known_number(value))
                    }
                }
            }
            _ => {
                let number = self.known_number(value);
                self.factor(number)
            }
        }
    }

    /// The product of a number with the primary directly behind it, where that is no number and has no sign.
    #[cycle(eval)]
    #[tactic(auto, using(crate::proofs::Cases::factor_is))]
    fn factor(&mut self, value: Value) -> Result<Value, Stop>
        requires { IsWithin (reach value) (things self.old) }
        ensures { Means (Factor value) result self.old self.new }
    {
        if self.sign().begins_factor() {
            let right = self.primary()?;
            self.secondary_of(Secondary::Times, value, right)
        } else {
            Ok(value)
        }
    }

    /// A variable, which is read when the front behind its name was got; none where a macro was called in its place, and
    /// the primary begins anew.
    #[cycle(eval)]
    fn variable(&mut self, symbol: u32) -> Result<Option<Value>, Stop>
        requires { symbol < symbol_count self.old.acts }
        ensures { UsesVariable (rules.variable_or_call the symbol) result self.old self.new }
    {
        match self.variable_name(symbol)? {
            Named::Variable(root, parts) => Ok(Some(self.read(symbol, root, parts)?)),
            Named::Called => Ok(None),
        }
    }

    /// An expression in parentheses.
    #[cycle(eval)]
    fn parenthesis(&mut self, pair: Delimiters) -> Result<Value, Stop>
        requires { IsWithin (reach_of_pair pair) (things self.old) }
        ensures { UsesValue (rules.parenthesis the pair) result self.old self.new }
    {
        let value = self.next_expression()?;
        self.closed(pair)?;
        self.next_front()?;
        Ok(value)
    }

    /// The end of an expression in parentheses.
    fn closed(&self, pair: Delimiters) -> Result<(), Stop>
        requires { IsWithin (reach_of_pair pair) (things self.now) }
        ensures { Acts (rules.closed pair) result self.now self.now }
    {
        match self.sign() {
            Front::Right(_, other) if other.left == pair.left && other.right == pair.right => Ok(
                (),
            ),
            _ => Err(self.unexpected(self.acts.symbol_name(pair.right))),
        }
    }

    /// A group, whose end takes effect before the front behind it is got.
    #[cycle(eval)]
    #[tactic(auto, using(crate::proofs::Cases::group_is))]
    fn group(&mut self) -> Result<Value, Stop>
        ensures { Means Group result self.old self.new }
    {
        self.open_group()?;
        self.next_front()?;
        let value = self.group_statements()?;
        self.end_group()?;
        self.next_front()?;
        Ok(value)
    }

    /// A string, which is read when the front behind it was got.
    #[cycle(eval)]
    fn string_primary(&mut self) -> Result<Value, Stop>
        ensures { UsesValue (rules.string_primary the) result self.old self.new }
    {
        let bytes = self.string_in_hand()?;
        self.next_front()?;
        self.string_token(bytes)
    }

    /// A value that stands for an expression.
    #[cycle(eval)]
    fn value_primary(&mut self) -> Result<Value, Stop>
        ensures { UsesValue (rules.value_primary the) result self.old self.new }
    {
        let value = self.value_in_hand()?;
        self.next_front()?;
        Ok(value)
    }

    #[cycle(eval)]
    fn internal(&mut self, k: u32) -> Result<Value, Stop>
        requires { k < internal_count self.old.acts }
        ensures { UsesValue (rules.internal the k) result self.old self.new }
    {
        self.next_front()?;
        Ok(self.internal_value(k))
    }

    /// A word that stands for a value.
    #[cycle(eval)]
    fn constant(&mut self, word: Nullary) -> Result<Value, Stop>
        ensures { UsesValue (rules.constant the word) result self.old self.new }
    {
        self.next_front()?;
        self.nullary(word)
    }

    /// The text of a suffix.
    #[cycle(eval)]
    fn str_primary(&mut self) -> Result<Value, Stop>
        ensures { UsesValue (rules.str_primary the) result self.old self.new }
    {
        self.next_front()?;
        let name = self.suffix()?;
        self.suffix_string(name)
    }

    /// What an operator makes of the primary behind it.
    #[cycle(eval)]
    fn applied(&mut self, operator: Unary) -> Result<Value, Stop>
        ensures { UsesValue (rules.applied the operator) result self.old self.new }
    {
        let right = self.next_primary()?;
        self.unary_of(operator, right)
    }

    /// What a primary is made of that begins with a word.
    #[cycle(eval)]
    fn word_primary(&mut self, symbol: u32, word: Word) -> Result<Value, Stop>
        requires { self.old.front ≡ Front.Word symbol word }
        ensures { ActsValue (rules.primary_by the (Front.Word symbol word)) result self.old self.new }
    {
        match word {
            Word::Begingroup => self.group(),
            Word::Str => self.str_primary(),
            Word::Nullary(word) => self.constant(word),
            _ => match word.unary() {
                Some(operator) => self.applied(operator),
                None => Err(self.unexpected(b"primary")),
            },
        }
    }

    /// What a primary is made of. Where a macro is called in the place of a variable, it begins anew.
    #[cycle(eval)]
    #[tactic(auto, using(crate::proofs::Cases::primary_inside_is))]
    fn primary_inside(&mut self) -> Result<Value, Stop>
        ensures { Means PrimaryInside result self.old self.new }
    {
        'calls: loop {
            let sign = self.sign();
            match &sign {
                Front::Number(value) => return self.number(*value),
                Front::Text => return self.string_primary(),
                Front::Capsule => return self.value_primary(),
                Front::Word(symbol, word) => return self.word_primary(*symbol, *word),
                Front::Tag(symbol) => {
                    if let Some(value) = self.variable(*symbol)? {
                        return Ok(value);
                    }
                }
                Front::Internal(_, k) => return self.internal(*k),
                Front::Left(_, pair) => return self.parenthesis(*pair),
                Front::Operator(_) | Front::Right(_, _) | Front::EndOfText => return Err(
                    self.unexpected(b"primary"),
                ),
            }
        }
    }

    /// A primary; so many may be read inside one another.
    #[cycle(eval)]
    #[tactic(auto, using(crate::proofs::Cases::primary_is))]
    pub(crate) fn primary(&mut self) -> Result<Value, Stop>
        ensures { Means Primary result self.old self.new }
    {
        self.enter()?;
        let read = self.primary_inside()?;
        self.leave();
        Ok(read)
    }

    fn variable_side(&mut self, symbol: u32, root: u32, name: Suffix) -> Result<ChainSide, Stop>
        requires symbol { symbol < symbol_count self.old.acts }
        requires name { IsWithin (greatest reach_of_part name) (things self.old) }
        ensures { ActsSide (rules.variable_side symbol root name) result self.old self.new }
    {
        match self.sign() {
            Front::Word(_, Word::Assign) => Ok(ChainSide::Target(Target::Variable(root, name))),
            _ => {
                let value = self.read(symbol, root, name)?;
                Ok(ChainSide::Value(value))
            }
        }
    }

    fn internal_side(&mut self, k: u32) -> Result<ChainSide, Stop>
        requires { k < internal_count self.old.acts }
        ensures { ActsSide (rules.internal_side k) result self.old self.new }
    {
        match self.sign() {
            Front::Word(_, Word::Assign) => Ok(ChainSide::Target(Target::Internal(k))),
            _ => Ok(ChainSide::Value(self.internal_value(k))),
        }
    }

    /// What the first primary of a side is made of. Where a macro is called in the place of a variable, it begins anew.
    #[cycle(eval)]
    #[tactic(auto, using(crate::proofs::Cases::leading_inside_is, crate::proofs::ChainLemmas::used_small))]
    fn leading_inside(&mut self) -> Result<ChainSide, Stop>
        ensures { Means LeadingInside result self.old self.new }
    {
        'calls: loop {
            match self.sign() {
                Front::Tag(symbol) => {
                    if let Named::Variable(root, name) = self.variable_name(symbol)? {
                        return self.variable_side(symbol, root, name);
                    }
                }
                Front::Internal(_, k) => {
                    self.next_front()?;
                    return self.internal_side(k);
                }
                _ => {
                    let value = self.primary_inside()?;
                    return Ok(ChainSide::Value(value));
                }
            }
        }
    }

    /// The first primary of a side of a chain: a variable or an internal with `:=` behind it is a target.
    #[cycle(eval)]
    #[tactic(auto, using(crate::proofs::Cases::leading_is))]
    pub(crate) fn leading(&mut self) -> Result<ChainSide, Stop>
        ensures { Means Leading result self.old self.new }
    {
        self.enter()?;
        let read = self.leading_inside()?;
        self.leave();
        Ok(read)
    }
}

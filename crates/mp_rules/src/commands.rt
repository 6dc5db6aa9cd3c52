//! Statements that begin with a word.

ghost use Rattle.std.specs.Prelude.{◌≡◌};
ghost use Rattle.mp_rules.specs.Rules.{ShowList, SymbolList, TypeList, CommandRest};
ghost use Rattle.mp_rules.specs.Promises.{Means, Acts, ActsInternal, Uses};
ghost use Rattle.mp_rules.specs.Meaning.{the};
ghost use Rattle.mp_rules.specs.Rules as rules;

use crate::evaluator::Evaluator;
use crate::front::Raw;
use mp_expand::Front;
use mp_values::{Command, Kind, Meaning, Speech, Stop, SymbolCommand, Word};

impl Evaluator {
    /// Expressions to be shown; each is shown when the front behind it was got.
    #[cycle(eval)]
    #[tactic(auto, using(crate::proofs::Cases::show_list_is))]
    fn show_list(&mut self) -> Result<(), Stop>
        ensures { Means ShowList result self.old self.new }
    {
        'expressions: loop {
            let value = self.next_expression()?;
            self.show(value)?;
            match self.sign() {
                Front::Word(_, Word::Comma) => {}
                _ => return Ok(()),
            }
        }
    }

    /// Symbols, with each of which the command is done before the front behind it is got.
    #[cycle(eval)]
    #[tactic(auto, using(crate::proofs::Cases::symbol_list_is))]
    fn symbol_list(&mut self, command: SymbolCommand) -> Result<(), Stop>
        ensures { Means (SymbolList command) result self.old self.new }
    {
        'symbols: loop {
            let symbol = self.raw_symbol()?;
            self.with_each(command, symbol)?;
            self.next_front()?;
            match self.sign() {
                Front::Word(_, Word::Comma) => {}
                _ => return Ok(()),
            }
        }
    }

    /// Names whose variables get a type; each is declared when the front behind it was got.
    #[cycle(eval)]
    #[tactic(auto, using(crate::proofs::Cases::type_list_is))]
    fn type_list(&mut self, kind: Kind) -> Result<(), Stop>
        ensures { Means (TypeList kind) result self.old self.new }
    {
        'names: loop {
            let symbol = self.raw_symbol()?;
            self.next_front()?;
            let name = self.declared_name()?;
            self.declare(symbol, name, kind)?;
            match self.sign() {
                Front::Word(_, Word::Comma) => {}
                _ => return Ok(()),
            }
        }
    }

    /// The `=` or `:=` of `let`, as it stands.
    fn equals(&mut self) -> Result<(), Stop>
        ensures { Uses (rules.raw_equals the) result self.old self.new }
    {
        let raw = self.raw()?;
        match raw {
            Raw::Symbol(symbol) => match self.acts.symbol_meaning(symbol) {
                Meaning::Word(Word::Equals | Word::Assign) => Ok(()),
                _ => Err(self.unexpected_raw(b"=", raw)),
            },
            Raw::EndOfText => Err(self.unexpected_raw(b"symbol", raw)),
            _ => Err(self.unexpected_raw(b"=", raw)),
        }
    }

    fn let_equal(&mut self) -> Result<(), Stop>
        ensures { Uses (rules.let_equal the) result self.old self.new }
    {
        let symbol = self.raw_symbol()?;
        self.equals()?;
        let other = self.raw_symbol()?;
        self.let_symbol(symbol, other)
    }

    fn delimiter_pair(&mut self) -> Result<(), Stop>
        ensures { Uses (rules.delimiter_pair the) result self.old self.new }
    {
        let left = self.raw_symbol()?;
        let right = self.raw_symbol()?;
        self.delimiters(left, right);
        Ok(())
    }

    fn internal_here(&self) -> Result<u32, Stop>
        ensures { ActsInternal rules.internal_here result self.now self.now }
    {
        match self.sign() {
            Front::Internal(_, k) => Ok(k),
            _ => Err(self.unexpected(b"symbol")),
        }
    }

    fn assign_here(&self) -> Result<(), Stop>
        ensures { Acts rules.assign_here result self.now self.now }
    {
        match self.sign() {
            Front::Word(_, Word::Assign) => Ok(()),
            _ => Err(self.unexpected(b":=")),
        }
    }

    #[cycle(eval)]
    fn interim_value(&mut self) -> Result<(), Stop>
        ensures { Uses (rules.interim_value the) result self.old self.new }
    {
        self.next_front()?;
        let k = self.internal_here()?;
        self.next_front()?;
        self.assign_here()?;
        let value = self.next_expression()?;
        self.interim(k, value)
    }

    /// A string to be said, when the front behind it was got.
    #[cycle(eval)]
    fn spoken(&mut self, speech: Speech) -> Result<(), Stop>
        ensures { Uses (rules.spoken the speech) result self.old self.new }
    {
        let value = self.next_expression()?;
        self.speak(speech, value)
    }

    /// The rest of a statement, with the word that it begins with in hand.
    #[cycle(eval)]
    #[tactic(auto, using(crate::proofs::Cases::command_rest_is))]
    pub(crate) fn command_rest(&mut self, command: Command) -> Result<(), Stop>
        ensures { Means (CommandRest command) result self.old self.new }
    {
        match command {
            Command::Show => self.show_list(),
            Command::Symbols(command) => self.symbol_list(command),
            Command::Interim => self.interim_value(),
            Command::Let => {
                self.let_equal()?;
                self.next_front()
            }
            Command::Delimiters => {
                self.delimiter_pair()?;
                self.next_front()
            }
            Command::Speech(speech) => self.spoken(speech),
            Command::Mode(_) => self.next_front(),
            Command::Type(kind) => self.type_list(kind),
        }
    }
}

//! The acts of statements and expressions, within a run: each takes its values, which it gives up.

ghost use Rattle.std.specs.Prelude.{◌≡◌, ◌<◌, Ok, Err, IfOk, OnErr};
ghost use Rattle.mp_values.specs.Outcome.{change, lift};
ghost use Rattle.mp_acts.specs.Counts.{IsWithin, greatest, nothing};
ghost use Rattle.mp_acts.specs.Numbers as numbers;
ghost use Rattle.mp_acts.specs.Operators as operators;
ghost use Rattle.mp_acts.specs.Groups as groups;
ghost use Rattle.mp_acts.specs.Lines as lines;
ghost use Rattle.mp_acts.specs.Reach.{reach, reach_of_macro, reach_of_part};
ghost use Rattle.mp_acts.specs.State.{symbol_count, internal_count};
ghost use Rattle.mp_acts.specs.Suffixes as suffixes;
ghost use Rattle.mp_acts.specs.Variables as variables;
ghost use Rattle.mp_rules.specs.Machine.{things};
ghost use Rattle.mp_rules.specs.Promises.{Acts, ActsValue};
ghost use Rattle.mp_rules.specs.Reach.{reach_of_maybe_macro};
ghost use Rattle.mp_rules.specs.Chains.{gets, reach_of_side};
ghost use Rattle.mp_rules.specs.Steps.{acting, internal_number};

use crate::chain_side::ChainSide;
use crate::evaluator::Evaluator;
use mp_macro::Defined;
use mp_scaled::{Shared, SharedSlice};
use mp_values::{
    Expression, Kind, Macro, Nullary, Scaled, Secondary, Speech, Stop, SymbolCommand, Tertiary,
    Unary, Value,
};
use mp_vartree::{Pattern, Suffix};

impl Evaluator {
    /// What an operator makes of the primary behind it.
    #[tactic(auto, using(crate::proofs::Stops::fault_stops))]
    pub(crate) fn unary_of(&self, operator: Unary, right: Value) -> Result<Value, Stop>
        requires { IsWithin (reach right) (things self.now) }
        ensures { ActsValue (acting (operators.unary operator right)) result self.now self.now }
    {
        Ok(self.acts.unary(operator, &right)?)
    }

    /// What an operator makes of the primaries that it joins.
    #[tactic(auto, using(crate::proofs::Stops::fault_stops))]
    pub(crate) fn secondary_of(
        &self,
        operator: Secondary,
        left: Value,
        right: Value,
    ) -> Result<Value, Stop>
        requires left { IsWithin (reach left) (things self.now) }
        requires right { IsWithin (reach right) (things self.now) }
        ensures { ActsValue (acting (operators.secondary operator left right)) result self.now self.now }
    {
        Ok(self.acts.secondary(operator, &left, &right)?)
    }

    /// What an operator makes of the secondaries that it joins.
    #[tactic(auto, using(crate::proofs::Stops::fault_stops))]
    pub(crate) fn tertiary_of(
        &self,
        operator: Tertiary,
        left: Value,
        right: Value,
    ) -> Result<Value, Stop>
        requires left { IsWithin (reach left) (things self.now) }
        requires right { IsWithin (reach right) (things self.now) }
        ensures { ActsValue (acting (operators.tertiary operator left right)) result self.now self.now }
    {
        Ok(self.acts.tertiary(operator, left, &right)?)
    }

    /// What an operator makes of the tertiaries that it joins.
    #[tactic(auto, using(crate::proofs::Stops::fault_stops))]
    pub(crate) fn expression_of(
        &self,
        operator: Expression,
        left: Value,
        right: Value,
    ) -> Result<Value, Stop>
        requires left { IsWithin (reach left) (things self.now) }
        requires right { IsWithin (reach right) (things self.now) }
        ensures { ActsValue (acting (operators.expression operator left right)) result self.now self.now }
    {
        Ok(self.acts.expression(operator, &left, &right)?)
    }

    /// What a word stands for.
    #[tactic(auto, using(crate::proofs::Stops::fault_stops))]
    pub(crate) fn nullary(&self, word: Nullary) -> Result<Value, Stop>
        ensures { ActsValue (acting (operators.nullary word)) result self.now self.now }
    {
        Ok(self.acts.nullary(word)?)
    }

    /// The truth that a value is, for that word.
    #[tactic(auto, using(crate::proofs::Stops::fault_stops))]
    pub(crate) fn truth_of(&self, op: &[u8], value: Value) -> Result<bool, Stop>
        requires { IsWithin (reach value) (things self.now) }
        ensures { Acts (acting (operators.truth op.now value)) result self.now self.now }
    {
        Ok(self.acts.truth(op, &value)?)
    }

    /// A number token.
    pub(crate) fn known_number(&self, value: Scaled) -> Value
        ensures exact { result ≡ numbers.known_number value }
        ensures within { reach result ≡ nothing }
    {
        self.acts.number(value)
    }

    /// Two number tokens with a slash between them.
    #[tactic(auto, using(crate::proofs::Stops::fault_stops))]
    pub(crate) fn fraction(&self, over: Scaled, under: Scaled) -> Result<Value, Stop>
        ensures { ActsValue (acting (lift (numbers.fraction over under))) result self.now self.now }
    {
        Ok(self.acts.fraction(over, under)?)
    }

    /// The root of a tag; one that has none gets the next.
    #[tactic(auto, using(crate::proofs::Stops::fault_stops))]
    pub(crate) fn root_of(&mut self, symbol: u32) -> Result<u32, Stop>
        requires { symbol < symbol_count self.old.acts }
        ensures acts { Acts (acting (variables.root_of symbol)) result self.old self.new }
        ensures hand { self.new.front ≡ self.old.front }
    {
        Ok(self.acts.root_of(symbol)?)
    }

    /// The value of the variable of a root, whose tag that symbol is, with these parts behind it.
    #[tactic(auto, using(crate::proofs::Stops::fault_stops))]
    pub(crate) fn read(&mut self, symbol: u32, root: u32, name: Suffix) -> Result<Value, Stop>
        requires symbol { symbol < symbol_count self.old.acts }
        requires name { IsWithin (greatest reach_of_part name) (things self.old) }
        ensures { ActsValue (acting (variables.read symbol root name)) result self.old self.new }
    {
        Ok(self.acts.do_read(symbol, root, name.as_slice())?)
    }

    /// Declares the variables of a pattern.
    #[tactic(auto, using(crate::proofs::Stops::fault_stops))]
    pub(crate) fn declare(&mut self, symbol: u32, name: Pattern, kind: Kind) -> Result<(), Stop>
        requires { symbol < symbol_count self.old.acts }
        ensures { Acts (acting (variables.declare symbol name kind)) result self.old self.new }
    {
        Ok(self.acts.do_declare(symbol, name.as_slice(), kind)?)
    }

    /// Defines a macro.
    #[tactic(auto, using(crate::proofs::Stops::fault_stops))]
    pub(crate) fn define(&mut self, made: Defined) -> Result<(), Stop>
        requires symbol { made.symbol < symbol_count self.old.acts }
        requires body { IsWithin (reach_of_macro made.value) (things self.old) }
        ensures { Acts (acting (variables.define made)) result self.old self.new }
    {
        Ok(self.acts.do_define(made)?)
    }

    /// The macro that a name, or the shortest beginning of it that is one, is the name of.
    pub(crate) fn macro_named(
        &self,
        root: u32,
        name: &Suffix,
    ) -> Result<Option<Shared<Macro>>, Stop>
        ensures exact { IfOk result (λ m. m ≡ variables.macro_named self.now.acts root name.now) }
        ensures within { IfOk result (λ m. IsWithin (reach_of_maybe_macro m) (things self.now)) }
        ensures starved { OnErr result (result ≡ Err Stop.NoMemory) }
    {
        match self.acts.macro_named(root, name.as_slice()) {
            Some(called) => Ok(Some(called.share()?)),
            None => Ok(None),
        }
    }

    /// The text of a suffix, as a string.
    #[tactic(auto, using(crate::proofs::Stops::fault_stops))]
    pub(crate) fn suffix_string(&self, suffix: Suffix) -> Result<Value, Stop>
        requires { IsWithin (greatest reach_of_part suffix) (things self.now) }
        ensures { ActsValue (acting (suffixes.suffix_string suffix)) result self.now self.now }
    {
        Ok(self.acts.suffix_string(suffix.as_slice())?)
    }

    /// The units of a subscript, which must be a known number.
    #[tactic(auto, using(crate::proofs::Stops::fault_stops))]
    pub(crate) fn subscript(&self, value: Value) -> Result<i32, Stop>
        requires { IsWithin (reach value) (things self.now) }
        ensures { Acts (acting (suffixes.subscript value)) result self.now self.now }
    {
        Ok(self.acts.subscript(&value)?)
    }

    /// The value of an internal.
    pub(crate) fn internal_value(&self, k: u32) -> Value
        requires { k < internal_count self.now.acts }
        ensures exact { internal_number k self.now ≡ Ok (result, self.now) }
        ensures within { IsWithin (reach result) (things self.now) }
    {
        self.acts.internal(k)
    }

    /// The bytes of a string token, as a value.
    #[tactic(auto, using(crate::proofs::Stops::fault_stops))]
    pub(crate) fn string_token(&self, bytes: SharedSlice<u8>) -> Result<Value, Stop>
        ensures { ActsValue (acting (suffixes.string_token bytes)) result self.now self.now }
    {
        Ok(self.acts.string_token(bytes)?)
    }

    /// Shows a value.
    #[tactic(auto, using(crate::proofs::Stops::fault_stops))]
    pub(crate) fn show(&mut self, value: Value) -> Result<(), Stop>
        requires { IsWithin (reach value) (things self.old) }
        ensures { Acts (acting (lines.show value)) result self.old self.new }
    {
        Ok(self.acts.do_show(&value)?)
    }

    /// Says a string, as a message, as the error that ends the run, or as help.
    #[tactic(auto, using(crate::proofs::Stops::fault_stops))]
    pub(crate) fn speak(&mut self, speech: Speech, value: Value) -> Result<(), Stop>
        requires { IsWithin (reach value) (things self.old) }
        ensures { Acts (acting (lines.speak speech value)) result self.old self.new }
    {
        Ok(self.acts.do_speak(speech, &value)?)
    }

    /// Gives a side of a chain a value.
    #[tactic(auto, using(crate::proofs::Stops::fault_stops))]
    pub(crate) fn settle_side(&mut self, side: &ChainSide, value: &Value) -> Result<(), Stop>
        requires side { IsWithin (reach_of_side side.now) (things self.old) }
        requires value { IsWithin (reach value.now) (things self.old) }
        ensures { Acts (acting (gets side.now value.now)) result self.old self.new }
    {
        match side {
            ChainSide::Value(left) => Ok(self.acts.do_equation(left, value)?),
            ChainSide::Target(target) => Ok(self.acts.do_assign(target, value)?),
        }
    }

    /// Begins a group.
    #[tactic(auto, using(crate::proofs::Stops::fault_stops))]
    pub(crate) fn open_group(&mut self) -> Result<(), Stop>
        ensures acts { Acts (acting (change groups.begin_group)) result self.old self.new }
        ensures hand { self.new.front ≡ self.old.front }
    {
        Ok(self.acts.do_begin_group()?)
    }

    /// Ends a group.
    #[tactic(auto, using(crate::proofs::Stops::fault_stops))]
    pub(crate) fn end_group(&mut self) -> Result<(), Stop>
        ensures { Acts (acting (change groups.end_group)) result self.old self.new }
    {
        Ok(self.acts.do_end_group()?)
    }

    /// Does a command with a symbol.
    #[tactic(auto, using(crate::proofs::Stops::fault_stops))]
    pub(crate) fn with_each(&mut self, command: SymbolCommand, symbol: u32) -> Result<(), Stop>
        requires { symbol < symbol_count self.old.acts }
        ensures { Acts (acting (change (groups.with_each command symbol))) result self.old self.new }
    {
        Ok(self.acts.do_symbol(command, symbol)?)
    }

    /// Gives a symbol the meaning of another.
    #[tactic(auto, using(crate::proofs::Stops::fault_stops))]
    pub(crate) fn let_symbol(&mut self, symbol: u32, other: u32) -> Result<(), Stop>
        requires symbol { symbol < symbol_count self.old.acts }
        requires other { other < symbol_count self.old.acts }
        ensures { Acts (acting (change (groups.let_symbol symbol other))) result self.old self.new }
    {
        Ok(self.acts.do_let(symbol, other)?)
    }

    /// Makes two symbols a pair of delimiters.
    pub(crate) fn delimiters(&mut self, left: u32, right: u32)
        requires left { left < symbol_count self.old.acts }
        requires right { right < symbol_count self.old.acts }
        ensures exact { self.new ≡ record self.old { acts = groups.delimiters left right self.old.acts } }
        ensures grown { IsWithin (things self.old) (things self.new) }
    {
        self.acts.do_delimiters(left, right);
    }

    /// Gives an internal a known value, up to the end of the group.
    #[tactic(auto, using(crate::proofs::Stops::fault_stops))]
    pub(crate) fn interim(&mut self, k: u32, value: Value) -> Result<(), Stop>
        requires internal { k < internal_count self.old.acts }
        requires value { IsWithin (reach value) (things self.old) }
        ensures { Acts (acting (groups.interim k value)) result self.old self.new }
    {
        Ok(self.acts.do_interim(k, &value)?)
    }
}

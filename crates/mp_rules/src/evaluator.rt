//! The evaluator and its single steps.

ghost use Rattle.std.specs.Prelude.{◌≡◌, ◌≢◌, ◌<◌, ◌≤◌, List, ℕ, [], ◌∷◌, Err, IfOk, IfSome, OnErr, map};
ghost use Rattle.std.specs.Option.{option_map};
ghost use Rattle.mp_values.specs.Outcome.{IsStop, Yields, change};
ghost use Rattle.mp_expand.specs.Advance.{items_of, capsule};
ghost use Rattle.mp_expand.specs.Steps.{enter};
ghost use Rattle.mp_acts.specs.Counts.{greatest};
ghost use Rattle.mp_acts.specs.Reach.{reach, reach_of_item, reach_of_macro};
ghost use Rattle.mp_rules.specs.Fronts.{raw_stood, refused_front, refused_raw};
ghost use Rattle.mp_rules.specs.Promises.{Acts, ActsValue, Advances, Answers, Calls, Took};
ghost use Rattle.mp_rules.specs.Rules.{operator_here};
ghost use Rattle.mp_rules.specs.Starts.{start_on, whole};
ghost use Rattle.mp_rules.specs.Meaning.{the};
ghost use Rattle.mp_rules.specs.Steps as steps;
ghost use Rattle.mp_rules.specs.Steps.{expanding};
ghost use Rattle.mp_rules.specs.Reach.{reach_of_expansion, reach_of_front, reach_of_held, reach_of_raw, reach_of_maybe_macro, reach_of_maybe_item, IsNoEndOrNone};
ghost use Rattle.mp_rules.specs.Machine.{things};
ghost use Rattle.mp_acts.specs.Counts.{IsWithin};
ghost use Rattle.mp_acts.specs.State.{counts, symbol_count};

use crate::front::Raw;
use crate::names::operand_arguments;
use mp_acts::State;
use mp_expand::{Answer, Expander, Front, Step};
use mp_files::Sources;
use mp_report::Place;
use mp_scaled::{Shared, SharedSlice};
use mp_values::{Arguments, Item, Level, Macro, Pending, Secondary, Stop, Value, Word};
use std::alloc::Global;
use std::marker::Model;

/// A run over a text: what is left to read, and what statements act on. Contracts see its machine.
#[derive(Drop)]
pub struct Evaluator {
    pub(crate) alloc: Global,
    sources: Sources,
    expander: Expander,
    front: Front,
    held: Option<Front>,
    string: Option<SharedSlice<u8>>,
    value: Option<Shared<Value>>,
    pub(crate) acts: State,
}

impl Model for Evaluator {
    ghost use Rattle.std.specs.Prelude.{◌≤◌, map, unwrap_or, []};
    ghost use Rattle.mp_values.specs.declared.value.Value.TheVariants.{Vacuous};
    ghost use Rattle.mp_rules.specs.Machine.{Machine};

    ghost Value = { Machine };

    ghost view = { λ r. record {
      sources = r.sources;
      asked = map (λ k. k.name) r.sources;
      expander = r.expander;
      front = r.front;
      held = r.held;
      string = unwrap_or r.string [];
      value = unwrap_or r.value Vacuous;
      acts = r.acts;
    } };

    ghost use Rattle.mp_acts.specs.State.{counts};
    ghost use Rattle.mp_rules.specs.Reach.{IsReadable};

    ghost invariant = { λ r. IsReadable r.expander r.front r.held (unwrap_or r.value Vacuous) (counts r.acts) };
}

/// What a run leaves.
#[derive(Drop)]
pub struct Finished {
    pub sources: Sources,
    /// The items that were taken.
    pub steps: u64,
    /// The state that statements acted on.
    pub acts: State,
}

impl Evaluator {
    /// An evaluator at the start of a text. Each source was asked for once.
    pub fn new(alloc: Global, sources: Sources, expander: Expander, acts: State) -> Evaluator
        requires { IsWithin (reach_of_expansion expander) (counts acts) }
        ensures { result ≡ start_on sources expander acts }
    {
        Evaluator {
            alloc,
            sources,
            expander,
            front: Front::EndOfText,
            held: None,
            string: None,
            value: None,
            acts,
        }
    }

    /// Reads the text to its end. Where it is out of steps, the budget is used up; no file is asked for.
    #[tactic(auto, using(crate::proofs::Spent::run_spent, crate::proofs::Spent::run_read))]
    pub fn run(&mut self) -> Result<(), Stop>
        ensures meaning { Yields result self.new (whole the self.old) }
        ensures kept { self.new.expander.budget ≡ self.old.expander.budget }
        ensures files { self.new.sources ≡ self.old.sources }
        ensures asked { self.new.asked ≡ self.old.asked }
        ensures read { (name : List ℕ) → result ≢ Err (Stop.Unread name) }
        ensures spent { result ≡ Err Stop.OutOfSteps → self.new.expander.steps ≡ self.new.expander.budget }
    {
        self.keeps_count();
        let result = self.read_whole();
        self.keeps_count();
        result
    }

    /// What an evaluator keeps, for a proof. It does nothing.
    fn keeps_count(&self)
        ensures asked { self.now.asked ≡ map (λ k. k.name) self.now.sources }
        ensures within { self.now.expander.steps ≤ self.now.expander.budget }
    {
        let _ = self.expander.steps();
    }

    fn read_whole(&mut self) -> Result<(), Stop>
        ensures meaning { Yields result self.new (whole the self.old) }
        ensures kept { self.new.expander.budget ≡ self.old.expander.budget }
        ensures files { self.new.sources ≡ self.old.sources }
    {
        self.next_front()?;
        self.statements()
    }

    /// What the run leaves.
    pub fn finish(self) -> Finished
        ensures sources { result.sources ≡ self.sources }
        ensures steps { result.steps ≡ self.expander.steps }
        ensures acts { result.acts ≡ self.acts }
        ensures within { result.steps ≤ self.expander.budget }
    {
        let Evaluator {
            alloc: _,
            sources,
            expander,
            front: _,
            held: _,
            string: _,
            value: _,
            acts,
        } = self;
        Finished {
            sources,
            steps: expander.steps(),
            acts,
        }
    }

    /// What is first in the text, as it stands: a step.
    pub(crate) fn take(&mut self) -> Result<Option<Pending>, Stop>
        ensures took { Took result self.old self.new }
        ensures front { self.new.front ≡ self.old.front }
        ensures held { self.new.held ≡ self.old.held }
    {
        self.expander.take()
    }

    /// One more item: a front, an operand that a call asks for, or nothing yet.
    pub(crate) fn advance(&mut self) -> Result<Step, Stop>
        ensures advances { Advances result self.old self.new }
        ensures front { self.new.front ≡ self.old.front }
        ensures held { self.new.held ≡ self.old.held }
    {
        self.expander.next(self.acts.table())
    }

    /// Answers a call that waits, with the front in hand, which is used up.
    pub(crate) fn answer(&mut self, answer: Answer) -> Result<Step, Stop>
        requires { IsWithin (greatest reach_of_item (items_of answer)) (things self.old) }
        ensures answers { Answers answer result self.old self.new }
        ensures hand { self.new.front ≡ Front.EndOfText }
    {
        let front = self.front;
        self.front = Front::EndOfText;
        self.expander.answer(self.acts.table(), answer, front)
    }

    /// Calls a macro, with the arguments that its body has before its first parameter.
    pub(crate) fn call(&mut self, called: Shared<Macro>, arguments: Arguments) -> Result<Step, Stop>
        requires body { IsWithin (reach_of_macro called) (things self.old) }
        requires arguments { IsWithin (greatest (greatest reach_of_item) arguments) (things self.old) }
        ensures calls { Calls called arguments result self.old self.new }
        ensures hand { self.new.front ≡ self.old.front }
    {
        self.expander.call(called, arguments)
    }

    /// The macro of a user that the front in hand is between operands of a level, which is lent.
    fn operator_in_hand(&self, level: Level) -> Option<&Shared<Macro>>
        ensures exact { option_map (λ m. m.now) result ≡ operator_here level self.now }
        ensures within { IfSome result (λ m. IsWithin (reach_of_macro m.now) (things self.now)) }
    {
        self.front.operator(self.acts.table(), level)
    }

    /// The macro of a user that the front in hand is between operands of a level.
    pub(crate) fn operator(&self, level: Level) -> Result<Option<Shared<Macro>>, Stop>
        ensures exact { IfOk result (λ m. m ≡ operator_here level self.now) }
        ensures within { IfOk result (λ m. IsWithin (reach_of_maybe_macro m) (things self.now)) }
        ensures starved { OnErr result (result ≡ Err Stop.NoMemory) }
    {
        match self.operator_in_hand(level) {
            Some(called) => Ok(Some(called.share()?)),
            None => Ok(None),
        }
    }

    /// What the macro of an operator is told of its operands.
    pub(crate) fn joined_with(&self, left: Value, right: Value) -> Result<Arguments, Stop>
        requires left { IsWithin (reach left) (things self.now) }
        requires right { IsWithin (reach right) (things self.now) }
        ensures exact { IfOk result (λ arguments. arguments ≡ capsule left ∷ capsule right ∷ []) }
        ensures within { IfOk result (λ arguments. IsWithin (greatest (greatest reach_of_item) arguments) (things self.now)) }
        ensures starved { OnErr result (result ≡ Err Stop.NoMemory) }
    {
        Ok(operand_arguments(self.alloc, left, right)?)
    }

    /// A front as an item of the text; none at the end of the text.
    fn item_in_hand(&self, front: Front) -> Result<Option<Item>, Stop>
        requires { IsWithin (reach_of_front front) (things self.now) }
        ensures exact { IfOk result (λ item. item ≡ steps.item_in_hand self.now.string self.now.value front) }
        ensures within { IfOk result (λ item. IsWithin (reach_of_maybe_item item) (things self.now)) }
        ensures ends { IfOk result IsNoEndOrNone }
        ensures starved { OnErr result (result ≡ Err Stop.NoMemory) }
    {
        let alloc = self.alloc;
        Ok(Some(match front {
            Front::Number(value) => Item::Number(value),
            Front::Text => match &self.string {
                Some(bytes) => Item::Text(bytes.share()?),
                None => Item::Text(SharedSlice::from_vec(Vec::new(alloc))?),
            },
            Front::Capsule => match &self.value {
                Some(value) => Item::Capsule(value.share()?),
                None => Item::Capsule(Shared::new(alloc, Value::Vacuous)?),
            },
            Front::Word(symbol, _)
            | Front::Tag(symbol)
            | Front::Internal(symbol, _)
            | Front::Operator(symbol)
            | Front::Left(symbol, _)
            | Front::Right(symbol, _) => Item::Symbol(symbol),
            Front::EndOfText => return Ok(None),
        }))
    }

    /// An item, if there is one, comes to stand in front of the text again.
    fn put_back(&mut self, item: Option<Item>) -> Result<(), Stop>
        requires within { IsWithin (reach_of_maybe_item item) (things self.old) }
        requires ends { IsNoEndOrNone item }
        ensures acts { Acts (change (steps.put_back item)) result self.old self.new }
    {
        match item {
            Some(item) => self.expander.put_back(item),
            None => Ok(()),
        }
    }

    /// The front that is held comes to stand in front of the text again, if there is one.
    fn put_held_back(&mut self) -> Result<(), Stop>
        ensures { Acts (change steps.put_held_back) result self.old self.new }
    {
        match self.held.take() {
            Some(held) => {
                let item = self.item_in_hand(held)?;
                self.put_back(item)
            }
            None => Ok(()),
        }
    }

    /// The front in hand comes to stand in front of the text again.
    fn put_front_back(&mut self) -> Result<(), Stop>
        ensures { Acts (change steps.put_front_back) result self.old self.new }
    {
        let item = self.item_in_hand(self.sign())?;
        self.see(Front::EndOfText);
        self.put_back(item)
    }

    /// What is in hand comes to stand in front of the text again: a front, or a slash and the front held behind it.
    pub(crate) fn put_hand_back(&mut self) -> Result<(), Stop>
        ensures { Acts (change steps.put_hand_back) result self.old self.new }
    {
        self.put_held_back()?;
        self.put_front_back()
    }

    /// What is in hand comes to stand in front of the text again, behind a bracket and the value that was read in it.
    pub(crate) fn put_bracket_back(&mut self, bracket: u32, value: Value) -> Result<(), Stop>
        requires bracket { bracket < symbol_count self.old.acts }
        requires value { IsWithin (reach value) (things self.old) }
        ensures { Acts (change (steps.put_bracket_back bracket value)) result self.old self.new }
    {
        self.put_hand_back()?;
        let value = Shared::new(self.alloc, value)?;
        self.put_back(Some(Item::Capsule(value)))?;
        self.put_back(Some(Item::Symbol(bracket)))
    }

    /// The front in hand.
    pub(crate) fn sign(&self) -> Front
        ensures exact { result ≡ self.now.front }
        ensures within { IsWithin (reach_of_front result) (things self.now) }
    {
        self.front
    }

    /// A front comes to hand.
    pub(crate) fn see(&mut self, front: Front)
        requires { IsWithin (reach_of_front front) (things self.old) }
        ensures { self.new ≡ steps.see front self.old }
    {
        self.front = front;
    }

    /// A string comes to hand.
    pub(crate) fn see_string(&mut self, bytes: SharedSlice<u8>)
        ensures { self.new ≡ steps.see_string bytes self.old }
    {
        self.front = Front::Text;
        self.string = Some(bytes);
    }

    /// A value comes to hand.
    pub(crate) fn see_value(&mut self, value: Shared<Value>)
        requires { IsWithin (reach value) (things self.old) }
        ensures { self.new ≡ steps.see_value value self.old }
    {
        self.front = Front::Capsule;
        self.value = Some(value);
    }

    /// The value in hand.
    pub(crate) fn value_in_hand(&mut self) -> Result<Value, Stop>
        ensures acts { ActsValue steps.value_in_hand result self.old self.new }
        ensures hand { self.new.front ≡ self.old.front }
    {
        match self.value.take() {
            Some(value) => Ok(value.get().copy(self.alloc)?),
            None => Ok(Value::Vacuous),
        }
    }

    /// The bytes of the string in hand.
    pub(crate) fn string_in_hand(&mut self) -> Result<SharedSlice<u8>, Stop>
        ensures acts { Acts steps.string_in_hand result self.old self.new }
        ensures hand { self.new.front ≡ self.old.front }
    {
        match self.string.take() {
            Some(bytes) => Ok(bytes),
            None => Ok(SharedSlice::from_vec(Vec::new(self.alloc))?),
        }
    }

    /// The front that is held, which is then held no more.
    pub(crate) fn release(&mut self) -> Option<Front>
        ensures front { result ≡ self.old.held }
        ensures within { IsWithin (reach_of_held result) (things self.old) }
        ensures machine { self.new ≡ record self.old { held = None } }
        ensures free { self.old.held ≡ None → self.new ≡ self.old }
    {
        self.held.take()
    }

    /// Holds the front in hand, behind a slash which is then in hand.
    pub(crate) fn hold(&mut self, slash: u32)
        requires { slash < symbol_count self.old.acts }
        ensures { self.new ≡ steps.hold slash self.old }
    {
        self.held = Some(self.front);
        self.front = Front::Word(slash, Word::Secondary(Secondary::Over));
    }

    /// The place of an error: the first line end that is left, else the last that was taken.
    pub fn place(&self) -> Place
        ensures { result ≡ steps.place_of self.now }
    {
        self.expander.place()
    }

    /// One more primary is read.
    pub(crate) fn enter(&mut self) -> Result<(), Stop>
        ensures acts { Acts (expanding enter) result self.old self.new }
        ensures hand { self.new.front ≡ self.old.front }
    {
        self.expander.enter()
    }

    /// A primary was read.
    pub(crate) fn leave(&mut self)
        ensures { self.new ≡ steps.leave self.old }
    {
        self.expander.leave();
    }

    fn raw_stood(&self, raw: Raw) -> &[u8]
        requires { IsWithin (reach_of_raw raw) (things self.now) }
        ensures { result.now ≡ raw_stood self.now.acts raw }
    {
        match raw {
            Raw::Symbol(symbol) => self.acts.symbol_name(symbol),
            Raw::Number => b"number",
            Raw::Text => b"string",
            Raw::Value => b"value",
            Raw::EndOfText => b"end of text",
        }
    }

    /// The refusal of the front in hand where something else was wanted.
    pub(crate) fn unexpected(&self, wanted: &[u8]) -> Stop
        ensures { IsStop result (refused_front wanted.now self.now) }
    {
        Stop::unexpected(self.alloc, wanted, self.front.stood(self.acts.table()))
    }

    /// The refusal of a raw item where something else was wanted.
    pub(crate) fn unexpected_raw(&self, wanted: &[u8], raw: Raw) -> Stop
        requires { IsWithin (reach_of_raw raw) (things self.now) }
        ensures { IsStop result (refused_raw wanted.now raw self.now) }
    {
        Stop::unexpected(self.alloc, wanted, self.raw_stood(raw))
    }
}

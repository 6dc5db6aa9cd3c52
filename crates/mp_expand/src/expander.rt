//! The expander and its single steps.

ghost use Rattle.std.specs.Prelude.{◌≡◌, ◌≤◌, [], OnOk, OnErr, drop};
ghost use Rattle.mp_values.specs.Ends.{IsNoEnd};
ghost use Rattle.mp_values.specs.Outcome.{Yields, change};
ghost use Rattle.mp_expand.specs.Steps as steps;
ghost use Rattle.mp_expand.specs.Expansion.{IsWhole};

use crate::NESTING_LIMIT;
use crate::request::{Branch, Request};
use mp_input::Input;
use mp_report::{Cap, Place, SourceError};
use mp_scaled::{NoMemory, Shared};
use mp_tokens::Tokens;
use mp_values::{Item, Pending, Stop};
use std::alloc::Global;
use std::marker::Model;

/// The text that is left to read, with what waits for more of it and the conditions that are open. Contracts see its [`Expansion`].
#[derive(Drop)]
pub struct Expander {
    pub(crate) alloc: Global,
    pub(crate) input: Input,
    steps: u64,
    budget: u64,
    nesting: u32,
    // the last one is the newest, here and of the conditions
    pub(crate) requests: Vec<Request>,
    pub(crate) conditions: Vec<Branch>,
}

impl Model for Expander {
    ghost use Rattle.std.specs.Prelude.{◌≤◌, reverse};
    ghost use Rattle.mp_expand.specs.Expansion.{Expansion};

    ghost Value = { Expansion };

    ghost view = { λ e. record {
      text = e.input.text;
      last = e.input.last;
      steps = e.steps;
      budget = e.budget;
      nesting = e.nesting;
      requests = reverse e.requests.items;
      conditions = reverse e.conditions.items;
    } };

    ghost invariant = { λ e. e.steps ≤ e.budget };
}

impl Expander {
    /// Nothing is left, and nothing was taken of a budget of so many items.
    pub fn new(alloc: Global, budget: u64) -> Expander
        ensures text { result.text ≡ [] }
        ensures last { result.last ≡ record { file = 0; line = 0 } }
        ensures steps { result.steps ≡ 0 }
        ensures budget { result.budget ≡ budget }
        ensures nesting { result.nesting ≡ 0 }
        ensures requests { result.requests ≡ [] }
        ensures conditions { result.conditions ≡ [] }
    {
        Expander {
            alloc,
            input: Input::new(alloc),
            steps: 0,
            budget,
            nesting: 0,
            requests: Vec::new(alloc),
            conditions: Vec::new(alloc),
        }
    }

    /// Puts the items of the file of that number in front of the text, with its end.
    pub fn start(&mut self, file: u32, tokens: Shared<Tokens>) -> Result<(), NoMemory>
        ensures ok { OnOk result (self.new ≡ steps.start file tokens self.old) }
        ensures err { OnErr result (self.new ≡ self.old) }
        ensures kept { self.new.budget ≡ self.old.budget }
    {
        self.input.reserve(1)?;
        self.input.push_file(file, tokens);
        Ok(())
    }

    /// What is first in the text, as it stands: a step. None where nothing is left, which is no step.
    #[tactic(auto, unfolding(crate::specs::Steps::take_first))]
    pub fn take(&mut self) -> Result<Option<Pending>, Stop>
        ensures exact { Yields result self.new (steps.take_first self.old) }
        ensures kept { self.new.budget ≡ self.old.budget }
        ensures whole { IsWhole result self.old self.new }
        ensures rest { OnOk result (self.new.text ≡ drop 1 self.old.text) }
        ensures requests { self.new.requests ≡ self.old.requests }
    {
        if self.steps < self.budget {
            match self.input.take()? {
                Some(first) => {
                    self.steps += 1;
                    Ok(Some(first))
                }
                None => Ok(None),
            }
        } else if self.input.is_over() {
            Ok(None)
        } else {
            Err(Stop::OutOfSteps)
        }
    }

    /// One more primary is read: `Limit Nesting` where too many would be.
    #[tactic(auto, unfolding(crate::specs::Steps::enter))]
    pub fn enter(&mut self) -> Result<(), Stop>
        ensures exact { Yields result self.new (steps.enter self.old) }
        ensures kept { self.new.budget ≡ self.old.budget }
        ensures text { self.new.text ≡ self.old.text }
        ensures requests { self.new.requests ≡ self.old.requests }
    {
        if self.nesting >= NESTING_LIMIT {
            return Err(Stop::Refused(SourceError::Limit(Cap::Nesting, NESTING_LIMIT)));
        }
        self.nesting += 1;
        Ok(())
    }

    /// A primary was read.
    pub fn leave(&mut self)
        ensures { self.new ≡ steps.leave self.old }
    {
        self.nesting = self.nesting.saturating_sub(1);
    }

    /// The number of items that were taken.
    pub fn steps(&self) -> u64
        ensures steps { result ≡ self.now.steps }
        ensures within { result ≤ self.now.budget }
    {
        self.steps
    }

    /// The place of an error: the first line end that is left, else the last that was taken.
    pub fn place(&self) -> Place
        ensures { result ≡ steps.place_of self.now }
    {
        self.input.place()
    }

    /// Puts an item in front of the text, which is no end.
    pub fn put_back(&mut self, item: Item) -> Result<(), Stop>
        requires { IsNoEnd item }
        ensures exact { Yields result self.new (change (steps.put_back item) self.old) }
        ensures err { OnErr result (self.new ≡ self.old) }
        ensures kept { self.new.budget ≡ self.old.budget }
    {
        self.input.reserve(1)?;
        self.input.push_item(item);
        Ok(())
    }
}

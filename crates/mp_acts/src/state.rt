//! The state that statements act on.

ghost use Rattle.std.specs.Prelude.{◌≡◌};
ghost use Rattle.mp_acts.specs.State.{made_unknowns, accepted_equations};

use crate::event::Event;
use mp_scaled::{Bytes, SharedSlice};
use mp_solver::System;
use mp_symbols::Symbols;
use mp_values::{Meaning, Value};
use mp_vartree::Vars;
use std::alloc::Global;
use std::marker::Model;

/// What statements act on. Contracts see the symbols, the variables, the slots, the unknowns, the events, the
/// lines and the name of the job.
///
/// The variables, the macros, the slots and the meanings of symbols speak of nothing that there is not, and the unknowns
/// are what the events, and no others, have made of them.
#[derive(Drop)]
pub struct State {
    pub(crate) alloc: Global,
    pub(crate) symbols: Symbols<Meaning>,
    pub(crate) variables: Vars,
    /// What the slots of variables without a value were filled with.
    pub(crate) slots: Vec<Option<Value>>,
    pub(crate) system: System,
    /// The number of unknowns.
    pub(crate) count: u32,
    /// What made the unknowns what they are, in order.
    pub(crate) events: Vec<Event>,
    pub(crate) lines: Bytes,
    /// The name of the run's job.
    pub(crate) job: SharedSlice<u8>,
}

impl Model for State {
    ghost use Rattle.std.specs.Prelude.{map};
    ghost use Rattle.mp_acts.specs.State.{State};
    ghost use Rattle.mp_acts.specs.Events.{event_of};
    ghost use Rattle.mp_acts.specs.Kept.{IsKept};

    ghost Value = { State };

    ghost view = { λ s. record {
      symbols = s.symbols;
      variables = s.variables;
      slots = s.slots.items;
      unknowns = s.system.unknowns;
      events = map event_of s.events.items;
      lines = s.lines;
      job = s.job;
    } };

    ghost invariant = { λ s. IsKept s.count s.system.unknowns s.variables s.slots.items s.symbols (map event_of s.events.items) };
}

impl State {
    /// The lines, each with its end.
    pub fn finish(self) -> Bytes
        ensures { result ≡ self.lines }
    {
        self.lines
    }

    /// The number of unknowns that were made.
    pub fn unknowns(&self) -> u32
        ensures { result ≡ made_unknowns self.now }
    {
        self.count
    }

    /// The number of equations that were accepted.
    pub fn equations(&self) -> u64
        ensures { result ≡ accepted_equations self.now }
    {
        self.events.len() as u64 - u64::from(self.count)
    }
}

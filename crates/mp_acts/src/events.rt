//! What made the unknowns, as laws.

ghost use Rattle.std.specs.Prelude.{◌≡◌, length};
ghost use Rattle.mp_solver.specs.Elimination.{forms_in};
ghost use Rattle.mp_solver.specs.Replay.{replay};
ghost use Rattle.mp_acts.specs.State.{unknown_count, made_unknowns, accepted_equations};
ghost use Rattle.mp_acts.specs.Events.{AreMadeBy};

use crate::State;
use mp_solver::systems_are_replays;

impl State {
    /// Laws: the events of a state, and no others, have made its unknowns; only names may have been taken away between
    /// them. What is known of the unknowns is what the replay of the events leaves, in order. An unknown that was made,
    /// with its name, is an event, and so is an equation that was accepted, which made one unknown dependent; an
    /// equation that was redundant or refused is none.
    pub fn unknowns_are_replays(&self)
        ensures made { AreMadeBy self.now.events self.now.unknowns }
        ensures replayed { self.now.unknowns.states ≡ (replay self.now.events).states }
        ensures unknowns { unknown_count self.now ≡ made_unknowns self.now }
        ensures equations { length (forms_in self.now.unknowns.states)
            ≡ accepted_equations self.now }
    {
        let _system = &self.system;
        systems_are_replays();
    }
}

//! What calls make of a system, as laws.

ghost use Rattle.std.specs.Prelude.{◌≡◌, ◌≢◌, ◌+◌, ◌≤◌, List, [], ◌∷◌, ◌++◌, Ok, length};
ghost use Rattle.mp_forms.specs.Forms.{LinearForm};
ghost use Rattle.mp_solver.specs.declared.equated.Equated.TheVariants.{Accepted};
ghost use Rattle.mp_solver.specs.States.{Unknowns, IsOver};
ghost use Rattle.mp_solver.specs.Reduction.{reduce_of};
ghost use Rattle.mp_solver.specs.Elimination.{forms_in, eliminate};
ghost use Rattle.mp_solver.specs.Solved.{IsSolved};
ghost use Rattle.mp_solver.specs.Replay.{Event, Equation, after, replay, unknowns_made, equations_accepted, IsMadeBy};

use crate::limits::UNKNOWN_LIMIT;
use mp_forms::terms_stay_in_order;

/// Laws: after any calls the unknowns of a system are the replay of its events, in order. All equations are solved
/// then, there are at most `UNKNOWN_LIMIT` unknowns, and of these one is dependent for each equation.
pub fn systems_are_replays()
    ensures replayed { (events : List Event) (system : Unknowns) → IsMadeBy events system → system ≡ replay events }
    ensures solved { (events : List Event) (system : Unknowns) → IsMadeBy events system → IsSolved system.states }
    ensures few { (events : List Event) (system : Unknowns) → IsMadeBy events system → length system.states ≤ UNKNOWN_LIMIT }
    ensures unknowns { (events : List Event) (system : Unknowns) → IsMadeBy events system → length system.states ≡ unknowns_made events }
    ensures equations { (events : List Event) (system : Unknowns) → IsMadeBy events system → length (forms_in system.states) ≡ equations_accepted events }
{
    terms_stay_in_order();
}

/// Laws: what one more event at the end does to a replay and to its counts, whatever events stood before it.
///
/// An equation that is not accepted would change nothing, so it is no event. An equation is one as its sides stood
/// or brought up to date.
pub fn replays_go_on()
    ensures next { (events : List Event) (event : Event) → replay (events ++ event ∷ []) ≡ after (replay events) event }
    ensures unknowns { (events : List Event) (event : Event) → unknowns_made (events ++ event ∷ []) ≡ unknowns_made events + unknowns_made (event ∷ []) }
    ensures equations { (events : List Event) (event : Event) → equations_accepted (events ++ event ∷ []) ≡ equations_accepted events + equations_accepted (event ∷ []) }
    ensures serials { (events : List Event) → length (replay events).states ≡ unknowns_made events }
    ensures up_to_date { (unknowns : Unknowns) (difference residual : LinearForm) → Ok residual ≡ reduce_of unknowns.states difference → after unknowns (Equation difference) ≡ record unknowns { states = (eliminate unknowns.states residual).1 } }
    ensures as_it_stood { (unknowns : Unknowns) (difference residual : LinearForm) → IsSolved unknowns.states → IsOver unknowns.states difference → Ok residual ≡ reduce_of unknowns.states difference → after unknowns (Equation residual) ≡ after unknowns (Equation difference) }
    ensures refused { (unknowns : Unknowns) (difference residual : LinearForm) → Ok residual ≡ reduce_of unknowns.states difference → (eliminate unknowns.states residual).0 ≢ Accepted → after unknowns (Equation difference) ≡ unknowns }
{}

//! What exact lists of events make of a system, as a law.

ghost use Rattle.std.specs.Prelude.{List, Contains};
ghost use Rattle.mp_forms.specs.Forms.{LinearForm};
ghost use Rattle.mp_solver.specs.Replay.{Event, Equation, replay};
ghost use Rattle.mp_solver.specs.Exact.{IsExact, IsSatisfied};

use mp_forms::terms_stay_in_order;

/// Law: the replay of an exact list of events solves every equation in it.
///
/// A list is exact where each event speaks only of unknowns made before it, each equation is accepted in its turn,
/// no rounding on the way has a remainder, and no coefficient other than 0 is dropped. Where each dependent unknown
/// is then replaced by its form in any of these equations, without rounding, the constant and all coefficients are 0.
pub fn exact_lists_are_solved()
    ensures { (events : List Event) (difference : LinearForm) → IsExact events → Contains events (Equation difference) → IsSatisfied (replay events).states difference }
{
    terms_stay_in_order();
}

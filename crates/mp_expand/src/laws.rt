//! Laws of expansion.

ghost use Rattle.mp_expand.specs.Laws.{InventsNothing, StepsAreCounted};

/// A law: expansion invents no item. What holds of each item of the text, of the calls and of the macros that are called
/// holds of what is left and given.
pub fn expansion_invents_nothing()
    ensures { InventsNothing }
{}

/// A law: each step of an expansion, but the end of the text, is one item of the budget; answers and calls take none.
pub fn steps_are_counted()
    ensures { StepsAreCounted }
{}

//! Laws of the text that is left.

ghost use Rattle.mp_input.specs.Laws.{EndsOnce};

/// A law: a second `endinput` on the same line changes nothing.
pub fn a_second_mark_changes_nothing()
    ensures { EndsOnce }
{}

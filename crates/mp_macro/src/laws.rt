//! Laws of definitions: what is written by the grammar is read as what it says, what is defined is a symbol of the
//! table, and a body holds what was read.

ghost use Rattle.mp_macro.specs.Grammar.{HeadingsAreRead, VariableHeadingsAreRead, OperatorHeadingsAreRead};
ghost use Rattle.mp_macro.specs.Contents.{BodiesHoldWhatIsRead};
ghost use Rattle.mp_macro.specs.Numbered.{SymbolsStayNumbered};
ghost use Rattle.mp_macro.specs.Texts.{BodiesAreRead};

/// A law: the heading of `def` is read as what it says.
pub fn headings_are_read()
    ensures { HeadingsAreRead }
{}

/// A law: so is that of `vardef`.
pub fn variable_headings_are_read()
    ensures { VariableHeadingsAreRead }
{}

/// A law: so is that of an operator.
pub fn operator_headings_are_read()
    ensures { OperatorHeadingsAreRead }
{}

/// A law: a body is read as what it says, up to the `enddef` behind it, with definitions inside it.
pub fn bodies_are_read()
    ensures { BodiesAreRead }
{}

/// A law: if the symbol that is defined and that of an item are below a bound, as a table's are below the count of its
/// names, the symbol that is defined is so once the item was read or refused.
pub fn symbols_stay_numbered()
    ensures { SymbolsStayNumbered }
{}

/// A law: the items of a body are those that were read, parameters, and the two symbols of a group. By whatever measure
/// these are at most a bound, all items of the body are so once the item was read or refused.
pub fn bodies_hold_what_is_read()
    ensures { BodiesHoldWhatIsRead }
{}

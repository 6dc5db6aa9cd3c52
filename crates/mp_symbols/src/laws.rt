//! Laws of tables: what is true after any calls.

ghost use Rattle.std.specs.Prelude.{ℕ, List, IsSome};
ghost use Rattle.mp_symbols.specs.Names.{number_in, with_name};
ghost use Rattle.mp_symbols.specs.Tables.{Table};
ghost use Rattle.mp_symbols.specs.Calls.{Call, Inside, IsForGood, GivesBack};

/// A law: a name that a table is given has a number, and after any calls that same number.
pub fn numbers_are_for_good<M>()
    ensures given { (table : Table M) (name : List ℕ) (fresh : M) → IsSome (number_in (with_name table.names name fresh) name) }
    ensures for_good { (table : Table M) (calls : List (Call M)) → IsForGood table calls }
{}

/// A law: whatever is done in a group, with inner groups or without, its end gives back all but new names, new
/// internals, and meanings and values that were set before they were saved.
pub fn groups_give_back<M>()
    ensures { (table : Table M) (inside : Inside M) → GivesBack table inside }
{}

//! How the pivot's new form replaces it in the forms that hold it.

ghost use Rattle.std.specs.Prelude.{◌≡◌, ◌≢◌, ◌≤◌, ◌<◌, ◌+◌, ◌-◌, All, IsTrue, false, None, Some, map, option_map, length, slice_index_or, slice_set};
ghost use Rattle.std.specs.List.{list_any};
ghost use Rattle.mp_pool.specs.Terms.{AreTerms};
ghost use Rattle.mp_solver.specs.Elimination.{replaced, forms_in, has_large_coefficient, has_large_constant, term_count};
ghost use Rattle.mp_solver.specs.Solved.{IsSolved};
ghost use Rattle.mp_solver.specs.Storage.Rows.{AreHolders, AreListed};
ghost use Rattle.mp_solver.specs.Storage.Tally.{IsEnough};

use crate::forms::Forms;
use crate::rows::{Rows, add_terms};
use mp_forms::Form;

/// What an accepted equation is solved for: the pivot, its new form, and the rows of the forms that may hold the pivot.
#[derive(Drop)]
pub struct Solved {
    pub serial: u32,
    pub form: Form,
    pub rows: Vec<usize>,
}

/// Gives an unknown its new form, which replaces it in the forms of all others. Says whether there was room for all rows.
pub fn solve(forms: &mut Forms, holders: &mut Vec<Rows>, solved: &Solved) -> bool
    requires serial { 1 ≤ solved.now.serial }
    requires within { solved.now.serial - 1 < length forms.old.states }
    requires none { slice_index_or forms.old.states (solved.now.serial - 1) None ≡ None }
    requires rows { AreHolders forms.old.states solved.now.serial 0 solved.now.rows.items }
    requires solved { IsSolved forms.old.states }
    requires others { All (λ t. t.serial ≢ solved.now.serial) solved.now.form.terms }
    requires coefficients { list_any has_large_coefficient (forms_in (map (option_map (replaced solved.now.serial solved.now.form)) forms.old.states)) ≡ false }
    requires constants { list_any has_large_constant (forms_in (map (option_map (replaced solved.now.serial solved.now.form)) forms.old.states)) ≡ false }
    requires spare { IsEnough forms.old.states solved.now.serial solved.now.form (forms.old.spare + term_count forms.old.states) }
    requires lists { 1 ≤ forms.old.lists }
    ensures states { forms.new.states ≡ slice_set (map (option_map (replaced solved.now.serial solved.now.form)) forms.old.states) (solved.now.serial - 1) (Some solved.now.form) }
    ensures holders { length holders.new.items ≡ length holders.old.items }
    ensures listed { IsTrue result → AreListed forms.old.states holders.old.items → AreListed forms.new.states holders.new.items }
{
    let row = solved.serial as usize - 1;
    let mut all = rewrite(forms, holders, &solved.rows, solved.serial, &solved.form);
    all &= add_terms(holders, row, forms, solved.form.terms());
    forms.insert(row, &solved.form);
    all
}

/// Replaces an unknown by its new form in the forms of these rows, and lists the rows for the unknowns that come into
/// them. Says whether there was room for all.
fn rewrite(
    forms: &mut Forms,
    holders: &mut Vec<Rows>,
    rows: &[usize],
    serial: u32,
    new: &Form,
) -> bool
    requires rows { AreHolders forms.old.states serial 0 rows.now }
    requires solved { IsSolved forms.old.states }
    requires others { All (λ t. t.serial ≢ serial) new.now.terms }
    requires coefficients { list_any has_large_coefficient (forms_in (map (option_map (replaced serial new.now)) forms.old.states)) ≡ false }
    requires constants { list_any has_large_constant (forms_in (map (option_map (replaced serial new.now)) forms.old.states)) ≡ false }
    requires spare { IsEnough forms.old.states serial new.now (forms.old.spare + term_count forms.old.states) }
    ensures states { forms.new.states ≡ map (option_map (replaced serial new.now)) forms.old.states }
    ensures cells { forms.new.spare + term_count forms.new.states ≡ forms.old.spare + term_count forms.old.states }
    ensures lists { forms.new.lists ≡ forms.old.lists }
    ensures holders { length holders.new.items ≡ length holders.old.items }
    ensures listed { IsTrue result → AreListed forms.old.states holders.old.items → AreListed forms.new.states holders.new.items }
{
    let mut all = true;
    'rows: for row in rows {
        all &= add_terms(holders, *row, forms, new.terms());
        forms.replace(*row, serial, new);
    }
    all
}

//! All unknowns, and what is known of them.

ghost use Rattle.std.specs.Prelude.{ℤ, ◌≡◌, ◌≢◌, ◌↔◌, ◌+◌, ◌<◌, ◌≤◌, [], length, is_some, option_copied, IfOk, OnOk, OnErr, IsTrue};
ghost use Rattle.mp_solver.specs.States.{form_of, name_of, unnamed, fresh_of, IsSerial, IsOver};
ghost use Rattle.mp_solver.specs.Known.{form_in};
ghost use Rattle.mp_solver.specs.Reduction.{independent_part, reduce_of};
ghost use Rattle.mp_solver.specs.Elimination.{forms_in, term_count, eliminate, pivot_of, solved_for, IsRedundant, IsInconsistent, IsTooLarge, IsOverflow, IsBeyondLimit, IsAccepted};
ghost use Rattle.mp_solver.specs.Solved.{IsReduced, IsSolved};
ghost use Rattle.mp_solver.specs.Storage.Solution.{IsSolution};
ghost use Rattle.mp_solver.specs.Storage.Rows.{AreHolders};
ghost use Rattle.mp_solver.specs.Storage.Tally.{IsWholeTally};
ghost use Rattle.mp_solver.specs.Ready.{IsPrepared, HasRoom, IsResidual};

use crate::forms::Forms;
use crate::limits::{TERM_LIMIT, UNKNOWN_LIMIT};
use crate::rewriting::{Solved, solve};
use crate::rows::{Rows, all_rows, make_room};
use crate::solution::{Solution, judged, pivot_of, solved_for};
use crate::tally::Tally;
use crate::view::Replacement;
use crate::{Equated, FormView, Fresh, State};
use mp_forms::{Form, FormFault, terms_stay_in_order};
use mp_pool::Term;
use mp_scaled::{Bytes, NoMemory};
use std::alloc::Global;
use std::marker::Model;
use std::snapshot::Snapshot;

/// Unknowns, numbered from 1, which contracts see as their states and their names, under `unknowns`, and the room that is
/// left for terms and forms.
///
/// A state is the form that a dependent unknown equals, and none where the unknown is independent. No
/// dependent unknown occurs in any of these forms. Their terms are lists of one pool.
#[derive(Drop)]
pub struct System {
    forms: Forms,
    names: Vec<Option<Bytes>>,
    dependent: usize,
    /// For each unknown the rows of the forms that it may occur in.
    holders: Vec<Rows>,
    /// Whether no form is missing there. `ready` makes room for what its equation adds, so only a `Ready` of
    /// another system with the same value can find none. Then each equation looks at all forms.
    is_listed: bool,
}

impl Model for System {
    ghost use Rattle.mp_solver.specs.States.{Solver};
    ghost use Rattle.mp_solver.specs.Elimination.{term_count};
    ghost use Rattle.mp_solver.specs.Storage.Rows.{IsIndexed};

    ghost Value = { Solver };

    ghost view = { λ system. record {
      unknowns = record { states = system.forms.states; names = system.names.items };
      spare = system.forms.spare;
      spare_lists = system.forms.lists;
    } };

    ghost invariant = { λ system. IsIndexed system.forms.states system.names.items system.dependent (term_count system.forms.states) system.holders.items system.is_listed };
}

/// An equation that was brought up to date, with all that it needs to be taken.
///
/// Contracts see it as the difference of its sides, brought up to date, the unknowns that this was done for, and the
/// numbers of terms and forms that there has to be room for.
#[derive(Drop)]
pub struct Ready {
    residual: Snapshot<Form>,
    system: Snapshot<System>,
    answer: Equated,
    solved: Option<Solved>,
    cells: usize,
    lists: usize,
}

impl Model for Ready {
    ghost use Rattle.mp_solver.specs.Ready.{Prepared};
    ghost use Rattle.mp_solver.specs.Storage.Taking.{IsReady};

    ghost Value = { Prepared };

    ghost view = { λ ready. record { residual = ready.residual.value; unknowns = ready.system.value.unknowns; cells = ready.cells; lists = ready.lists } };

    ghost invariant = { λ ready. IsReady ready.system.value.unknowns.states ready.residual.value ready.answer ready.solved ready.cells ready.lists };
}

impl System {
    /// A system without unknowns.
    pub fn new(alloc: Global) -> System
        ensures { result ≡ record { unknowns = record { states = []; names = [] }; spare = 0; spare_lists = 0 } }
    {
        System {
            forms: Forms::new(alloc),
            names: Vec::new(alloc),
            dependent: 0,
            holders: Vec::new(alloc),
            is_listed: true,
        }
    }

    /// Makes one more unknown, which is independent. Its serial is the number of unknowns that there are then.
    pub fn fresh(&mut self, name: &[u8]) -> Result<Fresh, NoMemory>
        ensures exact { IfOk result (λ answer. (answer, self.new.unknowns) ≡ fresh_of self.old.unknowns name.now) }
        ensures limit { IfOk result (λ answer. (answer ≡ Fresh.Limit) ↔ (UNKNOWN_LIMIT ≤ length self.old.unknowns.states)) }
        ensures room { (self.new.spare ≡ self.old.spare) × (self.new.spare_lists ≡ self.old.spare_lists) }
        ensures no_memory { OnErr result (self.new ≡ self.old) }
    {
        if self.forms.count() >= UNKNOWN_LIMIT {
            return Ok(Fresh::Limit);
        }
        let alloc = *self.names.allocator();
        let name = Bytes::copy_of(alloc, name)?;
        self.names.reserve(1)?;
        self.holders.reserve(1)?;
        self.forms.push()?;
        self.names.push_reserved(Some(name));
        self.holders.push_reserved(Rows::new(alloc));
        Ok(Fresh::Made(self.forms.count() as u32))
    }

    /// Takes the name of an unknown away.
    pub fn unname(&mut self, serial: u32)
        requires { IsSerial self.old.unknowns.states serial }
        ensures { self.new ≡ record self.old { unknowns = unnamed self.old.unknowns serial } }
    {
        self.names[serial as usize - 1] = None;
    }

    /// The name that an unknown was made with, and none where it was taken away.
    pub fn name(&self, serial: u32) -> Option<&[u8]>
        requires { IsSerial self.now.unknowns.states serial }
        ensures { option_copied result ≡ name_of self.now.unknowns serial }
    {
        match &self.names[serial as usize - 1] {
            Some(name) => Some(name.as_slice()),
            None => None,
        }
    }

    /// The number of unknowns and of accepted equations, each of which made an unknown dependent.
    pub fn changes(&self) -> u64
        ensures { result ≡ length self.now.unknowns.states + length (forms_in self.now.unknowns.states) }
    {
        self.forms.count() as u64 + self.dependent as u64
    }

    /// Whether all unknowns of a form are among these.
    pub fn has_unknowns_of(&self, form: &Form) -> bool
        ensures { IsTrue result ↔ IsOver self.now.unknowns.states form.now }
    {
        form.terms().iter().all(|t| 1 <= t.serial && t.serial as usize <= self.forms.count())
    }

    /// Whether there is an unknown with this serial.
    pub fn has_unknown(&self, serial: u32) -> bool
        ensures { IsTrue result ↔ IsSerial self.now.unknowns.states serial }
    {
        1 <= serial && serial as usize <= self.forms.count()
    }

    /// What is known of an unknown.
    pub fn state(&self, serial: u32) -> State<'_>
        requires { IsSerial self.now.unknowns.states serial }
        ensures { form_in result ≡ form_of self.now.unknowns.states serial }
    {
        match self.form_of(serial) {
            Some(form) => State::Dependent(form),
            None => State::Independent,
        }
    }

    /// What an unknown equals, and none where it is independent.
    fn form_of(&self, serial: u32) -> Option<FormView<'_>>
        requires { IsSerial self.now.unknowns.states serial }
        ensures { result ≡ form_of self.now.unknowns.states serial }
    {
        self.forms.get(serial as usize - 1)
    }

    /// Whether an unknown equals a form.
    fn is_dependent(&self, serial: u32) -> bool
        requires { IsSerial self.now.unknowns.states serial }
        ensures { result ≡ is_some (form_of self.now.unknowns.states serial) }
    {
        self.forms.has(serial as usize - 1)
    }

    /// The number of terms of the forms of all dependent unknowns, at most `TERM_LIMIT`.
    pub fn used(&self) -> usize
        ensures exact { result ≡ term_count self.now.unknowns.states }
        ensures few { result ≤ TERM_LIMIT }
    {
        self.forms.used()
    }

    /// Laws: no dependent unknown occurs in what an unknown equals, and each of these forms is within the limits.
    pub fn equations_are_solved(&self)
        ensures solved { IsSolved self.now.unknowns.states }
        ensures few { length self.now.unknowns.states ≤ UNKNOWN_LIMIT }
        ensures names { length self.now.unknowns.names ≡ length self.now.unknowns.states }
    {
        let _forms = &self.forms;
    }

    /// Whether a form is up to date: no dependent unknown occurs in it.
    pub fn is_reduced(&self, form: &Form) -> bool
        requires { IsOver self.now.unknowns.states form.now }
        ensures { IsTrue result ↔ IsReduced self.now.unknowns.states form.now }
    {
        let terms = form.terms();
        'terms: for term in terms {
            if self.is_dependent(term.serial) {
                return false;
            }
        }
        true
    }

    /// A form brought up to date, as a sum in which no dependent unknown occurs.
    ///
    /// Its terms of independent unknowns come first; then for each other term, in order, its coefficient times
    /// the form that the unknown equals is added. The first of these sums that is refused is the answer. A form
    /// without dependent unknowns stays as it is.
    pub fn reduce(&self, alloc: Global, form: &Form) -> Result<Result<Form, FormFault>, NoMemory>
        requires { IsOver self.now.unknowns.states form.now }
        ensures exact { IfOk result (λ answer. answer ≡ reduce_of self.now.unknowns.states form.now) }
        ensures unchanged { IsReduced self.now.unknowns.states form.now → IfOk result (λ answer. answer ≡ Ok form.now) }
        ensures reduced { IfOk result (λ answer. IfOk answer (IsReduced self.now.unknowns.states)) }
        ensures over { IfOk result (λ answer. IfOk answer (IsOver self.now.unknowns.states)) }
        ensures again { IfOk result (λ answer. IfOk answer (λ p. reduce_of self.now.unknowns.states p ≡ Ok p)) }
    {
        let _forms = &self.forms;
        self.up_to_date(alloc, form)
    }

    /// The same of a form that is given up for it: where that is up to date already, it is handed back.
    pub fn reduce_owned(
        &self,
        alloc: Global,
        form: Form,
    ) -> Result<Result<Form, FormFault>, NoMemory>
        requires { IsOver self.now.unknowns.states form }
        ensures exact { IfOk result (λ answer. answer ≡ reduce_of self.now.unknowns.states form) }
        ensures unchanged { IsReduced self.now.unknowns.states form → IfOk result (λ answer. answer ≡ Ok form) }
        ensures reduced { IfOk result (λ answer. IfOk answer (IsReduced self.now.unknowns.states)) }
        ensures over { IfOk result (λ answer. IfOk answer (IsOver self.now.unknowns.states)) }
        ensures again { IfOk result (λ answer. IfOk answer (λ p. reduce_of self.now.unknowns.states p ≡ Ok p)) }
    {
        if self.is_reduced(&form) {
            Ok(Ok(form))
        } else {
            self.reduce(alloc, &form)
        }
    }

    fn up_to_date(&self, alloc: Global, form: &Form) -> Result<Result<Form, FormFault>, NoMemory>
        requires { IsOver self.now.unknowns.states form.now }
        ensures { IfOk result (λ answer. answer ≡ reduce_of self.now.unknowns.states form.now) }
    {
        let mut sum = self.independent_part(alloc, form)?;
        let terms = form.terms();
        'terms: for term in terms {
            if let Some(equal) = self.form_of(term.serial) {
                let equal = equal.to_form(alloc)?;
                match sum.add_times(alloc, term.coefficient, &equal)? {
                    Ok(more) => sum = more,
                    Err(fault) => return Ok(Err(fault)),
                }
            }
        }
        Ok(Ok(sum))
    }

    fn independent_part(&self, alloc: Global, form: &Form) -> Result<Form, NoMemory>
        requires { IsOver self.now.unknowns.states form.now }
        ensures { IfOk result (λ part. part ≡ independent_part self.now.unknowns.states form.now) }
    {
        let terms = form.terms();
        let mut independent = Vec::with_capacity(alloc, terms.len())?;
        'terms: for term in terms {
            if !self.is_dependent(term.serial) {
                independent.push(*term)?;
            }
        }
        Ok(Form::of_terms(form.constant(), independent))
    }

    /// Takes an equation, and says what it comes to. Only an accepted one changes the system.
    pub fn equate(&mut self, ready: Ready) -> Equated
        requires prepared { ready.unknowns ≡ self.old.unknowns }
        requires room { HasRoom self.old ready }
        ensures exact { (result, self.new.unknowns.states) ≡ eliminate self.old.unknowns.states ready.residual }
        ensures names { self.new.unknowns.names ≡ self.old.unknowns.names }
        ensures redundant { (r : ℤ) → (result ≡ Equated.Redundant r) ↔ IsRedundant ready.residual r }
        ensures inconsistent { (r : ℤ) → (result ≡ Equated.Inconsistent r) ↔ IsInconsistent ready.residual r }
        ensures too_large { (result ≡ Equated.CoefficientTooLarge) ↔ IsTooLarge self.old.unknowns.states ready.residual }
        ensures overflow { (result ≡ Equated.Overflow) ↔ IsOverflow self.old.unknowns.states ready.residual }
        ensures limit { (result ≡ Equated.Limit) ↔ IsBeyondLimit self.old.unknowns.states ready.residual }
        ensures accepted { (result ≡ Equated.Accepted) ↔ IsAccepted self.old.unknowns.states ready.residual }
        ensures refused { result ≢ Equated.Accepted → self.new ≡ self.old }
    {
        self.take(ready)
    }

    fn take(&mut self, ready: Ready) -> Equated
        requires prepared { ready.unknowns ≡ self.old.unknowns }
        requires room { HasRoom self.old ready }
        ensures exact { (result, self.new.unknowns.states) ≡ eliminate self.old.unknowns.states ready.residual }
        ensures names { self.new.unknowns.names ≡ self.old.unknowns.names }
        ensures refused { result ≢ Equated.Accepted → self.new ≡ self.old }
    {
        terms_stay_in_order();
        let Ready {
            residual: _,
            system: _,
            answer,
            solved,
            cells: _,
            lists: _,
        } = ready;
        if let Some(solved) = solved {
            let listed = solve(&mut self.forms, &mut self.holders, &solved);
            self.is_listed &= listed;
            // No form holds the pivot any more.
            self.holders[solved.serial as usize - 1] = Rows::new(*self.names.allocator());
            self.dependent += 1;
        }
        answer
    }

    /// Brings an equation up to date, given as its left side minus its right, and makes all that it needs.
    ///
    /// The answer is for this system as it stands, which it leaves as it is, but for the room that the equation needs. A
    /// difference that cannot be brought up to date is refused.
    pub fn ready(&mut self, form: &Form) -> Result<Result<Ready, FormFault>, NoMemory>
        requires { IsOver self.old.unknowns.states form.now }
        ensures exact { IfOk result (λ answer. IsPrepared self.old.unknowns (reduce_of self.old.unknowns.states form.now) answer) }
        ensures room { IfOk result (λ answer. IfOk answer (HasRoom self.new)) }
        ensures same { self.new.unknowns ≡ self.old.unknowns }
        ensures spare { self.old.spare ≤ self.new.spare }
        ensures spare_lists { self.old.spare_lists ≤ self.new.spare_lists }
    {
        let alloc = *self.names.allocator();
        match self.up_to_date(alloc, form)? {
            Ok(residual) => {
                let ready = self.eliminated(alloc, &residual)?;
                self.make_room(&ready)?;
                Ok(Ok(ready))
            }
            Err(fault) => Ok(Err(fault)),
        }
    }

    /// What an equation comes to, whose difference is up to date.
    fn eliminated(&self, alloc: Global, residual: &Form) -> Result<Ready, NoMemory>
        requires { IsResidual self.now.unknowns.states residual.now }
        ensures { IfOk result (λ ready. (ready.residual ≡ residual.now) × (ready.unknowns ≡ self.now.unknowns)) }
    {
        match pivot_of(residual.terms()) {
            Some(pivot) => {
                let solution = solved_for(alloc, pivot, residual)?;
                self.substituted(alloc, residual, pivot, solution)
            }
            None => Ok(self.refused(residual, judged(residual.constant()))),
        }
    }

    /// The forms in which the pivot's new form replaces it, and the answer that they give.
    fn substituted(
        &self,
        alloc: Global,
        residual: &Form,
        pivot: Term,
        solution: Solution,
    ) -> Result<Ready, NoMemory>
        requires residual { IsResidual self.now.unknowns.states residual.now }
        requires pivot { pivot_of residual.now.terms ≡ Some pivot }
        requires solution { IsSolution solution (solved_for pivot residual.now) }
        ensures { IfOk result (λ ready. (ready.residual ≡ residual.now) × (ready.unknowns ≡ self.now.unknowns)) }
    {
        let rows = self.rows_of(alloc, pivot.serial)?;
        let terms = solution.form.terms().len();
        let mut tally = Tally::new(self.used(), terms, solution.overflows);
        'rows: for row in &rows {
            if let Some(old) = self.forms.get(*row) {
                match old.replacement(pivot.serial, &solution.form) {
                    Replacement::Absent => {}
                    Replacement::Changed(before, after) => tally.change(before, after),
                    Replacement::Overflows => tally.overflows = true,
                    Replacement::TooLarge => {
                        return Ok(self.refused(residual, Equated::CoefficientTooLarge));
                    }
                }
            }
        }
        Ok(self.tallied(residual, pivot, solution.form, rows, tally))
    }

    /// The answer, once it is known what the pivot's new form makes of every form, and no coefficient is too large.
    fn tallied(
        &self,
        residual: &Form,
        pivot: Term,
        form: Form,
        rows: Vec<usize>,
        tally: Tally,
    ) -> Ready
        requires residual { IsResidual self.now.unknowns.states residual.now }
        requires pivot { pivot_of residual.now.terms ≡ Some pivot }
        requires rows { AreHolders self.now.unknowns.states pivot.serial 0 rows.items }
        requires tally { IsWholeTally self.now.unknowns.states pivot.serial (solved_for pivot residual.now)
            form tally.overflows tally.unchanged tally.added tally.peak }
        ensures { (result.residual ≡ residual.now) × (result.unknowns ≡ self.now.unknowns) }
    {
        if tally.overflows {
            return self.refused(residual, Equated::Overflow);
        }
        if tally.unchanged + tally.added > TERM_LIMIT {
            return self.refused(residual, Equated::Limit);
        }
        Ready {
            residual: Snapshot::of(residual),
            system: Snapshot::of(self),
            answer: Equated::Accepted,
            solved: Some(Solved {
                serial: pivot.serial,
                form,
                rows,
            }),
            // The spare cells and those of the forms have to hold as many terms as there are at the most.
            cells: tally.peak - self.used(),
            lists: 1,
        }
    }

    /// The rows of the forms that may hold an unknown, in order.
    fn rows_of(&self, alloc: Global, serial: u32) -> Result<Vec<usize>, NoMemory>
        requires { IsSerial self.now.unknowns.states serial }
        ensures { IfOk result (λ rows. AreHolders self.now.unknowns.states serial 0 rows.items) }
    {
        if self.is_listed {
            self.holders[serial as usize - 1].in_order(alloc)
        } else {
            all_rows(alloc, self.forms.count())
        }
    }

    /// Makes room for what an equation adds: terms and a form, and rows, since each unknown in the pivot's new form may
    /// come into each form that changes.
    fn make_room(&mut self, ready: &Ready) -> Result<(), NoMemory>
        ensures same { self.new.unknowns ≡ self.old.unknowns }
        ensures spare { self.old.spare ≤ self.new.spare }
        ensures spare_lists { self.old.spare_lists ≤ self.new.spare_lists }
        ensures room { OnOk result (HasRoom self.new ready.now) }
    {
        if let Some(solved) = &ready.solved {
            make_room(
                &mut self.holders,
                solved.form.terms(),
                solved.rows.len() + 1,
            )?;
        }
        self.forms.reserve(ready.cells, ready.lists)
    }

    /// An equation that is not accepted.
    fn refused(&self, residual: &Form, answer: Equated) -> Ready
        requires residual { IsResidual self.now.unknowns.states residual.now }
        requires answer { (answer, self.now.unknowns.states) ≡ eliminate self.now.unknowns.states residual.now }
        requires not_accepted { answer ≢ Equated.Accepted }
        ensures { (result.residual ≡ residual.now) × (result.unknowns ≡ self.now.unknowns) }
    {
        Ready {
            residual: Snapshot::of(residual),
            system: Snapshot::of(self),
            answer,
            solved: None,
            cells: 0,
            lists: 0,
        }
    }
}

//! What replacing the pivot in every form comes to.

ghost use Rattle.std.specs.Prelude.{◌≡◌, ◌+◌, ◌-◌, ◌≤◌, max, min};

use crate::limits::TERM_LIMIT;

/// What is to be known of all new forms so far.
#[derive(Clone, Copy, Debug)]
pub struct Tally {
    /// Whether the constant of one overflows.
    pub overflows: bool,
    /// The number of terms of the forms that do not change.
    pub unchanged: usize,
    /// The number of terms of the new forms, but no more than one above the limit.
    pub added: usize,
    /// The greatest number of terms so far, with those of the pivot's new form.
    pub peak: usize,
}

impl Tally {
    /// The tally of the pivot's new form alone, with so many terms, where the other forms have so many.
    pub fn new(unchanged: usize, terms: usize, overflows: bool) -> Tally
        requires few { unchanged ≤ TERM_LIMIT }
        ensures overflows { result.overflows ≡ overflows }
        ensures unchanged { result.unchanged ≡ unchanged }
        ensures added { result.added ≡ min (0 + terms) (TERM_LIMIT + 1) }
        ensures peak { result.peak ≡ result.unchanged + result.added }
    {
        let added = limited(0, terms);
        Tally {
            overflows,
            unchanged,
            added,
            peak: unchanged + added,
        }
    }

    /// Counts a form that changes: it had so many terms, and has so many then.
    pub fn change(&mut self, before: usize, after: usize)
        requires enough { before ≤ self.old.unchanged }
        requires few { self.old.unchanged ≤ TERM_LIMIT }
        requires bounded { self.old.added ≤ TERM_LIMIT + 1 }
        ensures overflows { self.new.overflows ≡ self.old.overflows }
        ensures unchanged { self.new.unchanged ≡ self.old.unchanged - before }
        ensures added { self.new.added ≡ min (self.old.added + after) (TERM_LIMIT + 1) }
        ensures peak { self.new.peak ≡ max self.old.peak (self.new.unchanged + self.new.added) }
    {
        self.unchanged -= before;
        self.added = limited(self.added, after);
        self.peak = self.peak.max(self.unchanged + self.added);
    }
}

/// A sum of numbers of terms, but no more than one above the limit.
fn limited(terms: usize, more: usize) -> usize
    ensures { result ≡ min (terms + more) (TERM_LIMIT + 1) }
{
    terms.saturating_add(more).min(TERM_LIMIT + 1)
}

//! A sorted merge in place, by cells that go from chain to chain.
ghost use Rattle.std.specs.Prelude.{◌≡◌, ◌≢◌, ◌<◌, ◌≤◌, ◌+◌, ◌^◌, ◌++◌, ◌∷◌, List, take, drop, length, unsigned_abs, ℤ, ◌+ℤ◌, IsNone, IfSome};
ghost use Rattle.mp_pool.specs.declared.Term.{Term};
ghost use Rattle.mp_pool.specs.Ratios.{times_fraction};
ghost use Rattle.mp_pool.specs.Storage.Chains.{chain_of};
ghost use Rattle.mp_pool.specs.Storage.Frames.{OnlyTwo, OnlyThree, AreThree};
ghost use Rattle.mp_pool.specs.Storage.Merge.{merge, kept, IsSmall, AreSmall, FrontAtMost, FrontBelow};

use crate::cells::Cells;
use crate::{Ratio, Term};

/// The sum of two coefficients stays from this magnitude on.
pub const LEAST_JOINT: u64 = 2685;

/// Any other new coefficient stays from this magnitude on.
pub const LEAST_LONE: u64 = 1343;

/// Moves the cells of greater serial from `left` to `done`.
pub fn pass(cells: &mut Cells, left: usize, done: usize, serial: u32)
    requires left { left < length cells.old }
    requires done { done < length cells.old }
    requires apart { left ≢ done }
    requires small { AreSmall (chain_of cells.old left) }
    ensures rest { OnlyTwo cells.old cells.new left done }
    ensures cells { length (chain_of cells.new left) + length (chain_of cells.new done) ≡ length (chain_of cells.old left) + length (chain_of cells.old done) }
    ensures small { AreSmall (chain_of cells.new left) }
    ensures front { FrontAtMost serial (chain_of cells.new left) }
    ensures same { (change : ℤ → ℤ) (q : Term) (qs : List Term) → q.serial ≡ serial →
        chain_of cells.new done ++ merge change (chain_of cells.new left) (q ∷ qs) ≡ chain_of cells.old done ++ merge change (chain_of cells.old left) (q ∷ qs) }
{
    'passing: while !cells.is_empty(left) {
        if cells.first(left).serial <= serial {
            break 'passing;
        }
        cells.step(left, done);
    }
}

/// f times c, in units of 2^-28, to the nearest.
pub fn product(f: i64, c: i64) -> i64
    requires small_f { unsigned_abs f < 2 ^ 44 }
    requires small_c { unsigned_abs c < 2 ^ 44 }
    ensures value { result ≡ times_fraction f c }
    ensures small { unsigned_abs result ≤ 2 ^ 60 }
{
    Ratio::fraction(f).times(c)
}

pub fn sum(c: i64, more: i64) -> i64
    requires small_c { unsigned_abs c < 2 ^ 44 }
    requires small_more { unsigned_abs more ≤ 2 ^ 60 }
    ensures { result ≡ c +ℤ more }
{
    c + more
}

/// The first coefficient, where the first serial is this one.
pub fn coefficient_at(cells: &Cells, left: usize, serial: u32) -> Option<i64>
    requires left { left < length cells.now }
    requires front { FrontAtMost serial (chain_of cells.now left) }
    ensures none { IsNone result → FrontBelow serial (chain_of cells.now left) }
    ensures some { IfSome result (λ c. chain_of cells.now left ≡ record { serial = serial; coefficient = c } ∷ drop 1 (chain_of cells.now left)) }
{
    if cells.is_empty(left) {
        return None;
    }
    let p = cells.first(left);
    if p.serial == serial {
        Some(p.coefficient)
    } else {
        None
    }
}

/// Puts the first cell of `left` to `done` with a new coefficient, or back to the spare ones.
fn keep_first(cells: &mut Cells, left: usize, done: usize, spare: usize, term: Term)
    requires three { AreThree (length cells.old) left done spare }
    requires some { 0 < length (chain_of cells.old left) }
    ensures rest { OnlyThree cells.old cells.new left done spare }
    ensures cells { length (chain_of cells.new left) + length (chain_of cells.new done) + length (chain_of cells.new spare)
        ≡ length (chain_of cells.old left) + length (chain_of cells.old done) + length (chain_of cells.old spare) }
    ensures spare { length (chain_of cells.old spare) ≤ length (chain_of cells.new spare) }
    ensures left { chain_of cells.new left ≡ drop 1 (chain_of cells.old left) }
    ensures done { (rest : List Term) → chain_of cells.new done ++ rest ≡ chain_of cells.old done ++ kept 2685 term.serial term.coefficient rest }
{
    if term.coefficient.unsigned_abs() < LEAST_JOINT {
        cells.step(left, spare);
    } else {
        cells.put_first(left, term);
        cells.step(left, done);
    }
}

/// Puts a spare cell to `done` with this term, unless its coefficient is too small.
fn keep_new(cells: &mut Cells, done: usize, spare: usize, term: Term)
    requires done { done < length cells.old }
    requires spare_in { spare < length cells.old }
    requires apart { done ≢ spare }
    requires some { 0 < length (chain_of cells.old spare) }
    ensures rest { OnlyTwo cells.old cells.new done spare }
    ensures cells { length (chain_of cells.new done) + length (chain_of cells.new spare) ≡ length (chain_of cells.old done) + length (chain_of cells.old spare) }
    ensures spare { length (chain_of cells.old spare) ≤ length (chain_of cells.new spare) + 1 }
    ensures done { (rest : List Term) → chain_of cells.new done ++ rest ≡ chain_of cells.old done ++ kept 1343 term.serial term.coefficient rest }
{
    if term.coefficient.unsigned_abs() >= LEAST_LONE {
        cells.put_first(spare, term);
        cells.step(spare, done);
    }
}

/// Adds f times one term, of which `left` has no greater serial.
pub fn add_here(cells: &mut Cells, left: usize, done: usize, spare: usize, f: i64, q: Term)
    requires three { AreThree (length cells.old) left done spare }
    requires spare { 0 < length (chain_of cells.old spare) }
    requires front { FrontAtMost q.serial (chain_of cells.old left) }
    requires small { AreSmall (chain_of cells.old left) }
    requires small_f { unsigned_abs f < 2 ^ 44 }
    requires small_q { IsSmall q }
    ensures rest { OnlyThree cells.old cells.new left done spare }
    ensures cells { length (chain_of cells.new left) + length (chain_of cells.new done) + length (chain_of cells.new spare)
        ≡ length (chain_of cells.old left) + length (chain_of cells.old done) + length (chain_of cells.old spare) }
    ensures spare { length (chain_of cells.old spare) ≤ length (chain_of cells.new spare) + 1 }
    ensures small { AreSmall (chain_of cells.new left) }
    ensures same { (qs : List Term) →
        chain_of cells.new done ++ merge (times_fraction f) (chain_of cells.new left) qs ≡ chain_of cells.old done ++ merge (times_fraction f) (chain_of cells.old left) (q ∷ qs) }
{
    let more = product(f, q.coefficient);
    match coefficient_at(cells, left, q.serial) {
        Some(c) => {
            let coefficient = sum(c, more);
            keep_first(
                cells,
                left,
                done,
                spare,
                Term {
                    serial: q.serial,
                    coefficient,
                },
            );
        }
        None => keep_new(
            cells,
            done,
            spare,
            Term {
                serial: q.serial,
                coefficient: more,
            },
        ),
    }
}

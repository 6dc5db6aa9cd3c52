//! Other terms merged into a list of the pool: chain 0 is spare, chain 1 is empty between calls.
ghost use Rattle.std.specs.Prelude.{◌≡◌, ◌≢◌, ◌<◌, ◌≤◌, ◌+◌, ◌^◌, ◌++◌, length, unsigned_abs, []};
ghost use Rattle.mp_pool.specs.Ratios.{times_fraction};
ghost use Rattle.mp_pool.specs.Storage.Chains.{chain_of};
ghost use Rattle.mp_pool.specs.Storage.Frames.{OnlyTwo, Merging};
ghost use Rattle.mp_pool.specs.Storage.Merge.{merge};

use crate::Term;
use crate::cells::Cells;
use crate::merge::{add_here, pass};

/// Moves what is left to the terms done.
pub fn move_rest(cells: &mut Cells, left: usize)
    requires left { left < length cells.old }
    requires left_from { 3 ≤ left }
    ensures rest { OnlyTwo cells.old cells.new left 1 }
    ensures left { chain_of cells.new left ≡ [] }
    ensures done { chain_of cells.new 1 ≡ chain_of cells.old 1 ++ chain_of cells.old left }
{
    'moving: while !cells.is_empty(left) {
        cells.step(left, 1);
    }
}

/// Makes `left` the merge of itself and f times other terms.
pub fn merge_into(cells: &mut Cells, left: usize, f: i64, right: &[Term])
    requires merging { Merging cells.old left right.now }
    requires done { chain_of cells.old 1 ≡ [] }
    requires small_f { unsigned_abs f < 2 ^ 44 }
    ensures merged { chain_of cells.new left ≡ merge (times_fraction f) (chain_of cells.old left) right.now }
    ensures rest { OnlyTwo cells.old cells.new 0 left }
    ensures cells { length (chain_of cells.new 0) + length (chain_of cells.new left)
        ≡ length (chain_of cells.old 0) + length (chain_of cells.old left) }
{
    'merging: for q in right {
        pass(cells, left, 1, q.serial);
        add_here(cells, left, 1, 0, f, *q);
    }
    move_rest(cells, left);
    cells.exchange(left, 1);
}

//! More cells and chains.

ghost use Rattle.std.specs.Prelude.{◌≡◌, ◌<◌, ◌≤◌, ◌+◌, ◌^◌, ℕ, [], List, max, sum_by, length, OnOk, OnErr};
ghost use Rattle.mp_pool.specs.declared.Term.{Term};
ghost use Rattle.mp_pool.specs.Storage.Slots.{IsOneMore};
ghost use Rattle.mp_pool.specs.Storage.Chains.{chain_of};

use crate::cells::Cells;
use mp_scaled::NoMemory;

/// Makes the chain of the spare cells and the two that calls use, where they are not there yet.
pub fn add_scratch(cells: &mut Cells) -> Result<(), NoMemory>
    ensures ok { OnOk result (3 ≤ length cells.new) }
    ensures longer { length cells.old ≤ length cells.new }
    ensures shorter { length cells.new ≤ max (length cells.old) 3 }
    ensures same { (k : ℕ) → chain_of cells.new k ≡ chain_of cells.old k }
    ensures total { sum_by (λ (ts : List Term). length ts) cells.new ≡ sum_by (λ (ts : List Term). length ts) cells.old }
{
    'chains: while cells.count() < 3 {
        cells.add_chain()?;
    }
    Ok(())
}

/// Makes one more spare cell.
pub fn add_cell(cells: &mut Cells) -> Result<(), NoMemory>
    requires done { chain_of cells.old 1 ≡ [] }
    requires few { sum_by (λ (ts : List Term). length ts) cells.old + 1 < 2 ^ 32 }
    ensures ok { OnOk result (sum_by (λ (ts : List Term). length ts) cells.new ≡ sum_by (λ (ts : List Term). length ts) cells.old + 1) }
    ensures err { OnErr result (sum_by (λ (ts : List Term). length ts) cells.new ≡ sum_by (λ (ts : List Term). length ts) cells.old) }
    ensures longer { length cells.old ≤ length cells.new }
    ensures shorter { length cells.new ≤ max (length cells.old) 3 }
    ensures same { (k : ℕ) → 1 ≤ k → chain_of cells.new k ≡ chain_of cells.old k }
{
    add_scratch(cells)?;
    cells.load(1)?;
    cells.step(1, 0);
    Ok(())
}

/// Makes one more chain, for a slot.
pub fn add_slot(cells: &mut Cells) -> Result<(), NoMemory>
    ensures ok { OnOk result (IsOneMore cells.old cells.new) }
    ensures err { OnErr result (length cells.old ≤ length cells.new) }
    ensures err_shorter { OnErr result (length cells.new ≤ max (length cells.old) 3) }
    ensures same { (k : ℕ) → chain_of cells.new k ≡ chain_of cells.old k }
    ensures total { sum_by (λ (ts : List Term). length ts) cells.new ≡ sum_by (λ (ts : List Term). length ts) cells.old }
{
    add_scratch(cells)?;
    cells.add_chain()
}

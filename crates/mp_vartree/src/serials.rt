//! The unknowns that were made for variables.

ghost use Rattle.std.specs.Prelude.{◌≡◌, ℕ, ◌||◌, true, false, [], IfOk, OnOk};
ghost use Rattle.std.specs.Ordering.{nat_cmp};
ghost use Rattle.std.specs.BTreeSet.{IsOrdered};
ghost use Rattle.mp_vartree.specs.Variables.{made_for};
ghost use Rattle.mp_vartree.specs.Layout.Groups.{covers};
ghost use Rattle.mp_vartree.specs.Layout.Gathered.{has, Gathers, InGroup};

use crate::Shape;
use crate::entry::Variable;
use crate::group::Group;
use crate::pattern_tree::PatternTree;
use mp_scaled::{Listing, NoMemory};
use mp_values::Value;
use std::alloc::Global;
use std::collections::BTreeSet;

/// Numbers of unknowns, in increasing order.
pub type Serials = Listing<u32>;

/// The numbers of a set, in increasing order.
pub fn listed(alloc: Global, numbers: &BTreeSet<u32>) -> Result<Serials, NoMemory>
    ensures exact { IfOk result (λ serials. serials ≡ numbers.now.keys) }
    ensures ordered { IsOrdered nat_cmp numbers.now }
{
    let mut serials = Listing::new(alloc);
    'copy: for number in numbers.iter() {
        serials.push(*number)?;
    }
    Ok(serials)
}

/// Adds the unknowns that were made for a variable.
pub fn add_made(variable: &Variable, into: &mut BTreeSet<u32>) -> Result<(), NoMemory>
    ensures { OnOk result ((n : ℕ) → has n into.new.keys ≡ (has n into.old.keys || has n (made_for variable.now))) }
{
    if !variable.made {
        return Ok(());
    }
    if let Value::Numeric(form) = &variable.value {
        'terms: for term in form.terms() {
            into.insert(term.serial)?;
        }
    }
    Ok(())
}

impl PatternTree<Group<Variable>> {
    /// Adds the unknowns that were made for the variables of the empty pattern.
    fn add_held(&self, into: &mut BTreeSet<u32>) -> Result<(), NoMemory>
        ensures { OnOk result (Gathers InGroup into.old.keys into.new.keys self.now.paths (covers false [])) }
    {
        match self.held() {
            Some(group) => group.add_made(into),
            None => Ok(()),
        }
    }

    /// Adds the unknowns that were made for all variables.
    fn add_all(&self, into: &mut BTreeSet<u32>) -> Result<(), NoMemory>
        ensures { OnOk result (Gathers InGroup into.old.keys into.new.keys self.now.paths (covers true [])) }
    {
        self.add_held(into)?;
        let children = self.children();
        'children: for (_, child) in children.iter() {
            child.add_all(into)?;
        }
        Ok(())
    }

    /// Adds the unknowns that were made for the variables of a pattern, or, where `below`, also for those of the
    /// patterns that begin with it.
    pub fn add_made(
        &self,
        pattern: &[Shape],
        below: bool,
        into: &mut BTreeSet<u32>,
    ) -> Result<(), NoMemory>
        ensures { OnOk result (Gathers InGroup into.old.keys into.new.keys self.now.paths (covers below pattern.now)) }
    {
        match pattern.split_first() {
            None if below => self.add_all(into),
            None => self.add_held(into),
            Some((shape, rest)) => match self.child(*shape) {
                Some(child) => child.add_made(rest, below, into),
                None => Ok(()),
            },
        }
    }
}

//! Maps from full names.

ghost use Rattle.std.specs.Prelude.{◌≡◌, not, OnOk, OnErr};
ghost use Rattle.std.specs.Option.{option_map};
ghost use Rattle.std.specs.FinMap.{empty, get, insert, retain_keys};
ghost use Rattle.mp_vartree.specs.Names.{is_meant};
ghost use Rattle.mp_vartree.specs.Layout.Gathered.{Gathers, InVariable};

use crate::entry::Variable;
use crate::group::Group;
use crate::pattern_tree::PatternTree;
use crate::shapes::pattern_of;
use crate::{Part, Shape};
use mp_scaled::NoMemory;
use std::alloc::Global;
use std::collections::BTreeSet;
use std::marker::Model;

/// What stands at names, which contracts see as a finite map from names.
///
/// Names stand in groups, one for each pattern: a pattern's names are found, and forgotten, without a look at others.
#[derive(Drop)]
pub struct NameMap<X> {
    groups: PatternTree<Group<X>>,
}

impl<X> Model for NameMap<X> {
    ghost use Rattle.std.specs.Coded.{coded_list};
    ghost use Rattle.std.specs.FinMap as finite;
    ghost use Rattle.mp_vartree.specs.Names.{name_cmp};
    ghost use Rattle.mp_vartree.specs.Layout.Coding.{part_code};
    ghost use Rattle.mp_vartree.specs.Layout.Groups.{all_names, AreGrouped};

    ghost Value = { finite.FinMap name_cmp X };

    ghost coded = { finite.code (coded_list part_code) X.code };

    ghost view = { λ m. all_names m.groups.paths };

    ghost invariant = { λ m. AreGrouped m.groups.paths };
}

impl<X> NameMap<X> {
    /// No names.
    pub fn new(alloc: Global) -> NameMap<X>
        ensures { result ≡ empty }
    {
        NameMap {
            groups: PatternTree::new(alloc),
        }
    }

    /// What stands at a name.
    pub fn get(&self, name: &[Part]) -> Option<&X>
        ensures { option_map (λ x. x.now) result ≡ get self.now name.now }
    {
        match self.groups.get(name) {
            Some(group) => group.get(name),
            None => None,
        }
    }
}

impl<X: Drop> NameMap<X> {
    /// Puts something at a name, in place of what stood there. Want of memory leaves all names as they were.
    pub fn insert(&mut self, alloc: Global, name: &[Part], x: X) -> Result<(), NoMemory>
        ensures ok { OnOk result (self.new ≡ insert self.old name.now x) }
        ensures err { OnErr result (self.new ≡ self.old) }
    {
        if self.groups.get(name).is_some() {
            return self.groups.put(alloc, name, name, x);
        }
        let mut group = Group::new(alloc);
        group.insert(alloc, name, x)?;
        let pattern = pattern_of(alloc, name)?;
        self.groups.insert(alloc, pattern.as_slice(), group)
    }

    /// Takes away what stands at the names that match a pattern, or, where `below`, also at those that have a beginning
    /// that does.
    pub fn forget(&mut self, pattern: &[Shape], below: bool)
        ensures { self.new ≡ retain_keys self.old (λ name. not (is_meant below pattern.now name)) }
    {
        self.groups.remove(pattern, below);
    }
}

impl NameMap<Variable> {
    /// Adds the unknowns that were made for the variables that match a pattern, or, where `below`, also for those that
    /// have a beginning that does.
    pub fn add_made(
        &self,
        pattern: &[Shape],
        below: bool,
        into: &mut BTreeSet<u32>,
    ) -> Result<(), NoMemory>
        ensures { OnOk result (Gathers InVariable into.old.keys into.new.keys self.now (is_meant below pattern.now)) }
    {
        self.groups.add_made(pattern, below, into)
    }
}

//! The variables of one pattern.

ghost use Rattle.std.specs.Prelude.{◌≡◌, true, OnOk, OnErr};
ghost use Rattle.std.specs.Option.{option_map};
ghost use Rattle.std.specs.FinMap.{empty, get, insert};
ghost use Rattle.mp_vartree.specs.Layout.Gathered.{Gathers, InVariable};

use crate::Part;
use crate::entry::Variable;
use crate::serials::add_made;
use mp_scaled::NoMemory;
use std::alloc::Global;
use std::collections::{BTreeMap, BTreeSet};
use std::marker::Model;

/// What stands at names, in one ordered map, which contracts see as a finite map from names.
#[derive(Drop)]
pub struct Group<X> {
    names: BTreeMap<Vec<Part>, X>,
}

impl<X> Model for Group<X> {
    ghost use Rattle.std.specs.Coded.{coded_list};
    ghost use Rattle.std.specs.FinMap as finite;
    ghost use Rattle.mp_vartree.specs.Names.{name_cmp};
    ghost use Rattle.mp_vartree.specs.Layout.Coding.{part_code};
    ghost use Rattle.mp_vartree.specs.Layout.Groups.{by_names};

    ghost Value = { finite.FinMap name_cmp X };

    ghost coded = { finite.code (coded_list part_code) X.code };

    ghost view = { λ g. by_names g.names.entries };
}

impl<X> Group<X> {
    /// A group without names.
    pub fn new(alloc: Global) -> Group<X>
        ensures { result ≡ empty }
    {
        Group {
            names: BTreeMap::new(alloc),
        }
    }

    /// What stands at a name.
    pub fn get(&self, name: &[Part]) -> Option<&X>
        ensures { option_map (λ x. x.now) result ≡ get self.now name.now }
    {
        self.names.get(name)
    }
}

impl<X: Drop> Group<X> {
    /// Puts something at a name, in place of what stood there. Want of memory leaves all names as they were.
    pub fn insert(&mut self, alloc: Global, name: &[Part], x: X) -> Result<(), NoMemory>
        ensures ok { OnOk result (self.new ≡ insert self.old name.now x) }
        ensures err { OnErr result (self.new ≡ self.old) }
    {
        if let Some(place) = self.names.get_mut(name) {
            *place = x;
            return Ok(());
        }
        let name = Vec::from_slice(alloc, name)?;
        self.names.insert(name, x)?;
        Ok(())
    }
}

impl Group<Variable> {
    /// Adds the unknowns that were made for the variables.
    pub fn add_made(&self, into: &mut BTreeSet<u32>) -> Result<(), NoMemory>
        ensures { OnOk result (Gathers InVariable into.old.keys into.new.keys self.now (λ name. true)) }
    {
        let names = &self.names;
        'names: for (_, variable) in names.iter() {
            add_made(variable, into)?;
        }
        Ok(())
    }
}

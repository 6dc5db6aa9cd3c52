//! The tags of variables, by their roots.

ghost use Rattle.std.specs.Prelude.{◌≡◌, OnOk, IsSome};
ghost use Rattle.std.specs.FinMap.{empty};
ghost use Rattle.std.specs.Ordering.{nat_cmp};
ghost use Rattle.std.specs.BTreeMap as map;
ghost use Rattle.mp_vartree.specs.Layout.Tags.{declarations_in, variables_in};

use crate::declarations::Declarations;
use crate::entry::Variable;
use crate::name_map::NameMap;
use crate::pattern_tree::PatternTree;
use mp_scaled::NoMemory;
use std::alloc::Global;
use std::collections::BTreeMap;

/// What is known of the variables of a root, by their names behind it.
#[derive(Drop)]
pub struct Tag {
    pub declarations: Declarations,
    pub variables: NameMap<Variable>,
}

impl Tag {
    /// A tag of which nothing is known.
    pub fn new(alloc: Global) -> Tag
        ensures declarations { result.declarations.paths ≡ empty }
        ensures variables { result.variables ≡ empty }
    {
        Tag {
            declarations: PatternTree::new(alloc),
            variables: NameMap::new(alloc),
        }
    }
}

/// Sees to it that a root has a tag; no names change by that.
pub fn add_tag(alloc: Global, tags: &mut BTreeMap<u32, Tag>, root: u32) -> Result<(), NoMemory>
    ensures present { OnOk result (IsSome (map.get nat_cmp tags.new root)) }
    ensures declarations { declarations_in tags.new.entries ≡ declarations_in tags.old.entries }
    ensures variables { variables_in tags.new.entries ≡ variables_in tags.old.entries }
{
    if !tags.contains_key(&root) {
        tags.insert(root, Tag::new(alloc))?;
    }
    Ok(())
}

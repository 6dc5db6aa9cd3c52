//! Trees of patterns.

ghost use Rattle.std.specs.Prelude.{◌≡◌, suc, [], ◌∷◌, List, not, false, IsTrue, OnOk, OnErr};
ghost use Rattle.std.specs.Option.{option_map, option_and_then};
ghost use Rattle.std.specs.FinMap.{empty, get, insert, retain_keys};
ghost use Rattle.std.specs.Ordering.{is_eq};
ghost use Rattle.std.specs.Map.{lookup};
ghost use Rattle.mp_vartree.specs.Names.{shape_cmp, pattern_of};
ghost use Rattle.mp_vartree.specs.Layout.Tree.{nodes_in};
ghost use Rattle.mp_vartree.specs.Layout.Groups.{covers, with_name};
ghost use Rattle.mp_vartree.specs.declared.names.Shape.{Shape as PatternPart};

use crate::group::Group;
use crate::{Part, Shape};
use mp_scaled::NoMemory;
use std::alloc::Global;
use std::collections::BTreeMap;
use std::marker::Model;

/// What stands at patterns, which contracts see as a finite map from patterns.
#[derive(Drop)]
pub struct PatternTree<X> {
    held: Option<X>,
    children: BTreeMap<Shape, Box<PatternTree<X>>>,
}

impl<X> Model for PatternTree<X> {
    ghost use Rattle.std.specs.Prelude.{suc};
    ghost use Rattle.mp_vartree.specs.Names.{shape_cmp};
    ghost use Rattle.mp_vartree.specs.Layout.Tree.{Grown, grown_code, node_of, nodes_in};
    ghost use Rattle.mp_vartree.specs.Layout.Coding.{shape_code};
    ghost use Rattle.mp_vartree.specs.Layout.Children.{paths_of};

    ghost Value = { Grown shape_cmp X };

    ghost coded = { grown_code shape_code X.code };

    ghost view = { λ t. record {
      paths = node_of shape_cmp t.held (paths_of t.children.entries);
      nodes = suc (nodes_in t.children.entries);
    } };

    ghost size = { λ t. t.nodes };

    ghost use Rattle.std.proofs.Common.{arith};
    ghost use Rattle.mp_vartree.specs.Layout.TreeFalls.{most_le-nodes_in};

    ghost size_decreases = { λ a h. Prim.omega (arith, most_le-nodes_in a.children.entries) };
}

impl<X> PatternTree<X> {
    /// A tree in which nothing stands.
    pub fn new(alloc: Global) -> PatternTree<X>
        ensures { result.paths ≡ empty }
    {
        PatternTree {
            held: None,
            children: BTreeMap::new(alloc),
        }
    }

    /// Whether the tree has no node but its root, with nothing there.
    fn is_bare(&self) -> bool
        ensures { IsTrue result → self.now.paths ≡ empty }
    {
        self.held.is_none() && self.children.is_empty()
    }

    /// What stands at the patterns that begin with a shape, by the rest of them.
    pub fn child(&self, shape: Shape) -> Option<&PatternTree<X>>
        ensures { (rest : List PatternPart) → get self.now.paths (shape ∷ rest) ≡ option_and_then (λ child. get child.now.paths rest) result }
    {
        match self.children.get(&shape) {
            Some(child) => Some(child),
            None => None,
        }
    }

    /// What stands at the empty pattern.
    pub fn held(&self) -> Option<&X>
        ensures { option_map (λ x. x.now) result ≡ get self.now.paths [] }
    {
        self.held.as_ref()
    }

    /// The children, each behind its shape.
    pub fn children(&self) -> &BTreeMap<Shape, Box<PatternTree<X>>>
        ensures paths { (shape : PatternPart) → (rest : List PatternPart)
            → get self.now.paths (shape ∷ rest) ≡ option_and_then (λ child. get child.value.paths rest) (lookup (λ k. is_eq (shape_cmp shape k)) result.now.entries) }
        ensures nodes { self.now.nodes ≡ suc (nodes_in result.now.entries) }
    {
        &self.children
    }

    /// What stands at the pattern of a name.
    pub fn get(&self, name: &[Part]) -> Option<&X>
        ensures { option_map (λ x. x.now) result ≡ get self.now.paths (pattern_of name.now) }
    {
        let mut node = self;
        'walk: for part in name {
            match node.child(Shape::of(*part)) {
                None => return None,
                Some(child) => node = child,
            }
        }
        node.held()
    }
}

impl<X: Drop> PatternTree<X> {
    /// Puts something at a pattern, in place of what stood there. Want of memory leaves all patterns as they were.
    pub fn insert(&mut self, alloc: Global, pattern: &[Shape], x: X) -> Result<(), NoMemory>
        ensures ok { OnOk result (self.new.paths ≡ insert self.old.paths pattern.now x) }
        ensures err { OnErr result (self.new.paths ≡ self.old.paths) }
    {
        match pattern.split_first() {
            None => {
                self.held = Some(x);
                Ok(())
            }
            Some((shape, rest)) => {
                if let Some(child) = self.children.get_mut(shape) {
                    return child.insert(alloc, rest, x);
                }
                let mut child = PatternTree::new(alloc);
                child.insert(alloc, rest, x)?;
                self.children.insert(*shape, Box::new(alloc, child)?)?;
                Ok(())
            }
        }
    }

    /// Takes away what stands at a pattern, or, where `below`, also at those that begin with it.
    pub fn remove(&mut self, pattern: &[Shape], below: bool)
        ensures { self.new.paths ≡ retain_keys self.old.paths (λ other. not (covers below pattern.now other)) }
    {
        match pattern.split_first() {
            None => {
                self.held = None;
                if below {
                    self.children.clear();
                }
            }
            Some((shape, rest)) => {
                let Some(child) = self.children.get_mut(shape) else {
                    return;
                };
                child.remove(rest, below);
                self.prune(shape);
            }
        }
    }

    /// Drops the child of a shape, if nothing stands in it.
    fn prune(&mut self, shape: &Shape)
        ensures { self.new.paths ≡ self.old.paths }
    {
        if let Some(child) = self.children.get(shape) {
            if child.is_bare() {
                self.children.remove(shape);
            }
        }
    }
}

impl<X: Drop> PatternTree<Group<X>> {
    /// Puts something at a name in the group of a pattern, if there is one. The pattern is that of the parts behind.
    /// Want of memory leaves all groups as they were.
    pub fn put(
        &mut self,
        alloc: Global,
        behind: &[Part],
        name: &[Part],
        x: X,
    ) -> Result<(), NoMemory>
        ensures ok { OnOk result (self.new.paths ≡ with_name self.old.paths (pattern_of behind.now) name.now x) }
        ensures err { OnErr result (self.new.paths ≡ self.old.paths) }
    {
        let Some((part, rest)) = behind.split_first() else {
            return self.put_here(alloc, name, x);
        };
        if let Some(child) = self.children.get_mut(&Shape::of(*part)) {
            return child.put(alloc, rest, name, x);
        }
        Ok(())
    }

    /// The same in the group of the empty pattern.
    fn put_here(&mut self, alloc: Global, name: &[Part], x: X) -> Result<(), NoMemory>
        ensures ok { OnOk result (self.new.paths ≡ with_name self.old.paths [] name.now x) }
        ensures err { OnErr result (self.new.paths ≡ self.old.paths) }
    {
        if let Some(group) = &mut self.held {
            return group.insert(alloc, name, x);
        }
        Ok(())
    }
}

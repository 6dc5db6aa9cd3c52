//! The variables of a run.

ghost use Rattle.std.specs.Prelude.{◌≡◌, ◌↔◌, true, false, Some, None, IfOk, OnOk, OnErr, IsErr};
ghost use Rattle.std.specs.Option.{option_map};
ghost use Rattle.mp_values.specs.Kinds.{kind_of, is_kind};
ghost use Rattle.mp_vartree.specs.Declarations.{is_below_macro};
ghost use Rattle.mp_vartree.specs.Variables as variables;
ghost use Rattle.mp_vartree.specs.Variables.{no_variables, with_new_root, macro_at, wanted_kind, forget};
ghost use Rattle.mp_vartree.specs.Laws.{AreOnce};

use crate::entry::{Declared, Variable};
use crate::serials::{Serials, add_made, listed};
use crate::tag::{Tag, add_tag};
use crate::{BadDeclaration, Found, Part, Shape, WrongType};
use mp_scaled::{NoMemory, Shared};
use mp_values::{Kind, Macro, Value, has_kind};
use std::alloc::Global;
use std::collections::{BTreeMap, BTreeSet};
use std::marker::Model;

/// Variables and declarations, which contracts see as the list of full names with their values and the list of
/// patterns with what was declared of them.
///
/// A full name is a root and its parts, of which the subscripts count by their values. A pattern has `Any` in place of
/// each subscript; a name matches a pattern of its length, part by part, so it matches exactly one.
///
/// A root that was not given yet is a root like any other, of which nothing is known.
#[derive(Drop)]
pub struct Vars {
    alloc: Global,
    roots: u32,
    tags: BTreeMap<u32, Tag>,
}

impl Model for Vars {
    ghost use Rattle.std.specs.FinMap.{entries};
    ghost use Rattle.mp_vartree.specs.Variables.{Variables};
    ghost use Rattle.mp_vartree.specs.Layout.Tags.{declarations_in, variables_in};

    ghost Value = { Variables };

    ghost view = { λ v. record {
      roots = v.roots;
      declarations = entries (declarations_in v.tags.entries);
      variables = entries (variables_in v.tags.entries);
    } };
}

impl Vars {
    /// No variables and no declarations; no root was given.
    pub fn new(alloc: Global) -> Vars
        ensures { result ≡ no_variables }
    {
        Vars {
            alloc,
            roots: 0,
            tags: BTreeMap::new(alloc),
        }
    }

    /// A root that was never given before: they count from 0.
    ///
    /// Want of memory is answered exactly where 2^32 - 1 roots were given, and then nothing has changed. It takes no
    /// memory.
    pub fn new_root(&mut self) -> Result<u32, NoMemory>
        ensures root { IfOk result (λ root. root ≡ self.old.roots) }
        ensures ok { OnOk result (self.new ≡ with_new_root self.old) }
        ensures full { IsErr result ↔ (self.old.roots ≡ 4294967295) }
        ensures err { OnErr result (self.new ≡ self.old) }
    {
        let root = self.roots;
        match root.checked_add(1) {
            None => Err(NoMemory),
            Some(next) => {
                self.roots = next;
                Ok(root)
            }
        }
    }

    /// The root that `new_root` would give; want of memory exactly where it would answer that.
    pub fn next_root(&self) -> Result<u32, NoMemory>
        ensures root { IfOk result (λ root. root ≡ self.now.roots) }
        ensures full { IsErr result ↔ (self.now.roots ≡ 4294967295) }
    {
        match self.roots {
            u32::MAX => Err(NoMemory),
            root => Ok(root),
        }
    }

    /// Gives a pattern a type, and forgets exactly the variables that match it. Below the name of a macro it is
    /// refused, and nothing changes.
    ///
    /// Want of memory leaves all as it was.
    pub fn declare(
        &mut self,
        root: u32,
        name: &[Shape],
        kind: Kind,
    ) -> Result<Result<(), BadDeclaration>, NoMemory>
        ensures exact { IfOk result (λ answer. (answer, self.new) ≡ variables.declare self.old root name.now kind) }
        ensures refused { IfOk result (λ answer. IsErr answer ↔ (is_below_macro (macro_at self.old root) name.now ≡ true)) }
        ensures err { OnErr result (self.new ≡ self.old) }
    {
        self.define(root, name, Declared::Typed(kind), false)
    }

    /// Gives a pattern a macro, and forgets exactly the variables that match it or that have a beginning that does.
    /// Below the name of a macro it is refused, and nothing changes.
    ///
    /// Want of memory leaves all as it was.
    pub fn define_macro(
        &mut self,
        root: u32,
        name: &[Shape],
        m: Shared<Macro>,
    ) -> Result<Result<(), BadDeclaration>, NoMemory>
        ensures exact { IfOk result (λ answer. (answer, self.new) ≡ variables.define_macro self.old root name.now m) }
        ensures refused { IfOk result (λ answer. IsErr answer ↔ (is_below_macro (macro_at self.old root) name.now ≡ true)) }
        ensures err { OnErr result (self.new ≡ self.old) }
    {
        self.define(root, name, Declared::Macro(m), true)
    }

    /// What a name stands for: the macro of its shortest beginning that is a macro's name, else the value of the
    /// variable.
    pub fn find(&self, alloc: Global, root: u32, name: &[Part]) -> Result<Found, NoMemory>
        ensures { IfOk result (λ found. found ≡ variables.find_of self.now root name.now) }
    {
        if let Some((m, parts)) = self.macro_of(root, name) {
            return Ok(Found::Macro(m.share()?, parts));
        }
        match self.variable_at(root, name) {
            Some(variable) => Ok(Found::Value(variable.value.copy(alloc)?)),
            None => Ok(Found::Nothing),
        }
    }

    /// The macro of the shortest beginning of a name that is a macro's name, and the number of parts in that. It takes no
    /// memory.
    pub fn macro_of(&self, root: u32, name: &[Part]) -> Option<(&Shared<Macro>, usize)>
        ensures { option_map (λ m. (m.0.now, m.1)) result ≡ variables.macro_of self.now root name.now }
    {
        match self.tags.get(&root) {
            Some(tag) => tag.declarations.first_macro(name),
            None => None,
        }
    }

    /// The declared type of a variable. It takes no memory.
    pub fn type_of(&self, root: u32, name: &[Part]) -> Option<Kind>
        ensures { result ≡ variables.type_of self.now root name.now }
    {
        match self.tags.get(&root) {
            Some(tag) => tag.declarations.kind_of(name),
            None => None,
        }
    }

    /// Gives a variable a value, if that is of its declared type, or a number where none is declared; else nothing
    /// changes. No unknowns are its own from then on.
    ///
    /// Want of memory leaves all as it was.
    pub fn store(
        &mut self,
        root: u32,
        name: &[Part],
        value: Value,
    ) -> Result<Result<(), WrongType>, NoMemory>
        ensures exact { IfOk result (λ answer. (answer, self.new) ≡ variables.store self.old root name.now value) }
        ensures refused { IfOk result (λ answer. IsErr answer ↔ (is_kind (wanted_kind self.old root name.now) (kind_of value) ≡ false)) }
        ensures err { OnErr result (self.new ≡ self.old) }
    {
        self.store_as(root, name, value, false)
    }

    /// The same, for a value whose unknowns were made for the variable, and are its own.
    pub fn store_made(
        &mut self,
        root: u32,
        name: &[Part],
        value: Value,
    ) -> Result<Result<(), WrongType>, NoMemory>
        ensures exact { IfOk result (λ answer. (answer, self.new) ≡ variables.store_made self.old root name.now value) }
        ensures refused { IfOk result (λ answer. IsErr answer ↔ (is_kind (wanted_kind self.old root name.now) (kind_of value) ≡ false)) }
        ensures err { OnErr result (self.new ≡ self.old) }
    {
        self.store_as(root, name, value, true)
    }

    /// The variable of a full name, if it has a value, whether or not a macro names a beginning of it. It takes no
    /// memory.
    pub fn variable_at(&self, root: u32, name: &[Part]) -> Option<&Variable>
        ensures { option_map (λ x. x.now) result ≡ variables.variable_at self.now root name.now }
    {
        match self.tags.get(&root) {
            Some(tag) => tag.variables.get(name),
            None => None,
        }
    }

    /// Gives a pattern a type or a macro, and forgets the variables that match it, or, where `below`, also those that
    /// have a beginning that does.
    fn define(
        &mut self,
        root: u32,
        name: &[Shape],
        declared: Declared,
        below: bool,
    ) -> Result<Result<(), BadDeclaration>, NoMemory>
        ensures exact { IfOk result (λ answer. (answer, self.new) ≡ variables.define self.old root name.now declared below) }
        ensures err { OnErr result (self.new ≡ self.old) }
    {
        add_tag(self.alloc, &mut self.tags, root)?;
        let Some(tag) = self.tags.get_mut(&root) else {
            unreachable!()
        };
        if tag.declarations.is_below_macro(name) {
            return Ok(Err(BadDeclaration));
        }
        tag.declarations.insert(self.alloc, name, declared)?;
        tag.variables.forget(name, below);
        Ok(Ok(()))
    }

    /// Gives a variable a value, if that is of its type.
    fn store_as(
        &mut self,
        root: u32,
        name: &[Part],
        value: Value,
        made: bool,
    ) -> Result<Result<(), WrongType>, NoMemory>
        ensures exact { IfOk result (λ answer. (answer, self.new) ≡ variables.store_as made self.old root name.now value) }
        ensures err { OnErr result (self.new ≡ self.old) }
    {
        add_tag(self.alloc, &mut self.tags, root)?;
        let Some(tag) = self.tags.get_mut(&root) else {
            unreachable!()
        };
        let wanted = tag.declarations.kind_of(name).unwrap_or(Kind::Numeric);
        if !has_kind(&value, wanted) {
            return Ok(Err(WrongType));
        }
        tag.variables
            .insert(self.alloc, name, Variable { value, made })?;
        Ok(Ok(()))
    }

    /// The unknowns that were made for the variables that match a pattern, or, where `below`, also for those that have
    /// a beginning that does; in increasing order, each once.
    pub fn made(
        &self,
        alloc: Global,
        root: u32,
        name: &[Shape],
        below: bool,
    ) -> Result<Serials, NoMemory>
        ensures { IfOk result (λ serials. serials ≡ variables.made self.now root name.now below) }
    {
        let mut serials = BTreeSet::new(alloc);
        if let Some(tag) = self.tags.get(&root) {
            tag.variables.add_made(name, below, &mut serials)?;
        }
        listed(alloc, &serials)
    }

    /// The unknowns that were made for one variable, in increasing order, each once.
    pub fn made_at(&self, alloc: Global, root: u32, name: &[Part]) -> Result<Serials, NoMemory>
        ensures { IfOk result (λ serials. serials ≡ variables.made_at self.now root name.now) }
    {
        let mut serials = BTreeSet::new(alloc);
        if let Some(variable) = self.variable_at(root, name) {
            add_made(variable, &mut serials)?;
        }
        listed(alloc, &serials)
    }

    /// Forgets all variables and declarations of a root. It takes no memory.
    pub fn forget(&mut self, root: u32)
        ensures { self.new ≡ forget self.old root }
    {
        self.tags.remove(&root);
    }

    /// A law: each pattern and each full name stands once.
    pub fn stand_once(&self)
        ensures { AreOnce self.now }
    {
        let _ = &self.tags;
    }
}

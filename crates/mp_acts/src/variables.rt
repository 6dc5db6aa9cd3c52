//! Variables: their roots, their declarations, how they are read, and what is assigned.

ghost use Rattle.std.specs.Prelude.{ℕ, ◌≡◌, ◌≢◌, ◌≤◌, ◌<◌, true, false, [], None, Ok, Err, length, vec_len, vec_capacity, IfOk, IfSome, OnOk, OnErr};
ghost use Rattle.std.specs.Option.{option_map};
ghost use Rattle.mp_solver.specs.States.{fresh_of};
ghost use Rattle.mp_values.specs.Outcome.{Gives, IsWhole, change};
ghost use Rattle.mp_values.specs.declared.fault.Fault.TheVariants.{NoMemory as WantOfMemory};
ghost use Rattle.mp_values.specs.declared.meaning.Meaning.TheVariants.{NewTag};
ghost use Rattle.mp_values.specs.declared.value.Value.TheVariants.{Numeric};
ghost use Rattle.mp_values.specs.Kinds.{kind_of, is_kind};
ghost use Rattle.mp_vartree.specs.Variables.{variable_at, wanted_kind, declare, define_macro};
ghost use Rattle.mp_ops.specs.Store.{reach_of_serial};
ghost use Rattle.mp_acts.specs.Counts.{IsWithin, greatest, nothing};
ghost use Rattle.mp_acts.specs.State.{unknown_count, symbol_count, internal_count, symbol_name, symbol_meaning, internal_value, counts};
ghost use Rattle.mp_acts.specs.Reach.{reach, reach_of_fresh, reach_of_part, reach_of_target, reach_of_macro, reach_of_meaning};
ghost use Rattle.mp_acts.specs.Numbers.{known_number};
ghost use Rattle.mp_acts.specs.Variables as variables;
ghost use Rattle.mp_acts.specs.Variables.{IsReadInPart, IsForgetting, is_tag};

use crate::event::Event;
use crate::{State, Target};
use mp_forms::Form;
use mp_macro::Defined;
use mp_report::{Cap, SourceError};
use mp_scaled::{Bytes, NoMemory, Shared};
use mp_solver::{Fresh, System, UNKNOWN_LIMIT};
use mp_values::{Fault, Kind, Level, Macro, Meaning, Value, has_kind};
use mp_vartree::{BadDeclaration, Part, Shape, Variable, variables_are_a_map};
use std::alloc::Global;
use std::snapshot::Snapshot;

impl State {
    /// The name of a symbol.
    pub fn symbol_name(&self, symbol: u32) -> &[u8]
        requires { symbol < symbol_count self.now }
        ensures { result.now ≡ symbol_name self.now symbol }
    {
        self.symbols.name_of(symbol)
    }

    /// The meaning of a symbol, which is lent.
    pub fn symbol_meaning(&self, symbol: u32) -> &Meaning
        requires { symbol < symbol_count self.now }
        ensures exact { result.now ≡ symbol_meaning self.now symbol }
        ensures within { IsWithin (reach_of_meaning result.now) (counts self.now) }
    {
        self.symbols.meaning(symbol)
    }

    /// The value of an internal.
    #[tactic(auto, unfolding(mp_ops::specs::Store::reach_of_terms))]
    pub fn internal(&self, k: u32) -> Value
        requires { k < internal_count self.now }
        ensures exact { result ≡ known_number (internal_value self.now k) }
        ensures within { IsWithin (reach result) (counts self.now) }
    {
        let units = self.symbols.internal(k);
        Value::Numeric(Form::constant_of(self.alloc, units))
    }

    /// The root of a tag; what has none gets the next, and is a tag from then on.
    #[tactic(auto, unfolding(crate::specs::Variables::root_of))]
    pub fn root_of(&mut self, symbol: u32) -> Result<u32, Fault>
        requires { symbol < symbol_count self.old }
        ensures exact { Gives result self.new (variables.root_of symbol self.old) }
        ensures whole { IsWhole result self.old self.new }
        ensures counts { IsWithin (counts self.old) (counts self.new) }
    {
        match self.symbol_meaning(symbol) {
            Meaning::Tag(root) => Ok(*root),
            _ => self.new_root(symbol),
        }
    }

    /// Makes a symbol the tag of variables that were never used before.
    fn new_root(&mut self, symbol: u32) -> Result<u32, Fault>
        requires { symbol < symbol_count self.old }
        ensures exact { Gives result self.new (variables.root_by symbol NewTag self.old) }
        ensures whole { IsWhole result self.old self.new }
        ensures counts { IsWithin (counts self.old) (counts self.new) }
    {
        let root = self.variables.next_root()?;
        self.use_root();
        self.set_meaning(symbol, Meaning::Tag(root));
        Ok(root)
    }

    /// The value of the variable of a root, whose tag that symbol is, with these parts behind it.
    ///
    /// A number without a value becomes a new unknown of the variable's name, `Limit` where there are 1,000,000; any other
    /// variable without a value gets a new slot.
    ///
    /// Want of memory may leave an unknown of that name, with its event, which no value speaks of.
    #[tactic(auto, unfolding(crate::specs::Variables::read))]
    pub fn do_read(&mut self, symbol: u32, root: u32, name: &[Part]) -> Result<Value, Fault>
        requires symbol { symbol < symbol_count self.old }
        requires name { IsWithin (greatest reach_of_part name.now) (counts self.old) }
        ensures exact { Gives result self.new (variables.read symbol root name.now self.old) }
        ensures part { result ≡ Err WantOfMemory → IsReadInPart symbol name.now self.old self.new }
        ensures within { IfOk result (λ v. IsWithin (reach v) (counts self.new)) }
        ensures counts { IsWithin (counts self.old) (counts self.new) }
    {
        match self.value(root, name) {
            Some(value) => Ok(value.copy(self.alloc)?),
            None => self.read_anew(symbol, root, name),
        }
    }

    /// The value of a variable, if it has one.
    fn value(&self, root: u32, name: &[Part]) -> Option<&Value>
        ensures held { option_map (λ v. v.now) result
            ≡ option_map (λ x. x.value) (variable_at self.now.variables root name.now) }
        ensures within { IfSome result (λ v. IsWithin (reach v.now) (counts self.now)) }
    {
        match self.variables.variable_at(root, name) {
            Some(variable) => Some(&variable.value),
            None => None,
        }
    }

    /// Gives a variable an unknown or a slot of its own.
    fn read_anew(&mut self, symbol: u32, root: u32, name: &[Part]) -> Result<Value, Fault>
        requires symbol { symbol < symbol_count self.old }
        requires name { IsWithin (greatest reach_of_part name.now) (counts self.old) }
        ensures exact { Gives result self.new
            (variables.value_of symbol root name.now None self.old) }
        ensures part { result ≡ Err WantOfMemory → IsReadInPart symbol name.now self.old self.new }
        ensures within { IfOk result (λ v. IsWithin (reach v) (counts self.new)) }
        ensures counts { IsWithin (counts self.old) (counts self.new) }
    {
        match self.wanted_kind(root, name) {
            Kind::Numeric => self.new_unknown(symbol, root, name),
            Kind::Boolean => self.new_slot(root, name, Kind::Boolean),
            Kind::Text => self.new_slot(root, name, Kind::Text),
        }
    }

    /// The type that a value must have to be stored: the declared one, else numeric.
    fn wanted_kind(&self, root: u32, name: &[Part]) -> Kind
        ensures { result ≡ wanted_kind self.now.variables root name.now }
    {
        self.variables.type_of(root, name).unwrap_or(Kind::Numeric)
    }

    /// Makes a variable a new unknown of its name.
    fn new_unknown(&mut self, symbol: u32, root: u32, name: &[Part]) -> Result<Value, Fault>
        requires symbol { symbol < symbol_count self.old }
        requires name { IsWithin (greatest reach_of_part name.now) (counts self.old) }
        requires kind { wanted_kind self.old.variables root name.now ≡ Kind.Numeric }
        ensures exact { Gives result self.new
            (variables.made_value symbol root name.now Kind.Numeric self.old) }
        ensures part { result ≡ Err WantOfMemory → IsReadInPart symbol name.now self.old self.new }
        ensures within { IfOk result (λ v. IsWithin (reach v) (counts self.new)) }
        ensures counts { IsWithin (counts self.old) (counts self.new) }
    {
        let text = self.variable_name(symbol, name)?;
        match self.fresh_unknown(&text)? {
            Fresh::Made(serial) => {
                let value = unknown_value(self.alloc, serial)?;
                self.keep_made(root, name, value)
            }
            Fresh::Limit => {
                let most = UNKNOWN_LIMIT as u32;
                Err(Fault::Refused(SourceError::Limit(Cap::Unknowns, most)))
            }
        }
    }

    /// One more unknown of that name, unless there are so many already. Its making is the newest event, for which there
    /// is room before it.
    fn fresh_unknown(&mut self, name: &Bytes) -> Result<Fresh, NoMemory>
        ensures exact { IfOk result (λ answer. (answer, self.new.unknowns)
            ≡ fresh_of self.old.unknowns name.now) }
        ensures made { (serial : ℕ) → result ≡ Ok (Fresh.Made serial)
            → self.new ≡ variables.with_unknown self.old name.now self.new.unknowns }
        ensures limit { result ≡ Ok Fresh.Limit → self.new ≡ self.old }
        ensures err { OnErr result (self.new ≡ self.old) }
        ensures within { IfOk result (λ answer. reach_of_fresh answer ≤ unknown_count self.new) }
        ensures counts { IsWithin (counts self.old) (counts self.new) }
    {
        self.events.reserve(1)?;
        let answer = self.system.fresh(name.as_slice())?;
        if let Fresh::Made(_) = answer {
            self.count += 1;
            self.events.push_reserved(Event::Fresh(Snapshot::of(name)));
        }
        Ok(answer)
    }

    /// Gives a variable a new slot, which is open. There is room for the slot before the variable speaks of it.
    #[tactic(auto, using(crate::proofs::WithinLemmas::with_slot))]
    fn new_slot(&mut self, root: u32, name: &[Part], kind: Kind) -> Result<Value, Fault>
        requires { wanted_kind self.old.variables root name.now ≡ kind }
        ensures exact { Gives result self.new (variables.made_slot self.old root name.now kind) }
        ensures whole { IsWhole result self.old self.new }
        ensures within { IfOk result (λ v. IsWithin (reach v) (counts self.new)) }
        ensures counts { IsWithin (counts self.old) (counts self.new) }
    {
        variables_are_a_map();
        let slot = room_for_slot(&mut self.slots)?;
        match self
            .variables
            .store_made(root, name, Value::Unset(kind, slot))?
        {
            Ok(()) => {
                self.slots.push_reserved(None);
                Ok(Value::Unset(kind, slot))
            }
            Err(_) => unreachable!(),
        }
    }

    /// Gives a variable a value that was made for it.
    fn keep_made(&mut self, root: u32, name: &[Part], value: Value) -> Result<Value, Fault>
        requires within { IsWithin (reach value) (counts self.old) }
        requires fits { is_kind (wanted_kind self.old.variables root name.now) (kind_of value)
            ≡ true }
        ensures exact { Gives result self.new (variables.read_anew self.old root name.now value) }
        ensures whole { IsWhole result self.old self.new }
        ensures within { IfOk result (λ v. IsWithin (reach v) (counts self.new)) }
        ensures counts { IsWithin (counts self.old) (counts self.new) }
    {
        variables_are_a_map();
        let copy = value.copy(self.alloc)?;
        match self.variables.store_made(root, name, copy)? {
            Ok(()) => Ok(value),
            Err(_) => unreachable!(),
        }
    }

    /// Declares the variables of a pattern, which lose their values: `BadDeclaration` below the name of a macro.
    ///
    /// A symbol that is no tag becomes one where the declaration is accepted. The unknowns that the variables were have
    /// no names any more. A declaration that is refused changes nothing.
    #[tactic(auto, unfolding(crate::specs::Variables::declare))]
    pub fn do_declare(&mut self, symbol: u32, name: &[Shape], kind: Kind) -> Result<(), Fault>
        requires { symbol < symbol_count self.old }
        ensures exact { Gives result self.new (variables.declare symbol name.now kind self.old) }
        ensures whole { IsWhole result self.old self.new }
        ensures counts { IsWithin (counts self.old) (counts self.new) }
    {
        let root = self.root_for(symbol)?;
        let serials = self.variables.made(self.alloc, root, name, false)?;
        match self.with_type(root, name, kind)? {
            Ok(()) => {
                self.become_tag(symbol, root, serials.as_slice());
                Ok(())
            }
            Err(_) => Err(Fault::Refused(SourceError::BadDeclaration)),
        }
    }

    /// Gives the variables of a pattern a macro; these and all below them lose their values: `BadDeclaration` below the
    /// name of a macro.
    ///
    /// A symbol that is no tag becomes one where the definition is accepted. The unknowns that the variables were have
    /// no names any more. A definition that is refused changes nothing.
    #[tactic(auto, unfolding(crate::specs::Variables::define_variable))]
    fn define_variable(
        &mut self,
        symbol: u32,
        name: &[Shape],
        m: Shared<Macro>,
    ) -> Result<(), Fault>
        requires symbol { symbol < symbol_count self.old }
        requires within { IsWithin (reach_of_macro m) (counts self.old) }
        ensures exact { Gives result self.new (variables.define_variable symbol name.now m self.old) }
        ensures whole { IsWhole result self.old self.new }
        ensures counts { IsWithin (counts self.old) (counts self.new) }
    {
        let root = self.root_for(symbol)?;
        let serials = self.variables.made(self.alloc, root, name, true)?;
        match self.with_macro(root, name, m)? {
            Ok(()) => {
                self.become_tag(symbol, root, serials.as_slice());
                Ok(())
            }
            Err(_) => Err(Fault::Refused(SourceError::BadDeclaration)),
        }
    }

    /// What a definition does: a symbol gets the macro, or the variables of a pattern do, which lose their values with
    /// all below them: `BadDeclaration` below the name of a macro, and then nothing changes.
    #[tactic(auto, unfolding(crate::specs::Variables::define))]
    pub fn do_define(&mut self, made: Defined) -> Result<(), Fault>
        requires symbol { made.symbol < symbol_count self.old }
        requires within { IsWithin (reach_of_macro made.value) (counts self.old) }
        ensures exact { Gives result self.new (variables.define made self.old) }
        ensures whole { IsWhole result self.old self.new }
        ensures counts { IsWithin (counts self.old) (counts self.new) }
    {
        let Defined {
            symbol,
            parts,
            value,
        } = made;
        let level = value.level;
        let m = Shared::new(self.alloc, value)?;
        match level {
            Level::Variable | Level::Suffixed => self.define_variable(symbol, parts.as_slice(), m),
            Level::Plain | Level::Primary | Level::Secondary | Level::Tertiary => {
                self.set_meaning(symbol, Meaning::Macro(m));
                Ok(())
            }
        }
    }

    /// The macro that a name begins with, which is lent: that of the shortest beginning that is a macro's name.
    pub fn macro_named(&self, root: u32, name: &[Part]) -> Option<&Shared<Macro>>
        ensures exact { option_map (λ m. m.now) result ≡ variables.macro_named self.now root name.now }
        ensures within { IfSome result (λ m. IsWithin (reach_of_macro m.now) (counts self.now)) }
    {
        match self.variables.macro_of(root, name) {
            Some((m, _)) => Some(m),
            None => None,
        }
    }

    /// The root that a symbol has, or else the next, where there is one.
    fn root_for(&self, symbol: u32) -> Result<u32, NoMemory>
        requires { symbol < symbol_count self.now }
        ensures root { IfOk result (λ root. root ≡ variables.root_in self.now (symbol_meaning self.now symbol)) }
        ensures free { OnOk result (is_tag (symbol_meaning self.now symbol) ≡ false
            → self.now.variables.roots ≢ 4294967295) }
    {
        match self.symbol_meaning(symbol) {
            Meaning::Tag(root) => Ok(*root),
            _ => self.variables.next_root(),
        }
    }

    /// Gives a pattern a type; the names of unknowns stay.
    fn with_type(
        &mut self,
        root: u32,
        name: &[Shape],
        kind: Kind,
    ) -> Result<Result<(), BadDeclaration>, NoMemory>
        ensures exact { IfOk result (λ answer. (answer, self.new.variables)
            ≡ declare self.old.variables root name.now kind) }
        ensures rest { self.new ≡ record self.old { variables = self.new.variables } }
        ensures err { OnErr result (self.new ≡ self.old) }
        ensures counts { IsWithin (counts self.old) (counts self.new) }
    {
        variables_are_a_map();
        let answer = self.variables.declare(root, name, kind)?;
        Ok(answer)
    }

    /// Gives a pattern a macro; the names of unknowns stay.
    fn with_macro(
        &mut self,
        root: u32,
        name: &[Shape],
        m: Shared<Macro>,
    ) -> Result<Result<(), BadDeclaration>, NoMemory>
        requires { IsWithin (reach_of_macro m) (counts self.old) }
        ensures exact { IfOk result (λ answer. (answer, self.new.variables)
            ≡ define_macro self.old.variables root name.now m) }
        ensures rest { self.new ≡ record self.old { variables = self.new.variables } }
        ensures err { OnErr result (self.new ≡ self.old) }
        ensures counts { IsWithin (counts self.old) (counts self.new) }
    {
        variables_are_a_map();
        let answer = self.variables.define_macro(root, name, m)?;
        Ok(answer)
    }

    /// Makes a symbol the tag of its root, which is used up where it was the next. These unknowns have no names any
    /// more.
    fn become_tag(&mut self, symbol: u32, root: u32, serials: &[u32])
        requires symbol { symbol < symbol_count self.old }
        requires free { is_tag (symbol_meaning self.old symbol) ≡ false
            → self.old.variables.roots ≢ 4294967295 }
        ensures exact { self.new ≡ variables.tagged symbol root (symbol_meaning self.old symbol)
            (variables.nameless self.old serials.now) }
        ensures counts { IsWithin (counts self.old) (counts self.new) }
    {
        self.give_up(serials);
        let is_tag = matches!(self.symbol_meaning(symbol), Meaning::Tag(_));
        if !is_tag {
            self.use_root();
        }
        self.set_meaning(symbol, Meaning::Tag(root));
    }

    /// Uses up the next root.
    fn use_root(&mut self)
        requires { self.old.variables.roots ≢ 4294967295 }
        ensures exact { self.new ≡ variables.with_next_root self.old }
        ensures counts { IsWithin (counts self.old) (counts self.new) }
    {
        let Ok(_) = self.variables.new_root() else {
            unreachable!()
        };
    }

    /// Takes the names of unknowns away.
    fn give_up(&mut self, serials: &[u32])
        ensures exact { self.new ≡ variables.nameless self.old serials.now }
        ensures rest { self.new ≡ record self.old { unknowns = record self.old.unknowns { names = self.new.unknowns.names } } }
        ensures counts { IsWithin (counts self.old) (counts self.new) }
    {
        unname_all(&mut self.system, serials);
    }

    /// Forgets all variables and declarations of a root; the unknowns that they were have no names any more.
    #[tactic(auto, unfolding(crate::specs::Variables::without_root))]
    pub(crate) fn forget_root(&mut self, root: u32) -> Result<(), NoMemory>
        ensures exact { OnOk result (self.new ≡ variables.without_root root self.old) }
        ensures rest { IsForgetting self.old self.new }
        ensures err { OnErr result (self.new ≡ self.old) }
        ensures counts { IsWithin (counts self.old) (counts self.new) }
    {
        variables_are_a_map();
        let serials = self.variables.made(self.alloc, root, &[], true)?;
        self.variables.forget(root);
        self.give_up(serials.as_slice());
        Ok(())
    }

    /// Assigns a value to a variable, of whose type it must be, or a known number to an internal: `WrongType`, `NotKnown`.
    ///
    /// The unknowns that were made for the variable have no names any more.
    #[tactic(auto, unfolding(crate::specs::Variables::assign))]
    pub fn do_assign(&mut self, to: &Target, value: &Value) -> Result<(), Fault>
        requires target { IsWithin (reach_of_target to.now) (counts self.old) }
        requires value { IsWithin (reach value.now) (counts self.old) }
        ensures exact { Gives result self.new (variables.assign to.now value.now self.old) }
        ensures whole { IsWhole result self.old self.new }
        ensures counts { IsWithin (counts self.old) (counts self.new) }
    {
        match to {
            Target::Variable(root, name) => self.assign_variable(*root, name.as_slice(), value),
            Target::Internal(k) => self.assign_internal(*k, value),
        }
    }

    fn assign_internal(&mut self, k: u32, value: &Value) -> Result<(), Fault>
        requires internal { k < internal_count self.old }
        requires value { IsWithin (reach value.now) (counts self.old) }
        ensures exact { Gives result self.new (variables.assign_internal k value.now self.old) }
        ensures whole { IsWhole result self.old self.new }
        ensures counts { IsWithin (counts self.old) (counts self.new) }
    {
        let form = self.store().operand(b":=", value)?;
        let value = self.store().known(b":=", &form)?;
        self.set_internal(k, value);
        Ok(())
    }

    fn assign_variable(&mut self, root: u32, name: &[Part], value: &Value) -> Result<(), Fault>
        requires { IsWithin (reach value.now) (counts self.old) }
        ensures exact { Gives result self.new
            (variables.assign_variable root name.now value.now self.old) }
        ensures whole { IsWhole result self.old self.new }
        ensures counts { IsWithin (counts self.old) (counts self.new) }
    {
        if !has_kind(value, self.wanted_kind(root, name)) {
            return Err(Fault::wrong_type(self.alloc, b":="));
        }
        let value = self.current(value)?;
        self.replace(root, name, value)
    }

    /// The value once more, a number brought up to date.
    fn current(&self, value: &Value) -> Result<Value, Fault>
        requires { IsWithin (reach value.now) (counts self.now) }
        ensures exact { Gives result self.now (variables.current value.now self.now) }
        ensures within { IfOk result (λ v. IsWithin (reach v) (counts self.now)) }
        ensures kind { IfOk result (λ v. kind_of v ≡ kind_of value.now) }
    {
        match value {
            Value::Numeric(form) => Ok(Value::Numeric(self.up_to_date(form)?)),
            Value::Boolean(_) | Value::Text(_) | Value::Unset(..) | Value::Vacuous => {
                Ok(value.copy(self.alloc)?)
            }
        }
    }

    /// Gives a variable another value. The unknowns that were made for it have no names any more.
    fn replace(&mut self, root: u32, name: &[Part], value: Value) -> Result<(), Fault>
        requires within { IsWithin (reach value) (counts self.old) }
        requires fits { is_kind (wanted_kind self.old.variables root name.now) (kind_of value)
            ≡ true }
        ensures exact { Gives result self.new
            (change (λ s. variables.replaced s root name.now value) self.old) }
        ensures whole { IsWhole result self.old self.new }
        ensures counts { IsWithin (counts self.old) (counts self.new) }
    {
        variables_are_a_map();
        let serials = self.variables.made_at(self.alloc, root, name)?;
        match self.variables.store(root, name, value)? {
            Ok(()) => {
                self.give_up(serials.as_slice());
                Ok(())
            }
            Err(_) => unreachable!(),
        }
    }
}

/// The unknown itself, as a value.
#[tactic(auto, unfolding(mp_ops::specs::Store::reach_of_terms))]
fn unknown_value(alloc: Global, serial: u32) -> Result<Value, NoMemory>
    ensures exact { IfOk result (λ v. v ≡ Numeric (variables.unknown_form serial)) }
    ensures reaches { IfOk result (λ v. reach v ≡ record nothing { unknowns = reach_of_serial serial }) }
{
    Ok(Value::Numeric(Form::unknown(alloc, serial)?))
}

/// Makes room for one more slot, and answers its number, where the numbers reach that far.
fn room_for_slot(slots: &mut Vec<Option<Value>>) -> Result<u32, NoMemory>
    ensures slot { IfOk result (λ slot. slot ≡ length slots.old.items) }
    ensures room { OnOk result (vec_len slots.new < vec_capacity slots.new) }
    ensures same { slots.new.items ≡ slots.old.items }
{
    let Ok(slot) = u32::try_from(slots.len()) else {
        return Err(NoMemory);
    };
    slots.reserve(1)?;
    Ok(slot)
}

/// Takes the name of an unknown away; a number that is none of an unknown changes nothing.
fn unname(system: &mut System, serial: u32)
    ensures { system.new ≡ record system.old {
      unknowns = variables.without_name system.old.unknowns serial;
    } }
{
    if system.has_unknown(serial) {
        system.unname(serial);
    }
}

/// Takes the names of unknowns away.
fn unname_all(system: &mut System, serials: &[u32])
    ensures { system.new ≡ record system.old {
      unknowns = variables.without_names system.old.unknowns serials.now;
    } }
{
    'serials: for serial in serials {
        unname(system, *serial);
    }
}

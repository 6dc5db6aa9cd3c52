use mp_forms::Form;
use mp_scaled::{Listing, Shared, SharedSlice};
use mp_values::{Items, Kind, Level, Macro, Value};
use mp_vartree::{
    BadDeclaration, Found, Part, Shape, Vars, WrongType, one_pattern_matches, variables_are_a_map,
};
use std::alloc::Global;
use std::test::Fail;

/// Names behind a root.
type Name = &'static [Part];

type Pattern = &'static [Shape];

/// A value, by a number.
#[derive(Clone, Copy)]
enum Plain {
    Number(i32),
    Unknown(u32),
    Text,
    Boolean(bool),
    Unset(Kind),
    Vacuous,
}

/// A call, and what it must answer.
#[derive(Clone, Copy)]
enum Call {
    Declare(u32, Pattern, Kind, bool),
    Define(u32, Pattern, bool),
    Store(u32, Name, Plain, bool),
    StoreMade(u32, Name, Plain, bool),
    Value(u32, Name, i32),
    Macro(u32, Name, usize),
    Nothing(u32, Name),
    Type(u32, Name, Option<Kind>),
    Made(u32, Pattern, bool, &'static [u32]),
    MadeAt(u32, Name, &'static [u32]),
    Forget(u32),
}

fn value_of(alloc: Global, plain: Plain) -> Result<Value, Fail> {
    Ok(match plain {
        Plain::Number(value) => Value::Numeric(Form::constant_of(alloc, value)),
        Plain::Unknown(serial) => Value::Numeric(Form::unknown(alloc, serial)?),
        Plain::Text => Value::Text(SharedSlice::from_vec(Vec::new(alloc))?),
        Plain::Boolean(truth) => Value::Boolean(truth),
        Plain::Unset(kind) => Value::Unset(kind, 0),
        Plain::Vacuous => Value::Vacuous,
    })
}

fn macro_of(alloc: Global) -> Result<Shared<Macro>, Fail> {
    Ok(Shared::new(
        alloc,
        Macro {
            params: Listing::new(alloc),
            body: Shared::new(alloc, Items::new(alloc))?,
            level: Level::Variable,
        },
    )?)
}

fn is_value(found: &Found, constant: i32) -> bool {
    match found {
        Found::Value(Value::Numeric(form)) => form.constant() == constant,
        _ => false,
    }
}

fn is_macro(found: &Found, parts: usize) -> bool {
    match found {
        Found::Macro(m, count) => m.get().level == Level::Variable && *count == parts,
        _ => false,
    }
}

/// The number of parts that name the macro on the way along a name.
fn parts_of_macro(vars: &Vars, root: u32, name: Name) -> Option<usize> {
    match vars.macro_of(root, name) {
        Some((_, count)) => Some(count),
        None => None,
    }
}

/// Makes the call, and says whether it answered what it must.
fn answers(alloc: Global, vars: &mut Vars, call: Call) -> Result<bool, Fail> {
    Ok(match call {
        Call::Declare(root, name, kind, ok) => vars.declare(root, name, kind)?
            == if ok { Ok(()) } else { Err(BadDeclaration) },
        Call::Define(root, name, ok) => vars.define_macro(root, name, macro_of(alloc)?)?
            == if ok { Ok(()) } else { Err(BadDeclaration) },
        Call::Store(root, name, value, ok) => vars.store(root, name, value_of(alloc, value)?)?
            == if ok { Ok(()) } else { Err(WrongType) },
        Call::StoreMade(root, name, value, ok) => vars.store_made(
            root,
            name,
            value_of(alloc, value)?,
        )? == if ok { Ok(()) } else { Err(WrongType) },
        Call::Value(root, name, constant) => is_value(&vars.find(alloc, root, name)?, constant),
        Call::Macro(root, name, parts) => {
            is_macro(&vars.find(alloc, root, name)?, parts)
                && parts_of_macro(vars, root, name) == Some(parts)
        }
        Call::Nothing(root, name) => match vars.find(alloc, root, name)? {
            Found::Nothing => parts_of_macro(vars, root, name).is_none(),
            _ => false,
        },
        Call::Type(root, name, kind) => vars.type_of(root, name) == kind,
        Call::Made(root, name, below, serials) => {
            vars.made(alloc, root, name, below)?.as_slice() == serials
        }
        Call::MadeAt(root, name, serials) => {
            vars.made_at(alloc, root, name)?.as_slice() == serials
        }
        Call::Forget(root) => {
            vars.forget(root);
            true
        }
    })
}

const A: Part = Part::Sym(5);

const B: Part = Part::Sym(6);

const ONE: Part = Part::Sub(65536);

const TWO: Part = Part::Sub(131072);

const LEAST: Part = Part::Sub(i32::MIN);

const MOST: Part = Part::Sub(i32::MAX);

const PA: Shape = Shape::Sym(5);

const PB: Shape = Shape::Sym(6);

const ANY: Shape = Shape::Any;

/// Calls one after another on the same variables. The test fails with the number of a row, counted from 0.
const CALLS: [Call; 75] = [
    // nothing is known
    Call::Nothing(0, &[]),
    Call::Type(0, &[A], None),
    Call::Made(0, &[], true, &[]),
    Call::MadeAt(0, &[], &[]),
    // numbers where nothing is declared
    Call::Store(0, &[], Plain::Number(1), true),
    Call::Store(0, &[A], Plain::Boolean(true), false),
    Call::Store(0, &[A], Plain::Text, false),
    Call::Store(0, &[A], Plain::Vacuous, false),
    Call::Store(0, &[A], Plain::Unset(Kind::Text), false),
    Call::Store(0, &[A], Plain::Unset(Kind::Numeric), true),
    Call::Nothing(1, &[]),
    Call::Value(0, &[], 1),
    // subscripts, and others beside and below them
    Call::StoreMade(0, &[ONE], Plain::Unknown(9), true),
    Call::StoreMade(0, &[TWO], Plain::Unknown(4), true),
    Call::StoreMade(0, &[LEAST, MOST], Plain::Unknown(7), true),
    Call::StoreMade(0, &[ONE, A], Plain::Unknown(3), true),
    Call::StoreMade(0, &[ONE, B], Plain::Unknown(8), true),
    Call::StoreMade(0, &[B, ONE], Plain::Unknown(5), true),
    Call::StoreMade(1, &[ONE], Plain::Unknown(1), true),
    Call::Store(0, &[TWO, A], Plain::Number(22), true),
    Call::Made(0, &[ANY], false, &[4, 9]),
    Call::Made(0, &[ANY], true, &[3, 4, 7, 8, 9]),
    Call::Made(0, &[ANY, PA], false, &[3]),
    Call::Made(0, &[ANY, ANY], false, &[7]),
    Call::Made(0, &[PB], true, &[5]),
    Call::Made(0, &[PA], true, &[]),
    Call::Made(0, &[], true, &[3, 4, 5, 7, 8, 9]),
    Call::Made(0, &[], false, &[]),
    Call::MadeAt(0, &[ONE], &[9]),
    Call::MadeAt(0, &[TWO, A], &[]),
    // a value in place of an unknown
    Call::Store(0, &[ONE], Plain::Number(11), true),
    Call::MadeAt(0, &[ONE], &[]),
    // a declaration forgets what matches, and nothing else
    Call::Declare(0, &[ANY, PA], Kind::Text, true),
    Call::Nothing(0, &[ONE, A]),
    Call::Nothing(0, &[TWO, A]),
    Call::Value(0, &[ONE], 11),
    Call::Made(0, &[], true, &[4, 5, 7, 8]),
    Call::Type(0, &[LEAST, A], Some(Kind::Text)),
    Call::Type(0, &[LEAST, B], None),
    Call::Store(0, &[ONE, A], Plain::Number(0), false),
    Call::Store(0, &[ONE, A], Plain::Text, true),
    Call::Declare(0, &[], Kind::Boolean, true),
    Call::Nothing(0, &[]),
    Call::Store(0, &[], Plain::Boolean(false), true),
    // a macro forgets what is at and below its name, and hides what is declared there
    Call::Define(0, &[ANY, PB], true),
    Call::Made(0, &[], true, &[4, 5, 7]),
    Call::Macro(0, &[MOST, B], 2),
    Call::Macro(0, &[ONE, B, ONE], 2),
    Call::Declare(0, &[ANY, PB, ANY], Kind::Numeric, false),
    Call::Define(0, &[ANY], true),
    Call::Macro(0, &[ONE, B, ONE], 1),
    Call::Macro(0, &[ONE], 1),
    Call::Type(0, &[ONE, A], Some(Kind::Text)),
    Call::Define(0, &[ANY, PB], false),
    Call::Declare(0, &[ANY], Kind::Numeric, true),
    Call::Macro(0, &[ONE, B, ONE], 2),
    Call::Made(0, &[], true, &[5]),
    // a root that is forgotten
    Call::Forget(0),
    Call::Nothing(0, &[ONE, B]),
    Call::Made(1, &[], true, &[1]),
    // names of 50 parts
    Call::Declare(2, &[PA; 50], Kind::Numeric, true),
    Call::Type(2, &[A; 50], Some(Kind::Numeric)),
    Call::Type(2, &[A; 49], None),
    Call::StoreMade(2, &[A; 50], Plain::Unknown(50), true),
    Call::StoreMade(2, &[ONE; 49], Plain::Unknown(49), true),
    Call::StoreMade(2, &[ONE; 50], Plain::Unknown(51), true),
    Call::MadeAt(2, &[A; 50], &[50]),
    Call::Made(2, &[ANY; 50], false, &[51]),
    Call::Made(2, &[ANY; 49], true, &[49, 51]),
    Call::Made(2, &[PA; 25], true, &[50]),
    Call::Define(2, &[ANY; 50], true),
    Call::Macro(2, &[ONE; 50], 50),
    Call::Define(2, &[PA; 25], true),
    Call::Macro(2, &[A; 50], 25),
    Call::Made(2, &[], true, &[49]),
];

#[test]
fn calls_one_after_another(rt: HostRuntime) -> Result<(), Fail> {
    let alloc = rt.alloc();
    let mut vars = Vars::new(alloc);
    for (row, call) in CALLS.iter().enumerate() {
        if !answers(alloc, &mut vars, *call)? {
            return Err(Fail::new(row));
        }
    }
    vars.stand_once();
    Ok(())
}

#[test]
fn roots_count_from_0(rt: HostRuntime) -> Result<(), Fail> {
    let mut vars = Vars::new(rt.alloc());
    let (first, second) = (vars.new_root()?, vars.new_root()?);
    assert!(rt; first == 0 && second == 1);
    Ok(())
}

#[test]
fn laws(_rt: HostRuntime) -> Result<(), Fail> {
    one_pattern_matches();
    variables_are_a_map();
    Ok(())
}

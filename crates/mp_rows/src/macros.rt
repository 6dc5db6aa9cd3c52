//! Rows of `mp_macro`: that a definition, and a body with its arguments, find memory.

ghost use Rattle.std.specs.Prelude.{All, IfOk, length};
ghost use Rattle.mp_macro.specs.Numbered.{IsBelow};

use mp_macro::{GroupSymbols, read_definition, substitute};
use mp_scaled::{NoMemory, Shared};
use mp_symbols::Symbols;
use mp_values::{Arguments, Definition, Fault, Item, Items, Level, Meaning, Parameter, Word};
use std::alloc::Global;
use std::test::Fail;

const GROUP: GroupSymbols = GroupSymbols { begin: 0, end: 1 };

/// The names of some words, and of the symbols that a definition names.
fn table_of(alloc: Global) -> Result<Symbols<Meaning>, NoMemory> {
    let mut table = Symbols::new(alloc);
    table.number_of(b"begingroup", Meaning::Word(Word::Begingroup))?;
    table.number_of(b"endgroup", Meaning::Word(Word::Endgroup))?;
    table.number_of(b"=", Meaning::Word(Word::Equals))?;
    table.number_of(b"enddef", Meaning::Word(Word::Enddef))?;
    table.number_of(b"text", Meaning::Word(Word::Parameter(Parameter::Text)))?;
    table.number_of(b"a", Meaning::NewTag)?;
    table.number_of(b"x", Meaning::NewTag)?;
    Ok(table)
}

/// `a text x=x a x enddef`
const SYMBOLS: [u32; 8] = [5, 4, 6, 2, 6, 5, 6, 3];

/// These symbols, which are the table's, as items.
fn items_of(alloc: Global, symbols: &[u32], table: &Symbols<Meaning>) -> Result<Items, Fail>
    ensures { IfOk result (λ items. All (IsBelow (length table.now.names)) items) }
{
    let mut items = Items::new(alloc);
    'symbols: for symbol in symbols {
        if !table.has(*symbol) {
            return Err(Fail::new(3));
        }
        items.push(Item::Symbol(*symbol))?;
    }
    Ok(items)
}

fn are_symbols(items: &Items, symbols: &[u32]) -> bool {
    let items = items.as_slice();
    items.len() == symbols.len()
        && items.iter().zip(symbols).all(|(
            item,
            symbol,
        )| matches!(item, Item::Symbol(found) if found == symbol))
}

#[test]
fn a_definition_and_its_call(rt: HostRuntime) -> Result<(), Fail> {
    let alloc = rt.alloc();
    let table = table_of(alloc)?;
    let items = items_of(alloc, &SYMBOLS, &table)?;
    let defined = match read_definition(
        alloc,
        Definition::Vardef,
        GROUP,
        items.as_slice(),
        &table,
    ) {
        Ok(defined) => defined,
        Err(Fault::NoMemory) => return Err(Fail::new(0)),
        Err(Fault::Refused(_)) => return Err(Fail::new(1)),
    };
    assert_eq!(&rt; defined.symbol, 5, "the tag");
    assert!(&rt; matches!(defined.value.level, Level::Variable), "the level");
    let mut arguments = Arguments::new(alloc);
    for _ in 0..3 {
        arguments.push(Shared::new(alloc, Items::new(alloc))?)?;
    }
    arguments.push(Shared::new(alloc, items_of(alloc, &[2, 3], &table)?)?)?;
    let call = substitute(alloc, defined.value.body.get(), &arguments)?;
    if are_symbols(&call, &[0, 2, 3, 5, 2, 3, 1]) {
        Ok(())
    } else {
        Err(Fail::new(2))
    }
}

//! The bodies of definitions.

ghost use Rattle.std.specs.Prelude.{◌≡◌, ◌+◌, ◌<◌, ◌≤◌, IfSome, length};
ghost use Rattle.mp_values.specs.Ends.{IsNoEnd};
ghost use Rattle.mp_values.specs.Outcome.{Gives};
ghost use Rattle.mp_values.specs.declared.item.Item.TheVariants as item_variants;
ghost use Rattle.mp_macro.specs.Bodies as bodies;
ghost use Rattle.mp_macro.specs.Numbered.{IsBelow};
ghost use Rattle.mp_macro.specs.Signs.{sign_of_symbol};

use crate::reader::MacroReader;
use crate::sign::{Sign, sign_of_symbol};
use crate::stage::Stage;
use mp_scaled::NoMemory;
use mp_symbols::Symbols;
use mp_values::{CalledName, Definition, Fault, Item, Meaning, Word};

/// The last place of a symbol among these, counted from 0.
fn last_place(symbol: u32, names: &[u32]) -> Option<usize>
    ensures place { result ≡ bodies.last_place 0 symbol names.now }
    ensures within { IfSome result (λ place. place < length names.now) }
{
    let mut found = None;
    'names: for (place, name) in names.iter().enumerate() {
        if *name == symbol {
            found = Some(place);
        }
    }
    found
}

fn first_parameter(word: Definition) -> u8
    ensures number { result ≡ bodies.first_parameter word }
    ensures small { result ≤ 3 }
{
    match word {
        Definition::Vardef => 3,
        _ => 0,
    }
}

fn called_by(word: Definition, suffixed: bool, part: CalledName) -> Option<u8>
    ensures { result ≡ bodies.called_by word suffixed part }
{
    match (word, part) {
        (Definition::Vardef, CalledName::Before) => Some(0),
        (Definition::Vardef, CalledName::Last) => Some(1),
        (Definition::Vardef, CalledName::Behind) if suffixed => Some(2),
        _ => None,
    }
}

impl MacroReader {
    /// An item of a body, inside so many other definitions.
    pub(crate) fn body_item(
        &mut self,
        table: &Symbols<Meaning>,
        depth: u32,
        item: Item,
    ) -> Result<(), Fault>
        requires end { IsNoEnd item }
        requires symbol { IsBelow (length table.now.names) item }
        ensures { Gives result self.new (bodies.body table.now.names depth item self.old) }
    {
        match item {
            Item::Symbol(symbol) => self.body_symbol(table, symbol, depth),
            item => self.with_item(item),
        }
    }

    fn with_item(&mut self, item: Item) -> Result<(), Fault>
        requires { IsNoEnd item }
        ensures { Gives result self.new (bodies.with_item item self.old) }
    {
        self.body.push(item)?;
        Ok(())
    }

    fn with_word(&mut self, symbol: u32, depth: u32) -> Result<(), Fault>
        ensures { Gives result self.new (bodies.with_word (item_variants.Symbol symbol) depth self.old) }
    {
        self.body.push(Item::Symbol(symbol))?;
        self.next = Stage::Body(depth);
        Ok(())
    }

    fn end_body(&mut self) -> Result<(), Fault>
        ensures { Gives result self.new (bodies.end_body self.old) }
    {
        if let Definition::Vardef = self.word {
            self.body.push(Item::Symbol(self.group.end))?;
        }
        self.next = Stage::Nothing;
        Ok(())
    }

    fn enddef(&mut self, symbol: u32, depth: u32) -> Result<(), Fault>
        ensures { Gives result self.new (bodies.enddef symbol depth self.old) }
    {
        if depth == 0 {
            return self.end_body();
        }
        self.with_word(symbol, depth - 1)
    }

    /// A definition inside others. Want of memory is also answered where there are 2^32 of them.
    fn inner(&mut self, symbol: u32, depth: u32) -> Result<(), Fault>
        ensures { Gives result self.new (bodies.with_word (item_variants.Symbol symbol) (depth + 1) self.old) }
    {
        match depth.checked_add(1) {
            Some(deeper) => self.with_word(symbol, deeper),
            None => Err(Fault::NoMemory),
        }
    }

    fn word(&mut self, symbol: u32, depth: u32, sign: Sign) -> Result<(), Fault>
        ensures { Gives result self.new (bodies.word_by symbol depth (bodies.count_of sign) self.old) }
    {
        match sign {
            Sign::Word(Word::Definition(_)) => self.inner(symbol, depth),
            Sign::Word(Word::Enddef) => self.enddef(symbol, depth),
            _ => self.with_item(Item::Symbol(symbol)),
        }
    }

    fn body_symbol(
        &mut self,
        table: &Symbols<Meaning>,
        symbol: u32,
        depth: u32,
    ) -> Result<(), Fault>
        requires { symbol < length table.now.names }
        ensures { Gives result self.new (bodies.body_symbol symbol depth (sign_of_symbol table.now.names symbol) self.old) }
    {
        let sign = sign_of_symbol(table, symbol);
        match self.parameter(symbol, sign) {
            Some(number) => self.with_item(Item::Param(number)),
            None => self.word(symbol, depth, sign),
        }
    }

    /// The parameter that a symbol stands for.
    fn parameter(&self, symbol: u32, sign: Sign) -> Option<u8>
        ensures { result ≡ bodies.parameter_by self.now symbol sign }
    {
        match self.own_parameter(symbol) {
            Some(number) => Some(number),
            None => self.called_parameter(sign),
        }
    }

    fn own_parameter(&self, symbol: u32) -> Option<u8>
        ensures { result ≡ bodies.own_parameter self.now symbol }
    {
        match last_place(symbol, self.names.as_slice()) {
            Some(place) => Some(first_parameter(self.word) + place as u8),
            None => None,
        }
    }

    fn called_parameter(&self, sign: Sign) -> Option<u8>
        ensures { result ≡ bodies.called_parameter self.now sign }
    {
        match sign {
            Sign::Word(Word::CalledName(part)) => called_by(self.word, self.suffixed, part),
            _ => None,
        }
    }
}

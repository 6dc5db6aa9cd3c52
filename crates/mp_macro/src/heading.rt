//! The headings of definitions.

ghost use Rattle.std.specs.Prelude.{◌≡◌, false, length};
ghost use Rattle.mp_report.specs.declared.error.SourceError.TheVariants as error;
ghost use Rattle.mp_values.specs.Outcome.{Gives, IsFault};
ghost use Rattle.mp_macro.specs.Headings as headings;
ghost use Rattle.mp_macro.specs.Definitions as definitions;
ghost use Rattle.mp_macro.specs.Numbered.{IsBelow};
ghost use Rattle.mp_macro.specs.Signs as signs;

use crate::limits::PARAMETER_LIMIT;
use crate::reader::MacroReader;
use crate::sign::{Sign, name_of, sign_of, stood};
use crate::stage::Stage;
use mp_report::{Cap, SourceError};
use mp_symbols::Symbols;
use mp_values::{
    CalledName, Definition, Delimiters, Fault, Item, Meaning, ParamKind, Parameter, Word,
};
use mp_vartree::{PART_LIMIT, Shape};

/// What a parameter between delimiters can take.
fn delimited_kind(word: Parameter) -> Option<ParamKind>
    ensures { result ≡ headings.delimited_kind word }
{
    match word {
        Parameter::Expr => Some(ParamKind::Expr),
        Parameter::Suffix => Some(ParamKind::Suffix),
        Parameter::Text => Some(ParamKind::Text),
        _ => None,
    }
}

fn delimited_kind_in(sign: Sign) -> Option<ParamKind>
    ensures { result ≡ headings.delimited_kind_in sign }
{
    match sign {
        Sign::Word(Word::Parameter(word)) => delimited_kind(word),
        _ => None,
    }
}

/// What a parameter without delimiters can take.
fn bare_kind(word: Parameter) -> ParamKind
    ensures { result ≡ headings.bare_kind word }
{
    match word {
        Parameter::Primary => ParamKind::Primary,
        Parameter::Secondary => ParamKind::Secondary,
        Parameter::Tertiary => ParamKind::Tertiary,
        Parameter::Expr => ParamKind::BareExpr,
        Parameter::Suffix => ParamKind::BareSuffix,
        Parameter::Text => ParamKind::BareText,
    }
}

fn are_pair(a: Delimiters, b: Delimiters) -> bool
    ensures { result ≡ headings.are_pair a b }
{
    a.left == b.left && a.right == b.right
}

fn behind_name(word: Definition) -> Stage
    ensures { result ≡ headings.behind_name word }
{
    match word {
        Definition::Vardef => Stage::Part,
        _ => Stage::Parameters,
    }
}

impl MacroReader {
    /// An item of a heading.
    pub(crate) fn heading_item(
        &mut self,
        table: &Symbols<Meaning>,
        stage: Stage,
        item: &Item,
    ) -> Result<(), Fault>
        requires stage { definitions.is_body stage ≡ false }
        requires item { IsBelow (length table.now.names) item.now }
        ensures { Gives result self.new (definitions.item_at table.now.names stage item.now self.old) }
    {
        let sign = sign_of(table, item);
        match stage {
            Stage::Name => self.name(table, item),
            Stage::Part => self.part(table, item, sign),
            Stage::Bracket => self.bracket(sign),
            Stage::Parameters => self.parameters(table, item, sign),
            Stage::GroupKind(pair) => self.group_kind(table, pair, item, sign),
            Stage::GroupName(kind, pair) => self.group_name(table, kind, pair, item),
            Stage::GroupRest(kind, pair) => self.group_rest(table, kind, pair, item, sign),
            Stage::BareName(kind) => self.bare_name(table, kind, item),
            Stage::Of => self.of(table, item, sign),
            Stage::OfName => self.of_name(table, item),
            Stage::Equals => self.equals(table, item, sign),
            Stage::LeftName => self.left_name(table, item),
            Stage::Operator => self.operator(table, item),
            Stage::RightName => self.right_name(table, item),
            Stage::OperatorEquals => self.operator_equals(table, item, sign),
            Stage::Body(_) | Stage::Nothing => Ok(()),
        }
    }

    /// The refusal of an item where something else was wanted.
    fn unexpected(&self, wanted: &[u8], table: &Symbols<Meaning>, item: &Item) -> Fault
        requires { IsBelow (length table.now.names) item.now }
        ensures { IsFault result (error.Unexpected wanted.now (signs.stood table.now.names item.now)) }
    {
        Fault::unexpected(self.alloc, wanted, stood(table, item))
    }

    /// Any symbol.
    fn any_symbol(&self, table: &Symbols<Meaning>, item: &Item) -> Result<u32, Fault>
        requires { IsBelow (length table.now.names) item.now }
        ensures { Gives result self.now (headings.symbol table.now.names item.now self.now) }
    {
        match item {
            Item::Symbol(symbol) => Ok(*symbol),
            _ => Err(self.unexpected(b"symbol", table, item)),
        }
    }

    fn begin_body(&mut self) -> Result<(), Fault>
        ensures { Gives result self.new (headings.begin_body self.old) }
    {
        if let Definition::Vardef = self.word {
            self.body.push(Item::Symbol(self.group.begin))?;
        }
        self.next = Stage::Body(0);
        Ok(())
    }

    fn equals(&mut self, table: &Symbols<Meaning>, item: &Item, sign: Sign) -> Result<(), Fault>
        requires { IsBelow (length table.now.names) item.now }
        ensures { Gives result self.new (headings.equals_by table.now.names item.now sign self.old) }
    {
        match sign {
            Sign::Word(Word::Equals | Word::Assign) => self.begin_body(),
            _ => Err(self.unexpected(b"=", table, item)),
        }
    }

    fn with_name(&mut self, symbol: u32, next: Stage) -> Result<(), Fault>
        ensures { Gives result self.new (headings.with_name symbol next self.old) }
    {
        if self.names.as_slice().len() >= PARAMETER_LIMIT as usize {
            return Err(Fault::Refused(SourceError::Limit(Cap::Params, PARAMETER_LIMIT)));
        }
        self.names.push(symbol)?;
        self.next = next;
        Ok(())
    }

    fn with_kind(&mut self, kind: ParamKind) -> Result<(), Fault>
        ensures { Gives result self.new (headings.with_kind kind self.old) }
    {
        self.kinds.push(kind)?;
        Ok(())
    }

    fn with_parameter(&mut self, kind: ParamKind, symbol: u32, next: Stage) -> Result<(), Fault>
        ensures { Gives result self.new (headings.with_parameter kind symbol next self.old) }
    {
        self.with_name(symbol, next)?;
        self.with_kind(kind)
    }

    fn group_kind(
        &mut self,
        table: &Symbols<Meaning>,
        pair: Delimiters,
        item: &Item,
        sign: Sign,
    ) -> Result<(), Fault>
        requires { IsBelow (length table.now.names) item.now }
        ensures { Gives result self.new (headings.group_kind_by table.now.names pair item.now (headings.delimited_kind_in sign) self.old) }
    {
        match delimited_kind_in(sign) {
            Some(kind) => {
                self.next = Stage::GroupName(kind, pair);
                Ok(())
            }
            None => Err(self.unexpected(b"symbol", table, item)),
        }
    }

    fn group_name(
        &mut self,
        table: &Symbols<Meaning>,
        kind: ParamKind,
        pair: Delimiters,
        item: &Item,
    ) -> Result<(), Fault>
        requires { IsBelow (length table.now.names) item.now }
        ensures { Gives result self.new (headings.group_name table.now.names kind pair item.now self.old) }
    {
        let symbol = self.any_symbol(table, item)?;
        self.with_parameter(kind, symbol, Stage::GroupRest(kind, pair))
    }

    fn group_rest(
        &mut self,
        table: &Symbols<Meaning>,
        kind: ParamKind,
        pair: Delimiters,
        item: &Item,
        sign: Sign,
    ) -> Result<(), Fault>
        requires { IsBelow (length table.now.names) item.now }
        ensures { Gives result self.new (headings.group_rest_by table.now.names kind pair item.now sign self.old) }
    {
        match sign {
            Sign::Word(Word::Comma) => {
                self.next = Stage::GroupName(kind, pair);
                Ok(())
            }
            Sign::Right(other) if are_pair(pair, other) => {
                self.next = Stage::Parameters;
                Ok(())
            }
            _ => Err(self.unexpected(name_of(table, pair.right), table, item)),
        }
    }

    fn bare_name(
        &mut self,
        table: &Symbols<Meaning>,
        kind: ParamKind,
        item: &Item,
    ) -> Result<(), Fault>
        requires { IsBelow (length table.now.names) item.now }
        ensures { Gives result self.new (headings.bare_name table.now.names kind item.now self.old) }
    {
        let symbol = self.any_symbol(table, item)?;
        match kind {
            ParamKind::BareExpr => self.with_name(symbol, Stage::Of),
            _ => self.with_parameter(kind, symbol, Stage::Equals),
        }
    }

    fn of(&mut self, table: &Symbols<Meaning>, item: &Item, sign: Sign) -> Result<(), Fault>
        requires { IsBelow (length table.now.names) item.now }
        ensures { Gives result self.new (headings.of_by table.now.names item.now sign self.old) }
    {
        match sign {
            Sign::Word(Word::Of) => {
                self.with_kind(ParamKind::ExprOf)?;
                self.next = Stage::OfName;
                Ok(())
            }
            _ => {
                self.equals(table, item, sign)?;
                self.with_kind(ParamKind::BareExpr)
            }
        }
    }

    fn of_name(&mut self, table: &Symbols<Meaning>, item: &Item) -> Result<(), Fault>
        requires { IsBelow (length table.now.names) item.now }
        ensures { Gives result self.new (headings.of_name table.now.names item.now self.old) }
    {
        let symbol = self.any_symbol(table, item)?;
        self.with_name(symbol, Stage::Equals)
    }

    fn parameters(&mut self, table: &Symbols<Meaning>, item: &Item, sign: Sign) -> Result<(), Fault>
        requires { IsBelow (length table.now.names) item.now }
        ensures { Gives result self.new (headings.parameters_by table.now.names item.now sign self.old) }
    {
        match sign {
            Sign::Left(pair) => {
                self.next = Stage::GroupKind(pair);
                Ok(())
            }
            Sign::Word(Word::Parameter(word)) => {
                self.next = Stage::BareName(bare_kind(word));
                Ok(())
            }
            _ => self.equals(table, item, sign),
        }
    }

    fn with_part(&mut self, part: Shape) -> Result<(), Fault>
        ensures { Gives result self.new (headings.with_part part self.old) }
    {
        if self.parts.as_slice().len() >= PART_LIMIT as usize {
            return Err(Fault::Refused(SourceError::Limit(Cap::Suffix, PART_LIMIT)));
        }
        self.parts.push(part)?;
        self.next = Stage::Part;
        Ok(())
    }

    fn part(&mut self, table: &Symbols<Meaning>, item: &Item, sign: Sign) -> Result<(), Fault>
        requires { IsBelow (length table.now.names) item.now }
        ensures { Gives result self.new (headings.part_by table.now.names item.now sign self.old) }
    {
        match sign {
            Sign::Part(symbol) => self.with_part(Shape::Sym(symbol)),
            Sign::Number => Err(Fault::Refused(SourceError::BadDeclaration)),
            Sign::Word(Word::LeftBracket) => {
                self.next = Stage::Bracket;
                Ok(())
            }
            Sign::Word(Word::CalledName(CalledName::Behind)) => {
                self.suffixed = true;
                self.next = Stage::Parameters;
                Ok(())
            }
            _ => self.parameters(table, item, sign),
        }
    }

    fn bracket(&mut self, sign: Sign) -> Result<(), Fault>
        ensures { Gives result self.new (headings.bracket_by sign self.old) }
    {
        match sign {
            Sign::Word(Word::RightBracket) => self.with_part(Shape::Any),
            _ => Err(Fault::Refused(SourceError::BadDeclaration)),
        }
    }

    fn name(&mut self, table: &Symbols<Meaning>, item: &Item) -> Result<(), Fault>
        requires { IsBelow (length table.now.names) item.now }
        ensures { Gives result self.new (headings.name table.now.names item.now self.old) }
    {
        self.symbol = self.any_symbol(table, item)?;
        self.next = behind_name(self.word);
        Ok(())
    }

    fn left_name(&mut self, table: &Symbols<Meaning>, item: &Item) -> Result<(), Fault>
        requires { IsBelow (length table.now.names) item.now }
        ensures { Gives result self.new (headings.left_name table.now.names item.now self.old) }
    {
        let symbol = self.any_symbol(table, item)?;
        self.with_name(symbol, Stage::Operator)
    }

    fn operator(&mut self, table: &Symbols<Meaning>, item: &Item) -> Result<(), Fault>
        requires { IsBelow (length table.now.names) item.now }
        ensures { Gives result self.new (headings.operator table.now.names item.now self.old) }
    {
        self.symbol = self.any_symbol(table, item)?;
        self.next = Stage::RightName;
        Ok(())
    }

    fn right_name(&mut self, table: &Symbols<Meaning>, item: &Item) -> Result<(), Fault>
        requires { IsBelow (length table.now.names) item.now }
        ensures { Gives result self.new (headings.right_name table.now.names item.now self.old) }
    {
        let symbol = self.any_symbol(table, item)?;
        self.with_name(symbol, Stage::OperatorEquals)
    }

    fn operator_equals(
        &mut self,
        table: &Symbols<Meaning>,
        item: &Item,
        sign: Sign,
    ) -> Result<(), Fault>
        requires { IsBelow (length table.now.names) item.now }
        ensures { Gives result self.new (headings.operator_equals_by table.now.names item.now sign self.old) }
    {
        match sign {
            Sign::Word(Word::Equals) => self.begin_body(),
            _ => Err(self.unexpected(b"=", table, item)),
        }
    }
}

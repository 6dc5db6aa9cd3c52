//! Names as items of a text: what a suffix stands for, and what a macro is told of the name that it is called by.

ghost use Rattle.std.specs.Prelude.{◌≡◌, [], ◌∷◌, ◌++◌, IfOk, OnOk, map};
ghost use Rattle.mp_values.specs.Ends.{IsNoEnd};
ghost use Rattle.mp_expand.specs.Advance.{capsule};
ghost use Rattle.mp_rules.specs.Rules as rules;

use mp_expand::Answer;
use mp_scaled::{NoMemory, Shared};
use mp_values::{Arguments, Item, Items, Scaled, Value};
use mp_vartree::Part;
use std::alloc::Global;

/// A part of a name as an item.
fn item_of_part(part: &Part) -> Item
    ensures { result ≡ rules.item_of_part part.now }
{
    match part {
        Part::Sym(symbol) => Item::Symbol(*symbol),
        Part::Sub(units) => Item::Number(Scaled::new(*units)),
    }
}

/// Parts of a name as items, behind others.
fn append_parts(parts: &[Part], to: &mut Items) -> Result<(), NoMemory>
    ensures { OnOk result (to.new ≡ to.old ++ map rules.item_of_part parts.now) }
{
    'parts: for part in parts {
        to.push(item_of_part(part))?;
    }
    Ok(())
}

/// The value of an expression, as an answer to a call.
pub(crate) fn answer_of_value(alloc: Global, value: Value) -> Result<Answer, NoMemory>
    ensures { IfOk result (λ answer. answer ≡ Answer.Value value) }
{
    Ok(Answer::Value(Shared::new(alloc, value)?))
}

/// The parts of a suffix, as an answer to a call.
pub(crate) fn answer_of_suffix(alloc: Global, parts: &[Part]) -> Result<Answer, NoMemory>
    ensures { IfOk result (λ answer. answer ≡ Answer.Suffix (map rules.item_of_part parts.now)) }
{
    let mut items = Items::new(alloc);
    append_parts(parts, &mut items)?;
    Ok(Answer::Suffix(Shared::new(alloc, items)?))
}

/// One item alone.
fn one_item(alloc: Global, item: Item) -> Result<Shared<Items>, NoMemory>
    requires { IsNoEnd item }
    ensures { IfOk result (λ items. items ≡ item ∷ []) }
{
    let mut items = Items::new(alloc);
    items.push(item)?;
    Shared::new(alloc, items)
}

/// What the macro of a variable is told of the name that it is called by, and of the suffix behind it.
#[tactic(auto, using(crate::proofs::NameLemmas::split_at_last))]
pub(crate) fn call_arguments(
    alloc: Global,
    symbol: u32,
    parts: &[Part],
    behind: &[Part],
) -> Result<Arguments, NoMemory>
    ensures { IfOk result (λ arguments. arguments ≡ rules.called_with symbol parts.now behind.now) }
{
    let mut before = Items::new(alloc);
    let mut last = Item::Symbol(symbol);
    'parts: for part in parts {
        before.push(last)?;
        last = item_of_part(part);
    }
    let mut rest = Items::new(alloc);
    append_parts(behind, &mut rest)?;
    let mut arguments = Arguments::new(alloc);
    arguments.push(Shared::new(alloc, before)?)?;
    arguments.push(one_item(alloc, last)?)?;
    arguments.push(Shared::new(alloc, rest)?)?;
    Ok(arguments)
}

/// What the macro of an operator is told: both operands, as values.
pub(crate) fn operand_arguments(
    alloc: Global,
    left: Value,
    right: Value,
) -> Result<Arguments, NoMemory>
    ensures { IfOk result (λ arguments. arguments ≡ capsule left ∷ capsule right ∷ []) }
{
    let mut arguments = Arguments::new(alloc);
    arguments.push(one_item(alloc, Item::Capsule(Shared::new(alloc, left)?))?)?;
    arguments.push(one_item(alloc, Item::Capsule(Shared::new(alloc, right)?))?)?;
    Ok(arguments)
}

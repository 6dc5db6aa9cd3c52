//! Bodies with the arguments of a call.

ghost use Rattle.std.specs.Prelude.{◌≡◌, ◌++◌, [], IfOk, OnOk, slice_get, unwrap_or};
ghost use Rattle.mp_values.specs.Substitution as substitution;
ghost use Rattle.mp_values.specs.Ends.{IsNoEnd, NoEnds};

use mp_scaled::NoMemory;
use mp_values::{Arguments, Item, Items};
use std::alloc::Global;

/// Items once more, at the end of others.
fn append(items: &[Item], to: &mut Items) -> Result<(), NoMemory>
    requires { NoEnds items.now }
    ensures { OnOk result (to.new ≡ to.old ++ items.now) }
{
    'items: for item in items {
        to.push(item.share()?)?;
    }
    Ok(())
}

/// The items of the argument of that number; without one, none.
fn argument(arguments: &Arguments, number: u8) -> &[Item]
    ensures items { result.now ≡ unwrap_or (slice_get arguments.now number) [] }
    ensures ends { NoEnds result.now }
{
    match arguments.as_slice().get(usize::from(number)) {
        Some(argument) => {
            argument.get().has_no_ends();
            argument.get().as_slice()
        }
        None => &[],
    }
}

/// What an item of a body stands for, at the end of others.
fn append_one(item: &Item, arguments: &Arguments, to: &mut Items) -> Result<(), NoMemory>
    requires { IsNoEnd item.now }
    ensures { OnOk result (to.new ≡ to.old ++ substitution.stands_for arguments.now item.now) }
{
    match item {
        Item::Param(number) => append(argument(arguments, *number), to),
        other => to.push(other.share()?),
    }
}

/// What a body stands for: each parameter is replaced by the items of its argument, in all places where it stands; one
/// without an argument gives nothing.
pub fn substitute(alloc: Global, body: &Items, arguments: &Arguments) -> Result<Items, NoMemory>
    ensures { IfOk result (λ items. items ≡ substitution.substitute body.now arguments.now) }
{
    body.has_no_ends();
    let mut items = Items::new(alloc);
    'body: for item in body.as_slice() {
        append_one(item, arguments, &mut items)?;
    }
    Ok(items)
}

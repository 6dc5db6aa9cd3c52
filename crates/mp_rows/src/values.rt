//! Rows of mp_values: copies, words, refusals.

use mp_forms::Form;
use mp_report::Place;
use mp_scaled::{Listing, Shared, SharedSlice};
use mp_tokens::{BadToken, FreshMeaning, Token};
use mp_values::{
    Command, Fault, Item, Meaning, Remaining, Scaled, Stop, UnbuiltWord, Value, Values,
};
use std::alloc::Global;
use std::test::Fail;

fn text(alloc: Global) -> Result<SharedSlice<u8>, Fail> {
    Ok(SharedSlice::from_vec(Vec::from_slice(alloc, b"ab")?)?)
}

// Contracts say that a copy is equal; here there is memory for each.
#[test]
fn copies_of_values(rt: HostRuntime) -> Result<(), Fail> {
    let alloc = rt.alloc();
    let _ = Value::Boolean(true).copy(alloc)?;
    let _ = Value::Numeric(Form::unknown(alloc, 7)?).copy(alloc)?;
    let _ = Value::Text(text(alloc)?).copy(alloc)?;
    Ok(())
}

// Contracts say that what is shared is equal; here there is memory for each.
#[test]
fn items_once_more(rt: HostRuntime) -> Result<(), Fail> {
    let alloc = rt.alloc();
    let value = Shared::new(alloc, Value::Boolean(true))?;
    let _ = Item::Symbol(1).share()?;
    let _ = Item::Number(Scaled::new(1)).share()?;
    let _ = Item::Text(text(alloc)?).share()?;
    let _ = Item::Bad(BadToken::Unfinished).share()?;
    let _ = Item::Capsule(value).share()?;
    let _ = Item::Param(1).share()?;
    let _ = Item::LineEnd(Place { file: 1, line: 1 }).share()?;
    let _ = Item::FileEnd.share()?;
    let _ = Item::EndOfText.share()?;
    Ok(())
}

#[test]
fn what_is_left_of_a_list(rt: HostRuntime) -> Result<(), Fail> {
    let alloc = rt.alloc();
    let mut values = Listing::new(alloc);
    values.push(Value::Boolean(true))?;
    values.push(Value::Vacuous)?;
    let both: Values = Remaining::new(alloc, values)?;
    let second = both.rest()?;
    let none = second.rest()?;
    assert!(rt; matches!(both.first(), Some(Value::Boolean(true))));
    assert!(rt; matches!(second.first(), Some(Value::Vacuous)));
    assert!(rt; none.first().is_none() && none.rest()?.first().is_none());
    Ok(())
}

// Contracts say which item a token is; here there is memory for each.
#[test]
fn items_of_tokens(rt: HostRuntime) -> Result<(), Fail> {
    let _ = Item::of(2, &Token::Sym(9))?;
    let _ = Item::of(2, &Token::Num(65536))?;
    let _ = Item::of(2, &Token::Bad(BadToken::Unfinished))?;
    let _ = Item::of(2, &Token::LineEnd(4))?;
    let _ = Item::of(2, &Token::Text(text(rt.alloc())?))?;
    Ok(())
}

// Contracts say which refusal it is; here there is memory for each.
#[test]
fn refusals(rt: HostRuntime) {
    let alloc = rt.alloc();
    assert!(rt; matches!(&Stop::not_built(alloc, b"a"), Stop::Refused(_)));
    assert!(rt; matches!(&Stop::unexpected(alloc, b"a", b"b"), Stop::Refused(_)));
    assert!(rt; matches!(&Fault::not_built(alloc, b"a"), Fault::Refused(_)));
    assert!(rt; matches!(&Fault::unexpected(alloc, b"a", b"b"), Fault::Refused(_)));
    assert!(rt; matches!(&Fault::wrong_type(alloc, b"a"), Fault::Refused(_)));
    assert!(rt; matches!(&Fault::not_known(alloc, b"a"), Fault::Refused(_)));
}

// These take no memory, and their contracts say all that they answer.
#[test]
fn small_calls(rt: HostRuntime) {
    assert!(rt; UnbuiltWord::new(b"pair").name() == b"pair".as_slice());
    assert!(rt; matches!(&Meaning::fresh().share(), Ok(Meaning::NewTag)));
    assert!(rt; Command::Show.name() == b"show".as_slice());
    assert!(rt; Scaled::new(-5).units() == -5);
}

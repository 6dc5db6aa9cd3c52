//! Rows of `mp_symbols`: groups, and names that keep their numbers.

ghost use Rattle.std.specs.Prelude.{◌≡◌, ◌<◌, length, OnOk};

use mp_symbols::{Closed, Symbols, groups_give_back, numbers_are_for_good};
use std::alloc::Global;
use std::test::Fail;

/// A call on a table. Each new name has the meaning 0.
#[derive(Clone, Copy)]
enum Call {
    Open,
    Set(&'static str, u8),
    Save(&'static str, u8),
    SetInternal(i32),
    SaveInternal,
    Close,
}

fn note(alloc: Global, text: &mut String, closed: &Closed<u8>) -> Result<(), Fail> {
    match closed {
        Closed::Meaning(symbol, meaning) => text.push_str(format!(in alloc;
            "{symbol}:{meaning} "
        )?.as_str())?,
        Closed::Number(k) => text.push_str(format!(in alloc; "#{k} ")?.as_str())?,
        Closed::Boundary => text.push_str("end ")?,
        Closed::NoGroup => text.push_str("none ")?,
    }
    Ok(())
}

/// Makes the call, and notes what a group gave back.
fn made(
    alloc: Global,
    table: &mut Symbols<u8>,
    k: u32,
    call: Call,
    text: &mut String,
) -> Result<(), Fail>
    requires { k < length table.old.internals }
    ensures { OnOk result (length table.new.internals ≡ length table.old.internals) }
{
    match call {
        Call::Open => table.open_group()?,
        Call::Set(name, meaning) => {
            let symbol = table.number_of(name.as_bytes(), 0)?;
            table.set_meaning(symbol, meaning);
        }
        Call::Save(name, meaning) => {
            let symbol = table.number_of(name.as_bytes(), 0)?;
            table.save(symbol, meaning)?;
        }
        Call::SetInternal(value) => table.set_internal(k, value),
        Call::SaveInternal => table.save_internal(k)?,
        Call::Close => note(alloc, text, &table.close_group())?,
    }
    Ok(())
}

/// What groups gave back, the meanings of `a` and `b`, and the value of the internal, after these calls.
fn after(alloc: Global, calls: &[Call]) -> Result<String, Fail> {
    let mut text = String::new(alloc);
    let mut table = Symbols::new(alloc);
    let k = table.new_internal(10)?;
    'calls: for call in calls {
        made(alloc, &mut table, k, *call, &mut text)?;
    }
    let value = table.internal(k);
    let a = meaning_of(&mut table, "a")?;
    let b = meaning_of(&mut table, "b")?;
    text.push_str(format!(in alloc; "{a} {b} {value}")?.as_str())?;
    Ok(text)
}

fn meaning_of(table: &mut Symbols<u8>, name: &str) -> Result<u8, Fail> {
    let symbol = table.number_of(name.as_bytes(), 0)?;
    Ok(*table.meaning(symbol))
}

#[test]
fn groups_undo_what_they_kept(rt: HostRuntime) -> Result<(), Fail> {
    let alloc = rt.alloc();
    let rows: [(&[Call], &str); 8] = [
        (&[], "0 0 10"),
        (&[Call::Close], "none 0 0 10"),
        (
            &[
                Call::Save("a", 5),
                Call::SaveInternal,
                Call::SetInternal(-3),
                Call::Close,
            ],
            "none 5 0 -3",
        ),
        (
            &[
                Call::Open,
                Call::Set("b", 6),
                Call::SetInternal(2),
                Call::Close,
            ],
            "end 0 6 2",
        ),
        (
            &[
                Call::Set("a", 1),
                Call::Open,
                Call::Save("a", 2),
                Call::Save("a", 3),
                Call::Set("a", 4),
                Call::Close,
                Call::Close,
                Call::Close,
                Call::Close,
            ],
            "0:4 0:2 end none 1 0 10",
        ),
        (
            &[
                Call::Open,
                Call::SaveInternal,
                Call::SetInternal(7),
                Call::SaveInternal,
                Call::SetInternal(-8),
                Call::Close,
            ],
            "#0 0 0 7",
        ),
        (
            &[
                Call::Set("a", 1),
                Call::Open,
                Call::Save("a", 2),
                Call::SaveInternal,
                Call::SetInternal(7),
                Call::Save("b", 9),
                Call::Close,
                Call::Close,
                Call::Close,
                Call::Close,
            ],
            "1:9 #0 0:2 end 1 0 10",
        ),
        (
            &[
                Call::Open,
                Call::Save("a", 1),
                Call::Open,
                Call::Save("a", 2),
                Call::SetInternal(8),
                Call::Close,
                Call::Close,
                Call::Close,
                Call::Close,
            ],
            "0:2 end 0:1 end 0 0 8",
        ),
    ];
    for (calls, want) in rows {
        assert_eq!(rt; after(alloc, calls)?.as_str(), want);
    }
    Ok(())
}

#[test]
fn names_keep_their_numbers_and_meanings(rt: HostRuntime) -> Result<(), Fail> {
    let mut table = Symbols::new(rt.alloc());
    let rows: [(&str, u8, u32, u8); 5] = [
        ("a", 1, 0, 1),
        ("", 2, 1, 2),
        ("ab", 3, 2, 3),
        ("a", 4, 0, 1),
        ("", 5, 1, 2),
    ];
    for (name, fresh, number, meaning) in rows {
        let symbol = table.number_of(name.as_bytes(), fresh)?;
        assert_eq!(rt; symbol, number);
        assert_eq!(rt; table.name_of(symbol), name.as_bytes());
        assert_eq!(rt; *table.meaning(symbol), meaning);
    }
    Ok(())
}

#[test]
fn internals_count_from_0(rt: HostRuntime) -> Result<(), Fail> {
    let mut table: Symbols<u8> = Symbols::new(rt.alloc());
    for k in 0..3 {
        assert_eq!(rt; table.new_internal(i32::MIN)?, k);
    }
    Ok(())
}

#[test]
fn laws_hold_at_a_type(_rt: HostRuntime) -> Result<(), Fail> {
    numbers_are_for_good::<u8>();
    groups_give_back::<u8>();
    Ok(())
}

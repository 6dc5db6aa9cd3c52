//! The kinds of values.

ghost use Rattle.std.specs.Prelude.{◌≡◌};
ghost use Rattle.mp_values.specs.Kinds.{kind_of, is_kind, are_of_one_kind};

use crate::{Kind, Value};

/// Whether a value is of that type.
pub fn has_kind(value: &Value, kind: Kind) -> bool
    ensures { result ≡ is_kind kind (kind_of value.now) }
{
    match value {
        Value::Boolean(_) => kind == Kind::Boolean,
        Value::Numeric(_) => kind == Kind::Numeric,
        Value::Text(_) => kind == Kind::Text,
        Value::Unset(unset, _) => *unset == kind,
        Value::Vacuous => false,
    }
}

/// Whether two values are of one type; a vacuous one is of none.
pub fn have_one_kind(left: &Value, right: &Value) -> bool
    ensures { result ≡ are_of_one_kind left.now right.now }
{
    match left {
        Value::Boolean(_) => has_kind(right, Kind::Boolean),
        Value::Numeric(_) => has_kind(right, Kind::Numeric),
        Value::Text(_) => has_kind(right, Kind::Text),
        Value::Unset(kind, _) => has_kind(right, *kind),
        Value::Vacuous => false,
    }
}

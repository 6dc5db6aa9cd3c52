//! What the objects in memory share: listed calls, and room that was taken before.

ghost use Rattle.std.specs.Prelude.{◌≡◌, ◌+◌, ◌<◌, ◌≤◌, [], ◌∷◌, ◌++◌, vec_len, vec_capacity, length};
ghost use Rattle.mp_files.specs.Counts.{is_listed};

/// The list names the call.
pub(crate) fn is_listed(failing: &[u32], call: u64) -> bool
    ensures { result ≡ is_listed failing.now call }
{
    failing.iter().any(|listed| u64::from(*listed) == call)
}

/// Appends bytes for which there is room.
pub(crate) fn append(to: &mut Vec<u8>, bytes: &[u8])
    requires { vec_len to.old + length bytes.now ≤ vec_capacity to.old }
    ensures items { to.new.items ≡ to.old.items ++ bytes.now }
    ensures room { vec_capacity to.old ≤ vec_capacity to.new }
{
    let _ = to.extend_from_slice(bytes);
}

/// Pushes an item for which there is room.
pub(crate) fn push<T: Drop>(to: &mut Vec<T>, item: T)
    requires { vec_len to.old < vec_capacity to.old }
    ensures items { to.new.items ≡ to.old.items ++ item ∷ [] }
    ensures room { vec_capacity to.old ≤ vec_capacity to.new }
{
    let _ = to.push(item);
}

//! A law of roots.

ghost use Rattle.std.specs.Prelude.{◌≡◌, ℕ};
ghost use Rattle.mp_trig.specs.Roots.{IsNearestRoot, nearest_root};

/// A law: of each number there is one nearest root, and it is the one that the calls answer.
pub fn nearest_roots_are_single()
    ensures nearest { (n : ℕ) → IsNearestRoot n (nearest_root n) }
    ensures only { (n : ℕ) (r : ℕ) → IsNearestRoot n r → r ≡ nearest_root n }
{}

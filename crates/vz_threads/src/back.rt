//! Giving back what was borrowed.
ghost use Rattle.std.specs.Prelude.{◌≡◌};

/// Gives two references back, and changes nothing. A function that takes a struct apart knows what
/// is behind its references afterwards only if all of them go into one last call.
pub(crate) fn give_back<T, U>(_first: &mut T, _second: &mut U)
    ensures first { _first.new ≡ _first.old }
    ensures second { _second.new ≡ _second.old }
{}

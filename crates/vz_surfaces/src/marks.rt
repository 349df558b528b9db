//! Which surfaces are marked for destruction.
ghost use Rattle.std.specs.Prelude.{◌≡◌, ◌≤◌, ◌-◌, ◌==◌, ℕ, if◌then◌else◌};
ghost use Rattle.vz_surfaces.specs.Memory.{owner_at, marked_up, HasNumber, MarksUpTo};

use crate::owners::Owners;

/// Marks the surfaces of a client that were created before the one with this number. Conditions:
/// the client's number is 1 to 16, and surfaces are numbered from 1.
pub(crate) fn mark_before(owners: &mut Owners, c: u32, number: u32)
    requires client { HasNumber c }
    requires number { 1 ≤ number }
    ensures owners { (q : ℕ) → 1 ≤ q → owner_at owners.new q
        ≡ (if q == c then marked_up (number - 1) (owner_at owners.old c)
        else owner_at owners.old q) }
    ensures marking { MarksUpTo owners.old → MarksUpTo owners.new }
{
    let owner = owners.get(c);
    owners.set(c, owner.marked_up(number - 1));
}

/// Marks all surfaces of a client. Condition: its number is 1 to 16.
pub(crate) fn mark_all(owners: &mut Owners, c: u32)
    requires number { HasNumber c }
    ensures owners { (q : ℕ) → 1 ≤ q → owner_at owners.new q
        ≡ (if q == c then marked_up (owner_at owners.old c).created (owner_at owners.old c)
        else owner_at owners.old q) }
    ensures marking { MarksUpTo owners.old → MarksUpTo owners.new }
{
    let owner = owners.get(c);
    owners.set(c, owner.marked_up(owner.created));
}

//! Ids are hashed by words, two of their numbers at a time.
ghost use Rattle.std.specs.Prelude.{◌≡◌, ◌+◌, ◌*◌, ◌++◌};
ghost use Rattle.std.specs.Hash as fed;
ghost use Rattle.std.specs.Cmp.Rules.{hashing};
ghost use Rattle.std.proofs.Common.{rules};

use crate::{FrameSinkId, LocalSurfaceId, Sub};
use std::hash::{Hash, Hasher};

/// Two numbers as one word.
fn joined(low: u32, high: u32) -> u64
    ensures { result ≡ high * 4294967296 + low }
{
    u64::from(high) * 4_294_967_296 + u64::from(low)
}

impl Hash for FrameSinkId {
    ghost hash_input = { λ id. fed.u64 (id.sink_id * 4294967296 + id.client_id) };

    ghost respects_eq = { Prim.search (hashing, rules) };

    fn hash<H: Hasher>(&self, state: &mut H) {
        state.write_u64(joined(self.client_id, self.sink_id));
    }
}

impl Hash for LocalSurfaceId {
    ghost hash_input = { λ id. fed.u64 (id.child * 4294967296 + id.parent) ++ fed.u128 id.token.0 };

    ghost respects_eq = { Prim.search (hashing, rules) };

    fn hash<H: Hasher>(&self, state: &mut H) {
        state.write_u64(joined(self.parent, self.child));
        state.write_u128(self.token.0);
    }
}

impl Hash for Sub {
    ghost hash_input = { λ sub. fed.u64 (sub.ordinal * 4294967296 + sub.client) };

    ghost respects_eq = { Prim.search (hashing, rules) };

    fn hash<H: Hasher>(&self, state: &mut H) {
        state.write_u64(joined(self.client, self.ordinal));
    }
}

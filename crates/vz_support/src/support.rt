//! What is kept for clients.
use crate::Clients;
use std::marker::Model;
use vz_ids::SurfaceId;
use vz_sinks::Sinks;

/// What is kept for clients: the messages that they have still to send, their sinks with the
/// pending begin-frames, the tick, the root surface, and whether the Over mark is set.
#[derive(Drop)]
pub struct Support {
    pub(crate) clients: Clients,
    pub(crate) sinks: Sinks,
    pub(crate) tick: u32,
    pub(crate) root: Option<SurfaceId>,
    pub(crate) over: bool,
}

impl Model for Support {
    ghost use Rattle.std.specs.Prelude.{◌≤◌};
    ghost use Rattle.vz_base.specs.declared.limits.TheConstants.{LAST_TICK};
    ghost use Rattle.vz_support.specs.Supporting.{Supported};

    ghost Value = { Supported };

    ghost view = { λ s. record {
      clients = s.clients;
      sinks = s.sinks;
      tick = s.tick;
      root = s.root;
      over = s.over;
    } };

    ghost invariant = { λ s. s.tick ≤ LAST_TICK };
}

//! The state of the plain machine.
ghost use Rattle.std.specs.Prelude.{◌≡◌, IfOk};

use std::alloc::{AllocError, Global};
use std::marker::Model;
use vz_frame::{List, ShortList};
use vz_ids::{FrameSinkId, Sub, SurfaceId};
use vz_scene::Aggregation;
use vz_state::{Client, Submission, Surface};

/// The state of the plain machine. Surfaces are in the order of creation, submissions in the
/// order of acceptance.
#[derive(Drop)]
pub(crate) struct World<'a> {
    pub(crate) alloc: Global,
    pub(crate) clients: Vec<Client<'a>>,
    pub(crate) surfaces: Vec<Surface>,
    pub(crate) subs: Vec<Submission<'a>>,
    pub(crate) tick: u32,
    pub(crate) root: Option<SurfaceId>,
    pub(crate) relations: Vec<(FrameSinkId, FrameSinkId)>,
    pub(crate) in_flight: Option<List<Sub>>,
    pub(crate) last: Option<Aggregation>,
    pub(crate) over: bool,
}

impl<'a> Model for World<'a> {
    ghost use Rattle.vz_rules.specs.World.{World as State};

    ghost Value = { State };

    ghost view = { λ m. record {
      clients = m.clients.items;
      surfaces = m.surfaces.items;
      subs = m.subs.items;
      tick = m.tick;
      root = m.root;
      relations = m.relations.items;
      in_flight = m.in_flight;
      last = m.last;
      over = m.over;
    } };
}

/// Makes a short list of a list's values.
pub(crate) fn short<T: Drop>(alloc: Global, list: List<T>) -> Result<ShortList<T>, AllocError>
    ensures { IfOk result (λ short. short ≡ list) }
{
    ShortList::from_list(alloc, list).map_err(|_| AllocError)
}

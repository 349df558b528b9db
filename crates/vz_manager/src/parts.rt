//! The parts of the machine.
use crate::outcome::Following;
use std::alloc::Global;
use std::marker::Model;
use vz_frame::Room;
use vz_geom::Size;
use vz_rules::{EffectsRoom, Fed, Returned};
use vz_support::Support;
use vz_surface_manager::SurfaceManager;

/// The parts of the machine: what is kept for clients, the surfaces and the waiting submissions,
/// the lists for the effects of a step, and those for the end of the drawn frame. Contracts see
/// all but the lists for effects.
#[derive(Drop)]
pub(crate) struct Parts {
    pub(crate) alloc: Global,
    pub(crate) size: Size,
    pub(crate) support: Support,
    pub(crate) settling: SurfaceManager,
    pub(crate) following: Following,
    pub(crate) returned: Room<Returned>,
    pub(crate) fed: Room<Fed>,
    pub(crate) landed: EffectsRoom,
}

impl Model for Parts {
    ghost use Rattle.vz_manager.specs.Serving.{Served};

    ghost Value = { Served };

    ghost view = { λ a. record {
      size = a.size;
      support = a.support;
      settling = a.settling;
      returned = a.returned;
      fed = a.fed;
      landed = a.landed;
    } };
}

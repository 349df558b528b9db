//! The submissions that become active in a round.
ghost use Rattle.std.specs.Prelude.{◌≡◌, ◌&&◌, ◌||◌, ◌==◌, nat_lt, OnOk};
ghost use Rattle.std.specs.List.{list_any};
ghost use Rattle.vz_ids.specs.declared.SurfaceId.{SurfaceId as Surfaced};
ghost use Rattle.vz_ids.specs.Ids.{same_surface};
ghost use Rattle.vz_scene.specs.Reached.{is_reached};
ghost use Rattle.vz_state.specs.Rising.{rises_to};

use crate::surface::Surface;
use std::alloc::AllocError;
use vz_ids::{Sub, SurfaceId};
use vz_scene::Newest;

/// What is noted of a submission that becomes active in a round.
#[derive(Clone, Copy)]
pub struct Risen {
    /// The surface that it is on.
    pub id: SurfaceId,
    /// Its client and ordinal.
    pub sub: Sub,
    /// The number of the surface among those that the client created.
    pub number: u32,
}

/// What is computed of a round before it changes anything.
#[derive(Drop)]
pub struct Signs {
    /// The submissions that become active, in the order of acceptance.
    pub risen: Vec<Risen>,
    /// For each submission, whether it becomes active.
    pub becomes: Vec<bool>,
    /// For each submission, whether one that becomes active is on its surface.
    pub replaced: Vec<bool>,
    /// For each surface, whether a submission becomes active on a later surface of its client.
    pub marked: Vec<bool>,
}

/// Whether one of those that become active is on the surface.
pub fn is_one_on(risen: &[Risen], id: &SurfaceId) -> bool
    ensures { result ≡ list_any (λ r. same_surface r.id id.now) risen.now }
{
    risen.iter().any(|other| other.id == *id)
}

/// Whether one of those that become active is on a later surface of the same client.
pub fn is_before_one(risen: &[Risen], surface: &Surface) -> bool
    ensures { result ≡ list_any (λ r. (surface.now.client == r.sub.client)
        && nat_lt surface.now.number r.number) risen.now }
{
    risen.iter().any(|other| surface.client == other.sub.client && surface.number < other.number)
}

/// Adds the surfaces of those that become active to those that are met.
pub fn add_risen(met: &mut Newest, risen: &[Risen]) -> Result<(), AllocError>
    ensures { (d : Surfaced)
        → OnOk result (is_reached met.new d
        ≡ (is_reached met.old d || list_any (rises_to d) risen.now)) }
{
    for other in risen {
        met.add(&other.id)?;
    }
    Ok(())
}

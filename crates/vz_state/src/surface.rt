//! Surfaces that clients created.
ghost use Rattle.std.specs.Prelude.{◌≡◌, ◌&&◌, ◌==◌, map, find, not, filter, is_some, false, reverse};
ghost use Rattle.std.specs.Option.{option_copied};
ghost use Rattle.vz_ids.specs.Ids.{same_surface};
ghost use Rattle.vz_rules.specs.Messages.{mark_of};
ghost use Rattle.vz_rules.specs.Settle.{number_of};
ghost use Rattle.vz_frame.specs.Frame.{first_of};

use crate::submission::Submission;
use std::marker::Model;
use vz_geom::Size;
use vz_ids::SurfaceId;

/// A surface that a client created.
#[derive(Drop)]
pub struct Surface {
    pub(crate) client: u32,
    pub(crate) number: u32,
    pub(crate) id: SurfaceId,
    pub(crate) size: Size,
    pub(crate) born: u32,
    pub(crate) named: bool,
    pub(crate) marked: bool,
    pub(crate) destroyed: bool,
}

impl Model for Surface {
    ghost use Rattle.vz_rules.specs.World.{Surface as Created};

    ghost Value = { Created };

    ghost view = { λ s. record {
      client = s.client;
      number = s.number;
      id = s.id;
      size = s.size;
      born = s.born;
      named = s.named;
      marked = s.marked;
      destroyed = s.destroyed;
    } };
}

impl Surface {
    /// A new surface: it is not yet named, marked or destroyed.
    pub fn new(client: u32, number: u32, id: SurfaceId, size: Size, born: u32) -> Surface
        ensures { result ≡ record {
          client = client;
          number = number;
          id = id;
          size = size;
          born = born;
          named = false;
          marked = false;
          destroyed = false;
        } }
    {
        Surface {
            client,
            number,
            id,
            size,
            born,
            named: false,
            marked: false,
            destroyed: false,
        }
    }

    /// The client that created it.
    pub fn client(&self) -> u32
        ensures { result ≡ self.now.client }
    {
        self.client
    }

    /// Its id.
    pub fn id(&self) -> SurfaceId
        ensures { result ≡ self.now.id }
    {
        self.id
    }

    /// The tick at which it was created.
    pub fn born(&self) -> u32
        ensures { result ≡ self.now.born }
    {
        self.born
    }

    /// Whether an active frame has ever named it.
    pub fn is_named(&self) -> bool
        ensures { result ≡ self.now.named }
    {
        self.named
    }

    /// Whether it is destroyed.
    pub fn is_destroyed(&self) -> bool
        ensures { result ≡ self.now.destroyed }
    {
        self.destroyed
    }

    /// Whether it has this id and exists.
    fn is_there(&self, id: &SurfaceId) -> bool
        ensures { result ≡ (same_surface self.now.id id.now && not self.now.destroyed) }
    {
        self.id == *id && !self.destroyed
    }

    /// Marks the surface if it is this client's.
    fn mark_if(&mut self, c: u32)
        ensures { self.new ≡ mark_of c self.old }
    {
        if self.client == c {
            self.marked = true;
        }
    }
}

/// Whether a surface was created and not destroyed.
pub fn exists(surfaces: &[Surface], id: &SurfaceId) -> bool
    ensures { result
        ≡ is_some (find (λ s. same_surface s.id id.now && not s.destroyed) surfaces.now) }
{
    surfaces.iter().any(|surface| surface.is_there(id))
}

/// Marks the surfaces of a client.
pub fn mark_client(surfaces: &mut [Surface], c: u32)
    ensures { surfaces.new ≡ map (mark_of c) surfaces.old }
{
    for k in 0..surfaces.len() {
        surfaces[k].mark_if(c);
    }
}

/// The last surface of a client, by a search from the end.
fn last_of(surfaces: &[Surface], c: u32) -> Option<&Surface>
    ensures { option_copied result ≡ find (λ s. s.client == c) (reverse surfaces.now) }
{
    surfaces.iter().rev().find(|surface| surface.client == c)
}

/// The surface that a client created last, if it created one.
#[tactic(auto, using(crate::proofs::Ends::found_last))]
pub fn last_created(surfaces: &[Surface], c: u32) -> Option<&Surface>
    ensures { option_copied result ≡ first_of (reverse (filter (λ s. s.client == c) surfaces.now)) }
{
    last_of(surfaces, c)
}

/// The surface of a submission, if it is one of these.
pub(crate) fn surface_of<'b>(
    surfaces: &'b [Surface],
    submission: &Submission<'_>,
) -> Option<&'b Surface>
    ensures { option_copied result
        ≡ find (λ c. same_surface c.id submission.now.submitted.id) surfaces.now }
{
    surfaces
        .iter()
        .find(|surface| surface.id == submission.id())
}

/// The number of a submission's surface among those that its client created.
pub fn number_of(surfaces: &[Surface], submission: &Submission<'_>) -> u32
    ensures { result ≡ number_of surfaces.now submission.now }
{
    match surface_of(surfaces, submission) {
        None => 0,
        Some(surface) => surface.number,
    }
}

//! Copies. A step changes a copy of the world until nothing can fail any more.
ghost use Rattle.std.specs.Prelude.{◌≡◌, IfOk};

use crate::world::World;
use std::alloc::{AllocError, Global};
use vz_frame::List;
use vz_ids::Sub;
use vz_scene::Aggregation;
use vz_state::{Client, Submission, Surface, copy_clients, copy_submissions};

/// A copy of the list of what is in the drawn frame, if there is one.
fn copy_flight(
    alloc: Global,
    in_flight: &Option<List<Sub>>,
) -> Result<Option<List<Sub>>, AllocError>
    ensures { IfOk result (λ o. o ≡ in_flight.now) }
{
    match in_flight {
        None => Ok(None),
        Some(subs) => {
            let copies = subs.as_slice().iter().copied().collect(alloc)?;
            Ok(Some(List::from_vec(copies)))
        }
    }
}

/// A copy of the last aggregation, if there is one.
fn copy_last(alloc: Global, last: &Option<Aggregation>) -> Result<Option<Aggregation>, AllocError>
    ensures { IfOk result (λ o. o ≡ last.now) }
{
    match last {
        None => Ok(None),
        Some(aggregation) => Ok(Some(aggregation.copy(alloc)?)),
    }
}

impl<'a> World<'a> {
    /// Copies of the clients, the surfaces and the submissions.
    fn copy_lists(&self) -> Result<(Vec<Client<'a>>, Vec<Surface>, Vec<Submission<'a>>), AllocError>
        ensures { IfOk result (λ l. (l.0.items ≡ self.now.clients)
            × (l.1.items ≡ self.now.surfaces) × (l.2.items ≡ self.now.subs)) }
    {
        let alloc = self.alloc;
        let clients = copy_clients(alloc, &self.clients)?;
        let surfaces = self
            .surfaces
            .iter()
            .map(|surface| surface.copy())
            .collect(alloc)?;
        let subs = copy_submissions(alloc, &self.subs)?;
        Ok((clients, surfaces, subs))
    }

    /// A copy of the world.
    pub(crate) fn copy(&self) -> Result<World<'a>, AllocError>
        ensures { IfOk result (λ w. w ≡ self.now) }
    {
        let alloc = self.alloc;
        let (clients, surfaces, subs) = self.copy_lists()?;
        Ok(World {
            alloc,
            clients,
            surfaces,
            subs,
            tick: self.tick,
            root: self.root,
            relations: self.relations.iter().copied().collect(alloc)?,
            in_flight: copy_flight(alloc, &self.in_flight)?,
            last: copy_last(alloc, &self.last)?,
            over: self.over,
        })
    }
}

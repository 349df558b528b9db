//! Copies. A step changes a copy of the state until nothing can fail any more.
ghost use Rattle.std.specs.Prelude.{◌≡◌, ◌≤◌, IfOk};

use crate::client::Client;
use crate::resource::Resource;
use crate::room::make_room;
use crate::submission::Submission;
use crate::surface::Surface;
use std::alloc::{AllocError, Global};
use vz_frame::Room;
use vz_rules::Returned;

impl<'a> Resource<'a> {
    /// A copy of the resource.
    fn copy(&self) -> Resource<'a>
        ensures { result ≡ self.now }
    {
        Resource {
            id: self.id,
            block: self.block,
            lent: self.lent,
            queued: self.queued,
            reclaimed: self.reclaimed,
        }
    }
}

/// A copy of the resources.
fn copy_resources<'a>(
    alloc: Global,
    resources: &[Resource<'a>],
) -> Result<Vec<Resource<'a>>, AllocError>
    ensures { IfOk result (λ v. v.items ≡ resources.now) }
{
    let mut copies = Vec::with_capacity(alloc, resources.len())?;
    for resource in resources {
        copies.push(resource.copy())?;
    }
    Ok(copies)
}

/// A copy of the queue, with room for `spare` more.
fn copy_queue(alloc: Global, queue: &[Returned], spare: usize) -> Result<Room<Returned>, AllocError>
    ensures { IfOk result (λ r. (r.list ≡ queue.now) × (spare ≤ r.spare)) }
{
    let mut room = Room::new(alloc);
    for returned in queue {
        make_room(&mut room, 1)?;
        room.put(*returned);
    }
    make_room(&mut room, spare)?;
    Ok(room)
}

impl<'a> Client<'a> {
    /// A copy of the client.
    fn copy(&self, alloc: Global) -> Result<Client<'a>, AllocError>
        ensures { IfOk result (λ c. c ≡ self.now) }
    {
        let resources = copy_resources(alloc, &self.resources)?;
        let queue = copy_queue(alloc, self.queue.as_slice(), resources.len())?;
        Ok(Client {
            number: self.number,
            sink: self.sink,
            taken: self.taken,
            closed: self.closed,
            resources,
            queue,
            delivered: self.delivered,
            answered: self.answered,
        })
    }
}

impl Surface {
    /// A copy of the surface.
    pub fn copy(&self) -> Surface
        ensures { result ≡ self.now }
    {
        Surface {
            client: self.client,
            number: self.number,
            id: self.id,
            size: self.size,
            born: self.born,
            named: self.named,
            marked: self.marked,
            destroyed: self.destroyed,
        }
    }
}

impl<'a> Submission<'a> {
    /// A copy of the submission.
    fn copy(&self, alloc: Global) -> Result<Submission<'a>, AllocError>
        ensures { IfOk result (λ s. s ≡ self.now) }
    {
        Ok(Submission {
            submitted: self.submitted.share()?,
            due: self.due,
            state: self.state,
            was_active: self.was_active,
            fed: self.fed,
        })
    }
}

/// A copy of the clients.
pub fn copy_clients<'a>(
    alloc: Global,
    clients: &[Client<'a>],
) -> Result<Vec<Client<'a>>, AllocError>
    ensures { IfOk result (λ v. v.items ≡ clients.now) }
{
    let mut copies = Vec::with_capacity(alloc, clients.len())?;
    for client in clients {
        copies.push(client.copy(alloc)?)?;
    }
    Ok(copies)
}

/// A copy of the submissions.
pub fn copy_submissions<'a>(
    alloc: Global,
    submissions: &[Submission<'a>],
) -> Result<Vec<Submission<'a>>, AllocError>
    ensures { IfOk result (λ v. v.items ≡ submissions.now) }
{
    let mut copies = Vec::with_capacity(alloc, submissions.len())?;
    for submission in submissions {
        copies.push(submission.copy(alloc)?)?;
    }
    Ok(copies)
}

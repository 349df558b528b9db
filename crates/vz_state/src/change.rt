//! How a client's message changes what is kept of the client.
ghost use Rattle.std.specs.Prelude.{◌≡◌, ◌==◌, map, find, Some, if◌then◌else◌, OnOk, OnErr};
ghost use Rattle.vz_rules.specs.Messages.{took, lend, reclaim, answer_tick};
ghost use Rattle.vz_state.specs.Changes.{changed_by};
ghost use Rattle.vz_state.specs.Small.{AreSmallResources, IsSmallClient, AreSmallClients, AreNumbered};
ghost use Rattle.vz_rules.specs.World.{Client as ClientState, change_client};

use crate::client::Client;
use crate::resource::{lend_all, put, reclaim_all};
use crate::room::make_room;
use std::alloc::{AllocError, Global};
use vz_frame::{CompositorFrame, Listing, Room};
use vz_pixels::PixelBlock;

/// What a message changes of its client, besides that it is taken.
#[derive(Clone, Copy)]
pub enum Change<'a> {
    /// It changes nothing else.
    Nothing,
    /// The id names the block from now on.
    Store {
        /// The id of the resource.
        id: u32,
        /// The block.
        block: &'a PixelBlock,
    },
    /// The resources that the frame lists are lent, and the begin-frame that it answers is noted.
    Submit {
        /// The frame.
        frame: &'a CompositorFrame,
        /// The current tick.
        tick: u32,
    },
    /// The client answers a begin-frame.
    Answer {
        /// The number of the begin-frame.
        n: u32,
        /// The current tick.
        tick: u32,
    },
    /// The queue of returned resources is given to the client.
    Reclaim,
    /// The pending begin-frame is taken.
    Take,
    /// The client is closed.
    Close,
}

impl<'a> Client<'a> {
    /// Takes a message and changes the client. At an error nothing changes. Condition: its counts
    /// are within the limits.
    pub fn change(&mut self, alloc: Global, change: &Change<'a>) -> Result<(), AllocError>
        requires { IsSmallClient self.old }
        ensures value { OnOk result (self.new ≡ took (changed_by change.now self.old)) }
        ensures err { OnErr result (self.new ≡ self.old) }
    {
        match change {
            Change::Nothing => {}
            Change::Store { id, block } => put(&mut self.resources, *id, block)?,
            Change::Submit { frame, tick } => {
                self.lend(frame.resources.as_slice())?;
                self.answer(*tick, frame.metadata.ack);
            }
            Change::Answer { n, tick } => self.answer(*tick, *n),
            Change::Reclaim => self.reclaim(alloc)?,
            Change::Take => self.delivered = None,
            Change::Close => self.closed = true,
        }
        self.taken += 1;
        Ok(())
    }

    /// Lends one reference for each listing, and makes room in the queue for its return.
    /// Condition: the counts are within the limits.
    fn lend(&mut self, listings: &[Listing]) -> Result<(), AllocError>
        requires { AreSmallResources self.old.resources }
        ensures value { OnOk result (self.new
            ≡ record self.old { resources = map (lend listings.now) self.old.resources }) }
        ensures err { OnErr result (self.new ≡ self.old) }
    {
        make_room(&mut self.queue, self.resources.len())?;
        lend_all(&mut self.resources, listings);
        Ok(())
    }

    /// Empties the queue, and makes room again for the returns that are outstanding.
    fn reclaim(&mut self, alloc: Global) -> Result<(), AllocError>
        ensures value { OnOk result (self.new ≡ reclaim self.old) }
        ensures err { OnErr result (self.new ≡ self.old) }
    {
        let mut queue = Room::new(alloc);
        make_room(&mut queue, self.resources.len())?;
        self.queue = queue;
        reclaim_all(&mut self.resources);
        Ok(())
    }

    /// Notes that the client has answered the tick, if the number is that of the tick.
    fn answer(&mut self, tick: u32, n: u32)
        ensures { self.new ≡ answer_tick tick n self.old }
    {
        if n == tick {
            self.answered = tick;
        }
    }

    /// If the client has this number, it takes a message and is changed.
    fn change_if(&mut self, alloc: Global, c: u32, change: &Change<'a>) -> Result<(), AllocError>
        requires { IsSmallClient self.old }
        ensures { OnOk result (self.new
            ≡ (if self.old.number == c then took (changed_by change.now self.old) else self.old)) }
    {
        if self.number == c {
            self.change(alloc, change)?;
        }
        Ok(())
    }
}

/// The client with this number takes a message and is changed.
pub fn change_one<'a>(
    clients: &mut [Client<'a>],
    alloc: Global,
    c: u32,
    change: &Change<'a>,
) -> Result<(), AllocError>
    requires { AreSmallClients clients.old }
    ensures { OnOk result (clients.new
        ≡ change_client (λ x. took (changed_by change.now x)) c clients.old) }
{
    for k in 0..clients.len() {
        clients[k].change_if(alloc, c, change)?;
    }
    Ok(())
}

/// The client with this number takes a message and is changed. At an error nothing changes.
/// Condition: the clients are numbered from 1.
pub fn change_alone<'a>(
    clients: &mut [Client<'a>],
    alloc: Global,
    c: u32,
    change: &Change<'a>,
) -> Result<(), AllocError>
    requires small { AreSmallClients clients.old }
    requires numbered { AreNumbered 1 clients.old }
    ensures value { (x : ClientState) → find (λ y. y.number == c) clients.old ≡ Some x
        → OnOk result (clients.new
        ≡ change_client (λ y. took (changed_by change.now y)) c clients.old) }
    ensures err { OnErr result (clients.new ≡ clients.old) }
{
    let place = (c as usize).saturating_sub(1);
    if place >= clients.len() {
        return Ok(());
    }
    clients[place].change(alloc, change)?;
    Ok(())
}

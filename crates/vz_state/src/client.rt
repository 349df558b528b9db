//! What is kept of a client.
ghost use Rattle.std.specs.Prelude.{◌≡◌, ◌&&◌, ◌==◌, ◌≤◌, length, map, find, IfOk};
ghost use Rattle.std.specs.List.{list_any};
ghost use Rattle.std.specs.Option.{option_copied};
ghost use Rattle.vz_base.specs.declared.limits.TheConstants.{MOST_FILES};
ghost use Rattle.vz_ids.specs.Ids.{same_sink};
ghost use Rattle.vz_state.specs.Attached.{deliver_by};
ghost use Rattle.vz_rules.specs.World.{new_client, new_clients};

use crate::accept::number_after;
use crate::resource::Resource;
use crate::sinks::has_sink;
use std::alloc::{AllocError, Global};
use std::marker::Model;
use vz_frame::{ClientFile, Room};
use vz_ids::FrameSinkId;
use vz_rules::Returned;

/// A client, with its resources by rising id. Its queue has room for a return of each resource of
/// which references are outstanding.
#[derive(Drop)]
pub struct Client<'a> {
    pub(crate) number: u32,
    pub(crate) sink: FrameSinkId,
    pub(crate) taken: usize,
    pub(crate) closed: bool,
    pub(crate) resources: Vec<Resource<'a>>,
    pub(crate) queue: Room<Returned>,
    pub(crate) delivered: Option<u32>,
    pub(crate) answered: u32,
}

impl<'a> Model for Client<'a> {
    ghost use Rattle.std.specs.Prelude.{◌≤◌};
    ghost use Rattle.vz_rules.specs.World.{Client as ClientState};
    ghost use Rattle.vz_state.specs.Outs.{outs};

    ghost Value = { ClientState };

    ghost view = { λ c. record {
      number = c.number;
      sink = c.sink;
      taken = c.taken;
      closed = c.closed;
      resources = c.resources.items;
      queue = c.queue.list;
      delivered = c.delivered;
      answered = c.answered;
    } };

    ghost invariant = { λ c. outs c.resources.items ≤ c.queue.spare };
}

impl<'a> Client<'a> {
    /// Its sink.
    pub fn sink(&self) -> FrameSinkId
        ensures { result ≡ self.now.sink }
    {
        self.sink
    }

    /// Its number, from 1.
    pub fn number(&self) -> u32
        ensures { result ≡ self.now.number }
    {
        self.number
    }

    /// Whether it is closed.
    pub fn is_closed(&self) -> bool
        ensures { result ≡ self.now.closed }
    {
        self.closed
    }

    /// Its resources, by rising id.
    pub fn resources(&self) -> &[Resource<'a>]
        ensures { result.now ≡ self.now.resources }
    {
        &self.resources
    }

    /// The returned resources that the client has not reclaimed, oldest first.
    pub fn queue(&self) -> &[Returned]
        ensures { result.now ≡ self.now.queue }
    {
        self.queue.as_slice()
    }

    /// The begin-frame that is pending for it, if there is one.
    pub fn delivered(&self) -> Option<u32>
        ensures { result ≡ self.now.delivered }
    {
        self.delivered
    }

    /// The tick that it answered last, or 0 if it has answered none.
    pub fn answered(&self) -> u32
        ensures { result ≡ self.now.answered }
    {
        self.answered
    }

    /// Whether this is the sink of a closed client.
    pub(crate) fn has_gone(&self, sink: FrameSinkId) -> bool
        ensures { result ≡ (self.now.closed && same_sink self.now.sink sink) }
    {
        self.closed && self.sink == sink
    }

    /// Delivers a begin-frame if the client is attached and not closed.
    fn deliver(&mut self, sinks: &[FrameSinkId], tick: u32)
        ensures { self.new ≡ deliver_by sinks.now tick self.old }
    {
        if has_sink(sinks, self.sink) && !self.closed {
            self.delivered = Some(tick);
        }
    }
}

/// The client with this number, if there is one.
pub fn client_of<'b, 'a>(clients: &'b [Client<'a>], c: u32) -> Option<&'b Client<'a>>
    ensures { option_copied result ≡ find (λ x. x.number == c) clients.now }
{
    clients.iter().find(|client| client.number == c)
}

/// Whether a sink is that of some client's file.
pub fn is_known(clients: &[Client<'_>], sink: FrameSinkId) -> bool
    ensures { result ≡ list_any (λ c. same_sink c.sink sink) clients.now }
{
    clients.iter().any(|client| client.sink == sink)
}

/// Whether the client of a sink is closed.
pub fn is_gone(clients: &[Client<'_>], sink: FrameSinkId) -> bool
    ensures { result ≡ list_any (λ c. c.closed && same_sink c.sink sink) clients.now }
{
    clients.iter().any(|client| client.has_gone(sink))
}

/// Whether the client with this number is closed.
pub fn has_closed(clients: &[Client<'_>], c: u32) -> bool
    ensures { result ≡ list_any (λ x. (x.number == c) && x.closed) clients.now }
{
    clients
        .iter()
        .any(|client| client.number == c && client.closed)
}

/// Delivers a begin-frame to the attached clients that are not closed.
pub fn deliver_all(clients: &mut [Client<'_>], sinks: &[FrameSinkId], tick: u32)
    ensures { clients.new ≡ map (deliver_by sinks.now tick) clients.old }
{
    for k in 0..clients.len() {
        clients[k].deliver(sinks, tick);
    }
}

/// Creates a client before its first message. It allocates nothing.
pub fn new_client<'a>(alloc: Global, number: u32, sink: FrameSinkId) -> Client<'a>
    ensures { result ≡ new_client number sink }
{
    Client {
        number,
        sink,
        taken: 0,
        closed: false,
        resources: Vec::new(alloc),
        queue: Room::new(alloc),
        delivered: None,
        answered: 0,
    }
}

/// The clients of the files, numbered from 1. The only error is a failed allocation.
pub fn new_clients<'a>(alloc: Global, files: &[ClientFile]) -> Result<Vec<Client<'a>>, AllocError>
    requires { length files.now ≤ MOST_FILES }
    ensures { IfOk result (λ v. v.items ≡ new_clients 1 files.now) }
{
    let mut clients = Vec::new(alloc);
    let mut k = 0;
    while k < files.len() {
        let number = number_after(k);
        clients.push(new_client(alloc, number, files[k].sink))?;
        k += 1;
    }
    Ok(clients)
}

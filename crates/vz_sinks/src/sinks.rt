//! The sinks of the clients, and the relations between them.
ghost use Rattle.std.specs.Prelude.{◌≡◌, ◌≤◌, ◌<◌, ◌⊎◌, [], length, map, is_some, Some, None, slice_get, OnOk, OnErr, IfOk, IfErr};
ghost use Rattle.vz_rules.specs.Messages.{relate};
ghost use Rattle.vz_sinks.specs.declared.refusals.SinkError.TheVariants as error;
ghost use Rattle.vz_sinks.specs.Relating.{seats_from, refusal_in, attached_in, delivered_to, standing, take_one, close_one};

use crate::reaching::{has_sink, put_reached};
use crate::refusals::{SinkError, refusal_for};
use crate::relations::{is_related, put_relation};
use crate::seats::{
    Seat, close_in, deliver_to_all, is_attached, is_known, is_own, put_seats, standing, take_from,
};
use std::alloc::Global;
use std::marker::Model;
use vz_base::Memory;
use vz_base::limits::MOST_FILES;
use vz_frame::{List, Room};
use vz_ids::FrameSinkId;

/// The frame sink hierarchy, after Chromium's `FrameSinkManagerImpl`: the clients' sinks, the
/// relations between sinks, and the pending begin-frames.
#[derive(Drop)]
pub struct Sinks {
    first: FrameSinkId,
    seats: Vec<Seat>,
    relations: Vec<(FrameSinkId, FrameSinkId)>,
    reached: List<FrameSinkId>,
}

impl Model for Sinks {
    ghost use Rattle.std.specs.Prelude.{◌≡◌};
    ghost use Rattle.vz_ids.specs.declared.FrameSinkId.{FrameSinkId as Id};
    ghost use Rattle.vz_rules.specs.Plan.{has_sink};
    ghost use Rattle.vz_rules.specs.Messages.{reaches};
    ghost use Rattle.vz_sinks.specs.Relating.{Related};

    ghost Value = { Related };

    ghost view = { λ a. record { first = a.first; seats = a.seats.items; relations = a.relations.items } };

    ghost invariant = { λ a. (sink : Id) → has_sink a.reached sink ≡ reaches a.relations.items a.first sink };
}

impl Sinks {
    /// Creates the hierarchy of clients with these sinks, numbered from 1, without relations. The
    /// only error is `Memory`, if an allocation fails. Condition: there are 1 to `MOST_FILES`
    /// sinks.
    pub fn new(sinks: &[FrameSinkId], alloc: Global) -> Result<Sinks, Memory>
        requires some { 0 < length sinks.now }
        requires few { length sinks.now ≤ MOST_FILES }
        ensures first { IfOk result (λ s. slice_get sinks.now 0 ≡ Some s.first) }
        ensures seats { IfOk result (λ s. s.seats ≡ seats_from 1 sinks.now) }
        ensures relations { IfOk result (λ s. s.relations ≡ []) }
    {
        let first = sinks[0];
        let mut seats = Vec::new(alloc);
        seats.try_reserve(sinks.len())?;
        put_seats(&mut seats, sinks);
        let relations = Vec::new(alloc);
        let mut reached = Room::new(alloc);
        reached.reserve(1)?;
        put_reached(&relations, first, &mut reached);
        Ok(Sinks {
            first,
            seats,
            relations,
            reached: reached.into_list(),
        })
    }

    /// Registers a relation that the client `by` asks for. A relation that is registered already
    /// is not added again. The error is the first reason for a refusal that holds, or `Memory` if
    /// an allocation fails; then nothing changes.
    pub fn register(
        &mut self,
        by: u32,
        parent: FrameSinkId,
        child: FrameSinkId,
        alloc: Global,
    ) -> Result<(), SinkError>
        ensures granted { OnOk result (refusal_in self.old by parent child ≡ None) }
        ensures refused { IfErr result
            (λ e. (e ≡ error.Memory) ⊎ (refusal_in self.old by parent child ≡ Some e)) }
        ensures first { self.new.first ≡ self.old.first }
        ensures seats { self.new.seats ≡ self.old.seats }
        ensures relations { OnOk result (self.new.relations
            ≡ relate parent child self.old.relations) }
        ensures err { OnErr result (self.new.relations ≡ self.old.relations) }
    {
        if let Some(reason) = self.refusal(by, parent, child, alloc)? {
            return Err(reason);
        }
        self.relate(parent, child, alloc)?;
        Ok(())
    }

    /// Why a relation is refused, or None if it is allowed. The only error is `Memory`, if an
    /// allocation fails.
    fn refusal(
        &self,
        by: u32,
        parent: FrameSinkId,
        child: FrameSinkId,
        alloc: Global,
    ) -> Result<Option<SinkError>, Memory>
        ensures { IfOk result (λ o. o ≡ refusal_in self.now by parent child) }
    {
        let mut below = Room::new(alloc);
        below.reserve(self.relations.len() + 1)?;
        put_reached(&self.relations, child, &mut below);
        let is_loop = has_sink(below.as_slice(), &parent);
        let are_known = is_known(&self.seats, &parent) & is_known(&self.seats, &child);
        let is_own = is_own(&self.seats, by, &parent);
        Ok(refusal_for(is_loop, are_known, is_own))
    }

    /// Adds a relation unless it is registered. If an allocation fails, nothing changes.
    fn relate(
        &mut self,
        parent: FrameSinkId,
        child: FrameSinkId,
        alloc: Global,
    ) -> Result<(), Memory>
        ensures first { self.new.first ≡ self.old.first }
        ensures seats { self.new.seats ≡ self.old.seats }
        ensures relations { OnOk result (self.new.relations
            ≡ relate parent child self.old.relations) }
        ensures err { OnErr result (self.new.relations ≡ self.old.relations) }
    {
        if is_related(&self.relations, &parent, &child) {
            return Ok(());
        }
        put_relation(
            &mut self.relations,
            &mut self.reached,
            self.first,
            parent,
            child,
            alloc,
        )
    }

    /// Whether a client is attached, so that begin-frames are delivered to it.
    pub fn attached(&self, c: u32) -> bool
        ensures { result ≡ attached_in self.now c }
    {
        is_attached(&self.seats, self.reached.as_slice(), c)
    }

    /// Delivers begin-frame `n` to each client that is attached and not closed. It replaces a
    /// pending one.
    pub fn begin(&mut self, n: u32)
        ensures first { self.new.first ≡ self.old.first }
        ensures seats { self.new.seats ≡ delivered_to self.old n }
        ensures relations { self.new.relations ≡ self.old.relations }
    {
        deliver_to_all(self.seats.as_mut_slice(), self.reached.as_slice(), n);
    }

    /// Whether a begin-frame of the client is pending.
    pub fn stands(&self, c: u32) -> bool
        ensures { result ≡ is_some (standing self.now.seats c) }
    {
        standing(&self.seats, c).is_some()
    }

    /// Takes the pending begin-frame of a client and returns its number, or None if none is
    /// pending.
    pub fn take(&mut self, c: u32) -> Option<u32>
        ensures value { result ≡ standing self.old.seats c }
        ensures first { self.new.first ≡ self.old.first }
        ensures seats { self.new.seats ≡ map (take_one c) self.old.seats }
        ensures relations { self.new.relations ≡ self.old.relations }
    {
        let taken = standing(&self.seats, c);
        take_from(self.seats.as_mut_slice(), c);
        taken
    }

    /// Closes a client, to which no begin-frame is delivered any more.
    pub fn close(&mut self, c: u32)
        ensures first { self.new.first ≡ self.old.first }
        ensures seats { self.new.seats ≡ map (close_one c) self.old.seats }
        ensures relations { self.new.relations ≡ self.old.relations }
    {
        close_in(self.seats.as_mut_slice(), c);
    }
}

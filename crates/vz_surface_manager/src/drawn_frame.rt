//! A draw.
ghost use Rattle.std.specs.Prelude.{◌≡◌, ◌≤◌, ℕ, None, Some, Option, IfOk, IfSome, OnOk, OnErr};
ghost use Rattle.vz_geom.specs.declared.Size.{Size, Size as DisplaySize};
ghost use Rattle.vz_geom.specs.Rectangle.{Rectangle};
ghost use Rattle.vz_ids.specs.declared.SurfaceId.{SurfaceId as Id};
ghost use Rattle.vz_rules.specs.Plan.{Plan};
ghost use Rattle.vz_rules.specs.World.{World};
ghost use Rattle.vz_rules.specs.Step.{draw_answer};
ghost use Rattle.vz_returns.specs.Lent.{AreLent, NoneReleased, HasPlaces, resources_out};
ghost use Rattle.vz_surface_manager.specs.Drawn_frame.{IsDrawing, Foretells, IsSeen, IsShowing, IsLifting, Finds, Measures, Flies};
ghost use Rattle.vz_surface_manager.specs.Flown.{subs_of};
ghost use Rattle.vz_surface_manager.specs.Rosters.{listing_count};
ghost use Rattle.vz_surface_manager.specs.Live.{AreLive};
ghost use Rattle.vz_surface_manager.specs.Frame_end.{flying_count};

use crate::live::LiveSurfaces;
use crate::{Flight, Flyer, Roster};
use std::alloc::Global;
use std::mem;
use vz_base::Memory;
use vz_damage::Measured;
use vz_frame::Room;
use vz_geom::Size;
use vz_ids::SurfaceId;
use vz_returns::Lenders;
use vz_rules::Fed;
use vz_surfaces::Store;

/// The least number of places for the feedback of a drawn frame.
const FEW: usize = 5;

/// What is known of the reply to a draw before the walk.
#[derive(Clone, Copy)]
pub enum Look {
    /// The reply is Busy: a drawn frame is not done yet.
    Busy,
    /// The reply is NoRoot: there is no root, or it has nothing to show.
    NoRoot,
    /// This root has something to show. The draw walks from it, and may still be over the limit.
    Seen(SurfaceId),
}

impl LiveSurfaces {
    /// What is known of the reply to a draw before the walk, for a display of any size. It
    /// allocates nothing. Condition: `root` is the root of the state.
    pub fn look(&self, root: Option<SurfaceId>) -> Look
        requires draws { (p : Plan) × (w : World) × (size : Size)
            × IsDrawing p w root size self.now }
        ensures tells { (p : Plan) (w : World) (size : Size) → IsDrawing p w root size self.now
            → Foretells p w root size self.now result }
    {
        if self.is_flying() {
            return Look::Busy;
        }
        let Some(root) = root else {
            return Look::NoRoot;
        };
        if self.store.frame_on(&root).is_none() {
            return Look::NoRoot;
        }
        Look::Seen(root)
    }

    /// The store of surfaces and submissions, from which the drawing operations are made.
    pub fn store(&self) -> &Store
        ensures { result.now ≡ self.now.store }
    {
        &self.store
    }

    /// Measures a draw in one walk from its root, on a display of this size in pixels: what
    /// changed, and the submissions that are drawn if something did. It is None exactly if the
    /// scene is over the limit on weight or depth. So the reply is known before anything is
    /// allocated for the frame; contracts see no change in any case. The only error is `Memory`,
    /// if an allocation fails. Condition: `look` returned `Seen` with this root.
    ///
    /// The draw ends with `leave` if nothing changed, and with `show` if something did.
    pub fn measure(
        &mut self,
        alloc: Global,
        root: &SurfaceId,
        size: Size,
    ) -> Result<Option<(Measured, Flight)>, Memory>
        requires seen { (p : Plan) × (w : World) × IsSeen p w root.now size self.old }
        ensures finds { (p : Plan) (w : World) → IsSeen p w root.now size self.old
            → IfOk result (Finds p w root.now size self.old) }
        ensures measured { IfOk result (λ o. IfSome o (λ f. Measures root.now size self.old f.0)) }
        ensures flown { IfOk result (λ o. IfSome o (λ f. Flies root.now size self.old f.1)) }
        ensures same { self.new ≡ self.old }
    {
        let flyer = Flyer::new(mem::replace(&mut self.idle, Roster::new(alloc)));
        let Some((measured, flyer)) = self.damage.measure(&self.store, root, size, flyer)? else {
            return Ok(None);
        };
        let flight = flyer.flight(&self.store, root, size);
        Ok(Some((measured, flight)))
    }

    /// Ends a draw that walked and found no change: the aggregation is remembered, and nothing is
    /// drawn. It allocates nothing.
    pub fn leave(&mut self, measured: Measured)
        ensures live { (p : Plan) (w : World) (root : Id) (size : DisplaySize)
            → IsShowing p w root size self.old → Measures root size self.old measured
            → measured.changed ≡ None → AreLive (draw_answer p w).world None self.new }
        ensures rest { self.new ≡ record self.old { damaged = self.new.damaged } }
    {
        self.damage.remember(measured);
    }

    /// Ends a draw that walked and found a change: the aggregation is remembered, and the frame
    /// is drawn. The submissions of the drawn frame hold what they list until it is done, and
    /// `fed` gets room for the feedback at its end. Condition: the draw walked from a root, and
    /// `measure` found this.
    ///
    /// The only error is `Memory`, if an allocation fails; then nothing changes, except that
    /// there may be more room.
    pub fn show(
        &mut self,
        measured: Measured,
        flight: Flight,
        fed: &mut Room<Fed>,
    ) -> Result<(), Memory>
        requires shows { (p : Plan) × (w : World) × (root : Id) × (size : DisplaySize)
            × IsShowing p w root size self.old × Flies root size self.old flight }
        ensures live { (p : Plan) (w : World) (root : Id) (size : DisplaySize) (damage : Rectangle)
            → IsShowing p w root size self.old → Flies root size self.old flight
            → Measures root size self.old measured → measured.changed ≡ Some damage
            → OnOk result (AreLive (draw_answer p w).world None self.new) }
        ensures kept { (w : World) (but : Option Id) → AreLive w but self.old
            → OnErr result (AreLive w but self.new) }
        ensures err { OnErr result (self.new ≡ record self.old { lent = self.new.lent }) }
        ensures rest { self.new ≡ record self.old {
          lent = self.new.lent;
          damaged = self.new.damaged;
          flight = self.new.flight;
        } }
        ensures released { NoneReleased self.new.lent }
        ensures out { resources_out self.new.lent ≡ resources_out self.old.lent }
        ensures room { OnOk result (flying_count self.new.flight ≤ fed.new.spare) }
        ensures list { fed.new.list ≡ fed.old.list }
    {
        fed.reserve(flight.len().max(FEW))?;
        let roster = flight.roster();
        let Some(listings) = roster.listings() else {
            return Err(Memory);
        };
        self.lending.ready_to_draw(listings)?;
        hold_each(&mut self.lending, roster);
        self.damage.remember(measured);
        self.flight = Some(flight);
        Ok(())
    }
}

/// Each submission of the drawn frame holds what it lists once more. Condition: there are places
/// for all of their listings.
fn hold_each(lending: &mut Lenders, roster: &Roster)
    requires lifts { (p : Plan) × (w : World) × IsLifting p w roster.now lending.old }
    requires room { (client : ℕ) → HasPlaces (listing_count roster.now) client lending.old }
    ensures lent { (p : Plan) (w : World) → IsLifting p w roster.now lending.old
        → AreLent (record w { in_flight = Some (subs_of roster.now) }) lending.new }
    ensures released { NoneReleased lending.new }
    ensures out { resources_out lending.new ≡ resources_out lending.old }
{
    for k in 0..roster.len() {
        let (sub, listings) = roster.get(k);
        lending.drawn(sub.client, listings);
    }
}

//! The machine that runs a plan.
ghost use Rattle.std.specs.Prelude.{◌≡◌, IfOk, OnErr, OnOk};
ghost use Rattle.std.specs.Option.{option_map};
ghost use Rattle.vz_rules.specs.declared.entry.Event.TheVariants.{Client, Begin, Draw, Done, Over};
ghost use Rattle.vz_rules.specs.World.{Machine as State};
ghost use Rattle.vz_rules.specs.Course.{some_waits};
ghost use Rattle.vz_rules.specs.Log.{rest_in};
ghost use Rattle.vz_rules.specs.Whole.{hit_in};
ghost use Rattle.vz_machine.specs.Stepping.{Answers, Goes, HasClient, IsOnDisplay, waits_at};
ghost use Rattle.vz_machine.specs.Stepping.{idle_at, answered_at, attached_at, listed_at, ShowsDrawn};

use crate::Picture;
use std::alloc::Global;
use vz_base::Memory;
use vz_geom::Point;
use vz_ids::SurfaceId;
use vz_rules::{BoxedEffects, Reply, Rest};

/// What an event is answered, and what follows from it.
#[derive(Drop)]
pub struct Step {
    /// The answer to the event.
    pub reply: Reply,
    /// What follows from it.
    pub effects: BoxedEffects,
}

/// A machine that takes the events of a plan one after the other. After each event, its reply,
/// its effects and its world are those that the definitions give. If an allocation fails, the
/// step returns `Memory` and the world is unchanged.
pub trait Machine {
    /// The plan that the machine runs, and the world that it represents.
    ghost state: { Self → State };

    /// The type of the pictures that drawings give.
    type Picture: Picture;

    /// Takes the next message of a client. Condition: the plan has that client. The only error is
    /// `Memory`, and then nothing changes.
    fn client(&mut self, alloc: Global, c: u32) -> Result<Step, Memory>
        requires { HasClient (state self.old) c }
        ensures answer { IfOk result (λ s. Answers (state self.old) (Client c) s) }
        ensures world { OnOk result (Goes (state self.old) (Client c) (state self.new)) }
        ensures err { OnErr result (state self.new ≡ state self.old) };

    /// Begins a frame: the tick rises by one, up to `LAST_TICK`, and is delivered to the attached
    /// clients. The only error is `Memory`, and then nothing changes.
    fn begin(&mut self, alloc: Global) -> Result<Step, Memory>
        ensures answer { IfOk result (λ s. Answers (state self.old) Begin s) }
        ensures world { OnOk result (Goes (state self.old) Begin (state self.new)) }
        ensures err { OnErr result (state self.new ≡ state self.old) };

    /// Draws the active surfaces. It returns a picture exactly if the answer is Drawn. The
    /// picture has the size of the plan's display, the colours of the scene and the damage of the
    /// answer. The only error is `Memory`, and then nothing changes.
    fn draw(&mut self, alloc: Global) -> Result<(Step, Option<Self::Picture>), Memory>
        ensures answer { IfOk result (λ d. Answers (state self.old) Draw d.0) }
        ensures picture { IfOk result (λ d. ShowsDrawn (state self.old) d.0.reply
            (option_map Self.Picture.pictured d.1)) }
        ensures world { OnOk result (Goes (state self.old) Draw (state self.new)) }
        ensures err { OnErr result (state self.new ≡ state self.old) };

    /// Ends the drawn frame if one is in flight. Its submissions are presented. It cannot fail.
    fn done(&mut self) -> Step
        ensures answer { Answers (state self.old) Done result }
        ensures world { Goes (state self.old) Done (state self.new) };

    /// Takes the event Over: from now on no client waits for a begin-frame. It cannot fail.
    fn over(&mut self) -> Step
        ensures answer { Answers (state self.old) Over result }
        ensures world { Goes (state self.old) Over (state self.new) };

    /// Whether a client would be answered NotYet if it sent its next message now. Condition: the
    /// plan has that client.
    fn waits(&self, c: u32) -> bool
        requires { HasClient (state self.now) c }
        ensures { result ≡ waits_at (state self.now) c };

    /// Whether a client is closed, has no message left, or would be answered NotYet. Condition:
    /// the plan has that client.
    fn idle(&self, c: u32) -> bool
        requires { HasClient (state self.now) c }
        ensures { result ≡ idle_at (state self.now) c };

    /// Whether a client has answered the current begin-frame. Condition: the plan has that
    /// client.
    fn answered(&self, c: u32) -> bool
        requires { HasClient (state self.now) c }
        ensures { result ≡ answered_at (state self.now) c };

    /// Whether a client gets begin-frames: client 1's sink is its own or an ancestor of it.
    /// Condition: the plan has that client.
    fn attached(&self, c: u32) -> bool
        requires { HasClient (state self.now) c }
        ensures { result ≡ attached_at (state self.now) c };

    /// How many resources the next message of a client lists. It is 0 if the client has no
    /// message left or the message is no Submit. Condition: the plan has that client.
    fn listed(&self, c: u32) -> u64
        requires { HasClient (state self.now) c }
        ensures { result ≡ listed_at (state self.now) c };

    /// Whether some submission waits to become active.
    fn waiting(&self) -> bool
        ensures { result ≡ some_waits (state self.now).world };

    /// What is hit at a point, in pixels from the top left of the display: the topmost surface
    /// there in the scene that a drawing would show if no frame were in flight, and the same point
    /// from the top left of that surface. None if nothing is there, if nothing can be seen, or if
    /// a drawing would answer TooMuch. An embedder sends an input event to the surface that it
    /// hits. Condition: the point is on the display. The only error is `Memory`.
    fn hit(&self, alloc: Global, p: Point) -> Result<Option<(SurfaceId, Point)>, Memory>
        requires { IsOnDisplay (state self.now) p }
        ensures { IfOk result (λ h. h ≡ hit_in (state self.now).plan (state self.now).world p) };

    /// What is outstanding: the references that were not given back, and the submissions without
    /// feedback. The only error is `Memory`.
    fn rest(&self, alloc: Global) -> Result<Rest, Memory>
        ensures { IfOk result (λ r. r ≡ rest_in (state self.now).world) };
}

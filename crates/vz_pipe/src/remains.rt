//! What is left once the sender has ended, and one thread has both ends.
ghost use Rattle.std.specs.Prelude.{◌≡◌, ◌++◌, ◌∷◌, [], true, ◌↔◌, IsNone, IfSome, IfNone};
ghost use mathlib.Core.List.{IsPrefix};
ghost use Rattle.crossbeam_channel.specs.Ends.{sends_on};
ghost use Rattle.crossbeam_channel.specs.Claims.{view as known, IsSeatAt};
ghost use Rattle.vz_pipe.specs.Rule.{sending, taking, HandsOver};
ghost use Rattle.vz_pipe.specs.Ends.{IsBoth};

use crate::parcel::Parcel;
use crate::plays::{Gets, Given, Gives, Inlet, Moves, SidePass, Sides};
use crate::receiver::Receiver;
use crate::sender::Sent;
use std::collections::VecDeque;
use std::marker::Brand;
use std::sync::Wait;

// Cuts a pass that knows both sides: it stays the sender's, and the result is the receiver's.
fn part<T: Drop>(inlet: &Inlet<T>, pass: &mut SidePass<T>) -> SidePass<T>
    requires both { IsBoth (sends_on inlet.now) pass.old }
    ensures seats { IsSeatAt (sends_on inlet.now) pass.new × IsSeatAt (sends_on inlet.now) result }
    ensures sender { known pass.new ≡ sending (known pass.old).put (known pass.old).gave }
    ensures receiver { known result ≡ taking (known pass.old).got (known pass.old).had }
{
    inlet.another::<Sides>(pass)
}

// Does the same, and the receiver gets this frame of the sender's list. Condition: the channel
// is empty.
fn part_with<T: Drop, G: Given<T>>(
    inlet: &Inlet<T>,
    pass: &mut SidePass<T>,
    frame: &T,
) -> SidePass<T>
    requires frame { G.frames ≡ frame.now ∷ [] }
    requires both { IsBoth (sends_on inlet.now) pass.old }
    requires empty { (known pass.old).put ≡ (known pass.old).got }
    ensures seats { IsSeatAt (sends_on inlet.now) pass.new × IsSeatAt (sends_on inlet.now) result }
    ensures sender { known pass.new
        ≡ sending (known pass.old).put ((known pass.old).gave ++ frame.now ∷ []) }
    ensures receiver { known result
        ≡ taking (known pass.old).got ((known pass.old).had ++ frame.now ∷ []) }
{
    inlet.another::<Gives<G>>(pass)
}

// Takes the next frame of the sender's list, and cuts the pass: it stays the sender's, and
// `other` becomes the receiver's. Condition: the channel is empty.
fn take_waiting<T: Drop>(
    inlet: &Inlet<T>,
    pass: &mut SidePass<T>,
    other: &mut SidePass<T>,
    list: &mut VecDeque<T>,
) -> Option<T>
    requires both { IsBoth (sends_on inlet.now) pass.old }
    requires empty { (known pass.old).put ≡ (known pass.old).got }
    ensures seats { IsSeatAt (sends_on inlet.now) pass.new
        × IsSeatAt (sends_on inlet.now) other.new }
    ensures given { HandsOver (known pass.old) list.old.items result
        (known pass.new) (known other.new) list.new.items }
{
    match list.pop_front() {
        Some(frame) => {
            *other = part_with::<T, Brand>(inlet, pass, &frame);
            Some(frame)
        }
        None => {
            *other = part(inlet, pass);
            None
        }
    }
}

impl<T: Drop> Receiver<T> {
    /// Takes the next frame that is left: first those in the channel, and then those in the
    /// sender's list. It returns None exactly if every frame that was sent is taken. It waits
    /// for nobody, and takes no memory. Condition: `sent` is what the sender of this pipe left.
    pub fn left<R: Wait>(&mut self, rt: &R, sent: &mut Sent<T>) -> Option<T>
        requires pipe { sent.old.pipe ≡ self.old.pipe }
        ensures pipe { self.new.pipe ≡ self.old.pipe }
        ensures token { sent.new.pipe ≡ sent.old.pipe }
        ensures sent { sent.new.sent ≡ sent.old.sent }
        ensures begins { IsPrefix self.old.taken sent.old.sent }
        ensures some { IfSome result (λ x. self.new.taken ≡ self.old.taken ++ x ∷ []) }
        ensures next { IsPrefix self.new.taken sent.old.sent }
        ensures none { IfNone result (self.new.taken ≡ self.old.taken) }
        ensures ended { self.old.ended ≡ true
            → self.old.taken ++ sent.old.waiting ≡ sent.old.sent }
        ensures all { IsNone result ↔ (self.old.taken ≡ sent.old.sent) }
    {
        let taking = sent.inlet.another::<Moves>(&mut self.pass);
        sent.inlet.absorb::<Sides>(&mut sent.pass, taking);
        match self.outlet.try_recv_as::<Gets, R>(rt, &mut sent.pass) {
            Ok(Parcel::Frame(frame)) => {
                self.pass = part(&sent.inlet, &mut sent.pass);
                Some(frame)
            }
            Ok(Parcel::End) => {
                self.ended = true;
                take_waiting(&sent.inlet, &mut sent.pass, &mut self.pass, &mut sent.list)
            }
            Err(_) => take_waiting(&sent.inlet, &mut sent.pass, &mut self.pass, &mut sent.list),
        }
    }

    /// Takes no frame and changes nothing. A caller that calls it may use its clause `begins`:
    /// what was taken is a front part of what was sent. A run needs this if its writer stopped
    /// writing. It waits for nobody, and takes no memory. Condition: `sent` is what the sender
    /// of this pipe left.
    pub fn compare(&mut self, sent: &mut Sent<T>)
        requires pipe { sent.old.pipe ≡ self.old.pipe }
        ensures receiver { self.new ≡ self.old }
        ensures sent { sent.new ≡ sent.old }
        ensures begins { IsPrefix self.old.taken sent.old.sent }
    {
        let taking = sent.inlet.another::<Moves>(&mut self.pass);
        sent.inlet.absorb::<Sides>(&mut sent.pass, taking);
        sent.inlet.learn_as::<Gets>(&mut sent.pass);
        self.pass = part(&sent.inlet, &mut sent.pass);
    }
}

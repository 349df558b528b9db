//! The sender's end, and what it leaves.
ghost use Rattle.std.specs.Prelude.{◌≡◌, ◌≢◌, ◌++◌, ◌∷◌, [], true, false, ◌⊎◌, OnOk, OnErr, None, IfSome, is_none, length};
ghost use Rattle.crossbeam_channel.specs.Ends.{sends_on};
ghost use Rattle.crossbeam_channel.specs.Claims.{view as known};
ghost use Rattle.vz_pipe.specs.Rule.{frames, has_end};
ghost use Rattle.vz_pipe.specs.Ends.{IsSending, pipe_of, is_shut};

use crate::parcel::{HandedBack, Parcel, handed_back};
use crate::plays::{Inlet, Puts, SidePass};
use std::collections::VecDeque;
use std::marker::Model;
use std::sync::Wait;
use vz_base::Memory;

/// The end that sends frames. Contracts see in it which pipe it belongs to, the frames that were
/// sent, oldest first, those of them that wait in its list, whether the mark of the end went into
/// the channel, and whether the channel handed a parcel back (`specs/Ends.antt`). If one of the
/// last two is so, the sender is shut. It cannot be dropped: `end` turns it into a `Sent`.
pub struct Sender<T: Drop> {
    inlet: Inlet<T>,
    pass: SidePass<T>,
    list: VecDeque<T>,
    marked: bool,
    back: Option<HandedBack>,
}

impl<T: Drop> Model for Sender<T> {
    ghost use Rattle.std.specs.Prelude.{◌≡◌, [], ◌++◌, is_some};
    ghost use Rattle.crossbeam_channel.specs.Ends.{sends_on};
    ghost use Rattle.crossbeam_channel.specs.Claims.{view as known};
    ghost use Rattle.vz_pipe.specs.Rule.{frames, has_end};
    ghost use Rattle.vz_pipe.specs.Ends.{Sending, pipe_of, IsSending};

    ghost Value = { Sending T };

    ghost view = { λ s. record {
      pipe = pipe_of (sends_on s.inlet);
      sent = frames (known s.pass).put ++ s.list.items;
      waiting = s.list.items;
      marked = s.marked;
      cut = is_some s.back;
    } };

    ghost invariant = { λ s. IsSending (sends_on s.inlet) [] s.pass
        × (has_end (known s.pass).put ≡ s.marked) };
}

/// What a sender leaves: the frames of its list, and its side of the channel. Contracts see in
/// it which pipe it belongs to, the frames that were sent, oldest first, and those of them that
/// wait in the list. `Receiver::left` needs it.
#[derive(Drop)]
pub struct Sent<T: Drop> {
    pub(crate) inlet: Inlet<T>,
    pub(crate) pass: SidePass<T>,
    pub(crate) list: VecDeque<T>,
}

impl<T: Drop> Model for Sent<T> {
    ghost use Rattle.std.specs.Prelude.{◌++◌};
    ghost use Rattle.crossbeam_channel.specs.Ends.{sends_on};
    ghost use Rattle.crossbeam_channel.specs.Claims.{view as known};
    ghost use Rattle.vz_pipe.specs.Rule.{frames};
    ghost use Rattle.vz_pipe.specs.Ends.{Remaining, pipe_of, IsSending};

    ghost Value = { Remaining T };

    ghost view = { λ s. record {
      pipe = pipe_of (sends_on s.inlet);
      sent = frames (known s.pass).put ++ ((known s.pass).gave ++ s.list.items);
      waiting = s.list.items;
    } };

    ghost invariant = { λ s. IsSending (sends_on s.inlet) (known s.pass).gave s.pass };
}

// Puts the frames of the list into the channel, the first one first, and waits for room. If the
// channel hands a frame back, that frame becomes the first of the list again, and the call ends.
// Returns None if all frames went into the channel.
fn pour<T: Drop, R: Wait>(
    rt: &R,
    inlet: &Inlet<T>,
    pass: &mut SidePass<T>,
    list: &mut VecDeque<T>,
) -> Option<HandedBack>
    requires pass { IsSending (sends_on inlet.now) [] pass.old }
    requires unmarked { has_end (known pass.old).put ≡ false }
    ensures pass { IsSending (sends_on inlet.now) [] pass.new }
    ensures unmarked { has_end (known pass.new).put ≡ false }
    ensures all { frames (known pass.new).put ++ list.new.items
        ≡ frames (known pass.old).put ++ list.old.items }
    ensures whole { result ≡ None → list.new.items ≡ [] }
    ensures back { IfSome result (λ b. list.new.items ≢ []) }
{
    while let Some(frame) = list.pop_front() {
        match inlet.send_as::<Puts, R>(rt, pass, Parcel::Frame(frame)) {
            Ok(()) => {}
            Err(error) => {
                let (parcel, back) = handed_back(error);
                match parcel {
                    Parcel::Frame(frame) => list.push_front_reserved(frame),
                    Parcel::End => unreachable!(),
                }
                return Some(back);
            }
        }
    }
    None
}

// Puts the mark of the end into the channel, and waits for room. Returns None if it went in.
fn mark<T: Drop, R: Wait>(rt: &R, inlet: &Inlet<T>, pass: &mut SidePass<T>) -> Option<HandedBack>
    requires pass { IsSending (sends_on inlet.now) [] pass.old }
    requires unmarked { has_end (known pass.old).put ≡ false }
    ensures pass { IsSending (sends_on inlet.now) [] pass.new }
    ensures frames { frames (known pass.new).put ≡ frames (known pass.old).put }
    ensures marked { has_end (known pass.new).put ≡ is_none result }
{
    match inlet.send_as::<Puts, R>(rt, pass, Parcel::End) {
        Ok(()) => None,
        Err(error) => {
            let (_, back) = handed_back(error);
            Some(back)
        }
    }
}

impl<T: Drop> Sender<T> {
    // Makes a sender that has sent nothing.
    pub(crate) fn new(inlet: Inlet<T>, pass: SidePass<T>, list: VecDeque<T>) -> Sender<T>
        requires pass { IsSending (sends_on inlet) [] pass }
        requires unmarked { (known pass).put ≡ [] }
        requires empty { list.items ≡ [] }
        ensures pipe { result.pipe ≡ pipe_of (sends_on inlet) }
        ensures sent { result.sent ≡ [] }
        ensures waiting { result.waiting ≡ [] }
        ensures marked { result.marked ≡ false }
        ensures cut { result.cut ≡ false }
    {
        Sender {
            inlet,
            pass,
            list,
            marked: false,
            back: None,
        }
    }

    /// Sends a frame. The frame becomes the last of the sender's list. If `go` is true and the
    /// sender is not shut, the frames of the list then go into the channel, the first one first,
    /// and the call waits for room, until the list is empty or the channel hands a frame back.
    /// That frame becomes the first of the list again, and the sender is shut.
    ///
    /// The only error is `Memory`, if the list cannot grow; then the frame is lost, and nothing
    /// changed.
    pub fn send<R: Wait>(&mut self, rt: &R, frame: T, go: bool) -> Result<(), Memory>
        ensures pipe { self.new.pipe ≡ self.old.pipe }
        ensures sent { OnOk result (self.new.sent ≡ self.old.sent ++ frame ∷ []) }
        ensures kept { OnErr result (self.new ≡ self.old) }
        ensures waits { go ≡ false
            → OnOk result (self.new.waiting ≡ self.old.waiting ++ frame ∷ []) }
        ensures goes { go ≡ true
            → OnOk result ((self.new.waiting ≡ []) ⊎ (is_shut self.new ≡ true)) }
        ensures marked { self.new.marked ≡ self.old.marked }
        ensures cut { self.new.cut ≡ true
            → (self.old.cut ≡ true) ⊎ ((go ≡ true) × (self.new.waiting ≢ [])) }
    {
        self.add(frame)?;
        if go {
            self.pass_on(rt);
        }
        Ok(())
    }

    /// Sends a frame, and leaves it in the sender's list until `pass_on` or a later `send`. It
    /// waits for nobody. The only error is `Memory`, if the list cannot grow; then the frame is
    /// lost, and nothing changed.
    pub fn add(&mut self, frame: T) -> Result<(), Memory>
        ensures pipe { self.new.pipe ≡ self.old.pipe }
        ensures sent { OnOk result (self.new.sent ≡ self.old.sent ++ frame ∷ []) }
        ensures kept { OnErr result (self.new ≡ self.old) }
        ensures waits { OnOk result (self.new.waiting ≡ self.old.waiting ++ frame ∷ []) }
        ensures marked { self.new.marked ≡ self.old.marked }
        ensures cut { self.new.cut ≡ self.old.cut }
    {
        self.list.push_back(frame)?;
        Ok(())
    }

    /// If the sender is not shut, the frames of its list go into the channel, the first one
    /// first, and the call waits for room, until the list is empty or the channel hands a frame
    /// back. That frame becomes the first of the list again, and the sender is shut. It takes no
    /// memory.
    pub fn pass_on<R: Wait>(&mut self, rt: &R)
        ensures pipe { self.new.pipe ≡ self.old.pipe }
        ensures sent { self.new.sent ≡ self.old.sent }
        ensures goes { (self.new.waiting ≡ []) ⊎ (is_shut self.new ≡ true) }
        ensures marked { self.new.marked ≡ self.old.marked }
        ensures cut { self.new.cut ≡ true → (self.old.cut ≡ true) ⊎ (self.new.waiting ≢ []) }
        ensures stays { is_shut self.old ≡ true → self.new ≡ self.old }
    {
        if !self.is_shut() {
            self.back = pour(rt, &self.inlet, &mut self.pass, &mut self.list);
        }
    }

    /// Shuts the sender: the mark of the end goes into the channel after the last frame there,
    /// so that the receiver waits no longer. The call waits for room, as `send` does. Frames
    /// that are sent later stay in the list. If the channel hands the mark back, the sender is
    /// shut as well. A sender that is shut stays as it is. It takes no memory.
    pub fn shut<R: Wait>(&mut self, rt: &R)
        ensures shut { is_shut self.new ≡ true }
        ensures same { self.new
            ≡ record self.old { marked = self.new.marked; cut = self.new.cut } }
        ensures stays { is_shut self.old ≡ true → self.new ≡ self.old }
    {
        if !self.is_shut() {
            self.back = mark(rt, &self.inlet, &mut self.pass);
            self.marked = self.back.is_none();
        }
    }

    // Whether nothing more goes into the channel.
    fn is_shut(&self) -> bool
        ensures { result ≡ is_shut self.now }
    {
        self.marked || self.back.is_some()
    }

    /// Ends the sender, and returns what it leaves. If the sender is not shut, this shuts it
    /// first, and may wait for room. It takes no memory.
    pub fn end<R: Wait>(mut self, rt: &R) -> Sent<T>
        ensures pipe { result.pipe ≡ self.pipe }
        ensures sent { result.sent ≡ self.sent }
        ensures waiting { result.waiting ≡ self.waiting }
    {
        self.shut(rt);
        let Sender {
            inlet,
            pass,
            list,
            marked: _,
            back: _,
        } = self;
        Sent { inlet, pass, list }
    }
}

impl<T: Drop> Sent<T> {
    /// How many frames wait in the sender's list.
    pub fn waiting(&self) -> usize
        ensures { result ≡ length self.now.waiting }
    {
        self.list.len()
    }
}

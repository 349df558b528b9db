//! How a pipe begins.
ghost use Rattle.std.specs.Prelude.{◌≡◌, ◌<◌, ◌≤◌, [], false, IfOk};
ghost use Rattle.vz_pipe.specs.Ends.{unused_sender, unused_receiver};

use crate::parcel::Parcel;
use crate::plays::{InOrder, Sides};
use crate::receiver::Receiver;
use crate::sender::Sender;
use crate::view::View;
use crossbeam_channel::bounded_with;
use std::alloc::Global;
use std::collections::VecDeque;
use vz_base::Memory;

/// The greatest capacity of a pipe, in frames.
pub const MOST_SLOTS: usize = 16;

/// Makes a pipe whose channel holds at most `capacity` frames, and returns its two ends. Nothing
/// was sent, and nothing was taken. The only error is `Memory`, and then there is no pipe.
/// Condition: the capacity is 1 to `MOST_SLOTS`.
pub fn pipe<T: Drop>(alloc: Global, capacity: usize) -> Result<(Sender<T>, Receiver<T>), Memory>
    requires some { 0 < capacity }
    requires few { capacity ≤ MOST_SLOTS }
    ensures sender { IfOk result (λ r. r.0 ≡ unused_sender r.0.pipe) }
    ensures receiver { IfOk result (λ r. r.1 ≡ unused_receiver r.0.pipe) }
{
    let (inlet, outlet, mut pass) = bounded_with::<Parcel<T>, View<T>, InOrder, Global>(
        alloc, capacity,
    )?;
    let taking = inlet.another::<Sides>(&mut pass);
    let sender = Sender::new(inlet, pass, VecDeque::new(alloc));
    let receiver = Receiver::new(outlet, taking);
    Ok((sender, receiver))
}

//! What goes through the channel, and what comes back.
ghost use Rattle.std.specs.Prelude.{◌≡◌};
ghost use Rattle.crossbeam_channel.specs.Err.{send_message};

use crossbeam_channel::SendError;

/// What the channel carries.
#[derive(Drop)]
pub enum Parcel<T> {
    /// A frame.
    Frame(T),
    /// The mark of the end: no frame comes after it.
    End,
}

/// The channel handed a parcel back. Only `handed_back` makes this, of the channel's own error.
#[derive(Clone, Copy, Drop)]
pub(crate) struct HandedBack {
    made: (),
}

/// The parcel that the channel handed back, and that it did so.
pub(crate) fn handed_back<T: Drop>(error: SendError<Parcel<T>>) -> (Parcel<T>, HandedBack)
    ensures { result.0 ≡ send_message error }
{
    (error.into_inner(), HandedBack { made: () })
}

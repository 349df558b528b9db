//! What a pass of the channel knows.
use crate::parcel::Parcel;
use std::collections::LinkedList;

/// What a pass of the channel knows. Each end of a pipe has a pass, and `left` joins the two
/// for a moment. Only proofs use this type; the program makes no value of it. All lists begin
/// with the oldest.
pub struct View<T> {
    /// Whether the pass knows the sender's side.
    pub sends: bool,
    /// Whether the pass knows the receiver's side.
    pub takes: bool,
    /// What the sender put into the channel.
    pub put: LinkedList<Parcel<T>>,
    /// What the receiver got from the channel.
    pub got: LinkedList<Parcel<T>>,
    /// The frames that the receiver got from the sender's list, as the sender's side knows them.
    pub gave: LinkedList<T>,
    /// The same frames, as the receiver's side knows them.
    pub had: LinkedList<T>,
}

//! The rule of the channel, and what is known after each step. Only proofs use these types; the
//! program makes no value of them.
//!
//! There are six kinds of steps:
//!
//! - the sender puts a parcel into the channel (`Puts`);
//! - the receiver gets a parcel from the channel (`Gets`);
//! - a pass that knows both sides is cut into the sender's and the receiver's (`Sides`);
//! - the same, and the receiver gets one more frame of the sender's list (`Gives`);
//! - what the receiver's pass knows goes to a new pass (`Moves`);
//! - the two passes are joined into one (`Sides`).
ghost use Rattle.std.specs.Prelude.{List, ◌++◌};
ghost use Rattle.vz_pipe.specs.Rule.{puts, Gets as gets, told, sending, taking, both, spent};

use crate::parcel::Parcel;
use crate::view::View;
use crossbeam_channel::protocol::{Join, Lesson, Outcome, Protocol, Split};
use crossbeam_channel::{Pass, RuledReceiver, RuledSender};
use std::marker::{Brand, PhantomData};

/// The rule: parcels come out of the channel in the order in which they went in.
pub struct InOrder;

impl<T> Protocol<Parcel<T>, View<T>> for InOrder {
    ghost use Rattle.vz_pipe.specs.Rule.{Ordered, both};
    ghost use Rattle.std.specs.Prelude.{[]};

    ghost holds = { Ordered };

    ghost first = { both [] [] [] [] };
}

/// The step in which the sender puts a parcel into the channel.
pub struct Puts;

impl<T> Outcome<Parcel<T>, View<T>> for Puts {
    ghost then = { puts };
}

impl<T> Lesson<Parcel<T>, View<T>> for Puts {
    ghost fact = { λ v items. Unit {0} };
}

/// The step in which the receiver gets a parcel from the channel, or finds it empty.
pub struct Gets;

impl<T> Outcome<Parcel<T>, View<T>> for Gets {
    ghost then = { gets };
}

impl<T> Lesson<Parcel<T>, View<T>> for Gets {
    ghost fact = { told };
}

/// The step that cuts a pass into the two sides, and the one that joins the two.
pub struct Sides;

impl<T> Split<View<T>> for Sides {
    ghost left = { λ v. sending v.put v.gave };

    ghost right = { λ v. taking v.got v.had };
}

impl<T> Join<View<T>> for Sides {
    ghost both = { λ v w. both v.put w.got v.gave w.had };

    ghost spent = { spent };
}

/// The step in which what the receiver's pass knows goes to a new pass.
pub struct Moves;

impl<T> Split<View<T>> for Moves {
    ghost left = { λ v. spent };

    ghost right = { λ v. v };
}

/// The frames of the sender's list that the receiver gets in a step. Each call says which.
pub trait Given<T> {
    ghost frames: { List T };
}

impl<T> Given<T> for Brand {
    ghost use Rattle.std.specs.Prelude.{[]};

    ghost frames = { [] };
}

/// The step that cuts a pass into the two sides, and the receiver gets frames of the list.
pub struct Gives<G> {
    given: PhantomData<G>,
}

impl<T, G: Given<T>> Split<View<T>> for Gives<G> {
    ghost left = { λ v. sending v.put (v.gave ++ G.frames) };

    ghost right = { λ v. taking v.got (v.had ++ G.frames) };
}

/// The sender's end of the channel.
pub type Inlet<T> = RuledSender<Parcel<T>, View<T>, InOrder>;

/// The receiver's end of the channel.
pub type Outlet<T> = RuledReceiver<Parcel<T>, View<T>, InOrder>;

/// The pass of one side, or of both.
pub type SidePass<T> = Pass<Parcel<T>, View<T>>;

//! What each caller of a hub has.

use crate::Register;
use vz_loans::Token;

/// The pass of a caller. Contracts see in it which hub it belongs to, the plan that the hub was
/// opened with, the caller's number, and `seen`: the entries up to the caller's last turn or
/// meeting, oldest first, each with the number of the caller that made it. The places of the
/// caller's own number in `seen`, from 1 on, are `mine`. A pass is the token of the hub's lock,
/// so that its method `number` gives the caller's number.
pub type Pass<M> = Token<Register<M>>;

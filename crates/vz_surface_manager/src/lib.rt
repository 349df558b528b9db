//! The surfaces of the machine and what belongs to them, after Chromium's SurfaceManager: the
//! waiting and active submissions, what their clients lent for them, the feedback that they
//! await, what they reference, what they changed, the drawn frame, and what each waits for.
//!
//! Each call of `LiveSurfaces` and of `Waiting` makes one change of the machine's state in all of
//! their parts. Its contract says: if the parts are right for some state before the call, they
//! are right for the next state after it. `SurfaceManager` has both, and does what follows a
//! step's own change: submissions become active, round by round, and surfaces that are not
//! reached are destroyed.
//!
//! A submission in the drawn frame (`Flight`) holds its resources until the frame is done, even
//! if it is no longer active by then, so the list of its resources is copied. Contracts see the
//! submissions in the order of acceptance, as the definitions have it. A store does not know this
//! order across clients: in memory the submissions are in the order in which the walk met them,
//! and `Flight::roster` returns them in that order.
//!
//! Three files of laws have no code beside them: which surfaces are kept (`kept_laws`, on a
//! `References`), what is reported of damage (`damage_laws`, on a `Damage`), and the drawn frame.
#![tactic(auto)]

mod arrival;
mod changes;
pub mod damage_laws;
mod drawing;
mod drawn_frame;
mod ended_subs;
mod flight;
pub mod flight_laws;
mod flyer;
mod frame_end;
mod index;
pub mod kept_laws;
mod lists;
mod live;
mod roster;
mod rounds;
mod surface_manager;
mod waiting;

pub use arrival::Arrival;
pub use changes::Accepted;
pub use drawn_frame::Look;
pub use flight::Flight;
pub use flyer::Flyer;
pub use index::Index;
pub use lists::Lists;
pub use live::LiveSurfaces;
pub use roster::Roster;
pub use surface_manager::SurfaceManager;
pub use waiting::Waiting;

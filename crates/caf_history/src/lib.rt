//! How far an image has come: the finishes that its main task has left, and the splits that it has arrived at, each found
//! at once by its team.
#![tactic(auto)]

mod arrival;
mod arrivals;
mod finishes;
mod group;
mod index;

pub use arrival::Arrival;
pub use arrivals::Arrivals;
pub use finishes::FinishesLeft;

//! A node of a cell with its disk, up or down; and the location database as such a node: what it is given, how it goes down, and how it
//! begins again. Each call is the step of its host.
#![tactic(auto)]

mod database;
mod database_serving;
mod database_starting;
pub mod resting;
pub mod running;
mod seats;
pub mod setting;
pub mod starting;
mod stores;

pub use resting::Resting;
pub use running::{DatabaseRunning, Running};
pub use seats::{DatabaseSeat, Seat};
pub use starting::Start;
pub use stores::OnDisk;

//! The cell in one thread: its location database and its servers with their disks, its clients, its administrators and the messages under way; and how a script is played there, and
//! told.
#![tactic(auto)]

mod database;
mod disks;
mod ending;
pub mod faults;
mod founding;
mod giving;
mod made;
mod playing;
mod reading;
mod replaying;
mod seating;
mod servers;
mod setup;
mod world;
mod writing;

pub use made::play_made;
pub use playing::Played;
pub use replaying::{replay, status_of_setup};
pub use setup::set_up;
pub use world::World;

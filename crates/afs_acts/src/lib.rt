//! The acts of users at a client: what an act has read, and what it needs next; where volumes are, and what a call asks of
//! whom.
#![tactic(auto)]

mod acts;
mod asking;
mod behind;
mod copies;
mod known;
mod named;
mod places;
mod reads;
mod types;
mod volumes;
mod walks;
mod ways;

pub use acts::next;
pub use asking::{question, volume_asked, volume_changed};
pub use copies::{copy_act, copy_body, copy_operand, copy_read};
pub use known::{Location, locations, with_location};
pub use named::Place;
pub use places::{find_place, homes_of, volume_at};
pub use reads::most_reads;
pub use types::{Going, Homes, Need, Reads, Shown};

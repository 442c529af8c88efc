//! What a cache manager keeps of fids, with the promises of their servers.
#![tactic(auto)]

mod cache;
mod copies;
mod drops;
mod gifts;
mod putting;
mod raw;
mod sight;

pub use cache::{Cache, Entry, Fresh};
pub use drops::Drops;
pub use gifts::{Gift, batch_len, copy_gifts, first_server_of, gift_batch, gift_call, in_order};
pub use sight::Sight;

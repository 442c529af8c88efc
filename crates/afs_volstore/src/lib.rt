//! What a server keeps on its disk: its volumes, its boot number, its stamps, its forwardings and the replies that outlive it. And in
//! memory alone, which volumes transactions hold.
#![tactic(auto)]

mod altering;
mod attaching;
mod committing;
pub mod creating;
mod fused;
pub mod held;
mod holding;
mod opening;
mod rereading;
mod store;

pub use store::VolStore;

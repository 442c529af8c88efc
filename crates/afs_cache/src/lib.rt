//! A client of the cell: a cache manager.
#![tactic(auto)]

mod acting;
mod locating;
mod node;
mod refusing;
mod rounds;
mod serving;
mod storing;
mod taking;

pub use node::CacheManager;

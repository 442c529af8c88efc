//! An administrator of the cell: it begins acts, takes replies, refusals and boot notices, sends its call again or gives it up, and keeps the
//! dumps that it took.
#![tactic(auto)]

mod asking;
mod dumps;
mod hearing;
mod node;
mod serving;
mod timing;
mod turning;

pub use node::Mover;

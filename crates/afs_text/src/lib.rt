//! The text that tells of a run: the lines of its history, its messages, and what stands at its end.
#![tactic(auto)]

/// All of these as one, to be written one behind another.
macro_rules! row {
    ($last:expr) => { $last };
    ($first:expr, $($rest:expr),+) => { ($first, row!($($rest),+)) };
}

mod acts;
mod bodies;
mod bytes;
pub mod histories;
pub mod laws;
mod laying;
mod lines;
mod numbers;
pub mod pieces;
mod printing;
mod run_lines;
pub mod volumes;

pub use laying::TextPiece;

//! Set-up: the lines that lay the first vnodes of a volume.
#![tactic(auto)]

mod laying;
mod laying_calls;

pub use laying::lay;

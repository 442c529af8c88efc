//! Set-up: the volumes of a script, laid line by line.
#![tactic(auto)]

mod ground;
mod laid;
mod sizes;

pub use ground::SetUpGround;

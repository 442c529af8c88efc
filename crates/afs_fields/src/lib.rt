//! The fields of messages are read and written, by the kinds of their rows.
#![tactic(auto)]

pub mod fields;
pub mod items;
pub mod lists;
pub mod macros;
pub mod messages;
pub mod slots;
pub mod tables;
pub mod taking;

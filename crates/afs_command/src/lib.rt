//! What the program is asked: the words of its command, and the script that its source holds. Also the statuses with which a call ends.
#![tactic(auto)]

pub mod scripts;
pub mod statuses;

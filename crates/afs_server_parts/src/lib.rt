//! The parts of a file server's memory: its callers, the nodes that it calls, and the replies that wait; and what a step
//! plans with them before anything is changed.
#![tactic(auto)]

pub mod answering;
pub mod callers;
pub mod calling;
pub mod ending;
pub mod faults;
pub mod held;
pub mod owed;
pub mod pumping;
pub mod turns;
pub mod words;

//! Calls: what a callee admits, and how a caller numbers its calls, sends them again and gives them up.
#![tactic(auto)]

mod caller;
mod seat;
mod table;

pub use caller::{Caller, LAST_TIMEOUT, Timeout, timed_out};
pub use seat::Admit;
pub use table::CallTable;
